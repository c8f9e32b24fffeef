// Runs `log` on doubles by their patterns, a line for each: the pattern, and the pattern of its logarithm. The answers in stdout come from
// exact whole numbers outside.

use std::io;

fn show(rt: &HostRuntime, b: u64) -> io::Result<()> {
    let log = double::to_bits(logarithm::log(double::of_bits(b)));
    println!(rt; "{b:016x} {log:016x}")
}

pub(crate) fn run(rt: &HostRuntime) -> io::Result<()> {
    // 1 and its neighbours, powers of two and theirs, the ends of the normal and the subnormal numbers, an entry of the table
    show(rt, 0x3ff0_0000_0000_0000)?;
    show(rt, 0x3fef_ffff_ffff_ffff)?;
    show(rt, 0x3ff0_0000_0000_0001)?;
    show(rt, 0x4000_0000_0000_0000)?;
    show(rt, 0x3fff_ffff_ffff_ffff)?;
    show(rt, 0x3fe0_0000_0000_0000)?;
    show(rt, 0x3fdf_ffff_ffff_ffff)?;
    show(rt, 0x4005_bf0a_8b14_5769)?;
    show(rt, 0x4024_0000_0000_0000)?;
    show(rt, 0x3fb9_9999_9999_999a)?;
    show(rt, 0x3ff8_0000_0000_0000)?;
    show(rt, 0x7fef_ffff_ffff_ffff)?;
    show(rt, 0x0010_0000_0000_0000)?;
    show(rt, 0x000f_ffff_ffff_ffff)?;
    show(rt, 0x0008_0000_0000_0000)?;
    show(rt, 0x0000_0000_0000_0003)?;
    show(rt, 0x0000_0000_0000_0001)?;
    show(rt, 0x3ff0_1000_0000_0000)?;
    show(rt, 0x3ff0_0fff_ffff_ffff)?;
    show(rt, 0x3fff_f000_0000_0000)?;
    show(rt, 0x4086_2800_0000_0000)?;
    show(rt, 0x01a5_6e1f_c2f8_f359)?;
    show(rt, 0x4010_90fd_aa22_168c)?;
    // zero and below, the infinities, NaN
    show(rt, 0x0000_0000_0000_0000)?;
    show(rt, 0x8000_0000_0000_0000)?;
    show(rt, 0xbff0_0000_0000_0000)?;
    show(rt, 0x8000_0000_0000_0001)?;
    show(rt, 0xffef_ffff_ffff_ffff)?;
    show(rt, 0x7ff0_0000_0000_0000)?;
    show(rt, 0xfff0_0000_0000_0000)?;
    show(rt, 0x7ff8_0000_0000_0000)?;
    show(rt, 0x7ff0_0000_0000_0001)?;
    show(rt, 0xffff_ffff_ffff_ffff)
}
