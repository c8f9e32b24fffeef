// Runs vectors through `double`, a line for each bit pattern: the pattern, the pattern that comes back from its double, the size's pattern,
// whether it is finite, its class by the exponent field, and for a subnormal the m and k of m * 2^(k - 1126).

use std::io;

fn class(rt: &HostRuntime, b: u64) -> io::Result<()> {
    let t = b % 0x10_0000_0000_0000;
    let f = b / 0x10_0000_0000_0000 % 2048;
    match f {
        0 => {
            if t == 0 {
                return print!(rt; " zero");
            }
            let n = double::normal_of_low(t);
            print!(rt; " subnormal {:016x} {}", n.m, n.k)
        }
        1..=2046 => print!(rt; " normal"),
        _ => {
            if t == 0 {
                print!(rt; " infinity")
            } else {
                print!(rt; " nan")
            }
        }
    }
}

fn show(rt: &HostRuntime, b: u64) -> io::Result<()> {
    let x = double::of_bits(b);
    let back = double::to_bits(x);
    let size = double::to_bits(double::abs(x));
    print!(rt; "{b:016x} back {back:016x} abs {size:016x}")?;
    if double::is_finite(x) {
        print!(rt; " finite")?;
    } else {
        print!(rt; " not finite")?;
    }
    class(rt, b)?;
    println!(rt;)
}

pub(crate) fn run(rt: &HostRuntime) -> io::Result<()> {
    show(rt, 0x0000_0000_0000_0000)?;
    show(rt, 0x8000_0000_0000_0000)?;
    show(rt, 0x0000_0000_0000_0001)?;
    show(rt, 0x8000_0000_0000_0001)?;
    show(rt, 0x0000_0000_0000_0003)?;
    show(rt, 0x0008_0000_0000_0000)?;
    show(rt, 0x000f_ffff_ffff_ffff)?;
    show(rt, 0x800f_ffff_ffff_ffff)?;
    show(rt, 0x0010_0000_0000_0000)?;
    show(rt, 0x3ff0_0000_0000_0000)?;
    show(rt, 0xbff8_0000_0000_0000)?;
    show(rt, 0x3fb9_9999_9999_999a)?;
    show(rt, 0x7fef_ffff_ffff_ffff)?;
    show(rt, 0xffef_ffff_ffff_ffff)?;
    show(rt, 0x7ff0_0000_0000_0000)?;
    show(rt, 0xfff0_0000_0000_0000)?;
    // NaN patterns: signalling and quiet, of both signs, of several payloads
    show(rt, 0x7ff0_0000_0000_0001)?;
    show(rt, 0xfff0_0000_0000_0001)?;
    show(rt, 0x7ff7_ffff_ffff_ffff)?;
    show(rt, 0x7ff8_0000_0000_0000)?;
    show(rt, 0xfff8_0000_0000_0000)?;
    show(rt, 0x7ffc_dead_beef_0001)?;
    show(rt, 0x7fff_ffff_ffff_ffff)?;
    show(rt, 0xffff_ffff_ffff_ffff)?;
    // The double that `nan` answers
    let nan = double::to_bits(double::nan());
    println!(rt; "{nan:016x} nan()")
}
