// Runs both products of `wide` on every pair of the numbers whose digits are 0, 1, 2^31 or 2^32 - 1, and two others: a line for each pair,
// a, b and the two halves, and a word where the forms differ. What is expected was multiplied by other means, in whole numbers of any size.

use std::io;

fn show(rt: &HostRuntime, a: u64, b: u64) -> io::Result<()> {
    let h = wide::product(a, b);
    let f = wide::four::product(a, b);
    print!(rt; "{a:016x} {b:016x} {:016x} {:016x}", h.hi, h.lo)?;
    if f.hi != h.hi {
        print!(rt; " by four another upper half")?;
    }
    if f.lo != h.lo {
        print!(rt; " by four another lower half")?;
    }
    println!(rt;)
}

fn with(rt: &HostRuntime, a: u64) -> io::Result<()> {
    show(rt, a, 0x0000_0000_0000_0000)?;
    show(rt, a, 0x0000_0000_0000_0001)?;
    show(rt, a, 0x0000_0000_8000_0000)?;
    show(rt, a, 0x0000_0000_ffff_ffff)?;
    show(rt, a, 0x0000_0001_0000_0000)?;
    show(rt, a, 0x0000_0001_0000_0001)?;
    show(rt, a, 0x0000_0001_8000_0000)?;
    show(rt, a, 0x0000_0001_ffff_ffff)?;
    show(rt, a, 0x8000_0000_0000_0000)?;
    show(rt, a, 0x8000_0000_0000_0001)?;
    show(rt, a, 0x8000_0000_8000_0000)?;
    show(rt, a, 0x8000_0000_ffff_ffff)?;
    show(rt, a, 0xffff_ffff_0000_0000)?;
    show(rt, a, 0xffff_ffff_0000_0001)?;
    show(rt, a, 0xffff_ffff_8000_0000)?;
    show(rt, a, 0xffff_ffff_ffff_ffff)?;
    show(rt, a, 0x9e37_79b9_7f4a_7c15)?;
    show(rt, a, 0xc2b2_ae3d_27d4_eb4f)
}

pub(crate) fn run(rt: &HostRuntime) -> io::Result<()> {
    with(rt, 0x0000_0000_0000_0000)?;
    with(rt, 0x0000_0000_0000_0001)?;
    with(rt, 0x0000_0000_8000_0000)?;
    with(rt, 0x0000_0000_ffff_ffff)?;
    with(rt, 0x0000_0001_0000_0000)?;
    with(rt, 0x0000_0001_0000_0001)?;
    with(rt, 0x0000_0001_8000_0000)?;
    with(rt, 0x0000_0001_ffff_ffff)?;
    with(rt, 0x8000_0000_0000_0000)?;
    with(rt, 0x8000_0000_0000_0001)?;
    with(rt, 0x8000_0000_8000_0000)?;
    with(rt, 0x8000_0000_ffff_ffff)?;
    with(rt, 0xffff_ffff_0000_0000)?;
    with(rt, 0xffff_ffff_0000_0001)?;
    with(rt, 0xffff_ffff_8000_0000)?;
    with(rt, 0xffff_ffff_ffff_ffff)?;
    with(rt, 0x9e37_79b9_7f4a_7c15)?;
    with(rt, 0xc2b2_ae3d_27d4_eb4f)
}
