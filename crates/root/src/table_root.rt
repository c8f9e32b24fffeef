// The second square root. 02, Order 11: "add another that starts from a table estimate and corrects it with whole-number steps. The two
// agree in every bit on all 2^64 inputs."
//
// The table gives 1 over the root of m / 2^52 to seven bits, and the first correction step, Newton's, makes them fourteen; it is never above.
// Times m it is a first root, never above either. Each further step adds the rest, times that number, halved: the rest falls by 2^14 and is
// never below zero, so that no number here has a sign and none is above 64 bits.
ghost use Rattle.std.specs.Prelude.{◌≡◌, ◌*◌, ◌^◌, ◌<◌, ◌≤◌};
ghost use Rattle.double.specs.Fields.{InNormalForm};
ghost use Rattle.root.specs.table_root.Steps.{reciprocal_of, first_of, step_of, whole_root_of, table_root_of, table_sqrt_of};
ghost use Rattle.root.specs.table_root.Room.{Started, StepFits};

use crate::under_root;
use double::Normal;

// A root so far, and what the number has over its square.
#[derive(Clone, Copy)]
struct Guess {
    root: u64,
    rest: u64,
}

// A whole root and the correction steps that it took.
#[derive(Clone, Copy)]
struct WholeRoot {
    root: u64,
    steps: u32,
}

// The root of a double and the correction steps that it took.
#[repr(C)]
#[derive(Clone, Copy)]
pub struct Root {
    pub root: f64,
    pub steps: u32,
}

// The first correction step, of the table's estimate: 1 over the root of m / 2^52, in units of 2^-31.
fn reciprocal(m: u64) -> u64
    requires { (2 ^ 52 ≤ m) × (m < 2 ^ 54) }
    ensures { result ≡ reciprocal_of m }
{
    let e = crate::reciprocal_table::estimate(m);
    (0x3_0000_0000_0000 * e - (m / 0x1000_0000 + 1) * (e * e * e)) / 0x4000_0000
}

// The root of m / 2^52 in units of 2^-30, from 1 over it.
fn first(m: u64, v: u64) -> Guess
    requires { Started m v }
    ensures { result ≡ first_of m v }
{
    let root = m / 0x1000_0000 * v / 0x200_0000;
    Guess {
        root,
        rest: m * 0x100 - root * root,
    }
}

// One correction step of the root, to units that are finer by `scale`.
fn step(v: u64, scale: u64, unit: u64, g: Guess) -> Guess
    requires { StepFits v scale unit g }
    ensures { result ≡ step_of v scale unit g }
{
    let root = g.root * scale;
    let rest = g.rest * (scale * scale);
    let more = g.rest / 0x4_0000 * v / unit;
    Guess {
        root: root + more,
        rest: rest - more * (2 * root + more),
    }
}

// The whole number nearest to the root of m * 2^52: four correction steps, and a fifth where the next number is nearer.
fn near_root(m: u64) -> WholeRoot
    requires { (2 ^ 52 ≤ m) × (m < 2 ^ 54) }
    ensures { result ≡ whole_root_of m }
{
    let v = reciprocal(m);
    let one = first(m, v);
    let two = step(v, 256, 0x10_0000_0000, one);
    let three = step(v, 128, 0x2000_0000_0000, two);
    let four = step(v, 128, 0x10_0000_0000_0000, three);
    if four.rest <= four.root {
        WholeRoot {
            root: four.root,
            steps: 4,
        }
    } else {
        WholeRoot {
            root: four.root + 1,
            steps: 5,
        }
    }
}

// The root of n. The root's leading one is left in the digits and adds one to the field.
fn root_of(n: Normal) -> Root
    requires { InNormalForm n }
    ensures { result ≡ table_root_of n }
{
    let found = near_root(n.m << (n.k % 2));
    Root {
        root: f64::from_bits((n.k / 2 + 485) * 0x10_0000_0000_0000 + found.root),
        steps: found.steps,
    }
}

// The square root, for every double, and its correction steps: none at a zero, at +infinity, and where the answer is NaN.
pub fn sqrt(x: f64) -> Root
    ensures { result ≡ table_sqrt_of x }
{
    match under_root(x) {
        Ok(n) => root_of(n),
        Err(root) => Root { root, steps: 0 },
    }
}
