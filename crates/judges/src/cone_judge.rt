// What number 1 of the table asks of a cone: its kind, its rule, its exponents and its dims.
ghost use Rattle.std.specs.Prelude.{◌≡◌};
ghost use Rattle.judges.specs.cone_judge.Cones.{all_of, power_ok, exponent_ok, rule_ok, tolerance_of, sum_ok, wide_ok, three_ok};
ghost use Rattle.judges.specs.cone_judge.Cones.{cone_ok_within, cone_ok};

use crate::is_wide;
use algebra::vector::{head, sum};
use cone::Cone;

// How far from 1 the exponents of a generalized cone may sum up: 2^-40 under rule 1, 2^-50 under rule 2.
const TOLERANCE1: f64 = 9.094947017729282379150390625e-13;

const TOLERANCE2: f64 = 8.8817841970012523233890533447265625e-16;

fn power_ok(a: f64) -> bool
    ensures { result ≡ power_ok a }
{
    (a > 0.0) & (a < 1.0)
}

fn exponent_ok(a: f64) -> bool
    ensures { result ≡ exponent_ok a }
{
    (a > 0.0) & (a <= 1.0)
}

fn all_exponents(xs: &[f64]) -> bool
    ensures { result ≡ all_of exponent_ok xs.now }
{
    xs.iter().fold(true, |all, x| all & exponent_ok(*x))
}

pub fn rule_ok(rule: u32) -> bool
    ensures { result ≡ rule_ok rule }
{
    (rule == 1) | (rule == 2)
}

pub fn tolerance_of(rule: u32) -> f64
    ensures { result ≡ tolerance_of rule }
{
    if rule == 2 { TOLERANCE2 } else { TOLERANCE1 }
}

// The difference is exact where it matters: a sum between 1/2 and 2 less 1 is a double.
fn sum_ok(xs: &[f64], tolerance: f64) -> bool
    ensures { result ≡ sum_ok xs.now tolerance }
{
    let d = sum(xs) - 1.0;
    (d <= tolerance) & (-tolerance <= d)
}

pub fn wide_ok(dim1: u32, dim2: u32, exps: &[f64], tolerance: f64) -> bool
    ensures { result ≡ wide_ok dim1 dim2 exps.now tolerance }
{
    let used = head(exps, dim1 as usize);
    (1 <= dim1)
        & (dim1 <= 32)
        & (1 <= dim2)
        & (dim2 <= 32)
        & all_exponents(used)
        & sum_ok(used, tolerance)
}

// A cone whose kind is not 3.
pub fn three_ok(kind: u32, alpha: f64) -> bool
    ensures { result ≡ three_ok kind alpha }
{
    match kind {
        1 => true,
        2 => power_ok(alpha),
        _ => false,
    }
}

fn cone_ok_within(cone: Cone, tolerance: f64) -> bool
    ensures { result ≡ cone_ok_within tolerance cone }
{
    let kind = cone.kind;
    if is_wide(kind) {
        return wide_ok(cone.dim1, cone.dim2, &cone.exps, tolerance);
    }
    three_ok(kind, cone.exps[0])
}

// The rule is judged for every kind; its tolerance is kind 3's alone.
pub fn cone_ok(cone: Cone) -> bool
    ensures { result ≡ cone_ok cone }
{
    let rule = cone.rule;
    rule_ok(rule) & cone_ok_within(cone, tolerance_of(rule))
}
