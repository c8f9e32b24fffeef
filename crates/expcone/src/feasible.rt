// The exponential cone of 000: the test of a point, as functions on values.
//
// Primal exponential cone: s3 ≥ s2*e^(s1/s2), s3,s2 > 0
// Dual exponential cone: z3 ≥ -z1*e^(z2/z1 - 1), z3 > 0, z1 < 0

ghost use Rattle.std.specs.Prelude.{◌≡◌};
ghost use Rattle.expcone.specs.feasible.Feasible.{primal_residue, dual_residue, primal_margin_at, dual_margin_at};
ghost use Rattle.expcone.specs.feasible.Feasible.{primal_feasible, dual_feasible};

use cone::verdict::{Answer, told};
use double::abs;
use kernels::log;

// What a cone test compares with its margin, beside the logarithm that both are made of.
#[derive(Clone, Copy)]
pub struct ExponentialResidue {
    pub res: f64,
    pub log: f64,
}

// `res` of is_primal_feasible.
pub(crate) fn primal_residue(s: [f64; 3]) -> ExponentialResidue
    ensures { result ≡ primal_residue s }
{
    let s1 = s[1];
    let l = log(s[2] / s1);
    ExponentialResidue {
        res: s1 * l - s[0],
        log: l,
    }
}

// `res` of is_dual_feasible.
pub(crate) fn dual_residue(z: [f64; 3]) -> ExponentialResidue
    ensures { result ≡ dual_residue z }
{
    let z0 = z[0];
    let l = log(-z[2] / z0);
    ExponentialResidue {
        res: z[1] - z0 - z0 * l,
        log: l,
    }
}

// 2^-40
const PART: f64 = 9.094947017729282379150390625e-13;

// l is the logarithm of the residue.
fn primal_margin(s: [f64; 3], l: f64) -> f64
    ensures { result ≡ primal_margin_at s l }
{
    let s0 = s[0];
    let s1 = s[1];
    PART * (s1 * (1.0 + abs(l)) + abs(s0))
}

// l is the logarithm of the residue.
fn dual_margin(z: [f64; 3], l: f64) -> f64
    ensures { result ≡ dual_margin_at z l }
{
    let z0 = z[0];
    let z1 = z[1];
    PART * (abs(z1) + abs(z0) * (1.0 + abs(l)))
}

// Whether s is primal feasible: where the Rust compares res with 0, Order 5 compares it with a margin
pub fn is_primal_feasible(s: [f64; 3]) -> Answer
    ensures { result ≡ primal_feasible s }
{
    if s[2] > 0.0 && s[1] > 0.0 {
        let primal = primal_residue(s);
        return told(primal.res, primal_margin(s, primal.log));
    }
    Answer::No // a sign test failed
}

// Whether z is dual feasible
pub fn is_dual_feasible(z: [f64; 3]) -> Answer
    ensures { result ≡ dual_feasible z }
{
    if z[2] > 0.0 && z[0] < 0.0 {
        let dual = dual_residue(z);
        return told(dual.res, dual_margin(z, dual.log));
    }
    Answer::No
}
