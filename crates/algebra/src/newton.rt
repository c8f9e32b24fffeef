// 003 newton_raphson_onesided, and the two equations that it solves: f0 and f1 of 001 _newton_raphson_powcone and of 002
// _newton_raphson_genpowcone.

ghost use Rattle.std.specs.Prelude.{◌≡◌};
ghost use Rattle.algebra.specs.newton.Equations.{pow_f0_at, pow_f1, gen_f0_at, gen_f1, f0_of, f1_of};
ghost use Rattle.algebra.specs.newton.Rounds.{stops_of, newton_of};

use double::{EPSILON, SQRT_EPSILON, abs};
use kernels::log;

pub mod equation;

pub use equation::{Equation, Generalized};

// Where the rounds ended, and how many were begun.
#[derive(Clone, Copy)]
pub struct Solved {
    pub x: f64,
    pub rounds: u32,
}

// 001: function for f(x) = 0
fn powcone_f0(s3: f64, logphi: f64, alpha: f64, t0: f64, x: f64) -> f64
    ensures { result ≡ pow_f0_at s3 logphi alpha t0 x }
{
    let t1 = x * x;
    let t2 = (x * 2.0) / s3;
    2.0 * alpha * log(2.0 * alpha * t1 + (1.0 + alpha) * t2)
        + 2.0 * (1.0 - alpha) * log(2.0 * (1.0 - alpha) * t1 + (2.0 - alpha) * t2)
        - logphi
        - log(t1 + t2)
        - 2.0 * log(t2)
        + t0
}

// 001: first derivative
fn powcone_f1(s3: f64, alpha: f64, x: f64) -> f64
    ensures { result ≡ pow_f1 s3 alpha x }
{
    let t1 = x * x;
    let t2 = (2.0 * x) / s3;
    (alpha * alpha * 2.0) / (alpha * x + (1.0 + alpha) / s3)
        + ((1.0 - alpha) * 2.0) * (1.0 - alpha) / ((1.0 - alpha) * x + (2.0 - alpha) / s3)
        - ((x + 1.0 / s3) * 2.0) / (t1 + t2)
}

// 002: function for f(x) = 0
fn genpowcone_f0(g: Generalized, x: f64) -> f64
    ensures { result ≡ gen_f0_at g.entry.normr g.entry.alpha.now g.entry.logs.now x }
{
    let normr = g.normr;
    let mut f = -log(2.0 * x / normr + x * x);
    for ((a, ratio), l) in g.alpha.iter().zip(g.ratios).zip(g.logs) {
        f = f + 2.0 * a * (log(x * normr + ratio) - l);
    }
    f
}

// 002: first derivative
fn genpowcone_f1(g: Generalized, x: f64) -> f64
    ensures { result ≡ gen_f1 g.entry.normr g.entry.alpha.now x }
{
    let normr = g.normr;
    let mut f = -(2.0 * x + 2.0 / normr) / (x * x + 2.0 * x / normr);
    for (a, ratio) in g.alpha.iter().zip(g.ratios) {
        f = f + 2.0 * a * normr / (normr * x + ratio);
    }
    f
}

fn f0(e: Equation, x: f64) -> f64
    ensures { result ≡ f0_of e.entry x }
{
    match e {
        Equation::Power {
            s3,
            logphi,
            alpha,
            t0,
        } => powcone_f0(s3, logphi, alpha, t0, x),
        Equation::Generalized(g) => genpowcone_f0(g, x),
    }
}

fn f1(e: Equation, x: f64) -> f64
    ensures { result ≡ f1_of e.entry x }
{
    match e {
        Equation::Power { s3, alpha, .. } => powcone_f1(s3, alpha, x),
        Equation::Generalized(g) => genpowcone_f1(g, x),
    }
}

// A NaN is below nothing: a step that is one stops no round by itself.
fn stops(x: f64, dx: f64, dfdx: f64) -> bool
    ensures { result ≡ stops_of x dx dfdx }
{
    (dx < EPSILON) | (abs(dx / x) < SQRT_EPSILON) | (abs(dfdx) < EPSILON)
}

pub fn newton_raphson_onesided(x0: f64, e: Equation) -> Solved
    ensures { result ≡ newton_of (f0_of e.entry) (f1_of e.entry) x0 }
{
    // implements NR method from a starting point assumed to be to the
    // left of the true value.   Once a negative step is encountered
    // this function will halt regardless of the calculated correction.
    let mut x = x0;
    for done in 0..100u32 {
        let dfdx = f1(e, x);
        let dx = -f0(e, x) / dfdx;
        if stops(x, dx, dfdx) {
            return Solved {
                x,
                rounds: done + 1,
            };
        }
        x += dx;
    }
    Solved { x, rounds: 100 }
}
