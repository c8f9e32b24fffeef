// The power cone of 001, as functions on values.
//
// Primal power cone: s1^{α}s2^{1-α} ≥ s3, s1,s2 ≥ 0
// Dual power cone: (z1/α)^{α} * (z2/(1-α))^{1-α} ≥ z3, z1,z2 ≥ 0
//
// The exponent α is a parameter `alpha` of every function, and 1-α is computed anew at each place, as in the Rust.
#![tactic(auto)]

ghost use Rattle.std.specs.Prelude.{◌≡◌};
ghost use Rattle.powcone.specs.Feasible.{primal_residue, dual_residue, primal_feasible, dual_feasible};
ghost use Rattle.powcone.specs.Barriers.{dual_phi, barrier_dual_of, barrier_primal_of, compute_barrier_of};
ghost use Rattle.powcone.specs.PrimalGradient.{unit_initialization_of, newton_raphson_powcone_of, signed_of, gradient_primal_of};
ghost use Rattle.powcone.specs.DualGradient.{update_dual_grad_h_of};

use algebra::newton::{Equation, Solved, newton_raphson_onesided};
use algebra::sym3::GradH;
use algebra::vector::moved3;
use cone::verdict::{Answer, Residue};
use double::{EPSILON, abs};
use kernels::{exp, log, powf, sqrt};

pub mod correction;

// The primal gradient, and how many Newton rounds it took; 0 where Newton was not entered. Not one type with genpowcone's WideGradient, of
// 64 places: kinds/specs/Wide names that one.
#[derive(Clone, Copy)]
pub struct PowerGradient {
    pub g: [f64; 3],
    pub rounds: u32,
}

pub fn unit_initialization(alpha: f64) -> [f64; 3]
    ensures { result ≡ unit_initialization_of alpha }
{
    let s0 = sqrt(1.0 + alpha);
    let s1 = sqrt(1.0 + (1.0 - alpha));
    [s0, s1, 0.0]
}

// step is the Rust's α, the length of the step from z and s.
pub fn compute_barrier(
    alpha: f64,
    z: [f64; 3],
    s: [f64; 3],
    dz: [f64; 3],
    ds: [f64; 3],
    step: f64,
) -> f64
    ensures { result ≡ compute_barrier_of alpha z s dz ds step }
{
    let cur_z = moved3(z, step, dz);
    let cur_s = moved3(s, step, ds);

    0.0 + barrier_dual(alpha, cur_z) + barrier_primal(alpha, cur_s)
}

// `res` of is_primal_feasible.
pub(crate) fn primal_residue(alpha: f64, s: [f64; 3]) -> Residue
    ensures { result ≡ primal_residue alpha s }
{
    let power = exp(2.0 * alpha * log(s[0]) + 2.0 * (1.0 - alpha) * log(s[1]));
    Residue::of(power, s[2] * s[2])
}

// `res` of is_dual_feasible.
pub(crate) fn dual_residue(alpha: f64, z: [f64; 3]) -> Residue
    ensures { result ≡ dual_residue alpha z }
{
    let power = exp(
        (alpha * 2.0) * log(z[0] / alpha) + (1.0 - alpha) * log(z[1] / (1.0 - alpha)) * 2.0,
    );
    Residue::of(power, z[2] * z[2])
}

// Whether s is primal feasible: where the Rust compares res with 0, Order 5 compares it with a margin
pub fn is_primal_feasible(alpha: f64, s: [f64; 3]) -> Answer
    ensures { result ≡ primal_feasible alpha s }
{
    if s[0] > 0.0 && s[1] > 0.0 {
        return primal_residue(alpha, s).answer();
    }
    Answer::No
}

// Whether z is dual feasible
pub fn is_dual_feasible(alpha: f64, z: [f64; 3]) -> Answer
    ensures { result ≡ dual_feasible alpha z }
{
    if z[0] > 0.0 && z[1] > 0.0 {
        return dual_residue(alpha, z).answer();
    }
    Answer::No
}

// Primal barrier: f(s) = ⟨s,g(s)⟩ - f*(-g(s))
// NB: ⟨s,g(s)⟩ = -3 = - ν
pub fn barrier_primal(alpha: f64, s: [f64; 3]) -> f64
    ensures { result ≡ barrier_primal_of alpha s }
{
    let f = gradient_primal(alpha, s);
    let g = f.g;
    let g0 = g[0];
    let g1 = g[1];
    let g2 = g[2];

    let mut out = 0.0;

    out += log(
        powf(-g0 / alpha, 2.0 * alpha) * powf(-g1 / (1.0 - alpha), 2.0 - alpha * 2.0) - g2 * g2,
    );
    out += (1.0 - alpha) * log(-g0);
    out += alpha * log(-g1) - 3.0;
    out
}

// (z1/α)^{2α} * (z2/(1-α))^{2-2α}, with which barrier_dual, higher_correction and update_dual_grad_h each begin
pub(crate) fn dual_phi(alpha: f64, z0: f64, z1: f64) -> f64
    ensures { result ≡ dual_phi alpha z0 z1 }
{
    powf(z0 / alpha, 2.0 * alpha) * powf(z1 / (1.0 - alpha), 2.0 - 2.0 * alpha)
}

// Dual barrier:
// f*(z) = -log((z1/α)^{2α} * (z2/(1-α))^{2(1-α)} - z3*z3) - (1-α)*log(z1) - α*log(z2):
pub fn barrier_dual(alpha: f64, z: [f64; 3]) -> f64
    ensures { result ≡ barrier_dual_of alpha z }
{
    let z0 = z[0];
    let z1 = z[1];
    let z2 = z[2];
    let arg1 = dual_phi(alpha, z0, z1) - z2 * z2;

    -log(arg1) - (1.0 - alpha) * log(z0) - alpha * log(z1)
}

pub fn update_dual_grad_h(alpha: f64, z: [f64; 3]) -> GradH
    ensures { result ≡ update_dual_grad_h_of alpha z }
{
    let z0 = z[0];
    let z1 = z[1];
    let z2 = z[2];

    let phi = dual_phi(alpha, z0, z1);
    let psi = phi - z2 * z2;

    let g0 = 2.0 * alpha * phi / (z0 * psi);
    let g1 = 2.0 * (1.0 - alpha) * phi / (z1 * psi);
    let g2 = -2.0 * z2 / psi;

    // in packed order: (0,0),(0,1),(1,1),(0,2),(1,2),(2,2)
    let h = [
        g0 * g0 - 2.0 * alpha * (2.0 * alpha - 1.0) * phi / (z0 * z0 * psi)
            + (1.0 - alpha) / (z0 * z0),
        g0 * g1 - 4.0 * alpha * (1.0 - alpha) * phi / (z0 * z1 * psi),
        g1 * g1 - 2.0 * (1.0 - alpha) * (1.0 - 2.0 * alpha) * phi / (z1 * z1 * psi)
            + alpha / (z1 * z1),
        g0 * g2,
        g1 * g2,
        g2 * g2 + 2.0 / psi,
    ];

    // compute the gradient at z
    let grad = [
        -2.0 * alpha * phi / (z0 * psi) - (1.0 - alpha) / z0,
        -2.0 * (1.0 - alpha) * phi / (z1 * psi) - alpha / z1,
        2.0 * z2 / psi,
    ];
    GradH { grad, h }
}

// Compute the primal gradient of f(s) at s
pub fn gradient_primal(alpha: f64, s: [f64; 3]) -> PowerGradient
    ensures { result ≡ gradient_primal_of alpha s }
{
    let s0 = s[0];
    let s1 = s[1];
    let s2 = s[2];

    // unscaled ϕ
    let phi = powf(s0, 2.0 * alpha) * powf(s1, 2.0 - alpha * 2.0);

    // obtain last element of g from the Newton-Raphson method
    let abs_s = abs(s2);
    if abs_s > EPSILON {
        let found = newton_raphson_powcone(abs_s, phi, alpha);
        let g2 = signed(s2, found.x);
        let g0 = -(alpha * g2 * s2 + 1.0 + alpha) / s0;
        let g1 = -((1.0 - alpha) * g2 * s2 + 2.0 - alpha) / s1;
        PowerGradient {
            g: [g0, g1, g2],
            rounds: found.rounds,
        }
    } else {
        PowerGradient {
            g: [-(1.0 + alpha) / s0, -(2.0 - alpha) / s1, 0.0],
            rounds: 0,
        }
    }
}

fn signed(s2: f64, x: f64) -> f64
    ensures { result ≡ signed_of s2 x }
{
    if s2 < 0.0 { -x } else { x }
}

// ----------------------------------------------
//  internal operations for power cones

// Newton-Raphson method:
// solve a one-dimensional equation f(x) = 0
// x(k+1) = x(k) - f(x(k))/f'(x(k))
// When we initialize x0 such that 0 < x0 < x*,
// the Newton-Raphson method converges quadratically
fn newton_raphson_powcone(s3: f64, phi: f64, alpha: f64) -> Solved
    ensures { result ≡ newton_raphson_powcone_of s3 phi alpha }
{
    // init point x0: since our dual barrier has an additional
    // shift -2α*log(α) - 2(1-α)*log(1-α) > 0 in f(x),
    // the previous selection is still feasible, i.e. f(x0) > 0
    //
    // It is not so for exponents other than 1/2 (docs/DIFFERENCES.md): there x0 can lie right of the root, and the first round stops at it.
    let x0 = -(1.0 / s3) + (s3 * 2.0 + sqrt((phi * phi) / (s3 * s3) + phi * 3.0)) / (phi - s3 * s3);

    // additional shift due to the choice of dual barrier
    let t0 = -2.0 * alpha * log(alpha) - 2.0 * (1.0 - alpha) * log(1.0 - alpha);

    let logphi = log(phi);
    newton_raphson_onesided(
        x0,
        Equation::Power {
            s3,
            logphi,
            alpha,
            t0,
        },
    )
}
