// The generalized power cone of 002, as functions on values.
//
// Primal: s_1^{α_1} .. s_d^{α_d} ≥ |w|, s_1, .., s_d ≥ 0, where d is dim1 and w is the tail of dim2 numbers
// Dual: (z_1/α_1)^{α_1} .. (z_d/α_d)^{α_d} ≥ |w|, z_1, .., z_d ≥ 0
//
// `alpha` is the slice of the exponents in use, so dim1 is its length. Arrays that are handed back have 64 or 32 places; those behind
// the used ones are +0.
#![tactic(auto)]

ghost use Rattle.std.specs.Prelude.{◌≡◌, ◌+◌, ◌≤◌, ◌++◌, length, take};
ghost use Rattle.algebra.specs.newton.Equations.{gen_f0_at, gen_f1};
ghost use Rattle.algebra.specs.newton.Rounds.{newton_of};
ghost use Rattle.cone.specs.Points.{padded};
ghost use Rattle.genpowcone.specs.Feasible.{primal_residue, dual_residue, primal_feasible, dual_feasible};
ghost use Rattle.genpowcone.specs.PrimalGradient.{unit_initialization_of, x0_of, gradient_primal_of};
ghost use Rattle.genpowcone.specs.Barriers.{barrier_dual_of, barrier_primal_of, compute_barrier_of};
ghost use Rattle.genpowcone.specs.DualGradient.{update_dual_grad_h_of};
ghost use Rattle.genpowcone.specs.Rank3.{get_hs_of, mul_hs_at, coefficients_of, rank3_at};
ghost use Rattle.genpowcone.specs.loops.Places.{times, scaled};

use crate::loops::folds::{
    all_above_zero, dual_log_sum, dual_phi, less_logs, primal_log_sum, primal_phi,
};
use crate::loops::places::{
    diagonal, gradient_flat_head, gradient_head, logarithms, moved, negated, product_finished,
    product_head, product_tail, ratios, scale32, set_tail, tau_and_grad, times_from, times32,
    unit_head,
};
use algebra::newton::{Equation, Generalized, Solved, newton_raphson_onesided};
use algebra::vector::{dot, head, norm, sumsq, tail};
use cone::Wide;
use cone::verdict::{Answer, Residue};
use double::EPSILON;
use kernels::{exp, log, sqrt};

pub mod loops;

// The primal gradient, and how many Newton rounds it took; 0 where Newton was not entered.
#[derive(Clone, Copy)]
pub struct WideGradient {
    pub g: [f64; 64],
    pub rounds: u32,
}

// p0, p1, q0 and r1 of update_dual_grad_h.
#[derive(Clone, Copy)]
pub struct Coefficients {
    pub p0: f64,
    pub p1: f64,
    pub q0: f64,
    pub r1: f64,
}

// s and z alike
pub fn unit_initialization(alpha: &[f64]) -> [f64; 64]
    requires { length alpha.now ≤ 64 }
    ensures { result ≡ unit_initialization_of alpha.now }
{
    unit_head(alpha)
}

// we are returning here the diagonal D = [d1; d2] block; d1 is the slice of its used places
pub fn get_hs(mu: f64, d1: &[f64], d2: f64, dim2: usize) -> [f64; 64]
    requires { length d1.now + dim2 ≤ 64 }
    ensures { result ≡ get_hs_of mu d1.now d2 dim2 }
{
    let block = times_from([0.0; 64], 0, mu, d1);
    set_tail(block, d1.len(), dim2, mu * d2)
}

// Hs = μ*(D + pp' -qq' -rr'). One lifetime for the lists: a caller lends them from one record.
pub fn mul_hs<'a>(
    p: &'a [f64; 64],
    q: &'a [f64; 32],
    r: &'a [f64; 32],
    d1: &'a [f64; 32],
    d2: f64,
    mu: f64,
    dim1: usize,
    x: &[f64],
) -> [f64; 64]
    requires { (dim1 ≤ 32) × (length x.now ≤ dim1 + 32) }
    ensures { result ≡ mul_hs_at p.now q.now r.now d1.now d2 mu dim1 x.now }
{
    let x1 = head(x, dim1);
    let x2 = tail(x, dim1);

    let coef_p = dot(p, x);
    let coef_q = dot(q, x1);
    let coef_r = dot(r, x2);

    let y1 = product_head(d1, q, coef_q, x1);
    let y = product_tail(y1, dim1, d2, r, coef_r, x2);
    product_finished(&y, x.len(), coef_p, p, mu)
}

// step is the Rust's α, the length of the step from z and s.
pub fn compute_barrier(
    alpha: &[f64],
    z: &[f64],
    s: &[f64],
    dz: &[f64],
    ds: &[f64],
    step: f64,
) -> f64
    requires { (length alpha.now ≤ 64) × (length s.now ≤ 64) × (length z.now ≤ 64) }
    ensures { result ≡ compute_barrier_of alpha.now z.now s.now
        dz.now ds.now step }
{
    let cur_s = moved(s, step, ds);
    let ns = s.len().min(ds.len());
    let primal = barrier_primal(alpha, head(&cur_s, ns));

    let cur_z = moved(z, step, dz);
    let nz = z.len().min(dz.len());
    let dual = barrier_dual(alpha, head(&cur_z, nz));

    0.0 + primal + dual
}

// `res` of is_primal_feasible.
pub(crate) fn primal_residue(alpha: &[f64], s: &[f64]) -> Residue
    ensures { result ≡ primal_residue alpha.now s.now }
{
    let power = exp(primal_log_sum(alpha, s));
    let square = sumsq(tail(s, alpha.len()));
    Residue::of(power, square)
}

// `res` of is_dual_feasible, and what barrier_dual begins with.
pub(crate) fn dual_residue(alpha: &[f64], z: &[f64]) -> Residue
    ensures { result ≡ dual_residue alpha.now z.now }
{
    let power = exp(dual_log_sum(alpha, z));
    let square = sumsq(tail(z, alpha.len()));
    Residue::of(power, square)
}

// Whether s is primal feasible: where the Rust compares res with 0, Order 5 compares it with a margin
pub fn is_primal_feasible(alpha: &[f64], s: &[f64]) -> Answer
    ensures { result ≡ primal_feasible alpha.now s.now }
{
    if all_above_zero(head(s, alpha.len())) {
        return primal_residue(alpha, s).answer();
    }
    Answer::No
}

// Whether z is dual feasible
pub fn is_dual_feasible(alpha: &[f64], z: &[f64]) -> Answer
    ensures { result ≡ dual_feasible alpha.now z.now }
{
    if all_above_zero(head(z, alpha.len())) {
        return dual_residue(alpha, z).answer();
    }
    Answer::No
}

// Primal barrier: f(s) = ⟨s,g(s)⟩ - f*(-g(s))
// NB: ⟨s,g(s)⟩ = -(dim1(K)+1) = - ν
pub fn barrier_primal(alpha: &[f64], s: &[f64]) -> f64
    requires { (length alpha.now ≤ 64) × (length s.now ≤ 64) }
    ensures { result ≡ barrier_primal_of alpha.now s.now }
{
    let f = gradient_primal(alpha, s);
    let g = f.g;
    let used = head(&g, s.len());
    let minus_g = negated(used); //-g(s)
    let barrier = barrier_dual(alpha, head(&minus_g, used.len()));
    let degree = alpha.len() as u64 + 1;
    -barrier - std::num::nearest_u64_to_f64(degree)
}

pub fn barrier_dual(alpha: &[f64], z: &[f64]) -> f64
    ensures { result ≡ barrier_dual_of alpha.now z.now }
{
    let r = dual_residue(alpha, z);
    less_logs(-log(r.res), alpha, z)
}

// None where the Rust panics, since ζ is not above 0.
pub fn update_dual_grad_h(alpha: &[f64], z: &[f64]) -> Option<Wide>
    requires { (length alpha.now ≤ 32) × (length z.now ≤ length alpha.now + 32) }
    ensures { result ≡ update_dual_grad_h_of alpha.now z.now }
{
    let phi = dual_phi(alpha, z);

    let norm2w = sumsq(tail(z, alpha.len()));
    let zeta = phi - norm2w;
    // the Rust asserts this; a NaN is not above 0
    if zeta > 0.0 {
        Some(rank3(alpha, z, phi, norm2w))
    } else {
        None
    }
}

// update_dual_grad_h from ζ on; z and mu are not its to set
fn rank3(alpha: &[f64], z: &[f64], phi: f64, norm2w: f64) -> Wide
    requires { (length alpha.now ≤ 32) × (length z.now ≤ length alpha.now + 32) }
    ensures { result ≡ rank3_at alpha.now z.now phi norm2w }
{
    let dim1 = alpha.len();
    let w = tail(z, dim1);
    let zeta = phi - norm2w;

    // compute the gradient at z
    let heads = tau_and_grad(alpha, z, phi, zeta);
    let tau = heads.tau;
    let grad1 = heads.grad;
    let grad = times_from(grad1, dim1, 2.0 / zeta, w);

    // compute Hessian information at z
    let c = coefficients_of(phi, norm2w);

    // compute the diagonal d1,d2
    let d1 = diagonal(alpha, z, &tau, phi, zeta);

    // compute p, q, r; in the Rust τ shares memory with q
    let p = p_of(&tau, dim1, c.p0 / zeta, w, c.p1 / zeta);
    let q = q_of(&tau, dim1, c.q0 / zeta);
    let r = times32(c.r1 / zeta, w);
    Wide {
        z: [0.0; 64],
        mu: 0.0,
        grad,
        p,
        q,
        r,
        d1,
        d2: 2.0 / zeta,
    }
}

fn coefficients_of(phi: f64, norm2w: f64) -> Coefficients
    ensures { result ≡ coefficients_of phi norm2w }
{
    let zeta = phi - norm2w;
    let p0 = sqrt(phi * (phi + norm2w) / 2.0);
    let p1 = -2.0 * phi / p0;
    let q0 = sqrt(zeta * phi / 2.0);
    let r1 = 2.0 * sqrt(zeta / (phi + norm2w));
    Coefficients { p0, p1, q0, r1 }
}

// c0 times τ, then c1 times the tail w
fn p_of(tau: &[f64; 32], dim1: usize, c0: f64, w: &[f64], c1: f64) -> [f64; 64]
    requires { (dim1 ≤ 32) × (length w.now ≤ 32) }
    ensures { result ≡ padded 64 (times c0 (take dim1 tau.now) ++ times c1 w.now) }
{
    let p = times_from([0.0; 64], 0, c0, head(tau, dim1));
    times_from(p, dim1, c1, w)
}

fn q_of(tau: &[f64; 32], dim1: usize, c: f64) -> [f64; 32]
    ensures { result ≡ padded 32 (scaled (take dim1 tau.now) c) }
{
    scale32(head(tau, dim1), c)
}

// Compute the primal gradient of f(s) at s. Its tail is g1/norm_r times s's own (02, Order 4): the Rust takes the r of the last scaling
pub fn gradient_primal(alpha: &[f64], s: &[f64]) -> WideGradient
    requires { (length alpha.now ≤ 64) × (length s.now ≤ 64) }
    ensures { result ≡ gradient_primal_of alpha.now s.now }
{
    // the logarithms of the heads are taken once: the powers of phi need them, and so does each of Newton's rounds
    let p = head(s, alpha.len());
    let logs_of_p = logarithms(p);
    let logs = head(&logs_of_p, p.len());

    // unscaled phi
    let phi = primal_phi(alpha, p, logs);

    // obtain g1 from the Newton-Raphson method
    let r = tail(s, alpha.len());
    let norm_r = norm(r);

    if norm_r > EPSILON {
        let psi = 1.0 / sumsq(alpha);
        let found = newton_raphson_genpowcone(norm_r, logs, phi, alpha, psi);
        let g1 = found.x;
        let gp = gradient_head(alpha, p, g1, norm_r);
        let g = times_from(gp, alpha.len(), g1 / norm_r, r);
        WideGradient {
            g,
            rounds: found.rounds,
        }
    } else {
        let g = gradient_flat_head(alpha, p);
        WideGradient { g, rounds: 0 }
    }
}

// ----------------------------------------------
//  internal operations for generalized power cones

// Newton-Raphson method:
// solve a one-dimensional equation f(x) = 0
// x(k+1) = x(k) - f(x(k))/f'(x(k))
// When we initialize x0 such that 0 < x0 < x* and f(x0) > 0,
// the Newton-Raphson method converges quadratically
//
// logs are the logarithms of the Rust's p.
fn newton_raphson_genpowcone(normr: f64, logs: &[f64], phi: f64, alpha: &[f64], psi: f64) -> Solved
    requires { length alpha.now ≤ 64 }
    ensures { result ≡ newton_of (gen_f0_at normr alpha.now logs.now)
        (gen_f1 normr alpha.now) (x0_of normr phi psi) }
{
    // init point x0: f(x0) > 0
    let x0 = -(1.0 / normr)
        + (psi * normr + sqrt((phi / normr / normr + psi * psi - 1.0) * phi))
            / (phi - normr * normr);

    let ratios_of_alpha = ratios(alpha);
    let g = Generalized {
        normr,
        alpha,
        ratios: head(&ratios_of_alpha, alpha.len()),
        logs,
    };
    newton_raphson_onesided(x0, Equation::Generalized(g))
}
