// Arrays filled from the front; what is not written is +0. The counts of the caller's cone keep each place within its array.
ghost use Rattle.std.specs.Prelude.{◌≡◌, ◌+◌, ◌≤◌, map, length, take, replicate};
ghost use Rattle.std.specs.Float.Ieee.{neg};
ghost use Rattle.std.proofs.lemmas.List.Edits.{sets};
ghost use Rattle.kernels.specs.Door.{log_of};
ghost use Rattle.algebra.specs.Vectors.{moved_of};
ghost use Rattle.algebra.specs.newton.Equations.{ratio_of};
ghost use Rattle.cone.specs.Points.{padded};
ghost use Rattle.genpowcone.specs.loops.Places.{times, scaled, unit_head, gradient_head, flat_head, heads_of, diagonal_of};
ghost use Rattle.genpowcone.specs.loops.Places.{product_head, product_tail, finished};

use algebra::vector::head;
use cone::places::{filled, filled_by_three, filled_zipped, put, put_zipped};
use kernels::{log, sqrt};

// c*x in each place.
pub(crate) fn times32(c: f64, xs: &[f64]) -> [f64; 32]
    requires { length xs.now ≤ 32 }
    ensures { result ≡ padded 32 (times c xs.now) }
{
    filled(xs, |x| c * x)
}

// c*x from place n on.
pub(crate) fn times_from(g0: [f64; 64], n: usize, c: f64, xs: &[f64]) -> [f64; 64]
    requires { n + length xs.now ≤ 64 }
    ensures { result ≡ sets g0 n (times c xs.now) }
{
    put(g0, n, xs, |x| c * x)
}

// `scale`: x*c in each place.
pub(crate) fn scale32(xs: &[f64], c: f64) -> [f64; 32]
    requires { length xs.now ≤ 32 }
    ensures { result ≡ padded 32 (scaled xs.now c) }
{
    filled(xs, |x| x * c)
}

// `set`: v in the m places from place n on.
pub(crate) fn set_tail(g0: [f64; 64], n: usize, m: usize, v: f64) -> [f64; 64]
    requires { n + m ≤ 64 }
    ensures { result ≡ sets g0 n (replicate m v) }
{
    let mut g = g0;
    g[n..n + m].fill(v);
    g
}

// log(x) in each place.
pub(crate) fn logarithms(xs: &[f64]) -> [f64; 64]
    requires { length xs.now ≤ 64 }
    ensures { result ≡ padded 64 (map log_of xs.now) }
{
    filled(xs, |x| log(x))
}

// (1 + x)/x in each place.
pub(crate) fn ratios(xs: &[f64]) -> [f64; 64]
    requires { length xs.now ≤ 64 }
    ensures { result ≡ padded 64 (map ratio_of xs.now) }
{
    filled(xs, |x| (1.0 + x) / x)
}

// `negate`
pub(crate) fn negated(xs: &[f64]) -> [f64; 64]
    requires { length xs.now ≤ 64 }
    ensures { result ≡ padded 64 (map neg xs.now) }
{
    filled(xs, |x| -x)
}

// `waxpby` with the factor 1: x + a*dx, over the shorter of the two.
pub(crate) fn moved(x: &[f64], a: f64, dx: &[f64]) -> [f64; 64]
    requires { length x.now ≤ 64 }
    ensures { result ≡ padded 64 (moved_of x.now a dx.now) }
{
    filled_zipped(x, dx, |x, dx| x + a * dx)
}

// The head of unit_initialization.
pub(crate) fn unit_head(alpha: &[f64]) -> [f64; 64]
    requires { length alpha.now ≤ 64 }
    ensures { result ≡ padded 64 (unit_head alpha.now) }
{
    filled(alpha, |a| sqrt(1.0 + a))
}

// The head of gradient_primal where Newton was entered.
pub(crate) fn gradient_head(alpha: &[f64], p: &[f64], g1: f64, normr: f64) -> [f64; 64]
    requires { length alpha.now ≤ 64 }
    ensures { result ≡ padded 64 (gradient_head alpha.now p.now g1 normr) }
{
    filled_zipped(alpha, p, |a, x| -(1.0 + a + a * g1 * normr) / x)
}

// The head of gradient_primal where it was not.
pub(crate) fn gradient_flat_head(alpha: &[f64], p: &[f64]) -> [f64; 64]
    requires { length alpha.now ≤ 64 }
    ensures { result ≡ padded 64 (flat_head alpha.now p.now) }
{
    filled_zipped(alpha, p, |a, x| -(1.0 + a) / x)
}

// What the first loop of update_dual_grad_h fills: τ, and the gradient's head.
#[derive(Clone, Copy)]
pub struct Heads {
    pub tau: [f64; 32],
    pub grad: [f64; 64],
}

pub(crate) fn tau_and_grad(alpha: &[f64], z: &[f64], phi: f64, zeta: f64) -> Heads
    requires { length alpha.now ≤ 32 }
    ensures { result ≡ heads_of alpha.now z.now phi zeta }
{
    // a loop, as each quotient 2α/z is taken once and goes into both arrays
    let mut tau = [0.0; 32];
    let mut grad = [0.0; 64];
    for (i, (a, x)) in alpha.iter().zip(z).enumerate() {
        let ti = 2.0 * *a / *x;
        tau[i] = ti;
        grad[i] = -ti * phi / zeta - (1.0 - *a) / *x;
    }
    Heads { tau, grad }
}

pub(crate) fn diagonal(alpha: &[f64], z: &[f64], tau: &[f64], phi: f64, zeta: f64) -> [f64; 32]
    requires { (length alpha.now ≤ 32) × (length alpha.now ≤ length tau.now) }
    ensures { result ≡ padded 32 (diagonal_of alpha.now z.now tau.now phi zeta) }
{
    filled_by_three(
        tau,
        alpha,
        z,
        |t, a, x| t * phi / (zeta * x) + (1.0 - a) / (x * x),
    )
}

// mul_hs, y1 .= K.d1 .* x1 - coef_q.*K.q
pub(crate) fn product_head(d1: &[f64], q: &[f64], coefq: f64, x: &[f64]) -> [f64; 64]
    requires { (length x.now ≤ 64) × (length x.now ≤ length d1.now) × (length x.now ≤ length q.now) }
    ensures { result ≡ padded 64 (product_head d1.now q.now coefq x.now) }
{
    filled_by_three(d1, q, x, |d, q, x| d * x - coefq * q)
}

// mul_hs, y2 .= K.d2 .* x2 - coef_r.*K.r, from place n on
pub(crate) fn product_tail(
    y0: [f64; 64],
    n: usize,
    d2: f64,
    r: &[f64],
    coefr: f64,
    x: &[f64],
) -> [f64; 64]
    requires { (n + length x.now ≤ 64) × (length x.now ≤ length r.now) }
    ensures { result ≡ sets y0 n (product_tail d2 r.now coefr x.now) }
{
    put_zipped(y0, n, x, r, |x, r| d2 * x - coefr * r)
}

// mul_hs, y.axpby(coef_p, p, 1) and y.scale(μ): the first n places
pub(crate) fn product_finished(y: &[f64], n: usize, coefp: f64, p: &[f64], mu: f64) -> [f64; 64]
    requires { (n ≤ 64) × (n ≤ length y.now) × (n ≤ length p.now) }
    ensures { result ≡ padded 64 (take n (finished y.now coefp p.now mu)) }
{
    filled_zipped(head(p, n), head(y, n), |p, y| (coefp * p + 1.0 * y) * mu)
}
