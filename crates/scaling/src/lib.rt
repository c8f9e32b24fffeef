// Both scalings of the exponential and the power cone (003), as functions on values: the choice, and the dual one; the primal-dual block is
// `primal_dual`'s. And the new record that an update makes with them (`update`). Blocks are packed: (0,0),(0,1),(1,1),(0,2),(1,2),(2,2).
#![tactic(auto)]

ghost use Rattle.std.specs.Prelude.{◌≡◌};
ghost use Rattle.algebra.specs.Packed.{scaled_of};
ghost use Rattle.scaling.specs.Scalings.{measure_of, apart, update_hs_of};

use crate::primal_dual::{Measures, use_primal_dual_scaling};
use algebra::sym3::{quad_form, scaled_from};
use algebra::vector::{dot3, moved3};
use cone::DUAL;
use double::{EPSILON, SQRT_EPSILON, abs};
use kinds::three::gradient_primal;

pub mod primal_dual;
pub mod update;

// The scaling matrix Hs: choose the scaling strategy, dual, or else primal-dual. grad and h are the dual gradient and Hessian at z. There
// is none where the primal gradient panics.
pub(crate) fn update_hs(
    kind: u32,
    alpha: f64,
    strategy: u32,
    mu: f64,
    grad: [f64; 3],
    h: [f64; 6],
    s: [f64; 3],
    z: [f64; 3],
) -> Option<[f64; 6]>
    ensures { result ≡ update_hs_of kind alpha strategy mu grad h s z }
{
    if strategy == DUAL {
        // Dual scaling: Hs = μ*H
        return Some(use_dual_scaling(mu, h));
    }

    let primal = gradient_primal(kind, alpha, s)?;
    let zt = primal.g;
    let m = measure(h, grad, zt, s, z);
    if is_apart(m) {
        // use the primal-dual scaling
        return Some(use_primal_dual_scaling(h, grad, zt, s, z, m));
    }
    // use the dual scaling: Hs = μH when s,z are on the central path, with μ = ⟨s,z⟩/3 and not the caller's
    Some(use_dual_scaling(m.mu, h))
}

// implements dual only scaling
pub(crate) fn use_dual_scaling(mu: f64, h: [f64; 6]) -> [f64; 6]
    ensures { result ≡ scaled_of mu h }
{
    scaled_from(mu, h)
}

fn measure(h: [f64; 6], st: [f64; 3], zt: [f64; 3], s: [f64; 3], z: [f64; 3]) -> Measures
    ensures { result ≡ measure_of h st zt s z }
{
    // compute zt,st,μt locally
    // NB: zt,st have different sign convention wrt Mosek paper
    let dotsz = dot3(s, z);
    let mu = dotsz / 3.0;
    let mutilde = dot3(st, zt) / 3.0;

    // δs = s + μ*st
    // δz = z + μ*zt
    let ds = moved3(s, mu, st);
    let dz = moved3(z, mu, zt);
    let dotdsz = dot3(ds, dz);

    let de1 = mu * mutilde - 1.0;
    let de2 = quad_form(h, zt, zt) - 3.0 * mutilde * mutilde;
    Measures {
        dotsz,
        mu,
        mutilde,
        ds,
        dotdsz,
        de1,
        de2,
    }
}

// Whether the primal-dual scaling is used: not too close to central path, and the others for numerical stability. A NaN fails.
fn is_apart(m: Measures) -> bool
    ensures { result ≡ apart m }
{
    (abs(m.de1) > SQRT_EPSILON) & (abs(m.de2) > EPSILON) & (m.dotsz > 0.0) & (m.dotdsz > 0.0)
}
