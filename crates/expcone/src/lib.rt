// The exponential cone of 000, as functions on values. The test of a point is in `feasible`, the Wright omega function in `wright`.
//
// Primal exponential cone: s3 ≥ s2*e^(s1/s2), s3,s2 > 0
// Dual exponential cone: z3 ≥ -z1*e^(z2/z1 - 1), z3 > 0, z1 < 0
#![tactic(auto)]

ghost use Rattle.std.specs.Prelude.{◌≡◌};
ghost use Rattle.expcone.specs.Barriers.{barrier_primal_of, barrier_dual_of, compute_barrier_of};
ghost use Rattle.expcone.specs.Correction.{higher_correction_of, combined_ds_shift_of};
ghost use Rattle.expcone.specs.DualGradient.{update_dual_grad_h_of};
ghost use Rattle.expcone.specs.PrimalGradient.{unit_initialization_of, gradient_primal_of};

use crate::wright::omega_at;
use algebra::sym3::{GradH, cholesky_3x3_explicit_factor, cholesky_3x3_explicit_solve};
use algebra::vector::{dot3, moved3, shift3};
use kernels::log;

pub mod feasible;
pub mod wright;

// The start of both s and z.
pub fn unit_initialization() -> [f64; 3]
    ensures { result ≡ unit_initialization_of }
{
    [
        -1.051_383_945_322_714,
        0.556_409_619_469_370,
        1.258_967_884_768_947,
    ]
}

pub fn combined_ds_shift(
    h: [f64; 6],
    z: [f64; 3],
    grad: [f64; 3],
    stepz: [f64; 3],
    steps: [f64; 3],
    sigmamu: f64,
) -> [f64; 3]
    ensures { result ≡ combined_ds_shift_of h z grad stepz steps sigmamu }
{
    //3rd order correction requires input variables.z
    let eta = higher_correction(h, z, steps, stepz);
    shift3(grad, sigmamu, eta)
}

// None where the Rust panics, as of barrier_primal and gradient_primal.
pub fn compute_barrier(
    z: [f64; 3],
    s: [f64; 3],
    dz: [f64; 3],
    ds: [f64; 3],
    alpha: f64,
) -> Option<f64>
    ensures { result ≡ compute_barrier_of z s dz ds alpha }
{
    let cur_z = moved3(z, alpha, dz);
    let cur_s = moved3(s, alpha, ds);

    let dual = barrier_dual(cur_z);
    let primal = barrier_primal(cur_s)?;
    Some(0.0 + dual + primal)
}

// Primal barrier:
// f(s) = ⟨s,g(s)⟩ - f*(-g(s))
//      = -2*log(s2) - log(s3) - log((1-barω)^2/barω) - 3,
// where barω = ω(1 - s1/s2 - log(s2) - log(s3))
// NB: ⟨s,g(s)⟩ = -3 = - ν
pub fn barrier_primal(s: [f64; 3]) -> Option<f64>
    ensures { result ≡ barrier_primal_of s }
{
    let s1 = s[1];
    let s2 = s[2];
    let w = omega_at(s)?;

    let w = (w - 1.0) * (w - 1.0) / w;

    Some(-log(w) - log(s1) * 2.0 - log(s2) - 3.0)
}

// Dual barrier:
// f*(z) = -log(z2 - z1 - z1*log(z3/-z1)) - log(-z1) - log(z3)
pub fn barrier_dual(z: [f64; 3]) -> f64
    ensures { result ≡ barrier_dual_of z }
{
    let z0 = z[0];
    let z1 = z[1];
    let z2 = z[2];
    let l = log(-z2 / z0);
    -log(-z2 * z0) - log(z1 - z0 - z0 * l)
}

// 3rd-order correction at the point z, where h is the Hessian of the dual barrier.  Output is η.
//
// η = -0.5*[(dot(u,Hψ,v)*ψ - 2*dotψu*dotψv)/(ψ*ψ*ψ)*gψ +
//      dotψu/(ψ*ψ)*Hψv + dotψv/(ψ*ψ)*Hψu - dotψuv/ψ + dothuv]
//
// where :
// Hψ = [  1/z[1]    0   -1/z[3];
//           0       0   0;
//         -1/z[3]   0   z[1]/(z[3]*z[3]);]
// dotψuv = [-u[1]*v[1]/(z[1]*z[1]) + u[3]*v[3]/(z[3]*z[3]);
//            0;
//           (u[3]*v[1]+u[1]*v[3])/(z[3]*z[3]) - 2*z[1]*u[3]*v[3]/(z[3]*z[3]*z[3])]
//
// dothuv = [-2*u[1]*v[1]/(z[1]*z[1]*z[1]) ;
//            0;
//           -2*u[3]*v[3]/(z[3]*z[3]*z[3])]
// Hψv = Hψ*v
// Hψu = Hψ*u
// gψ is used inside η
pub fn higher_correction(h: [f64; 6], z: [f64; 3], ds: [f64; 3], v: [f64; 3]) -> [f64; 3]
    ensures { result ≡ higher_correction_of h z ds v }
{
    // solve H*u = ds
    let Some(l) = cholesky_3x3_explicit_factor(h) else {
        return [0.0; 3];
    };
    let u = cholesky_3x3_explicit_solve(l, ds);

    let z0 = z[0];
    let z1 = z[1];
    let z2 = z[2];
    let u0 = u[0];
    let u2 = u[2];
    let v0 = v[0];
    let v2 = v[2];

    // the gradient of ψ, which the Rust keeps in η
    let gpsi1 = 1.0;
    let gpsi2 = -z0 / z2;
    let gpsi0 = log(gpsi2);
    let gpsi = [gpsi0, gpsi1, gpsi2];

    let psi = z0 * gpsi0 - z0 + z1;

    let dotpsiu = dot3(u, gpsi);
    let dotpsiv = dot3(v, gpsi);

    let coef = ((u0 * (v0 / z0 - v2 / z2) + u2 * (z0 * v2 / z2 - v0) / z2) * psi
        - 2.0 * dotpsiu * dotpsiv)
        / (psi * psi * psi);

    let inv_psi2 = 1.0 / (psi * psi);

    // efficient implementation for η above
    let eta0 = gpsi0 * coef
        + ((1.0 / psi - 2.0 / z0) * u0 * v0 / (z0 * z0) - u2 * v2 / (z2 * z2) / psi
            + dotpsiu * inv_psi2 * (v0 / z0 - v2 / z2)
            + dotpsiv * inv_psi2 * (u0 / z0 - u2 / z2));
    let eta1 = gpsi1 * coef;
    let eta2 = gpsi2 * coef
        + (2.0 * (z0 / psi - 1.0) * u2 * v2 / (z2 * z2 * z2) - (u2 * v0 + u0 * v2) / (z2 * z2) / psi
            + dotpsiu * inv_psi2 * (z0 * v2 / (z2 * z2) - v0 / z2)
            + dotpsiv * inv_psi2 * (z0 * u2 / (z2 * z2) - u0 / z2));

    [eta0 * 0.5, eta1 * 0.5, eta2 * 0.5]
}

pub fn update_dual_grad_h(z: [f64; 3]) -> GradH
    ensures { result ≡ update_dual_grad_h_of z }
{
    let z0 = z[0];
    let z1 = z[1];
    let z2 = z[2];

    // Hessian computation, compute μ locally
    let l = log(-z2 / z0);
    let r = -z0 * l - z0 + z1;

    // compute the gradient at z
    let c2 = 1.0 / r;

    let grad = [c2 * l - 1.0 / z0, -c2, (c2 * z0 - 1.0) / z2];

    // in packed order: (0,0),(0,1),(1,1),(0,2),(1,2),(2,2)
    let h = [
        (r * r - z0 * r + l * l * z0 * z0) / (r * z0 * z0 * r),
        -l / (r * r),
        1.0 / (r * r),
        (z1 - z0) / (r * r * z2),
        -z0 / (r * r * z2),
        (r * r - z0 * r + z0 * z0) / (r * r * z2 * z2),
    ];
    GradH { grad, h }
}

// Compute the primal gradient of f(s) at s
pub fn gradient_primal(s: [f64; 3]) -> Option<[f64; 3]>
    ensures { result ≡ gradient_primal_of s }
{
    let s1 = s[1];
    let s2 = s[2];
    let w = omega_at(s)?;

    let g0 = 1.0 / ((w - 1.0) * s1);
    let g1 = g0 + g0 * log(w * s1 / s2) - 1.0 / s1;
    let g2 = w / ((1.0 - w) * s2);
    Some([g0, g1, g2])
}
