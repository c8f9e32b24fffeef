// The third-order correction of the power cone and the combined shift (001), as functions on values.
ghost use Rattle.std.specs.Prelude.{◌≡◌};
ghost use Rattle.powcone.specs.correction.Correction.{higher_correction_of, combined_ds_shift_of};

use crate::dual_phi;
use algebra::sym3::{cholesky_3x3_explicit_factor, cholesky_3x3_explicit_solve, mul};
use algebra::vector::{dot3, shift3};

// h, z and grad are the scaling record's. expcone has the same steps around its own correction, as 000 has them beside 001.
pub fn combined_ds_shift(
    alpha: f64,
    h: [f64; 6],
    z: [f64; 3],
    grad: [f64; 3],
    stepz: [f64; 3],
    steps: [f64; 3],
    sigmamu: f64,
) -> [f64; 3]
    ensures { result ≡ combined_ds_shift_of alpha h z grad stepz steps sigmamu }
{
    //3rd order correction requires input variables.z
    let eta = higher_correction(alpha, h, z, steps, stepz);
    shift3(grad, sigmamu, eta)
}

// 3rd-order correction at the point z, where h is the Hessian of the dual barrier.  Output is η.
//
// 3rd order correction:
// η = -0.5*[(dot(u,Hψ,v)*ψ - 2*dotψu*dotψv)/(ψ*ψ*ψ)*gψ +
//            dotψu/(ψ*ψ)*Hψv + dotψv/(ψ*ψ)*Hψu -
//            dotψuv/ψ + dothuv]
// where:
// Hψ = [  2*α*(2*α-1)*ϕ/(z1*z1)     4*α*(1-α)*ϕ/(z1*z2)       0;
//         4*α*(1-α)*ϕ/(z1*z2)     2*(1-α)*(1-2*α)*ϕ/(z2*z2)   0;
//         0                       0                          -2;]
pub fn higher_correction(
    alpha: f64,
    h: [f64; 6],
    z: [f64; 3],
    ds: [f64; 3],
    v: [f64; 3],
) -> [f64; 3]
    ensures { result ≡ higher_correction_of alpha h z ds v }
{
    // solve H*u = ds
    let Some(l) = cholesky_3x3_explicit_factor(h) else {
        return [0.0; 3];
    };
    let u = cholesky_3x3_explicit_solve(l, ds);

    let z0 = z[0];
    let z1 = z[1];
    let z2 = z[2];
    let u0 = u[0];
    let u1 = u[1];
    let v0 = v[0];
    let v1 = v[1];

    let phi = dual_phi(alpha, z0, z1);
    let psi = phi - z2 * z2;

    // the gradient of ψ, which the Rust keeps in η
    let gpsi0 = 2.0 * alpha * phi / z0;
    let gpsi1 = 2.0 * (1.0 - alpha) * phi / z1;
    let gpsi2 = -2.0 * z2;
    let gpsi = [gpsi0, gpsi1, gpsi2];

    let hpsi = [
        2.0 * alpha * (2.0 * alpha - 1.0) * phi / (z0 * z0),
        4.0 * alpha * (1.0 - alpha) * phi / (z0 * z1),
        2.0 * (1.0 - alpha) * (1.0 - 2.0 * alpha) * phi / (z1 * z1),
        0.0,
        0.0,
        -2.0,
    ];

    let dotpsiu = dot3(u, gpsi);
    let dotpsiv = dot3(v, gpsi);

    let hpsiv = mul(hpsi, v);

    let coef = (dot3(u, hpsiv) * psi - 2.0 * dotpsiu * dotpsiv) / (psi * psi * psi);
    let coef2 = 4.0
        * alpha
        * (2.0 * alpha - 1.0)
        * (1.0 - alpha)
        * phi
        * (u0 / z0 - u1 / z1)
        * (v0 / z0 - v1 / z1)
        / psi;
    let inv_psi2 = 1.0 / (psi * psi);

    let eta0 = coef * gpsi0 - 2.0 * (1.0 - alpha) * u0 * v0 / (z0 * z0 * z0)
        + coef2 / z0
        + hpsiv[0] * dotpsiu * inv_psi2;

    let eta1 = coef * gpsi1 - 2.0 * alpha * u1 * v1 / (z1 * z1 * z1) - coef2 / z1
        + hpsiv[1] * dotpsiu * inv_psi2;

    let eta2 = coef * gpsi2 + hpsiv[2] * dotpsiu * inv_psi2;

    let hpsiu = mul(hpsi, u);

    // @. η <= (η + Hψu*dotψv*inv_ψ2)/2, as axpby(dotψv*inv_ψ2, Hψu, 1) and then scale(0.5)
    let a = dotpsiv * inv_psi2;
    [
        (a * hpsiu[0] + 1.0 * eta0) * 0.5,
        (a * hpsiu[1] + 1.0 * eta1) * 0.5,
        (a * hpsiu[2] + 1.0 * eta2) * 0.5,
    ]
}
