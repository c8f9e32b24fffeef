// Symmetric 3x3 blocks in packed order: (0,0),(0,1),(1,1),(0,2),(1,2),(2,2).

ghost use Rattle.std.specs.Prelude.{◌≡◌};
ghost use Rattle.algebra.specs.Packed.{mul_of, quad_form_of, norm_fro_of, scaled_of, outer_of};
ghost use Rattle.algebra.specs.Cholesky.{factor_of, solve_of};

use crate::vector::dot3;
use kernels::sqrt;

pub fn mul(h: [f64; 6], x: [f64; 3]) -> [f64; 3]
    ensures { result ≡ mul_of h x }
{
    let x0 = x[0];
    let x1 = x[1];
    let x2 = x[2];
    [
        h[0] * x0 + h[1] * x1 + h[3] * x2,
        h[1] * x0 + h[2] * x1 + h[4] * x2,
        h[3] * x0 + h[4] * x1 + h[5] * x2,
    ]
}

pub fn quad_form(h: [f64; 6], y: [f64; 3], x: [f64; 3]) -> f64
    ensures { result ≡ quad_form_of h y x }
{
    let hx = mul(h, x);
    dot3(y, hx)
}

pub fn norm_fro(h: [f64; 6]) -> f64
    ensures { result ≡ norm_fro_of h }
{
    let d0 = h[0];
    let d1 = h[1];
    let d2 = h[2];
    let d3 = h[3];
    let d4 = h[4];
    let d5 = h[5];
    sqrt((d0 * d0 + d2 * d2 + d5 * d5) + 2.0 * (d1 * d1 + d3 * d3 + d4 * d4))
}

pub fn scaled_from(c: f64, h: [f64; 6]) -> [f64; 6]
    ensures { result ≡ scaled_of c h }
{
    [c * h[0], c * h[1], c * h[2], c * h[3], c * h[4], c * h[5]]
}

// All nine products of a component of x and one of y.
pub fn outer(x: [f64; 3], y: [f64; 3]) -> [[f64; 3]; 3]
    ensures { result ≡ outer_of x y }
{
    let x0 = x[0];
    let x1 = x[1];
    let x2 = x[2];
    let y0 = y[0];
    let y1 = y[1];
    let y2 = y[2];
    [
        [x0 * y0, x0 * y1, x0 * y2],
        [x1 * y0, x1 * y1, x1 * y2],
        [x2 * y0, x2 * y1, x2 * y2],
    ]
}

// A lower triangle in the block's packed order. "a pivot not above 0 fails", and so does one that is a NaN.
pub fn cholesky_3x3_explicit_factor(h: [f64; 6]) -> Option<[f64; 6]>
    ensures { result ≡ factor_of h }
{
    let p0 = h[0];
    if p0 > 0.0 {
        let l00 = sqrt(p0);
        let l10 = h[1] / l00;
        let p1 = h[2] - l10 * l10;
        if p1 > 0.0 {
            let l11 = sqrt(p1);
            let l20 = h[3] / l00;
            let l21 = (h[4] - l10 * l20) / l11;
            let p2 = h[5] - l20 * l20 - l21 * l21;
            if p2 > 0.0 {
                let l22 = sqrt(p2);
                return Some([l00, l10, l11, l20, l21, l22]);
            }
        }
    }
    None
}

pub fn cholesky_3x3_explicit_solve(l: [f64; 6], b: [f64; 3]) -> [f64; 3]
    ensures { result ≡ solve_of l b }
{
    let l00 = l[0];
    let l10 = l[1];
    let l11 = l[2];
    let l20 = l[3];
    let l21 = l[4];
    let l22 = l[5];
    // forward
    let y0 = b[0] / l00;
    let y1 = (b[1] - l10 * y0) / l11;
    let y2 = (b[2] - l20 * y0 - l21 * y1) / l22;
    // backward
    let x2 = y2 / l22;
    let x1 = (y1 - l21 * x2) / l11;
    let x0 = (y0 - l10 * x1 - l20 * x2) / l00;
    [x0, x1, x2]
}

// The gradient and the packed Hessian of the dual barrier of 000 or 001.
#[derive(Clone, Copy)]
pub struct GradH {
    pub grad: [f64; 3],
    pub h: [f64; 6],
}
