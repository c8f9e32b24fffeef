// Vectors as slices of any length, and as three numbers by value.

ghost use Rattle.std.specs.Prelude.{◌≡◌, take, drop};
ghost use Rattle.algebra.specs.Vectors.{dot_of, sum_of, sumsq_of, norm_of, mean_of, moved_of, shift_of, normalize_of};

use kernels::sqrt;

// The first n numbers, or all where there are fewer. A range of the Rust that can leave the slice would panic; this one has no bounds for a
// caller to prove.
pub fn head(xs: &[f64], n: usize) -> &[f64]
    ensures { result.now ≡ take n xs.now }
{
    if n <= xs.len() { &xs[..n] } else { xs }
}

// The numbers from place n on, or none.
pub fn tail(xs: &[f64], n: usize) -> &[f64]
    ensures { result.now ≡ drop n xs.now }
{
    if n <= xs.len() { &xs[n..] } else { &xs[..0] }
}

// Over the shorter of the two.
pub fn dot(xs: &[f64], ys: &[f64]) -> f64
    ensures { result ≡ dot_of xs.now ys.now }
{
    let mut t = 0.0;
    for (x, y) in xs.iter().zip(ys) {
        t = t + x * y;
    }
    t
}

pub fn sum(xs: &[f64]) -> f64
    ensures { result ≡ sum_of xs.now }
{
    let mut t = 0.0;
    for x in xs {
        t = t + x;
    }
    t
}

pub fn sumsq(xs: &[f64]) -> f64
    ensures { result ≡ sumsq_of xs.now }
{
    let mut t = 0.0;
    for x in xs {
        t = t + x * x;
    }
    t
}

pub fn norm(xs: &[f64]) -> f64
    ensures { result ≡ norm_of xs.now }
{
    sqrt(sumsq(xs))
}

// A NaN where there are no numbers: 0/0.
pub fn mean(xs: &[f64]) -> f64
    ensures { result ≡ mean_of xs.now }
{
    sum(xs) / std::num::nearest_u64_to_f64(xs.len() as u64)
}

// ---- three numbers by value

pub fn dot3(x: [f64; 3], y: [f64; 3]) -> f64
    ensures { result ≡ dot_of x y }
{
    dot(&x, &y)
}

pub(crate) fn norm3(x: [f64; 3]) -> f64
    ensures { result ≡ norm_of x }
{
    norm(&x)
}

// The point x + a*dx.
pub fn moved3(x: [f64; 3], a: f64, dx: [f64; 3]) -> [f64; 3]
    ensures { result ≡ moved_of x a dx }
{
    [x[0] + a * dx[0], x[1] + a * dx[1], x[2] + a * dx[2]]
}

// 000 and 001, the loop of combined_ds_shift.
pub fn shift3(grad: [f64; 3], sigmamu: f64, eta: [f64; 3]) -> [f64; 3]
    ensures { result ≡ shift_of grad sigmamu eta }
{
    [
        grad[0] * sigmamu - eta[0],
        grad[1] * sigmamu - eta[1],
        grad[2] * sigmamu - eta[2],
    ]
}

// A norm that is a NaN is not 0.
pub fn normalize3(x: [f64; 3]) -> [f64; 3]
    ensures { result ≡ normalize_of x }
{
    let norm = norm3(x);
    if norm == 0.0 {
        return x;
    }
    let c = 1.0 / norm;
    [x[0] * c, x[1] * c, x[2] * c]
}
