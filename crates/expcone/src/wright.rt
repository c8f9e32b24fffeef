// ω(z) is the Wright-Omega function
// Computes the value ω(z) defined as the solution y to
// y+log(y) = z for reals z>=1.
//
// Follows Algorithm 4, §8.4 of thesis of Santiago Serrango:
//  Algorithms for Unsymmetric Cone Optimization and an
//  Implementation for Problems with the Exponential Cone
//  https://web.stanford.edu/group/SOL/dissertations/ThesisAkleAdobe-augmented.pdf

ghost use Rattle.std.specs.Prelude.{◌≡◌};
ghost use Rattle.expcone.specs.wright.Omega.{taylor_start, log_start, start_of, refine_of, refined_of, omega_of, omega_at};

use kernels::log;

const PI: f64 = 3.141592653589793;

// An approximation w and its residual r.
#[derive(Clone, Copy)]
pub struct Approx {
    pub w: f64,
    pub r: f64,
}

//Initialize with the taylor series
fn taylor_start(z: f64) -> f64
    ensures { result ≡ taylor_start z }
{
    let zm1 = z - 1.0;
    let mut p = zm1; //(z-1)
    let mut w = 1.0 + p * 0.5;
    p *= zm1; //(z-1)^2
    w += p * (1. / 16.0);
    p *= zm1; //(z-1)^3
    w -= p * (1. / 192.0);
    p *= zm1; //(z-1)^4
    w -= p * (1. / 3072.0);
    p *= zm1; //(z-1)^5
    w += p * (13. / 61440.0);
    w
}

// Initialize with:
// w(z) = z - log(z) +
//        log(z)/z +
//        log(z)/z^2(log(z)/2-1) +
//        log(z)/z^3(1/3log(z)^2-3/2log(z)+1)
fn log_start(z: f64, logz: f64) -> f64
    ensures { result ≡ log_start z logz }
{
    let zinv = 1.0 / z;
    let mut w = z - logz;

    // add log(z)/z
    let mut q = logz * zinv; // log(z)/z
    w += q;

    // add log(z)/z^2(log(z)/2-1)
    q *= zinv; // log(z)/(z^2)
    w += q * (logz / 2.0 - 1.0);

    // add log(z)/z^3(1/3log(z)^2-3/2log(z)+1)
    q *= zinv; // log(z)/(z^3)
    w += q * (logz * logz / 3.0 - logz * 1.5 + 1.0);
    w
}

fn start(z: f64) -> f64
    ensures { result ≡ start_of z }
{
    if z < 1.0 + PI {
        taylor_start(z)
    } else {
        log_start(z, log(z))
    }
}

fn refine(a: Approx) -> Approx
    ensures { result ≡ refine_of a }
{
    let w = a.w;
    let r = a.r;
    let wp1 = w + 1.0;
    let t = wp1 * (wp1 + (r * 2.0) / 3.0);
    let w = w * (1.0 + (r / wp1) * (t - r * 0.5) / (t - r));

    let r_4th = r * r * r * r;
    let wp1_6th = wp1 * wp1 * wp1 * wp1 * wp1 * wp1;
    let r = (w * w * 2.0 - w * 8.0 - 1.0) / (wp1_6th * 72.0) * r_4th;
    Approx { w, r }
}

fn refined(z: f64, w: f64) -> f64
    ensures { result ≡ refined_of z w }
{
    // Initialize the residual
    let mut a = Approx {
        w,
        r: z - w - log(w),
    };

    // Santiago suggests two refinement iterations only
    for _ in 0..2u32 {
        a = refine(a);
    }

    a.w
}

// None where the Rust panics: the argument is below 0.
fn wright_omega(z: f64) -> Option<f64>
    ensures { result ≡ omega_of z }
{
    if z < 0.0 {
        return None;
    }
    Some(refined(z, start(z)))
}

// The omega of 000 barrier_primal and gradient_primal at the point s.
pub(crate) fn omega_at(s: [f64; 3]) -> Option<f64>
    ensures { result ≡ omega_at s }
{
    wright_omega(1.0 - s[0] / s[1] - log(s[1] / s[2]))
}
