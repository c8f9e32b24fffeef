// Sums and products over the head of a point. Each runs over the shorter of its two lists.
ghost use Rattle.std.specs.Prelude.{◌≡◌, map};
ghost use Rattle.kernels.specs.Door.{log_of};
ghost use Rattle.genpowcone.specs.loops.Folds.{all_above_zero, primal_log_sum, dual_log_sum, less_logs, primal_phi, dual_phi};

use kernels::{log, power, powf};

// Whether every number is above 0. The Rust's `all` stops at the first that is not; the answer is the same.
pub(crate) fn all_above_zero(xs: &[f64]) -> bool
    ensures { result ≡ all_above_zero xs.now }
{
    xs.iter().fold(true, |all, x| all & (*x > 0.0))
}

pub(crate) fn primal_log_sum(alpha: &[f64], s: &[f64]) -> f64
    ensures { result ≡ primal_log_sum alpha.now s.now }
{
    alpha
        .iter()
        .zip(s)
        .fold(0.0, |res, (a, x)| res + 2.0 * *a * log(*x))
}

pub(crate) fn dual_log_sum(alpha: &[f64], z: &[f64]) -> f64
    ensures { result ≡ dual_log_sum alpha.now z.now }
{
    alpha
        .iter()
        .zip(z)
        .fold(0.0, |res, (a, x)| res + 2.0 * *a * log(*x / *a))
}

// The second loop of barrier_dual, from `start` on.
pub(crate) fn less_logs(start: f64, alpha: &[f64], z: &[f64]) -> f64
    ensures { result ≡ less_logs start alpha.now z.now }
{
    alpha
        .iter()
        .zip(z)
        .fold(start, |barrier, (a, x)| barrier - log(*x) * (1.0 - *a))
}

// p is the head of the point, and logs are its logarithms, which the Rust's powf takes for itself.
pub(crate) fn primal_phi(alpha: &[f64], p: &[f64], logs: &[f64]) -> f64
    requires { logs.now ≡ map log_of p.now }
    ensures { result ≡ primal_phi alpha.now p.now }
{
    alpha
        .iter()
        .zip(p.iter().zip(logs))
        .fold(1.0, |phi, (a, (x, l))| phi * power(*x, 2.0 * *a, *l))
}

pub(crate) fn dual_phi(alpha: &[f64], z: &[f64]) -> f64
    ensures { result ≡ dual_phi alpha.now z.now }
{
    alpha
        .iter()
        .zip(z)
        .fold(1.0, |phi, (a, x)| phi * powf(*x / *a, 2.0 * *a))
}
