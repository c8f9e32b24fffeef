// The four kernels behind one door: no formula above this crate knows which crate computes a root, a logarithm or an exponential.
#![tactic(auto)]

ghost use Rattle.std.specs.Prelude.{◌≡◌};
ghost use Rattle.kernels.specs.Door.{sqrt_of, log_of, exp_of, power_at, powf_of};

// The square root. 02, Order 11: "The cone code calls the new one", the one from a table estimate; its count is not asked for.
pub fn sqrt(x: f64) -> f64
    ensures { result ≡ sqrt_of x }
{
    root::table_root::sqrt(x).root
}

// The natural logarithm; 000's `logsafe`.
pub fn log(x: f64) -> f64
    ensures { result ≡ log_of x }
{
    logarithm::log(x)
}

// The exponential.
pub fn exp(x: f64) -> f64
    ensures { result ≡ exp_of x }
{
    exponential::exp(x)
}

// The power x^y.
pub fn powf(x: f64, y: f64) -> f64
    ensures { result ≡ powf_of x y }
{
    power(x, y, log(x))
}

// powf with log(x) as logx, for a caller that has taken it already. A NaN is asked for before y is 1 or 2, which answer it as 01 does:
// "a NaN among these has the bits above", which x itself or x·x may not have.
pub fn power(x: f64, y: f64, logx: f64) -> f64
    ensures { result ≡ power_at x y logx }
{
    if y == 0.0 {
        return 1.0;
    }
    if x.is_nan() {
        return double::nan();
    }
    if y == 1.0 {
        return x;
    }
    if y == 2.0 {
        return x * x;
    }
    if x < 0.0 {
        return double::nan();
    }
    exp(y * logx)
}
