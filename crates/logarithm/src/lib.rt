// The logarithm kernel, in whole numbers up to the last rounding.
//
// A positive double is m·2^(k-1126), 2^52 ≤ m < 2^53. With c the m whose 44 low bits are cleared, c / 2^52 is 1+i/256 for an entry i of the
// table, and   log x = (k - 1074)·S(1/3) + log (c / 2^52) + log (m / c).
// The last is S(t) at t = (m - c)/(m + c), which is below 1/512, so that three of the forty terms do. The entry and t are rounded down, in
// units of 2^-56 and 2^-60; their sum is off by less than 300 units of 2^-64, and the whole by at most |k - 1074| + 3 units of 2^-54, of
// which 2^-44 is 1024.
#![tactic(auto)]

ghost use Rattle.std.specs.Prelude.{◌≡◌, ◌+◌, ◌*◌, ◌/◌, ◌^◌, ◌<◌, ◌≤◌};
ghost use Rattle.double.specs.Fields.{InNormalForm};
ghost use Rattle.logarithm.specs.Steps.{short_series_of, mantissa_of, scaled_of, positive_of, log_of};
ghost use Rattle.logarithm.specs.Estimates.{Near, Summands};

use crate::table::entry;
use double::Normal;

pub mod table;

// floor(d·2^60 / n), in five steps of which each fits a u64.
fn long_division(d: u64, n: u64) -> u64
    requires { (d < 2 ^ 44) × (0 < n) × (512 * d < n) × (n < 2 ^ 54) }
    ensures { result ≡ d * 2 ^ 60 / n }
{
    let a = d * 1048576;
    let b = a % n * 1024;
    let c = b % n * 1024;
    let e = c % n * 1024;
    let f = e % n * 1024;
    a / n * 1099511627776 + b / n * 1073741824 + c / n * 1048576 + e / n * 1024 + f / n
}

// Two estimates: of d·2^60 / n, and of the small terms of the series there, 2 (t³/3 + t⁵/5), in units of 2^-64.
#[derive(Clone, Copy)]
struct Estimate {
    q: u64,
    c: u64,
}

// Both in floating point: y is n / 2^60 but for n's last bit; beside 2^52 there is no place for a fraction, and it is rounded. The literals
// are 2/3·2^-116 and 2/5·2^-236.
fn estimated(d: u64, n: u64) -> Estimate
    requires { (d < 2 ^ 44) × (512 * d < n) × (2 ^ 53 ≤ n) × (n < 2 ^ 54) }
    ensures { Near d n result.q result.c }
{
    let x = d as f64;
    let y = f64::from_bits(0x3f70_0000_0000_0000 + n / 2);
    let r = x / y;
    let w = r * r;
    Estimate {
        q: f64::to_bits(r + 4503599627370496.0) % 0x10_0000_0000_0000,
        c: f64::to_bits(
            r * w * (8.024708101613482e-36 + w * 3.622271631530685e-72) + 4503599627370496.0,
        ) % 0x10_0000_0000_0000,
    }
}

// What d·2^60, raised by n, has over q·n: its lower half, which tells it where it is below 2·n.
fn left_over(d: u64, n: u64, q: u64) -> u64
    requires { (n < 2 ^ 54) × (q * n ≤ d * 2 ^ 60 + 2 ^ 56) × (d * 2 ^ 60 ≤ q * n + 2 ^ 56) }
    ensures { result < 2 * n → q * n + result ≡ d * 2 ^ 60 + n }
{
    std::num::wrapping_sub_u64(d % 16 * 0x1000_0000_0000_0000 + n, wide::low(q, n))
}

// floor(d·2^60 / n): a rest below n is left where q is one more than the quotient, and one from n up to 2·n where it is the quotient. The
// compiler subtracts the comparison and makes no branch, which would go wrong every other time.
fn settled(d: u64, n: u64, q: u64, rest: u64) -> u64
    requires { (q * n + rest ≡ d * 2 ^ 60 + n) × (rest < 2 * n) }
    ensures { (result ≡ d * 2 ^ 60 / n) × (result ≤ q) × (q ≤ result + 1) }
{
    if rest < n { q - 1 } else { q }
}

// 2 (t + t³/3 + t⁵/5), t and the answer in units of 2^-64.
fn short_series(t: u64) -> u64
    requires { t ≤ 2 ^ 56 }
    ensures { result ≡ short_series_of t }
{
    let t2 = wide::high(t, t);
    let t3 = wide::high(t, t2);
    let t5 = wide::high(t3, t2);
    2 * t + 2 * t3 / 3 + 2 * t5 / 5
}

// An entry and the series at t, in units of 2^-53, from an estimate c of the small terms. Of the units of 2^-64 only those are used that 2048
// divides; the whole series is summed where one of them lies within the estimate's error.
fn summed(e: u64, t: u64, c: u64) -> u64
    requires { Summands e t c }
    ensures { result ≡ (e + short_series_of (16 * t)) / 2 ^ 11 }
{
    let sum = e + 32 * t + c;
    if std::num::wrapping_sub_u64(sum % 2048, 8) < 2032 {
        return sum / 2048;
    }
    (e + short_series(16 * t)) / 2048
}

// The logarithm of m / 2^52, in units of 2^-53. No estimate was seen whose rest is 2·n or more; it would be left to the long division.
fn mantissa(m: u64) -> u64
    requires { (2 ^ 52 ≤ m) × (m < 2 ^ 53) }
    ensures { result ≡ mantissa_of m / 2 ^ 11 }
{
    let h = m / 0x1000_0000_0000;
    let d = m % 0x1000_0000_0000;
    let n = m + h * 0x1000_0000_0000;
    let i = (h % 256) as usize;
    let e = entry(i) * 256;
    let near = estimated(d, n);
    let q = near.q;
    let c = near.c;
    let rest = left_over(d, n, q);
    if rest < 2 * n {
        let t = settled(d, n, q, rest);
        return summed(e, t, c);
    }
    (e + short_series(16 * long_division(d, n))) / 2048
}

// n / 2^53; the literal is 2^-53.
fn scaled(n: u64) -> f64
    ensures { result ≡ scaled_of n }
{
    std::num::nearest_u64_to_f64(n) * 0.00000000000000011102230246251565
}

// S(1/3) in units of 2^-53: S(1/3)·2^53 is 6243314768165359.2089..
const LN2: u64 = 6243314768165359;

// The logarithm of n. Below 1 the turns of S(1/3) outweigh the mantissa's part by at least a unit, so that the answer is never
// -0.
fn positive(n: Normal) -> f64
    requires { InNormalForm n }
    ensures { result ≡ positive_of n.m n.k }
{
    let q = mantissa(n.m);
    if n.k < 1074 {
        -scaled((1074 - n.k) * LN2 - q)
    } else {
        scaled((n.k - 1074) * LN2 + q)
    }
}

// 01, log: of NaN it is NaN, of zero or below minus infinity, of +infinity itself. The sign is asked for first: -0 and the negative numbers
// have the highest bit.
pub fn log(x: f64) -> f64
    ensures { result ≡ log_of x }
{
    if x.is_nan() {
        return double::nan();
    }
    let b = f64::to_bits(x);
    if b >= 0x8000_0000_0000_0000 {
        return -1.0 / 0.0;
    }
    let field = b / 0x10_0000_0000_0000;
    let digits = b % 0x10_0000_0000_0000;
    match field {
        0 => {
            if digits == 0 {
                return -1.0 / 0.0;
            }
            positive(double::normal_of_low(digits))
        }
        1..=2046 => positive(Normal {
            m: 0x10_0000_0000_0000 + digits,
            k: field + 51,
        }),
        _ => 1.0 / 0.0,
    }
}
