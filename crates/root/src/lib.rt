// The square root. 01: "IEEE 754, nearest, ties to even, stated by comparing whole-number squares. -0 gives -0, +infinity itself,
// NaN or a negative number NaN." At the root of this room is the plain way, digit by digit; `table_root` has the same bits from an estimate
// of `reciprocal_table`, and is what the cones call.
#![tactic(auto)]

ghost use Rattle.std.specs.Prelude.{◌≡◌, ◌*◌, ◌^◌, ◌<◌, MatchResult};
ghost use Rattle.double.specs.Fields.{InNormalForm};
ghost use Rattle.root.specs.Steps.{near_root, root_of, sqrt_of};
ghost use Rattle.root.specs.table_root.Steps.{table_root_of, table_sqrt_of, unstepped};

use double::Normal;
use wide::Halves;

pub mod reciprocal_table;
pub mod table_root;

// The whole number nearest to the root of m * 2^52, a digit at each turn: `rest` holds the digits of m that are still to come, at the top,
// and `rem` what the digits passed have over the square of `root`.
fn digit_by_digit(m: u64) -> u64
    requires { m < 2 ^ 54 }
    ensures { result ≡ near_root (m * 2 ^ 52) }
{
    let mut root: u64 = 0;
    let mut rem: u64 = 0;
    let mut rest: u64 = m << 10;
    for _ in 0..53_u64 {
        let have = rem * 4 + (rest >> 62);
        let trial = root * 4 + 1;
        if trial <= have {
            rem = have - trial;
            root = root * 2 + 1;
        } else {
            rem = have;
            root = root * 2;
        }
        rest = rest << 2;
    }
    if root < rem { root + 1 } else { root }
}

// The same, by an estimate that is checked: it is the r with r (r - 1) < m * 2^52 ≤ r (r + 1). Where the check does not tell, the digits
// do.
fn near_root(m: u64) -> u64
    requires { m < 2 ^ 54 }
    ensures { result ≡ near_root (m * 2 ^ 52) }
{
    // An estimate, of which nothing is proved: the root of x = m / 2^52, from 1 up to 4. A line is within 3 % of it, and Newton's turns
    // make of that twice, four times and eight times the root. A turn's error is half the square of the one before, and never below 0: the
    // factors 1 and 4 are lessened by as much, so that it lies on both sides.
    let odd = m / 0x20_0000_0000_0000;
    let x = f64::from_bits((1022 + odd) * 0x10_0000_0000_0000 + (m >> odd));
    let y = 0.34307 * (x + 2.0);
    let y = y + 0.99955 * x / y;
    let y = y + 3.9999999 * x / y;
    let y = y + 16.0 * x / y;
    // One below the 53 digits of y, which is from 8 up to 16: there the field is even and falls away. At 16 it is odd and makes the digits
    // 2^53.
    let r = double::to_bits(y) % 0x20_0000_0000_0000 + 0xf_ffff_ffff_ffff;
    let n = Halves {
        hi: m / 0x1000,
        lo: m % 0x1000 * 0x10_0000_0000_0000,
    };
    // What m * 2^52 has over r (r - 1). The next three such products are 2 r, 4 r + 2 and 6 r + 6 above that one.
    let rest = wide::left(n, wide::four::product(r, r - 1));
    if rest > 0 {
        if rest <= 2 * r {
            return r;
        }
        if rest <= 4 * r + 2 {
            return r + 1;
        }
        if rest <= 6 * r + 6 {
            return r + 2;
        }
    }
    digit_by_digit(m)
}

// The root of n. The root's leading one is left in the digits and adds one to the field.
fn root_of(n: Normal) -> f64
    requires { InNormalForm n }
    ensures { result ≡ root_of n }
{
    let q = near_root(n.m << (n.k % 2));
    f64::from_bits((n.k / 2 + 485) * 0x10_0000_0000_0000 + q)
}

// The number whose root is to be found, or the root where it is known. A negative number's is NaN.
#[inline]
pub(crate) fn under_root(x: f64) -> Result<Normal, f64>
    ensures { MatchResult result
        (λ n. InNormalForm n × (sqrt_of x ≡ root_of n) × (table_sqrt_of x ≡ table_root_of n))
        (λ r. (sqrt_of x ≡ r) × (table_sqrt_of x ≡ unstepped r)) }
{
    if x.is_nan() {
        return Err(double::nan());
    }
    let b = f64::to_bits(x);
    if b >= 0x8000_0000_0000_0000 {
        if b == 0x8000_0000_0000_0000 {
            return Err(x);
        }
        return Err(double::nan());
    }
    let f = b / 0x10_0000_0000_0000 % 2048;
    let t = b % 0x10_0000_0000_0000;
    match f {
        0 => {
            if t == 0 {
                return Err(x);
            }
            Ok(double::normal_of_low(t))
        }
        1..=2046 => Ok(Normal {
            m: 0x10_0000_0000_0000 + t,
            k: f + 51,
        }),
        _ => Err(x),
    }
}

// The square root, for every double.
pub fn sqrt(x: f64) -> f64
    ensures { result ≡ sqrt_of x }
{
    match under_root(x) {
        Ok(n) => root_of(n),
        Err(root) => root,
    }
}
