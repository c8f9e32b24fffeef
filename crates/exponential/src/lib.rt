// The exponential: 2^j times a sum, with x = j·S(1/3) + r. The rest r is kept to 2^-64 and the sum to 2^-62, in whole numbers; the answer
// is rounded once, at the end. Module `place` finds j and r, `sum` has the sum and its estimate from a table, and `inverse`, laws only, says
// how the sum and the logarithm's L undo one another.
#![tactic(auto)]

ghost use Rattle.std.specs.Prelude.{◌≡◌, ◌+◌, ◌*◌, ◌<◌, ◌≤◌};
ghost use Rattle.exponential.specs.Steps.{third_in64, horner, composed, exp_at, exp_of, InRange};

use place::Point;

pub mod inverse;
pub mod place;
pub mod sum;

// The double of the sum at r, at the place k. A sum that is rounded up to 2 carries into the field, and that is right.
fn composed(k: u64, r: u64) -> f64
    requires { (2 ≤ k) × (k ≤ 2046) × (r ≤ third_in64 + 2048) }
    ensures { result ≡ composed k (horner r 39) }
{
    f64::from_bits((k - 2) * 0x10_0000_0000_0000 + sum::rounded(r))
}

// The exponential of a number that is raised to p.
fn exp_at(p: Point) -> f64
    requires { InRange p.whole × (p.part < 2048) }
    ensures { result ≡ exp_at (p.whole * 2048 + p.part) }
{
    let k = place::place(p.whole);
    composed(k, place::rest(p.whole, p.part, k))
}

// The exponential, for every double. 01: "above 709 gives +infinity, below -708 gives +0, NaN gives NaN, exp 0 is 1".
// A subnormal number is so near 0 that no other double is as near. The field 2047 has the infinities and NaN, which is neither above 0 nor
// below.
pub fn exp(x: f64) -> f64
    ensures { result ≡ exp_of x }
{
    let b = double::to_bits(x);
    let f = b / 0x10_0000_0000_0000 % 2048;
    match f {
        0 => 1.0,
        1..=2046 => {
            if x > 709.0 {
                return 1.0 / 0.0;
            }
            if x < -708.0 {
                return 0.0;
            }
            exp_at(place::locate(b >= 0x8000_0000_0000_0000, f, b % 0x10_0000_0000_0000))
        }
        _ => {
            if x > 0.0 {
                return x;
            }
            if x < 0.0 {
                return 0.0;
            }
            double::nan()
        }
    }
}
