// A double taken apart and put together.
#![tactic(auto)]

ghost use Rattle.std.specs.Prelude.{◌≡◌, ◌^◌, ◌<◌};
ghost use Rattle.std.specs.Float.{nan, binary64};
ghost use Rattle.std.specs.Float.Ieee.{of_bits, to_bits};
ghost use Rattle.std.specs.Float.Ieee.Scale.{finite};
ghost use Rattle.double.specs.Fields.{normal_of};
ghost use Rattle.double.specs.Sizes.{abs_of};

// 01: "ε is 2^-52". The Rust's T::epsilon()
pub const EPSILON: f64 = 2.220446049250313e-16;

// 01: "√ε is 2^-26". The Rust's T::sqrt(T::epsilon())
pub const SQRT_EPSILON: f64 = 1.4901161193847656e-8;

// 01: "Any NaN that a kernel answers has the bits 7FF8000000000000". A division of two literals is folded by the compiler to those bits;
// one that is carried out on x86 would give FFF8000000000000.
pub fn nan() -> f64
    ensures { result ≡ nan }
{
    0.0 / 0.0
}

// Neither NaN nor an infinity.
#[tactic(auto, using(crate::proofs::Finite::finite_as_std))]
pub fn is_finite(x: f64) -> bool
    ensures { result ≡ finite x }
{
    x.is_finite()
}

// Rust's abs: of -0 it is 0, and NaN is answered as it is.
#[tactic(auto, using(crate::proofs::Sizes::without_sign))]
pub fn abs(x: f64) -> f64
    ensures { result ≡ abs_of x }
{
    x.abs()
}

// The double of a bit pattern, each pattern of a NaN included: those are the patterns above an infinity's, the sign left out.
pub fn of_bits(b: u64) -> f64
    ensures { result ≡ of_bits binary64 b }
{
    if b % 0x8000_0000_0000_0000 > 0x7ff0_0000_0000_0000 {
        return nan();
    }
    f64::from_bits(b)
}

// The bit pattern of a double. For every NaN it is the one that `nan` answers.
pub fn to_bits(x: f64) -> u64
    ensures { result ≡ to_bits binary64 x }
{
    if x.is_nan() {
        return 0x7ff8_0000_0000_0000;
    }
    f64::to_bits(x)
}

// A positive number m * 2^(k - 1126), with m from 2^52 up to 2^53. That it is so, `InNormalForm`, is no ghost field: `normal_of` of specs/
// is a Normal at any field and digits.
#[derive(Clone, Copy)]
pub struct Normal {
    pub m: u64,
    pub k: u64,
}

// The subnormal of t units.
pub fn normal_of_low(t: u64) -> Normal
    requires { (0 < t) × (t < 2 ^ 52) }
    ensures { result ≡ normal_of 0 t }
{
    let s = u64::leading_zeros(t) - 11;
    Normal {
        m: t << s,
        k: (52 - s) as u64,
    }
}
