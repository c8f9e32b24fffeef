// The sum of r^i/i! in whole numbers, and a shorter way to its first 53 digits.
ghost use Rattle.std.specs.Prelude.{◌≡◌, ◌+◌, ◌/◌, ◌^◌, ◌<◌, ◌≤◌};
ghost use Rattle.exponential.specs.Steps.{third_in64, coefficient, horner};
ghost use Rattle.exponential.specs.Estimates.{four_of, eight_of, power_of, near_sum_of};

use wide::four::high;

// 2^62/i!, rounded down. The next one would be 0, so that the sum of forty terms ends here.
// A `match` and no array: an array that is indexed by a variable is put on the stack at every call.
fn coefficient(i: usize) -> u64
    requires { i < 21 }
    ensures { result ≡ coefficient i }
{
    match i {
        0 => 4611686018427387904,
        1 => 4611686018427387904,
        2 => 2305843009213693952,
        3 => 768614336404564650,
        4 => 192153584101141162,
        5 => 38430716820228232,
        6 => 6405119470038038,
        7 => 915017067148291,
        8 => 114377133393536,
        9 => 12708570377059,
        10 => 1270857037705,
        11 => 115532457973,
        12 => 9627704831,
        13 => 740592679,
        14 => 52899477,
        15 => 3526631,
        16 => 220414,
        17 => 12965,
        18 => 720,
        19 => 37,
        _ => 1,
    }
}

// The sum in units of 2^-62, at r units of 2^-64, by Horner's rule: the last term first.
fn sum(r: u64) -> u64
    requires { r ≤ third_in64 + 2048 }
    ensures { result ≡ horner r 39 }
{
    let mut v = 0u64;
    for i in (0..21).rev() {
        v = coefficient(i) + high(r, v);
    }
    v
}

// The sum at c/64, in units of 2^-63.
fn power(c: u64) -> u64
    requires { c < 45 }
    ensures { result ≡ power_of c }
{
    match c {
        0 => 9223372036854775808,
        1 => 9368619011877750972,
        2 => 9516153293936485574,
        3 => 9666010902875627028,
        4 => 9818228425769839594,
        5 => 9972843025856377386,
        6 => 10129892451608324932,
        7 => 10289415045950720488,
        8 => 10451449755621812174,
        9 => 10616036140681732442,
        10 => 10783214384170912384,
        11 => 10953025301920593924,
        12 => 11125510352517835114,
        13 => 11300711647427441402,
        14 => 11478671961273294160,
        15 => 11659434742281586544,
        16 => 11843044122888516410,
        17 => 12029544930515026076,
        18 => 12218982698511219556,
        19 => 12411403677273129274,
        20 => 12606854845534546394,
        21 => 12805383921836671592,
        22 => 13007039376178386558,
        23 => 13211870441849990564,
        24 => 13419927127453291280,
        25 => 13631260229110984472,
        26 => 13845921342868303452,
        27 => 14063962877289966088,
        28 => 14285438066255494880,
        29 => 14510400981956033976,
        30 => 14738906548095836314,
        31 => 14971010553301643904,
        32 => 15206769664743235146,
        33 => 15446241441968464534,
        34 => 15689484350956172566,
        35 => 15936557778390396746,
        36 => 16187522046159368736,
        37 => 16442438426082837466,
        38 => 16701369154871313852,
        39 => 16964377449320889326,
        40 => 17231527521747337954,
        41 => 17502884595663270286,
        42 => 17778514921702166464,
        43 => 18058485793793176360,
        _ => 18342865565590635750,
    }
}

// Four terms of the sum from i on, over r^i, at x units of 2^-64.
fn four(x: u64, i: usize) -> u64
    requires { (x < 2 ^ 58) × (i < 5) }
    ensures { result ≡ four_of x i }
{
    coefficient(i)
        + high(
            x,
            coefficient(i + 1) + high(x, coefficient(i + 2) + high(x, coefficient(i + 3))),
        )
}

// The first eight terms, which are enough for an x below 2^-6. Four by four, so that the one half does not wait for the other.
fn eight(x: u64) -> u64
    requires { x < 2 ^ 58 }
    ensures { result ≡ eight_of x }
{
    let square = high(x, x);
    four(x, 0) + high(high(square, square), four(x, 4))
}

// The sum within 12 units of 2^-62. r is c/64 and what is left, which is below 2^-6; the sum is that at c/64 times that at the rest.
fn near_sum(r: u64) -> u64
    requires { r ≤ third_in64 + 2048 }
    ensures { result ≡ near_sum_of r }
{
    high(
        power(r / 0x400_0000_0000_0000),
        2 * eight(r % 0x400_0000_0000_0000),
    )
}

// The sum in units of 2^-52, to the nearest. The forty terms are summed where the middle between two of them lies within the estimate's error.
pub(crate) fn rounded(r: u64) -> u64
    requires { r ≤ third_in64 + 2048 }
    ensures { result ≡ (horner r 39 + 512) / 1024 }
{
    let near = near_sum(r) + 512;
    if std::num::wrapping_sub_u64(near % 1024, 12) < 1000 {
        return near / 1024;
    }
    (sum(r) + 512) / 1024
}
