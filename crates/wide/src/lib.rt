// Numbers of two 64-bit halves: the whole product of two numbers, and what one has over another. The product is made of three partial
// products, as Order 3 asks; module `four` has it of four, where that is faster. So neither is a product of two `u128`.
#![tactic(auto)]

ghost use Rattle.std.specs.Prelude.{◌≡◌, ◌+◌, ◌-◌, ◌*◌, ◌/◌, ◌%◌, ◌^◌, ◌<◌};
ghost use Rattle.wide.specs.Products.{whole_of, product_of, left_of};

pub mod four;

// hi * 2^64 + lo
#[derive(Clone, Copy)]
pub struct Halves {
    pub hi: u64,
    pub lo: u64,
}

// t where s, a sum of two digits, has a 33rd bit, and else 0.
fn beyond(s: u64, t: u64) -> u64
    requires { s < 2 ^ 33 }
    ensures { result ≡ s / 2 ^ 32 * t }
{
    if s < 0x1_0000_0000 { 0 } else { t }
}

// 1 where x - y is below 0, and else 0.
fn below(x: u64, y: u64) -> u64
    ensures { result ≡ 1 - (x + 1 - y) }
{
    if x < y { 1 } else { 0 }
}

// a * b, by three partial products of 32-bit digits: a1 b0 + a0 b1 is (a1 + a0) (b1 + b0) less a1 b1 and a0 b0. The sums have up to 33
// bits; their lower digits are multiplied, and what a 33rd bit adds is the other sum, so that no product has more than 64 bits. `beyond`
// and `below` become no branches.
pub fn product(a: u64, b: u64) -> Halves
    ensures { result ≡ product_of a b }
{
    let a1 = a / 0x1_0000_0000;
    let a0 = a % 0x1_0000_0000;
    let b1 = b / 0x1_0000_0000;
    let b0 = b % 0x1_0000_0000;
    let top = a1 * b1;
    let low = a0 * b0;
    let a2 = a1 + a0;
    let b2 = b1 + b0;
    let a3 = a2 % 0x1_0000_0000;
    let both = a3 * (b2 % 0x1_0000_0000);
    let over = beyond(a2, b2) + beyond(b2, a3);
    // What is taken off, in two digits: top, and low without the digit that it carries into the middle.
    let rest = low - low / 0x1_0000_0000;
    let off = top % 0x1_0000_0000 + rest % 0x1_0000_0000;
    let taken = top / 0x1_0000_0000 + rest / 0x1_0000_0000 + off / 0x1_0000_0000;
    let from = both % 0x1_0000_0000;
    let digit = off % 0x1_0000_0000;
    let sign = below(from, digit);
    Halves {
        hi: top + (over + both / 0x1_0000_0000 - taken - sign),
        lo: (from + 0x1_0000_0000 - digit) % 0x1_0000_0000 * 0x1_0000_0000 + low % 0x1_0000_0000,
    }
}

// The upper half: a * b / 2^64, rounded down. As fractions of 2^64, the product of a and b.
pub fn high(a: u64, b: u64) -> u64
    ensures { result ≡ a * b / 2 ^ 64 }
{
    product(a, b).hi
}

// The lower half: a * b % 2^64. It has three partial products as it is, for a1 b1 falls away, and of the two in the middle the lower digits
// do.
pub fn low(a: u64, b: u64) -> u64
    ensures { result ≡ a * b % 2 ^ 64 }
{
    let a1 = a / 0x1_0000_0000;
    let a0 = a % 0x1_0000_0000;
    let b1 = b / 0x1_0000_0000;
    let b0 = b % 0x1_0000_0000;
    let mid = (a1 * b0 % 0x1_0000_0000 + a0 * b1 % 0x1_0000_0000) % 0x1_0000_0000;
    std::num::wrapping_add_u64(mid * 0x1_0000_0000, a0 * b0)
}

// What n has over p, or the largest u64 where that does not fit or p is above n.
pub fn left(n: Halves, p: Halves) -> u64
    ensures { result ≡ left_of (whole_of n) (whole_of p) }
{
    // the lower halves' difference, and what it borrows: one test that foresees well, in place of one that goes wrong every other time
    let rest = std::num::wrapping_sub_u64(n.lo, p.lo);
    if p.hi <= n.hi {
        if n.hi - p.hi == below(n.lo, p.lo) {
            return rest;
        }
    }
    u64::MAX
}
