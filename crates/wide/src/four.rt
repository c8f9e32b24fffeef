// The same product by four partial products, for the exponential and the square root. Where a machine multiplies 64 by 64 bits, the
// compiler makes one multiplication of these four; of three it does not (docs/DECISIONS.md, "Which product the exponential and the square
// root have").
ghost use Rattle.std.specs.Prelude.{◌≡◌, ◌*◌, ◌/◌, ◌^◌};
ghost use Rattle.wide.specs.Products.{product_of};

use crate::Halves;

// a * b, by four partial products of 32-bit digits, as on paper. A sum of a partial product and two digits fits 64 bits: no carry is lost.
pub fn product(a: u64, b: u64) -> Halves
    ensures { result ≡ product_of a b }
{
    let a1 = a / 0x1_0000_0000;
    let a0 = a % 0x1_0000_0000;
    let b1 = b / 0x1_0000_0000;
    let b0 = b % 0x1_0000_0000;
    let low = a0 * b0;
    let mid = a1 * b0 + low / 0x1_0000_0000;
    let cross = a0 * b1 + mid % 0x1_0000_0000;
    // cross % 2^32, from the partial products once more: so the compiler recognises both halves, and makes one multiplication of the four.
    let digit = (a0 * b1 + a1 * b0 % 0x1_0000_0000 + low / 0x1_0000_0000) % 0x1_0000_0000;
    Halves {
        hi: a1 * b1 + mid / 0x1_0000_0000 + cross / 0x1_0000_0000,
        lo: digit * 0x1_0000_0000 + low % 0x1_0000_0000,
    }
}

// The upper half: a * b / 2^64, rounded down. As fractions of 2^64, the product of a and b.
pub fn high(a: u64, b: u64) -> u64
    ensures { result ≡ a * b / 2 ^ 64 }
{
    product(a, b).hi
}
