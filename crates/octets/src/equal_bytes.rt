// Rows of bytes compared, and a number for each row that tells most of them apart.
ghost use Rattle.std.specs.Prelude.{◌≡◌};
ghost use Rattle.octets.specs.equal_bytes.Equal.{equal_bytes, number_of};

// The largest prime below 2^55, so that the next sum fits a u64.
const PRIME: u64 = 36028797018963913;

// The number of a row of bytes. Equal rows have equal numbers.
pub fn number_of(bytes: &[u8]) -> u64
    ensures { result ≡ number_of bytes.now }
{
    let mut number: u64 = 0;
    for b in bytes {
        number = (number * 257 + *b as u64) % PRIME;
    }
    number
}

// Whether two rows are equal.
#[tactic(auto, using(crate::proofs::equal_bytes::Equality::compared))]
pub fn same(a: &[u8], b: &[u8]) -> bool
    ensures { result ≡ equal_bytes a.now b.now }
{
    a == b
}
