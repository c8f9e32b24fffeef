// Numbers as text, into a lent slice from a place on. The answer is the place behind.
ghost use Rattle.std.specs.Prelude.{◌≡◌, ◌+◌, ◌≤◌, length};
ghost use Rattle.std.proofs.lemmas.List.Edits.{sets};
ghost use Rattle.octets.specs.decimal.Decimal.{decimal_of};

// The digits of the tenth, and then the last one: at most 20 deep.
pub fn put_decimal(bytes: &mut [u8], place: usize, n: u64) -> usize
    requires { place + 20 ≤ length bytes.old }
    ensures { (result ≡ place + length (decimal_of n)) × (bytes.new ≡ sets bytes.old place (decimal_of n)) }
{
    if n < 10 {
        bytes[place] = (b'0' as u64 + n) as u8;
        return place + 1;
    }
    let next = put_decimal(bytes, place, n / 10);
    bytes[next] = (b'0' as u64 + n % 10) as u8;
    next + 1
}
