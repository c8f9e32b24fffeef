// Whole numbers as rows of bytes, little-endian, in lent slices.
ghost use Rattle.std.specs.Prelude.{◌≡◌, ◌+◌, ◌*◌, ◌^◌, ◌≤◌, ◌<◌, length, take, drop, get_or};
ghost use Rattle.std.proofs.lemmas.List.Edits.{sets};
ghost use Rattle.octets.specs.words.Words.{le, spelled, word_at, row_bytes};

pub use arith::slices::{behind, front};

// The byte at a place. Behind the end it is 0.
fn byte(bytes: &[u8], place: usize) -> u64
    ensures { (result ≡ get_or bytes.now place 0) × (result < 256) }
{
    bytes.get(place).copied().unwrap_or(0) as u64
}

// The number that the first n bytes spell. The highest byte comes first into the sum.
fn word_of(bytes: &[u8], n: usize) -> u64
    requires { n ≤ 8 }
    ensures { (result ≡ spelled (take n bytes.now)) × (result < 256 ^ n) }
{
    let mut x: u64 = 0;
    for i in (0..n).rev() {
        x = x * 256 + byte(bytes, i);
    }
    x
}

pub fn u64_at(bytes: &[u8], place: usize) -> u64
    ensures { result ≡ word_at 8 bytes.now place }
{
    let rest = behind(bytes, place);
    match rest.first_chunk() {
        Some(eight) => u64::from_le_bytes(*eight),
        None => word_of(rest, 8),
    }
}

pub fn u32_at(bytes: &[u8], place: usize) -> u32
    ensures { result ≡ word_at 4 bytes.now place }
{
    let rest = behind(bytes, place);
    match rest.first_chunk() {
        Some(four) => u32::from_le_bytes(*four),
        None => word_of(rest, 4) as u32,
    }
}

// Writes the bytes of another slice at a place. No `copy_from_slice`: by it the library would need memmove beside memcpy and memset.
pub fn copy(out: &mut [u8], place: usize, bytes: &[u8])
    requires { place + length bytes.now ≤ length out.old }
    ensures { out.new ≡ sets out.old place bytes.now }
{
    for i in 0..bytes.len() {
        out[place + i] = bytes[i];
    }
}

// Writes the n bytes of x at a place. It counts them and copies no `to_le_bytes`, since n may be more than 8.
pub fn put(bytes: &mut [u8], place: usize, n: usize, x: u64)
    requires { place + n ≤ length bytes.old }
    ensures { bytes.new ≡ sets bytes.old place (le n x) }
{
    let mut y = x;
    for i in 0..n {
        bytes[place + i] = (y % 256) as u8;
        y = y / 256;
    }
}

// Writes a row of numbers, n bytes each, at a place.
pub fn put_words(bytes: &mut [u8], place: usize, n: usize, row: &[u64])
    requires { (n ≤ 8) × (place + n * length row.now ≤ length bytes.old) }
    ensures { bytes.new ≡ sets bytes.old place (row_bytes n row.now) }
{
    let mut at = place;
    for x in row {
        put(bytes, at, n, *x);
        at += n;
    }
}
