// Lines of text, as bytes in a lent slice from a place on, each ended by a line feed. The answer is the place behind.
ghost use Rattle.std.specs.Prelude.{◌≡◌, ◌+◌, ◌≤◌, length};
ghost use Rattle.std.proofs.lemmas.List.Edits.{sets};
ghost use Rattle.octets.specs.lines.Lines.{line_of, word_line, refused_text};

use crate::decimal::put_decimal;
use crate::words::copy;

// A word, a number and a line feed.
pub fn put_line(bytes: &mut [u8], place: usize, word: &[u8], n: u64) -> usize
    requires { place + length word.now + 21 ≤ length bytes.old }
    ensures { (result ≡ place + length (line_of word.now n))
        × (bytes.new ≡ sets bytes.old place (line_of word.now n)) }
{
    copy(bytes, place, word);
    let end = put_decimal(bytes, place + word.len(), n);
    bytes[end] = b'\n';
    end + 1
}

// A word and a line feed.
pub fn put_word(bytes: &mut [u8], place: usize, word: &[u8]) -> usize
    requires { place + length word.now + 1 ≤ length bytes.old }
    ensures { (result ≡ place + length (word_line word.now))
        × (bytes.new ≡ sets bytes.old place (word_line word.now)) }
{
    copy(bytes, place, word);
    let last = place + word.len();
    bytes[last] = b'\n';
    last + 1
}

// The one line of a refusal, from the slice's first byte on.
pub fn put_refused(bytes: &mut [u8], code: u32) -> usize
    requires { 29 ≤ length bytes.old }
    ensures { (result ≡ length (refused_text code)) × (bytes.new ≡ sets bytes.old 0 (refused_text code)) }
{
    put_line(bytes, 0, b"refused ", code as u64)
}
