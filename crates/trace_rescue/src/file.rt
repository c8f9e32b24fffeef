// What a rescue prints and writes of the bytes of a file: the lines `kept N`, `dropped N`, and `rebuilt` or `right`, or only `refused N`;
// and the new trace.
ghost use Rattle.std.specs.Prelude.{◌≡◌, ◌+◌, ◌≤◌, length};
ghost use Rattle.std.proofs.lemmas.List.Edits.{sets};
ghost use Rattle.trace_rescue.specs.file.Text.{verdict_line, rescue_text};
ghost use Rattle.trace_rescue.specs.file.Printed.{printed_of, written_of, lengths_of, edition_of};

use crate::call::rescue;
use octets::lines::{put_line, put_refused, put_word};
use trace_layout::pieces::MOST_BYTES;
use trace_layout::rooms::Lengths;

fn put_verdict(text: &mut [u8], place: usize, right: bool) -> usize
    requires { place + 8 ≤ length text.old }
    ensures { (result ≡ place + length (verdict_line right)) × (text.new ≡ sets text.old place (verdict_line right)) }
{
    if right {
        return put_word(text, place, b"right");
    }
    put_word(text, place, b"rebuilt")
}

// The three lines, from the slice's first byte on. The answer is their length.
pub(crate) fn put_text(text: &mut [u8], kept: u32, dropped: u64, right: bool) -> usize
    requires { 63 ≤ length text.old }
    ensures { (result ≡ length (rescue_text kept dropped right))
        × (text.new ≡ sets text.old 0 (rescue_text kept dropped right)) }
{
    let second = put_line(text, 0, b"kept ", kept as u64);
    let third = put_line(text, second, b"dropped ", dropped);
    put_verdict(text, third, right)
}

// Text and output, each from its first byte on. 74,916 bytes have room for every trace that comes of a file that is taken: its records have
// at most as many bytes, and each at least 56.
pub fn put_rescue(file: &[u8], text: &mut [u8], output: &mut [u8], edition: u32) -> Lengths
    requires { (63 ≤ length text.old) × (74916 ≤ length output.old) }
    ensures { (result ≡ lengths_of file.now edition)
        × (text.new ≡ sets text.old 0 (printed_of file.now edition))
        × (output.new ≡ sets output.old 0 (written_of file.now edition)) }
{
    if MOST_BYTES < file.len() {
        return Lengths {
            text: put_refused(text, 8),
            output: 0,
        };
    }
    let answer = rescue(file, output, edition);
    if answer.code != 0 {
        return Lengths {
            text: put_refused(text, answer.code),
            output: 0,
        };
    }
    let length = answer.length as usize;
    Lengths {
        text: put_text(text, answer.kept, answer.dropped, answer.right),
        output: length,
    }
}

// The edition that a word names: one digit. Every other word names no known edition.
pub fn edition_of(word: &[u8]) -> u32
    ensures { result ≡ edition_of word.now }
{
    if word.len() != 1 {
        return 0;
    }
    let digit = word[0];
    if digit < b'0' {
        return 0;
    }
    if b'9' < digit {
        return 0;
    }
    (digit - b'0') as u32
}
