// What a thinning prints and writes of the bytes of a file: the lines `length N`, `kept N` and `dropped N`, or only `refused N`; and the
// new trace.
ghost use Rattle.std.specs.Prelude.{◌≡◌, ◌≤◌, length};
ghost use Rattle.std.proofs.lemmas.List.Edits.{sets};
ghost use Rattle.trace_layout.specs.Traces.{most_bytes};
ghost use Rattle.trace_thin.specs.file.Text.{thin_text};
ghost use Rattle.trace_thin.specs.file.Printed.{printed_of, written_of, lengths_of};

use crate::call::thin;
use octets::lines::{put_line, put_refused};
use trace_layout::pieces::MOST_BYTES;
use trace_layout::rooms::Lengths;

// The three lines, from the slice's first byte on. The answer is their length.
pub(crate) fn put_text(text: &mut [u8], new: u64, kept: u32, dropped: u32) -> usize
    requires { 83 ≤ length text.old }
    ensures { (result ≡ length (thin_text new kept dropped))
        × (text.new ≡ sets text.old 0 (thin_text new kept dropped)) }
{
    let second = put_line(text, 0, b"length ", new);
    let third = put_line(text, second, b"kept ", kept as u64);
    put_line(text, third, b"dropped ", dropped as u64)
}

// Text and output, each from its first byte on. 65,536 bytes have room for every trace that comes of a file that is taken.
pub fn put_thin(file: &[u8], text: &mut [u8], output: &mut [u8]) -> Lengths
    requires { (83 ≤ length text.old) × (most_bytes ≤ length output.old) }
    ensures { (result ≡ lengths_of file.now)
        × (text.new ≡ sets text.old 0 (printed_of file.now))
        × (output.new ≡ sets output.old 0 (written_of file.now)) }
{
    if MOST_BYTES < file.len() {
        return Lengths {
            text: put_refused(text, 8),
            output: 0,
        };
    }
    let answer = thin(file, output);
    if answer.code != 0 {
        return Lengths {
            text: put_refused(text, answer.code),
            output: 0,
        };
    }
    let length = answer.length as usize;
    Lengths {
        text: put_text(text, answer.length, answer.kept, answer.dropped),
        output: length,
    }
}
