// What a replay prints of the bytes of a file. 02, Order 2: "a file above 65,536 bytes prints only `refused 8`, otherwise a broken trace
// only `refused 9`".
ghost use Rattle.std.specs.Prelude.{◌≡◌, ◌≤◌, length};
ghost use Rattle.std.proofs.lemmas.List.Edits.{sets};
ghost use Rattle.trace_replay.specs.file.Printed.{printed_of};

use crate::call::replay;
use crate::text::put_text;
use octets::lines::put_refused;
use trace_layout::pieces::MOST_BYTES;
use trace_layout::rooms::row;

// The text, from the slice's first byte on; 98,391 bytes have room for every one. The answer is its length.
pub fn put_replay(text: &mut [u8], file: &[u8]) -> usize
    requires { 98391 ≤ length text.old }
    ensures { (result ≡ length (printed_of file.now))
        × (text.new ≡ sets text.old 0 (printed_of file.now)) }
{
    if MOST_BYTES < file.len() {
        return put_refused(text, 8);
    }
    let mut offsets = row();
    let answer = replay(file, &mut offsets);
    if answer.code != 0 {
        return put_refused(text, answer.code);
    }
    put_text(
        text,
        answer.records,
        answer.same,
        answer.differ,
        &offsets[..answer.differ as usize],
    )
}
