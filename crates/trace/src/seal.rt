// List and trailer behind records in a lent slice: what the tools that write traces of records at hand share. They copy records as bytes
// (`octets::words::copy`), so that no bit of one goes through a double.
ghost use Rattle.std.specs.Prelude.{◌≡◌, ◌+◌, ◌*◌, ◌≤◌, length};
ghost use Rattle.std.proofs.lemmas.List.Edits.{sets};
ghost use Rattle.trace_layout.specs.Traces.{most_records, trailer_size};
ghost use Rattle.trace.specs.seal.Seal.{seal_of};

use crate::writer::write::put_trailer;
use octets::words::put_words;

// List and trailer behind the records, which end at `end`.
pub fn seal(out: &mut [u8], end: usize, starts: &[u64], edition: u32)
    requires { (end + 8 * length starts.now + trailer_size ≤ length out.old) × (length starts.now ≤ most_records) }
    ensures { out.new ≡ sets out.old end (seal_of edition end starts.now) }
{
    let count = starts.len();
    put_words(out, end, 8, starts);
    put_trailer(out, end + 8 * count, end as u64, count as u32, edition);
}
