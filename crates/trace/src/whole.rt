// The whole records at the front of bytes, whatever follows them. 02, Order 7: "Walk from byte 0, keep every whole record until the first
// that is cut or malformed".
ghost use Rattle.std.specs.Prelude.{◌≡◌, ◌≤◌, length};
ghost use Rattle.std.proofs.lemmas.List.Edits.{sets};
ghost use Rattle.trace_layout.specs.Traces.{most_records, offsets_from};
ghost use Rattle.trace.specs.whole.Whole.{whole_records, walked_of};

use crate::reader::current_in;
use trace_layout::pieces::MOST_RECORDS;

// How many whole records there are, and where the last of them ends.
#[derive(Clone, Copy)]
pub struct Walked {
    pub count: usize,
    pub end: usize,
}

// The walk, which leaves the records' offsets in starts. It reads their heads and steps, and never a byte behind the first that is none.
// 02, Order 7: "a 4,097th record counts as bad".
pub fn walk(edition: u32, bytes: &[u8], starts: &mut [u64]) -> Walked
    requires { most_records ≤ length starts.old }
    ensures { (result ≡ walked_of edition bytes.now)
        × (starts.new ≡ sets starts.old 0 (offsets_from edition 0 (whole_records edition bytes.now))) }
{
    let mut at = 0;
    // By number: starts may be longer, and of what `iter_mut` wrote a proof knows the length alone.
    for i in 0..MOST_RECORDS {
        let Some(shape) = current_in(bytes, at, edition) else {
            return Walked { count: i, end: at };
        };
        starts[i] = at as u64;
        at += shape.size;
    }
    Walked {
        count: MOST_RECORDS,
        end: at,
    }
}
