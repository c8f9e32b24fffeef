// One record more in a lent slice: the list moved up, the record, its entry in the list, the trailer.
ghost use Rattle.std.specs.Prelude.{◌≡◌, ◌+◌, ◌*◌, ◌≤◌, ◌<◌, length, take, drop};
ghost use Rattle.std.proofs.lemmas.List.Edits.{sets};
ghost use Rattle.trace_layout.specs.Traces.{most_records, trailer_size, trailer_of};
ghost use Rattle.trace.specs.record_writer.Parts.{entry_bytes};
ghost use Rattle.trace.specs.writer.Entries.{end_bytes, insert_of};

use crate::record_writer::put_record;
use octets::words::{put, put_words};
use trace_layout::pieces::{BACK_MARK, Entry, Place};

// Moves n bytes up, the last one first, since the two places may overlap. No `copy_within`: the library needs memcpy and memset alone.
fn move_up(bytes: &mut [u8], from: usize, n: usize, by: usize)
    requires { from + n + by ≤ length bytes.old }
    ensures { bytes.new ≡ sets bytes.old (from + by) (take n (drop from bytes.old)) }
{
    for i in (0..n).rev() {
        bytes[from + by + i] = bytes[from + i];
    }
}

// 02: "offset of that list (u64), record count (u32), edition (u32, now 1), four bytes `BACK`"
pub(crate) fn put_trailer(bytes: &mut [u8], place: usize, list: u64, count: u32, edition: u32)
    requires { place + trailer_size ≤ length bytes.old }
    ensures { bytes.new ≡ sets bytes.old place (trailer_of list count edition) }
{
    put(bytes, place, 8, list);
    let row = [count as u64, edition as u64, BACK_MARK as u64];
    put_words(bytes, place + 8, 4, &row);
}

// The new record's entry, which ends the list, and the trailer behind it.
fn put_end(bytes: &mut [u8], place: usize, at: u64, list: u64, count: u32, edition: u32)
    requires { place + (8 + trailer_size) ≤ length bytes.old }
    ensures { bytes.new ≡ sets bytes.old place (end_bytes at list count edition) }
{
    put(bytes, place, 8, at);
    put_trailer(bytes, place + 8, list, count, edition);
}

// One record more in a trace whose list stands at a place: the list is moved up, the
// record goes to its old place, and its entry and the trailer behind the list.
pub(crate) fn insert(
    bytes: &mut [u8],
    place: Place,
    x: Entry,
    exps: &[f64],
    dz: &[f64],
    ds: &[f64],
    z: &[f64],
    s: &[f64],
)
    requires { (place.list + place.size + 8 * place.count + (8 + trailer_size) ≤ length bytes.old) × (place.count < most_records)
        × (length (entry_bytes place.edition x exps.now dz.now ds.now z.now s.now) ≡ place.size) }
    ensures { bytes.new
        ≡ insert_of bytes.old place
        (entry_bytes place.edition x exps.now dz.now ds.now z.now s.now) }
{
    let list = place.list;
    let size = place.size;
    let entries = 8 * (place.count as usize);
    let next = list + size;
    move_up(bytes, list, entries, size);
    put_record(bytes, list, place.edition, x, exps, dz, ds, z, s);
    put_end(
        bytes,
        next + entries,
        list as u64,
        next as u64,
        place.count + 1,
        place.edition,
    );
}
