// A trace replayed. 02, Order 2: "Take a trace, run every search again, compare steps and counts bit for bit".
ghost use Rattle.std.specs.Prelude.{◌≡◌, ◌+◌, ◌≤◌, ◌<◌, length};
ghost use Rattle.cone.specs.table.Table.{number_of};
ghost use Rattle.std.proofs.lemmas.List.Edits.{sets};
ghost use Rattle.trace_layout.specs.Records.{record_at};
ghost use Rattle.trace_layout.specs.Traces.{most_records};
ghost use Rattle.trace.specs.judge.Opening.{open_of};
ghost use Rattle.trace_replay.specs.call.Replay.{same_record, noted, differing_in, refused_with, replay_of};

use crate::rerun::agrees;
use cone::table::{Refusal, trace_row};
use octets::words::front;
use trace::judge::{Judged, open};
use trace::reader::place_in;
use trace::value::Found;
use trace_layout::rooms::row;

// What a replay answers: its number, how many records there are, and how many of them are the same and differ.
#[repr(C)]
#[derive(Clone, Copy)]
pub struct Replayed {
    pub code: u32,
    pub records: u32,
    pub same: u32,
    pub differ: u32,
}

// Whether the search of the record at the front gives what the record holds. Where it stands is no part of its search.
fn same_at(found: Found) -> bool
    ensures { result ≡ same_record found.entry.edition (record_at found.entry.edition found.entry.bytes.now) }
{
    agrees(found.recorded(0))
}

// Writes the offset of a record that differs at place n. The answer is the place behind.
fn note(offsets: &mut [u64], n: usize, same: bool, at: u64) -> usize
    requires { n < length offsets.old }
    ensures { (result ≡ n + length (noted same at)) × (offsets.new ≡ sets offsets.old n (noted same at)) }
{
    if same {
        return n;
    }
    offsets[n] = at;
    n + 1
}

// The offsets of the records that differ, from the row's first place on. The answer is their count. A trace that was refused has no
// records.
fn note_all(trace: &[u8], opened: Judged, offsets: &mut [u64]) -> usize
    requires { (opened ≡ open_of trace.now) × (most_records ≤ length offsets.old) }
    ensures { (result ≡ length (differing_in trace.now opened))
        × (offsets.new ≡ sets offsets.old 0 (differing_in trace.now opened)) }
{
    let mut at = 0;
    let mut n = 0;
    for i in 0..opened.count {
        // a judged trace has a record here
        let body = front(trace, opened.list as usize);
        let Some(found) = Found::find(body, at, opened.edition) else {
            return n;
        };
        let same = same_at(found);
        n = note(offsets, n, same, at as u64);
        at = place_in(body, at, opened.edition);
    }
    n
}

// The slice begins with the row. No `copy_from_slice`: by it the library would need memmove beside memcpy and memset.
fn store(out: &mut [u64], row: &[u64])
    requires { length row.now ≤ length out.old }
    ensures { out.new ≡ sets out.old 0 row.now }
{
    for i in 0..row.len() {
        out[i] = row[i];
    }
}

fn refused(refusal: Refusal) -> Replayed
    ensures { result ≡ refused_with (number_of refusal) }
{
    Replayed {
        code: refusal.number(),
        records: 0,
        same: 0,
        differ: 0,
    }
}

// The offsets of the records that differ go into at, first come first. Their count is known before the first is written.
pub fn replay(trace: &[u8], at: &mut [u64]) -> Replayed
    ensures { record { answer = result; offsets = at.new } ≡ replay_of trace.now at.old }
{
    let opened = open(trace);
    let mut offsets = row();
    let n = note_all(trace, opened, &mut offsets);
    if let Err(refusal) = trace_row(opened.code != 0, at.len() < n) {
        return refused(refusal);
    }
    store(at, &offsets[..n]);
    Replayed {
        code: 0,
        records: opened.count,
        same: opened.count - n as u32,
        differ: n as u32,
    }
}
