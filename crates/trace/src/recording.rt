// Recording as searches are made: a record put at a place, the record at a place, and records that are sealed to a trace. Each call judges
// only what it touches, so that a row of calls takes time in proportion to its records. A refused call has written nothing.
ghost use Rattle.std.specs.Prelude.{◌≡◌, ltb, ◌+◌};
ghost use Rattle.octets.specs.words.Words.{AllBelow};
ghost use Rattle.trace.specs.entries.Values.{Passed};
ghost use Rattle.trace.specs.recording.Recording.{record_put_of, record_at_of, trace_seal_of};

use crate::entries::Written;
use crate::judge::known;
use crate::places::{entry_of, entry_ok};
use crate::record_writer::put_record;
use crate::value::{Found, Recorded, refused_record};
use crate::whole::walk;
use algebra::vector::head;
use cone::table::{Refusal, trace_row};
use cone::{Cone, Settings, Steps};
use octets::words::front;
use trace_layout::pieces::TRAILER_SIZE;
use trace_layout::pieces::layout::{exponents, size_for};
use trace_layout::rooms::row;

// Whether n bytes from a place on do not lie in the slice. No sum is made that could wrap.
fn short(room: usize, at: usize, n: usize) -> bool
    ensures { result ≡ ltb room (at + n) }
{
    if room < at {
        return true;
    }
    room - at < n
}

// The record's bytes at a place. Beside the equation the contract says what every call has, and what the laws of reading back ask: the
// slice holds bytes and the arguments are values of their types.
pub fn put(
    bytes: &mut [u8],
    at: usize,
    edition: u32,
    cone: Cone,
    flag: u32,
    settings: Settings,
    dz: &[f64],
    ds: &[f64],
    z: &[f64],
    s: &[f64],
    steps: Steps,
) -> Written
    ensures { (record { answer = result; bytes = bytes.new }
        ≡ record_put_of bytes.old at edition cone flag settings
        dz.now ds.now z.now s.now steps)
        × AllBelow 256 bytes.old
        × Passed cone flag settings dz.now ds.now z.now s.now steps }
{
    let x = entry_of(cone, flag, settings, steps);
    let size = size_for(edition, x.kind, x.dim1, x.dim2, x.flag);
    let laid = entry_ok(edition, x, dz.len(), ds.len(), z.len(), s.len());
    let good = known(edition) & laid & (at <= bytes.len());
    if let Err(refusal) = trace_row(!good, short(bytes.len(), at, size)) {
        return Written::refused(refusal);
    }
    let n = exponents(x.kind, x.dim1);
    put_record(bytes, at, edition, x, head(&cone.exps, n), dz, ds, z, s);
    Written {
        code: 0,
        length: (at + size) as u64,
    }
}

// The record that begins at a place, and where the next one begins.
pub fn record_at(bytes: &[u8], edition: u32, at: usize) -> Recorded
    ensures { result ≡ record_at_of bytes.now edition at }
{
    if !known(edition) {
        return refused_record(Refusal::BrokenTrace);
    }
    let Some(found) = Found::find(bytes, at, edition) else {
        return refused_record(Refusal::BrokenTrace);
    };
    found.recorded(at as u64)
}

// List and trailer behind the whole records that the first `used` bytes are.
pub fn seal(bytes: &mut [u8], used: usize, edition: u32) -> Written
    ensures { record { answer = result; bytes = bytes.new } ≡ trace_seal_of bytes.old used edition }
{
    let mut starts = row();
    let walked = walk(edition, front(bytes, used), &mut starts);
    let length = walked.end + 8 * walked.count + TRAILER_SIZE;
    let whole = (used <= bytes.len()) & (walked.end == used);
    if let Err(refusal) = trace_row(!(known(edition) & whole), bytes.len() < length) {
        return Written::refused(refusal);
    }
    crate::seal::seal(bytes, used, &starts[..walked.count], edition);
    Written {
        code: 0,
        length: length as u64,
    }
}
