// A trace thinned. 02, Order 13: "Take a trace and write one in which a record byte-equal to an earlier kept record is dropped, the others
// in their old order, offsets and trailer new, edition kept". The old list and trailer are read by the judge alone, so that within one
// buffer nothing is overwritten before it is read.
ghost use Rattle.std.specs.Prelude.{◌≡◌};
ghost use Rattle.cone.specs.table.Table.{number_of};
ghost use Rattle.octets.specs.words.Words.{AllBelow};
ghost use Rattle.trace_thin.specs.call.Thin.{refused_with, thin_of, thin_in_place_of};

use crate::firsts::{choose, clear, gather, move_down};
use cone::table::{Refusal, trace_row};
use trace::judge::open;
use trace::seal::seal;
use trace_layout::pieces::TRAILER_SIZE;
use trace_layout::rooms::row;

// What a thinning answers: its number, the records kept and dropped, the new trace's length.
#[repr(C)]
#[derive(Clone, Copy)]
pub struct Thinned {
    pub code: u32,
    pub kept: u32,
    pub dropped: u32,
    pub length: u64,
}

fn refused(refusal: Refusal) -> Thinned
    ensures { result ≡ refused_with (number_of refusal) }
{
    Thinned {
        code: refusal.number(),
        kept: 0,
        dropped: 0,
        length: 0,
    }
}

// Into a separate output. Its length is known before its first byte is written. A trace that was refused counts as one without records
// until the rows are looked at. Beside the equation the contract says what every call has and the theorems ask: the trace holds bytes.
pub fn thin(trace: &[u8], output: &mut [u8]) -> Thinned
    ensures { (record { answer = result; output = output.new } ≡ thin_of trace.now output.old)
        × AllBelow 256 trace.now }
{
    let opened = open(trace);
    let mut places = row();
    let mut numbers = row();
    let chosen = choose(
        trace,
        opened.list,
        opened.edition,
        &mut places,
        &mut numbers,
    );
    let kept = chosen.kept;
    let size = chosen.size;
    let length = size + 8 * kept + TRAILER_SIZE;
    if let Err(refusal) = trace_row(opened.code != 0, output.len() < length) {
        return refused(refusal);
    }
    gather(output, trace, &mut places, kept);
    seal(output, size, &places[..kept], opened.edition);
    Thinned {
        code: 0,
        kept: kept as u32,
        dropped: opened.count - kept as u32,
        length: length as u64,
    }
}

// Inside one buffer: a trace has room for what is left of it.
pub fn thin_in_place(trace: &mut [u8]) -> Thinned
    ensures { (record { answer = result; output = trace.new } ≡ thin_in_place_of trace.old)
        × AllBelow 256 trace.old }
{
    let opened = open(trace);
    if let Err(refusal) = trace_row(opened.code != 0, false) {
        return refused(refusal);
    }
    let mut places = row();
    let mut numbers = row();
    let chosen = choose(
        trace,
        opened.list,
        opened.edition,
        &mut places,
        &mut numbers,
    );
    let kept = chosen.kept;
    let size = chosen.size;
    let length = size + 8 * kept + TRAILER_SIZE;
    move_down(trace, &mut places, kept);
    seal(trace, size, &places[..kept], opened.edition);
    clear(trace, length);
    Thinned {
        code: 0,
        kept: kept as u32,
        dropped: opened.count - kept as u32,
        length: length as u64,
    }
}
