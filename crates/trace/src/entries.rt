// The public entries that judge a trace and write one into a lent slice. A refused call has written nothing. 02, Order 1:
// "Refusals, the only ones here: 9 a trace or record that breaks the layout; then 8 no room for record plus list plus trailer, or 4,096
// records already"
ghost use Rattle.std.specs.Prelude.{◌≡◌};
ghost use Rattle.cone.specs.table.Table.{number_of};
ghost use Rattle.octets.specs.words.Words.{AllBelow};
ghost use Rattle.trace.specs.entries.Values.{Passed};
ghost use Rattle.trace.specs.entries.Opened.{opened_of};
ghost use Rattle.trace.specs.entries.Writing.{create_of, append_of};

use crate::places::{entry_of, place_for};
use crate::writer::write::{insert, put_trailer};
use algebra::vector::head;
use cone::table::Refusal;
use cone::{Cone, Settings, Steps};
use trace_layout::pieces::layout::exponents;
use trace_layout::pieces::{NEWEST_EDITION, TRAILER_SIZE};

// What a call that writes answers: its number, and the trace's length as it stands now.
#[repr(C)]
#[derive(Clone, Copy)]
pub struct Written {
    pub code: u32,
    pub length: u64,
}

impl Written {
    pub(crate) fn refused(refusal: Refusal) -> Written
        ensures { result ≡ record { code = number_of refusal; length = 0 } }
    {
        Written {
            code: refusal.number(),
            length: 0,
        }
    }
}

// A trace that was judged: 0 or 9, its edition and its count of records.
#[repr(C)]
#[derive(Clone, Copy)]
pub struct Opened {
    pub code: u32,
    pub edition: u32,
    pub records: u32,
}

pub fn open(trace: &[u8]) -> Opened
    ensures { result ≡ opened_of trace.now }
{
    let opened = crate::judge::open(trace);
    Opened {
        code: opened.code,
        edition: opened.edition,
        records: opened.count,
    }
}

// The empty trace: its trailer.
pub fn create(trace: &mut [u8]) -> Written
    ensures { record { answer = result; bytes = trace.new } ≡ create_of trace.old }
{
    if trace.len() < TRAILER_SIZE {
        return Written::refused(Refusal::NoRoom);
    }
    put_trailer(trace, 0, 0, 0, NEWEST_EDITION);
    Written {
        code: 0,
        length: TRAILER_SIZE as u64,
    }
}

// One record more behind those of the trace that the first `used` bytes are. Beside the equation the contract says what every call
// has, and what the laws of reading back ask: the slice holds bytes and the arguments are values of their types.
pub fn append(
    trace: &mut [u8],
    used: usize,
    cone: Cone,
    flag: u32,
    settings: Settings,
    dz: &[f64],
    ds: &[f64],
    z: &[f64],
    s: &[f64],
    steps: Steps,
) -> Written
    ensures { (record { answer = result; bytes = trace.new }
        ≡ append_of trace.old used cone flag settings
        dz.now ds.now z.now s.now steps)
        × AllBelow 256 trace.old
        × Passed cone flag settings dz.now ds.now z.now s.now steps }
{
    let x = entry_of(cone, flag, settings, steps);
    let place = place_for(trace, used, x, dz.len(), ds.len(), z.len(), s.len());
    if place.code != 0 {
        return Written {
            code: place.code,
            length: 0,
        };
    }
    let n = exponents(x.kind, x.dim1);
    insert(trace, place, x, head(&cone.exps, n), dz, ds, z, s);
    Written {
        code: 0,
        length: (used + place.size + 8) as u64,
    }
}
