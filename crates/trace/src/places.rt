// What `append` is given, as the numbers of a record, and where that record goes. 02, Order 1:
// "Refusals, the only ones here: 9 a trace or record that breaks the layout; then 8 no room for record plus list plus trailer, or 4,096
// records already"
ghost use Rattle.std.specs.Prelude.{◌≡◌, cond};
ghost use Rattle.trace_layout.specs.Records.{own_dims};
ghost use Rattle.trace.specs.places.Given.{entry_of};
ghost use Rattle.trace.specs.places.Places.{open_front, entry_ok, place_for, has_room};

use crate::judge::MOST_COUNT;
use cone::table::{code, trace_row};
use cone::{Cone, Settings, Steps};
use double::to_bits;
use octets::words::front;
use trace_layout::pieces::layout::{has_rule, own_dims, shape_ok, size_for, step_ok};
use trace_layout::pieces::{Entry, Place};

// A dim that is written: the cone's own for kind 3.
fn dim(kind: u32, own: u32, other: u32) -> u32
    ensures { result ≡ cond (own_dims kind) own other }
{
    if own_dims(kind) { own } else { other }
}

// The numbers of a record beside its vectors; of a double, its bits.
pub(crate) fn entry_of(cone: Cone, flag: u32, settings: Settings, steps: Steps) -> Entry
    ensures { result ≡ entry_of cone flag settings steps }
{
    let kind = cone.kind;
    let dim1 = dim(kind, cone.dim1, 3);
    let dim2 = dim(kind, cone.dim2, 0);
    let start = to_bits(settings.start);
    let step = to_bits(settings.step);
    let smallest = to_bits(settings.smallest);
    let dualstep = to_bits(steps.dualstep);
    let primalstep = to_bits(steps.primalstep);
    Entry {
        kind,
        dim1,
        dim2,
        rule: cone.rule,
        start,
        flag,
        step,
        smallest,
        dualstep,
        dualcount: steps.dualcount,
        primalstep,
        primalcount: steps.primalcount,
    }
}

// Whether a record of these numbers, with vectors of these lengths, can be laid out.
pub(crate) fn entry_ok(edition: u32, x: Entry, ndz: usize, nds: usize, nz: usize, ns: usize) -> bool
    ensures { result ≡ entry_ok edition x ndz nds nz ns }
{
    let n = x.dim1 as usize + x.dim2 as usize;
    shape_ok(x.kind, x.dim1, x.dim2, x.flag)
        & (has_rule(edition) | (x.rule == 1))
        & (ndz == n)
        & (nds == n)
        & (nz == n)
        & (ns == n)
        & step_ok(x.dualstep)
        & step_ok(x.primalstep)
}

// The trace at the front of a slice, judged.
fn open_front(trace: &[u8], used: usize) -> crate::judge::Judged
    ensures { result ≡ open_front trace.now used }
{
    if used <= trace.len() {
        return crate::judge::open(front(trace, used));
    }
    crate::judge::Judged {
        code: 9,
        edition: 0,
        count: 0,
        list: 0,
    }
}

// Whether a record of this length, its entry and what was used have room, and the count may grow. No sum is made that could wrap.
fn has_room(room: usize, used: usize, count: u32, size: usize) -> bool
    ensures { result ≡ has_room room used count size }
{
    if room < used {
        return false;
    }
    let left = room - used;
    if left < 8 {
        return false;
    }
    (count < MOST_COUNT) & (size <= left - 8)
}

// Where the record goes, or which number refuses it.
pub(crate) fn place_for(
    trace: &[u8],
    used: usize,
    x: Entry,
    ndz: usize,
    nds: usize,
    nz: usize,
    ns: usize,
) -> Place
    ensures { result ≡ place_for trace.now used x ndz nds nz ns }
{
    let opened = open_front(trace, used);
    let size = size_for(opened.edition, x.kind, x.dim1, x.dim2, x.flag);
    let laid = entry_ok(opened.edition, x, ndz, nds, nz, ns);
    let room = has_room(trace.len(), used, opened.count, size);
    let code = code(trace_row((opened.code != 0) | !laid, !room));
    Place {
        code,
        edition: opened.edition,
        count: opened.count,
        list: opened.list as usize,
        size,
    }
}
