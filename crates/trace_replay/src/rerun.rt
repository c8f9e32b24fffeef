// A recorded search, run again. 02, Order 2: "run every search again, compare steps and counts bit for bit".
ghost use Rattle.std.specs.Prelude.{◌≡◌, ◌≤◌};
ghost use Rattle.cone.specs.Codes.{numel_of};
ghost use Rattle.trace_replay.specs.rerun.Rerun.{same_answers, blank_point, agrees_of};

use algebra::vector::head;
use call_search::single::step_length;
use cone::Steps;
use double::to_bits;
use judges::numel;
use trace::value::Recorded;

// Whether both answers are the same, bit for bit: `==` takes two zeros for equal, and no NaN. A search that was refused gives none.
fn same_answers(a: Steps, b: Steps) -> bool
    ensures { result ≡ same_answers a b }
{
    (a.code == 0)
        & (to_bits(a.dualstep) == to_bits(b.dualstep))
        & (a.dualcount == b.dualcount)
        & (to_bits(a.primalstep) == to_bits(b.primalstep))
        & (a.primalcount == b.primalcount)
}

// Room for a point of any cone.
fn blank() -> [f64; 64]
    ensures { result ≡ blank_point }
{
    [0.0; 64]
}

// Whether the search of a record gives the answers that the record holds. The points that it finds are nobody's.
pub(crate) fn agrees(r: Recorded) -> bool
    requires { numel_of r.cone ≤ 64 }
    ensures { result ≡ agrees_of r }
{
    let n = numel(r.cone);
    let dz = r.dz;
    let ds = r.ds;
    let z = r.z;
    let s = r.s;
    let mut dual = blank();
    let mut primal = blank();
    let steps = step_length(
        r.cone,
        head(&dz, n),
        head(&ds, n),
        head(&z, n),
        head(&s, n),
        &mut dual[..n],
        &mut primal[..n],
        r.settings,
    );
    same_answers(steps, r.steps)
}
