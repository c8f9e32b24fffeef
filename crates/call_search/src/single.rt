// The public entries that search along a direction. 01: "Feasibility and step search take a cone and no record, and never give 5, 6 or 7".
ghost use Rattle.std.specs.Prelude.{◌≡◌};
ghost use Rattle.call_search.specs.single.Entries.{backtrack_search_of, step_length_of};

mod rows;

use cone::{Cone, Found, Settings, Steps};
use rows::{search_rows, step_rows};

// 003 on one side: primal, or dual. The tested point is handed back, and q with step zero.
pub fn backtrack_search(
    cone: Cone,
    primal: bool,
    dq: &[f64],
    q: &[f64],
    point: &mut [f64],
    settings: Settings,
) -> Found
    ensures { record { answer = result; slice = point.new }
        ≡ backtrack_search_of cone primal dq.now q.now point.old settings }
{
    if let Err(refusal) = search_rows(cone, dq, q, point.len(), settings) {
        return Found::refused(refusal);
    }
    let searched = search::backtrack_search(&cone, primal, dq, q, settings, point);
    Found::from(searched)
}

// Both searches of 000, 001 and 002: the dual side with dz and z, then the primal side with ds and s. What is wrong on one side refuses
// both.
pub fn step_length(
    cone: Cone,
    dz: &[f64],
    ds: &[f64],
    z: &[f64],
    s: &[f64],
    dualpoint: &mut [f64],
    primalpoint: &mut [f64],
    settings: Settings,
) -> Steps
    ensures { record { answer = result; first = dualpoint.new; second = primalpoint.new }
        ≡ step_length_of cone dz.now ds.now z.now s.now dualpoint.old
        primalpoint.old settings }
{
    let judged = step_rows(
        cone,
        dz,
        ds,
        z,
        s,
        dualpoint.len(),
        primalpoint.len(),
        settings,
    );
    if let Err(refusal) = judged {
        return Steps::refused(refusal);
    }
    let dual = search::backtrack_search(&cone, false, dz, z, settings, dualpoint);
    let primal = search::backtrack_search(&cone, true, ds, s, settings, primalpoint);
    Steps {
        code: 0,
        dualcount: dual.count,
        primalcount: primal.count,
        dualstep: dual.step,
        primalstep: primal.step,
    }
}
