// 02, Order 10: the public entries of a plan, one common step for a list of cones on one side, and one for both sides. The list is the
// memory of C's `const Cone *`.
ghost use Rattle.std.specs.Prelude.{◌≡◌};
ghost use Rattle.cone.specs.words.Words.{cones_of};
ghost use Rattle.cone.specs.table.Table.{code_of};
ghost use Rattle.call_search.specs.plans.Rows.{plan_rows, sides_rows};
ghost use Rattle.call_search.specs.plans.Entries.{common_step_of, plan_step_of};

use crate::rows::{both_rows, side_rows};
use cone::table::Refusal;
use cone::{Found, Settings};
use search::plan;

// The cones are judged before their lengths are added, so that no sum wraps.
fn plan_rows(
    cones: &[[u64; 34]],
    dq: &[f64],
    q: &[f64],
    point: usize,
    settings: Settings,
) -> Result<(), Refusal>
    ensures { code_of result ≡ plan_rows (cones_of cones.now) dq.now q.now point settings }
{
    if !plan::plan_ok(cones) {
        return Err(Refusal::BadCone);
    }
    side_rows(false, plan::total(cones), dq, q, point, settings)
}

// One side of a plan: primal, or dual. The tested point is handed back, and q with step zero.
pub fn common_step(
    cones: &[[u64; 34]],
    primal: bool,
    dq: &[f64],
    q: &[f64],
    point: &mut [f64],
    settings: Settings,
) -> Found
    ensures { record { answer = result; slice = point.new }
        ≡ common_step_of (cones_of cones.now) primal dq.now q.now point.old settings }
{
    if let Err(refusal) = plan_rows(cones, dq, q, point.len(), settings) {
        return Found::refused(refusal);
    }
    let searched = plan::common_search(cones, primal, dq, q, settings, point);
    Found::from(searched)
}

fn sides_rows(
    cones: &[[u64; 34]],
    dz: &[f64],
    ds: &[f64],
    z: &[f64],
    s: &[f64],
    dualpoint: usize,
    primalpoint: usize,
    settings: Settings,
) -> Result<(), Refusal>
    ensures { code_of result ≡ sides_rows (cones_of cones.now) dz.now ds.now z.now s.now
        dualpoint primalpoint settings }
{
    if plan::plan_ok(cones) {
        return both_rows(
            false,
            plan::total(cones),
            dz,
            ds,
            z,
            s,
            dualpoint,
            primalpoint,
            settings,
        );
    }
    Err(Refusal::BadCone)
}

// Both sides of a plan with one step. The tested points are handed back, and z and s with step zero.
pub fn plan_step(
    cones: &[[u64; 34]],
    dz: &[f64],
    ds: &[f64],
    z: &[f64],
    s: &[f64],
    dualpoint: &mut [f64],
    primalpoint: &mut [f64],
    settings: Settings,
) -> Found
    ensures { record { answer = result; first = dualpoint.new; second = primalpoint.new }
        ≡ plan_step_of (cones_of cones.now) dz.now ds.now z.now s.now
        dualpoint.old primalpoint.old settings }
{
    let judged = sides_rows(
        cones,
        dz,
        ds,
        z,
        s,
        dualpoint.len(),
        primalpoint.len(),
        settings,
    );
    if let Err(refusal) = judged {
        return Found::refused(refusal);
    }
    let searched = plan::sides_search(cones, dz, ds, z, s, settings, dualpoint, primalpoint);
    Found::from(searched)
}
