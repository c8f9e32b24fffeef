// The rows of the table that judge a search of one cone.
ghost use Rattle.std.specs.Prelude.{◌≡◌};
ghost use Rattle.cone.specs.table.Table.{code_of};
ghost use Rattle.call_search.specs.single.Rows.{search_rows, step_rows};

use crate::rows::{both_rows, side_rows};
use cone::table::Refusal;
use cone::{Cone, Settings};
use judges::{cone_ok, numel};

pub(crate) fn search_rows(
    cone: Cone,
    dq: &[f64],
    q: &[f64],
    point: usize,
    settings: Settings,
) -> Result<(), Refusal>
    ensures { code_of result ≡ search_rows cone dq.now q.now point settings }
{
    side_rows(!cone_ok(cone), numel(cone), dq, q, point, settings)
}

pub(crate) fn step_rows(
    cone: Cone,
    dz: &[f64],
    ds: &[f64],
    z: &[f64],
    s: &[f64],
    dualpoint: usize,
    primalpoint: usize,
    settings: Settings,
) -> Result<(), Refusal>
    ensures { code_of result
        ≡ step_rows cone dz.now ds.now z.now s.now dualpoint primalpoint settings }
{
    both_rows(
        !cone_ok(cone),
        numel(cone),
        dz,
        ds,
        z,
        s,
        dualpoint,
        primalpoint,
        settings,
    )
}
