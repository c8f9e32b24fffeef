// The rows of the table that judge a search, of one cone or of a plan: what is wrong with its cones, and n, how many numbers a point has.
ghost use Rattle.std.specs.Prelude.{◌≡◌};
ghost use Rattle.cone.specs.table.Table.{code_of, first_row};
ghost use Rattle.call_search.specs.Rows.{side_faults, both_faults};

use cone::Settings;
use cone::table::{Refusal, first_row, no_faults};
use judges::{all_finite, settings_finite, settings_ok, sides_finite};

pub(crate) fn side_rows(
    bad_cone: bool,
    n: usize,
    dq: &[f64],
    q: &[f64],
    point: usize,
    settings: Settings,
) -> Result<(), Refusal>
    ensures { code_of result ≡ first_row (side_faults bad_cone n dq.now q.now point settings) }
{
    let mut faults = no_faults();
    faults.cone = bad_cone;
    faults.length = (dq.len() != n) | (q.len() != n) | (point != n);
    faults.number = !(all_finite(dq) & all_finite(q) & settings_finite(settings));
    faults.setting = !settings_ok(settings);
    first_row(faults)
}

// The rows of both sides: what is wrong on one of them refuses both.
pub(crate) fn both_rows(
    bad_cone: bool,
    n: usize,
    dz: &[f64],
    ds: &[f64],
    z: &[f64],
    s: &[f64],
    dualpoint: usize,
    primalpoint: usize,
    settings: Settings,
) -> Result<(), Refusal>
    ensures { code_of result ≡ first_row (both_faults bad_cone n dz.now ds.now z.now s.now
        dualpoint primalpoint settings) }
{
    let mut faults = no_faults();
    faults.cone = bad_cone;
    faults.length = (dz.len() != n)
        | (ds.len() != n)
        | (z.len() != n)
        | (s.len() != n)
        | (dualpoint != n)
        | (primalpoint != n);
    faults.number = !(sides_finite(dz, ds, z, s) & settings_finite(settings));
    faults.setting = !settings_ok(settings);
    first_row(faults)
}
