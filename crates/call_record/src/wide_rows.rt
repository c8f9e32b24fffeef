// What the entries over a record share for kind 3: the rows of the table, and how an answer goes out.
ghost use Rattle.std.specs.Prelude.{◌≡◌, not, ◌&&◌, ◌≤◌, length, take};
ghost use Rattle.cone.specs.table.Table.{code_of};
ghost use Rattle.cone.specs.Lent.{cone_at, wide_at};
ghost use Rattle.judges.specs.Judges.{wide_finite};
ghost use Rattle.judges.specs.Refusals.{publish_of};
ghost use Rattle.call_record.specs.Rows.{record_rows};
ghost use Rattle.call_record.specs.wide_rows.Rows.{bad_wide};

use algebra::vector::head;
use cone::lent::{LentCone, LentScaling};
use cone::table::{Refusal, first_row, no_faults};
use judges::refusal::publish;
use judges::{rule_ok, tolerance_of, wide_finite, wide_ok};

// The table, by what is wrong with the call's lengths and its record, and whether its own numbers are finite.
pub(crate) fn rows(
    lent: &LentScaling<'_>,
    lengths: bool,
    unscaled: bool,
    serial: bool,
    finite: bool,
) -> Result<(), Refusal>
    ensures { code_of result ≡ record_rows (bad_wide (cone_at lent.now.cone)) lengths
        (not (finite && wide_finite (wide_at lent.now.wide) lent.now.cone.dim1 lent.now.cone.dim2))
        unscaled serial }
{
    let LentCone {
        dim1,
        dim2,
        rule,
        exps,
        ..
    } = lent.cone;
    let mut faults = no_faults();
    faults.cone = !(rule_ok(rule) & wide_ok(dim1, dim2, exps, tolerance_of(rule)));
    faults.length = lengths;
    faults.number = !(finite & wide_finite(&lent.wide, dim1, dim2));
    faults.unscaled = unscaled;
    faults.serial = serial;
    first_row(faults)
}

// As many places as the slice has.
pub(crate) fn publish_wide(out: &mut [f64], ans: &[f64; 64]) -> Result<(), Refusal>
    requires { length out.old ≤ 64 }
    ensures { record { answer = code_of result; slice = out.new }
        ≡ publish_of out.old (take (length out.old) ans.now) }
{
    let n = out.len();
    publish(out, head(ans, n))
}
