// update_scaling, the one entry that makes a record. It judges its arguments by the table of document 01, makes the new record from the
// cone and the call's other arguments, judges that, and only then hands it out, with the serial that follows the old one. As in `in_place`,
// the old record is taken where it lies; the call that takes a record by value lends it.
ghost use Rattle.std.specs.Prelude.{◌≡◌};
ghost use Rattle.cone.specs.Lent.{scaling_at};
ghost use Rattle.cone.specs.table.Table.{number_of, code_of};
ghost use Rattle.judges.specs.Refusals.{refuse_update};
ghost use Rattle.call_record.specs.update.Entries.{update_rows, update_scaling_of};

use cone::lent::LentScaling;
use cone::table::{Refusal, first_row, no_faults};
use cone::{LAST_SERIAL, Scaling, Updated, fresh};
use double::is_finite;
use judges::{all_finite, cone_ok, lent_finite, numel, strategy_ok};
use scaling::update::new_record;

// Never in its caller's frame: the formulas run on top of that, and the judge's copy of the cone would lie below them.
#[inline(never)]
fn update_rows(
    lent: &LentScaling<'_>,
    s: &[f64],
    z: &[f64],
    mu: f64,
    strategy: u32,
) -> Result<(), Refusal>
    ensures { code_of result ≡ update_rows (scaling_at lent.now) s.now z.now mu strategy }
{
    let cone = lent.cone.copied();
    let n = numel(cone);
    let mut faults = no_faults();
    faults.cone = !cone_ok(cone);
    faults.length = (s.len() != n) | (z.len() != n);
    faults.number = !(all_finite(s) & all_finite(z) & is_finite(mu) & lent_finite(lent));
    faults.setting = !strategy_ok(strategy);
    faults.spent = lent.serial == LAST_SERIAL;
    first_row(faults)
}

// A refused update hands the record back as it came.
fn refused(refusal: Refusal, lent: &LentScaling<'_>) -> Updated
    ensures { result ≡ refuse_update (scaling_at lent.now) (number_of refusal) }
{
    Updated {
        code: refusal.number(),
        scaling: lent.copied(),
    }
}

// Both scalings. All or nothing.
pub fn update_in_place(
    lent: &LentScaling<'_>,
    s: &[f64],
    z: &[f64],
    mu: f64,
    strategy: u32,
) -> Updated
    ensures { result ≡ update_scaling_of (scaling_at lent.now) s.now z.now mu strategy }
{
    if let Err(refusal) = update_rows(lent, s, z, mu, strategy) {
        return refused(refusal, lent);
    }
    let mut scaling = fresh(lent.cone.copied());
    let Some(()) = new_record(&mut scaling, s, z, mu, strategy) else {
        return refused(Refusal::WouldPanic, lent);
    };
    if !lent_finite(&LentScaling::of(&scaling)) {
        return refused(Refusal::AnswerNotFinite, lent);
    }
    scaling.serial = lent.serial + 1;
    Updated { code: 0, scaling }
}

pub fn update_scaling(scaling: Scaling, s: &[f64], z: &[f64], mu: f64, strategy: u32) -> Updated
    ensures { result ≡ update_scaling_of scaling s.now z.now mu strategy }
{
    update_in_place(&LentScaling::of(&scaling), s, z, mu, strategy)
}
