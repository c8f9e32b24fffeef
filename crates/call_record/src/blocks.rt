// The scaling matrix of a record of kinds 1 and 2, and the table's rows for these kinds. Another kind is no cone here.
ghost use Rattle.std.specs.Prelude.{◌≡◌, not, ◌&&◌};
ghost use Rattle.cone.specs.table.Table.{code_of};
ghost use Rattle.cone.specs.Lent.{cone_at, three_at, scaling_at};
ghost use Rattle.judges.specs.Judges.{three_finite};
ghost use Rattle.call_record.specs.Rows.{record_rows};
ghost use Rattle.call_record.specs.blocks.Blocks.{bad_three, get_hs_of, mul_hs_of};

use algebra::sym3::mul;
use cone::lent::LentScaling;
use cone::table::{Refusal, first_row, no_faults};
use cone::three_of;
use judges::refusal::publish;
use judges::{all_finite, rule_ok, three_finite, three_ok};

// The table, by what is wrong with the call's lengths and its record, and whether its own numbers are finite.
pub(crate) fn rows(
    lent: &LentScaling<'_>,
    lengths: bool,
    unscaled: bool,
    serial: bool,
    finite: bool,
) -> Result<(), Refusal>
    ensures { code_of result ≡ record_rows (bad_three (cone_at lent.now.cone)) lengths
        (not (finite && three_finite (three_at lent.now.three))) unscaled serial }
{
    let mut faults = no_faults();
    faults.cone = !(rule_ok(lent.cone.rule) & three_ok(lent.cone.kind, lent.cone.exps[0]));
    faults.length = lengths;
    faults.number = !(finite & three_finite(lent.three.copied()));
    faults.unscaled = unscaled;
    faults.serial = serial;
    first_row(faults)
}

pub fn get_hs(lent: &LentScaling<'_>, serial: u32, block: &mut [f64]) -> Result<(), Refusal>
    ensures { record { answer = code_of result; slice = block.new }
        ≡ get_hs_of (scaling_at lent.now) serial block.old }
{
    let lengths = block.len() != 6;
    rows(lent, lengths, lent.scaled == 0, lent.serial != serial, true)?;
    // Hs data is already in packed triu form, so just copy
    let hs = lent.three.hs;
    publish(block, hs)
}

pub fn mul_hs(lent: &LentScaling<'_>, serial: u32, y: &mut [f64], x: &[f64]) -> Result<(), Refusal>
    ensures { record { answer = code_of result; slice = y.new }
        ≡ mul_hs_of (scaling_at lent.now) serial y.old x.now }
{
    let lengths = (y.len() != 3) | (x.len() != 3);
    rows(
        lent,
        lengths,
        lent.scaled == 0,
        lent.serial != serial,
        all_finite(x),
    )?;
    let product = mul(*lent.three.hs, three_of(x));
    publish(y, &product)
}
