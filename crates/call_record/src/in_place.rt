// The public entries that take a scaling record, but for update_scaling, with the record where it lies, so that none is copied. The calls of
// `entries`, which take a record by value, lend it to these. What each does is chosen by the cone's kind before anything else: `blocks` and
// `three` judge, compute and write for kinds 1 and 2, `wide_primal` and `wide_kind` for kind 3.
ghost use Rattle.std.specs.Prelude.{◌≡◌};
ghost use Rattle.cone.specs.table.Table.{code_of};
ghost use Rattle.cone.specs.Lent.{scaling_at};
ghost use Rattle.call_record.specs.entries.Entries.{gradient_primal_of, barrier_primal_of, compute_barrier_of, get_hs_of, mul_hs_of};
ghost use Rattle.call_record.specs.entries.Entries.{higher_correction_of, combined_ds_shift_of};

use cone::lent::LentScaling;
use cone::table::Refusal;
use cone::{Number, Rounds};
use judges::is_wide;

// ---- the primal side

// The primal gradient, and how many Newton rounds it took: 0 where Newton was not entered.
pub fn gradient_primal(lent: &LentScaling<'_>, g: &mut [f64], s: &[f64]) -> Rounds
    ensures { record { answer = result; slice = g.new }
        ≡ gradient_primal_of (scaling_at lent.now) g.old s.now }
{
    if is_wide(lent.cone.kind) {
        return crate::wide_primal::gradient_primal(lent, g, s);
    }
    crate::three::gradient_primal(lent, g, s)
}

pub fn barrier_primal(lent: &LentScaling<'_>, s: &[f64]) -> Number
    ensures { result ≡ barrier_primal_of (scaling_at lent.now) s.now }
{
    if is_wide(lent.cone.kind) {
        return crate::wide_primal::barrier_primal(lent, s);
    }
    crate::three::barrier_primal(lent, s)
}

pub fn compute_barrier(
    lent: &LentScaling<'_>,
    z: &[f64],
    s: &[f64],
    dz: &[f64],
    ds: &[f64],
    alpha: f64,
) -> Number
    ensures { result ≡ compute_barrier_of (scaling_at lent.now) z.now s.now dz.now ds.now alpha }
{
    if is_wide(lent.cone.kind) {
        return crate::wide_kind::compute_barrier(lent, z, s, dz, ds, alpha);
    }
    crate::three::compute_barrier(lent, z, s, dz, ds, alpha)
}

// ---- the scaling matrix. This call and the three below name the serial that they expect of the record

pub fn get_hs(lent: &LentScaling<'_>, serial: u32, block: &mut [f64]) -> Result<(), Refusal>
    ensures { record { answer = code_of result; slice = block.new }
        ≡ get_hs_of (scaling_at lent.now) serial block.old }
{
    if is_wide(lent.cone.kind) {
        return crate::wide_kind::get_hs(lent, serial, block);
    }
    crate::blocks::get_hs(lent, serial, block)
}

pub fn mul_hs(lent: &LentScaling<'_>, serial: u32, y: &mut [f64], x: &[f64]) -> Result<(), Refusal>
    ensures { record { answer = code_of result; slice = y.new }
        ≡ mul_hs_of (scaling_at lent.now) serial y.old x.now }
{
    if is_wide(lent.cone.kind) {
        return crate::wide_kind::mul_hs(lent, serial, y, x);
    }
    crate::blocks::mul_hs(lent, serial, y, x)
}

// ---- kinds 1 and 2 alone: `three` refuses any other

pub fn higher_correction(
    lent: &LentScaling<'_>,
    serial: u32,
    eta: &mut [f64],
    ds: &[f64],
    v: &[f64],
) -> Result<(), Refusal>
    ensures { record { answer = code_of result; slice = eta.new }
        ≡ higher_correction_of (scaling_at lent.now) serial eta.old ds.now v.now }
{
    crate::three::higher_correction(lent, serial, eta, ds, v)
}

pub fn combined_ds_shift(
    lent: &LentScaling<'_>,
    serial: u32,
    shifted: &mut [f64],
    stepz: &[f64],
    steps: &[f64],
    sigmamu: f64,
) -> Result<(), Refusal>
    ensures { record { answer = code_of result; slice = shifted.new }
        ≡ combined_ds_shift_of (scaling_at lent.now) serial shifted.old stepz.now steps.now sigmamu }
{
    crate::three::combined_ds_shift(lent, serial, shifted, stepz, steps, sigmamu)
}
