// The entries over a record for kinds 1 and 2, but those of the scaling matrix, which are in `blocks`. Each judges its arguments by the table
// of document 01, computes into locals, and only then writes.
ghost use Rattle.std.specs.Prelude.{◌≡◌};
ghost use Rattle.cone.specs.table.Table.{code_of};
ghost use Rattle.cone.specs.Lent.{scaling_at};
ghost use Rattle.judges.specs.Refusals.{judged_of};
ghost use Rattle.call_record.specs.three.Entries.{gradient_primal_of, barrier_primal_of, compute_barrier_of};
ghost use Rattle.call_record.specs.three.Entries.{higher_correction_of, combined_ds_shift_of};

use crate::blocks::rows;
use cone::lent::LentScaling;
use cone::table::Refusal;
use cone::{Number, Rounds, three_of};
use double::is_finite;
use judges::refusal::{counted, finished, publish};
use judges::{all_finite, sides_finite};
use kinds::three;

// ---- the primal side

pub fn gradient_primal(lent: &LentScaling<'_>, g: &mut [f64], s: &[f64]) -> Rounds
    ensures { record { answer = result; slice = g.new }
        ≡ gradient_primal_of (scaling_at lent.now) g.old s.now }
{
    let lengths = (g.len() != 3) | (s.len() != 3);
    if let Err(refusal) = rows(lent, lengths, false, false, all_finite(s)) {
        return Rounds::refused(refusal);
    }
    let Some(a) = three::gradient_primal(lent.cone.kind, lent.cone.exps[0], three_of(s)) else {
        return Rounds::refused(Refusal::WouldPanic);
    };
    let published = publish(g, &a.g);
    counted(published, a.rounds)
}

fn judged(value: Option<f64>) -> Number
    ensures { result ≡ judged_of value }
{
    match value {
        None => Number::refused(Refusal::WouldPanic),
        Some(value) => finished(value),
    }
}

pub fn barrier_primal(lent: &LentScaling<'_>, s: &[f64]) -> Number
    ensures { result ≡ barrier_primal_of (scaling_at lent.now) s.now }
{
    let lengths = s.len() != 3;
    if let Err(refusal) = rows(lent, lengths, false, false, all_finite(s)) {
        return Number::refused(refusal);
    }
    judged(three::barrier_primal(lent.cone.kind, lent.cone.exps[0], three_of(s)))
}

// step is the Rust's α; it may be any finite number.
pub fn compute_barrier(
    lent: &LentScaling<'_>,
    z: &[f64],
    s: &[f64],
    dz: &[f64],
    ds: &[f64],
    step: f64,
) -> Number
    ensures { result ≡ compute_barrier_of (scaling_at lent.now) z.now s.now dz.now ds.now step }
{
    let lengths = (z.len() != 3) | (s.len() != 3) | (dz.len() != 3) | (ds.len() != 3);
    let finite = sides_finite(dz, ds, z, s) & is_finite(step);
    if let Err(refusal) = rows(lent, lengths, false, false, finite) {
        return Number::refused(refusal);
    }
    judged(three::compute_barrier(
        lent.cone.kind,
        lent.cone.exps[0],
        three_of(z),
        three_of(s),
        three_of(dz),
        three_of(ds),
        step,
    ))
}

// ---- kinds 1 and 2 alone: another kind is no cone here

pub fn higher_correction(
    lent: &LentScaling<'_>,
    serial: u32,
    eta: &mut [f64],
    ds: &[f64],
    v: &[f64],
) -> Result<(), Refusal>
    ensures { record { answer = code_of result; slice = eta.new }
        ≡ higher_correction_of (scaling_at lent.now) serial eta.old ds.now v.now }
{
    let lengths = (eta.len() != 3) | (ds.len() != 3) | (v.len() != 3);
    let finite = all_finite(ds) & all_finite(v);
    rows(
        lent,
        lengths,
        lent.scaled == 0,
        lent.serial != serial,
        finite,
    )?;
    let kept = lent.three;
    let ans = three::higher_correction(
        lent.cone.kind,
        lent.cone.exps[0],
        *kept.hdual,
        *kept.z,
        three_of(ds),
        three_of(v),
    );
    publish(eta, &ans)
}

pub fn combined_ds_shift(
    lent: &LentScaling<'_>,
    serial: u32,
    shifted: &mut [f64],
    stepz: &[f64],
    steps: &[f64],
    sigmamu: f64,
) -> Result<(), Refusal>
    ensures { record { answer = code_of result; slice = shifted.new }
        ≡ combined_ds_shift_of (scaling_at lent.now) serial shifted.old stepz.now steps.now sigmamu }
{
    let lengths = (shifted.len() != 3) | (stepz.len() != 3) | (steps.len() != 3);
    let finite = all_finite(stepz) & all_finite(steps) & is_finite(sigmamu);
    rows(
        lent,
        lengths,
        lent.scaled == 0,
        lent.serial != serial,
        finite,
    )?;
    let kept = lent.three;
    let ans = three::combined_ds_shift(
        lent.cone.kind,
        lent.cone.exps[0],
        *kept.hdual,
        *kept.z,
        *kept.grad,
        three_of(stepz),
        three_of(steps),
        sigmamu,
    );
    publish(shifted, &ans)
}
