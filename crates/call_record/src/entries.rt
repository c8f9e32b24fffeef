// The public entries that take a scaling record by value, but for update_scaling. A call takes its cone from the record, so no second cone
// can disagree. Each lends its record to the call of its name in `in_place`.
ghost use Rattle.std.specs.Prelude.{◌≡◌};
ghost use Rattle.cone.specs.table.Table.{code_of};
ghost use Rattle.call_record.specs.entries.Entries.{gradient_primal_of, barrier_primal_of, compute_barrier_of, get_hs_of, mul_hs_of};
ghost use Rattle.call_record.specs.entries.Entries.{higher_correction_of, combined_ds_shift_of};

use cone::lent::LentScaling;
use cone::table::Refusal;
use cone::{Number, Rounds, Scaling};

// ---- the primal side

// The primal gradient, and how many Newton rounds it took: 0 where Newton was not entered.
pub fn gradient_primal(scaling: Scaling, g: &mut [f64], s: &[f64]) -> Rounds
    ensures { record { answer = result; slice = g.new } ≡ gradient_primal_of scaling g.old s.now }
{
    crate::in_place::gradient_primal(&LentScaling::of(&scaling), g, s)
}

pub fn barrier_primal(scaling: Scaling, s: &[f64]) -> Number
    ensures { result ≡ barrier_primal_of scaling s.now }
{
    crate::in_place::barrier_primal(&LentScaling::of(&scaling), s)
}

pub fn compute_barrier(
    scaling: Scaling,
    z: &[f64],
    s: &[f64],
    dz: &[f64],
    ds: &[f64],
    alpha: f64,
) -> Number
    ensures { result ≡ compute_barrier_of scaling z.now s.now dz.now ds.now alpha }
{
    crate::in_place::compute_barrier(&LentScaling::of(&scaling), z, s, dz, ds, alpha)
}

// ---- the scaling matrix. This call and the three below name the serial that they expect of the record

pub fn get_hs(scaling: Scaling, serial: u32, block: &mut [f64]) -> Result<(), Refusal>
    ensures { record { answer = code_of result; slice = block.new } ≡ get_hs_of scaling serial block.old }
{
    crate::in_place::get_hs(&LentScaling::of(&scaling), serial, block)
}

pub fn mul_hs(scaling: Scaling, serial: u32, y: &mut [f64], x: &[f64]) -> Result<(), Refusal>
    ensures { record { answer = code_of result; slice = y.new } ≡ mul_hs_of scaling serial y.old x.now }
{
    crate::in_place::mul_hs(&LentScaling::of(&scaling), serial, y, x)
}

// ---- kinds 1 and 2 alone: `three` refuses any other

pub fn higher_correction(
    scaling: Scaling,
    serial: u32,
    eta: &mut [f64],
    ds: &[f64],
    v: &[f64],
) -> Result<(), Refusal>
    ensures { record { answer = code_of result; slice = eta.new }
        ≡ higher_correction_of scaling serial eta.old ds.now v.now }
{
    crate::in_place::higher_correction(&LentScaling::of(&scaling), serial, eta, ds, v)
}

pub fn combined_ds_shift(
    scaling: Scaling,
    serial: u32,
    shifted: &mut [f64],
    stepz: &[f64],
    steps: &[f64],
    sigmamu: f64,
) -> Result<(), Refusal>
    ensures { record { answer = code_of result; slice = shifted.new }
        ≡ combined_ds_shift_of scaling serial shifted.old stepz.now steps.now sigmamu }
{
    crate::in_place::combined_ds_shift(
        &LentScaling::of(&scaling),
        serial,
        shifted,
        stepz,
        steps,
        sigmamu,
    )
}
