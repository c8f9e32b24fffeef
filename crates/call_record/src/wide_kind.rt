// The entries over a record for kind 3, but for the two that `wide_primal` has. Each judges its arguments by the table of document 01,
// computes into locals, and only then writes.
ghost use Rattle.std.specs.Prelude.{◌≡◌};
ghost use Rattle.cone.specs.table.Table.{code_of};
ghost use Rattle.cone.specs.Lent.{scaling_at};
ghost use Rattle.call_record.specs.wide.Entries.{compute_barrier_of, get_hs_of, mul_hs_of};

use crate::wide_rows::{publish_wide, rows};
use cone::Number;
use cone::lent::LentScaling;
use cone::table::Refusal;
use double::is_finite;
use judges::refusal::finished;
use judges::{all_finite, sides_finite};
use kinds::wide_kind;

// step is the Rust's α; it may be any finite number.
pub(crate) fn compute_barrier(
    lent: &LentScaling<'_>,
    z: &[f64],
    s: &[f64],
    dz: &[f64],
    ds: &[f64],
    step: f64,
) -> Number
    ensures { result ≡ compute_barrier_of (scaling_at lent.now) z.now s.now dz.now ds.now step }
{
    let dim1 = lent.cone.dim1 as usize;
    let n = dim1 + lent.cone.dim2 as usize;
    let lengths = (z.len() != n) | (s.len() != n) | (dz.len() != n) | (ds.len() != n);
    let finite = sides_finite(dz, ds, z, s) & is_finite(step);
    if let Err(refusal) = rows(lent, lengths, false, false, finite) {
        return Number::refused(refusal);
    }
    finished(wide_kind::compute_barrier(lent.cone.exps, dim1, z, s, dz, ds, step))
}

// ---- the scaling matrix, of the record's serial if the caller expects that one

pub(crate) fn get_hs(lent: &LentScaling<'_>, serial: u32, block: &mut [f64]) -> Result<(), Refusal>
    ensures { record { answer = code_of result; slice = block.new }
        ≡ get_hs_of (scaling_at lent.now) serial block.old }
{
    let dim1 = lent.cone.dim1 as usize;
    let dim2 = lent.cone.dim2 as usize;
    let lengths = block.len() != dim1 + dim2;
    rows(lent, lengths, lent.scaled == 0, lent.serial != serial, true)?;
    let w = lent.wide;
    let diagonal = wide_kind::get_hs(w.mu, w.d1, dim1, w.d2, dim2);
    publish_wide(block, &diagonal)
}

pub(crate) fn mul_hs(
    lent: &LentScaling<'_>,
    serial: u32,
    y: &mut [f64],
    x: &[f64],
) -> Result<(), Refusal>
    ensures { record { answer = code_of result; slice = y.new }
        ≡ mul_hs_of (scaling_at lent.now) serial y.old x.now }
{
    let dim1 = lent.cone.dim1 as usize;
    let n = dim1 + lent.cone.dim2 as usize;
    let lengths = (y.len() != n) | (x.len() != n);
    let finite = all_finite(x);
    rows(
        lent,
        lengths,
        lent.scaled == 0,
        lent.serial != serial,
        finite,
    )?;
    let w = lent.wide;
    let product = genpowcone::mul_hs(w.p, w.q, w.r, w.d1, w.d2, w.mu, dim1, x);
    publish_wide(y, &product)
}
