// The primal gradient and the primal barrier over a record for kind 3: of the record, the cone alone; its other numbers are judged. Each
// judges by the table of document 01, computes into locals, and only then writes.
ghost use Rattle.std.specs.Prelude.{◌≡◌};
ghost use Rattle.cone.specs.Lent.{scaling_at};
ghost use Rattle.call_record.specs.wide_primal.Entries.{gradient_primal_of, barrier_primal_of};

use crate::wide_rows::{publish_wide, rows};
use cone::lent::LentScaling;
use cone::{Number, Rounds};
use judges::all_finite;
use judges::refusal::{counted, finished};
use kinds::wide_kind;

pub(crate) fn gradient_primal(lent: &LentScaling<'_>, g: &mut [f64], s: &[f64]) -> Rounds
    ensures { record { answer = result; slice = g.new }
        ≡ gradient_primal_of (scaling_at lent.now) g.old s.now }
{
    let dim1 = lent.cone.dim1 as usize;
    let n = dim1 + lent.cone.dim2 as usize;
    let lengths = (g.len() != n) | (s.len() != n);
    let finite = all_finite(s);
    if let Err(refusal) = rows(lent, lengths, false, false, finite) {
        return Rounds::refused(refusal);
    }
    let a = wide_kind::gradient_primal(lent.cone.exps, dim1, s);
    let published = publish_wide(g, &a.g);
    counted(published, a.rounds)
}

pub(crate) fn barrier_primal(lent: &LentScaling<'_>, s: &[f64]) -> Number
    ensures { result ≡ barrier_primal_of (scaling_at lent.now) s.now }
{
    let dim1 = lent.cone.dim1 as usize;
    let lengths = s.len() != dim1 + lent.cone.dim2 as usize;
    let finite = all_finite(s);
    if let Err(refusal) = rows(lent, lengths, false, false, finite) {
        return Number::refused(refusal);
    }
    finished(wide_kind::barrier_primal(lent.cone.exps, dim1, s))
}
