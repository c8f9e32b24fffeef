// How a call is refused and how it hands its answer back. A refused call has written nothing: an entry judges first, computes into locals
// and lends them to `publish`, which judges row 7 and only then writes.
ghost use Rattle.std.specs.Prelude.{◌≡◌, length, IfOk};
ghost use Rattle.cone.specs.table.Table.{code_of};
ghost use Rattle.judges.specs.Refusals.{publish_of, publish_two_of, number_of, counted_of, last_rows};

use crate::{all_finite, record_finite};
use cone::table::Refusal;
use cone::{Number, Rounds, Scaling};
use double::is_finite;

// The lent slice becomes the answer, which is as long. No `copy_from_slice`: by it the library would need memmove beside memcpy and memset.
pub fn store(out: &mut [f64], ans: &[f64])
    requires { length ans.now ≡ length out.old }
    ensures { out.new ≡ ans.now }
{
    for i in 0..out.len() {
        out[i] = ans[i];
    }
}

// The finished answer goes out, or number 7 and the slice stays as it was.
pub fn publish(out: &mut [f64], ans: &[f64]) -> Result<(), Refusal>
    requires { length ans.now ≡ length out.old }
    ensures { record { answer = code_of result; slice = out.new } ≡ publish_of out.old ans.now }
{
    if all_finite(ans) {
        store(out, ans);
        return Ok(());
    }
    Err(Refusal::AnswerNotFinite)
}

// Both answers go out, or number 7 and both slices stay as they were.
pub fn publish_two(x: &mut [f64], y: &mut [f64], a: &[f64], b: &[f64]) -> Result<(), Refusal>
    requires { (length a.now ≡ length x.old) × (length b.now ≡ length y.old) }
    ensures { record { answer = code_of result; first = x.new; second = y.new }
        ≡ publish_two_of x.old y.old a.now b.now }
{
    if all_finite(a) & all_finite(b) {
        store(x, a);
        store(y, b);
        return Ok(());
    }
    Err(Refusal::AnswerNotFinite)
}

// A finished number, or number 7 and zero.
pub fn finished(value: f64) -> Number
    ensures { result ≡ number_of value }
{
    if is_finite(value) {
        return Number { code: 0, value };
    }
    Number::refused(Refusal::AnswerNotFinite)
}

// A published gradient's count of rounds; a refusal counts 0.
pub fn counted(published: Result<(), Refusal>, rounds: u32) -> Rounds
    ensures { result ≡ counted_of (code_of published) rounds }
{
    match published {
        Ok(()) => Rounds { code: 0, rounds },
        Err(refusal) => Rounds::refused(refusal),
    }
}

// Rows 6 and 7 of a new record, which is handed on where both let it through: there is none where the Rust would panic on the way to it.
pub fn last_rows(made: &Option<Scaling>) -> Result<&Scaling, Refusal>
    ensures { (code_of result ≡ last_rows made.now) × IfOk result (λ new. made.now ≡ Some new.now) }
{
    match made {
        None => Err(Refusal::WouldPanic),
        Some(new) if !record_finite(*new) => Err(Refusal::AnswerNotFinite),
        Some(new) => Ok(new),
    }
}
