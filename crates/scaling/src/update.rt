// update_scaling of 000, 001 and 002: the new record, made from the cone and the call's other arguments alone. Row 1 of the table has let
// through kinds 1, 2 and 3 alone. There is no new record where the Rust would panic on the way to it.
ghost use Rattle.std.specs.Prelude.{◌≡◌, ◌+◌, ◌≤◌, length, option_map, MatchOption, Some, None};
ghost use Rattle.cone.specs.Calls.{WideCall};
ghost use Rattle.cone.specs.Fresh.{no_three, no_wide, attempt_of};
ghost use Rattle.scaling.specs.Updates.{new_three, wide_at, new_wide, new_record_of};

use crate::update_hs;
use algebra::vector::head;
use cone::{Cone, Scaling, Three, Wide, no_three, no_wide, three_of, wide_of};
use judges::is_wide;
use kinds::three::update_dual_grad_h;

fn new_three(cone: &Cone, s: [f64; 3], z: [f64; 3], mu: f64, strategy: u32) -> Option<Three>
    ensures { option_map (λ three. attempt_of cone.now three no_wide) result ≡ new_three cone.now s z mu strategy }
{
    let kind = cone.kind;
    let alpha = cone.exps[0];
    // update both gradient and Hessian for function f*(z) at the point z
    let dual = update_dual_grad_h(kind, alpha, z);
    let grad = dual.grad;
    let hdual = dual.hdual;
    // update the scaling matrix Hs
    let hs = update_hs(kind, alpha, strategy, mu, grad, hdual, s, z)?;
    Some(Three { z, grad, hdual, hs })
}

fn wide_at(w: Wide, z: [f64; 64], mu: f64) -> Wide
    ensures { result ≡ wide_at w z mu }
{
    let mut new = w;
    new.z = z;
    new.mu = mu;
    new
}

fn new_wide(cone: &Cone, z: &[f64], mu: f64) -> Option<Wide>
    requires { (cone.now.dim1 ≤ 32) × (cone.now.dim2 ≤ 32) × (length z.now ≡ cone.now.dim1 + cone.now.dim2) }
    ensures { option_map (λ wide. attempt_of cone.now no_three wide) result ≡ new_wide cone.now z.now mu }
{
    let dual = genpowcone::update_dual_grad_h(head(&cone.exps, cone.dim1 as usize), z)?;
    Some(wide_at(dual, wide_of(z), mu))
}

// The numbers of a record that was scaled, beside its cone. It has no serial yet.
fn put(new: &mut Scaling, three: Three, wide: Wide)
    ensures { new.new ≡ attempt_of new.old.cone three wide }
{
    new.scaled = 1;
    new.serial = 0;
    new.three = three;
    new.wide = wide;
}

// Written where it lies: a record that is handed on by value takes as much of the stack again at each call on its way. Where there is none,
// the old one stays.
pub fn new_record(new: &mut Scaling, s: &[f64], z: &[f64], mu: f64, strategy: u32) -> Option<()>
    requires { WideCall new.old.cone z.now }
    ensures { MatchOption result
        ((new_record_of new.old.cone s.now z.now mu strategy ≡ None) × (new.new ≡ new.old))
        (λ done. new_record_of new.old.cone s.now z.now mu strategy ≡ Some new.new) }
{
    if is_wide(new.cone.kind) {
        let wide = new_wide(&new.cone, z, mu)?;
        put(new, no_three(), wide);
        return Some(());
    }
    let three = new_three(&new.cone, three_of(s), three_of(z), mu, strategy)?;
    put(new, three, no_wide());
    Some(())
}
