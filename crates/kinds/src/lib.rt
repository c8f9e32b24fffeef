// Each formula of 000, 001 and 002 over a cone: closures become a choice by kind, and this is its place. Row 1 of the table has let
// through kinds 1, 2 and 3 alone.
#![tactic(auto)]

ghost use Rattle.std.specs.Prelude.{◌≡◌};
ghost use Rattle.cone.specs.Calls.{WideCall};
ghost use Rattle.kinds.specs.Answers.{exp_answer, pow_answer, genpow_answer, used_of, answer_of};
ghost use Rattle.kinds.specs.Passes.{passes_in};
ghost use Rattle.kinds.specs.Cones.{barrier_dual_of, dual_grad_h_of};

use algebra::vector::head;
use cone::verdict::{Answer, is_yes};
use cone::{Cone, Scaling, attempted, no_three, no_wide, three_of};

pub mod three;
pub mod wide_kind;

// ---- step_length's two tests, is_primal_feasible and is_dual_feasible

fn exp_answer(primal: bool, p: [f64; 3]) -> Answer
    ensures { result ≡ exp_answer primal p }
{
    if primal {
        expcone::feasible::is_primal_feasible(p)
    } else {
        expcone::feasible::is_dual_feasible(p)
    }
}

fn pow_answer(alpha: f64, primal: bool, p: [f64; 3]) -> Answer
    ensures { result ≡ pow_answer alpha primal p }
{
    if primal {
        powcone::is_primal_feasible(alpha, p)
    } else {
        powcone::is_dual_feasible(alpha, p)
    }
}

fn genpow_answer(alpha: &[f64], primal: bool, p: &[f64]) -> Answer
    ensures { result ≡ genpow_answer alpha.now primal p.now }
{
    if primal {
        genpowcone::is_primal_feasible(alpha, p)
    } else {
        genpowcone::is_dual_feasible(alpha, p)
    }
}

// How many exponent places a test of the kind reads.
pub fn used(kind: u32, dim1: u32) -> usize
    ensures { result ≡ used_of kind dim1 }
{
    if kind == 2 {
        return 1;
    }
    if kind == 3 {
        if dim1 < 32 {
            return dim1 as usize;
        }
        return 32;
    }
    0
}

// Whether the point lies in the cone, or in its dual. The cone is lent, so that a search copies none for a test.
pub fn answer(cone: &Cone, primal: bool, point: &[f64]) -> Answer
    ensures { result ≡ answer_of cone.now primal point.now }
{
    match cone.kind {
        1 => exp_answer(primal, three_of(point)),
        2 => pow_answer(cone.exps[0], primal, three_of(point)),
        3 => genpow_answer(head(&cone.exps, cone.dim1 as usize), primal, point),
        _ => Answer::No,
    }
}

pub fn passes(cone: &Cone, primal: bool, point: &[f64]) -> bool
    ensures { result ≡ passes_in cone.now.kind cone.now.dim1 cone.now.exps primal point.now }
{
    is_yes(answer(cone, primal, point))
}

pub fn barrier_dual(cone: Cone, z: &[f64]) -> f64
    ensures { result ≡ barrier_dual_of cone z.now }
{
    let kind = cone.kind;
    let exps = cone.exps;
    match kind {
        1 => expcone::barrier_dual(three_of(z)),
        2 => powcone::barrier_dual(exps[0], three_of(z)),
        3 => genpowcone::barrier_dual(head(&exps, cone.dim1 as usize), z),
        _ => 0.0,
    }
}

// update_dual_grad_H, in a record whose z, hs and mu are +0. There is none where the Rust would panic.
pub fn dual_grad_h(cone: Cone, z: &[f64]) -> Option<Scaling>
    requires { WideCall cone z.now }
    ensures { result ≡ dual_grad_h_of cone z.now }
{
    let kind = cone.kind;
    let exps = cone.exps;
    if kind == 3 {
        let wide = genpowcone::update_dual_grad_h(head(&exps, cone.dim1 as usize), z)?;
        return Some(attempted(cone, no_three(), wide));
    }
    let three = three::update_dual_grad_h(kind, exps[0], three_of(z));
    Some(attempted(cone, three, no_wide()))
}
