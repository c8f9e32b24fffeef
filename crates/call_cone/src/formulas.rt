// The public entries that take a cone; the feasibility tests are those of `feasibility`, the copies those of `copies`, passed
// on. Each judges its arguments by the table of document 01, computes into locals, and only then writes.
ghost use Rattle.std.specs.Prelude.{◌≡◌};
ghost use Rattle.cone.specs.table.Table.{number_of, code_of};
ghost use Rattle.call_cone.specs.formulas.Entries.{fresh_of, barrier_dual_of, refuse_grad, dual_grad_h_of};
ghost use Rattle.call_cone.specs.formulas.Entries.{unit_initialization_of, rectify_of, rectify_equilibration_of};

pub use crate::copies::{affine_ds, ds_from_dz_offset};
pub use crate::feasibility::{is_dual_feasible, is_primal_feasible};

mod equilibration;
mod rows;

use crate::copies::copy_rows;
use crate::feasibility::read_rows;
use algebra::vector::head;
use cone::table::Refusal;
use cone::{Cone, DualGrad, Number, Updated, YesNo, empty_cone, no_three, no_wide};
use equilibration::rectified;
use judges::is_wide;
use judges::refusal::{finished, last_rows, publish, publish_two};
use kinds::{three, wide_kind};
use rows::{fresh_rows, unit_rows};

// A record for the cone that was never scaled.
pub fn fresh(cone: Cone) -> Updated
    ensures { result ≡ fresh_of cone }
{
    if let Err(refusal) = fresh_rows(cone) {
        let none = empty_cone();
        let scaling = cone::fresh(none);
        return Updated {
            code: refusal.number(),
            scaling,
        };
    }
    let scaling = cone::fresh(cone);
    Updated { code: 0, scaling }
}

// ---- entries that read a point

pub fn barrier_dual(cone: Cone, z: &[f64]) -> Number
    ensures { result ≡ barrier_dual_of cone z.now }
{
    if let Err(refusal) = read_rows(cone, z) {
        return Number::refused(refusal);
    }
    finished(kinds::barrier_dual(cone, z))
}

fn refused_gradient(refusal: Refusal) -> DualGrad
    ensures { result ≡ refuse_grad (number_of refusal) }
{
    let three = no_three();
    let wide = no_wide();
    DualGrad {
        code: refusal.number(),
        three,
        wide,
    }
}

// update_dual_grad_H, by value.
pub fn dual_grad_h(cone: Cone, z: &[f64]) -> DualGrad
    ensures { result ≡ dual_grad_h_of cone z.now }
{
    if let Err(refusal) = read_rows(cone, z) {
        return refused_gradient(refusal);
    }
    let made = kinds::dual_grad_h(cone, z);
    match last_rows(&made) {
        Ok(new) => DualGrad {
            code: 0,
            three: new.three,
            wide: new.wide,
        },
        Err(refusal) => refused_gradient(refusal),
    }
}

// ---- entries that only write, or copy

pub fn unit_initialization(cone: Cone, z: &mut [f64], s: &mut [f64]) -> Result<(), Refusal>
    ensures { record { answer = code_of result; first = z.new; second = s.new }
        ≡ unit_initialization_of cone z.old s.old }
{
    unit_rows(cone, z.len(), s.len())?;
    let kind = cone.kind;
    if is_wide(kind) {
        let point = wide_kind::unit_initialization(&cone.exps, cone.dim1 as usize);
        let start = head(&point, z.len());
        return publish_two(z, s, start, start);
    }
    let point = three::unit_initialization(kind, cone.exps[0]);
    publish_two(z, s, &point, &point)
}

fn rectify(cone: Cone, delta: &mut [f64], e: &[f64]) -> Result<(), Refusal>
    ensures { record { answer = code_of result; slice = delta.new } ≡ rectify_of cone delta.old e.now }
{
    copy_rows(cone, delta.len(), e)?;
    let d = rectified(e);
    publish(delta, head(&d, e.len()))
}

// scalar equilibration
pub fn rectify_equilibration(cone: Cone, delta: &mut [f64], e: &[f64]) -> YesNo
    ensures { record { answer = result; slice = delta.new }
        ≡ rectify_equilibration_of cone delta.old e.now }
{
    match rectify(cone, delta, e) {
        Ok(()) => YesNo { code: 0, yes: true },
        Err(refusal) => YesNo {
            code: refusal.number(),
            yes: false,
        },
    }
}
