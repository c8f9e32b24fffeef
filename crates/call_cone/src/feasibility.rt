// The entries that ask whether a point is feasible, and the rows of the table that judge an entry which reads a cone and a point. Where an
// entry takes no settings, there is nothing wrong with them.
ghost use Rattle.std.specs.Prelude.{◌≡◌};
ghost use Rattle.cone.specs.table.Table.{code_of};
ghost use Rattle.call_cone.specs.feasibility.Rows.{read_rows};
ghost use Rattle.call_cone.specs.feasibility.Entries.{feasible_of, is_primal_feasible_of, is_dual_feasible_of};

use cone::Cone;
use cone::table::{Refusal, first_row, no_faults};
use cone::verdict::{Verdict, number};
use judges::{all_finite, cone_ok, numel};
use kinds::answer;

// is_primal_feasible, is_dual_feasible, barrier_dual, dual_grad_h.
pub(crate) fn read_rows(cone: Cone, s: &[f64]) -> Result<(), Refusal>
    ensures { code_of result ≡ read_rows cone s.now }
{
    let n = numel(cone);
    let mut faults = no_faults();
    faults.cone = !cone_ok(cone);
    faults.length = s.len() != n;
    faults.number = !all_finite(s);
    first_row(faults)
}

// Either test: that of the cone where `primal`, that of its dual otherwise.
fn feasible(cone: Cone, primal: bool, s: &[f64]) -> Verdict
    ensures { result ≡ feasible_of cone primal s.now }
{
    if let Err(refusal) = read_rows(cone, s) {
        return Verdict::refused(refusal);
    }
    let told = answer(&cone, primal, s);
    Verdict {
        code: 0,
        answer: number(told),
    }
}

pub fn is_primal_feasible(cone: Cone, s: &[f64]) -> Verdict
    ensures { result ≡ is_primal_feasible_of cone s.now }
{
    feasible(cone, true, s)
}

pub fn is_dual_feasible(cone: Cone, z: &[f64]) -> Verdict
    ensures { result ≡ is_dual_feasible_of cone z.now }
{
    feasible(cone, false, z)
}
