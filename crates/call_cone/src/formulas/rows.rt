// The rows of the table that judge an entry over a cone. Where an entry takes no settings, no numbers or no lengths, there is nothing wrong
// with them.
ghost use Rattle.std.specs.Prelude.{◌≡◌};
ghost use Rattle.cone.specs.table.Table.{code_of};
ghost use Rattle.call_cone.specs.formulas.Rows.{fresh_rows, unit_rows};

use cone::Cone;
use cone::table::{Refusal, first_row, no_faults};
use judges::{cone_ok, numel};

pub(crate) fn fresh_rows(cone: Cone) -> Result<(), Refusal>
    ensures { code_of result ≡ fresh_rows cone }
{
    let mut faults = no_faults();
    faults.cone = !cone_ok(cone);
    first_row(faults)
}

pub(crate) fn unit_rows(cone: Cone, z: usize, s: usize) -> Result<(), Refusal>
    ensures { code_of result ≡ unit_rows cone z s }
{
    let n = numel(cone);
    let mut faults = no_faults();
    faults.cone = !cone_ok(cone);
    faults.length = (z != n) | (s != n);
    first_row(faults)
}
