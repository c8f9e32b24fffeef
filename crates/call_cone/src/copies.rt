// The entries that copy a slice, and the rows of the table that judge them and the equilibration. Where an entry takes no settings, there
// is nothing wrong with them.
ghost use Rattle.std.specs.Prelude.{◌≡◌};
ghost use Rattle.cone.specs.table.Table.{code_of};
ghost use Rattle.call_cone.specs.copies.Rows.{copy_rows, offset_rows};
ghost use Rattle.call_cone.specs.copies.Entries.{affine_ds_of, ds_from_dz_offset_of};

use cone::Cone;
use cone::table::{Refusal, first_row, no_faults};
use judges::refusal::store;
use judges::{all_finite, cone_ok, numel};

// rectify_equilibration, affine_ds.
pub(crate) fn copy_rows(cone: Cone, out: usize, s: &[f64]) -> Result<(), Refusal>
    ensures { code_of result ≡ copy_rows cone out s.now }
{
    let n = numel(cone);
    let mut faults = no_faults();
    faults.cone = !cone_ok(cone);
    faults.length = (out != n) | (s.len() != n);
    faults.number = !all_finite(s);
    first_row(faults)
}

fn offset_rows(cone: Cone, out: usize, ds: &[f64], z: &[f64]) -> Result<(), Refusal>
    ensures { code_of result ≡ offset_rows cone out ds.now z.now }
{
    let n = numel(cone);
    let mut faults = no_faults();
    faults.cone = !cone_ok(cone);
    faults.length = (out != n) | (ds.len() != n) | (z.len() != n);
    faults.number = !(all_finite(ds) & all_finite(z));
    first_row(faults)
}

pub fn affine_ds(cone: Cone, ds: &mut [f64], s: &[f64]) -> Result<(), Refusal>
    ensures { record { answer = code_of result; slice = ds.new } ≡ affine_ds_of cone ds.old s.now }
{
    copy_rows(cone, ds.len(), s)?;
    store(ds, s);
    Ok(())
}

// 01: "Every argument of a call is judged, read or not": z is not read.
pub fn ds_from_dz_offset(cone: Cone, out: &mut [f64], ds: &[f64], z: &[f64]) -> Result<(), Refusal>
    ensures { record { answer = code_of result; slice = out.new }
        ≡ ds_from_dz_offset_of cone out.old ds.now z.now }
{
    offset_rows(cone, out.len(), ds, z)?;
    store(out, ds);
    Ok(())
}
