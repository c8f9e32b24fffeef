// The equilibration, which is the same for all kinds.
ghost use Rattle.std.specs.Prelude.{◌≡◌, ◌≤◌, length};
ghost use Rattle.cone.specs.Points.{padded};
ghost use Rattle.call_cone.specs.formulas.Equilibration.{rectified_of};

use algebra::vector::mean;
use cone::places::filled;

// rectify_equilibration: the reciprocals, scaled by the mean.
pub(crate) fn rectified(e: &[f64]) -> [f64; 64]
    requires { length e.now ≤ 64 }
    ensures { result ≡ padded 64 (rectified_of e.now) }
{
    let m = mean(e);
    filled(e, |x| 1.0 / x * m)
}
