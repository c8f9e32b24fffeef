// Kind 3 on the arrays of a cone and of a record: the exponents in use, and the parts of the record that a formula takes, are the heads
// of what is lent.
ghost use Rattle.std.specs.Prelude.{◌≡◌, ◌≤◌, length};
ghost use Rattle.kinds.specs.Wide.{unit_initialization_of, gradient_primal_of, barrier_primal_of, compute_barrier_of, get_hs_of};

use algebra::vector::head;

pub fn unit_initialization(exps: &[f64; 32], dim1: usize) -> [f64; 64]
    ensures { result ≡ unit_initialization_of exps.now dim1 }
{
    genpowcone::unit_initialization(head(exps, dim1))
}

pub fn gradient_primal(exps: &[f64; 32], dim1: usize, s: &[f64]) -> genpowcone::WideGradient
    requires { length s.now ≤ 64 }
    ensures { result ≡ gradient_primal_of exps.now dim1 s.now }
{
    genpowcone::gradient_primal(head(exps, dim1), s)
}

pub fn barrier_primal(exps: &[f64; 32], dim1: usize, s: &[f64]) -> f64
    requires { length s.now ≤ 64 }
    ensures { result ≡ barrier_primal_of exps.now dim1 s.now }
{
    genpowcone::barrier_primal(head(exps, dim1), s)
}

pub fn compute_barrier(
    exps: &[f64; 32],
    dim1: usize,
    z: &[f64],
    s: &[f64],
    dz: &[f64],
    ds: &[f64],
    step: f64,
) -> f64
    requires { (length s.now ≤ 64) × (length z.now ≤ 64) }
    ensures { result
        ≡ compute_barrier_of exps.now dim1 z.now s.now dz.now ds.now step }
{
    genpowcone::compute_barrier(head(exps, dim1), z, s, dz, ds, step)
}

pub fn get_hs(mu: f64, d1: &[f64; 32], dim1: usize, d2: f64, dim2: usize) -> [f64; 64]
    requires { (dim1 ≤ 32) × (dim2 ≤ 32) }
    ensures { result ≡ get_hs_of mu d1.now dim1 d2 dim2 }
{
    genpowcone::get_hs(mu, head(d1, dim1), d2, dim2)
}
