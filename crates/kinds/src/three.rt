// Kinds 1 and 2, whose points have three numbers: the exponential cone, and the power cone with exponent alpha, which kind 1 does not use.
// There is no answer where the Rust would panic on the way to it, which kind 2 never does.
ghost use Rattle.std.specs.Prelude.{◌≡◌};
ghost use Rattle.kinds.specs.Three.{plain_three, update_dual_grad_h_of, gradient_primal_of, unit_initialization_of};
ghost use Rattle.kinds.specs.Three.{barrier_primal_of, compute_barrier_of, higher_correction_of, combined_ds_shift_of};

use cone::Three;

// A primal gradient and its Newton rounds: powcone's PowerGradient, for crates that know kinds and not powcone.
#[derive(Clone, Copy)]
pub struct ThreeGradient {
    pub g: [f64; 3],
    pub rounds: u32,
}

pub fn unit_initialization(kind: u32, alpha: f64) -> [f64; 3]
    ensures { result ≡ unit_initialization_of kind alpha }
{
    if kind == 2 {
        return powcone::unit_initialization(alpha);
    }
    expcone::unit_initialization()
}

fn plain_three(grad: [f64; 3], hdual: [f64; 6]) -> Three
    ensures { result ≡ plain_three grad hdual }
{
    Three {
        z: [0.0; 3],
        grad,
        hdual,
        hs: [0.0; 6],
    }
}

pub fn update_dual_grad_h(kind: u32, alpha: f64, z: [f64; 3]) -> Three
    ensures { result ≡ update_dual_grad_h_of kind alpha z }
{
    if kind == 2 {
        let power = powcone::update_dual_grad_h(alpha, z);
        let grad = power.grad;
        let h = power.h;
        return plain_three(grad, h);
    }
    let exponential = expcone::update_dual_grad_h(z);
    let grad = exponential.grad;
    let h = exponential.h;
    plain_three(grad, h)
}

pub fn gradient_primal(kind: u32, alpha: f64, s: [f64; 3]) -> Option<ThreeGradient>
    ensures { result ≡ gradient_primal_of kind alpha s }
{
    if kind == 2 {
        let power = powcone::gradient_primal(alpha, s);
        let g = power.g;
        return Some(ThreeGradient {
            g,
            rounds: power.rounds,
        });
    }
    let g = expcone::gradient_primal(s)?;
    Some(ThreeGradient { g, rounds: 0 })
}

pub fn barrier_primal(kind: u32, alpha: f64, s: [f64; 3]) -> Option<f64>
    ensures { result ≡ barrier_primal_of kind alpha s }
{
    if kind == 2 {
        return Some(powcone::barrier_primal(alpha, s));
    }
    expcone::barrier_primal(s)
}

// step is the Rust's α, the length of the step from z and s.
pub fn compute_barrier(
    kind: u32,
    alpha: f64,
    z: [f64; 3],
    s: [f64; 3],
    dz: [f64; 3],
    ds: [f64; 3],
    step: f64,
) -> Option<f64>
    ensures { result ≡ compute_barrier_of kind alpha z s dz ds step }
{
    if kind == 2 {
        return Some(powcone::compute_barrier(alpha, z, s, dz, ds, step));
    }
    expcone::compute_barrier(z, s, dz, ds, step)
}

// h and z are the record's dual Hessian and the point that it was taken at.
pub fn higher_correction(
    kind: u32,
    alpha: f64,
    h: [f64; 6],
    z: [f64; 3],
    ds: [f64; 3],
    v: [f64; 3],
) -> [f64; 3]
    ensures { result ≡ higher_correction_of kind alpha h z ds v }
{
    if kind == 2 {
        return powcone::correction::higher_correction(alpha, h, z, ds, v);
    }
    expcone::higher_correction(h, z, ds, v)
}

pub fn combined_ds_shift(
    kind: u32,
    alpha: f64,
    h: [f64; 6],
    z: [f64; 3],
    grad: [f64; 3],
    stepz: [f64; 3],
    steps: [f64; 3],
    sigmamu: f64,
) -> [f64; 3]
    ensures { result ≡ combined_ds_shift_of kind alpha h z grad stepz steps sigmamu }
{
    if kind == 2 {
        return powcone::correction::combined_ds_shift(alpha, h, z, grad, stepz, steps, sigmamu);
    }
    expcone::combined_ds_shift(h, z, grad, stepz, steps, sigmamu)
}
