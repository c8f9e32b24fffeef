// The face of the library, include/spindle.h: each export hands its arguments on. Those over a lent record stand behind the header's calls
// over a record in place.
#![tactic(auto)]

ghost use Rattle.std.specs.Prelude.{◌≡◌};
ghost use Rattle.kernels.specs.Door.{sqrt_of, log_of, exp_of, powf_of};
ghost use Rattle.root.specs.table_root.Steps.{table_sqrt_of};
ghost use Rattle.cone.specs.Fresh.{house_settings, house_strategy};
ghost use Rattle.call_cone.specs.formulas.Entries.{fresh_of, is_primal_feasible_of, is_dual_feasible_of, barrier_dual_of, dual_grad_h_of};
ghost use Rattle.call_cone.specs.formulas.Entries.{unit_initialization_of, rectify_equilibration_of, affine_ds_of, ds_from_dz_offset_of};
ghost use Rattle.call_search.specs.single.Entries.{backtrack_search_of, step_length_of};
ghost use Rattle.cone.specs.words.Words.{cones_of};
ghost use Rattle.call_search.specs.plans.Entries.{common_step_of, plan_step_of};
ghost use Rattle.call_record.specs.Parts.{triple_of, wide_of, record_of};
ghost use Rattle.call_record.specs.update.Entries.{update_scaling_of};
ghost use Rattle.call_record.specs.entries.Entries.{gradient_primal_of, barrier_primal_of, compute_barrier_of, get_hs_of, mul_hs_of};
ghost use Rattle.call_record.specs.entries.Entries.{higher_correction_of, combined_ds_shift_of};
ghost use Rattle.octets.specs.words.Words.{AllBelow};
ghost use Rattle.trace.specs.entries.Values.{Doubles, Passed};
ghost use Rattle.trace.specs.entries.Writing.{create_of, append_of};
ghost use Rattle.trace.specs.entries.Opened.{opened_of};
ghost use Rattle.trace.specs.value.Recorded.{recorded_in};
ghost use Rattle.trace.specs.recording.Recording.{record_put_of, record_at_of, trace_seal_of};
ghost use Rattle.trace_replay.specs.call.Replay.{Noted, replay_of};
ghost use Rattle.trace_rescue.specs.call.Rescue.{rescue_of};
ghost use Rattle.trace_thin.specs.call.Thin.{thin_of, thin_in_place_of};
ghost use Rattle.trace_sheet.specs.rows.Rows.{join_of, add_of};
ghost use Rattle.trace_sheet.specs.text.Printed.{print_of};

use cone::verdict::Verdict;
use cone::{Cone, DualGrad, Found, Number, Rounds, Scaling, Settings, Steps, Updated, YesNo};
use root::table_root::Root;
use trace::entries::{Opened, Written};
use trace::value::Recorded;
use trace_replay::call::Replayed;
use trace_rescue::call::Rescued;
use trace_sheet::rows::Totals;
use trace_sheet::text::Printed;
use trace_thin::call::Thinned;

// Which library this is: 10,000 times the version's first number, 100 times its second, its third. For 1.0.0.
#[unsafe(no_mangle)]
pub extern "C" fn spindle_version() -> u32
    ensures { result ≡ 10000 }
{
    10000
}

// The four kernels. Every double is taken, nothing refused.

#[unsafe(no_mangle)]
pub extern "C" fn spindle_sqrt(x: f64) -> f64
    ensures { result ≡ sqrt_of x }
{
    kernels::sqrt(x)
}

#[unsafe(no_mangle)]
pub extern "C" fn spindle_log(x: f64) -> f64
    ensures { result ≡ log_of x }
{
    kernels::log(x)
}

#[unsafe(no_mangle)]
pub extern "C" fn spindle_exp(x: f64) -> f64
    ensures { result ≡ exp_of x }
{
    kernels::exp(x)
}

#[unsafe(no_mangle)]
pub extern "C" fn spindle_powf(x: f64, y: f64) -> f64
    ensures { result ≡ powf_of x y }
{
    kernels::powf(x, y)
}

// 02, Order 11: both square roots by name. `spindle_sqrt` is the second one without its count.

#[unsafe(no_mangle)]
pub extern "C" fn spindle_plain_sqrt(x: f64) -> f64
    ensures { result ≡ sqrt_of x }
{
    root::sqrt(x)
}

#[unsafe(no_mangle)]
pub extern "C" fn spindle_table_sqrt(x: f64) -> Root
    ensures { result ≡ table_sqrt_of x }
{
    root::table_root::sqrt(x)
}

// ---- entries that take a cone

#[unsafe(no_mangle)]
pub extern "C" fn spindle_fresh(cone: Cone) -> Updated
    ensures { result ≡ fresh_of cone }
{
    call_cone::formulas::fresh(cone)
}

// Beside the equation the contracts of the two tests say what every call has, and what Order 12 asks: the point's numbers are doubles.

#[unsafe(no_mangle)]
pub extern "C" fn spindle_is_primal_feasible(cone: Cone, s: &[f64]) -> Verdict
    ensures { (result ≡ is_primal_feasible_of cone s.now) × Doubles s.now }
{
    call_cone::formulas::is_primal_feasible(cone, s)
}

#[unsafe(no_mangle)]
pub extern "C" fn spindle_is_dual_feasible(cone: Cone, z: &[f64]) -> Verdict
    ensures { (result ≡ is_dual_feasible_of cone z.now) × Doubles z.now }
{
    call_cone::formulas::is_dual_feasible(cone, z)
}

#[unsafe(no_mangle)]
pub extern "C" fn spindle_barrier_dual(cone: Cone, z: &[f64]) -> Number
    ensures { result ≡ barrier_dual_of cone z.now }
{
    call_cone::formulas::barrier_dual(cone, z)
}

#[unsafe(no_mangle)]
pub extern "C" fn spindle_dual_grad_h(cone: Cone, z: &[f64]) -> DualGrad
    ensures { result ≡ dual_grad_h_of cone z.now }
{
    call_cone::formulas::dual_grad_h(cone, z)
}

#[unsafe(no_mangle)]
pub extern "C" fn spindle_house_settings(start: f64) -> Settings
    ensures { result ≡ house_settings start }
{
    cone::house_settings(start)
}

#[unsafe(no_mangle)]
pub extern "C" fn spindle_house_strategy() -> u32
    ensures { result ≡ house_strategy }
{
    cone::house_strategy()
}

#[unsafe(no_mangle)]
pub extern "C" fn spindle_backtrack_search(
    cone: Cone,
    primal: bool,
    dq: &[f64],
    q: &[f64],
    point: &mut [f64],
    settings: Settings,
) -> Found
    ensures { record { answer = result; slice = point.new }
        ≡ backtrack_search_of cone primal dq.now q.now point.old settings }
{
    call_search::single::backtrack_search(cone, primal, dq, q, point, settings)
}

#[unsafe(no_mangle)]
pub extern "C" fn spindle_step_length(
    cone: Cone,
    dz: &[f64],
    ds: &[f64],
    z: &[f64],
    s: &[f64],
    dualpoint: &mut [f64],
    primalpoint: &mut [f64],
    settings: Settings,
) -> Steps
    ensures { record { answer = result; first = dualpoint.new; second = primalpoint.new }
        ≡ step_length_of cone dz.now ds.now z.now s.now dualpoint.old
        primalpoint.old settings }
{
    call_search::single::step_length(cone, dz, ds, z, s, dualpoint, primalpoint, settings)
}

// The list is the memory of C's `const Cone *cones, size_t ncones`: 34 words a cone.
#[unsafe(no_mangle)]
pub extern "C" fn spindle_common_step(
    cones: &[[u64; 34]],
    primal: bool,
    dq: &[f64],
    q: &[f64],
    point: &mut [f64],
    settings: Settings,
) -> Found
    ensures { record { answer = result; slice = point.new }
        ≡ common_step_of (cones_of cones.now) primal dq.now q.now point.old settings }
{
    call_search::plans::common_step(cones, primal, dq, q, point, settings)
}

#[unsafe(no_mangle)]
pub extern "C" fn spindle_plan_step(
    cones: &[[u64; 34]],
    dz: &[f64],
    ds: &[f64],
    z: &[f64],
    s: &[f64],
    dualpoint: &mut [f64],
    primalpoint: &mut [f64],
    settings: Settings,
) -> Found
    ensures { record { answer = result; first = dualpoint.new; second = primalpoint.new }
        ≡ plan_step_of (cones_of cones.now) dz.now ds.now z.now s.now
        dualpoint.old primalpoint.old settings }
{
    call_search::plans::plan_step(cones, dz, ds, z, s, dualpoint, primalpoint, settings)
}

#[unsafe(no_mangle)]
pub extern "C" fn spindle_unit_initialization(cone: Cone, z: &mut [f64], s: &mut [f64]) -> u32
    ensures { record { answer = result; first = z.new; second = s.new }
        ≡ unit_initialization_of cone z.old s.old }
{
    cone::table::code(call_cone::formulas::unit_initialization(cone, z, s))
}

#[unsafe(no_mangle)]
pub extern "C" fn spindle_rectify_equilibration(cone: Cone, delta: &mut [f64], e: &[f64]) -> YesNo
    ensures { record { answer = result; slice = delta.new }
        ≡ rectify_equilibration_of cone delta.old e.now }
{
    call_cone::formulas::rectify_equilibration(cone, delta, e)
}

#[unsafe(no_mangle)]
pub extern "C" fn spindle_affine_ds(cone: Cone, ds: &mut [f64], s: &[f64]) -> u32
    ensures { record { answer = result; slice = ds.new } ≡ affine_ds_of cone ds.old s.now }
{
    cone::table::code(call_cone::formulas::affine_ds(cone, ds, s))
}

#[unsafe(no_mangle)]
pub extern "C" fn spindle_ds_from_dz_offset(
    cone: Cone,
    out: &mut [f64],
    ds: &[f64],
    z: &[f64],
) -> u32
    ensures { record { answer = result; slice = out.new }
        ≡ ds_from_dz_offset_of cone out.old ds.now z.now }
{
    cone::table::code(call_cone::formulas::ds_from_dz_offset(cone, out, ds, z))
}

// ---- entries that take a scaling record

#[unsafe(no_mangle)]
pub extern "C" fn spindle_update_scaling(
    scaling: Scaling,
    s: &[f64],
    z: &[f64],
    mu: f64,
    strategy: u32,
) -> Updated
    ensures { result ≡ update_scaling_of scaling s.now z.now mu strategy }
{
    call_record::update::update_scaling(scaling, s, z, mu, strategy)
}

#[unsafe(no_mangle)]
pub extern "C" fn spindle_gradient_primal(scaling: Scaling, g: &mut [f64], s: &[f64]) -> Rounds
    ensures { record { answer = result; slice = g.new } ≡ gradient_primal_of scaling g.old s.now }
{
    call_record::entries::gradient_primal(scaling, g, s)
}

#[unsafe(no_mangle)]
pub extern "C" fn spindle_barrier_primal(scaling: Scaling, s: &[f64]) -> Number
    ensures { result ≡ barrier_primal_of scaling s.now }
{
    call_record::entries::barrier_primal(scaling, s)
}

#[unsafe(no_mangle)]
pub extern "C" fn spindle_compute_barrier(
    scaling: Scaling,
    z: &[f64],
    s: &[f64],
    dz: &[f64],
    ds: &[f64],
    alpha: f64,
) -> Number
    ensures { result ≡ compute_barrier_of scaling z.now s.now dz.now ds.now alpha }
{
    call_record::entries::compute_barrier(scaling, z, s, dz, ds, alpha)
}

#[unsafe(no_mangle)]
pub extern "C" fn spindle_get_hs(scaling: Scaling, serial: u32, block: &mut [f64]) -> u32
    ensures { record { answer = result; slice = block.new } ≡ get_hs_of scaling serial block.old }
{
    cone::table::code(call_record::entries::get_hs(scaling, serial, block))
}

#[unsafe(no_mangle)]
pub extern "C" fn spindle_mul_hs(scaling: Scaling, serial: u32, y: &mut [f64], x: &[f64]) -> u32
    ensures { record { answer = result; slice = y.new } ≡ mul_hs_of scaling serial y.old x.now }
{
    cone::table::code(call_record::entries::mul_hs(scaling, serial, y, x))
}

#[unsafe(no_mangle)]
pub extern "C" fn spindle_higher_correction(
    scaling: Scaling,
    serial: u32,
    eta: &mut [f64],
    ds: &[f64],
    v: &[f64],
) -> u32
    ensures { record { answer = result; slice = eta.new }
        ≡ higher_correction_of scaling serial eta.old ds.now v.now }
{
    cone::table::code(call_record::entries::higher_correction(scaling, serial, eta, ds, v))
}

#[unsafe(no_mangle)]
pub extern "C" fn spindle_combined_ds_shift(
    scaling: Scaling,
    serial: u32,
    shifted: &mut [f64],
    stepz: &[f64],
    steps: &[f64],
    sigmamu: f64,
) -> u32
    ensures { record { answer = result; slice = shifted.new }
        ≡ combined_ds_shift_of scaling serial shifted.old stepz.now steps.now sigmamu }
{
    cone::table::code(call_record::entries::combined_ds_shift(
        scaling, serial, shifted, stepz, steps, sigmamu,
    ))
}

// ---- the same entries with a record where it lies: a number by its value, an array by its address, in the header's order. The header has
// them as `.._in_place`, which take a record's address and hand on its parts (tools/shim)

#[unsafe(no_mangle)]
pub extern "C" fn spindle_lent_update_scaling<'a>(
    kind: u32,
    dim1: u32,
    dim2: u32,
    rule: u32,
    exps: &'a [f64; 32],
    scaled: u32,
    own: u32,
    z3: &'a [f64; 3],
    grad3: &'a [f64; 3],
    hdual: &'a [f64; 6],
    hs: &'a [f64; 6],
    keptz: &'a [f64; 64],
    keptmu: f64,
    grad: &'a [f64; 64],
    p: &'a [f64; 64],
    q: &'a [f64; 32],
    r: &'a [f64; 32],
    d1: &'a [f64; 32],
    d2: f64,
    s: &[f64],
    z: &[f64],
    mu: f64,
    strategy: u32,
) -> Updated
    ensures { result ≡ update_scaling_of
        (record_of kind dim1 dim2 rule exps.now scaled own
        (triple_of z3.now grad3.now hdual.now hs.now)
        (wide_of keptz.now keptmu grad.now p.now q.now r.now d1.now d2))
        s.now z.now mu strategy }
{
    let lent = call_record::parts::lent(
        kind, dim1, dim2, rule, exps, scaled, own, z3, grad3, hdual, hs, keptz, keptmu, grad, p, q,
        r, d1, d2,
    );
    call_record::update::update_in_place(&lent, s, z, mu, strategy)
}

#[unsafe(no_mangle)]
pub extern "C" fn spindle_lent_gradient_primal<'a>(
    kind: u32,
    dim1: u32,
    dim2: u32,
    rule: u32,
    exps: &'a [f64; 32],
    scaled: u32,
    own: u32,
    z3: &'a [f64; 3],
    grad3: &'a [f64; 3],
    hdual: &'a [f64; 6],
    hs: &'a [f64; 6],
    keptz: &'a [f64; 64],
    keptmu: f64,
    grad: &'a [f64; 64],
    p: &'a [f64; 64],
    q: &'a [f64; 32],
    r: &'a [f64; 32],
    d1: &'a [f64; 32],
    d2: f64,
    g: &mut [f64],
    s: &[f64],
) -> Rounds
    ensures { record { answer = result; slice = g.new } ≡ gradient_primal_of
        (record_of kind dim1 dim2 rule exps.now scaled own
        (triple_of z3.now grad3.now hdual.now hs.now)
        (wide_of keptz.now keptmu grad.now p.now q.now r.now d1.now d2))
        g.old s.now }
{
    let lent = call_record::parts::lent(
        kind, dim1, dim2, rule, exps, scaled, own, z3, grad3, hdual, hs, keptz, keptmu, grad, p, q,
        r, d1, d2,
    );
    call_record::in_place::gradient_primal(&lent, g, s)
}

#[unsafe(no_mangle)]
pub extern "C" fn spindle_lent_barrier_primal<'a>(
    kind: u32,
    dim1: u32,
    dim2: u32,
    rule: u32,
    exps: &'a [f64; 32],
    scaled: u32,
    own: u32,
    z3: &'a [f64; 3],
    grad3: &'a [f64; 3],
    hdual: &'a [f64; 6],
    hs: &'a [f64; 6],
    keptz: &'a [f64; 64],
    keptmu: f64,
    grad: &'a [f64; 64],
    p: &'a [f64; 64],
    q: &'a [f64; 32],
    r: &'a [f64; 32],
    d1: &'a [f64; 32],
    d2: f64,
    s: &[f64],
) -> Number
    ensures { result ≡ barrier_primal_of
        (record_of kind dim1 dim2 rule exps.now scaled own
        (triple_of z3.now grad3.now hdual.now hs.now)
        (wide_of keptz.now keptmu grad.now p.now q.now r.now d1.now d2))
        s.now }
{
    let lent = call_record::parts::lent(
        kind, dim1, dim2, rule, exps, scaled, own, z3, grad3, hdual, hs, keptz, keptmu, grad, p, q,
        r, d1, d2,
    );
    call_record::in_place::barrier_primal(&lent, s)
}

#[unsafe(no_mangle)]
pub extern "C" fn spindle_lent_compute_barrier<'a>(
    kind: u32,
    dim1: u32,
    dim2: u32,
    rule: u32,
    exps: &'a [f64; 32],
    scaled: u32,
    own: u32,
    z3: &'a [f64; 3],
    grad3: &'a [f64; 3],
    hdual: &'a [f64; 6],
    hs: &'a [f64; 6],
    keptz: &'a [f64; 64],
    keptmu: f64,
    grad: &'a [f64; 64],
    p: &'a [f64; 64],
    q: &'a [f64; 32],
    r: &'a [f64; 32],
    d1: &'a [f64; 32],
    d2: f64,
    z: &[f64],
    s: &[f64],
    dz: &[f64],
    ds: &[f64],
    alpha: f64,
) -> Number
    ensures { result ≡ compute_barrier_of
        (record_of kind dim1 dim2 rule exps.now scaled own
        (triple_of z3.now grad3.now hdual.now hs.now)
        (wide_of keptz.now keptmu grad.now p.now q.now r.now d1.now d2))
        z.now s.now dz.now ds.now alpha }
{
    let lent = call_record::parts::lent(
        kind, dim1, dim2, rule, exps, scaled, own, z3, grad3, hdual, hs, keptz, keptmu, grad, p, q,
        r, d1, d2,
    );
    call_record::in_place::compute_barrier(&lent, z, s, dz, ds, alpha)
}

#[unsafe(no_mangle)]
pub extern "C" fn spindle_lent_get_hs<'a>(
    kind: u32,
    dim1: u32,
    dim2: u32,
    rule: u32,
    exps: &'a [f64; 32],
    scaled: u32,
    own: u32,
    z3: &'a [f64; 3],
    grad3: &'a [f64; 3],
    hdual: &'a [f64; 6],
    hs: &'a [f64; 6],
    keptz: &'a [f64; 64],
    keptmu: f64,
    grad: &'a [f64; 64],
    p: &'a [f64; 64],
    q: &'a [f64; 32],
    r: &'a [f64; 32],
    d1: &'a [f64; 32],
    d2: f64,
    serial: u32,
    block: &mut [f64],
) -> u32
    ensures { record { answer = result; slice = block.new } ≡ get_hs_of
        (record_of kind dim1 dim2 rule exps.now scaled own
        (triple_of z3.now grad3.now hdual.now hs.now)
        (wide_of keptz.now keptmu grad.now p.now q.now r.now d1.now d2))
        serial block.old }
{
    let lent = call_record::parts::lent(
        kind, dim1, dim2, rule, exps, scaled, own, z3, grad3, hdual, hs, keptz, keptmu, grad, p, q,
        r, d1, d2,
    );
    cone::table::code(call_record::in_place::get_hs(&lent, serial, block))
}

#[unsafe(no_mangle)]
pub extern "C" fn spindle_lent_mul_hs<'a>(
    kind: u32,
    dim1: u32,
    dim2: u32,
    rule: u32,
    exps: &'a [f64; 32],
    scaled: u32,
    own: u32,
    z3: &'a [f64; 3],
    grad3: &'a [f64; 3],
    hdual: &'a [f64; 6],
    hs: &'a [f64; 6],
    keptz: &'a [f64; 64],
    keptmu: f64,
    grad: &'a [f64; 64],
    p: &'a [f64; 64],
    q: &'a [f64; 32],
    r: &'a [f64; 32],
    d1: &'a [f64; 32],
    d2: f64,
    serial: u32,
    y: &mut [f64],
    x: &[f64],
) -> u32
    ensures { record { answer = result; slice = y.new } ≡ mul_hs_of
        (record_of kind dim1 dim2 rule exps.now scaled own
        (triple_of z3.now grad3.now hdual.now hs.now)
        (wide_of keptz.now keptmu grad.now p.now q.now r.now d1.now d2))
        serial y.old x.now }
{
    let lent = call_record::parts::lent(
        kind, dim1, dim2, rule, exps, scaled, own, z3, grad3, hdual, hs, keptz, keptmu, grad, p, q,
        r, d1, d2,
    );
    cone::table::code(call_record::in_place::mul_hs(&lent, serial, y, x))
}

#[unsafe(no_mangle)]
pub extern "C" fn spindle_lent_higher_correction<'a>(
    kind: u32,
    dim1: u32,
    dim2: u32,
    rule: u32,
    exps: &'a [f64; 32],
    scaled: u32,
    own: u32,
    z3: &'a [f64; 3],
    grad3: &'a [f64; 3],
    hdual: &'a [f64; 6],
    hs: &'a [f64; 6],
    keptz: &'a [f64; 64],
    keptmu: f64,
    grad: &'a [f64; 64],
    p: &'a [f64; 64],
    q: &'a [f64; 32],
    r: &'a [f64; 32],
    d1: &'a [f64; 32],
    d2: f64,
    serial: u32,
    eta: &mut [f64],
    ds: &[f64],
    v: &[f64],
) -> u32
    ensures { record { answer = result; slice = eta.new } ≡ higher_correction_of
        (record_of kind dim1 dim2 rule exps.now scaled own
        (triple_of z3.now grad3.now hdual.now hs.now)
        (wide_of keptz.now keptmu grad.now p.now q.now r.now d1.now d2))
        serial eta.old ds.now v.now }
{
    let lent = call_record::parts::lent(
        kind, dim1, dim2, rule, exps, scaled, own, z3, grad3, hdual, hs, keptz, keptmu, grad, p, q,
        r, d1, d2,
    );
    cone::table::code(call_record::in_place::higher_correction(&lent, serial, eta, ds, v))
}

#[unsafe(no_mangle)]
pub extern "C" fn spindle_lent_combined_ds_shift<'a>(
    kind: u32,
    dim1: u32,
    dim2: u32,
    rule: u32,
    exps: &'a [f64; 32],
    scaled: u32,
    own: u32,
    z3: &'a [f64; 3],
    grad3: &'a [f64; 3],
    hdual: &'a [f64; 6],
    hs: &'a [f64; 6],
    keptz: &'a [f64; 64],
    keptmu: f64,
    grad: &'a [f64; 64],
    p: &'a [f64; 64],
    q: &'a [f64; 32],
    r: &'a [f64; 32],
    d1: &'a [f64; 32],
    d2: f64,
    serial: u32,
    shifted: &mut [f64],
    stepz: &[f64],
    steps: &[f64],
    sigmamu: f64,
) -> u32
    ensures { record { answer = result; slice = shifted.new } ≡ combined_ds_shift_of
        (record_of kind dim1 dim2 rule exps.now scaled own
        (triple_of z3.now grad3.now hdual.now hs.now)
        (wide_of keptz.now keptmu grad.now p.now q.now r.now d1.now d2))
        serial shifted.old stepz.now steps.now sigmamu }
{
    let lent = call_record::parts::lent(
        kind, dim1, dim2, rule, exps, scaled, own, z3, grad3, hdual, hs, keptz, keptmu, grad, p, q,
        r, d1, d2,
    );
    cone::table::code(call_record::in_place::combined_ds_shift(
        &lent, serial, shifted, stepz, steps, sigmamu,
    ))
}

// ---- 02, Order 1: traces of step searches

#[unsafe(no_mangle)]
pub extern "C" fn spindle_trace_create(trace: &mut [u8]) -> Written
    ensures { record { answer = result; bytes = trace.new } ≡ create_of trace.old }
{
    trace::entries::create(trace)
}

// Beside the equation the contract says what every call has, and what reading back asks: bytes, and arguments that are values of their types.
#[unsafe(no_mangle)]
pub extern "C" fn spindle_trace_append(
    trace: &mut [u8],
    used: usize,
    cone: Cone,
    flag: u32,
    settings: Settings,
    dz: &[f64],
    ds: &[f64],
    z: &[f64],
    s: &[f64],
    steps: Steps,
) -> Written
    ensures { (record { answer = result; bytes = trace.new }
        ≡ append_of trace.old used cone flag settings
        dz.now ds.now z.now s.now steps)
        × AllBelow 256 trace.old
        × Passed cone flag settings dz.now ds.now z.now s.now steps }
{
    trace::entries::append(trace, used, cone, flag, settings, dz, ds, z, s, steps)
}

#[unsafe(no_mangle)]
pub extern "C" fn spindle_trace_open(trace: &[u8]) -> Opened
    ensures { result ≡ opened_of trace.now }
{
    trace::entries::open(trace)
}

#[unsafe(no_mangle)]
pub extern "C" fn spindle_trace_record(trace: &[u8], i: u32) -> Recorded
    ensures { result ≡ recorded_in trace.now i }
{
    trace::value::record(trace, i)
}

// ---- the same record by record, as searches are made: each call judges only what it touches. Put's contract says beside the equation what
// append's does

#[unsafe(no_mangle)]
pub extern "C" fn spindle_record_put(
    bytes: &mut [u8],
    at: usize,
    edition: u32,
    cone: Cone,
    flag: u32,
    settings: Settings,
    dz: &[f64],
    ds: &[f64],
    z: &[f64],
    s: &[f64],
    steps: Steps,
) -> Written
    ensures { (record { answer = result; bytes = bytes.new }
        ≡ record_put_of bytes.old at edition cone flag settings
        dz.now ds.now z.now s.now steps)
        × AllBelow 256 bytes.old
        × Passed cone flag settings dz.now ds.now z.now s.now steps }
{
    trace::recording::put(
        bytes, at, edition, cone, flag, settings, dz, ds, z, s, steps,
    )
}

#[unsafe(no_mangle)]
pub extern "C" fn spindle_record_at(bytes: &[u8], edition: u32, at: usize) -> Recorded
    ensures { result ≡ record_at_of bytes.now edition at }
{
    trace::recording::record_at(bytes, edition, at)
}

#[unsafe(no_mangle)]
pub extern "C" fn spindle_trace_seal(bytes: &mut [u8], used: usize, edition: u32) -> Written
    ensures { record { answer = result; bytes = bytes.new } ≡ trace_seal_of bytes.old used edition }
{
    trace::recording::seal(bytes, used, edition)
}

// ---- 02, Order 2: a trace replayed

#[unsafe(no_mangle)]
pub extern "C" fn spindle_replay(trace: &[u8], at: &mut [u64]) -> Replayed
    ensures { record { answer = result; offsets = at.new } ≡ replay_of trace.now at.old }
{
    trace_replay::call::replay(trace, at)
}

// ---- 02, Order 7: a cut trace rescued

#[unsafe(no_mangle)]
pub extern "C" fn spindle_rescue(input: &[u8], output: &mut [u8], edition: u32) -> Rescued
    ensures { (record { answer = result; output = output.new } ≡ rescue_of input.now output.old edition)
        × AllBelow 256 input.now }
{
    trace_rescue::call::rescue(input, output, edition)
}

// ---- 02, Order 13: a trace thinned

#[unsafe(no_mangle)]
pub extern "C" fn spindle_thin(trace: &[u8], output: &mut [u8]) -> Thinned
    ensures { (record { answer = result; output = output.new } ≡ thin_of trace.now output.old)
        × AllBelow 256 trace.now }
{
    trace_thin::call::thin(trace, output)
}

#[unsafe(no_mangle)]
pub extern "C" fn spindle_thin_in_place(trace: &mut [u8]) -> Thinned
    ensures { (record { answer = result; output = trace.new } ≡ thin_in_place_of trace.old)
        × AllBelow 256 trace.old }
{
    trace_thin::call::thin_in_place(trace)
}

// ---- 02, Order 14: a sheet in lent rows

#[unsafe(no_mangle)]
pub extern "C" fn spindle_sheet_add(
    sheet: Totals,
    dual: &mut [u64],
    primal: &mut [u64],
    skipped: &mut [u8],
    file: &[u8],
) -> Totals
    ensures { record { totals = result; dual = dual.new; primal = primal.new; skipped = skipped.new }
        ≡ add_of (record { totals = sheet; dual = dual.old; primal = primal.old; skipped = skipped.old })
        file.now }
{
    trace_sheet::rows::add(sheet, dual, primal, skipped, file)
}

#[unsafe(no_mangle)]
pub extern "C" fn spindle_sheet_join(
    sheet: Totals,
    dual: &mut [u64],
    primal: &mut [u64],
    skipped: &mut [u8],
    second: Totals,
    dual2: &[u64],
    primal2: &[u64],
    skipped2: &[u8],
) -> Totals
    ensures { record { totals = result; dual = dual.new; primal = primal.new; skipped = skipped.new }
        ≡ join_of (record { totals = sheet; dual = dual.old; primal = primal.old; skipped = skipped.old })
        (record { totals = second; dual = dual2.now; primal = primal2.now; skipped = skipped2.now }) }
{
    trace_sheet::rows::join(
        sheet, dual, primal, skipped, second, dual2, primal2, skipped2,
    )
}

#[unsafe(no_mangle)]
pub extern "C" fn spindle_sheet_text(
    text: &mut [u8],
    sheet: Totals,
    dual: &[u64],
    primal: &[u64],
    skipped: &[u8],
) -> Printed
    ensures { record { answer = result; text = text.new }
        ≡ print_of text.old
        (record { totals = sheet; dual = dual.now; primal = primal.now; skipped = skipped.now }) }
{
    trace_sheet::text::put_sheet(text, sheet, dual, primal, skipped)
}
