// Runs step searches, a line for each: the number that refuses the call or 0, the step's bits, how many points were tested, the bits of the
// lent point at exit.
use call_search::single::backtrack_search;
use cone::{Cone, Settings, house_settings};
use double::to_bits;
use std::io;

fn exponential(rule: u32) -> Cone {
    Cone {
        kind: 1,
        dim1: 0,
        dim2: 0,
        rule,
        exps: [0.0; 32],
    }
}

// Power with the exponent ½, and generalized with the exponents ½ and, in the second place, one nearby, and one tail place.
fn halved(kind: u32, rule: u32, second: f64) -> Cone {
    let mut exps = [0.0; 32];
    exps[0] = 0.5;
    exps[1] = second;
    Cone {
        kind,
        dim1: 2,
        dim2: 1,
        rule,
        exps,
    }
}

fn halves(kind: u32) -> Cone {
    halved(kind, 1, 0.5)
}

fn settings(start: f64, step: f64, smallest: f64) -> Settings {
    Settings {
        start,
        step,
        smallest,
    }
}

fn show(
    rt: &HostRuntime,
    label: &str,
    cone: Cone,
    primal: bool,
    dq: [f64; 3],
    q: [f64; 3],
    how: Settings,
) -> io::Result<()> {
    let mut point = [0.0; 3];
    let found = backtrack_search(cone, primal, &dq, &q, &mut point, how);
    print!(rt;
        "{label}: {} {:016x} after {}",
        found.code,
        to_bits(found.step),
        found.count
    )?;
    let x = to_bits(point[0]);
    let y = to_bits(point[1]);
    let z = to_bits(point[2]);
    println!(rt; " at {x:016x} {y:016x} {z:016x}")
}

// The exponential cone, from q nowhere: every trial has the point q.
fn stay(rt: &HostRuntime, label: &str, q: [f64; 3], how: Settings) -> io::Result<()> {
    show(rt, label, exponential(1), true, [0.0, 0.0, 0.0], q, how)
}

fn dual(rt: &HostRuntime, label: &str, cone: Cone, q: [f64; 3]) -> io::Result<()> {
    show(
        rt,
        label,
        cone,
        false,
        [0.0, 0.0, 0.0],
        q,
        house_settings(1.0),
    )
}

// 2^-50, and the exponents next to ½ + 2^-50 and ½ - 2^-50 away from ½ with which the sum is the next double.
const FINE: f64 = 8.8817841970012523233890533447265625e-16;

const ABOVE: f64 = 0.5 + FINE + 2.220446049250313080847263336181640625e-16;

const BELOW: f64 = 0.5 - FINE - 1.1102230246251565404236316680908203125e-16;

fn rules(rt: &HostRuntime, edge: [f64; 3]) -> io::Result<()> {
    dual(
        rt,
        "rule 2, sum 2^-50 above 1",
        halved(3, 2, 0.5 + FINE),
        edge,
    )?;
    dual(
        rt,
        "rule 2, sum 2^-50 below 1",
        halved(3, 2, 0.5 - FINE),
        edge,
    )?;
    dual(rt, "rule 2, the next sum above", halved(3, 2, ABOVE), edge)?;
    dual(rt, "rule 2, the next sum below", halved(3, 2, BELOW), edge)?;
    dual(rt, "rule 1, the next sum above", halved(3, 1, ABOVE), edge)?;
    dual(rt, "rule 1, the next sum below", halved(3, 1, BELOW), edge)?;
    dual(rt, "exponential, rule 2", exponential(2), [-1.0, 0.0, 1.0])?;
    dual(rt, "exponential, rule 3", exponential(3), [-1.0, 0.0, 1.0])?;
    dual(rt, "power, rule 0", halved(2, 0, 0.5), edge)
}

pub(crate) fn run(rt: &HostRuntime) -> io::Result<()> {
    // outside and inside the exponential cone
    let out = [0.0, -1.0, 1.0];
    let inside = [-1.0, 1.0, 1.0];
    stay(rt, "no pass, house settings", out, house_settings(1.0))?;
    stay(rt, "no pass, step 0.8", out, settings(1.0, 0.8, 0.0001))?;
    stay(
        rt,
        "no pass, one exponent",
        out,
        settings(1.9999999999999998, 0.99, 1.0),
    )?;
    stay(
        rt,
        "trial equal to the smallest",
        out,
        settings(1.0, 0.5, 0.25),
    )?;
    stay(
        rt,
        "start equal to the smallest",
        out,
        settings(0.25, 0.5, 0.25),
    )?;
    stay(
        rt,
        "start below the smallest, passes",
        inside,
        settings(0.1, 0.5, 0.25),
    )?;
    stay(
        rt,
        "start below the smallest, fails",
        out,
        settings(0.1, 0.5, 0.25),
    )?;
    let least = 2.2250738585072014e-308;
    stay(
        rt,
        "subnormal start, passes",
        inside,
        settings(5e-324, 0.5, least),
    )?;
    stay(
        rt,
        "subnormal start, fails",
        out,
        settings(5e-324, 0.5, least),
    )?;
    stay(rt, "-0 in q, passes", [-0.0, 1.0, 2.0], house_settings(1.0))?;
    stay(rt, "-0 in q, fails", [-0.0, -1.0, 1.0], house_settings(1.0))?;
    let exp = exponential(1);
    let down = [0.0, -4.0, 0.0];
    show(
        rt,
        "the last trial passes",
        exp,
        true,
        down,
        inside,
        settings(1.0, 0.5, 0.125),
    )?;
    let far = [0.0, 1.0, 1.7e308];
    let over = [0.0, 0.0, 1e308];
    show(
        rt,
        "the point overflows",
        exp,
        true,
        over,
        far,
        house_settings(1.0),
    )?;
    dual(rt, "exponential, dual", exp, [-1.0, 0.0, 1.0])?;
    let edge = [1.0, 1.0, 0.0];
    let up = [0.0, 0.0, 4.0];
    show(
        rt,
        "power, primal",
        halves(2),
        true,
        up,
        edge,
        settings(1.0, 0.5, 0.0625),
    )?;
    dual(rt, "power, dual", halves(2), edge)?;
    show(
        rt,
        "generalized, primal",
        halves(3),
        true,
        up,
        edge,
        settings(1.0, 0.5, 0.0625),
    )?;
    dual(rt, "generalized, dual", halves(3), edge)?;
    rules(rt, edge)?;
    stay(rt, "step 0.991", inside, settings(1.0, 0.991, 0.5))?;
    stay(rt, "start zero", inside, settings(0.0, 0.5, 0.5))?;
    stay(rt, "start infinite", inside, settings(1.0 / 0.0, 0.5, 0.5))?;
    // From the largest double down to the smallest normal one by the slowest step, and no point passes.
    stay(
        rt,
        "the longest search",
        out,
        settings(1.7976931348623157e308, 0.99, least),
    )
}
