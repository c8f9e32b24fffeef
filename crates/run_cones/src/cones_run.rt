// Runs document 01's values of the exponential and the power cone that need no entry: rows a to f, h and i of its table, and the gradients
// and blocks of "Also run". A line names the values, then gives the answer; a number is its bit pattern.

use std::io;

fn answer(rt: &HostRuntime, b: bool) -> io::Result<()> {
    if b {
        println!(rt; " yes")
    } else {
        println!(rt; " no")
    }
}

fn told(rt: &HostRuntime, a: cone::verdict::Answer) -> io::Result<()> {
    match a {
        cone::verdict::Answer::No => println!(rt; " no"),
        cone::verdict::Answer::Yes => println!(rt; " yes"),
        cone::verdict::Answer::Undecided => println!(rt; " undecided"),
    }
}

fn number(rt: &HostRuntime, x: f64) -> io::Result<()> {
    let bits = double::to_bits(x);
    print!(rt; " {bits:016x}")
}

fn three(rt: &HostRuntime, x: [f64; 3]) -> io::Result<()> {
    number(rt, x[0])?;
    number(rt, x[1])?;
    number(rt, x[2])?;
    println!(rt;)
}

fn six(rt: &HostRuntime, x: [f64; 6]) -> io::Result<()> {
    number(rt, x[0])?;
    number(rt, x[1])?;
    number(rt, x[2])?;
    number(rt, x[3])?;
    number(rt, x[4])?;
    number(rt, x[5])?;
    println!(rt;)
}

fn exponential(rt: &HostRuntime) -> io::Result<()> {
    print!(rt; "a exp primal (-1,1,1)")?;
    told(rt, expcone::feasible::is_primal_feasible([-1.0, 1.0, 1.0]))?;
    print!(rt; "b exp primal (0,1,1)")?;
    told(rt, expcone::feasible::is_primal_feasible([0.0, 1.0, 1.0]))?;
    print!(rt; "c exp dual (-1,0,1)")?;
    told(rt, expcone::feasible::is_dual_feasible([-1.0, 0.0, 1.0]))?;
    print!(rt; "d exp dual (-1,-1,1)")?;
    told(rt, expcone::feasible::is_dual_feasible([-1.0, -1.0, 1.0]))?;
    let h = expcone::gradient_primal([2.0, 1.0, 1.0]);
    print!(rt; "h exp primal gradient (2,1,1) panics")?;
    answer(rt, h.is_none())?;
    let i = expcone::update_dual_grad_h([-1.0, 0.0, 1.0]);
    let grad = i.grad;
    let block = i.h;
    print!(rt; "i exp dual gradient (-1,0,1)")?;
    three(rt, grad)?;
    print!(rt; "  its block")?;
    six(rt, block)?;
    // -0: the dual barrier of case i
    print!(rt; "  its barrier")?;
    number(rt, expcone::barrier_dual([-1.0, 0.0, 1.0]))?;
    println!(rt;)?;
    print!(rt; "  start")?;
    three(rt, expcone::unit_initialization())
}

fn power(rt: &HostRuntime) -> io::Result<()> {
    print!(rt; "e power 1/2 primal (1,1,0)")?;
    told(rt, powcone::is_primal_feasible(0.5, [1.0, 1.0, 0.0]))?;
    print!(rt; "f power 1/2 primal (1,1,1)")?;
    told(rt, powcone::is_primal_feasible(0.5, [1.0, 1.0, 1.0]))?;
    let p = powcone::update_dual_grad_h(0.5, [0.5, 0.5, 0.0]);
    let grad = p.grad;
    let block = p.h;
    print!(rt; "  power 1/2 dual gradient (1/2,1/2,0)")?;
    three(rt, grad)?;
    print!(rt; "  its block")?;
    six(rt, block)?;
    // Newton stops in its first round: the start is right of the root where the exponent is not 1/2
    let n = powcone::gradient_primal(0.3, [1.0, 1.0, 0.5]);
    let g = n.g;
    print!(rt; "  power 0.3 primal gradient (1,1,1/2) rounds {}", n.rounds)?;
    three(rt, g)
}

pub(crate) fn run(rt: &HostRuntime) -> io::Result<()> {
    exponential(rt)?;
    power(rt)
}
