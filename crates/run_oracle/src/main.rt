// Calls every entry of the oracle's list again and compares each word that comes back: the number, the values, the counts, the record with
// its unused places, each written slice. The list is this program's input (oracle/src/vectors.rs says how it is laid out).
#![tactic(auto)]

mod answer;
mod calls;
mod input;

use input::word;
use std::io;
use std::io::Stdin;

fn one(list: Stdin) -> bool {
    word(list);
    let entry = word(list);
    let option = input::short(list);
    let cone = input::cone(list);
    let record = input::record(list, cone);
    let n = input::count(list);
    let numbers = input::numbers(list, n);
    word(list);
    match entry {
        0 => calls::fresh(list, cone),
        1 => calls::is_primal_feasible(list, cone),
        2 => calls::is_dual_feasible(list, cone),
        3 => calls::barrier_dual(list, cone),
        4 => calls::dual_grad_h(list, cone),
        5 => calls::house_settings(list, numbers),
        6 => calls::backtrack_search(list, cone, option, numbers),
        7 => calls::step_length(list, cone, numbers),
        8 => calls::unit_initialization(list, cone),
        9 => calls::rectify_equilibration(list, cone),
        10 => calls::affine_ds(list, cone),
        11 => calls::ds_from_dz_offset(list, cone),
        12 => calls::update_scaling(list, record, option, numbers),
        13 => calls::gradient_primal(list, record),
        14 => calls::barrier_primal(list, record),
        15 => calls::compute_barrier(list, record, numbers),
        16 => calls::get_hs(list, record, option),
        17 => calls::mul_hs(list, record, option),
        18 => calls::higher_correction(list, record, option),
        19 => calls::combined_ds_shift(list, record, option, numbers),
        20 => calls::kernel(list, kernels::sqrt(numbers[0])),
        21 => calls::kernel(list, kernels::log(numbers[0])),
        22 => calls::kernel(list, kernels::exp(numbers[0])),
        23 => calls::kernel(list, kernels::powf(numbers[0], numbers[1])),
        _ => false,
    }
}

// Names a record that differs by its place in the list, from 0.
fn differs(rt: &HostRuntime, at: u64) -> io::Result<()> {
    println!(rt; "differs: {at}")
}

fn report(rt: &HostRuntime, same: u64, all: u64) -> io::Result<()> {
    println!(rt; "same {same} of {all}")
}

fn main(rt: HostRuntime) -> io::Result<()> {
    let list = rt.stdin();
    let all = word(list);
    let mut left = all;
    let mut same: u64 = 0;
    while left > 0 {
        if one(list) {
            same = same.wrapping_add(1);
        } else {
            differs(&rt, all.wrapping_sub(left))?;
        }
        left -= 1;
    }
    report(&rt, same, all)
}
