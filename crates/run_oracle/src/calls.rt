// One call of each entry: its slices from the list, the call, its answer against the list.
use crate::answer::{no_record, numbers_of, reply, same_places, same_record, told};
use crate::input::{count, numbers};
use algebra::vector::head;
use cone::table::code;
use cone::{Cone, Scaling, Settings};
use std::io::Stdin;

pub fn kernel(list: Stdin, x: f64) -> bool {
    let answer = reply(list, 0, 0, [0; 2], [x, 0.0, 0.0]);
    let nothing = no_record(list);
    answer & nothing
}

pub fn house_settings(list: Stdin, given: [f64; 64]) -> bool {
    let s = cone::house_settings(given[0]);
    let answer = reply(list, 0, 0, [0; 2], [s.start, s.step, s.smallest]);
    let nothing = no_record(list);
    answer & nothing
}

// A refused fresh hands back the empty cone.
pub fn fresh(list: Stdin, cone: Cone) -> bool {
    let r = call_cone::formulas::fresh(cone);
    let record = r.scaling;
    let answer = reply(list, r.code, 0, [0; 2], [0.0; 3]);
    let mut wanted = cone;
    if r.code != 0 {
        wanted = cone::empty_cone();
    }
    let all = same_record(list, record, wanted);
    answer & all
}

fn said(list: Stdin, code: u32, answer: u32) -> bool {
    let answer = reply(list, code, answer, [0; 2], [0.0; 3]);
    let nothing = no_record(list);
    answer & nothing
}

fn said_yes(list: Stdin, code: u32, yes: bool) -> bool {
    let mut answer = 0;
    if yes {
        answer = 1;
    }
    said(list, code, answer)
}

pub fn is_primal_feasible(list: Stdin, cone: Cone) -> bool {
    let n = count(list);
    let s = numbers(list, n);
    let r = call_cone::formulas::is_primal_feasible(cone, head(&s, n));
    said(list, r.code, r.answer)
}

pub fn is_dual_feasible(list: Stdin, cone: Cone) -> bool {
    let n = count(list);
    let z = numbers(list, n);
    let r = call_cone::formulas::is_dual_feasible(cone, head(&z, n));
    said(list, r.code, r.answer)
}

fn valued(list: Stdin, code: u32, value: f64) -> bool {
    let answer = reply(list, code, 0, [0; 2], [value, 0.0, 0.0]);
    let nothing = no_record(list);
    answer & nothing
}

pub fn barrier_dual(list: Stdin, cone: Cone) -> bool {
    let n = count(list);
    let z = numbers(list, n);
    let r = call_cone::formulas::barrier_dual(cone, head(&z, n));
    valued(list, r.code, r.value)
}

pub fn dual_grad_h(list: Stdin, cone: Cone) -> bool {
    let n = count(list);
    let z = numbers(list, n);
    let r = call_cone::formulas::dual_grad_h(cone, head(&z, n));
    let three = r.three;
    let wide = r.wide;
    let answer = reply(list, r.code, 0, [0; 2], [0.0; 3]);
    let unscaled = (crate::input::word(list) == 0) & (crate::input::word(list) == 0);
    let all = numbers_of(list, cone, three, wide);
    answer & unscaled & all
}

pub fn unit_initialization(list: Stdin, cone: Cone) -> bool {
    let nz = count(list);
    let mut z = numbers(list, nz);
    let ns = count(list);
    let mut s = numbers(list, ns);
    let done = call_cone::formulas::unit_initialization(cone, &mut z[..nz], &mut s[..ns]);
    let answer = told(list, code(done));
    let first = same_places(list, z, nz);
    let second = same_places(list, s, ns);
    answer & first & second
}

pub fn rectify_equilibration(list: Stdin, cone: Cone) -> bool {
    let nd = count(list);
    let mut delta = numbers(list, nd);
    let ne = count(list);
    let e = numbers(list, ne);
    let r = call_cone::formulas::rectify_equilibration(cone, &mut delta[..nd], head(&e, ne));
    let answer = said_yes(list, r.code, r.yes);
    let slice = same_places(list, delta, nd);
    answer & slice
}

pub fn affine_ds(list: Stdin, cone: Cone) -> bool {
    let nds = count(list);
    let mut ds = numbers(list, nds);
    let ns = count(list);
    let s = numbers(list, ns);
    let done = call_cone::formulas::affine_ds(cone, &mut ds[..nds], head(&s, ns));
    let answer = told(list, code(done));
    let slice = same_places(list, ds, nds);
    answer & slice
}

pub fn ds_from_dz_offset(list: Stdin, cone: Cone) -> bool {
    let no = count(list);
    let mut out = numbers(list, no);
    let nds = count(list);
    let ds = numbers(list, nds);
    let nz = count(list);
    let z = numbers(list, nz);
    let done = call_cone::formulas::ds_from_dz_offset(
        cone,
        &mut out[..no],
        head(&ds, nds),
        head(&z, nz),
    );
    let answer = told(list, code(done));
    let slice = same_places(list, out, no);
    answer & slice
}

fn settings_of(given: [f64; 64]) -> Settings {
    Settings {
        start: given[0],
        step: given[1],
        smallest: given[2],
    }
}

pub fn backtrack_search(list: Stdin, cone: Cone, option: u32, given: [f64; 64]) -> bool {
    let ndq = count(list);
    let dq = numbers(list, ndq);
    let nq = count(list);
    let q = numbers(list, nq);
    let np = count(list);
    let mut point = numbers(list, np);
    let settings = settings_of(given);
    let r = call_search::single::backtrack_search(
        cone,
        option == 1,
        head(&dq, ndq),
        head(&q, nq),
        &mut point[..np],
        settings,
    );
    let answer = reply(list, r.code, 0, [r.count, 0], [r.step, 0.0, 0.0]);
    let nothing = no_record(list);
    let slice = same_places(list, point, np);
    answer & nothing & slice
}

pub fn step_length(list: Stdin, cone: Cone, given: [f64; 64]) -> bool {
    let ndz = count(list);
    let dz = numbers(list, ndz);
    let nds = count(list);
    let ds = numbers(list, nds);
    let nz = count(list);
    let z = numbers(list, nz);
    let ns = count(list);
    let s = numbers(list, ns);
    let ndp = count(list);
    let mut dual = numbers(list, ndp);
    let npp = count(list);
    let mut primal = numbers(list, npp);
    let settings = settings_of(given);
    let r = call_search::single::step_length(
        cone,
        head(&dz, ndz),
        head(&ds, nds),
        head(&z, nz),
        head(&s, ns),
        &mut dual[..ndp],
        &mut primal[..npp],
        settings,
    );
    let answer = reply(
        list,
        r.code,
        0,
        [r.dualcount, r.primalcount],
        [r.dualstep, r.primalstep, 0.0],
    );
    let nothing = no_record(list);
    let first = same_places(list, dual, ndp);
    let second = same_places(list, primal, npp);
    answer & nothing & first & second
}

pub fn update_scaling(list: Stdin, record: Scaling, option: u32, given: [f64; 64]) -> bool {
    let cone = record.cone;
    let ns = count(list);
    let s = numbers(list, ns);
    let nz = count(list);
    let z = numbers(list, nz);
    let r = call_record::update::update_scaling(
        record,
        head(&s, ns),
        head(&z, nz),
        given[0],
        option,
    );
    let scaling = r.scaling;
    let answer = reply(list, r.code, 0, [0; 2], [0.0; 3]);
    let all = same_record(list, scaling, cone);
    answer & all
}

pub fn gradient_primal(list: Stdin, record: Scaling) -> bool {
    let ng = count(list);
    let mut g = numbers(list, ng);
    let ns = count(list);
    let s = numbers(list, ns);
    let r = call_record::entries::gradient_primal(record, &mut g[..ng], head(&s, ns));
    let answer = reply(list, r.code, 0, [r.rounds, 0], [0.0; 3]);
    let nothing = no_record(list);
    let slice = same_places(list, g, ng);
    answer & nothing & slice
}

pub fn barrier_primal(list: Stdin, record: Scaling) -> bool {
    let n = count(list);
    let s = numbers(list, n);
    let r = call_record::entries::barrier_primal(record, head(&s, n));
    valued(list, r.code, r.value)
}

pub fn compute_barrier(list: Stdin, record: Scaling, given: [f64; 64]) -> bool {
    let nz = count(list);
    let z = numbers(list, nz);
    let ns = count(list);
    let s = numbers(list, ns);
    let ndz = count(list);
    let dz = numbers(list, ndz);
    let nds = count(list);
    let ds = numbers(list, nds);
    let r = call_record::entries::compute_barrier(
        record,
        head(&z, nz),
        head(&s, ns),
        head(&dz, ndz),
        head(&ds, nds),
        given[0],
    );
    valued(list, r.code, r.value)
}

pub fn get_hs(list: Stdin, record: Scaling, serial: u32) -> bool {
    let n = count(list);
    let mut block = numbers(list, n);
    let done = call_record::entries::get_hs(record, serial, &mut block[..n]);
    let answer = told(list, code(done));
    let slice = same_places(list, block, n);
    answer & slice
}

pub fn mul_hs(list: Stdin, record: Scaling, serial: u32) -> bool {
    let ny = count(list);
    let mut y = numbers(list, ny);
    let nx = count(list);
    let x = numbers(list, nx);
    let done = call_record::entries::mul_hs(record, serial, &mut y[..ny], head(&x, nx));
    let answer = told(list, code(done));
    let slice = same_places(list, y, ny);
    answer & slice
}

pub fn higher_correction(list: Stdin, record: Scaling, serial: u32) -> bool {
    let ne = count(list);
    let mut eta = numbers(list, ne);
    let nds = count(list);
    let ds = numbers(list, nds);
    let nv = count(list);
    let v = numbers(list, nv);
    let done = call_record::entries::higher_correction(
        record,
        serial,
        &mut eta[..ne],
        head(&ds, nds),
        head(&v, nv),
    );
    let answer = told(list, code(done));
    let slice = same_places(list, eta, ne);
    answer & slice
}

pub fn combined_ds_shift(list: Stdin, record: Scaling, serial: u32, given: [f64; 64]) -> bool {
    let nsh = count(list);
    let mut shift = numbers(list, nsh);
    let nsz = count(list);
    let stepz = numbers(list, nsz);
    let nss = count(list);
    let steps = numbers(list, nss);
    let done = call_record::entries::combined_ds_shift(
        record,
        serial,
        &mut shift[..nsh],
        head(&stepz, nsz),
        head(&steps, nss),
        given[0],
    );
    let answer = told(list, code(done));
    let slice = same_places(list, shift, nsh);
    answer & slice
}
