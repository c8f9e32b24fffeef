// What the list says of an answer, word by word.
use crate::input::{places, word};
use cone::{Cone, Scaling, Three, Wide};
use std::io::Stdin;

fn is(x: f64, bits: u64) -> bool {
    double::to_bits(x) == bits
}

// Whether the first n numbers are the list's next n, and the others +0.
fn same(list: Stdin, xs: &[f64], n: usize) -> bool {
    let mut all = true;
    for i in 0..xs.len() {
        let mut bits = 0;
        if i < n {
            bits = word(list);
        }
        if !is(xs[i], bits) {
            all = false;
        }
    }
    all
}

pub fn same_places(list: Stdin, xs: [f64; 64], n: usize) -> bool {
    same(list, &xs, n)
}

// The number, the answer, the counts and the values. An answer is 0 no, 1 yes, 2 undecided; 0 where a call gives none.
pub fn reply(list: Stdin, code: u32, answer: u32, counts: [u32; 2], values: [f64; 3]) -> bool {
    let told = word(list) == code as u64;
    let said = word(list) == answer as u64;
    let first = word(list) == counts[0] as u64;
    let second = word(list) == counts[1] as u64;
    let v0 = is(values[0], word(list));
    let v1 = is(values[1], word(list));
    let v2 = is(values[2], word(list));
    told & said & first & second & v0 & v1 & v2
}

// An answer that is a number alone.
pub fn told(list: Stdin, code: u32) -> bool {
    let answer = reply(list, code, 0, [0; 2], [0.0; 3]);
    let nothing = no_record(list);
    answer & nothing
}

// The list hands back no record here.
pub fn no_record(list: Stdin) -> bool {
    let scaled = word(list) == 0;
    let serial = word(list) == 0;
    let count = word(list) == 0;
    scaled & serial & count
}

fn same_three(list: Stdin, three: Three, used: bool) -> bool {
    let mut n = 0;
    let mut m = 0;
    if used {
        n = 3;
        m = 6;
    }
    let z = three.z;
    let grad = three.grad;
    let hdual = three.hdual;
    let hs = three.hs;
    let all = same(list, &z, n);
    let all = same(list, &grad, n) & all;
    let all = same(list, &hdual, m) & all;
    same(list, &hs, m) & all
}

fn same_one(list: Stdin, x: f64, used: bool) -> bool {
    let one = [x];
    let mut n = 0;
    if used {
        n = 1;
    }
    same(list, &one, n)
}

fn same_wide(list: Stdin, wide: Wide, dim1: usize, dim2: usize, n: usize, used: bool) -> bool {
    let z = wide.z;
    let grad = wide.grad;
    let p = wide.p;
    let all = same(list, &z, n);
    let all = same_one(list, wide.mu, used) & all;
    let all = same(list, &grad, n) & all;
    let all = same(list, &p, n) & all;
    let q = wide.q;
    let r = wide.r;
    let d1 = wide.d1;
    let all = same(list, &q, dim1) & all;
    let all = same(list, &r, dim2) & all;
    let all = same(list, &d1, dim1) & all;
    same_one(list, wide.d2, used) & all
}

// The numbers handed back in a record, or as gradient and block, for a cone.
pub fn numbers_of(list: Stdin, cone: Cone, three: Three, wide: Wide) -> bool {
    let used = word(list) != 0;
    if used & judges::is_wide(cone.kind) {
        let dim1 = places(cone.dim1);
        let dim2 = places(cone.dim2);
        let empty = same_three(list, three, false);
        return same_wide(list, wide, dim1, dim2, dim1 + dim2, true) & empty;
    }
    let full = same_three(list, three, used);
    same_wide(list, wide, 0, 0, 0, false) & full
}

fn same_cone(a: Cone, b: Cone) -> bool {
    let x = a.exps;
    let y = b.exps;
    let mut all = (a.kind == b.kind) & (a.dim1 == b.dim1) & (a.dim2 == b.dim2) & (a.rule == b.rule);
    for i in 0..32 {
        if double::to_bits(x[i]) != double::to_bits(y[i]) {
            all = false;
        }
    }
    all
}

// The record handed back, whole; its cone is the one given.
pub fn same_record(list: Stdin, record: Scaling, cone: Cone) -> bool {
    let scaled = word(list) == record.scaled as u64;
    let serial = word(list) == record.serial as u64;
    let kept = record.cone;
    let three = record.three;
    let wide = record.wide;
    let numbers = numbers_of(list, cone, three, wide);
    same_cone(kept, cone) & numbers & scaled & serial
}
