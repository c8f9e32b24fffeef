// The list as it comes: words of 64 bits, low byte first.
ghost use Rattle.std.specs.Prelude.{◌≡◌, ◌≤◌, length};

use cone::{Cone, Scaling, Three, Wide};
use std::io::{Read, Stdin};

fn wide(x: u8) -> u64 {
    x as u64
}

fn join(b: [u8; 8]) -> u64 {
    wide(b[0])
        | wide(b[1]) << 8
        | wide(b[2]) << 16
        | wide(b[3]) << 24
        | wide(b[4]) << 32
        | wide(b[5]) << 40
        | wide(b[6]) << 48
        | wide(b[7]) << 56
}

// The next word; 0 behind the end.
pub fn word(list: Stdin) -> u64 {
    let mut b = [0u8; 8];
    let mut input = list;
    // behind the end the bytes stay 0
    let _ = input.read_exact(&mut b);
    join(b)
}

pub fn number(list: Stdin) -> f64 {
    double::of_bits(word(list))
}

// A word that fits 32 bits; the list has no other where this is asked.
pub fn short(list: Stdin) -> u32 {
    let n = word(list);
    if n < 4294967296 { n as u32 } else { 4294967295 }
}

fn most_64(n: u64) -> usize
    ensures { result ≤ 64 }
{
    if n < 64 { n as usize } else { 64 }
}

// A length: the list's slices hold at most 64 numbers.
pub fn count(list: Stdin) -> usize
    ensures { result ≤ 64 }
{
    most_64(word(list))
}

fn filled(list: Stdin, n: usize) -> [f64; 64] {
    let mut xs = [0.0; 64];
    for i in 0..64 {
        if i < n {
            xs[i] = number(list);
        }
    }
    xs
}

// n numbers, then +0.
pub fn numbers(list: Stdin, n: usize) -> [f64; 64]
    ensures { 64 ≡ length result }
{
    whole(filled(list, n))
}

fn whole(xs: [f64; 64]) -> [f64; 64]
    ensures { 64 ≡ length result }
{
    xs
}

pub fn numbers32(list: Stdin, n: usize) -> [f64; 32] {
    let mut xs = [0.0; 32];
    for i in 0..32 {
        if i < n {
            xs[i] = number(list);
        }
    }
    xs
}

pub fn cone(list: Stdin) -> Cone {
    let kind = short(list);
    let dim1 = short(list);
    let dim2 = short(list);
    let rule = short(list);
    let n = count(list);
    let exps = numbers32(list, n);
    Cone {
        kind,
        dim1,
        dim2,
        rule,
        exps,
    }
}

// dim1 or dim2 as a length
pub fn places(dim: u32) -> usize
    ensures { result ≤ 64 }
{
    most_64(dim as u64)
}

fn packed(list: Stdin) -> Three {
    let z = [number(list), number(list), number(list)];
    let grad = [number(list), number(list), number(list)];
    let hdual = [
        number(list),
        number(list),
        number(list),
        number(list),
        number(list),
        number(list),
    ];
    let hs = [
        number(list),
        number(list),
        number(list),
        number(list),
        number(list),
        number(list),
    ];
    Three { z, grad, hdual, hs }
}

fn wide_of(list: Stdin, dim1: usize, dim2: usize, n: usize) -> Wide {
    let z = numbers(list, n);
    let mu = number(list);
    let grad = numbers(list, n);
    let p = numbers(list, n);
    let q = numbers32(list, dim1);
    let r = numbers32(list, dim2);
    let d1 = numbers32(list, dim1);
    let d2 = number(list);
    Wide {
        z,
        mu,
        grad,
        p,
        q,
        r,
        d1,
        d2,
    }
}

// The record that is passed: fresh where the list names no numbers.
pub fn record(list: Stdin, cone: Cone) -> Scaling {
    let scaled = short(list);
    let serial = short(list);
    let n = word(list);
    let kind = cone.kind;
    let mut three = cone::no_three();
    let mut wide = cone::no_wide();
    if n != 0 {
        if judges::is_wide(kind) {
            wide = wide_of(
                list,
                places(cone.dim1),
                places(cone.dim2),
                most_64(cone.dim1 as u64 + cone.dim2 as u64),
            );
        } else {
            three = packed(list);
        }
    }
    Scaling {
        cone,
        scaled,
        serial,
        three,
        wide,
    }
}
