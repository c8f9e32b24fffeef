// A record at the front of a slice of bytes. Its parts depend on the edition and on four of its numbers, its shape.
ghost use Rattle.std.specs.Prelude.{◌≡◌};
ghost use Rattle.octets.specs.words.Runs.{runs_size};
ghost use Rattle.trace_layout.specs.Records.{has_rule, rules_in, own_dims, exponents, settings_in, runs_for, flag_place, dims_ok};
ghost use Rattle.trace_layout.specs.Records.{step_ok, shape_ok};
ghost use Rattle.trace_layout.specs.pieces.Shapes.{shape_at, laid_with, found_at};

use super::{DUAL_STEP_BACK, FIXED_SIZE, HEAD_SIZE, PRIMAL_STEP_BACK, STEP_MARK, Shape};
use octets::words::{u32_at, u64_at};

// The bits of the infinity. 02: "a step is +0 or positive and finite"
const INFINITY_BITS: u64 = 0x7ff0_0000_0000_0000;

// Start has 8 bytes.
const HEAD_AND_START: usize = HEAD_SIZE + 8;

// Whether the records of the edition have a rule.
pub fn has_rule(edition: u32) -> bool
    ensures { result ≡ has_rule edition }
{
    edition == 3
}

pub fn rules_in(edition: u32) -> usize
    ensures { result ≡ rules_in edition }
{
    if has_rule(edition) { 1 } else { 0 }
}

// Whether a record of the kind has its cone's own dims: the generalized kind alone.
pub fn own_dims(kind: u32) -> bool
    ensures { result ≡ own_dims kind }
{
    kind == 3
}

pub fn exponents(kind: u32, dim1: u32) -> usize
    ensures { result ≡ exponents kind dim1 }
{
    if own_dims(kind) {
        return dim1 as usize;
    }
    if kind == 2 { 1 } else { 0 }
}

pub fn settings_in(flag: u32) -> usize
    ensures { result ≡ settings_in flag }
{
    if flag == 0 { 2 } else { 0 }
}

// Where the flag stands.
pub fn flag_place(edition: u32, kind: u32, dim1: u32) -> usize
    ensures { result ≡ flag_place edition kind dim1 }
{
    HEAD_AND_START + 4 * rules_in(edition) + 8 * exponents(kind, dim1)
}

// The whole record's length. Four dims of 32 bits cannot wrap it.
pub fn size_for(edition: u32, kind: u32, dim1: u32, dim2: u32, flag: u32) -> usize
    ensures { result ≡ runs_size (runs_for edition kind dim1 dim2 flag) }
{
    FIXED_SIZE
        + 4 * rules_in(edition)
        + 8 * exponents(kind, dim1)
        + 8 * settings_in(flag)
        + 32 * (dim1 as usize + dim2 as usize)
}

fn dims_ok(kind: u32, dim1: u32, dim2: u32) -> bool
    ensures { result ≡ dims_ok kind dim1 dim2 }
{
    if own_dims(kind) {
        (1 <= dim1) & (dim1 <= 32) & (1 <= dim2) & (dim2 <= 32)
    } else {
        (1 <= kind) & (kind <= 2) & (dim1 == 3) & (dim2 == 0)
    }
}

pub fn shape_ok(kind: u32, dim1: u32, dim2: u32, flag: u32) -> bool
    ensures { result ≡ shape_ok kind dim1 dim2 flag }
{
    dims_ok(kind, dim1, dim2) & (flag <= 1)
}

pub fn step_ok(bits: u64) -> bool
    ensures { result ≡ step_ok bits }
{
    bits < INFINITY_BITS
}

// The numbers of the shape as they stand there, whatever they are.
pub(crate) fn shape_at(edition: u32, t: &[u8]) -> Shape
    ensures { result ≡ shape_at edition t.now }
{
    let kind = u32_at(t, 8);
    let dim1 = u32_at(t, 12);
    let dim2 = u32_at(t, 16);
    let flag = u32_at(t, flag_place(edition, kind, dim1));
    let size = size_for(edition, kind, dim1, dim2, flag);
    Shape {
        kind,
        dim1,
        dim2,
        flag,
        size,
    }
}

// Whether a well laid out record of this shape stands at the front.
fn laid_with(t: &[u8], shape: Shape) -> bool
    ensures { result ≡ laid_with t.now shape }
{
    let size = shape.size;
    if size < DUAL_STEP_BACK {
        return false;
    }
    let marked = (u32_at(t, 0) == STEP_MARK) & (u32_at(t, 4) as usize == size);
    let shaped = shape_ok(shape.kind, shape.dim1, shape.dim2, shape.flag);
    marked
        & shaped
        & (size <= t.len())
        & step_ok(u64_at(t, size - DUAL_STEP_BACK))
        & step_ok(u64_at(t, size - PRIMAL_STEP_BACK))
}

// The record at the front, if one stands there.
pub fn found_at(edition: u32, t: &[u8]) -> Option<Shape>
    ensures { result ≡ found_at edition t.now }
{
    let shape = shape_at(edition, t);
    if laid_with(t, shape) {
        Some(shape)
    } else {
        None
    }
}
