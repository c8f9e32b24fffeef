// A record of a trace by value, its numbers as doubles. 02, Order 1: "what one writes the other reads back the same".
ghost use Rattle.std.specs.Prelude.{◌≡◌, true, ◌+◌, ◌*◌, ◌^◌, ◌≤◌, ◌<◌, drop, IfSome, option_map};
ghost use Rattle.cone.specs.table.Table.{number_of};
ghost use Rattle.std.specs.Float.{binary64};
ghost use Rattle.std.specs.Float.Ieee.{of_bits};
ghost use Rattle.octets.specs.words.Words.{word_at};
ghost use Rattle.trace_layout.specs.Records.{rule_at, flag_place, settings_in, laid_at, record_at};
ghost use Rattle.trace_layout.specs.pieces.Shapes.{shape_at};
ghost use Rattle.trace.specs.reader.Reading.{found_from};
ghost use Rattle.trace.specs.value.Defaults.{default_step, default_of};
ghost use Rattle.trace.specs.value.Recorded.{row_in, cone_of, settings_of, steps_of, recorded_of, refused_record, recorded_in};

use crate::judge::open;
use crate::reader::current_in;
use cone::table::Refusal;
use cone::{Cone, Settings, Steps, empty_cone};
use double::of_bits;
use octets::words::{behind, front, u32_at, u64_at};
use trace_layout::pieces::layout::{exponents, flag_place, rules_in, settings_in};
use trace_layout::pieces::{
    DUAL_COUNT_BACK, DUAL_STEP_BACK, HEAD_SIZE, PRIMAL_COUNT_BACK, PRIMAL_STEP_BACK, Shape,
};

// A record, or the number of a refusal: where it begins, and where the next one does. Of each vector the first dim1 + dim2 places are used,
// the others are +0.
#[repr(C)]
#[derive(Clone, Copy)]
pub struct Recorded {
    pub code: u32,
    pub flag: u32,
    pub at: u64,
    pub next: u64,
    pub cone: Cone,
    pub settings: Settings,
    pub dz: [f64; 64],
    pub ds: [f64; 64],
    pub z: [f64; 64],
    pub s: [f64; 64],
    pub steps: Steps,
}

// A record that was found at the front of bytes.
#[derive(Clone, Copy)]
pub struct Found<'a> {
    pub edition: u32,
    pub bytes: &'a [u8],
    pub shape: Shape,
    ghost laid: { laid_at edition bytes.now ≡ true },
    ghost read: { shape ≡ shape_at edition bytes.now },
}

fn f64_at(bytes: &[u8], place: usize) -> f64
    ensures { result ≡ of_bits binary64 (word_at 8 bytes.now place) }
{
    of_bits(u64_at(bytes, place))
}

// The first n doubles of a row of bytes, in N places: 64 of a vector, 32 of a cone's exponents. Never in its caller's frame: beside so many
// loops LLVM gives each copy of a Recorded that a call hands on, 2,400 bytes, a place of its own on the stack.
#[inline(never)]
fn row<const N: usize>(bytes: &[u8], n: usize) -> [f64; N]
    requires { n ≤ N }
    ensures { result ≡ row_in N n bytes.now }
{
    let mut row = [0.0; N];
    // By number: the bytes may be fewer, and those that are missing are read as 0.
    for i in 0..n {
        row[i] = f64_at(bytes, 8 * i);
    }
    row
}

// 02, Order 8: "A trace of edition 1 means 0.8 by its flag; new traces are edition 2 and mean 0.5"; Order 9: edition 3 has "the default
// 0.5". An edition keeps its step, whatever the house does.
fn default_step(edition: u32) -> f64
    ensures { result ≡ default_step edition }
{
    if edition == 1 { 0.8 } else { 0.5 }
}

// What flag 1 means in a trace of the edition.
fn default_settings(edition: u32, start: f64) -> Settings
    ensures { result ≡ default_of edition start }
{
    let step = default_step(edition);
    Settings {
        start,
        step,
        smallest: 0.0001,
    }
}

impl<'a> Found<'a> {
    // The record at a place, if one stands there.
    pub fn find(bytes: &'a [u8], at: usize, edition: u32) -> Option<Found<'a>>
        ensures shape { option_map (λ f. f.shape) result ≡ found_from bytes.now at edition }
        ensures bytes { IfSome result (λ f. (f.edition ≡ edition) × (f.bytes.now ≡ drop at bytes.now)) }
    {
        let shape = current_in(bytes, at, edition)?;
        let bytes = behind(bytes, at);
        Some(Found {
            edition,
            bytes,
            shape,
        })
    }

    // The rule stands behind the dims, in an edition that has it.
    fn rule(self) -> u32
        ensures { result ≡ rule_at self.entry.edition self.entry.bytes.now }
    {
        if rules_in(self.edition) == 0 {
            1
        } else {
            u32_at(self.bytes, HEAD_SIZE)
        }
    }

    fn cone(self) -> Cone
        ensures { result ≡ cone_of (record_at self.entry.edition self.entry.bytes.now) }
    {
        let shape = self.shape;
        let n = exponents(shape.kind, shape.dim1);
        let place = HEAD_SIZE + 4 * rules_in(self.edition);
        let exps = row(behind(self.bytes, place), n);
        let rule = self.rule();
        Cone {
            kind: shape.kind,
            dim1: shape.dim1,
            dim2: shape.dim2,
            rule,
            exps,
        }
    }

    // Where the flag stands.
    fn flag_place(self) -> usize
        ensures { (result ≡ flag_place self.entry.edition self.entry.shape.kind self.entry.shape.dim1) × (28 ≤ result) × (result ≤ 288) }
    {
        flag_place(self.edition, self.shape.kind, self.shape.dim1)
    }

    // Start, and the step and smallest step that follow a flag of 0 or are the edition's own.
    fn settings(self) -> Settings
        ensures { result ≡ settings_of self.entry.edition (record_at self.entry.edition self.entry.bytes.now) }
    {
        let place = self.flag_place();
        let start = f64_at(self.bytes, place - 8);
        if self.shape.flag == 0 {
            return Settings {
                start,
                step: f64_at(self.bytes, place + 4),
                smallest: f64_at(self.bytes, place + 12),
            };
        }
        default_settings(self.edition, start)
    }

    // How many numbers each vector has.
    fn numbers(self) -> usize
        ensures { (result ≡ self.entry.shape.dim1 + self.entry.shape.dim2) × (result ≤ 64) }
    {
        self.shape.dim1 as usize + self.shape.dim2 as usize
    }

    // Where the vectors stand.
    fn vectors_place(self) -> usize
        ensures { (result
            ≡ flag_place self.entry.edition self.entry.shape.kind self.entry.shape.dim1 + 4 + 8 * settings_in self.entry.shape.flag)
            × (result ≤ 308) }
    {
        self.flag_place() + 4 + 8 * settings_in(self.shape.flag)
    }

    fn steps(self) -> Steps
        ensures { result ≡ steps_of (record_at self.entry.edition self.entry.bytes.now) }
    {
        let size = self.shape.size;
        let dualstep = f64_at(self.bytes, size - DUAL_STEP_BACK);
        let dualcount = u32_at(self.bytes, size - DUAL_COUNT_BACK);
        let primalstep = f64_at(self.bytes, size - PRIMAL_STEP_BACK);
        let primalcount = u32_at(self.bytes, size - PRIMAL_COUNT_BACK);
        Steps {
            code: 0,
            dualcount,
            primalcount,
            dualstep,
            primalstep,
        }
    }

    // The record by value, at an offset. In its caller's frame: as a call it would hand on 2,400 bytes once more.
    #[inline(always)]
    pub fn recorded(self, at: u64) -> Recorded
        requires { at + self.shape.size < 2 ^ 64 }
        ensures { result ≡ recorded_of self.entry.edition at (record_at self.entry.edition self.entry.bytes.now) }
    {
        let t = self.bytes;
        let cone = self.cone();
        let settings = self.settings();
        let steps = self.steps();
        let n = self.numbers();
        let place = self.vectors_place();
        let dz = row(behind(t, place), n);
        let ds = row(behind(t, place + 8 * n), n);
        let z = row(behind(t, place + 16 * n), n);
        let s = row(behind(t, place + 24 * n), n);
        Recorded {
            code: 0,
            flag: self.shape.flag,
            at,
            next: at + self.shape.size as u64,
            cone,
            settings,
            dz,
            ds,
            z,
            s,
            steps,
        }
    }
}

pub(crate) fn refused_record(refusal: Refusal) -> Recorded
    ensures { result ≡ refused_record (number_of refusal) }
{
    let cone = empty_cone();
    let settings = Settings {
        start: 0.0,
        step: 0.0,
        smallest: 0.0,
    };
    let none = [0.0; 64];
    let steps = Steps {
        code: 0,
        dualcount: 0,
        primalcount: 0,
        dualstep: 0.0,
        primalstep: 0.0,
    };
    Recorded {
        code: refusal.number(),
        flag: 0,
        at: 0,
        next: 0,
        cone,
        settings,
        dz: none,
        ds: none,
        z: none,
        s: none,
        steps,
    }
}

// Record i of a trace, counted from 0. Its offset is the list's entry i, and a Reader at that offset finds it.
pub fn record(trace: &[u8], i: u32) -> Recorded
    ensures { result ≡ recorded_in trace.now i }
{
    let opened = open(trace);
    if opened.count <= i {
        return refused_record(Refusal::BrokenTrace);
    }
    let list = opened.list as usize;
    let at = u64_at(trace, list + 8 * (i as usize));
    let body = front(trace, list);
    let Some(found) = Found::find(body, at as usize, opened.edition) else {
        return refused_record(Refusal::BrokenTrace);
    };
    found.recorded(at)
}
