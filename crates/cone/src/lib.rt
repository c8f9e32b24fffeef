// The types that the library's calls take and answer with, as include/spindle.h lays them out. Module `table` has the numbers of refusals
// in their order, `verdict` yes, no and undecided, `words` a cone as it lies in memory, `lent` a scaling record as it lies, `places` what fills
// arrays from slices.
#![tactic(auto)]

ghost use Rattle.std.specs.Prelude.{◌≡◌, ◌≤◌, length};
ghost use Rattle.cone.specs.Fresh.{fresh_of, empty_cone, no_three, no_wide, attempt_of, house_settings, house_strategy};
ghost use Rattle.cone.specs.Points.{three_of, padded};
ghost use Rattle.cone.specs.table.Table.{number_of};
ghost use Rattle.double.specs.Numbers.{#0};
ghost use Rattle.double.specs.Operators.{at};

use crate::table::Refusal;
use double::nan;
use places::filled;

pub mod lent;
pub mod places;
pub mod table;
pub mod verdict;
pub mod words;

// A cone: kind 1 exponential, 2 power, 3 generalized. Kind 2 uses exps[0], kind 3 both dims and exps[..dim1]; the other places are
// neither read nor judged. The rule, 1 or 2 by the planner's release, says how far from 1 the exponents of kind 3 may sum up; it is judged
// for every kind.
#[repr(C)]
#[derive(Clone, Copy)]
pub struct Cone {
    pub kind: u32,
    pub dim1: u32,
    pub dim2: u32,
    pub rule: u32,
    pub exps: [f64; 32],
}

// What a step search is told.
#[repr(C)]
#[derive(Clone, Copy)]
pub struct Settings {
    pub start: f64,
    pub step: f64,
    pub smallest: f64,
}

// The numbers of a scaling record of kinds 1 and 2. Packed order is (0,0),(0,1),(1,1),(0,2),(1,2),(2,2).
#[repr(C)]
#[derive(Clone, Copy)]
pub struct Three {
    pub z: [f64; 3],
    pub grad: [f64; 3],
    pub hdual: [f64; 6],
    pub hs: [f64; 6],
}

// The numbers of a scaling record of kind 3: z, grad, p in dim1 + dim2 places, q, d1 in dim1, r in dim2.
#[repr(C)]
#[derive(Clone, Copy)]
pub struct Wide {
    pub z: [f64; 64],
    pub mu: f64,
    pub grad: [f64; 64],
    pub p: [f64; 64],
    pub q: [f64; 32],
    pub r: [f64; 32],
    pub d1: [f64; 32],
    pub d2: f64,
}

// A scaling record, with the cone that it was made for, whether it was ever scaled (0 is no, every other value yes, so that any bytes of a
// record have one meaning), and how many updates it has completed.
#[repr(C)]
#[derive(Clone, Copy)]
pub struct Scaling {
    pub cone: Cone,
    pub scaled: u32,
    pub serial: u32,
    pub three: Three,
    pub wide: Wide,
}

// The answers. Each carries its number first.
#[repr(C)]
#[derive(Clone, Copy)]
pub struct YesNo {
    pub code: u32,
    pub yes: bool,
}

#[repr(C)]
#[derive(Clone, Copy)]
pub struct Number {
    pub code: u32,
    pub value: f64,
}

#[repr(C)]
#[derive(Clone, Copy)]
pub struct Rounds {
    pub code: u32,
    pub rounds: u32,
}

#[repr(C)]
#[derive(Clone, Copy)]
pub struct Found {
    pub code: u32,
    pub count: u32,
    pub step: f64,
}

#[repr(C)]
#[derive(Clone, Copy)]
pub struct Steps {
    pub code: u32,
    pub dualcount: u32,
    pub primalcount: u32,
    pub dualstep: f64,
    pub primalstep: f64,
}

// 01: "A refusal returns zeros for all numbers and no for a yes or no". What each answer is then.
impl Number {
    pub fn refused(refusal: Refusal) -> Number
        ensures { result ≡ record { code = number_of refusal; value = #0 } }
    {
        Number {
            code: refusal.number(),
            value: 0.0,
        }
    }
}

impl Rounds {
    pub fn refused(refusal: Refusal) -> Rounds
        ensures { result ≡ record { code = number_of refusal; rounds = 0 } }
    {
        Rounds {
            code: refusal.number(),
            rounds: 0,
        }
    }
}

impl Found {
    pub fn refused(refusal: Refusal) -> Found
        ensures { result ≡ record { code = number_of refusal; count = 0; step = #0 } }
    {
        Found {
            code: refusal.number(),
            count: 0,
            step: 0.0,
        }
    }
}

impl Steps {
    pub fn refused(refusal: Refusal) -> Steps
        ensures { result ≡ record { code = number_of refusal; dualcount = 0; primalcount = 0; dualstep = #0; primalstep = #0 } }
    {
        Steps {
            code: refusal.number(),
            dualcount: 0,
            primalcount: 0,
            dualstep: 0.0,
            primalstep: 0.0,
        }
    }
}

#[repr(C)]
#[derive(Clone, Copy)]
pub struct DualGrad {
    pub code: u32,
    pub three: Three,
    pub wide: Wide,
}

#[repr(C)]
#[derive(Clone, Copy)]
pub struct Updated {
    pub code: u32,
    pub scaling: Scaling,
}

// The scaling strategies.
pub const DUAL: u32 = 1;

pub const PRIMAL_DUAL: u32 = 2;

// The last serial: a record that has it is updated no more.
pub const LAST_SERIAL: u32 = 4294967295;

// The cone of a refused `fresh`.
pub fn empty_cone() -> Cone
    ensures { result ≡ empty_cone }
{
    Cone {
        kind: 0,
        dim1: 0,
        dim2: 0,
        rule: 0,
        exps: [0.0; 32],
    }
}

pub fn no_three() -> Three
    ensures { result ≡ no_three }
{
    Three {
        z: [0.0; 3],
        grad: [0.0; 3],
        hdual: [0.0; 6],
        hs: [0.0; 6],
    }
}

pub fn no_wide() -> Wide
    ensures { result ≡ no_wide }
{
    Wide {
        z: [0.0; 64],
        mu: 0.0,
        grad: [0.0; 64],
        p: [0.0; 64],
        q: [0.0; 32],
        r: [0.0; 32],
        d1: [0.0; 32],
        d2: 0.0,
    }
}

// A record for this cone that was never scaled.
pub fn fresh(cone: Cone) -> Scaling
    ensures { result ≡ fresh_of cone }
{
    let three = no_three();
    let wide = no_wide();
    Scaling {
        cone,
        scaled: 0,
        serial: 0,
        three,
        wide,
    }
}

// A record that was scaled, in the making: it has no serial yet.
pub fn attempted(cone: Cone, three: Three, wide: Wide) -> Scaling
    ensures { result ≡ attempt_of cone three wide }
{
    Scaling {
        cone,
        scaled: 1,
        serial: 0,
        three,
        wide,
    }
}

// The settings of callers who pass only a start.
pub fn house_settings(start: f64) -> Settings
    ensures { result ≡ house_settings start }
{
    Settings {
        start,
        step: 0.5,
        smallest: 0.0001,
    }
}

// The strategy of callers who name none.
pub fn house_strategy() -> u32
    ensures { result ≡ house_strategy }
{
    PRIMAL_DUAL
}

// Place i of a slice. Behind the end, where no formula reads, there is no number.
fn place(xs: &[f64], i: usize) -> f64
    ensures { result ≡ at xs.now i }
{
    xs.get(i).copied().unwrap_or(nan())
}

// A lent slice as a point of kind 1 or 2.
pub fn three_of(xs: &[f64]) -> [f64; 3]
    ensures { result ≡ three_of xs.now }
{
    let x0 = place(xs, 0);
    let x1 = place(xs, 1);
    let x2 = place(xs, 2);
    [x0, x1, x2]
}

// A lent slice in 64 places, as a record of kind 3 keeps it.
pub fn wide_of(xs: &[f64]) -> [f64; 64]
    requires { length xs.now ≤ 64 }
    ensures { result ≡ padded 64 xs.now }
{
    filled(xs, |x| x)
}
