// The judges: each asks one thing of a call's arguments. `cone::table` puts their answers in the order of document 01. Module `cone_judge`
// judges a cone, and its functions are passed on here; `refusal` has what a refused call leaves.
#![tactic(auto)]

ghost use Rattle.std.specs.Prelude.{◌≡◌, take};
ghost use Rattle.std.specs.Float.Ieee.Scale.{finite};
ghost use Rattle.cone.specs.Codes.{is_wide, numel_of};
ghost use Rattle.cone.specs.Lent.{wide_at, scaling_at};
ghost use Rattle.cone.specs.words.Words.{cone_of_words};
ghost use Rattle.judges.specs.Judges.{all_of, settings_ok, settings_finite, strategy_ok};
ghost use Rattle.judges.specs.Judges.{sides_finite, three_finite, wide_finite, record_finite};

pub use crate::cone_judge::{cone_ok, rule_ok, three_ok, tolerance_of, wide_ok};
use algebra::vector::head;
use cone::lent::{LentScaling, LentWide};
use cone::words::{high_half, low_half};
use cone::{Cone, DUAL, PRIMAL_DUAL, Scaling, Settings, Three};
use double::is_finite;

pub mod cone_judge;
pub mod refusal;

// Whether no place holds a NaN or an infinity.
pub fn all_finite(xs: &[f64]) -> bool
    ensures { result ≡ all_of finite xs.now }
{
    // to the end, whatever it finds: with no early exit there is no branch
    xs.iter().fold(true, |all, x| all & is_finite(*x))
}

// The same of the points and directions of both sides.
pub fn sides_finite(dz: &[f64], ds: &[f64], z: &[f64], s: &[f64]) -> bool
    ensures { result ≡ sides_finite dz.now ds.now z.now s.now }
{
    all_finite(dz) & all_finite(ds) & all_finite(z) & all_finite(s)
}

// The same of the first n places.
fn head_finite(xs: &[f64], n: usize) -> bool
    ensures { result ≡ all_of finite (take n xs.now) }
{
    all_finite(head(xs, n))
}

// ---- the kind, and lengths by it

// Whether a kind is the generalized one, whose points and records are of the cone's dims; those of the others are of three numbers.
pub fn is_wide(kind: u32) -> bool
    ensures { result ≡ is_wide kind }
{
    kind == 3
}

// How many numbers a point of the cone has.
pub fn numel(cone: Cone) -> usize
    ensures { result ≡ numel_of cone }
{
    let kind = cone.kind;
    if is_wide(kind) {
        return (cone.dim1 as usize) + (cone.dim2 as usize);
    }
    3
}

// The same of the cone that lies in these words: of its exponents none is read.
pub fn numel_of(w: [u64; 34]) -> usize
    ensures { result ≡ numel_of (cone_of_words w) }
{
    let kind = low_half(w[0]);
    if is_wide(kind) {
        return (high_half(w[0]) as usize) + (low_half(w[1]) as usize);
    }
    3
}

// ---- the numbers of the settings and of a record

pub fn settings_finite(s: Settings) -> bool
    ensures { result ≡ settings_finite s }
{
    is_finite(s.start) & is_finite(s.step) & is_finite(s.smallest)
}

pub fn settings_ok(s: Settings) -> bool
    ensures { result ≡ settings_ok s }
{
    (s.start > 0.0) & (s.step > 0.0) & (s.step <= 0.99) & (s.smallest >= 2.2250738585072014e-308)
}

pub fn strategy_ok(strategy: u32) -> bool
    ensures { result ≡ strategy_ok strategy }
{
    (strategy == DUAL) | (strategy == PRIMAL_DUAL)
}

pub fn three_finite(t: Three) -> bool
    ensures { result ≡ three_finite t }
{
    all_finite(&t.z) & all_finite(&t.grad) & all_finite(&t.hdual) & all_finite(&t.hs)
}

// Lent, so that no record is copied to be judged.
pub fn wide_finite(w: &LentWide<'_>, dim1: u32, dim2: u32) -> bool
    ensures { result ≡ wide_finite (wide_at w.now) dim1 dim2 }
{
    let LentWide {
        z,
        mu,
        grad,
        p,
        q,
        r,
        d1,
        d2,
    } = *w;
    let n1 = dim1 as usize;
    let n2 = dim2 as usize;
    head_finite(z, n1 + n2)
        & is_finite(mu)
        & head_finite(grad, n1 + n2)
        & head_finite(p, n1 + n2)
        & head_finite(q, n1)
        & head_finite(r, n2)
        & head_finite(d1, n1)
        & is_finite(d2)
}

// The record's numbers that the kind uses.
pub fn lent_finite(lent: &LentScaling<'_>) -> bool
    ensures { result ≡ record_finite (scaling_at lent.now) }
{
    if is_wide(lent.cone.kind) {
        return wide_finite(&lent.wide, lent.cone.dim1, lent.cone.dim2);
    }
    three_finite(lent.three.copied())
}

pub fn record_finite(scaling: Scaling) -> bool
    ensures { result ≡ record_finite scaling }
{
    lent_finite(&LentScaling::of(&scaling))
}
