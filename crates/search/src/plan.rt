// 02, Order 10: one common step for a list of cones over one long pair of vectors. The search is 003's, with "every cone passes" as its
// test; its laws, for any test and any count of single tests, are in `trials`. A cone of the list is its 34 words, as
// `cone::words` reads them.
ghost use Rattle.std.specs.Prelude.{◌≡◌, true, ◌≤◌, length, [], ◌∷◌, ◌++◌};
ghost use Rattle.cone.specs.words.Words.{cone_of_words, cones_of};
ghost use Rattle.search.specs.trials.Search.{outcome};
ghost use Rattle.search.specs.trials.Costed.{costed_of};
ghost use Rattle.search.specs.plan.Plans.{cone_passes, total_of, plan_ok, tested_of, plan_trials, plan_of, Listed, Plannable};
ghost use Rattle.search.specs.plan.Sides.{OnSide, sides_trials, sides_of, in_sides};

pub use crate::trials::Tested;
use crate::trials::{Trial, search};
use crate::{Searched, put_trial};
use algebra::vector::{head, tail};
use cone::words::{cone_of, high_half, low_half, places};
use cone::{Cone, Settings};
use judges::refusal::store;
use judges::{cone_ok, numel_of};
use kinds::{passes, used};

// Whether there are 1 to 1,024 cones, all of them good. A longer list is not walked.
pub fn plan_ok(cones: &[[u64; 34]]) -> bool
    ensures { result ≡ plan_ok (cones_of cones.now) }
{
    let few = (1 <= cones.len()) & (cones.len() <= 1024);
    if !few {
        return false;
    }
    let mut all = true;
    for w in cones {
        all = all & cone_ok(cone_of(*w));
    }
    all
}

// How many numbers a point of the plan has. Good cones have at most 64 each, so the sum of 1,024 does not wrap.
pub fn total(cones: &[[u64; 34]]) -> usize
    requires { plan_ok (cones_of cones.now) ≡ true }
    ensures { result ≡ total_of (cones_of cones.now) }
{
    let mut t = 0;
    for w in cones {
        t += numel_of(*w);
    }
    t
}

// Whether the cone in these words passes on its part of a point. Exponent places that its kind does not use are not even read: they are
// most of the words.
fn cone_passes(w: [u64; 34], primal: bool, part: &[f64]) -> bool
    ensures { result ≡ cone_passes (cone_of_words w) primal part.now }
{
    let kind = low_half(w[0]);
    let dim1 = high_half(w[0]);
    let exps = places(w, used(kind, dim1));
    // a test reads neither the second dim nor the rule
    let cone = Cone {
        kind,
        dim1,
        dim2: 0,
        rule: 0,
        exps,
    };
    passes(&cone, primal, part)
}

// The cones are tested in list order, each on its part of the point, up to the first that fails.
fn test_cones(cones: &[[u64; 34]], primal: bool, point: &[f64]) -> Tested
    requires { (length cones.now ≤ 1024) × (total_of (cones_of cones.now) ≡ length point.now) }
    ensures { result ≡ tested_of (cones_of cones.now) primal point.now }
{
    let mut at = 0;
    for (i, w) in cones.iter().enumerate() {
        let n = numel_of(*w);
        if !cone_passes(*w, primal, head(tail(point, at), n)) {
            return Tested {
                all: false,
                count: i as u32 + 1,
            };
        }
        at += n;
    }
    Tested {
        all: true,
        count: cones.len() as u32,
    }
}

// 003 backtrack_search, with every cone's test for one. The count is of single cone tests.
pub fn common_search(
    cones: &[[u64; 34]],
    primal: bool,
    dq: &[f64],
    q: &[f64],
    how: Settings,
    point: &mut [f64],
) -> Searched
    requires { Plannable (cones_of cones.now) dq.now q.now how point.old }
    ensures { outcome result.step result.count point.new
        ≡ costed_of (plan_of (cones_of cones.now) primal dq.now q.now how) }
{
    let mut trial = OneSide {
        cones,
        primal,
        dq,
        q,
        point,
    };
    search(&mut trial, how)
}

#[derive(Drop)]
struct OneSide<'a> {
    cones: &'a [[u64; 34]],
    primal: bool,
    dq: &'a [f64],
    q: &'a [f64],
    point: &'a mut [f64],
}

impl Trial for OneSide<'_> {
    ghost about = { λ t. plan_trials (cones_of t.cones.now) t.primal t.dq.now t.q.now };

    ghost sound = { λ t. Listed (cones_of t.cones.now)
        × OnSide (cones_of t.cones.now) t.dq.now t.q.now t.point.now };

    ghost lent = { λ t. t.point.ghost_name ∷ [] };

    ghost point = { λ t. t.point.now };

    fn at(&mut self, alpha: f64) -> Tested {
        let point = &mut *self.point;
        put_trial(self.q, self.dq, alpha, point);
        test_cones(self.cones, self.primal, point)
    }

    fn back(&mut self) {
        store(self.point, self.q);
    }
}

// The common search of both sides, with one step: a trial has a point on each.
pub fn sides_search(
    cones: &[[u64; 34]],
    dz: &[f64],
    ds: &[f64],
    z: &[f64],
    s: &[f64],
    how: Settings,
    dual: &mut [f64],
    primal: &mut [f64],
) -> Searched
    requires { Plannable (cones_of cones.now) dz.now z.now how dual.old
        × Plannable (cones_of cones.now) ds.now s.now how primal.old }
    ensures { record { answer = result; first = dual.new; second = primal.new }
        ≡ in_sides (cones_of cones.now) (costed_of (sides_of (cones_of cones.now) dz.now ds.now
        z.now s.now how)) }
{
    let mut trial = BothSides {
        cones,
        dz,
        ds,
        z,
        s,
        dual,
        primal,
    };
    search(&mut trial, how)
}

#[derive(Drop)]
struct BothSides<'a> {
    cones: &'a [[u64; 34]],
    dz: &'a [f64],
    ds: &'a [f64],
    z: &'a [f64],
    s: &'a [f64],
    dual: &'a mut [f64],
    primal: &'a mut [f64],
}

impl Trial for BothSides<'_> {
    ghost about = { λ t. sides_trials (cones_of t.cones.now) t.dz.now t.ds.now t.z.now t.s.now };

    ghost sound = { λ t. Listed (cones_of t.cones.now)
        × OnSide (cones_of t.cones.now) t.dz.now t.z.now t.dual.now
        × OnSide (cones_of t.cones.now) t.ds.now t.s.now t.primal.now };

    ghost lent = { λ t. t.dual.ghost_name ∷ (t.primal.ghost_name ∷ []) };

    ghost point = { λ t. t.dual.now ++ t.primal.now };

    // The dual point is written and tested, and the primal one where every cone passes on that.
    fn at(&mut self, alpha: f64) -> Tested {
        let dual = &mut *self.dual;
        put_trial(self.z, self.dz, alpha, dual);
        let first = test_cones(self.cones, false, dual);
        if !first.all {
            return first;
        }
        let primal = &mut *self.primal;
        put_trial(self.s, self.ds, alpha, primal);
        let second = test_cones(self.cones, true, primal);
        Tested {
            all: second.all,
            count: first.count + second.count,
        }
    }

    fn back(&mut self) {
        store(self.dual, self.z);
        store(self.primal, self.s);
    }
}
