// 003: the step search along a direction of one cone. Module `plan` has the search of a list of cones, `trials` the loop of both, for any
// test of a point.
#![tactic(auto)]

ghost use Rattle.std.specs.Prelude.{◌≡◌, length, [], ◌∷◌};
ghost use Rattle.search.specs.trials.Search.{outcome, search_of};
ghost use Rattle.search.specs.Points.{trial_point};
ghost use Rattle.search.specs.Problems.{problem_of, cone_trials, Searchable};

use cone::{Cone, Found, Settings};
use judges::refusal::store;
use kinds::passes;
use trials::{Tested, Trial, search};

pub mod plan;
pub mod trials;

// The step, zero where no allowed trial passed, and how many points were tested.
#[derive(Clone, Copy)]
pub struct Searched {
    pub step: f64,
    pub count: u32,
}

impl From<Searched> for Found {
    ghost from_gives = { λ searched found. found
        ≡ record { code = 0; count = searched.count; step = searched.step } };

    fn from(searched: Searched) -> Found {
        Found {
            code: 0,
            count: searched.count,
            step: searched.step,
        }
    }
}

// Writes q + alpha * dq into point.
pub(crate) fn put_trial(q: &[f64], dq: &[f64], alpha: f64, point: &mut [f64])
    requires { (length dq.now ≡ length q.now) × (length point.old ≡ length q.now) }
    ensures { point.new ≡ trial_point q.now dq.now alpha }
{
    for (i, (x, dx)) in q.iter().zip(dq).enumerate() {
        point[i] = *x + alpha * *dx;
    }
}

// find the maximum step length α≥0 so that
// q + α*dq stays in an exponential or power
// cone, or their respective dual cones.
//
// The point that was tested is handed back in the lent slice, q itself with step zero. A point that overflows is tested like any other.
pub fn backtrack_search(
    cone: &Cone,
    primal: bool,
    dq: &[f64],
    q: &[f64],
    how: Settings,
    point: &mut [f64],
) -> Searched
    requires { Searchable dq.now q.now how point.old }
    ensures { outcome result.step result.count point.new
        ≡ search_of (problem_of cone.now primal dq.now q.now how) }
{
    let mut trial = OneCone {
        cone,
        primal,
        dq,
        q,
        point,
    };
    search(&mut trial, how)
}

// A trial of one cone is one test.
#[derive(Drop)]
struct OneCone<'a> {
    cone: &'a Cone,
    primal: bool,
    dq: &'a [f64],
    q: &'a [f64],
    point: &'a mut [f64],
}

impl Trial for OneCone<'_> {
    ghost about = { λ t. cone_trials t.cone.now t.primal t.dq.now t.q.now };

    ghost sound = { λ t. (length t.dq.now ≡ length t.q.now) × (length t.point.now ≡ length t.q.now) };

    ghost lent = { λ t. t.point.ghost_name ∷ [] };

    ghost point = { λ t. t.point.now };

    fn at(&mut self, alpha: f64) -> Tested {
        let point = &mut *self.point;
        put_trial(self.q, self.dq, alpha, point);
        Tested {
            all: passes(self.cone, self.primal, point),
            count: 1,
        }
    }

    fn back(&mut self) {
        store(self.point, self.q);
    }
}
