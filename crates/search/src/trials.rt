// 003's loop, for any trial, and what it asks of one. The laws of the search, for any test of a point, are in specs/trials and
// proofs/trials.
ghost use Rattle.std.specs.Prelude.{◌≡◌, List, true, Float};
ghost use Rattle.std.specs.Borrow.{GName};
ghost use Rattle.judges.specs.Judges.{settings_finite, settings_ok};
ghost use Rattle.search.specs.trials.Search.{outcome};
ghost use Rattle.search.specs.trials.Costed.{costed_of};
ghost use Rattle.search.specs.trials.Asked.{Trials, Costs, tested_at, searched_with};

use crate::Searched;
use cone::Settings;

// What the test of a trial found: whether it passed, and how many single tests that took.
#[derive(Clone, Copy)]
pub struct Tested {
    pub all: bool,
    pub count: u32,
}

// A trial writes its points into lent slices and tests them. To the laws they are one point, with one test.
pub(crate) trait Trial {
    ghost about: { Self → Trials };

    // its slices are as long as they have to be
    ghost sound: { Self → Type 0 };

    // Which slices are lent. They stay the same, so that the lender knows what was written.
    ghost lent: { Self → List GName };

    ghost point: { Self → List Float };

    fn at(&mut self, alpha: f64) -> Tested
        requires { sound self.old }
        ensures sound { sound self.new }
        ensures lent { lent self.new ≡ lent self.old }
        ensures about { about self.new ≡ about self.old }
        ensures tested { result ≡ tested_at (about self.old) alpha }
        ensures point { result.all ≡ true → point self.new ≡ (about self.old).point_at alpha };

    // No trial passed: the points are those of step zero.
    fn back(&mut self)
        requires { sound self.old }
        ensures lent { lent self.new ≡ lent self.old }
        ensures point { point self.new ≡ (about self.old).q };
}

// 003 backtrack_search. The start is always tried; a trial that is below the smallest step is not.
pub(crate) fn search<T: Trial>(trial: &mut T, how: Settings) -> Searched
    requires sound { T.sound trial.old }
    requires costs { Costs (T.about trial.old) }
    requires finite { settings_finite how ≡ true }
    requires good { settings_ok how ≡ true }
    ensures lent { T.lent trial.new ≡ T.lent trial.old }
    ensures found { outcome result.step result.count (T.point trial.new)
        ≡ costed_of (searched_with (T.about trial.old) how) }
{
    let mut alpha = how.start;
    let mut count: u32 = 0;

    loop {
        // point = q + α*dq
        let tested = trial.at(alpha);
        count += tested.count;

        if tested.all {
            break;
        }
        alpha *= how.step;
        if alpha < how.smallest {
            alpha = 0.0;
            trial.back();
            break;
        }
    }
    Searched { step: alpha, count }
}
