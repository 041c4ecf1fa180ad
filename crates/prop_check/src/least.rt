// The search for the least place that fails a test.
ghost use Rattle.std.specs.Prelude.{◌<◌, ◌+◌, ◌^◌, ◌↔◌, ℕ, IsTrue, IfSome};
ghost use Rattle.prop_check.specs.Finds.{Finds};

use loop_core::arrays::Arrays;
use std::sync::ledger::Ledger;
use wave_base::steps::Steps;

/// A test of places, of which only those below a number can fail.
pub trait Test {
    ghost use Rattle.std.specs.Prelude.{ℕ};
    ghost use Rattle.loop_core.specs.Lists.{Lists};

    ghost is_bad: { Self → Lists → ℕ → Type 0 };

    /// A number above all places that fail.
    fn many(&self, arrays: &Arrays) -> u64
        ensures { (k : ℕ) → is_bad self.now arrays.now k → k < result };

    /// Whether a place fails.
    fn fails<L: Ledger>(&self, place: u64, arrays: &Arrays, steps: &mut Steps<L>) -> bool
        ensures { IsTrue result ↔ is_bad self.now arrays.now place };
}

/// The least place that fails, in one pass.
pub fn least<T: Test, L: Ledger>(test: &T, arrays: &Arrays, steps: &mut Steps<L>) -> Option<u64>
    ensures least { Finds (T.is_bad test.now arrays.now) result }
    ensures small { IfSome result (λ n. n + 1 < 2 ^ 64) }
{
    let many = test.many(arrays);
    for place in 0..many {
        if test.fails(place, arrays, steps) {
            return Some(place);
        }
    }
    None
}
