// What an operation tries, with its ticks.
ghost use Rattle.std.specs.Prelude.{◌≡◌, ◌+◌, ◌^◌, ◌≤◌, ◌∷◌, [], ℕ, length, unsigned_abs};
ghost use Rattle.loop_core.specs.Lists.{list_of};
ghost use Rattle.loop_core.specs.Terms.{term_value, term_entries};
ghost use Rattle.loop_core.specs.Variables.{bindings};
ghost use Rattle.inspector_run.specs.Left.{left};
ghost use Rattle.inspector_run.specs.Tries.{numbers_between, places_of, place_up_to, last_place, moved};
ghost use Rattle.inspector_run.specs.Ticks.{digits};
ghost use Rattle.inspector_run.specs.Ready.{AreHeld, AreNear, IsAscending};
ghost use Rattle.inspector_run.specs.Inverses.{Serve};

use crate::inverse::{Inverse, equal_in};
use crate::locate::count_up_to;
use crate::tries::Tries;
use crate::value::value_of;
use loop_core::arrays::Arrays;
use loop_core::env::Env;
use loop_core::nest::Term;
use std::sync::ledger::Ledger;
use wave_base::steps::Steps;
use wave_base::types::ArrayId;

/// Each number from one term's value up to but not including another's.
pub fn between<L: Ledger>(
    lo: &Term,
    hi: &Term,
    env: &Env<'_>,
    arrays: &Arrays,
    steps: &mut Steps<L>,
) -> Tries<'static>
    requires held { AreHeld (bindings env.now) }
    requires low { unsigned_abs lo.now.plus ≤ 2 ^ 31 }
    requires high { unsigned_abs hi.now.plus ≤ 2 ^ 31 }
    ensures values { left result ≡ numbers_between (term_value arrays.now (bindings env.now) lo.now) (term_value arrays.now (bindings env.now) hi.now) }
    ensures near { AreNear (length (bindings env.now)) (left result) }
    ensures cost { steps.new ≡ steps.old + (term_entries lo.now + term_entries hi.now) }
{
    let next = value_of(lo, env, arrays, steps);
    let end = value_of(hi, env, arrays, steps);
    Tries::Between { next, end }
}

/// The term's value alone.
pub fn alone<L: Ledger>(
    term: &Term,
    env: &Env<'_>,
    arrays: &Arrays,
    steps: &mut Steps<L>,
) -> Tries<'static>
    requires held { AreHeld (bindings env.now) }
    requires small { unsigned_abs term.now.plus ≤ 2 ^ 31 }
    ensures values { left result ≡ term_value arrays.now (bindings env.now) term.now ∷ [] }
    ensures near { AreNear (length (bindings env.now)) (left result) }
    ensures cost { steps.new ≡ steps.old + term_entries term.now }
{
    only(value_of(term, env, arrays, steps))
}

// One value.
#[tactic(auto, using(crate::proofs::Near::number_alone))]
fn only(value: i128) -> Tries<'static>
    requires { unsigned_abs value ≤ 2 ^ 66 }
    ensures { left result ≡ value ∷ [] }
{
    Tries::Between {
        next: value,
        end: value + 1,
    }
}

/// The places of an array whose entry is the term's value, less a constant.
pub fn found<'a, L: Ledger>(
    array: ArrayId,
    plus: i64,
    term: &Term,
    env: &Env<'_>,
    arrays: &Arrays,
    inverses: &'a [Inverse],
    steps: &mut Steps<L>,
) -> Tries<'a>
    requires held { AreHeld (bindings env.now) }
    requires small { unsigned_abs plus ≤ 2 ^ 31 }
    requires served { Serve arrays.now inverses.now (array ∷ []) }
    ensures values { left result ≡ moved plus (places_of (list_of arrays.now.lists array) (term_value arrays.now (bindings env.now) term.now)) }
    ensures near { AreNear (length (bindings env.now)) (left result) }
    ensures cost { steps.new ≡ steps.old + term_entries term.now }
{
    let value = value_of(term, env, arrays, steps);
    let places = equal_in(inverses, array, value);
    Tries::At { places, plus }
}

/// The greatest place of an array with a place after it whose entry is at most the term's value, less
/// a constant.
pub fn located<L: Ledger>(
    array: ArrayId,
    plus: i64,
    term: &Term,
    env: &Env<'_>,
    arrays: &Arrays,
    steps: &mut Steps<L>,
) -> Tries<'static>
    requires held { AreHeld (bindings env.now) }
    requires small { unsigned_abs plus ≤ 2 ^ 31 }
    requires ascending { IsAscending (list_of arrays.now.lists array) }
    ensures values { left result ≡ moved plus (place_up_to (list_of arrays.now.lists array) (term_value arrays.now (bindings env.now) term.now)) }
    ensures near { AreNear (length (bindings env.now)) (left result) }
    ensures cost { steps.new ≤ steps.old + (term_entries term.now + (digits (length (list_of arrays.now.lists array)) + 2)) }
{
    let value = value_of(term, env, arrays, steps);
    let count = count_up_to(array, value, arrays, steps);
    last_of(count, plus)
}

// The last of so many places, less a constant.
fn last_of(count: u64, plus: i64) -> Tries<'static>
    requires { unsigned_abs plus ≤ 2 ^ 31 }
    ensures values { left result ≡ moved plus (last_place count) }
    ensures near { (k : ℕ) → AreNear k (left result) }
{
    if count == 0 {
        Tries::Between { next: 0, end: 0 }
    } else {
        only(count as i128 - 1 - plus as i128)
    }
}
