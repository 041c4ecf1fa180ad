// Entries of arrays, read one at a time, and comparisons of them.
ghost use Rattle.std.specs.Prelude.{◌≡◌, ◌<◌, ◌+◌, ◌↔◌, ◌≤ℤ◌, IsTrue, []};
ghost use Rattle.std.specs.Int.Signed.{◌<ℤ◌};
ghost use Rattle.loop_core.specs.Lists.{list_of, word_at};
ghost use Rattle.loop_core.specs.Terms.{term_value};
ghost use Rattle.index_props.specs.Meanings.{at};

use loop_core::arrays::Arrays;
use loop_core::env::Variables;
use loop_core::nest::{Term, VarId};
use loop_core::terms::eval;
use std::sync::ledger::Ledger;
use wave_base::steps::Steps;
use wave_base::types::ArrayId;

// Variables of which none has a value.
#[derive(Clone, Copy)]
struct Unbound;

impl Variables for Unbound {
    ghost use Rattle.std.specs.Prelude.{[]};

    ghost bound_to = { λ _. [] };

    fn value(&self, _var: VarId) -> i128 {
        0
    }
}

/// The value of a bound, where no variable has one. It takes no memory.
pub fn bound<L: Ledger>(arrays: &Arrays, term: &Term, steps: &mut Steps<L>) -> i128
    ensures { result ≡ term_value arrays.now [] term.now }
{
    eval(term, &Unbound, arrays, steps)
}

/// The entry at a place, and 0 past the end. It takes no memory.
pub fn value_at<L: Ledger>(arrays: &Arrays, f: ArrayId, place: u64, steps: &mut Steps<L>) -> i128
    ensures { result ≡ at (list_of arrays.now.lists f) place }
{
    arrays.at(f, place as i128, steps) as i128
}

/// The entry at any number, and 0 outside the list. It takes no memory.
pub fn word_of<L: Ledger>(arrays: &Arrays, f: ArrayId, place: i128, steps: &mut Steps<L>) -> i128
    ensures { result ≡ word_at (list_of arrays.now.lists f) place }
{
    arrays.at(f, place, steps) as i128
}

/// The entry at the next place, and 0 past the end. It takes no memory.
pub fn value_after<L: Ledger>(arrays: &Arrays, f: ArrayId, place: u64, steps: &mut Steps<L>) -> i128
    ensures { result ≡ at (list_of arrays.now.lists f) (place + 1) }
{
    arrays.at(f, place as i128 + 1, steps) as i128
}

/// Whether a place of so many has a next one. It takes no memory.
pub fn has_next(many: u64, place: u64) -> bool
    ensures { IsTrue result ↔ (place + 1 < many) }
{
    place < many && place + 1 < many
}

/// Whether a number is at most another. It takes no memory.
pub fn is_at_most(x: i128, y: i128) -> bool
    ensures { IsTrue result ↔ (x ≤ℤ y) }
{
    x <= y
}

/// Whether a number is below another. It takes no memory.
pub fn is_less(x: i128, y: i128) -> bool
    ensures { IsTrue result ↔ (x <ℤ y) }
{
    x < y
}

/// Whether two numbers are equal. It takes no memory.
pub fn is_equal(x: i128, y: i128) -> bool
    ensures { IsTrue result ↔ (x ≡ y) }
{
    x == y
}
