// Entries, one at a time.
ghost use Rattle.std.specs.Prelude.{◌≡◌, ◌+◌, []};
ghost use Rattle.loop_core.specs.Lists.{list_of};
ghost use Rattle.loop_core.specs.Terms.{term_value};
ghost use Rattle.index_props.specs.Meanings.{at};

use loop_core::arrays::Arrays;
use loop_core::env::Env;
use loop_core::nest::Term;
use loop_core::terms::eval;
use std::sync::ledger::Ledger;
use wave_base::steps::Steps;
use wave_base::types::ArrayId;

/// The entry at a place, and 0 past the end.
pub fn entry_at<L: Ledger>(arrays: &Arrays, f: ArrayId, place: u64, steps: &mut Steps<L>) -> i64
    ensures { result ≡ at (list_of arrays.now.lists f) place }
{
    arrays.at(f, place as i128, steps)
}

/// The entry at the next place, and 0 past the end.
pub fn entry_after<L: Ledger>(arrays: &Arrays, f: ArrayId, place: u64, steps: &mut Steps<L>) -> i64
    ensures { result ≡ at (list_of arrays.now.lists f) (place + 1) }
{
    arrays.at(f, place as i128 + 1, steps)
}

/// The value of a bound, in which no variable stands.
pub fn bound<L: Ledger>(arrays: &Arrays, term: &Term, steps: &mut Steps<L>) -> i128
    ensures { result ≡ term_value arrays.now [] term.now }
{
    eval(term, &Env::Empty, arrays, steps)
}
