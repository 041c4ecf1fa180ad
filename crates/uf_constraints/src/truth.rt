// The truth of a constraint.
ghost use Rattle.std.specs.Prelude.{◌≡◌, ◌+◌, ◌^◌, ◌≤◌, ◌≤ℤ◌, ◌-ℤ◌, ◌↔◌, IsTrue, unsigned_abs};
ghost use Rattle.loop_core.specs.Terms.{atom_value, term_value, term_entries, atom_entries};
ghost use Rattle.uf_constraints.specs.Bindings.{AreWide};
ghost use Rattle.uf_constraints.specs.Truth.{Holds, diff_entries};

use crate::env::Env;
use crate::system::Diff;
use loop_core::arrays::Arrays;
use loop_core::nest::{Atom, Term};
use std::sync::ledger::Ledger;
use wave_base::steps::Steps;

/// Whether the constraint is true: the value of the first atom minus that of the second is at most
/// the right side.
///
/// Each variable has a value from -2^65 to 2^65, and 0 where none is listed. It takes a step for
/// each array entry written in the constraint, and no memory.
pub fn holds<L: Ledger>(diff: &Diff, env: &Env, arrays: &Arrays, steps: &mut Steps<L>) -> bool
    requires { AreWide env.now }
    ensures truth { IsTrue result ↔ Holds arrays.now env.now diff.now }
    ensures cost { steps.new ≡ steps.old + diff_entries diff.now }
{
    let left = value_of_atom(&diff.a, env, arrays, steps);
    let right = value_of_atom(&diff.b, env, arrays, steps);
    is_within(left, right, diff.c)
}

// Whether one value is at most so much above another.
fn is_within(left: i128, right: i128, limit: i64) -> bool
    requires left { unsigned_abs left ≤ 2 ^ 65 }
    requires right { unsigned_abs right ≤ 2 ^ 65 }
    ensures { IsTrue result ↔ ((left -ℤ right) ≤ℤ limit) }
{
    left - right <= limit as i128
}

#[cycle(value)]
fn value_of_term<L: Ledger>(term: &Term, env: &Env, arrays: &Arrays, steps: &mut Steps<L>) -> i128
    requires { AreWide env.now }
    ensures value { result ≡ term_value arrays.now env.now term.now }
    ensures within { unsigned_abs result ≤ 2 ^ 65 + 2 ^ 63 }
    ensures cost { steps.new ≡ steps.old + term_entries term.now }
{
    value_of_atom(&term.atom, env, arrays, steps) + term.plus as i128
}

#[cycle(value)]
fn value_of_atom<L: Ledger>(atom: &Atom, env: &Env, arrays: &Arrays, steps: &mut Steps<L>) -> i128
    requires { AreWide env.now }
    ensures value { result ≡ atom_value arrays.now env.now atom.now }
    ensures within { unsigned_abs result ≤ 2 ^ 65 }
    ensures cost { steps.new ≡ steps.old + atom_entries atom.now }
{
    match atom {
        Atom::Zero => 0,
        Atom::N => arrays.n() as i128,
        Atom::Nnz => arrays.nnz() as i128,
        Atom::Var(var) => env.value(*var),
        Atom::At(array, inner) => {
            let at = value_of_term(inner.get(), env, arrays, steps);
            arrays.at(*array, at, steps) as i128
        }
    }
}
