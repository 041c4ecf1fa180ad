// The values of terms and the truth of constraints, where at most 12 variables are fixed.
ghost use Rattle.std.specs.Prelude.{◌≡◌, ◌+◌, ◌^◌, ◌≤◌, ◌-ℤ◌, int_le, length, unsigned_abs};
ghost use Rattle.loop_core.specs.Lists.{entry};
ghost use Rattle.loop_core.specs.Terms.{atom_value, term_value, term_entries, atom_entries};
ghost use Rattle.loop_core.specs.Variables.{bindings};
ghost use Rattle.uf_constraints.specs.Truth.{diff_entries};
ghost use Rattle.inspector_run.specs.Tries.{is_true as truth};
ghost use Rattle.inspector_run.specs.Ready.{AreHeld, reach};

use loop_core::arrays::Arrays;
use loop_core::env::{Env, Variables};
use loop_core::nest::{Atom, Term};
use std::sync::ledger::Ledger;
use uf_constraints::system::Diff;
use wave_base::steps::Steps;
use wave_base::types::ArrayId;

/// The value of a term. It takes a step for each array entry written in the term, and no memory.
#[inline(always)]
pub fn value_of<L: Ledger>(
    term: &Term,
    env: &Env<'_>,
    arrays: &Arrays,
    steps: &mut Steps<L>,
) -> i128
    requires { AreHeld (bindings env.now) }
    ensures value { result ≡ term_value arrays.now (bindings env.now) term.now }
    ensures within { unsigned_abs result ≤ reach (length (bindings env.now)) + unsigned_abs term.now.plus }
    ensures cost { steps.new ≡ steps.old + term_entries term.now }
{
    value_of_atom(&term.atom, env, arrays, steps) + term.plus as i128
}

#[cycle(value)]
#[inline(always)]
fn value_of_atom<L: Ledger>(
    atom: &Atom,
    env: &Env<'_>,
    arrays: &Arrays,
    steps: &mut Steps<L>,
) -> i128
    requires { AreHeld (bindings env.now) }
    ensures value { result ≡ atom_value arrays.now (bindings env.now) atom.now }
    ensures within { unsigned_abs result ≤ reach (length (bindings env.now)) }
    ensures cost { steps.new ≡ steps.old + atom_entries atom.now }
{
    match atom {
        Atom::Zero => 0,
        Atom::N => arrays.n() as i128,
        Atom::Nnz => arrays.nnz() as i128,
        Atom::Var(var) => env.value(*var),
        Atom::At(array, inner) => entry_at(*array, inner.get(), env, arrays, steps),
    }
}

// The entry of an array at a term. Sizes and variables are read without a call.
#[cycle(value)]
#[inline(never)]
fn entry_at<L: Ledger>(
    array: ArrayId,
    place: &Term,
    env: &Env<'_>,
    arrays: &Arrays,
    steps: &mut Steps<L>,
) -> i128
    requires { AreHeld (bindings env.now) }
    ensures value { result ≡ entry arrays.now.lists array (term_value arrays.now (bindings env.now) place.now) }
    ensures within { unsigned_abs result ≤ reach (length (bindings env.now)) }
    ensures cost { steps.new ≡ steps.old + (term_entries place.now + 1) }
{
    let at = value_of_atom(&place.atom, env, arrays, steps) + place.plus as i128;
    arrays.at(array, at, steps) as i128
}

/// Whether a constraint is true. It takes a step for each array entry written in it, and no memory.
pub fn is_true<L: Ledger>(diff: &Diff, env: &Env<'_>, arrays: &Arrays, steps: &mut Steps<L>) -> bool
    requires { AreHeld (bindings env.now) }
    ensures truth { result ≡ truth arrays.now (bindings env.now) diff.now }
    ensures cost { steps.new ≡ steps.old + diff_entries diff.now }
{
    let left = value_of_atom(&diff.a, env, arrays, steps);
    let right = value_of_atom(&diff.b, env, arrays, steps);
    is_within(left, right, diff.c)
}

/// Whether one value is at most so much above another.
pub fn is_within(left: i128, right: i128, limit: i64) -> bool
    requires left { unsigned_abs left ≤ 2 ^ 65 }
    requires right { unsigned_abs right ≤ 2 ^ 65 }
    ensures { result ≡ int_le (left -ℤ right) limit }
{
    left - right <= limit as i128
}
