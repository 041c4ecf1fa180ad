// The run of operations.
ghost use Rattle.std.specs.Prelude.{◌≡◌, ◌+◌, ◌*◌, ◌≤◌, ◌∷◌, ◌++◌, [], map, OnOk, MatchOption, true, if◌then◌else◌, pos, ◌≤ℤ◌, ◌<ℤ◌};
ghost use Rattle.std.specs.List.{flat_map};
ghost use Rattle.loop_core.specs.Variables.{bindings};
ghost use Rattle.loop_core.specs.Binding.{value_in};
ghost use Rattle.loop_core.specs.Instances.{natural};
ghost use Rattle.inspector_run.specs.Left.{left};
ghost use Rattle.inspector_run.specs.Pairs.{fixed as and_fixed, met, met_along, as_rows, IsEarlier, visits_after, visits_along};
ghost use Rattle.inspector_run.specs.Ticks.{each_visit, found_in};
ghost use Rattle.inspector_run.specs.Ready.{IsReady, AreReady};
ghost use Rattle.inspector_run.specs.Inverses.{Serve};

use crate::inverse::Inverse;
use crate::plan::InspOp;
use crate::tried::{alone, between, found, located};
use crate::tries::{Tries, next_of};
use crate::value::is_true;
use loop_core::arrays::Arrays;
use loop_core::env::{Env, Variables};
use loop_core::nest::VarId;
use std::sync::ledger::Ledger;
use wave_base::steps::Steps;
use wave_base::types::{Memory, RowId};

/// The first operation and those after it.
pub fn first_of(ops: &[InspOp]) -> Option<(&InspOp, &[InspOp])>
    ensures { MatchOption result (ops.entry.now ≡ []) (λ p. ops.entry.now ≡ p.0.now ∷ p.1.now) }
{
    match ops {
        [] => None,
        [op, after @ ..] => Some((op, after)),
    }
}

// One variable more.
fn fixed<'a>(var: VarId, value: i128, outer: &'a Env<'a>) -> Env<'a>
    ensures { bindings result ≡ and_fixed var value (bindings outer.now) }
{
    Env::Bind(var, value, outer)
}

/// Runs operations from these values of the variables: the pairs that they emit come to the end of
/// the list.
#[cycle(run)]
#[tactic(none)]
pub fn run<L: Ledger>(
    ops: &[InspOp],
    env: &Env<'_>,
    arrays: &Arrays,
    inverses: &[Inverse],
    pairs: &mut Vec<(RowId, RowId)>,
    steps: &mut Steps<L>,
) -> Result<(), Memory>
    requires ready { IsReady arrays.now ops.now (bindings env.now) }
    requires served { Serve arrays.now inverses.now (flat_map found_in ops.now) }
    ensures pairs { OnOk result (pairs.new.items ≡ pairs.old.items ++ map as_rows (met arrays.now ops.now (bindings env.now))) }
    ensures ticks { steps.new ≤ steps.old + (1 + visits_after arrays.now ops.now (bindings env.now)) * each_visit arrays.now ops.now }
{
    match first_of(ops) {
        None => Ok(()),
        Some((op, after)) => run_first(op, after, env, arrays, inverses, pairs, steps),
    }
}

// Runs one operation and those after it.
#[cycle(run)]
#[tactic(none)]
fn run_first<L: Ledger>(
    op: &InspOp,
    after: &[InspOp],
    env: &Env<'_>,
    arrays: &Arrays,
    inverses: &[Inverse],
    pairs: &mut Vec<(RowId, RowId)>,
    steps: &mut Steps<L>,
) -> Result<(), Memory>
    requires ready { IsReady arrays.now (op.now ∷ after.now) (bindings env.now) }
    requires served { Serve arrays.now inverses.now (flat_map found_in (op.now ∷ after.now)) }
    ensures pairs { OnOk result (pairs.new.items ≡ pairs.old.items ++ map as_rows (met arrays.now (op.now ∷ after.now) (bindings env.now))) }
    ensures ticks { steps.new ≤ steps.old + (1 + visits_after arrays.now (op.now ∷ after.now) (bindings env.now)) * each_visit arrays.now (op.now ∷ after.now) }
{
    match op {
        InspOp::Loop { var, lo, hi } => {
            let tries = between(lo, hi, env, arrays, steps);
            run_along(*var, tries, after, env, arrays, inverses, pairs, steps)
        }
        InspOp::Let { var, term } => {
            let tries = alone(term, env, arrays, steps);
            run_along(*var, tries, after, env, arrays, inverses, pairs, steps)
        }
        InspOp::Find {
            var,
            array,
            plus,
            term,
        } => {
            let tries = found(*array, *plus, term, env, arrays, inverses, steps);
            run_along(*var, tries, after, env, arrays, inverses, pairs, steps)
        }
        InspOp::Locate {
            var,
            array,
            plus,
            term,
        } => {
            let tries = located(*array, *plus, term, env, arrays, steps);
            run_along(*var, tries, after, env, arrays, inverses, pairs, steps)
        }
        InspOp::Test(diff) => {
            let holds = is_true(diff, env, arrays, steps);
            run_where(holds, after, env, arrays, inverses, pairs, steps)
        }
        InspOp::Emit { first, second } => {
            emit(*first, *second, env, arrays, pairs)?;
            run(after, env, arrays, inverses, pairs, steps)
        }
    }
}

// Runs the operations after a test where it holds.
#[cycle(run)]
#[tactic(none)]
fn run_where<L: Ledger>(
    holds: bool,
    after: &[InspOp],
    env: &Env<'_>,
    arrays: &Arrays,
    inverses: &[Inverse],
    pairs: &mut Vec<(RowId, RowId)>,
    steps: &mut Steps<L>,
) -> Result<(), Memory>
    requires ready { holds ≡ true → IsReady arrays.now after.now (bindings env.now) }
    requires served { Serve arrays.now inverses.now (flat_map found_in after.now) }
    ensures pairs { OnOk result (pairs.new.items ≡ pairs.old.items ++ map as_rows (if holds then met arrays.now after.now (bindings env.now) else [])) }
    ensures ticks { steps.new ≤ steps.old + (1 + (if holds then visits_after arrays.now after.now (bindings env.now) else 0)) * each_visit arrays.now after.now }
{
    if holds {
        run(after, env, arrays, inverses, pairs, steps)
    } else {
        Ok(())
    }
}

/// Runs operations for each value of a variable.
#[cycle(run)]
#[tactic(none)]
pub fn run_along<L: Ledger>(
    var: VarId,
    tries: Tries<'_>,
    after: &[InspOp],
    env: &Env<'_>,
    arrays: &Arrays,
    inverses: &[Inverse],
    pairs: &mut Vec<(RowId, RowId)>,
    steps: &mut Steps<L>,
) -> Result<(), Memory>
    requires ready { AreReady arrays.now after.now var (bindings env.now) (left tries) }
    requires served { Serve arrays.now inverses.now (flat_map found_in after.now) }
    ensures pairs { OnOk result (pairs.new.items ≡ pairs.old.items ++ map as_rows (met_along (met arrays.now after.now) var (bindings env.now) (left tries.entry))) }
    ensures ticks { steps.new ≤ steps.old + visits_along (visits_after arrays.now after.now) var (bindings env.now) (left tries.entry) * each_visit arrays.now after.now }
{
    let mut tries = tries;
    while let Some((value, rest)) = next_of(tries) {
        tries = rest;
        let inner = fixed(var, value, &*env);
        run(after, &inner, arrays, inverses, pairs, steps)?;
    }
    Ok(())
}

// Emits the pair of two variables' values.
fn emit(
    first: VarId,
    second: VarId,
    env: &Env<'_>,
    arrays: &Arrays,
    pairs: &mut Vec<(RowId, RowId)>,
) -> Result<(), Memory>
    requires { IsEarlier arrays.now.n (value_in (bindings env.now) first, value_in (bindings env.now) second) }
    ensures { OnOk result (pairs.new.items ≡ pairs.old.items ++ as_rows (value_in (bindings env.now) first, value_in (bindings env.now) second) ∷ []) }
{
    let n = arrays.n();
    let first = RowId(row(env.value(first), n));
    let second = RowId(row(env.value(second), n));
    pairs.push((first, second))?;
    Ok(())
}

// A value below the number of rows as a row's number.
fn row(value: i128, n: u32) -> u32
    requires low { pos 0 ≤ℤ value }
    requires high { value <ℤ pos n }
    ensures { result ≡ natural value }
{
    value as u32
}
