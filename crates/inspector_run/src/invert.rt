// The inverse lists that a plan asks for.
ghost use Rattle.std.specs.Prelude.{◌≡◌, ◌∷◌, [], ◌≤◌, ◌+◌, IfOk, MatchOption};
ghost use Rattle.std.specs.List.{flat_map, list_any};
ghost use Rattle.loop_core.specs.Shape.{same_array};
ghost use Rattle.inspector_run.specs.Inverses.{Serve};
ghost use Rattle.inspector_run.specs.Ticks.{found_in, found_arrays, different, listed};

use crate::inverse::Inverse;
use crate::plan::InspOp;
use crate::run::first_of;
use loop_core::arrays::Arrays;
use std::alloc::Global;
use std::sync::ledger::Ledger;
use wave_base::steps::Steps;
use wave_base::types::{ArrayId, Memory};

/// The inverse lists of the arrays of the `Find` operations, one for each different array.
pub fn invert<L: Ledger>(
    alloc: Global,
    ops: &[InspOp],
    arrays: &Arrays,
    steps: &mut Steps<L>,
) -> Result<Vec<Inverse>, Memory>
    ensures serves { IfOk result (λ inverses. Serve arrays.now inverses.items (flat_map found_in ops.now)) }
    ensures ticks { steps.new ≤ steps.old + listed arrays.now (found_arrays ops.now) }
{
    match first_of(ops) {
        None => Ok(Vec::new(alloc)),
        Some((op, after)) => {
            let inverses = invert(alloc, after, arrays, steps)?;
            match array_of(op) {
                Some(array) => with_inverse(alloc, array, after, inverses, arrays, steps),
                None => Ok(inverses),
            }
        }
    }
}

// The inverse lists with that of one array more, unless a later operation has it.
fn with_inverse<L: Ledger>(
    alloc: Global,
    array: ArrayId,
    after: &[InspOp],
    inverses: Vec<Inverse>,
    arrays: &Arrays,
    steps: &mut Steps<L>,
) -> Result<Vec<Inverse>, Memory>
    requires { Serve arrays.now inverses.items (flat_map found_in after.now) }
    ensures serves { IfOk result (λ inverses. Serve arrays.now inverses.items (array ∷ flat_map found_in after.now)) }
    ensures ticks { steps.new + listed arrays.now (found_arrays after.now) ≤ steps.old + listed arrays.now (different (array ∷ flat_map found_in after.now)) }
{
    if is_found(array, after) {
        return Ok(inverses);
    }
    let inverse = Inverse::of(alloc, array, arrays, steps)?;
    let mut inverses = inverses;
    inverses.push(inverse)?;
    Ok(inverses)
}

// Whether an operation finds in the array.
fn is_found(array: ArrayId, ops: &[InspOp]) -> bool
    ensures { result ≡ list_any (same_array array) (flat_map found_in ops.now) }
{
    match first_of(ops) {
        None => false,
        Some((op, after)) => finds_in(array, op) || is_found(array, after),
    }
}

fn finds_in(array: ArrayId, op: &InspOp) -> bool
    ensures { result ≡ list_any (same_array array) (found_in op.now) }
{
    match array_of(op) {
        Some(found) => array == found,
        None => false,
    }
}

// The array in which an operation finds.
fn array_of(op: &InspOp) -> Option<ArrayId>
    ensures { MatchOption result (found_in op.now ≡ []) (λ array. found_in op.now ≡ array ∷ []) }
{
    match op {
        InspOp::Find {
            var: _,
            array,
            plus: _,
            term: _,
        } => Some(*array),
        InspOp::Loop { .. } => None,
        InspOp::Let { .. } => None,
        InspOp::Locate { .. } => None,
        InspOp::Test(_) => None,
        InspOp::Emit { .. } => None,
    }
}
