// The operations of the variables of an order, with their tests.
ghost use Rattle.std.specs.Prelude.{◌≡◌, ◌++◌, ◌∷◌, [], OnOk, IfOk};
ghost use Rattle.inspector_gen.specs.Made.{AreFacts};
ghost use Rattle.inspector_gen.specs.Kinds.{Facts, kind_of as kind_by};
ghost use Rattle.inspector_gen.specs.Plans.{operation as op_of, steps as steps_of, tests_due};

use crate::kind::Kind;
use crate::operations::operation;
use crate::order::kind_of;
use crate::tests::push_tests;
use crate::unknown::Unknown;
use bound_close::closure::Closure;
use inspector_run::plan::InspOp;
use loop_core::nest::{Nest, VarId};
use sqlite_items::Items;
use std::alloc::Global;
use uf_constraints::system::Diff;
use wave_base::types::Memory;

/// Puts the operation of a variable of a kind at the end, which is fixed from then on, and the tests
/// that are due.
pub fn push_operation(
    alloc: Global,
    base: &[Diff],
    u: &Unknown,
    kind: Kind,
    fixed: &mut Vec<VarId>,
    ops: &mut Items<InspOp>,
) -> Result<(), Memory>
    ensures fixed { OnOk result (fixed.new.items ≡ fixed.old.items ++ u.now.var ∷ []) }
    ensures ops { OnOk result (ops.new
        ≡ ops.old ++ op_of fixed.old.items u.now kind ∷ tests_due base.now fixed.old.items (fixed.old.items ++ u.now.var ∷ [])) }
{
    let op = operation(alloc, fixed.as_slice(), u, kind)?;
    ops.push(op)?;
    let earlier = fixed.len();
    fixed.push(u.var)?;
    push_tests(alloc, base, &fixed[..earlier], fixed.as_slice(), ops)
}

fn push_step(
    alloc: Global,
    nest: &Nest,
    closure: &Closure,
    base: &[Diff],
    u: &Unknown,
    fixed: &mut Vec<VarId>,
    ops: &mut Items<InspOp>,
) -> Result<(), Memory>
    ensures fixed { OnOk result (fixed.new.items ≡ fixed.old.items ++ u.now.var ∷ []) }
    ensures ops { OnOk result ((f : Facts) → AreFacts nest.now.decls nest.now.props closure.now f → ops.new
        ≡ ops.old ++ op_of fixed.old.items u.now (kind_by f fixed.old.items u.now.var) ∷ tests_due base.now fixed.old.items (fixed.old.items ++ u.now.var ∷ [])) }
{
    let kind = kind_of(alloc, nest, closure, fixed.as_slice(), u.var)?;
    push_operation(alloc, base, u, kind, fixed, ops)
}

/// The operations of the variables of an order, each after those that come earlier.
pub fn steps(
    alloc: Global,
    nest: &Nest,
    closure: &Closure,
    base: &[Diff],
    order: &[Unknown],
) -> Result<Items<InspOp>, Memory>
    ensures { IfOk result (λ ops. (f : Facts) → AreFacts nest.now.decls nest.now.props closure.now f → ops ≡ steps_of (kind_by f) base.now [] order.now) }
{
    let mut fixed = Vec::new(alloc);
    let mut ops = Items::new(alloc);
    for u in order {
        push_step(alloc, nest, closure, base, u, &mut fixed, &mut ops)?;
    }
    Ok(ops)
}
