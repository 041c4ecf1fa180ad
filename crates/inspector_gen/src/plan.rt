// The inspection plan of a relation.
ghost use Rattle.std.specs.Prelude.{◌≡◌, IfOk};
ghost use Rattle.loop_core.specs.Lists.{Lists};
ghost use Rattle.index_props.specs.Meanings.{Passes};
ghost use Rattle.index_props.specs.Sound.{IndexLengths};
ghost use Rattle.inspector_run.specs.IsPlan.{IsPlan};
ghost use Rattle.inspector_gen.specs.Made.{AreFacts, facts_of};
ghost use Rattle.inspector_gen.specs.Known.{Bounds, IsTable};
ghost use Rattle.inspector_gen.specs.Kinds.{Facts, kind_of as kind_by};
ghost use Rattle.inspector_gen.specs.Variables.{first_side_first as first_order, second_side_first as second_order};
ghost use Rattle.inspector_gen.specs.Plans.{cheaper as cheaper_of, emit as emit_of, plan_in, plan_of};
ghost use Rattle.inspector_gen.specs.Quick.{quick_plan_of};
ghost use Rattle.inspector_gen.specs.Own.{IsOwn, Inspects};

use crate::laws::{closures_have_tables, plans_inspect, quick_plans_inspect};
use crate::order::{is_cheaper, kinds};
use crate::steps::steps;
use crate::turn::quicker;
use crate::unknown::Unknown;
use crate::variables::{first_side_first, second_side_first};
use bound_close::closure::Closure;
use dep_extract::extract::sites;
use inspector_run::plan::{InspOp, InspPlan};
use loop_core::nest::{Nest, Side, VarId};
use sqlite_items::Items;
use std::alloc::Global;
use uf_constraints::system::Relation;
use wave_base::types::Memory;

// The cheaper of two orders, and the first where both cost the same.
fn cheaper(
    alloc: Global,
    nest: &Nest,
    closure: &Closure,
    first: Items<Unknown>,
    second: Items<Unknown>,
) -> Result<Items<Unknown>, Memory>
    ensures { IfOk result (λ order. (f : Facts) → AreFacts nest.now.decls nest.now.props closure.now f → order ≡ cheaper_of (kind_by f) first second) }
{
    let ahead = kinds(alloc, nest, closure, first.as_slice())?;
    let other = kinds(alloc, nest, closure, second.as_slice())?;
    if is_cheaper(other.as_slice(), ahead.as_slice()) {
        Ok(second)
    } else {
        Ok(first)
    }
}

/// The operation that ends each plan of a nest.
pub fn emit(nest: &Nest) -> InspOp
    ensures { result ≡ emit_of nest.now }
{
    InspOp::Emit {
        first: VarId {
            line: nest.line,
            side: Side::First,
        },
        second: VarId {
            line: nest.line,
            side: Side::Second,
        },
    }
}

// The cheaper order of a relation's variables.
fn order_of(
    alloc: Global,
    nest: &Nest,
    r: &Relation,
    closure: &Closure,
) -> Result<Items<Unknown>, Memory>
    ensures { IfOk result (λ order. (f : Facts) → AreFacts nest.now.decls nest.now.props closure.now f
        → order ≡ cheaper_of (kind_by f) (first_order nest.now r.now) (second_order nest.now r.now)) }
{
    let sites = sites(alloc, nest)?;
    let first = first_side_first(alloc, nest, sites.as_slice(), r)?;
    let second = second_side_first(alloc, nest, sites.as_slice(), r)?;
    Ok(cheaper(alloc, nest, closure, first, second)?)
}

// The plan that takes the variables in an order.
fn plan_along(
    alloc: Global,
    nest: &Nest,
    r: &Relation,
    closure: &Closure,
    order: &[Unknown],
) -> Result<InspPlan, Memory>
    ensures { IfOk result (λ plan. (f : Facts) → AreFacts nest.now.decls nest.now.props closure.now f
        → plan.ops ≡ plan_in (kind_by f) nest.now r.now order.now) }
{
    let mut ops = steps(alloc, nest, closure, r.base.as_slice(), order)?;
    ops.push(emit(nest))?;
    Ok(InspPlan { ops })
}

/// The inspection plan of a relation, by the closure of its system.
///
/// A variable that is a known term of those before it is given; one at which an entry is such a term is
/// found by an inverse list; one at which an array that rises passes such a term is located by a search;
/// any other is looped. Of the two orders of the sides the one with fewer loops is taken, then that with
/// fewer found and then with fewer located variables. Each constraint of the base is tested as soon as
/// its variables are fixed. Out of memory is the only refusal.
pub fn plan_for(
    alloc: Global,
    nest: &Nest,
    r: &Relation,
    closure: &Closure,
) -> Result<InspPlan, Memory>
    ensures plan { IfOk result (λ plan. (bounds : Bounds) → IsTable closure.now bounds → plan.ops ≡ plan_of nest.now (facts_of nest.now closure.now bounds) r.now) }
    ensures form { IfOk result (λ plan. IsOwn nest.now r.now closure.now → IsPlan plan.ops) }
    ensures pairs { IfOk result (λ plan. IsOwn nest.now r.now closure.now → (a : Lists) → IndexLengths nest.now.decls a → Passes nest.now.props a
        → Inspects nest.now r.now a plan.ops) }
{
    closures_have_tables();
    plans_inspect();
    let order = order_of(alloc, nest, r, closure)?;
    let plan = plan_along(alloc, nest, r, closure, order.as_slice())?;
    Ok(plan)
}

/// The quick inspection plan of a relation, by the closure of its system.
///
/// Its variables are taken one by one: the first, in the order in which `plan_for` takes them, that is
/// given, found or located by those taken already; where none is, the first that is left is looped.
/// Where it loops over no fewer variables than `plan_for`'s plan, it is that plan. Out of memory is the
/// only refusal.
pub fn quick_plan_for(
    alloc: Global,
    nest: &Nest,
    r: &Relation,
    closure: &Closure,
) -> Result<InspPlan, Memory>
    ensures plan { IfOk result (λ plan. (bounds : Bounds) → IsTable closure.now bounds → plan.ops ≡ quick_plan_of nest.now (facts_of nest.now closure.now bounds) r.now) }
    ensures form { IfOk result (λ plan. IsOwn nest.now r.now closure.now → IsPlan plan.ops) }
    ensures pairs { IfOk result (λ plan. IsOwn nest.now r.now closure.now → (a : Lists) → IndexLengths nest.now.decls a → Passes nest.now.props a
        → Inspects nest.now r.now a plan.ops) }
{
    closures_have_tables();
    quick_plans_inspect();
    let order = order_of(alloc, nest, r, closure)?;
    let quick = quicker(alloc, nest, closure, order)?;
    let plan = plan_along(alloc, nest, r, closure, quick.as_slice())?;
    Ok(plan)
}
