// The plain plan of a relation, in which every variable is looped. It says what the others have to
// give, in a body that knows nothing of what follows from a base.
ghost use Rattle.std.specs.Prelude.{◌≡◌, ◌++◌, ◌∷◌, [], IfOk, OnOk};
ghost use Rattle.std.specs.List.{Contains};
ghost use Rattle.loop_core.specs.Lists.{Lists};
ghost use Rattle.loop_core.specs.IsNest.{IsNest};
ghost use Rattle.uf_constraints.specs.Relations.{relations};
ghost use Rattle.inspector_run.specs.IsPlan.{IsPlan};
ghost use Rattle.inspector_gen.specs.Plans.{steps as steps_of};
ghost use Rattle.inspector_gen.specs.Plain.{looped, plain_plan_of};
ghost use Rattle.inspector_gen.specs.Own.{Inspects};

use crate::kind::Kind;
use crate::laws::plain_plans_inspect;
use crate::plan::emit;
use crate::steps::push_operation;
use crate::unknown::Unknown;
use crate::variables::first_side_first;
use dep_extract::extract::sites;
use inspector_run::plan::{InspOp, InspPlan};
use loop_core::nest::Nest;
use sqlite_items::Items;
use std::alloc::Global;
use uf_constraints::system::{Diff, Relation};
use wave_base::types::Memory;

fn looped_steps(alloc: Global, base: &[Diff], order: &[Unknown]) -> Result<Items<InspOp>, Memory>
    ensures { IfOk result (λ ops. ops ≡ steps_of looped base.now [] order.now) }
{
    let mut fixed = Vec::new(alloc);
    let mut ops = Items::new(alloc);
    for u in order {
        push_operation(alloc, base, u, Kind::Looped, &mut fixed, &mut ops)?;
    }
    Ok(ops)
}

/// The plan of a relation in which every variable is looped, the first side's before the second's.
///
/// It needs no closure, and finds the pairs of any arrays, in a time that is the product of all loops.
/// Out of memory is the only refusal.
pub fn plain_plan_for(alloc: Global, nest: &Nest, r: &Relation) -> Result<InspPlan, Memory>
    ensures plan { IfOk result (λ plan. plan.ops ≡ plain_plan_of nest.now r.now) }
    ensures form { IfOk result (λ plan. IsNest nest.now → Contains (relations nest.now) r.now → IsPlan plan.ops) }
    ensures pairs { IfOk result (λ plan. IsNest nest.now → Contains (relations nest.now) r.now → (a : Lists) → Inspects nest.now r.now a plan.ops) }
{
    plain_plans_inspect();
    let sites = sites(alloc, nest)?;
    let order = first_side_first(alloc, nest, sites.as_slice(), r)?;
    let mut ops = looped_steps(alloc, r.base.as_slice(), order.as_slice())?;
    ops.push(emit(nest))?;
    Ok(InspPlan { ops })
}
