// The pairs of one relation.
ghost use Rattle.std.specs.Prelude.{◌≡◌, ◌≤◌, ◌+◌, ◌^◌, [], IfOk};
ghost use Rattle.std.specs.List.{Contains};
ghost use Rattle.loop_core.specs.Lists.{Lists};
ghost use Rattle.loop_core.specs.IsNest.{IsNest};
ghost use Rattle.uf_constraints.specs.Constants.{IndexesWithin};
ghost use Rattle.uf_constraints.specs.Over.{AllOver, IsClosed};
ghost use Rattle.uf_constraints.specs.Relations.{relations};
ghost use Rattle.index_props.specs.Meanings.{Passes};
ghost use Rattle.index_props.specs.Sound.{IndexLengths};
ghost use Rattle.inspector_run.specs.IsPlan.{IsPlan};
ghost use Rattle.inspector_gen.specs.Own.{Inspects};
ghost use Rattle.dep_simplify.specs.Ready.{IsFit};
ghost use Rattle.dep_simplify.specs.Systems.{atoms_of, IsDropped};
ghost use Rattle.loop_plan.specs.Kept.{ArePairsOf};

use bound_close::closure::close;
use bound_close::laws::instances_can_be_closed;
use index_props::instances::instances;
use inspector_gen::plan::quick_plan_for;
use inspector_run::plan::InspPlan;
use inspector_run::split::pairs_split;
use loop_core::arrays::Arrays;
use loop_core::nest::Nest;
use rule_laws::laws::nest_meets_conditions;
use std::alloc::Global;
use std::thread::Threads;
use uf_constraints::system::{Relation, Universe};
use uf_constraints::universe::{UniverseRefusal, universe};
use wave_base::types::{Memory, RowId};

/// The pairs of a relation of a nest that isn't dropped, in the order in which its plan finds them, with
/// repeats.
pub fn pairs_of<R: AllocGlobal + Threads + Sync>(
    rt: &R,
    nest: &Nest,
    relation: &Relation,
    arrays: &Arrays,
) -> Result<Vec<(RowId, RowId)>, Memory>
    requires is_nest { IsNest nest.now }
    requires listed { Contains (relations nest.now) relation.now }
    requires fit { IsFit nest.now relation.now }
    requires kept { IsDropped nest.now relation.now → ⊥ }
    requires lengths { IndexLengths nest.now.decls arrays.now }
    requires passes { Passes nest.now.props arrays.now }
    ensures { IfOk result (λ pairs. ArePairsOf nest.now arrays.now relation.now pairs.items) }
{
    let plan = inspection(rt.alloc(), nest, relation)?;
    pairs_split(rt, rt.alloc(), &plan, arrays)
}

// The plan of a relation, by the closure of its system.
fn inspection(alloc: Global, nest: &Nest, relation: &Relation) -> Result<InspPlan, Memory>
    requires is_nest { IsNest nest.now }
    requires listed { Contains (relations nest.now) relation.now }
    requires fit { IsFit nest.now relation.now }
    requires kept { IsDropped nest.now relation.now → ⊥ }
    ensures form { IfOk result (λ plan. IsPlan plan.ops) }
    ensures pairs { IfOk result (λ plan. (a : Lists) → IndexLengths nest.now.decls a → Passes nest.now.props a → Inspects nest.now relation.now a plan.ops) }
{
    nest_meets_conditions();
    instances_can_be_closed();
    let u = universe_of(alloc, nest, relation)?;
    let rules = instances(alloc, &u, nest.decls.as_slice(), nest.props.as_slice())?;
    let closure = close(alloc, &u, relation.base.as_slice(), rules.as_slice())?;
    quick_plan_for(alloc, nest, relation, &closure)
}

fn universe_of(alloc: Global, nest: &Nest, relation: &Relation) -> Result<Universe, Memory>
    requires { IsFit nest.now relation.now }
    ensures atoms { IfOk result (λ u. u.atoms ≡ atoms_of nest.now relation.now) }
    ensures within { IfOk result (λ u. IndexesWithin (2 ^ 21 + 1) u.atoms) }
    ensures closed { IfOk result (λ u. IsClosed u.atoms) }
    ensures over { IfOk result (λ u. AllOver u.atoms relation.now.base) }
{
    match universe(alloc, relation.base.as_slice(), &[], nest.props.as_slice()) {
        Ok(u) => Ok(u),
        Err(UniverseRefusal::Memory) => Err(Memory),
        Err(UniverseRefusal::TermsFull { count: _ }) => unreachable!(),
    }
}
