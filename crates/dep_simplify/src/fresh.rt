// Verdicts on relations whose base is new.
ghost use Rattle.std.specs.Prelude.{◌≡◌, ◌<◌, ◌≤◌, ◌+◌, ◌^◌, length, IfOk};
ghost use Rattle.uf_constraints.specs.Constants.{IndexesWithin};
ghost use Rattle.uf_constraints.specs.Over.{AllOver, IsClosed};
ghost use Rattle.dep_simplify.specs.Ready.{IsReady, IsNext, IsFit};
ghost use Rattle.dep_simplify.specs.Systems.{atoms_of};

use crate::judge::judged;
use crate::verdict::Verdict;
use bound_close::laws::instances_can_be_closed;
use index_props::instances::instances;
use loop_core::decl::PropDecl;
use loop_core::nest::Nest;
use props_once::laws::{conditions_carry_over, the_same_is_derivable};
use rule_laws::laws::nest_meets_conditions;
use std::alloc::Global;
use uf_constraints::system::{Relation, Universe};
use uf_constraints::universe::{UniverseRefusal, universe};
use wave_base::types::Memory;

/// The verdict on the relation after those that have one, by the closure of its own system.
pub fn fresh(
    alloc: Global,
    nest: &Nest,
    props: &[PropDecl],
    relations: &[Relation],
    verdicts: &[Verdict],
) -> Result<Verdict, Memory>
    requires ready { IsReady nest.now props.now relations.now }
    requires left { length verdicts.now < length relations.now }
    ensures { IfOk result (IsNext nest.now verdicts.now) }
{
    nest_meets_conditions();
    conditions_carry_over();
    instances_can_be_closed();
    the_same_is_derivable();
    let relation = &relations[verdicts.len()];
    let u = universe_of(alloc, nest, relation)?;
    let rules = instances(alloc, &u, nest.decls.as_slice(), props)?;
    let base = relation.base.as_slice();
    judged(alloc, &u, base, rules.as_slice(), relations, verdicts)
}

fn universe_of(alloc: Global, nest: &Nest, relation: &Relation) -> Result<Universe, Memory>
    requires { IsFit nest.now relation.now }
    ensures atoms { IfOk result (λ u. u.atoms ≡ atoms_of nest.now relation.now) }
    ensures within { IfOk result (λ u. IndexesWithin (2 ^ 21 + 1) u.atoms) }
    ensures closed { IfOk result (λ u. IsClosed u.atoms) }
    ensures over { IfOk result (λ u. AllOver u.atoms relation.now.base) }
{
    match universe(alloc, relation.base.as_slice(), &[], nest.props.as_slice()) {
        Ok(u) => Ok(u),
        Err(UniverseRefusal::Memory) => Err(Memory),
        Err(UniverseRefusal::TermsFull { count: _ }) => unreachable!(),
    }
}
