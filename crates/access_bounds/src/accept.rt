// Acceptance.
ghost use Rattle.std.specs.Prelude.{◌≡◌, IfOk, IfErr, OnOk};
ghost use Rattle.loop_core.specs.IsNest.{IsNest};
ghost use Rattle.props_once.specs.Repeats.{without_repeats as each_once};
ghost use Rattle.access_bounds.specs.Accepted.{IsAccepted, IsAcceptedBy, IsCause, IsCauseBy};

use crate::counting::{count_relations, universes};
use crate::first::first_unbounded;
use crate::refusal::BoundsRefusal;
use bracket_claims::laws::systems_are_small;
use bracket_claims::listing::claims;
use dep_extract::extract::relations;
use loop_core::decl::PropDecl;
use loop_core::nest::Nest;
use props_once::laws::conditions_carry_over;
use props_once::once::without_repeats;
use rule_laws::laws::nest_meets_conditions;
use std::alloc::Global;
use std::marker::Model;

/// A nest of which each system of constraints has at most 96 atoms and each bracket is bounded.
#[derive(Drop)]
pub struct Accepted {
    nest: Nest,
}

impl Model for Accepted {
    ghost use Rattle.loop_core.specs.declared.nest.Nest.{Nest};
    ghost use Rattle.loop_core.specs.contracts.nest.Nest as a_nest;
    ghost use Rattle.loop_core.specs.IsNest.{IsNest};
    ghost use Rattle.access_bounds.specs.Accepted.{IsAccepted};

    ghost Value = { Nest };

    ghost coded = { a_nest.the_row.coded };

    ghost view = { λ a. a.nest };

    ghost invariant = { λ a. IsNest a.nest × IsAccepted a.nest };
}

impl Accepted {
    /// The nest. It takes no memory.
    pub fn nest(&self) -> &Nest
        ensures nest { result.now ≡ self.now }
        ensures is_nest { IsNest self.now }
        ensures accepted { IsAccepted self.now }
    {
        &self.nest
    }
}

/// Accepts a nest of which each system of constraints has at most 96 atoms and each bracket is
/// bounded: where its line may be reached, `0 <= t` and `t < len f` follow from the loops and guards
/// round it by the declared properties. All systems are counted before any is closed.
///
/// `TermsFull` names the first system that has more, those of brackets before those of relations;
/// `Unbounded` the first bracket that isn't bounded, low before high.
pub fn accept(alloc: Global, nest: Nest) -> Result<Accepted, BoundsRefusal>
    requires { IsNest nest }
    ensures nest { IfOk result (λ a. a ≡ nest) }
    ensures accepted { IfOk result (λ a. IsAccepted nest) }
    ensures refused { IfErr result (IsCause nest) }
{
    let props = without_repeats(alloc, nest.props.as_slice())?;
    judge(alloc, &nest, props.as_slice())?;
    Ok(Accepted { nest })
}

// Acceptance by the properties without repeats.
fn judge(alloc: Global, nest: &Nest, props: &[PropDecl]) -> Result<(), BoundsRefusal>
    requires nest { IsNest nest.now }
    requires props { props.now ≡ each_once nest.now.props }
    ensures accepted { OnOk result (IsAcceptedBy nest.now props.now) }
    ensures refused { IfErr result (IsCauseBy nest.now props.now) }
{
    systems_are_small();
    nest_meets_conditions();
    conditions_carry_over();
    let claims = claims(alloc, nest)?;
    let universes = universes(alloc, claims.as_slice(), props)?;
    let relations = relations(alloc, nest)?;
    count_relations(alloc, relations.as_slice(), props)?;
    first_unbounded(
        alloc,
        nest.decls.as_slice(),
        props,
        claims.as_slice(),
        universes.as_slice(),
    )
}
