// The first claim that doesn't follow.
ghost use Rattle.std.specs.Prelude.{◌≡◌, ◌<◌, ◌+◌, List, length, take, IfOk, OnOk, IfErr, MatchResult};
ghost use Rattle.std.specs.List.{All};
ghost use Rattle.loop_core.specs.declared.decl.Decl.{Decl};
ghost use Rattle.loop_core.specs.declared.decl.PropDecl.{PropDecl};
ghost use Rattle.index_props.specs.Sound.{AllNameIndexes};
ghost use Rattle.index_props.specs.Within.{AllBoundsWithin};
ghost use Rattle.bracket_claims.specs.declared.claim.Claim.{Claim};
ghost use Rattle.access_bounds.specs.Accepted.{IsBounded};
ghost use Rattle.access_bounds.specs.Judged.{AreUniverses, IsFirstRefuted};
ghost use Rattle.access_bounds.specs.Shared.{HaveOneSystem, IsSeen, IsSystemOf, IsFirstOf, IsSideIn, sooner_of};
ghost use Rattle.bracket_claims.specs.Small.{IsSmallClaim};

use crate::closing::{closure_of, unbounded_side};
use crate::refusal::{BoundsRefusal, Side2};
use crate::same::{have_one_system, is_seen};
use bound_close::closure::Closure;
use bracket_claims::claim::Claim;
use loop_core::decl::{Decl, PropDecl};
use std::alloc::Global;
use uf_constraints::system::Universe;
use wave_base::types::Memory;

/// A claim that isn't bounded, with its place, and the first side that it lacks.
#[derive(Clone, Copy)]
pub struct Found {
    pub place: usize,
    pub line: u16,
    pub bracket: u16,
    pub side: Side2,
}

/// Refuses the first claim that isn't bounded, low before high.
///
/// Claims of one system share its closure: it is made at the first of them, and all are looked at then.
pub fn first_unbounded(
    alloc: Global,
    decls: &[Decl],
    props: &[PropDecl],
    claims: &[Claim],
    universes: &[Universe],
) -> Result<(), BoundsRefusal>
    requires names { AllNameIndexes decls.now props.now }
    requires bounds { AllBoundsWithin props.now }
    requires small { All IsSmallClaim claims.now }
    requires universes { AreUniverses props.now claims.now universes.now }
    ensures bounded { OnOk result (All (IsBounded decls.now props.now) claims.now) }
    ensures first { IfErr result (IsFirstRefuted decls.now props.now claims.now) }
{
    let mut first = None;
    for place in 0..claims.len() {
        first = with_system_at(alloc, decls, props, claims, universes, place, first)?;
    }
    refusal(first)
}

// The first of the claims whose system stands at this place or before it.
fn with_system_at(
    alloc: Global,
    decls: &[Decl],
    props: &[PropDecl],
    claims: &[Claim],
    universes: &[Universe],
    place: usize,
    first: Option<Found>,
) -> Result<Option<Found>, Memory>
    requires names { AllNameIndexes decls.now props.now }
    requires bounds { AllBoundsWithin props.now }
    requires small { All IsSmallClaim claims.now }
    requires universes { AreUniverses props.now claims.now universes.now }
    requires place { place < length claims.now }
    requires first { IsFirstOf decls.now props.now claims.now (IsSeen (take place claims.now)) first }
    ensures { IfOk result (IsFirstOf decls.now props.now claims.now (IsSeen (take (place + 1) claims.now))) }
{
    let claim = &claims[place];
    if is_seen(&claims[..place], claim) {
        return Ok(first);
    }
    let closure = closure_of(alloc, decls, props, claim, &universes[place])?;
    Ok(sooner(first, first_of_system(&closure, claims, claim)))
}

// The first of the claims that have the system of a closure.
fn first_of_system(closure: &Closure, claims: &[Claim], lead: &Claim) -> Option<Found>
    ensures { (decls : List Decl) (props : List PropDecl) → IsSystemOf closure.now decls props lead.now
        → IsFirstOf decls props claims.now (HaveOneSystem lead.now) result }
{
    for (place, claim) in claims.iter().enumerate() {
        if let Some(side) = side_in_system(closure, lead, claim) {
            return Some(Found {
                place,
                line: claim.line,
                bracket: claim.bracket,
                side,
            });
        }
    }
    None
}

// The side that a claim lacks, where it has the system of the closure.
fn side_in_system(closure: &Closure, lead: &Claim, claim: &Claim) -> Option<Side2>
    ensures { (decls : List Decl) (props : List PropDecl) → IsSystemOf closure.now decls props lead.now
        → IsSideIn decls props lead.now claim.now result }
{
    if have_one_system(lead, claim) {
        unbounded_side(closure, claim)
    } else {
        None
    }
}

fn sooner(first: Option<Found>, other: Option<Found>) -> Option<Found>
    ensures { result ≡ sooner_of first other }
{
    let Some(found) = first else {
        return other;
    };
    let Some(second) = other else {
        return first;
    };
    if found.place <= second.place {
        Some(found)
    } else {
        Some(second)
    }
}

// What is answered where this is the first of all claims that isn't bounded.
fn refusal(first: Option<Found>) -> Result<(), BoundsRefusal>
    ensures { (decls : List Decl) (props : List PropDecl) (cs : List Claim) → IsFirstOf decls props cs (IsSeen cs) first
        → MatchResult result (λ done. All (IsBounded decls props) cs) (IsFirstRefuted decls props cs) }
{
    match first {
        None => Ok(()),
        Some(found) => Err(BoundsRefusal::Unbounded {
            line: u32::from(found.line),
            bracket: u32::from(found.bracket),
            side: found.side,
        }),
    }
}
