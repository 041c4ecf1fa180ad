// How many atoms the systems of constraints have.
ghost use Rattle.std.specs.Prelude.{◌≡◌, [], ◌∷◌, ◌++◌, List, length, map, OnOk, IfOk, IfErr};
ghost use Rattle.std.specs.List.{All};
ghost use Rattle.loop_core.specs.declared.nest.Atom.{Atom};
ghost use Rattle.uf_constraints.specs.Refusal.{IsCause as is_cause_of};
ghost use Rattle.bracket_claims.specs.Claims.{atoms_of, claim_size, relation_size, Fits};
ghost use Rattle.access_bounds.specs.Judged.{AreUniverses, IsTooLarge, IsFullAmong};
ghost use Rattle.bracket_claims.specs.Small.{IsSmallClaim, IsSmallBase};

use crate::refusal::BoundsRefusal;
use bracket_claims::claim::Claim;
use loop_core::decl::PropDecl;
use sqlite_items::Items;
use std::alloc::Global;
use std::slice::from_ref;
use uf_constraints::system::{Relation, Universe};
use uf_constraints::universe::{UniverseRefusal, universe};
use wave_base::types::Memory;

/// The universes of claims, in their order. `TermsFull` comes exactly where one has more than 96 atoms,
/// with the line of the first such claim.
pub fn universes(
    alloc: Global,
    claims: &[Claim],
    props: &[PropDecl],
) -> Result<Items<Universe>, BoundsRefusal>
    requires { All IsSmallClaim claims.now }
    ensures atoms { IfOk result (AreUniverses props.now claims.now) }
    ensures few { IfOk result (λ us. All Fits (map (claim_size props.now) claims.now)) }
    ensures full { IfErr result (IsFullAmong (map (claim_size props.now) claims.now)) }
{
    let mut universes = Items::new(alloc);
    for claim in claims {
        let u = claim_universe(alloc, claim, props)?;
        push(u, &mut universes)?;
    }
    Ok(universes)
}

fn push(u: Universe, into: &mut Items<Universe>) -> Result<(), Memory>
    ensures { OnOk result (into.new ≡ into.old ++ u ∷ []) }
{
    into.push(u)?;
    Ok(())
}

fn claim_universe(
    alloc: Global,
    claim: &Claim,
    props: &[PropDecl],
) -> Result<Universe, BoundsRefusal>
    requires { IsSmallClaim claim.now }
    ensures atoms { IfOk result (λ u. u.atoms ≡ atoms_of props.now claim.now) }
    ensures fits { IfOk result (λ u. Fits (claim_size props.now claim.now)) }
    ensures full { IfErr result (IsTooLarge (claim_size props.now claim.now)) }
{
    match universe(alloc, claim.base.as_slice(), from_ref(&claim.at), props) {
        Ok(found) => Ok(found),
        Err(refusal) => Err(at_line(refusal, claim.line)),
    }
}

/// Counts the atoms of the systems of relations. `TermsFull` comes exactly where one has more than 96,
/// with the line of the second reference of the first such relation.
pub fn count_relations(
    alloc: Global,
    relations: &[Relation],
    props: &[PropDecl],
) -> Result<(), BoundsRefusal>
    requires { All (λ r. IsSmallBase r.base) relations.now }
    ensures few { OnOk result (All Fits (map (relation_size props.now) relations.now)) }
    ensures full { IfErr result (IsFullAmong (map (relation_size props.now) relations.now)) }
{
    for relation in relations {
        let _ = relation_universe(alloc, relation, props)?;
    }
    Ok(())
}

fn relation_universe(
    alloc: Global,
    relation: &Relation,
    props: &[PropDecl],
) -> Result<Universe, BoundsRefusal>
    requires { IsSmallBase relation.now.base }
    ensures fits { IfOk result (λ u. Fits (relation_size props.now relation.now)) }
    ensures full { IfErr result (IsTooLarge (relation_size props.now relation.now)) }
{
    match universe(alloc, relation.base.as_slice(), &[], props) {
        Ok(found) => Ok(found),
        Err(refusal) => Err(at_line(refusal, relation.second.line)),
    }
}

// The refusal of a universe, with the line that is named.
fn at_line(refusal: UniverseRefusal, line: u16) -> BoundsRefusal
    ensures { (atoms : List Atom) → is_cause_of atoms refusal → IsTooLarge (record { line = line; atoms = length atoms }) result }
{
    match refusal {
        UniverseRefusal::TermsFull { count: _ } => BoundsRefusal::TermsFull {
            line: u32::from(line),
        },
        UniverseRefusal::Memory => BoundsRefusal::Memory,
    }
}
