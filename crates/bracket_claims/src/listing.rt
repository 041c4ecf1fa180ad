// The claims of a nest's brackets.
ghost use Rattle.std.specs.Prelude.{◌≡◌, [], ◌∷◌, ◌++◌, IfOk, OnOk};
ghost use Rattle.index_props.specs.Entries.{length_term};
ghost use Rattle.bracket_claims.specs.Claims.{claim as claim_of, claims_on, claims as claims_of};

use crate::claim::Claim;
use dep_extract::bases::{bracket_base, on};
use dep_extract::walk::spots;
use index_props::entry::Entry;
use loop_core::copies::copy_term;
use loop_core::decl::Decl;
use loop_core::nest::{Atom, Nest, Side, Term};
use sqlite_items::Items;
use std::alloc::Global;
use uf_constraints::reach::{Bracket, Spot};
use wave_base::types::{ArrayId, Memory};

/// The claims of all brackets, line by line and on a line from left to right.
pub fn claims(alloc: Global, nest: &Nest) -> Result<Items<Claim>, Memory>
    ensures { IfOk result (λ claims. claims ≡ claims_of nest.now) }
{
    let spots = spots(alloc, nest)?;
    let mut claims = Items::new(alloc);
    for spot in spots.as_slice() {
        push_claims(alloc, nest, spot, &mut claims)?;
    }
    Ok(claims)
}

fn push_claims(
    alloc: Global,
    nest: &Nest,
    spot: &Spot,
    into: &mut Items<Claim>,
) -> Result<(), Memory>
    ensures { OnOk result (into.new ≡ into.old ++ claims_on nest.now spot.now) }
{
    for bracket in spot.brackets.as_slice() {
        into.push(claim(alloc, nest, spot, bracket)?)?;
    }
    Ok(())
}

fn claim(alloc: Global, nest: &Nest, spot: &Spot, bracket: &Bracket) -> Result<Claim, Memory>
    ensures { IfOk result (λ c. c ≡ claim_of nest.now spot.now bracket.now) }
{
    let base = bracket_base(alloc, nest, spot)?;
    let at = on(alloc, Side::Own, &bracket.at)?;
    let extent = extent(alloc, nest.decls.as_slice(), bracket.array)?;
    Ok(Claim {
        line: spot.line,
        bracket: bracket.number,
        base,
        at,
        extent,
    })
}

// The length of an array as a term.
fn extent(alloc: Global, decls: &[Decl], array: ArrayId) -> Result<Term, Memory>
    ensures { IfOk result (λ t. t ≡ length_term decls.now array) }
{
    let zero = Term {
        atom: Atom::Zero,
        plus: 0,
    };
    let entry = Entry::of(alloc, decls, array, zero)?;
    let extent = copy_term(alloc, entry.extent())?;
    Ok(extent)
}
