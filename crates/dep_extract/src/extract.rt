// The references of a nest to the arrays that it writes, and the relations between them.
ghost use Rattle.std.specs.Prelude.{◌≡◌, [], ◌++◌, map, IfOk, OnOk};
ghost use Rattle.std.specs.List.{flat_map};
ghost use Rattle.uf_constraints.specs.Relations.{reads_written as reads_written_array, writes as sets_a_place, site as site_of, read_site, write_site, sites_on, sites as sites_of, references as references_of, are_related as meet, relation as relation_of, related, relations as all_relations};

use crate::bases::relation_base;
use crate::walk::{copy_around, spots};
use loop_core::copies::copy_term;
use loop_core::nest::Nest;
use sqlite_items::Items;
use std::alloc::Global;
use uf_constraints::reach::{Bracket, Site, Spot, Usage};
use uf_constraints::system::{Reference, Relation};
use wave_base::types::Memory;

/// The references to arrays that the nest writes, line by line, on a line its reads from left to
/// right and then its write. A local is none.
///
/// A bracket number past 65,535, which no text has, is answered as `Memory`.
pub fn references(alloc: Global, nest: &Nest) -> Result<Items<Reference>, Memory>
    ensures { IfOk result (λ rs. rs ≡ references_of nest.now) }
{
    let sites = sites(alloc, nest)?;
    let mut references = Items::new(alloc);
    push_references(sites.as_slice(), &mut references)?;
    Ok(references)
}

fn push_references(sites: &[Site], into: &mut Items<Reference>) -> Result<(), Memory>
    ensures { OnOk result (into.new ≡ into.old ++ map (λ s. s.reference) sites.now) }
{
    for site in sites {
        into.push(site.reference)?;
    }
    Ok(())
}

/// Every ordered pair of references to one array of which one writes, by first and then by second
/// reference, with its base.
///
/// A bracket number past 65,535 or a constant past 64 bits, which no text has, is answered as
/// `Memory`.
pub fn relations(alloc: Global, nest: &Nest) -> Result<Items<Relation>, Memory>
    ensures { IfOk result (λ rs. rs ≡ all_relations nest.now) }
{
    let sites = sites(alloc, nest)?;
    let mut relations = Items::new(alloc);
    push_all_relations(alloc, nest, sites.as_slice(), &mut relations)?;
    Ok(relations)
}

fn push_all_relations(
    alloc: Global,
    nest: &Nest,
    sites: &[Site],
    into: &mut Items<Relation>,
) -> Result<(), Memory>
    ensures { OnOk result (into.new
        ≡ into.old ++ flat_map (λ s. flat_map (related nest.now s) sites.now) sites.now) }
{
    for first in sites {
        push_relations(alloc, nest, first, sites, into)?;
    }
    Ok(())
}

// The relations of one first reference.
fn push_relations(
    alloc: Global,
    nest: &Nest,
    first: &Site,
    sites: &[Site],
    into: &mut Items<Relation>,
) -> Result<(), Memory>
    ensures { OnOk result (into.new
        ≡ into.old ++ flat_map (related nest.now first.now) sites.now) }
{
    for second in sites {
        push_related(alloc, nest, first, second, into)?;
    }
    Ok(())
}

fn push_related(
    alloc: Global,
    nest: &Nest,
    first: &Site,
    second: &Site,
    into: &mut Items<Relation>,
) -> Result<(), Memory>
    ensures { OnOk result (into.new ≡ into.old ++ related nest.now first.now second.now) }
{
    if !are_related(first, second) {
        return Ok(());
    }
    into.push(relation(alloc, nest, first, second)?)?;
    Ok(())
}

fn are_related(first: &Site, second: &Site) -> bool
    ensures { result ≡ meet first.now second.now }
{
    first.reference.array == second.reference.array
        && (first.reference.writes || second.reference.writes)
}

fn relation(alloc: Global, nest: &Nest, first: &Site, second: &Site) -> Result<Relation, Memory>
    ensures { IfOk result (λ r. r ≡ relation_of nest.now first.now second.now) }
{
    Ok(Relation {
        first: first.reference,
        second: second.reference,
        base: relation_base(alloc, nest, first, second)?,
    })
}

/// The references with their terms and what stands round their lines, in the same order.
pub fn sites(alloc: Global, nest: &Nest) -> Result<Items<Site>, Memory>
    ensures { IfOk result (λ s. s ≡ sites_of nest.now) }
{
    let spots = spots(alloc, nest)?;
    let mut sites = Items::new(alloc);
    push_all_sites(alloc, nest, spots.as_slice(), &mut sites)?;
    Ok(sites)
}

fn push_all_sites(
    alloc: Global,
    nest: &Nest,
    spots: &[Spot],
    into: &mut Items<Site>,
) -> Result<(), Memory>
    ensures { OnOk result (into.new ≡ into.old ++ flat_map (sites_on nest.now) spots.now) }
{
    for spot in spots {
        push_sites(alloc, nest, spot, into)?;
    }
    Ok(())
}

fn push_sites(alloc: Global, nest: &Nest, spot: &Spot, into: &mut Items<Site>) -> Result<(), Memory>
    ensures { OnOk result (into.new ≡ into.old ++ sites_on nest.now spot.now) }
{
    push_reads(alloc, nest, spot, into)?;
    push_writes(alloc, spot, into)
}

fn push_reads(alloc: Global, nest: &Nest, spot: &Spot, into: &mut Items<Site>) -> Result<(), Memory>
    ensures { OnOk result (into.new
        ≡ into.old ++ flat_map (read_site nest.now spot.now) spot.now.brackets) }
{
    for bracket in spot.brackets.as_slice() {
        push_read(alloc, nest, spot, bracket, into)?;
    }
    Ok(())
}

fn push_read(
    alloc: Global,
    nest: &Nest,
    spot: &Spot,
    bracket: &Bracket,
    into: &mut Items<Site>,
) -> Result<(), Memory>
    ensures { OnOk result (into.new ≡ into.old ++ read_site nest.now spot.now bracket.now) }
{
    if !reads_written(nest, bracket) {
        return Ok(());
    }
    into.push(site(alloc, spot, bracket)?)?;
    Ok(())
}

fn push_writes(alloc: Global, spot: &Spot, into: &mut Items<Site>) -> Result<(), Memory>
    ensures { OnOk result (into.new
        ≡ into.old ++ flat_map (write_site spot.now) spot.now.brackets) }
{
    for bracket in spot.brackets.as_slice() {
        push_write(alloc, spot, bracket, into)?;
    }
    Ok(())
}

fn push_write(
    alloc: Global,
    spot: &Spot,
    bracket: &Bracket,
    into: &mut Items<Site>,
) -> Result<(), Memory>
    ensures { OnOk result (into.new ≡ into.old ++ write_site spot.now bracket.now) }
{
    if !writes(bracket) {
        return Ok(());
    }
    into.push(site(alloc, spot, bracket)?)?;
    Ok(())
}

fn reads_written(nest: &Nest, bracket: &Bracket) -> bool
    ensures { result ≡ reads_written_array nest.now bracket.now }
{
    bracket.usage == Usage::Reads && nest.writes(bracket.array)
}

fn writes(bracket: &Bracket) -> bool
    ensures { result ≡ sets_a_place bracket.now }
{
    bracket.usage == Usage::Sets
}

fn site(alloc: Global, spot: &Spot, bracket: &Bracket) -> Result<Site, Memory>
    ensures { IfOk result (λ s. s ≡ site_of spot.now bracket.now) }
{
    Ok(Site {
        reference: Reference {
            line: spot.line,
            bracket: bracket.number,
            array: bracket.array,
            writes: writes(bracket),
        },
        at: copy_term(alloc, &bracket.at)?,
        around: copy_around(alloc, spot.around.as_slice())?,
    })
}
