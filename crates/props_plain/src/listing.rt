// The plain way to the instances: each line of the table goes over all entries of the universe, and
// takes those of its arrays. It says what the quick way has to give, in a body that sorts nothing.
ghost use Rattle.std.specs.Prelude.{◌≡◌, ◌+◌, ◌^◌, ◌++◌, OnOk, IfOk};
ghost use Rattle.std.specs.List.{flat_map};
ghost use Rattle.uf_constraints.specs.Constants.{IndexesWithin};
ghost use Rattle.index_props.specs.Rules.{instances_of, property_instances};
ghost use Rattle.index_props.specs.Within.{EntriesWithin, BoundsWithin, AllBoundsWithin};

use crate::pairs::{push_equal, push_pairs, push_rising, push_strict};
use crate::places::{push_befores, push_diagonals, push_ranges};
use crate::segment::{push_limits, push_sorted_lines};
use index_props::entry::Entry;
use index_props::groups::entries;
use index_props::rule::{PairLine, RuleInst};
use loop_core::decl::{Decl, PropDecl, PropKind};
use sqlite_items::Items;
use std::alloc::Global;
use uf_constraints::system::Universe;
use wave_base::types::Memory;

/// The instances, as `instances` gives them, by searches.
pub fn instances_by_search(
    alloc: Global,
    u: &Universe,
    decls: &[Decl],
    props: &[PropDecl],
) -> Result<Items<RuleInst>, Memory>
    requires atoms { IndexesWithin (2 ^ 21 + 1) u.now.atoms }
    requires bounds { AllBoundsWithin props.now }
    ensures { IfOk result (λ rules. rules ≡ instances_of decls.now props.now u.now.atoms) }
{
    let es = entries(alloc, decls, u.atoms.as_slice())?;
    let mut rules = Items::new(alloc);
    push_equal(alloc, es.as_slice(), &mut rules)?;
    push_properties(alloc, decls, es.as_slice(), props, &mut rules)?;
    Ok(rules)
}

fn push_properties(
    alloc: Global,
    decls: &[Decl],
    es: &[Entry],
    props: &[PropDecl],
    into: &mut Items<RuleInst>,
) -> Result<(), Memory>
    requires entries { EntriesWithin es.now }
    requires bounds { AllBoundsWithin props.now }
    ensures { OnOk result
        (into.new ≡ into.old ++ flat_map (λ p. property_instances decls.now es.now p.kind) props.now) }
{
    for prop in props {
        push_property(alloc, decls, es, &prop.kind, into)?;
    }
    Ok(())
}

fn push_property(
    alloc: Global,
    decls: &[Decl],
    es: &[Entry],
    kind: &PropKind,
    into: &mut Items<RuleInst>,
) -> Result<(), Memory>
    requires entries { EntriesWithin es.now }
    requires bounds { BoundsWithin kind.now }
    ensures { OnOk result (into.new ≡ into.old ++ property_instances decls.now es.now kind.now) }
{
    match kind {
        PropKind::Range(f, lo, hi) => push_ranges(alloc, *f, lo, hi, es, into),
        PropKind::Rising(p) => push_rising(alloc, *p, es, into),
        PropKind::Strict(p) => push_strict(alloc, *p, es, into),
        PropKind::Injective(f) => push_pairs(alloc, PairLine::Injective, *f, es, into),
        PropKind::Sorted(f, p) => push_sorted_lines(alloc, decls, *f, *p, es, into),
        PropKind::Below(f, p) => push_limits(alloc, decls, true, *f, *p, es, into),
        PropKind::Upto(f, p) => push_limits(alloc, decls, false, *f, *p, es, into),
        PropKind::Diagonal(d, f, p) => push_diagonals(alloc, decls, *d, *f, *p, es, into),
        PropKind::Before(f, g) => push_befores(alloc, decls, *f, *g, es, into),
    }
}
