// All instances of the table of rules.
ghost use Rattle.std.specs.Prelude.{◌≡◌, ◌+◌, ◌^◌, ◌++◌, true, false, OnOk, IfOk};
ghost use Rattle.std.specs.List.{flat_map};
ghost use Rattle.loop_core.specs.declared.decl.PropKind.TheVariants.{Sorted};
ghost use Rattle.uf_constraints.specs.Constants.{IndexesWithin};
ghost use Rattle.index_props.specs.Rules.{instances_of, property_instances, ordered_instances, sorted_instances, limit_instances, order, segments as segments_of};
ghost use Rattle.index_props.specs.Entries.{of_array as those_of};
ghost use Rattle.index_props.specs.Within.{EntriesWithin, BoundsWithin, AllBoundsWithin};

use crate::entry::{Entry, Segment};
use crate::groups::{entries, of_array};
use crate::pairs::{push_equal_arguments, push_pairs};
use crate::places::{push_befores, push_diagonals, push_ranges};
use crate::rule::{Order, PairLine, RuleInst};
use crate::segment::{push_limits, push_sorted, segments};
use loop_core::decl::{Decl, PropDecl, PropKind};
use sqlite_items::Items;
use std::alloc::Global;
use uf_constraints::system::Universe;
use wave_base::types::{ArrayId, Memory};

/// Exactly the instances of the table of rules at the atoms of the universe, in their order: equal
/// arguments first, then by property in order of declaration, then by the table's lines, then by
/// the atoms. The arrays have the lengths that the declarations give.
pub fn instances(
    alloc: Global,
    u: &Universe,
    decls: &[Decl],
    props: &[PropDecl],
) -> Result<Items<RuleInst>, Memory>
    requires atoms { IndexesWithin (2 ^ 21 + 1) u.now.atoms }
    requires bounds { AllBoundsWithin props.now }
    ensures { IfOk result (λ rules. rules ≡ instances_of decls.now props.now u.now.atoms) }
{
    let es = entries(alloc, decls, u.atoms.as_slice())?;
    let mut rules = Items::new(alloc);
    push_equal_arguments(alloc, es.as_slice(), &mut rules)?;
    push_properties(alloc, decls, es.as_slice(), props, &mut rules)?;
    Ok(rules)
}

fn push_properties(
    alloc: Global,
    decls: &[Decl],
    es: &[Entry],
    props: &[PropDecl],
    into: &mut Items<RuleInst>,
) -> Result<(), Memory>
    requires entries { EntriesWithin es.now }
    requires bounds { AllBoundsWithin props.now }
    ensures { OnOk result
        (into.new ≡ into.old ++ flat_map (λ p. property_instances decls.now es.now p.kind) props.now) }
{
    for prop in props {
        push_property(alloc, decls, es, &prop.kind, into)?;
    }
    Ok(())
}

fn push_property(
    alloc: Global,
    decls: &[Decl],
    es: &[Entry],
    kind: &PropKind,
    into: &mut Items<RuleInst>,
) -> Result<(), Memory>
    requires entries { EntriesWithin es.now }
    requires bounds { BoundsWithin kind.now }
    ensures { OnOk result (into.new ≡ into.old ++ property_instances decls.now es.now kind.now) }
{
    match kind {
        PropKind::Range(f, lo, hi) => {
            let fs = of_array(alloc, *f, es)?;
            push_ranges(alloc, lo, hi, fs.as_slice(), into)
        }
        PropKind::Rising(p) => {
            let ps = of_array(alloc, *p, es)?;
            push_rising(alloc, ps.as_slice(), into)
        }
        PropKind::Strict(p) => {
            let ps = of_array(alloc, *p, es)?;
            push_strict(alloc, ps.as_slice(), into)
        }
        PropKind::Injective(f) => {
            let fs = of_array(alloc, *f, es)?;
            push_pairs(alloc, PairLine::Injective, fs.as_slice(), into)
        }
        PropKind::Sorted(f, p) => push_sorted_by(alloc, decls, *f, *p, es, into),
        PropKind::Below(f, p) => push_limited(alloc, decls, true, *f, *p, es, into),
        PropKind::Upto(f, p) => push_limited(alloc, decls, false, *f, *p, es, into),
        PropKind::Diagonal(d, f, p) => {
            let ds = of_array(alloc, *d, es)?;
            push_diagonals(alloc, decls, *f, *p, es, ds.as_slice(), into)
        }
        PropKind::Before(f, g) => {
            let fs = of_array(alloc, *f, es)?;
            push_befores(alloc, decls, *g, es, fs.as_slice(), into)
        }
    }
}

fn push_ordered(
    alloc: Global,
    strict: bool,
    back: bool,
    es: &[Entry],
    into: &mut Items<RuleInst>,
) -> Result<(), Memory>
    ensures { OnOk result (into.new ≡ into.old ++ ordered_instances strict back es.now) }
{
    push_pairs(alloc, PairLine::Ordered(Order { strict, back }), es, into)
}

fn push_rising(alloc: Global, ps: &[Entry], into: &mut Items<RuleInst>) -> Result<(), Memory>
    ensures { OnOk result
        (into.new ≡ into.old ++ (ordered_instances false false ps.now ++ ordered_instances true true ps.now)) }
{
    push_ordered(alloc, false, false, ps, into)?;
    push_ordered(alloc, true, true, ps, into)
}

fn push_strict(alloc: Global, ps: &[Entry], into: &mut Items<RuleInst>) -> Result<(), Memory>
    ensures { OnOk result (into.new
        ≡ into.old ++ (ordered_instances false false ps.now ++ ordered_instances true true ps.now
        ++ ordered_instances true false ps.now ++ ordered_instances false true ps.now)) }
{
    push_rising(alloc, ps, into)?;
    push_ordered(alloc, true, false, ps, into)?;
    push_ordered(alloc, false, true, ps, into)
}

fn push_sorted_by(
    alloc: Global,
    decls: &[Decl],
    f: ArrayId,
    p: ArrayId,
    es: &[Entry],
    into: &mut Items<RuleInst>,
) -> Result<(), Memory>
    requires { EntriesWithin es.now }
    ensures { OnOk result (into.new ≡ into.old ++ property_instances decls.now es.now (Sorted f p)) }
{
    let gs = segments(alloc, decls, p, es)?;
    let fs = of_array(alloc, f, es)?;
    push_sorted_lines(alloc, gs.as_slice(), fs.as_slice(), into)
}

fn push_sorted_lines(
    alloc: Global,
    gs: &[Segment],
    fs: &[Entry],
    into: &mut Items<RuleInst>,
) -> Result<(), Memory>
    ensures { OnOk result (into.new
        ≡ into.old ++ (sorted_instances (order true false) gs.now fs.now ++ sorted_instances (order false false) gs.now fs.now
        ++ sorted_instances (order false true) gs.now fs.now ++ sorted_instances (order true true) gs.now fs.now)) }
{
    push_sorted_order(alloc, true, false, gs, fs, into)?;
    push_sorted_order(alloc, false, false, gs, fs, into)?;
    push_sorted_order(alloc, false, true, gs, fs, into)?;
    push_sorted_order(alloc, true, true, gs, fs, into)
}

fn push_sorted_order(
    alloc: Global,
    strict: bool,
    back: bool,
    gs: &[Segment],
    fs: &[Entry],
    into: &mut Items<RuleInst>,
) -> Result<(), Memory>
    ensures { OnOk result
        (into.new ≡ into.old ++ sorted_instances (order strict back) gs.now fs.now) }
{
    push_sorted(alloc, Order { strict, back }, gs, fs, into)
}

fn push_limited(
    alloc: Global,
    decls: &[Decl],
    strict: bool,
    f: ArrayId,
    p: ArrayId,
    es: &[Entry],
    into: &mut Items<RuleInst>,
) -> Result<(), Memory>
    requires { EntriesWithin es.now }
    ensures { OnOk result (into.new
        ≡ into.old ++ limit_instances strict (segments_of decls.now p es.now) (those_of f es.now)) }
{
    let gs = segments(alloc, decls, p, es)?;
    let fs = of_array(alloc, f, es)?;
    push_limits(alloc, strict, gs.as_slice(), fs.as_slice(), into)
}
