// The segments of an array, and the instances at them.
ghost use Rattle.std.specs.Prelude.{◌≡◌, ◌≤◌, ◌^◌, ◌++◌, map, unsigned_abs, OnOk, IfOk};
ghost use Rattle.index_props.specs.Rules.{segments as segments_of, segment_from, sorted_instance as sorted, sorted_instances, sorted_from, limit_instance as limited, limit_instances};
ghost use Rattle.index_props.specs.Within.{EntriesWithin};

use crate::entry::{Entry, Segment};
use crate::groups::{has_next, of_array};
use crate::lines::{push_limit_instance, push_sorted_instance};
use crate::rule::{Order, RuleInst};
use loop_core::decl::Decl;
use sqlite_items::Items;
use std::alloc::Global;
use wave_base::types::{ArrayId, Memory};

/// The segments of which both ends are among the entries, in order of their beginnings.
pub fn segments(
    alloc: Global,
    decls: &[Decl],
    p: ArrayId,
    es: &[Entry],
) -> Result<Items<Segment>, Memory>
    requires { EntriesWithin es.now }
    ensures { IfOk result (λ gs. gs ≡ segments_of decls.now p es.now) }
{
    let starts = of_array(alloc, p, es)?;
    let mut found = Items::new(alloc);
    for start in starts.as_slice() {
        push_segment(alloc, decls, p, es, start, &mut found)?;
    }
    Ok(found)
}

fn push_segment(
    alloc: Global,
    decls: &[Decl],
    p: ArrayId,
    es: &[Entry],
    start: &Entry,
    into: &mut Items<Segment>,
) -> Result<(), Memory>
    requires { unsigned_abs start.now.index.plus ≤ 2 ^ 22 }
    ensures { OnOk result (into.new ≡ into.old ++ segment_from decls.now p es.now start.now) }
{
    if !has_next(alloc, es, p, start.index())? {
        return Ok(());
    }
    let stop = Entry::after(alloc, decls, p, start.index())?;
    let start = start.copy(alloc)?;
    into.push(Segment::of(start, stop))?;
    Ok(())
}

/// A line's instances for `sorted` at all pairs of entries and all segments.
pub fn push_sorted(
    alloc: Global,
    order: Order,
    gs: &[Segment],
    es: &[Entry],
    into: &mut Items<RuleInst>,
) -> Result<(), Memory>
    ensures { OnOk result (into.new ≡ into.old ++ sorted_instances order gs.now es.now) }
{
    for s in es {
        push_sorted_from(alloc, order, gs, s, es, into)?;
    }
    Ok(())
}

fn push_sorted_from(
    alloc: Global,
    order: Order,
    gs: &[Segment],
    s: &Entry,
    es: &[Entry],
    into: &mut Items<RuleInst>,
) -> Result<(), Memory>
    ensures { OnOk result (into.new ≡ into.old ++ sorted_from order gs.now es.now s.now) }
{
    for t in es {
        push_sorted_at(alloc, order, gs, s, t, into)?;
    }
    Ok(())
}

fn push_sorted_at(
    alloc: Global,
    order: Order,
    gs: &[Segment],
    s: &Entry,
    t: &Entry,
    into: &mut Items<RuleInst>,
) -> Result<(), Memory>
    ensures { OnOk result (into.new ≡ into.old ++ map (sorted order s.now t.now) gs.now) }
{
    for g in gs {
        push_sorted_instance(alloc, order, s, t, g, into)?;
    }
    Ok(())
}

/// The instances of `below`, where it is strict, or of `upto`, at all entries and segments.
pub fn push_limits(
    alloc: Global,
    strict: bool,
    gs: &[Segment],
    es: &[Entry],
    into: &mut Items<RuleInst>,
) -> Result<(), Memory>
    ensures { OnOk result (into.new ≡ into.old ++ limit_instances strict gs.now es.now) }
{
    for e in es {
        push_limits_at(alloc, strict, gs, e, into)?;
    }
    Ok(())
}

fn push_limits_at(
    alloc: Global,
    strict: bool,
    gs: &[Segment],
    e: &Entry,
    into: &mut Items<RuleInst>,
) -> Result<(), Memory>
    ensures { OnOk result (into.new ≡ into.old ++ map (limited strict e.now) gs.now) }
{
    for g in gs {
        push_limit_instance(alloc, strict, e, g, into)?;
    }
    Ok(())
}
