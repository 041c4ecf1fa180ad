// Each line of the table with a segment. No segment is kept: for each pair of entries all entries are
// searched for those at which one begins.
ghost use Rattle.std.specs.Prelude.{◌≡◌, ◌≤◌, ◌+◌, ◌^◌, ◌++◌, map, true, false, unsigned_abs, OnOk, IfOk};
ghost use Rattle.std.specs.List.{flat_map};
ghost use Rattle.uf_constraints.specs.Universe.{next};
ghost use Rattle.index_props.specs.Entries.{if_of, of_array, entry_of};
ghost use Rattle.index_props.specs.Rules.{sorted_instance as sorted, limit_instance as limited, segment_from, segments, sorted_from, sorted_instances, limit_instances, order};
ghost use Rattle.index_props.specs.Within.{EntriesWithin};

use index_props::entry::{Entry, Segment};
use index_props::groups::has_next;
use index_props::lines::{push_limit_instance, push_sorted_instance};
use index_props::rule::{Order, RuleInst};
use loop_core::decl::Decl;
use sqlite_items::Items;
use std::alloc::Global;
use wave_base::types::{ArrayId, Memory};

// The segment that begins at an entry.
fn segment_at(alloc: Global, decls: &[Decl], p: ArrayId, u: &Entry) -> Result<Segment, Memory>
    requires { unsigned_abs u.now.index.plus ≤ 2 ^ 21 + 1 }
    ensures { IfOk result (λ g. g ≡ record { start = u.now; stop = entry_of decls.now p (next u.now.index) }) }
{
    let stop = Entry::after(alloc, decls, p, u.index())?;
    Ok(Segment::of(u.copy(alloc)?, stop))
}

/// The four lines of `sorted`, at all pairs of entries of the first array and all segments of the
/// second.
pub fn push_sorted_lines(
    alloc: Global,
    decls: &[Decl],
    f: ArrayId,
    p: ArrayId,
    es: &[Entry],
    into: &mut Items<RuleInst>,
) -> Result<(), Memory>
    requires { EntriesWithin es.now }
    ensures { OnOk result (into.new ≡ into.old
        ++ (sorted_instances (order true false) (segments decls.now p es.now) (of_array f es.now)
        ++ sorted_instances (order false false) (segments decls.now p es.now) (of_array f es.now)
        ++ sorted_instances (order false true) (segments decls.now p es.now) (of_array f es.now)
        ++ sorted_instances (order true true) (segments decls.now p es.now) (of_array f es.now))) }
{
    push_sorted(alloc, decls, true, false, f, p, es, into)?;
    push_sorted(alloc, decls, false, false, f, p, es, into)?;
    push_sorted(alloc, decls, false, true, f, p, es, into)?;
    push_sorted(alloc, decls, true, true, f, p, es, into)
}

// A line of `sorted` at all pairs of entries of the first array, and all segments of the second.
fn push_sorted(
    alloc: Global,
    decls: &[Decl],
    strict: bool,
    back: bool,
    f: ArrayId,
    p: ArrayId,
    es: &[Entry],
    into: &mut Items<RuleInst>,
) -> Result<(), Memory>
    requires { EntriesWithin es.now }
    ensures { OnOk result
        (into.new ≡ into.old ++ sorted_instances (order strict back) (segments decls.now p es.now) (of_array f es.now)) }
{
    let line = Order { strict, back };
    for s in es {
        push_sorted_if(alloc, decls, line, f, p, s, es, into)?;
    }
    Ok(())
}

fn push_sorted_if(
    alloc: Global,
    decls: &[Decl],
    line: Order,
    f: ArrayId,
    p: ArrayId,
    s: &Entry,
    es: &[Entry],
    into: &mut Items<RuleInst>,
) -> Result<(), Memory>
    requires { EntriesWithin es.now }
    ensures { OnOk result (into.new
        ≡ into.old ++ flat_map (sorted_from line (segments decls.now p es.now) (of_array f es.now)) (if_of f s.now)) }
{
    if s.array() == f {
        push_sorted_with(alloc, decls, line, f, p, s, es, into)
    } else {
        Ok(())
    }
}

fn push_sorted_with(
    alloc: Global,
    decls: &[Decl],
    line: Order,
    f: ArrayId,
    p: ArrayId,
    s: &Entry,
    es: &[Entry],
    into: &mut Items<RuleInst>,
) -> Result<(), Memory>
    requires { EntriesWithin es.now }
    ensures { OnOk result
        (into.new ≡ into.old ++ sorted_from line (segments decls.now p es.now) (of_array f es.now) s.now) }
{
    for t in es {
        push_sorted_pair_if(alloc, decls, line, f, p, s, t, es, into)?;
    }
    Ok(())
}

fn push_sorted_pair_if(
    alloc: Global,
    decls: &[Decl],
    line: Order,
    f: ArrayId,
    p: ArrayId,
    s: &Entry,
    t: &Entry,
    es: &[Entry],
    into: &mut Items<RuleInst>,
) -> Result<(), Memory>
    requires { EntriesWithin es.now }
    ensures { OnOk result (into.new
        ≡ into.old ++ flat_map (λ x. map (sorted line s.now x) (segments decls.now p es.now)) (if_of f t.now)) }
{
    if t.array() == f {
        push_sorted_pair(alloc, decls, line, p, s, t, es, into)
    } else {
        Ok(())
    }
}

fn push_sorted_pair(
    alloc: Global,
    decls: &[Decl],
    line: Order,
    p: ArrayId,
    s: &Entry,
    t: &Entry,
    es: &[Entry],
    into: &mut Items<RuleInst>,
) -> Result<(), Memory>
    requires { EntriesWithin es.now }
    ensures { OnOk result (into.new ≡ into.old ++ map (sorted line s.now t.now) (segments decls.now p es.now)) }
{
    for u in es {
        push_sorted_from(alloc, decls, line, p, s, t, u, es, into)?;
    }
    Ok(())
}

// A line of `sorted` at a pair of entries, where a segment begins at a third one.
fn push_sorted_from(
    alloc: Global,
    decls: &[Decl],
    line: Order,
    p: ArrayId,
    s: &Entry,
    t: &Entry,
    u: &Entry,
    es: &[Entry],
    into: &mut Items<RuleInst>,
) -> Result<(), Memory>
    requires { unsigned_abs u.now.index.plus ≤ 2 ^ 21 + 1 }
    ensures { OnOk result (into.new
        ≡ into.old ++ map (sorted line s.now t.now) (flat_map (segment_from decls.now p es.now) (if_of p u.now))) }
{
    if u.array() == p {
        push_sorted_begun(alloc, decls, line, p, s, t, u, es, into)
    } else {
        Ok(())
    }
}

fn push_sorted_begun(
    alloc: Global,
    decls: &[Decl],
    line: Order,
    p: ArrayId,
    s: &Entry,
    t: &Entry,
    u: &Entry,
    es: &[Entry],
    into: &mut Items<RuleInst>,
) -> Result<(), Memory>
    requires { unsigned_abs u.now.index.plus ≤ 2 ^ 21 + 1 }
    ensures { OnOk result
        (into.new ≡ into.old ++ map (sorted line s.now t.now) (segment_from decls.now p es.now u.now)) }
{
    if !has_next(alloc, es, p, u.index())? {
        return Ok(());
    }
    let g = segment_at(alloc, decls, p, u)?;
    push_sorted_instance(alloc, line, s, t, &g, into)
}

/// The line of `below`, where it is strict, or of `upto`, at all entries of the first array and all
/// segments of the second.
pub fn push_limits(
    alloc: Global,
    decls: &[Decl],
    strict: bool,
    f: ArrayId,
    p: ArrayId,
    es: &[Entry],
    into: &mut Items<RuleInst>,
) -> Result<(), Memory>
    requires { EntriesWithin es.now }
    ensures { OnOk result (into.new
        ≡ into.old ++ limit_instances strict (segments decls.now p es.now) (of_array f es.now)) }
{
    for e in es {
        push_limits_if(alloc, decls, strict, f, p, e, es, into)?;
    }
    Ok(())
}

fn push_limits_if(
    alloc: Global,
    decls: &[Decl],
    strict: bool,
    f: ArrayId,
    p: ArrayId,
    e: &Entry,
    es: &[Entry],
    into: &mut Items<RuleInst>,
) -> Result<(), Memory>
    requires { EntriesWithin es.now }
    ensures { OnOk result (into.new
        ≡ into.old ++ flat_map (λ x. map (limited strict x) (segments decls.now p es.now)) (if_of f e.now)) }
{
    if e.array() == f {
        push_limits_of(alloc, decls, strict, p, e, es, into)
    } else {
        Ok(())
    }
}

fn push_limits_of(
    alloc: Global,
    decls: &[Decl],
    strict: bool,
    p: ArrayId,
    e: &Entry,
    es: &[Entry],
    into: &mut Items<RuleInst>,
) -> Result<(), Memory>
    requires { EntriesWithin es.now }
    ensures { OnOk result (into.new ≡ into.old ++ map (limited strict e.now) (segments decls.now p es.now)) }
{
    for u in es {
        push_limit_from(alloc, decls, strict, p, e, u, es, into)?;
    }
    Ok(())
}

// The line of `below` or `upto` at an entry, where a segment begins at another one.
fn push_limit_from(
    alloc: Global,
    decls: &[Decl],
    strict: bool,
    p: ArrayId,
    e: &Entry,
    u: &Entry,
    es: &[Entry],
    into: &mut Items<RuleInst>,
) -> Result<(), Memory>
    requires { unsigned_abs u.now.index.plus ≤ 2 ^ 21 + 1 }
    ensures { OnOk result (into.new
        ≡ into.old ++ map (limited strict e.now) (flat_map (segment_from decls.now p es.now) (if_of p u.now))) }
{
    if u.array() == p {
        push_limit_begun(alloc, decls, strict, p, e, u, es, into)
    } else {
        Ok(())
    }
}

fn push_limit_begun(
    alloc: Global,
    decls: &[Decl],
    strict: bool,
    p: ArrayId,
    e: &Entry,
    u: &Entry,
    es: &[Entry],
    into: &mut Items<RuleInst>,
) -> Result<(), Memory>
    requires { unsigned_abs u.now.index.plus ≤ 2 ^ 21 + 1 }
    ensures { OnOk result
        (into.new ≡ into.old ++ map (limited strict e.now) (segment_from decls.now p es.now u.now)) }
{
    if !has_next(alloc, es, p, u.index())? {
        return Ok(());
    }
    let g = segment_at(alloc, decls, p, u)?;
    push_limit_instance(alloc, strict, e, &g, into)
}
