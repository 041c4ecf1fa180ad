// Each line of the table at one entry, by going over all entries.
ghost use Rattle.std.specs.Prelude.{◌≡◌, ◌≤◌, ◌+◌, ◌^◌, ◌++◌, map, unsigned_abs, OnOk};
ghost use Rattle.std.specs.List.{flat_map};
ghost use Rattle.index_props.specs.Entries.{if_of, of_array};
ghost use Rattle.index_props.specs.Rules.{range_instance as ranged, diagonal_at, before_at};
ghost use Rattle.index_props.specs.Within.{EntriesWithin};

use index_props::entry::Entry;
use index_props::groups::{has_entry, has_next};
use index_props::lines::{before_instance, diagonal_instance, range_instance};
use index_props::rule::RuleInst;
use loop_core::decl::Decl;
use loop_core::nest::Term;
use sqlite_items::Items;
use std::alloc::Global;
use wave_base::types::{ArrayId, Memory};

/// The instances of `range` at all entries of the array.
pub fn push_ranges(
    alloc: Global,
    f: ArrayId,
    lo: &Term,
    hi: &Term,
    es: &[Entry],
    into: &mut Items<RuleInst>,
) -> Result<(), Memory>
    requires lo { unsigned_abs lo.now.plus ≤ 2 ^ 21 }
    requires hi { unsigned_abs hi.now.plus ≤ 2 ^ 21 }
    ensures { OnOk result (into.new ≡ into.old ++ map (ranged lo.now hi.now) (of_array f es.now)) }
{
    for e in es {
        push_range_if(alloc, f, lo, hi, e, into)?;
    }
    Ok(())
}

fn push_range_if(
    alloc: Global,
    f: ArrayId,
    lo: &Term,
    hi: &Term,
    e: &Entry,
    into: &mut Items<RuleInst>,
) -> Result<(), Memory>
    requires lo { unsigned_abs lo.now.plus ≤ 2 ^ 21 }
    requires hi { unsigned_abs hi.now.plus ≤ 2 ^ 21 }
    ensures { OnOk result (into.new ≡ into.old ++ map (ranged lo.now hi.now) (if_of f e.now)) }
{
    if e.array() == f {
        into.push(range_instance(alloc, lo, hi, e)?)?;
    }
    Ok(())
}

/// The instances of `diagonal` at all entries `d[t]` of which `f[d[t]]`, `p[t]` and `p[t+1]` are
/// there too.
pub fn push_diagonals(
    alloc: Global,
    decls: &[Decl],
    d: ArrayId,
    f: ArrayId,
    p: ArrayId,
    es: &[Entry],
    into: &mut Items<RuleInst>,
) -> Result<(), Memory>
    requires { EntriesWithin es.now }
    ensures { OnOk result
        (into.new ≡ into.old ++ flat_map (diagonal_at decls.now f p es.now) (of_array d es.now)) }
{
    for e in es {
        push_diagonal_if(alloc, decls, d, f, p, es, e, into)?;
    }
    Ok(())
}

fn push_diagonal_if(
    alloc: Global,
    decls: &[Decl],
    d: ArrayId,
    f: ArrayId,
    p: ArrayId,
    es: &[Entry],
    e: &Entry,
    into: &mut Items<RuleInst>,
) -> Result<(), Memory>
    requires { unsigned_abs e.now.index.plus ≤ 2 ^ 21 + 1 }
    ensures { OnOk result
        (into.new ≡ into.old ++ flat_map (diagonal_at decls.now f p es.now) (if_of d e.now)) }
{
    if e.array() != d {
        return Ok(());
    }
    let next = has_next(alloc, es, p, e.index())?;
    if has_entry(es, f, e.value()) && has_entry(es, p, e.index()) && next {
        into.push(diagonal_instance(alloc, decls, f, p, e)?)?;
    }
    Ok(())
}

/// The instances of `before` at all entries `f[t]` of which `g[t]` is there too.
pub fn push_befores(
    alloc: Global,
    decls: &[Decl],
    f: ArrayId,
    g: ArrayId,
    es: &[Entry],
    into: &mut Items<RuleInst>,
) -> Result<(), Memory>
    ensures { OnOk result
        (into.new ≡ into.old ++ flat_map (before_at decls.now g es.now) (of_array f es.now)) }
{
    for e in es {
        push_before_if(alloc, decls, f, g, es, e, into)?;
    }
    Ok(())
}

fn push_before_if(
    alloc: Global,
    decls: &[Decl],
    f: ArrayId,
    g: ArrayId,
    es: &[Entry],
    e: &Entry,
    into: &mut Items<RuleInst>,
) -> Result<(), Memory>
    ensures { OnOk result
        (into.new ≡ into.old ++ flat_map (before_at decls.now g es.now) (if_of f e.now)) }
{
    if e.array() == f && has_entry(es, g, e.index()) {
        into.push(before_instance(alloc, decls, g, e)?)?;
    }
    Ok(())
}
