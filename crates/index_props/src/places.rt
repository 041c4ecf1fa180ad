// The instances at one entry.
ghost use Rattle.std.specs.Prelude.{◌≡◌, ◌≤◌, ◌^◌, ◌++◌, map, unsigned_abs, OnOk, IfOk};
ghost use Rattle.std.specs.List.{flat_map};
ghost use Rattle.index_props.specs.Rules.{range_instance as ranged, diagonal_at, before_at};
ghost use Rattle.index_props.specs.Within.{EntriesWithin};

use crate::entry::Entry;
use crate::groups::{has_entry, has_next};
use crate::lines::{before_instance, diagonal_instance, range_instance};
use crate::rule::RuleInst;
use loop_core::decl::Decl;
use loop_core::nest::Term;
use sqlite_items::Items;
use std::alloc::Global;
use wave_base::types::{ArrayId, Memory};

/// The instances of `range` at all entries.
pub fn push_ranges(
    alloc: Global,
    lo: &Term,
    hi: &Term,
    es: &[Entry],
    into: &mut Items<RuleInst>,
) -> Result<(), Memory>
    requires lo { unsigned_abs lo.now.plus ≤ 2 ^ 21 }
    requires hi { unsigned_abs hi.now.plus ≤ 2 ^ 21 }
    ensures { OnOk result (into.new ≡ into.old ++ map (ranged lo.now hi.now) es.now) }
{
    for e in es {
        into.push(range_instance(alloc, lo, hi, e)?)?;
    }
    Ok(())
}

/// The instances of `diagonal` at those entries `d[t]` of which `f[d[t]]`, `p[t]` and `p[t+1]` are
/// among all entries.
pub fn push_diagonals(
    alloc: Global,
    decls: &[Decl],
    f: ArrayId,
    p: ArrayId,
    es: &[Entry],
    ds: &[Entry],
    into: &mut Items<RuleInst>,
) -> Result<(), Memory>
    requires { EntriesWithin ds.now }
    ensures { OnOk result (into.new ≡ into.old ++ flat_map (diagonal_at decls.now f p es.now) ds.now) }
{
    for e in ds {
        push_diagonal(alloc, decls, f, p, es, e, into)?;
    }
    Ok(())
}

fn push_diagonal(
    alloc: Global,
    decls: &[Decl],
    f: ArrayId,
    p: ArrayId,
    es: &[Entry],
    e: &Entry,
    into: &mut Items<RuleInst>,
) -> Result<(), Memory>
    requires { unsigned_abs e.now.index.plus ≤ 2 ^ 22 }
    ensures { OnOk result (into.new ≡ into.old ++ diagonal_at decls.now f p es.now e.now) }
{
    if !has_entry(es, f, e.value()) || !has_entry(es, p, e.index()) {
        return Ok(());
    }
    if !has_next(alloc, es, p, e.index())? {
        return Ok(());
    }
    into.push(diagonal_instance(alloc, decls, f, p, e)?)?;
    Ok(())
}

/// The instances of `before` at those entries `f[t]` of which `g[t]` is among all entries.
pub fn push_befores(
    alloc: Global,
    decls: &[Decl],
    g: ArrayId,
    es: &[Entry],
    fs: &[Entry],
    into: &mut Items<RuleInst>,
) -> Result<(), Memory>
    ensures { OnOk result (into.new ≡ into.old ++ flat_map (before_at decls.now g es.now) fs.now) }
{
    for e in fs {
        push_before(alloc, decls, g, es, e, into)?;
    }
    Ok(())
}

fn push_before(
    alloc: Global,
    decls: &[Decl],
    g: ArrayId,
    es: &[Entry],
    e: &Entry,
    into: &mut Items<RuleInst>,
) -> Result<(), Memory>
    ensures { OnOk result (into.new ≡ into.old ++ before_at decls.now g es.now e.now) }
{
    if !has_entry(es, g, e.index()) {
        return Ok(());
    }
    into.push(before_instance(alloc, decls, g, e)?)?;
    Ok(())
}
