// Each line of the table for two entries of one array, by going over all entries for both.
ghost use Rattle.std.specs.Prelude.{◌≡◌, ◌++◌, map, true, false, OnOk};
ghost use Rattle.std.specs.List.{flat_map};
ghost use Rattle.index_props.specs.Entries.{if_of, of_array};
ghost use Rattle.index_props.specs.Rules.{pair_instance as pair, equal_instances, pair_instances, ordered_instances};

use index_props::entry::Entry;
use index_props::lines::pair_instance;
use index_props::rule::{Order, PairLine, RuleInst};
use sqlite_items::Items;
use std::alloc::Global;
use wave_base::types::{ArrayId, Memory};

/// The instances of equal arguments at all pairs of entries of any one array.
pub fn push_equal(alloc: Global, es: &[Entry], into: &mut Items<RuleInst>) -> Result<(), Memory>
    ensures { OnOk result (into.new ≡ into.old ++ equal_instances es.now) }
{
    for s in es {
        push_pairs_with(alloc, PairLine::Equal, s.array(), s, es, into)?;
    }
    Ok(())
}

/// A line's instances at all pairs of entries of an array.
pub fn push_pairs(
    alloc: Global,
    line: PairLine,
    f: ArrayId,
    es: &[Entry],
    into: &mut Items<RuleInst>,
) -> Result<(), Memory>
    ensures { OnOk result (into.new ≡ into.old ++ pair_instances line (of_array f es.now)) }
{
    for s in es {
        push_pairs_if(alloc, line, f, s, es, into)?;
    }
    Ok(())
}

fn push_pairs_if(
    alloc: Global,
    line: PairLine,
    f: ArrayId,
    s: &Entry,
    es: &[Entry],
    into: &mut Items<RuleInst>,
) -> Result<(), Memory>
    ensures { OnOk result
        (into.new ≡ into.old ++ flat_map (λ x. map (pair line x) (of_array f es.now)) (if_of f s.now)) }
{
    if s.array() == f {
        push_pairs_with(alloc, line, f, s, es, into)
    } else {
        Ok(())
    }
}

// A line at one entry, and each entry of an array as the second.
fn push_pairs_with(
    alloc: Global,
    line: PairLine,
    f: ArrayId,
    s: &Entry,
    es: &[Entry],
    into: &mut Items<RuleInst>,
) -> Result<(), Memory>
    ensures { OnOk result (into.new ≡ into.old ++ map (pair line s.now) (of_array f es.now)) }
{
    for t in es {
        push_pair_if(alloc, line, f, s, t, into)?;
    }
    Ok(())
}

fn push_pair_if(
    alloc: Global,
    line: PairLine,
    f: ArrayId,
    s: &Entry,
    t: &Entry,
    into: &mut Items<RuleInst>,
) -> Result<(), Memory>
    ensures { OnOk result (into.new ≡ into.old ++ map (pair line s.now) (if_of f t.now)) }
{
    if t.array() == f {
        into.push(pair_instance(alloc, line, s, t)?)?;
    }
    Ok(())
}

fn push_ordered(
    alloc: Global,
    strict: bool,
    back: bool,
    p: ArrayId,
    es: &[Entry],
    into: &mut Items<RuleInst>,
) -> Result<(), Memory>
    ensures { OnOk result
        (into.new ≡ into.old ++ ordered_instances strict back (of_array p es.now)) }
{
    push_pairs(
        alloc,
        PairLine::Ordered(Order { strict, back }),
        p,
        es,
        into,
    )
}

/// The lines of `rising`.
pub fn push_rising(
    alloc: Global,
    p: ArrayId,
    es: &[Entry],
    into: &mut Items<RuleInst>,
) -> Result<(), Memory>
    ensures { OnOk result (into.new ≡ into.old
        ++ (ordered_instances false false (of_array p es.now) ++ ordered_instances true true (of_array p es.now))) }
{
    push_ordered(alloc, false, false, p, es, into)?;
    push_ordered(alloc, true, true, p, es, into)
}

/// The lines of `strict`.
pub fn push_strict(
    alloc: Global,
    p: ArrayId,
    es: &[Entry],
    into: &mut Items<RuleInst>,
) -> Result<(), Memory>
    ensures { OnOk result (into.new ≡ into.old
        ++ (ordered_instances false false (of_array p es.now) ++ ordered_instances true true (of_array p es.now)
        ++ ordered_instances true false (of_array p es.now) ++ ordered_instances false true (of_array p es.now))) }
{
    push_rising(alloc, p, es, into)?;
    push_ordered(alloc, true, false, p, es, into)?;
    push_ordered(alloc, false, true, p, es, into)
}
