// The instances at two entries of one array.
ghost use Rattle.std.specs.Prelude.{◌≡◌, ◌++◌, map, OnOk};
ghost use Rattle.index_props.specs.Entries.{of_array as those_of};
ghost use Rattle.index_props.specs.Rules.{pair_instance as pair, pair_instances, equal_instances};
ghost use Rattle.index_props.specs.Within.{EntriesWithin};

use crate::entry::Entry;
use crate::groups::of_array;
use crate::lines::pair_instance;
use crate::rule::{PairLine, RuleInst};
use sqlite_items::Items;
use std::alloc::Global;
use wave_base::types::Memory;

/// A line's instances at all pairs of these entries, the first entry going slower.
pub fn push_pairs(
    alloc: Global,
    line: PairLine,
    es: &[Entry],
    into: &mut Items<RuleInst>,
) -> Result<(), Memory>
    ensures { OnOk result (into.new ≡ into.old ++ pair_instances line es.now) }
{
    for s in es {
        push_pairs_from(alloc, line, s, es, into)?;
    }
    Ok(())
}

fn push_pairs_from(
    alloc: Global,
    line: PairLine,
    s: &Entry,
    es: &[Entry],
    into: &mut Items<RuleInst>,
) -> Result<(), Memory>
    ensures { OnOk result (into.new ≡ into.old ++ map (pair line s.now) es.now) }
{
    for t in es {
        into.push(pair_instance(alloc, line, s, t)?)?;
    }
    Ok(())
}

/// The instances of equal arguments at all pairs of entries of any one array.
pub fn push_equal_arguments(
    alloc: Global,
    es: &[Entry],
    into: &mut Items<RuleInst>,
) -> Result<(), Memory>
    requires { EntriesWithin es.now }
    ensures { OnOk result (into.new ≡ into.old ++ equal_instances es.now) }
{
    for s in es {
        let group = of_array(alloc, s.array(), es)?;
        push_pairs_from(alloc, PairLine::Equal, s, group.as_slice(), into)?;
    }
    Ok(())
}
