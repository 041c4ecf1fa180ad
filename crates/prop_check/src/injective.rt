// `injective`: no two entries are equal. The entries are sorted, each with its place, so that equal
// ones stand beside each other.
ghost use Rattle.std.specs.Prelude.{◌≡◌, ◌+◌, ◌<◌, length, IfOk, IsPermutation};
ghost use Rattle.loop_core.specs.Lists.{list_of};
ghost use Rattle.loop_core.specs.declared.decl.PropKind.TheVariants.{Injective};
ghost use Rattle.prop_check.specs.Finds.{Shows};
ghost use Rattle.prop_check.specs.Twins.{HoldsAll, IsInOrder, FirstTwins};

use crate::entry::entry_at;
use crate::places::Places;
use loop_core::arrays::Arrays;
use std::alloc::Global;
use std::sync::ledger::Ledger;
use wave_base::steps::Steps;
use wave_base::types::{ArrayId, Memory};

// An entry and its place.
#[derive(Clone, Copy, PartialEq, Eq, PartialOrd, Ord, Drop)]
struct Held {
    value: i64,
    place: u64,
}

/// The least place with an equal entry before it, as the second place, and the least such place.
pub fn injective<L: Ledger>(
    alloc: Global,
    arrays: &Arrays,
    f: ArrayId,
    steps: &mut Steps<L>,
) -> Result<Option<Places>, Memory>
    ensures { IfOk result (Shows arrays.now (Injective f)) }
{
    let mut entries = entries_of(alloc, arrays, f, steps)?;
    settle(&mut entries);
    Ok(first_twins(entries.as_slice()))
}

fn entries_of<L: Ledger>(
    alloc: Global,
    arrays: &Arrays,
    f: ArrayId,
    steps: &mut Steps<L>,
) -> Result<Vec<Held>, Memory>
    ensures { IfOk result (λ es. HoldsAll (list_of arrays.now.lists f) es.items) }
{
    let many = arrays.len(f);
    let mut entries = Vec::with_capacity(alloc, many as usize)?;
    for place in 0..many {
        let value = entry_at(arrays, f, place, steps);
        entries.push(Held { value, place })?;
    }
    Ok(entries)
}

fn settle(entries: &mut Vec<Held>)
    ensures order { IsInOrder entries.new.items }
    ensures same { IsPermutation entries.old.items entries.new.items }
{
    entries.sort_unstable();
}

fn first_twins(entries: &[Held]) -> Option<Places>
    ensures { FirstTwins entries.now (length entries.now) result }
{
    let mut first = None;
    for k in 0..entries.len() {
        first = with_next(first, entries, k);
    }
    first
}

// The first twins, where the entry at k and the next one may be such too.
fn with_next(first: Option<Places>, entries: &[Held], k: usize) -> Option<Places>
    requires inside { k < length entries.now }
    requires before { FirstTwins entries.now k first }
    ensures { FirstTwins entries.now (k + 1) result }
{
    if k + 1 >= entries.len() {
        return first;
    }
    let here = entries[k];
    let next = entries[k + 1];
    if here.value != next.value || here.place >= next.place {
        return first;
    }
    match first {
        None => Some(twins(here, next)),
        Some(x) => {
            if x.second <= next.place {
                first
            } else {
                Some(twins(here, next))
            }
        }
    }
}

fn twins(here: Held, next: Held) -> Places
    ensures { result ≡ record { first = here.place; second = next.place } }
{
    Places {
        first: here.place,
        second: next.place,
    }
}
