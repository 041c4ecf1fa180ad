// `sorted`, `below` and `upto` as properties with places.
ghost use Rattle.std.specs.Prelude.{◌≡◌, ◌<◌, ◌+◌, ◌^◌, ℕ, IfSome};
ghost use Rattle.loop_core.specs.declared.decl.PropKind.TheVariants.{Sorted, Below, Upto};
ghost use Rattle.prop_check.specs.Finds.{Shows};
ghost use Rattle.prop_check.specs.Segments.{known};
ghost use Rattle.loop_core.specs.Lists.{list_of};
ghost use Rattle.prop_check.specs.Segments.{IsBadIn, FindsIn};

use crate::neighbours::rising;
use crate::places::Places;
use crate::rule::{Rule, Segmented, Spot};
use crate::segment::first_spot;
use crate::skips::unknown;
use loop_core::arrays::Arrays;
use std::alloc::Global;
use std::sync::ledger::Ledger;
use wave_base::steps::Steps;
use wave_base::types::ArrayId;

// Segments overlap only where the array that bounds them falls.
fn skips_for<L: Ledger>(
    alloc: Global,
    arrays: &Arrays,
    by: Segmented,
    steps: &mut Steps<L>,
) -> Vec<u64>
    ensures { (k : ℕ) → known result.items k ≡ k }
{
    match rising(arrays, by.p, steps) {
        None => unknown(alloc, 0),
        Some(_) => unknown(alloc, arrays.len(by.f)),
    }
}

fn first<L: Ledger>(
    alloc: Global,
    arrays: &Arrays,
    by: Segmented,
    steps: &mut Steps<L>,
) -> Option<Spot>
    ensures least { FindsIn (IsBadIn by.rule (list_of arrays.now.lists by.f) (list_of arrays.now.lists by.p)) result }
    ensures small { IfSome result (λ x. x.place + 1 < 2 ^ 64) }
{
    let mut skips = skips_for(alloc, arrays, by, steps);
    first_spot(arrays, by, &mut skips, steps)
}

#[tactic(auto, using(crate::proofs::Holds::sorted))]
/// The least segment with an entry that is not below the next one: its least such place, and the
/// next place.
pub fn sorted<L: Ledger>(
    alloc: Global,
    arrays: &Arrays,
    f: ArrayId,
    p: ArrayId,
    steps: &mut Steps<L>,
) -> Option<Places>
    ensures { Shows arrays.now (Sorted f p) result }
{
    let rule = Rule::Sorted;
    match first(alloc, arrays, Segmented { rule, f, p }, steps) {
        Some(spot) => Some(Places::neighbours(spot.place)),
        None => None,
    }
}

#[tactic(auto, using(crate::proofs::Holds::below))]
/// The least segment with an entry that is not below the segment's number, and the least place of
/// such an entry in it.
pub fn below<L: Ledger>(
    alloc: Global,
    arrays: &Arrays,
    f: ArrayId,
    p: ArrayId,
    steps: &mut Steps<L>,
) -> Option<Places>
    ensures { Shows arrays.now (Below f p) result }
{
    let rule = Rule::Below;
    match first(alloc, arrays, Segmented { rule, f, p }, steps) {
        Some(spot) => Some(Places {
            first: spot.segment,
            second: spot.place,
        }),
        None => None,
    }
}

#[tactic(auto, using(crate::proofs::Holds::upto))]
/// The least segment with an entry above the segment's number, and the least place of such an entry
/// in it.
pub fn upto<L: Ledger>(
    alloc: Global,
    arrays: &Arrays,
    f: ArrayId,
    p: ArrayId,
    steps: &mut Steps<L>,
) -> Option<Places>
    ensures { Shows arrays.now (Upto f p) result }
{
    let rule = Rule::Upto;
    match first(alloc, arrays, Segmented { rule, f, p }, steps) {
        Some(spot) => Some(Places {
            first: spot.segment,
            second: spot.place,
        }),
        None => None,
    }
}
