// `rising` and `strict`: each entry is at most the next one, or below it.
ghost use Rattle.std.specs.Prelude.{◌↔◌, IsTrue};
ghost use Rattle.loop_core.specs.Lists.{list_of};
ghost use Rattle.loop_core.specs.declared.decl.PropKind.TheVariants.{Rising, Strict};
ghost use Rattle.prop_check.specs.Finds.{DoesNotRise, Shows};

use crate::entry::{entry_after, entry_at};
use crate::least::{Test, least};
use crate::places::Places;
use loop_core::arrays::Arrays;
use std::sync::ledger::Ledger;
use wave_base::steps::Steps;
use wave_base::types::ArrayId;

// A place whose entry is above the next one or, where it is strict, not below it.
#[derive(Drop)]
struct Unrisen {
    p: ArrayId,
    strict: bool,
}

impl Test for Unrisen {
    ghost use Rattle.loop_core.specs.Lists.{list_of};
    ghost use Rattle.prop_check.specs.Finds.{DoesNotRise};

    ghost is_bad = { λ t a. DoesNotRise t.strict (list_of a.lists t.p) };

    fn many(&self, arrays: &Arrays) -> u64 {
        arrays.len(self.p)
    }

    fn fails<L: Ledger>(&self, place: u64, arrays: &Arrays, steps: &mut Steps<L>) -> bool {
        does_not_rise(arrays, self.p, self.strict, place, steps)
    }
}

/// Whether the entry at a place is above the next one or, where it is strict, not below it.
pub fn does_not_rise<L: Ledger>(
    arrays: &Arrays,
    p: ArrayId,
    strict: bool,
    place: u64,
    steps: &mut Steps<L>,
) -> bool
    ensures { IsTrue result ↔ DoesNotRise strict (list_of arrays.now.lists p) place }
{
    let many = arrays.len(p);
    if place >= many || place + 1 >= many {
        return false;
    }
    let here = entry_at(arrays, p, place, steps);
    let next = entry_after(arrays, p, place, steps);
    next < here || strict && next == here
}

#[tactic(auto, using(crate::proofs::Holds::rising))]
/// The least place whose entry is above the next one, and the next place.
pub fn rising<L: Ledger>(arrays: &Arrays, p: ArrayId, steps: &mut Steps<L>) -> Option<Places>
    ensures { Shows arrays.now (Rising p) result }
{
    match least(&Unrisen { p, strict: false }, arrays, steps) {
        Some(place) => Some(Places::neighbours(place)),
        None => None,
    }
}

#[tactic(auto, using(crate::proofs::Holds::strict))]
/// The least place whose entry is not below the next one, and the next place.
pub fn strict<L: Ledger>(arrays: &Arrays, p: ArrayId, steps: &mut Steps<L>) -> Option<Places>
    ensures { Shows arrays.now (Strict p) result }
{
    match least(&Unrisen { p, strict: true }, arrays, steps) {
        Some(place) => Some(Places::neighbours(place)),
        None => None,
    }
}
