// `before`: each entry of an array is at most that of another at the same place.
ghost use Rattle.loop_core.specs.declared.decl.PropKind.TheVariants.{Before};
ghost use Rattle.prop_check.specs.Finds.{Shows};

use crate::entry::entry_at;
use crate::least::{Test, least};
use crate::places::Places;
use loop_core::arrays::Arrays;
use std::sync::ledger::Ledger;
use wave_base::steps::Steps;
use wave_base::types::ArrayId;

#[derive(Drop)]
struct Above {
    f: ArrayId,
    g: ArrayId,
}

impl Test for Above {
    ghost use Rattle.loop_core.specs.Lists.{list_of};
    ghost use Rattle.index_props.specs.Places.{NotBefore};

    ghost is_bad = { λ t a. NotBefore (list_of a.lists t.f) (list_of a.lists t.g) };

    fn many(&self, arrays: &Arrays) -> u64 {
        arrays.len(self.f)
    }

    fn fails<L: Ledger>(&self, place: u64, arrays: &Arrays, steps: &mut Steps<L>) -> bool {
        if place >= arrays.len(self.f) {
            return false;
        }
        let entry = entry_at(arrays, self.f, place, steps);
        entry_at(arrays, self.g, place, steps) < entry
    }
}

/// The least place at which the first array's entry is above the second's, twice.
pub fn before<L: Ledger>(
    arrays: &Arrays,
    f: ArrayId,
    g: ArrayId,
    steps: &mut Steps<L>,
) -> Option<Places>
    ensures { Shows arrays.now (Before f g) result }
{
    match least(&Above { f, g }, arrays, steps) {
        Some(place) => Some(Places::one(place)),
        None => None,
    }
}
