// `range`: each entry lies from one bound up to but not including another.
ghost use Rattle.std.specs.Prelude.{[]};
ghost use Rattle.loop_core.specs.declared.decl.PropKind.TheVariants.{Range};
ghost use Rattle.prop_check.specs.Finds.{Shows};

use crate::entry::{bound, entry_at};
use crate::least::{Test, least};
use crate::places::Places;
use loop_core::arrays::Arrays;
use loop_core::nest::Term;
use std::sync::ledger::Ledger;
use wave_base::steps::Steps;
use wave_base::types::ArrayId;

#[derive(Drop)]
struct OutOf {
    f: ArrayId,
    lo: i128,
    hi: i128,
}

impl Test for OutOf {
    ghost use Rattle.loop_core.specs.Lists.{list_of};
    ghost use Rattle.index_props.specs.Places.{OutOfRange};

    ghost is_bad = { λ t a. OutOfRange (list_of a.lists t.f) t.lo t.hi };

    fn many(&self, arrays: &Arrays) -> u64 {
        arrays.len(self.f)
    }

    fn fails<L: Ledger>(&self, place: u64, arrays: &Arrays, steps: &mut Steps<L>) -> bool {
        if place >= arrays.len(self.f) {
            return false;
        }
        let value = entry_at(arrays, self.f, place, steps) as i128;
        value < self.lo || self.hi <= value
    }
}

/// The least place of an entry that is out of the range, twice.
pub fn out_of_range<L: Ledger>(
    arrays: &Arrays,
    f: ArrayId,
    lo: &Term,
    hi: &Term,
    steps: &mut Steps<L>,
) -> Option<Places>
    ensures { Shows arrays.now (Range f lo.now hi.now) result }
{
    let lo = bound(arrays, lo, steps);
    let hi = bound(arrays, hi, steps);
    match least(&OutOf { f, lo, hi }, arrays, steps) {
        Some(place) => Some(Places::one(place)),
        None => None,
    }
}
