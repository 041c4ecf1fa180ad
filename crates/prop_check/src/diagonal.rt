// `diagonal`: entry i of the first array is a place in segment i of the third, at which the second
// holds i.
ghost use Rattle.std.specs.Prelude.{◌↔◌, IsTrue};
ghost use Rattle.loop_core.specs.Lists.{list_of};
ghost use Rattle.loop_core.specs.declared.decl.PropKind.TheVariants.{Diagonal};
ghost use Rattle.index_props.specs.Meanings.{IsDiagonal};
ghost use Rattle.prop_check.specs.Finds.{Shows};

use crate::entry::{entry_after, entry_at};
use crate::least::{Test, least};
use crate::places::Places;
use loop_core::arrays::Arrays;
use std::sync::ledger::Ledger;
use wave_base::steps::Steps;
use wave_base::types::ArrayId;

#[derive(Drop)]
struct OffDiagonal {
    d: ArrayId,
    f: ArrayId,
    p: ArrayId,
}

impl Test for OffDiagonal {
    ghost use Rattle.loop_core.specs.Lists.{list_of};
    ghost use Rattle.index_props.specs.Places.{NoDiagonal};

    ghost is_bad = { λ t a. NoDiagonal (list_of a.lists t.d) (list_of a.lists t.f) (list_of a.lists t.p) };

    fn many(&self, arrays: &Arrays) -> u64 {
        arrays.len(self.d)
    }

    fn fails<L: Ledger>(&self, place: u64, arrays: &Arrays, steps: &mut Steps<L>) -> bool {
        if place >= arrays.len(self.d) {
            return false;
        }
        !is_diagonal(arrays, self, place, steps)
    }
}

fn is_diagonal<L: Ledger>(arrays: &Arrays, at: &OffDiagonal, i: u64, steps: &mut Steps<L>) -> bool
    ensures { IsTrue result
        ↔ IsDiagonal (list_of arrays.now.lists at.now.d) (list_of arrays.now.lists at.now.f) (list_of arrays.now.lists at.now.p) i }
{
    let place = entry_at(arrays, at.d, i, steps);
    if place < entry_at(arrays, at.p, i, steps) {
        return false;
    }
    if place >= entry_after(arrays, at.p, i, steps) {
        return false;
    }
    arrays.at(at.f, place as i128, steps) as i128 == i as i128
}

/// The least place at which the first array's entry isn't the diagonal's, twice.
pub fn diagonal<L: Ledger>(
    arrays: &Arrays,
    d: ArrayId,
    f: ArrayId,
    p: ArrayId,
    steps: &mut Steps<L>,
) -> Option<Places>
    ensures { Shows arrays.now (Diagonal d f p) result }
{
    match least(&OffDiagonal { d, f, p }, arrays, steps) {
        Some(place) => Some(Places::one(place)),
        None => None,
    }
}
