// The pairs of a plan, by one thread.
ghost use Rattle.std.specs.Prelude.{◌≡◌};
ghost use Rattle.std.specs.List.{All};
ghost use Rattle.inspector_run.specs.IsPlan.{IsPlan};
ghost use Rattle.inspector_run.specs.Ready.{SearchesAscending};

use inspector_run::pairs::pairs;
use inspector_run::plan::InspPlan;
use loop_core::arrays::Arrays;
use std::alloc::Global;
use std::marker::Brand;
use std::sync::ledger::{Blank, Ledger};
use wave_base::steps::Steps;
use wave_base::types::{Memory, RowId};

/// The pairs of a plan.
pub fn pairs_alone(
    alloc: Global,
    plan: &InspPlan,
    arrays: &Arrays,
) -> Result<Vec<(RowId, RowId)>, Memory>
    requires plan { IsPlan plan.now.ops }
    requires ascending { All (SearchesAscending arrays.now) plan.now.ops }
{
    counted::<Brand>(alloc, plan, arrays, Blank::new(1))
}

fn counted<L: Ledger>(
    alloc: Global,
    plan: &InspPlan,
    arrays: &Arrays,
    blank: Blank,
) -> Result<Vec<(RowId, RowId)>, Memory>
    requires name { blank.name ≡ L.name }
    requires parts { blank.parts ≡ L.parts }
    requires one { blank.parts ≡ 1 }
    requires plan { IsPlan plan.now.ops }
    requires ascending { All (SearchesAscending arrays.now) plan.now.ops }
{
    let mut steps = Steps::<L>::open(blank);
    pairs(alloc, plan, arrays, &mut steps)
}
