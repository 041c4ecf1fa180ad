// The search in an ascending array.
ghost use Rattle.std.specs.Prelude.{◌≡◌, ◌+◌, ◌≤◌, length};
ghost use Rattle.loop_core.specs.Lists.{list_of};
ghost use Rattle.inspector_run.specs.Tries.{place_up_to, last_place};
ghost use Rattle.inspector_run.specs.Ticks.{digits};
ghost use Rattle.inspector_run.specs.Ready.{IsAscending};

use loop_core::arrays::Arrays;
use std::sync::ledger::Ledger;
use wave_base::steps::Steps;
use wave_base::types::ArrayId;

/// How many places that have a place after them hold at most a value.
pub fn count_up_to<L: Ledger>(
    array: ArrayId,
    value: i128,
    arrays: &Arrays,
    steps: &mut Steps<L>,
) -> u64
    requires { IsAscending (list_of arrays.now.lists array) }
    ensures count { last_place result ≡ place_up_to (list_of arrays.now.lists array) value }
    ensures cost { steps.new ≤ steps.old + digits (length (list_of arrays.now.lists array)) }
{
    let len = arrays.len(array);
    let mut low = 0;
    let mut high = if len == 0 { 0 } else { len - 1 };
    while low < high {
        let middle = low + (high - low) / 2;
        if arrays.at(array, middle as i128, steps) as i128 <= value {
            low = middle + 1;
        } else {
            high = middle;
        }
    }
    low
}
