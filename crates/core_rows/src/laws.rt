// What holds in each reached state of a fit work whose rows have locals.
ghost use Rattle.std.specs.Prelude.{◌≡◌, ℕ, ℤ, List, Some, slice_get};
ghost use Rattle.core_law.specs.Fit.{IsFit};
ghost use Rattle.core_law.specs.Machine.{State, Reached};
ghost use Rattle.core_rows.specs.Deeds.{Deed, RowWork};
ghost use Rattle.core_rows.specs.Progress.{Progress, ComesStepByStep, StaysTaken};
ghost use Rattle.core_rows.specs.Locals.{row_of};
ghost use Rattle.core_rows.specs.Replay.{work_of};
ghost use Rattle.core_rows.specs.RowLaws.{ReadsInRows, WritesInRows, EndsInRows, HasRead};

use core_law::laws::{ends_are_sequential, reads_are_sequential, registers_are_sequential};

/// A read finds what its instance finds in the rows run in order.
pub fn reads_are_in_rows()
    ensures { (r : RowWork) (c : State) → IsFit (work_of r) → Reached (work_of r) c → ReadsInRows r c }
{
    reads_are_sequential();
}

/// A write stores the value that its instance has in the rows run in order.
pub fn writes_are_in_rows()
    ensures { (r : RowWork) (c : State) → IsFit (work_of r) → Reached (work_of r) c → WritesInRows r c }
{
    registers_are_sequential();
}

/// Once all workers are at their ends, the words are those of the rows run in order.
pub fn ends_are_in_rows()
    ensures { (r : RowWork) (c : State) → IsFit (work_of r) → Reached (work_of r) c → EndsInRows r c }
{
    ends_are_sequential();
}

/// The value of an instance comes from one pass over its row: each instance takes the registers of its
/// own reads, and keeps its value where it says.
pub fn values_come_step_by_step()
    ensures { (n : ℕ) (earlier : List Deed) (d : Deed) (registers : List ℤ) → ComesStepByStep n earlier d registers }
{}

/// Words that are read later change nothing of what the instances before have taken.
pub fn later_reads_change_nothing()
    ensures { (registers more : List ℤ) (ds : List Deed) (p : Progress) → StaysTaken registers more ds p }
{}

/// An instance finds as many registers as those before it in its row read.
pub fn registers_are_those_read()
    ensures { (r : RowWork) (i j : ℕ) (d : Deed) → slice_get (row_of r i) j ≡ Some d → HasRead r i j d }
{}
