// What holds in each reached state of a fit nest.
ghost use Rattle.std.specs.Prelude.{◌≡◌, ◌<◌, pos, true, ℕ, List, ℤ, Contains};
ghost use Rattle.wave_base.specs.declared.types.Cell.{Cell};
ghost use Rattle.sched_types.specs.declared.sched.Task.{Task};
ghost use Rattle.loop_core.specs.declared.nest.Nest.{Nest};
ghost use Rattle.loop_core.specs.Lists.{Lists};
ghost use Rattle.loop_core.specs.Shape.{is_target};
ghost use Rattle.loop_core.specs.declared.effect.Effect.TheVariants.{Sets};
ghost use Rattle.loop_core.specs.Instances.{Instance, instances};
ghost use Rattle.loop_core.specs.declared.place.Place.{Place};
ghost use Rattle.core_law.specs.Fit.{IsFit};
ghost use Rattle.core_law.specs.Machine.{State, Reached};
ghost use Rattle.loop_core.specs.UnitForward.{unit_forward};
ghost use Rattle.core_nest.specs.FitNest.{IsFitNest};
ghost use Rattle.core_nest.specs.OneRow.{one_index, one_data, one_worker};
ghost use Rattle.core_nest.specs.NestLaws.{plain_work, ReadsAsLoop, WritesAsLoop, WritesAreABeginning, EndsAsLoop, DependencesAreOrdered, SomeWorkerSteps};

use core_law::laws::{actions_are_there, order_is_kept, some_worker_can_step, writes_are_prefixes};
use core_rows::laws::{ends_are_in_rows, reads_are_in_rows, writes_are_in_rows};
use loop_core::laws::unit_forward_is_a_nest;

/// Each place that an instance sets is of an array that the nest writes.
pub fn instances_write_targets()
    ensures { (a : Lists) (nest : Nest) (i : ℤ) (s : Instance) (p : Place) → Contains (instances a nest i) s → s.effect ≡ Sets p → is_target nest p.array ≡ true }
{}

/// The work of a fit nest is fit, so all laws of works hold of it.
pub fn nests_are_fit()
    ensures { (nest : Nest) (a : Lists) (x : List (List ℤ)) (workers : List (List Task)) → IsFitNest nest a x workers → IsFit (plain_work nest a x workers) }
{}

/// A read finds what it finds in the loop.
pub fn reads_are_as_in_the_loop()
    ensures { (nest : Nest) (a : Lists) (x : List (List ℤ)) (workers : List (List Task)) (c : State) → IsFitNest nest a x workers → Reached (plain_work nest a x workers) c → ReadsAsLoop nest a x workers c }
{
    reads_are_in_rows();
}

/// A write stores what it writes in the loop.
pub fn writes_are_as_in_the_loop()
    ensures { (nest : Nest) (a : Lists) (x : List (List ℤ)) (workers : List (List Task)) (c : State) → IsFitNest nest a x workers → Reached (plain_work nest a x workers) c → WritesAsLoop nest a x workers c }
{
    actions_are_there();
    writes_are_in_rows();
}

/// The writes made to a cell are a beginning of the loop's writes to it, and it holds what it holds after them.
pub fn writes_are_a_beginning_of_the_loop()
    ensures { (nest : Nest) (a : Lists) (x : List (List ℤ)) (workers : List (List Task)) (c : State) (cell : Cell) → IsFitNest nest a x workers → Reached (plain_work nest a x workers) c → WritesAreABeginning nest a x workers c cell }
{
    writes_are_prefixes();
}

/// Once all workers are at their ends, the arrays are those of the loop.
pub fn ends_are_as_in_the_loop()
    ensures { (nest : Nest) (a : Lists) (x : List (List ℤ)) (workers : List (List Task)) (c : State) → IsFitNest nest a x workers → Reached (plain_work nest a x workers) c → EndsAsLoop nest a x workers c }
{
    ends_are_in_rows();
}

/// Each true, anti and output dependence is ordered.
pub fn dependences_are_ordered()
    ensures { (nest : Nest) (a : Lists) (x : List (List ℤ)) (workers : List (List Task)) (c : State) → IsFitNest nest a x workers → Reached (plain_work nest a x workers) c → DependencesAreOrdered nest a x workers c }
{
    order_is_kept();
}

/// Until all workers are at their ends, some worker can step.
pub fn some_worker_steps()
    ensures { (nest : Nest) (a : Lists) (x : List (List ℤ)) (workers : List (List Task)) (c : State) → IsFitNest nest a x workers → Reached (plain_work nest a x workers) c → SomeWorkerSteps nest a x workers c }
{
    some_worker_can_step();
}

/// Some nest is fit: unit forward substitution with one row and one worker.
pub fn one_row_is_fit()
    ensures { IsFitNest unit_forward one_index one_data one_worker }
{
    unit_forward_is_a_nest();
}
