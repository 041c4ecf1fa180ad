// What holds in each reached state of a fit work.
ghost use Rattle.std.specs.Prelude.{ℕ};
ghost use Rattle.wave_base.specs.declared.types.Cell.{Cell};
ghost use Rattle.core_law.specs.Fit.{IsFit};
ghost use Rattle.core_law.specs.Machine.{State, Reached};
ghost use Rattle.core_law.specs.Ordered.{IsCounted, NeverFall, IsOrdered};
ghost use Rattle.core_law.specs.Registers.{RegistersRight};
ghost use Rattle.core_law.specs.Teaching.{Teaches};
ghost use Rattle.core_nest.specs.NestLaws.{ReadsAsLoop, WritesAsLoop, WritesAreABeginning, EndsAsLoop, DependencesAreOrdered, SomeWorkerSteps};
ghost use Rattle.core_machine.specs.declared.work.Work.{Work};
ghost use Rattle.core_machine.specs.FitWork.{IsFitWork, plain};
ghost use Rattle.core_machine.specs.TwoRows.{two_work};

use core_law::laws as law;
use core_nest::laws as nest;
use loop_core::laws::unit_forward_is_a_nest;

/// A fit work is a fit machine, so all laws of machines hold of it.
pub fn works_are_fit()
    ensures { (w : Work) → IsFitWork w → IsFit (plain w) }
{
    nest::nests_are_fit();
}

/// A read finds what it finds in the loop.
pub fn reads_are_as_in_the_loop()
    ensures { (w : Work) (c : State) → IsFitWork w → Reached (plain w) c → ReadsAsLoop w.nest w.arrays w.values w.sched.workers c }
{
    nest::reads_are_as_in_the_loop();
}

/// A write stores what it stores in the loop.
pub fn writes_are_as_in_the_loop()
    ensures { (w : Work) (c : State) → IsFitWork w → Reached (plain w) c → WritesAsLoop w.nest w.arrays w.values w.sched.workers c }
{
    nest::writes_are_as_in_the_loop();
}

/// The writes made to a cell are a beginning of the loop's writes to it, and it holds what it holds after them.
pub fn writes_are_a_beginning_of_the_loop()
    ensures { (w : Work) (c : State) (cell : Cell) → IsFitWork w → Reached (plain w) c → WritesAreABeginning w.nest w.arrays w.values w.sched.workers c cell }
{
    nest::writes_are_a_beginning_of_the_loop();
}

/// A worker's registers hold the words that its reads in the row found in the loop, in order. There are none at
/// a look and at the script's end.
pub fn registers_are_as_in_the_loop()
    ensures { (w : Work) (c : State) (k : ℕ) → IsFitWork w → Reached (plain w) c → RegistersRight (plain w) c k }
{
    nest::nests_are_fit();
    law::registers_are_sequential();
}

/// A done count is the number of its worker's finished tasks.
pub fn counts_are_finished_tasks()
    ensures { (w : Work) (c : State) → IsFitWork w → Reached (plain w) c → IsCounted (plain w) c }
{
    nest::nests_are_fit();
    law::counts_are_finished_tasks();
}

/// No event lowers a done count.
pub fn counts_never_fall()
    ensures { (w : Work) (c : State) → NeverFall (plain w) c }
{
    law::counts_never_fall();
}

/// Once a worker is past the looks of a task, all tasks before that task are finished.
pub fn order_is_kept()
    ensures { (w : Work) (c : State) → IsFitWork w → Reached (plain w) c → IsOrdered (plain w) c }
{
    nest::nests_are_fit();
    law::order_is_kept();
}

/// Past a look its tasks are finished, and a later read of their cells finds their values already there.
pub fn looks_teach()
    ensures { (w : Work) (c : State) → IsFitWork w → Reached (plain w) c → Teaches (plain w) c }
{
    nest::nests_are_fit();
    law::looks_teach();
}

/// Each true, anti and output dependence is ordered by the schedule, and once the worker of its second row is
/// past the looks of that row's task, the task of its first row is finished.
pub fn dependences_are_ordered()
    ensures { (w : Work) (c : State) → IsFitWork w → Reached (plain w) c → DependencesAreOrdered w.nest w.arrays w.values w.sched.workers c }
{
    nest::dependences_are_ordered();
}

/// Until all workers are at their ends, some worker can step.
pub fn some_worker_steps()
    ensures { (w : Work) (c : State) → IsFitWork w → Reached (plain w) c → SomeWorkerSteps w.nest w.arrays w.values w.sched.workers c }
{
    nest::some_worker_steps();
}

/// Once all workers are at their ends, the arrays are those of the loop.
pub fn ends_are_as_in_the_loop()
    ensures { (w : Work) (c : State) → IsFitWork w → Reached (plain w) c → EndsAsLoop w.nest w.arrays w.values w.sched.workers c }
{
    nest::ends_are_as_in_the_loop();
}

/// Some work is fit: unit forward substitution with two rows on two workers, of which the second waits for the first.
pub fn two_rows_are_fit()
    ensures { IsFitWork two_work }
{
    unit_forward_is_a_nest();
    law::two_rows_are_fit();
}
