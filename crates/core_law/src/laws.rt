// What holds in each reached state of a fit work.
ghost use Rattle.std.specs.Prelude.{◌≡◌, ◌<◌, pos, ℕ, [], ◌∷◌, length, slice_index_or};
ghost use Rattle.wave_base.specs.declared.types.Cell.{Cell};
ghost use Rattle.core_law.specs.Works.{Work};
ghost use Rattle.core_law.specs.Numbers.{IsNumbered};
ghost use Rattle.core_law.specs.Fit.{IsFit};
ghost use Rattle.core_law.specs.Machine.{State, Reached};
ghost use Rattle.core_law.specs.Values.{ReadsRight, WritesRight, EndsRight};
ghost use Rattle.core_law.specs.Registers.{RegistersRight};
ghost use Rattle.core_law.specs.Prefixes.{IsPrefix};
ghost use Rattle.core_law.specs.Ordered.{IsCounted, FinishedArePassed, NeverFall, IsOrdered, DependencesAreKept};
ghost use Rattle.core_law.specs.Stepping.{EndedOrSteps};
ghost use Rattle.core_law.specs.Teaching.{Teaches};
ghost use Rattle.core_law.specs.Rounds.{RoundsEnd};
ghost use Rattle.core_law.specs.Bounds.{HasShape, HasActions};
ghost use Rattle.core_law.specs.Standing.{HasEnded};
ghost use Rattle.core_law.specs.TwoRows.{two_rows};

/// A read finds what the sequential run reads there.
pub fn reads_are_sequential()
    ensures { (w : Work) (c : State) → IsFit w → Reached w c → ReadsRight w c }
{}

/// A write stores what the sequential run writes there.
pub fn writes_are_sequential()
    ensures { (w : Work) (c : State) → IsFit w → Reached w c → WritesRight w c }
{}

/// A worker's registers are the sequential values of the reads that it has made in its row.
pub fn registers_are_sequential()
    ensures { (w : Work) (c : State) (k : ℕ) → IsFit w → Reached w c → RegistersRight w c k }
{}

/// The writes made to a cell are a beginning of the sequential run's, and it holds the value after them.
pub fn writes_are_prefixes()
    ensures { (w : Work) (c : State) (cell : Cell) → IsFit w → Reached w c → IsPrefix w c cell }
{}

/// A done count is the number of its worker's finished tasks.
pub fn counts_are_finished_tasks()
    ensures { (w : Work) (c : State) → IsFit w → Reached w c → IsCounted w c }
{}

/// The finished tasks are those whose last action is made.
pub fn finished_tasks_are_passed()
    ensures { (w : Work) (c : State) → IsFit w → Reached w c → FinishedArePassed w c }
{}

/// No event lowers a done count.
pub fn counts_never_fall()
    ensures { (w : Work) (c : State) → NeverFall w c }
{}

/// Once a worker is past the looks of a task, all tasks before that task are finished.
pub fn order_is_kept()
    ensures { (w : Work) (c : State) → IsFit w → Reached w c → IsOrdered w c }
{}

/// Once a worker is past the looks of a task, the tasks of all rows on which its rows depend are finished.
pub fn dependences_are_kept()
    ensures { (w : Work) (c : State) → IsFit w → Reached w c → DependencesAreKept w c }
{}

/// Until all workers are at their ends, some worker can step.
pub fn some_worker_can_step()
    ensures { (w : Work) (c : State) → IsFit w → Reached w c → EndedOrSteps w c }
{}

/// Once all workers are at their ends, the words are those of the sequential run.
pub fn ends_are_sequential()
    ensures { (w : Work) (c : State) → IsFit w → Reached w c → EndsRight w c }
{}

/// Past a look its tasks are finished, and a later read of their cells finds their values already there.
pub fn looks_teach()
    ensures { (w : Work) (c : State) → IsFit w → Reached w c → Teaches w c }
{}

/// A round of all workers makes an action, until they are at their ends.
pub fn rounds_end()
    ensures { (w : Work) (c : State) → IsFit w → Reached w c → RoundsEnd w c }
{}

/// Counts, places and lists stay inside their bounds.
pub fn shapes_stay()
    ensures { (w : Work) (c : State) → IsFit w → Reached w c → HasShape w c }
{}

/// The actions of scripts name workers, tasks, instances and cells that are there.
pub fn actions_are_there()
    ensures { (w : Work) (k p : ℕ) → IsFit w → HasActions w k p }
{}

/// Instances are numbered row after row.
pub fn instances_are_numbered()
    ensures { (w : Work) (i j : ℕ) → i < length w.rows → j < length (slice_index_or w.rows i []) → IsNumbered w i j }
{}

/// Some work is fit: two rows on two workers, of which the second depends on the first.
pub fn two_rows_are_fit()
    ensures { IsFit two_rows }
{}

/// Whoever steps when, both cells of the two rows hold 5 in the end.
pub fn two_rows_end()
    ensures { (c : State) → Reached two_rows c → HasEnded two_rows c → c.cells ≡ (pos 5 ∷ pos 5 ∷ []) ∷ [] }
{}
