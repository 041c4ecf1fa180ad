// Numbers are inside their types' ranges, wherever they lie: each is read once, and nothing else is done.
ghost use Rattle.std.specs.Prelude.{ℕ, ◌<◌, ◌^◌, pos, length, slice_index_or, FitsSigned};
ghost use Rattle.std.specs.Int.{w64};
ghost use Rattle.wave_base.specs.declared.types.Cell.{Cell};
ghost use Rattle.sched_types.specs.Order.{tasks_of};
ghost use Rattle.core_cells.specs.Cells.{at_cell};

use loop_core::values::Values;
use sched_types::sched::TaskLists;
use wave_base::types::ArrayId;

fn words_fit(words: &[i64])
    ensures { (at : ℕ) → FitsSigned w64 (slice_index_or words.now at (pos 0)) }
{
    for word in words {
        let _word = *word;
    }
}

/// The words of the first 64 arrays fit 64 bits.
pub fn values_fit(values: &Values)
    ensures { (cell : Cell) → cell.array.0 < 64 → FitsSigned w64 (at_cell values.now cell) }
{
    for array in 0..64u8 {
        words_fit(values.words(ArrayId(array)));
    }
}

/// The number of each worker's tasks fits 64 bits.
pub fn tasks_fit(workers: &TaskLists)
    ensures { (k : ℕ) → length (tasks_of workers.now k) < 2 ^ 64 }
{
    for tasks in workers.as_slice() {
        let _count = tasks.as_slice().len();
    }
}
