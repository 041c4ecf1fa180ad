// The rows of a task.
ghost use Rattle.std.specs.Prelude.{◌≡◌, ◌<◌};
ghost use Rattle.loop_core.specs.Shape.{is_target};
ghost use Rattle.core_law.specs.Scripts.{row_actions};
ghost use Rattle.core_value.specs.Taken.{flagged};
ghost use Rattle.core_machine.specs.FitWork.{IsFitWork, plain};
ghost use Rattle.done_words.specs.Seats.{work_of, view, IsOn};
ghost use Rattle.p2p_exec.specs.Tasks.{rows_actions, MayAct, Acts, AreRows};

use crate::run::Run;
use core_machine::work::Work;
use done_words::board::Board;
use done_words::work_seat::WorkSeat;
use loop_core::locals::Locals;
use wave_base::types::RowId;

/// Runs these rows of a work on its board, one after another. It takes no memory.
pub fn run_rows(work: &Work, written: &[bool], board: &Board, seat: &mut WorkSeat, rows: &[RowId])
    requires fit { IsFitWork work.now }
    requires written { flagged written.now ≡ is_target work.now.nest }
    requires board { work_of board.now ≡ work.now }
    requires own { IsOn seat.old board.now }
    requires rows { AreRows work.now rows.now }
    requires next { MayAct work.now (view seat.old) (rows_actions work.now rows.now) }
    ensures own { IsOn seat.new board.now }
    ensures ran { Acts work.now (view seat.old) (rows_actions work.now rows.now) (view seat.new) }
{
    for row in rows {
        run_row(work, written, board, seat, *row);
    }
}

// A row begins with all its locals 0, and gives the seat back at its end.
fn run_row(work: &Work, written: &[bool], board: &Board, seat: &mut WorkSeat, row: RowId)
    requires fit { IsFitWork work.now }
    requires written { flagged written.now ≡ is_target work.now.nest }
    requires board { work_of board.now ≡ work.now }
    requires own { IsOn seat.old board.now }
    requires here { row.0 < work.now.arrays.n }
    requires next { MayAct work.now (view seat.old) (row_actions (plain work.now) row) }
    ensures own { IsOn seat.new board.now }
    ensures ran { Acts work.now (view seat.old) (row_actions (plain work.now) row) (view seat.new) }
{
    let mut run = Run {
        seat,
        board,
        values: &work.values,
        written,
        locals: Locals::zeros(),
    };
    run.row(work, row);
}
