// The seat of a worker.
ghost use Rattle.std.specs.Prelude.{◌≡◌, ◌+◌, []};
ghost use Rattle.done_words.specs.Views.{number_of, tasks_done, after_look, after_read, after_write, after_finish, Looks, Reads, Writes, Finishes};
ghost use Rattle.done_words.specs.WordsOf.{word_number};
ghost use Rattle.done_words.specs.Told.{Loaded, HasRisen, Teaches, ReadsAsInLoop};

use crate::board::Board;
use crate::plays;
use crate::rule::Sit;
use core_machine::laws::reads_are_as_in_the_loop;
use wave_base::types::Cell;

/// The seat of one worker, with its number and the number of its finished tasks.
#[derive(Drop)]
pub struct WorkSeat {
    pub(crate) seat: Sit,
    pub(crate) worker: u32,
    pub(crate) done: u64,
    ghost bare: { seat.me.1 ≡ [] },
    ghost is: { number_of seat.me.0 ≡ worker + 1 },
    ghost done_is: { tasks_done seat.me.0 ≡ done },
}

impl WorkSeat {
    ghost use Rattle.done_words.specs.Seats.{work_of, view, IsOn};

    /// Loads the done word of a worker. The seat moves on exactly where this count is at least the count needed;
    /// else it stays, with one miss more. No look is promised to pass.
    pub fn look(&mut self, board: &Board, from: u32) -> u64
        requires own { IsOn self.old board.now }
        requires next { Looks (view self.old) from }
        ensures own { IsOn self.new board.now }
        ensures view { view self.new ≡ after_look (view self.old) from result }
        ensures loaded { Loaded (view self.old) from result }
        ensures risen { HasRisen (view self.old) from result }
        ensures taught { Teaches (view self.old) from }
    {
        board
            .words
            .shared
            .load::<plays::Looks>(&mut self.seat, from as usize)
    }

    /// Loads the word of a cell, which holds what the loop run in order reads at this place.
    pub fn read(&mut self, board: &Board, cell: Cell) -> i64
        requires own { IsOn self.old board.now }
        requires next { Reads (view self.old) cell }
        ensures own { IsOn self.new board.now }
        ensures view { view self.new ≡ after_read (view self.old) result }
        ensures value { ReadsAsInLoop (view self.old) cell result }
    {
        reads_are_as_in_the_loop();
        let first = board.spans[cell.array.0 as usize].first;
        board
            .words
            .shared
            .load::<plays::Reads>(&mut self.seat, first + cell.at as usize)
            .cast_signed()
    }

    /// Stores the value that the next action, a write to this cell, has over what its row has read.
    pub fn write(&mut self, board: &Board, cell: Cell, value: i64)
        requires own { IsOn self.old board.now }
        requires next { Writes (view self.old) cell value }
        ensures own { IsOn self.new board.now }
        ensures view { view self.new ≡ after_write (view self.old) }
    {
        let first = board.spans[cell.array.0 as usize].first;
        board.words.shared.store::<plays::Writes>(
            &mut self.seat,
            first + cell.at as usize,
            value.cast_unsigned(),
        );
    }

    /// Raises the worker's own done word by one.
    pub fn finish(&mut self, board: &Board)
        requires own { IsOn self.old board.now }
        requires next { Finishes (view self.old) }
        ensures own { IsOn self.new board.now }
        ensures view { view self.new ≡ after_finish (view self.old) }
    {
        let done = self.done + 1;
        board
            .words
            .shared
            .store::<plays::Finishes>(&mut self.seat, self.worker as usize, done);
        self.done = done;
    }
}
