// The seat of whoever runs the workers.
ghost use Rattle.std.specs.Prelude.{◌≡◌, ◌<◌, [], length};
ghost use Rattle.done_words.specs.Views.{leads, made_of, begun, one_more, taken_back, IsAtEnd};

use crate::board::Board;
use crate::plays::{Makes, TakesBack};
use crate::rule::Sit;
use crate::work_seat::WorkSeat;

/// The seat that makes the workers' seats and takes them back. It has no bytes.
#[derive(Drop)]
pub struct MainSeat {
    pub(crate) seat: Sit,
    ghost bare: { seat.me.1 ≡ [] },
    ghost is: { leads seat.me.0 ≡ 1 },
}

impl MainSeat {
    ghost use Rattle.done_words.specs.Seats.{work_of, view, main_view, IsOn, IsMainOf};

    /// The seat of the next worker, at the start of its script. The workers are split in order from 0.
    pub fn split(&mut self, board: &Board, worker: u32) -> WorkSeat
        requires own { IsMainOf self.old board.now }
        requires next { (worker ≡ made_of (main_view self.old)) × (worker < length (work_of board.now).sched.workers) }
        ensures own { IsMainOf self.new board.now × IsOn result board.now }
        ensures main { main_view self.new ≡ one_more (main_view self.old) }
        ensures new { view result ≡ begun (work_of board.now) worker }
    {
        let seat = board.words.shared.split_seat::<Makes>(&mut self.seat);
        WorkSeat {
            seat,
            worker,
            done: 0,
        }
    }

    /// Takes back a seat that has ended its script.
    pub fn join(&mut self, board: &Board, seat: WorkSeat)
        requires own { IsMainOf self.old board.now × IsOn seat board.now }
        requires end { IsAtEnd (view seat) }
        ensures own { IsMainOf self.new board.now }
        ensures main { main_view self.new ≡ taken_back (main_view self.old) (view seat) }
    {
        let WorkSeat {
            seat,
            worker: _,
            done: _,
        } = seat;
        board
            .words
            .shared
            .join_seat::<TakesBack>(&mut self.seat, seat);
    }
}
