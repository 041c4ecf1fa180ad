// A worker with its seat.
ghost use Rattle.std.specs.Prelude.{◌≡◌};
ghost use Rattle.done_words.specs.Seats.{view};
ghost use Rattle.done_words.specs.Views.{IsAtEnd};
ghost use Rattle.p2p_exec.specs.declared.worker.Advance.TheVariants.{Finished};
ghost use Rattle.p2p_team.specs.Hands.{Stands, GivesBack, Ends};

use core_machine::work::Work;
use done_words::board::Board;
use done_words::work_seat::WorkSeat;
use p2p_exec::drive::drive;
use p2p_exec::worker::{Advance, Worker};
use std::snapshot::Snapshot;
use std::sync::Wait;
use std::sync::atomic::{AtomicBool, Ordering};
use std::thread::Promise;
use wave_io::gate::Gate;

/// A worker with its seat.
#[derive(Drop)]
pub struct Hand {
    pub worker: Worker,
    pub seat: WorkSeat,
}

/// What a thread promises of the hand that it gives back: it is that of this worker, on this board and work, and
/// stands somewhere in its script.
#[derive(Drop)]
pub struct StandsSomewhere {
    pub board: Snapshot<Board>,
    pub work: Snapshot<Work>,
    pub number: u32,
}

impl Promise<Hand> for StandsSomewhere {
    ghost use Rattle.p2p_team.specs.Hands.{GivesBack};

    ghost kept_by = { λ p r. GivesBack p.board.value p.work.value p.number r };
}

impl Hand {
    /// Goes on by one task, or stops at a look.
    pub fn advance<G: Gate>(&mut self, work: &Work, board: &Board, gate: &G) -> Advance
        requires { Stands board.now work.now self.old }
        ensures stands { GivesBack board.now work.now self.old.worker.number self.new }
        ensures ended { result ≡ Finished → IsAtEnd (view self.new.seat) }
    {
        self.worker.advance(work, board, &mut self.seat, gate)
    }

    /// Goes on to the script's end. It may wait for other workers.
    pub fn finish<R: Wait, G: Gate>(self, rt: &R, work: &Work, board: &Board, gate: &G) -> Hand
        requires { Stands board.now work.now self }
        ensures { Ends board.now work.now self.worker.number result }
    {
        let Hand {
            mut worker,
            mut seat,
        } = self;
        drive(rt, work, board, &mut worker, &mut seat, gate);
        Hand { worker, seat }
    }

    /// What the hand's thread does. It makes no step where the flag is set.
    pub fn run_there<R: Wait, G: Gate>(
        self,
        rt: &R,
        work: &Work,
        board: &Board,
        gate: &G,
        flag: &AtomicBool,
    ) -> Hand
        requires { Stands board.now work.now self }
        ensures { GivesBack board.now work.now self.worker.number result }
    {
        if flag.load(Ordering::SeqCst) {
            self
        } else {
            self.finish(rt, work, board, gate)
        }
    }
}
