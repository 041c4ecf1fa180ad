// A worker that goes on to its script's end.
ghost use Rattle.std.specs.Prelude.{◌≡◌, ◌+◌, ◌<◌, ◌≤◌};
ghost use Rattle.core_machine.specs.FitWork.{IsFitWork};
ghost use Rattle.done_words.specs.Seats.{work_of, view, IsOn};
ghost use Rattle.done_words.specs.Views.{IsAtEnd};
ghost use Rattle.p2p_exec.specs.Where.{IsAt};

use crate::worker::{Advance, Worker};
use core_machine::work::Work;
use done_words::board::Board;
use done_words::work_seat::WorkSeat;
use std::sync::Wait;
use std::{hint, thread};
use wave_io::gate::Gate;

// So many looks in vain come before the processor is given away.
const SPINS: u32 = 64;

/// Spins, and gives the processor away once it has spun often enough. It answers how often it has spun.
pub fn pause(spins: u32) -> u32
    ensures counts { spins < 64 → result ≡ spins + 1 }
    ensures stays { 64 ≤ spins → result ≡ spins }
{
    if spins < SPINS {
        hint::spin_loop();
        spins + 1
    } else {
        thread::yield_now();
        spins
    }
}

/// Advances a worker until it is at its script's end. It may wait for other workers forever: after some looks in
/// vain it gives the processor away between looks. It takes no memory.
pub fn drive<R: Wait, G: Gate>(
    rt: &R,
    work: &Work,
    board: &Board,
    worker: &mut Worker,
    seat: &mut WorkSeat,
    gate: &G,
)
    requires fit { IsFitWork work.now }
    requires board { work_of board.now ≡ work.now }
    requires own { IsOn seat.old board.now }
    requires stands { IsAt work.now worker.old (view seat.old) }
    ensures own { IsOn seat.new board.now }
    ensures stands { IsAt work.now worker.new (view seat.new) }
    ensures number { worker.new.number ≡ worker.old.number }
    ensures end { IsAtEnd (view seat.new) }
{
    let mut spins = 0;
    for _ in rt.forever() {
        match worker.advance(work, board, seat, gate) {
            Advance::TaskDone => spins = 0,
            Advance::NotYet { .. } => spins = pause(spins),
            Advance::Finished => return,
        }
    }
    unreachable!()
}
