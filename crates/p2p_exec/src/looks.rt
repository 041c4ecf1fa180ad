// The looks of a task.
ghost use Rattle.std.specs.Prelude.{◌≡◌, ◌<◌, ◌≤◌, drop, ◌∷◌, [], IsNone, IfSome, length};
ghost use Rattle.done_words.specs.Seats.{view, IsOn};
ghost use Rattle.done_words.specs.Views.{misses_of};
ghost use Rattle.p2p_exec.specs.Looking.{MayLook, Passes, HasMissed};

use done_words::board::Board;
use done_words::work_seat::WorkSeat;
use sched_types::lists::Wait;

/// A look that found too few finished tasks: which of its task's looks it is, the worker that it looked at, the
/// count that it saw and the count that it needs.
#[derive(Clone, Copy)]
pub struct Miss {
    pub looked: usize,
    pub worker: u32,
    pub seen: u64,
    pub need: u64,
}

// One look: the count that it saw where that is too low.
fn look_at(wait: Wait, board: &Board, seat: &mut WorkSeat) -> Option<u64>
    requires own { IsOn seat.old board.now }
    requires next { MayLook (view seat.old) (wait ∷ []) }
    ensures own { IsOn seat.new board.now }
    ensures passed { IsNone result → Passes (view seat.old) (wait ∷ []) [] (view seat.new) × (misses_of (view seat.new) ≡ misses_of (view seat.old)) }
    ensures missed { IfSome result (λ seen. Passes (view seat.old) (wait ∷ []) (wait ∷ []) (view seat.new) × HasMissed (view seat.old) wait.worker seen wait.count (view seat.new)) }
{
    let seen = seat.look(board, wait.worker);
    if seen < wait.count as u64 {
        Some(seen)
    } else {
        None
    }
}

impl Miss {
    ghost use Rattle.p2p_exec.specs.Looking.{StopsAt};

    /// Makes the looks of a task from one of them on, until one doesn't pass. It takes no memory, and waits for nobody.
    pub fn find(waits: &[Wait], from: usize, board: &Board, seat: &mut WorkSeat) -> Option<Miss>
        requires own { IsOn seat.old board.now }
        requires from { from ≤ length waits.now }
        requires next { MayLook (view seat.old) (drop from waits.now) }
        ensures own { IsOn seat.new board.now }
        ensures passed { IsNone result → Passes (view seat.old) (drop from waits.now) [] (view seat.new) }
        ensures missed { IfSome result (StopsAt (view seat.old) waits.now from (view seat.new)) }
    {
        for place in from..waits.len() {
            let wait = waits[place];
            if let Some(seen) = look_at(wait, board, seat) {
                return Some(Miss {
                    looked: place,
                    worker: wait.worker,
                    seen,
                    need: wait.count as u64,
                });
            }
        }
        None
    }
}
