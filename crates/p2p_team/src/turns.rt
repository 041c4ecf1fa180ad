// The workers that the caller has go on by turns.
ghost use Rattle.std.specs.Prelude.{◌≡◌, ℕ, IsTrue, length};
ghost use Rattle.p2p_exec.specs.declared.worker.Advance.TheVariants.{Finished};
ghost use Rattle.p2p_team.specs.Hands.{IsStarted, EachStarted, IsEnded, EachEnded};

use crate::start::Started;
use core_machine::work::Work;
use done_words::board::Board;
use p2p_exec::worker::Advance;
use std::sync::Wait;
use std::thread;
use wave_io::gate::Gate;

/// What a turn came to: whether all of the caller's workers are at their ends, and whether one of them went on.
#[derive(Clone, Copy)]
struct Turn {
    ended: bool,
    moved: bool,
}

impl Turn {
    fn note(&mut self, advance: Advance)
        ensures ended { IsTrue self.new.ended → IsTrue self.old.ended × (advance ≡ Finished) }
    {
        match advance {
            Advance::TaskDone => {
                self.ended = false;
                self.moved = true;
            }
            Advance::NotYet { .. } => self.ended = false,
            Advance::Finished => {}
        }
    }
}

impl Started {
    // A worker in a thread of its own goes on there.
    fn advance<G: Gate>(&mut self, work: &Work, board: &Board, gate: &G) -> Advance
        requires { (k : ℕ) × IsStarted board.now work.now k self.old }
        ensures stands { (k : ℕ) → IsStarted board.now work.now k self.old → IsStarted board.now work.now k self.new }
        ensures ended { result ≡ Finished → IsEnded self.new }
    {
        match self {
            Started::There(_) => Advance::Finished,
            Started::Here(hand) => hand.advance(work, board, gate),
        }
    }
}

// One turn: each of the caller's workers goes on by a task, or stops at a look.
fn one_turn<G: Gate>(work: &Work, board: &Board, gate: &G, started: &mut [Started]) -> Turn
    requires { EachStarted board.now work.now started.old }
    ensures len { length started.new ≡ length started.old }
    ensures each { EachStarted board.now work.now started.new }
    ensures ended { IsTrue result.ended → EachEnded started.new }
{
    let mut turn = Turn {
        ended: true,
        moved: false,
    };
    for at in 0..started.len() {
        turn.note(started[at].advance(work, board, gate));
    }
    turn
}

/// Turns follow until the caller's workers are all at their ends. After a turn in which none went on the processor
/// is given away.
pub fn take_turns<R: Wait, G: Gate>(
    rt: &R,
    work: &Work,
    board: &Board,
    gate: &G,
    started: &mut [Started],
)
    requires { EachStarted board.now work.now started.old }
    ensures len { length started.new ≡ length started.old }
    ensures each { EachStarted board.now work.now started.new }
    ensures ended { EachEnded started.new }
{
    for _ in rt.forever() {
        let turn = one_turn(work, board, gate, started);
        if turn.ended {
            return;
        }
        if !turn.moved {
            thread::yield_now();
        }
    }
    unreachable!()
}
