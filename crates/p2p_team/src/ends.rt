// The workers come back.
ghost use Rattle.std.specs.Prelude.{◌≡◌, ℕ, length};
ghost use Rattle.p2p_team.specs.Hands.{Ends, IsStarted, IsEnded, EachStarted, EachEnded, EachEnds, HasRoom};

use crate::hand::Hand;
use crate::start::Started;
use core_machine::work::Work;
use done_words::board::Board;
use std::sync::Wait;
use std::thread::Threads;
use wave_io::gate::Gate;

// A worker at its end. One that its thread gives back before goes on here.
fn end<R: Threads + Wait, G: Gate>(
    rt: &R,
    work: &Work,
    board: &Board,
    gate: &G,
    started: Started,
) -> Hand
    requires ended { IsEnded started }
    requires started { (k : ℕ) × IsStarted board.now work.now k started }
    ensures { (k : ℕ) → IsStarted board.now work.now k started → Ends board.now work.now k result }
{
    match started {
        Started::There(handle) => handle.join(rt).finish(rt, work, board, gate),
        Started::Here(hand) => hand,
    }
}

/// Takes each worker back, in order.
pub fn end_all<R: Threads + Wait, G: Gate>(
    rt: &R,
    work: &Work,
    board: &Board,
    gate: &G,
    started: Vec<Started>,
    room: Vec<Hand>,
) -> Vec<Hand>
    requires room { HasRoom room (length started.items) }
    requires each { EachStarted board.now work.now started.items }
    requires ended { EachEnded started.items }
    ensures len { length result.items ≡ length started.items }
    ensures each { EachEnds board.now work.now result.items }
{
    let mut hands = room;
    for one in started {
        let Ok(()) = hands.push(end(rt, work, board, gate, one)) else {
            unreachable!()
        };
    }
    hands
}
