// The seats of all workers: made before their threads start, and taken back after these have ended.
ghost use Rattle.std.specs.Prelude.{◌≡◌, length};
ghost use Rattle.core_machine.specs.FitWork.{IsFitWork};
ghost use Rattle.done_words.specs.Seats.{work_of, main_view, IsMainOf, HasAll};
ghost use Rattle.done_words.specs.Views.{leading};
ghost use Rattle.p2p_team.specs.Hands.{AreNew, EachBack, EachEnds, HasMade, HasRoom};

use crate::hand::Hand;
use core_machine::work::Work;
use done_words::board::Board;
use done_words::main_seat::MainSeat;
use p2p_exec::worker::Worker;

/// Splits the seat of each worker, in order.
pub fn split_all(
    work: &Work,
    board: &Board,
    main: &mut MainSeat,
    workers: Vec<Worker>,
    room: Vec<Hand>,
) -> Vec<Hand>
    requires fit { IsFitWork work.now }
    requires board { work_of board.now ≡ work.now }
    requires own { IsMainOf main.old board.now }
    requires fresh { main_view main.old ≡ leading work.now }
    requires workers { (length workers.items ≡ length work.now.sched.workers) × AreNew work.now workers.items }
    requires room { HasRoom room (length workers.items) }
    ensures own { IsMainOf main.new board.now }
    ensures made { HasMade work.now (length work.now.sched.workers) (main_view main.new) }
    ensures len { length result.items ≡ length workers.items }
    ensures each { EachBack board.now work.now result.items }
{
    let mut hands = room;
    for worker in workers {
        let seat = main.split(board, worker.number);
        let Ok(()) = hands.push(Hand { worker, seat }) else {
            unreachable!()
        };
    }
    hands
}

/// Joins the seat of each worker.
pub fn join_all(work: &Work, board: &Board, main: &mut MainSeat, hands: Vec<Hand>)
    requires board { work_of board.now ≡ work.now }
    requires own { IsMainOf main.old board.now }
    requires made { HasMade work.now (length work.now.sched.workers) (main_view main.old) }
    requires len { length hands.items ≡ length work.now.sched.workers }
    requires each { EachEnds board.now work.now hands.items }
    ensures own { IsMainOf main.new board.now }
    ensures all { HasAll work.now (main_view main.new) }
{
    for hand in hands {
        let Hand { worker: _, seat } = hand;
        main.join(board, seat);
    }
}
