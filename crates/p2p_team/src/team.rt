// A team.
ghost use Rattle.std.specs.Prelude.{◌≡◌, ◌≤◌, length, OnOk, OnErr};
ghost use Rattle.core_machine.specs.FitWork.{IsFitWork};
ghost use Rattle.done_words.specs.Seats.{work_of, main_view, IsMainOf, HasAll};
ghost use Rattle.done_words.specs.Views.{leading};
ghost use Rattle.p2p_team.specs.Hands.{EachBack, EachEnds, HasRoom};

use crate::ends::end_all;
use crate::hand::Hand;
use crate::room::{Rooms, make_flags, make_workers};
use crate::splits::{join_all, split_all};
use crate::start::{Started, start_all};
use crate::turns::take_turns;
use core_machine::work::Work;
use done_words::board::Board;
use done_words::main_seat::MainSeat;
use std::alloc::Global;
use std::sync::Wait;
use std::sync::atomic::AtomicBool;
use std::thread;
use std::thread::Threads;
use wave_base::types::Memory;
use wave_io::gate::Gate;

/// Runs the scripts of all workers to their ends on the board, worker 0 here and each other one in a thread of its
/// own. Where a thread can't be had the worker goes on here too, and the workers that are here go on by turns.
///
/// It may wait forever: no return is promised. All memory is taken before the first seat is split, so after out of
/// memory, its one fault, no worker was made.
pub fn run_team<R: Threads + Wait + Sync, G: Gate + Sync>(
    rt: &R,
    alloc: Global,
    work: &Work,
    board: &Board,
    main: &mut MainSeat,
    gate: &G,
) -> Result<(), Memory>
    requires fit { IsFitWork work.now }
    requires board { work_of board.now ≡ work.now }
    requires own { IsMainOf main.old board.now }
    requires fresh { main_view main.old ≡ leading work.now }
    ensures own { IsMainOf main.new board.now }
    ensures all { OnOk result (HasAll work.now (main_view main.new)) }
    ensures none { OnErr result (main_view main.new ≡ main_view main.old) }
{
    let count = work.sched.workers.as_slice().len();
    let workers = make_workers(alloc, work)?;
    let flags = make_flags(alloc, count)?;
    let Rooms {
        hands,
        started,
        ended,
    } = Rooms::make(alloc, count)?;
    let hands = split_all(work, board, main, workers, hands);
    let hands = all_run(
        rt,
        work,
        board,
        gate,
        flags.as_slice(),
        hands,
        started,
        ended,
    );
    join_all(work, board, main, hands);
    Ok(())
}

// From the start of the threads to their ends.
fn all_run<R: Threads + Wait + Sync, G: Gate + Sync>(
    rt: &R,
    work: &Work,
    board: &Board,
    gate: &G,
    flags: &[AtomicBool],
    hands: Vec<Hand>,
    room: Vec<Started>,
    space: Vec<Hand>,
) -> Vec<Hand>
    requires room { HasRoom room (length hands.items) × HasRoom space (length hands.items) }
    requires flags { length hands.items ≤ length flags.now }
    requires each { EachBack board.now work.now hands.items }
    ensures len { length result.items ≡ length hands.items }
    ensures each { EachEnds board.now work.now result.items }
{
    thread::scope(
        thread::scope_env(),
        rt,
        move |scope|
            requires { HasRoom room (length hands.items) × HasRoom space (length hands.items) × (length hands.items ≤ length flags.now) × EachBack board.now work.now hands.items }
            ensures { (length result.items ≡ length hands.items) × EachEnds board.entry.now work.entry.now result.items }
        {
            let mut started = start_all(scope, rt, work, board, gate, flags, hands, room);
            take_turns(rt, work, board, gate, started.as_mut_slice());
            end_all(rt, work, board, gate, started, space)
        },
    )
}
