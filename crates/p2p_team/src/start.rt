// Workers in threads of their own, where these can be had.
ghost use Rattle.std.specs.Prelude.{◌≡◌, ◌≤◌, length};
ghost use Rattle.p2p_team.specs.Hands.{Stands, GivesBack, IsStarted, EachBack, EachStarted, HasRoom};

use crate::hand::{Hand, StandsSomewhere};
use crate::shared::works_are_shared;
use core_machine::work::Work;
use done_words::board::Board;
use std::snapshot::Snapshot;
use std::sync::Wait;
use std::sync::atomic::{AtomicBool, Ordering};
use std::thread::{PromisedHandle, Scope, Threads};
use wave_io::gate::Gate;

/// A worker in its thread, or with the caller.
#[derive(Drop)]
pub enum Started {
    There(PromisedHandle<Hand, StandsSomewhere>),
    Here(Hand),
}

/// Starts a worker. Where no thread can be had the caller has it: its flag is set, and so its closure makes no step.
pub fn start<'s, E, R: Threads + Wait + Sync, G: Gate + Sync>(
    scope: &Scope<'s, E>,
    rt: &'s R,
    work: &'s Work,
    board: &'s Board,
    gate: &'s G,
    flag: &'s AtomicBool,
    hand: Hand,
) -> Started
    requires { Stands board.now work.now hand }
    ensures { IsStarted board.entry.now work.entry.now hand.worker.number result }
{
    works_are_shared(work);
    let promise = StandsSomewhere {
        board: Snapshot::of(board),
        work: Snapshot::of(work),
        number: hand.worker.number,
    };
    match scope.spawn_with(
        promise,
        move ||
            requires { Stands board.now work.now hand }
            ensures { GivesBack board.entry.now work.entry.now hand.worker.number result }
        { hand.run_there(rt, work, board, gate, flag) },
    ) {
        Ok(handle) => Started::There(handle),
        Err(refused) => {
            flag.store(true, Ordering::SeqCst);
            Started::Here((refused.value)())
        }
    }
}

/// Starts each worker but worker 0, which stays with the caller. Each has a flag of its own.
pub fn start_all<'s, E, R: Threads + Wait + Sync, G: Gate + Sync>(
    scope: &Scope<'s, E>,
    rt: &'s R,
    work: &'s Work,
    board: &'s Board,
    gate: &'s G,
    flags: &'s [AtomicBool],
    hands: Vec<Hand>,
    room: Vec<Started>,
) -> Vec<Started>
    requires room { HasRoom room (length hands.items) }
    requires flags { length hands.items ≤ length flags.now }
    requires each { EachBack board.now work.now hands.items }
    ensures len { length result.items ≡ length hands.items }
    ensures each { EachStarted board.entry.now work.entry.now result.items }
{
    let mut started = room;
    for hand in hands {
        let at = started.len();
        let one = start_at(scope, rt, work, board, gate, &flags[at], hand);
        let Ok(()) = started.push(one) else {
            unreachable!()
        };
    }
    started
}

fn start_at<'s, E, R: Threads + Wait + Sync, G: Gate + Sync>(
    scope: &Scope<'s, E>,
    rt: &'s R,
    work: &'s Work,
    board: &'s Board,
    gate: &'s G,
    flag: &'s AtomicBool,
    hand: Hand,
) -> Started
    requires { Stands board.now work.now hand }
    ensures { IsStarted board.entry.now work.entry.now hand.worker.number result }
{
    if hand.worker.number == 0 {
        Started::Here(hand)
    } else {
        start(scope, rt, work, board, gate, flag, hand)
    }
}
