// A worker, and how it goes on.
ghost use Rattle.std.specs.Prelude.{◌≡◌, ◌↔◌, ◌+◌, ◌<◌, ◌≤◌, ◌^◌, ℕ, IfOk, Some, slice_get};
ghost use Rattle.core_machine.specs.FitWork.{IsFitWork, IsWorker};
ghost use Rattle.done_words.specs.Seats.{work_of, view, IsOn};
ghost use Rattle.done_words.specs.Views.{begun, place_of, IsAtEnd};
ghost use Rattle.p2p_exec.specs.Looking.{HasMissed};

use crate::flags::written_arrays;
use crate::looks::Miss;
use crate::rows::run_rows;
use core_machine::work::Work;
use done_words::board::Board;
use done_words::work_seat::WorkSeat;
use sched_types::sched::Task;
use std::alloc::Global;
use wave_base::types::Memory;
use wave_io::gate::Gate;

/// What a worker came to.
#[derive(Clone, Copy, Debug, PartialEq, Eq)]
pub enum Advance {
    /// It has finished its task.
    TaskDone,
    /// A look of its task found too few finished tasks of a worker.
    NotYet { worker: u32, seen: u64, need: u64 },
    /// It is at its script's end.
    Finished,
}

/// A worker: its number, its task, how many looks of that task have passed, and which arrays the nest writes.
#[derive(Drop)]
pub struct Worker {
    pub number: u32,
    pub task: usize,
    pub looked: usize,
    pub written: Vec<bool>,
}

impl Worker {
    ghost use Rattle.p2p_exec.specs.Where.{tasks, IsAt, IsPastNextFinish};
    ghost use Rattle.p2p_exec.specs.declared.worker.Advance.TheVariants.{TaskDone, NotYet, Finished};

    /// The worker of this number at its script's start. It takes all the memory that the worker will need: a byte for
    /// each of 64 arrays. Out of memory is the one fault.
    pub fn new(alloc: Global, work: &Work, worker: u32) -> Result<Worker, Memory>
        requires fit { IsFitWork work.now }
        requires there { IsWorker work.now worker }
        ensures number { IfOk result (λ made. made.number ≡ worker) }
        ensures starts { IfOk result (λ made. IsAt work.now made (begun work.now worker)) }
    {
        let written = written_arrays(alloc, &work.nest)?;
        Ok(Worker {
            number: worker,
            task: 0,
            looked: 0,
            written,
        })
    }

    /// Makes the looks of the worker's task from where it stands. Where all have passed, it passes the gate, runs the
    /// task's rows and finishes the task.
    ///
    /// It takes no memory and waits for nobody, and the time of the task's looks and rows.
    pub fn advance<G: Gate>(
        &mut self,
        work: &Work,
        board: &Board,
        seat: &mut WorkSeat,
        gate: &G,
    ) -> Advance
        requires fit { IsFitWork work.now }
        requires board { work_of board.now ≡ work.now }
        requires own { IsOn seat.old board.now }
        requires stands { IsAt work.now self.old (view seat.old) }
        ensures own { IsOn seat.new board.now }
        ensures stands { IsAt work.now self.new (view seat.new) }
        ensures number { self.new.number ≡ self.old.number }
        ensures done { result ≡ TaskDone → IsPastNextFinish work.now self.old.number (place_of (view seat.old)) (place_of (view seat.new)) }
        ensures not_yet { (f seen need : ℕ) → result ≡ NotYet f seen need → HasMissed (view seat.old) f seen need (view seat.new) }
        ensures finished { result ≡ Finished ↔ IsAtEnd (view seat.old) }
        ensures stays { result ≡ Finished → view seat.new ≡ view seat.old }
    {
        let tasks = work.sched.workers.as_slice()[self.number as usize].as_slice();
        if self.task < tasks.len() {
            self.go_on(work, board, seat, gate, &tasks[self.task])
        } else {
            Advance::Finished
        }
    }

    // The task at which it stands.
    fn go_on<G: Gate>(
        &mut self,
        work: &Work,
        board: &Board,
        seat: &mut WorkSeat,
        gate: &G,
        task: &Task,
    ) -> Advance
        requires fit { IsFitWork work.now }
        requires board { work_of board.now ≡ work.now }
        requires own { IsOn seat.old board.now }
        requires stands { IsAt work.now self.old (view seat.old) }
        requires task { slice_get (tasks work.now self.old.number) self.old.task ≡ Some task.now }
        requires few { self.old.task + 1 < 2 ^ 64 }
        ensures own { IsOn seat.new board.now }
        ensures stands { IsAt work.now self.new (view seat.new) }
        ensures number { self.new.number ≡ self.old.number }
        ensures done { result ≡ TaskDone → IsPastNextFinish work.now self.old.number (place_of (view seat.old)) (place_of (view seat.new)) }
        ensures not_yet { (f seen need : ℕ) → result ≡ NotYet f seen need → HasMissed (view seat.old) f seen need (view seat.new) }
        ensures goes { result ≡ Finished → ⊥ }
    {
        match Miss::find(task.waits.as_slice(), self.looked, board, seat) {
            Some(miss) => self.stop(miss),
            None => {
                gate.pass(self.number, task_number(self.task, task.level));
                run_rows(
                    work,
                    self.written.as_slice(),
                    board,
                    seat,
                    task.rows.as_slice(),
                );
                seat.finish(board);
                self.next()
            }
        }
    }

    // It stands at a look that didn't pass.
    fn stop(&mut self, miss: Miss) -> Advance
        ensures worker { self.new ≡ record self.old { looked = miss.looked } }
        ensures answer { result ≡ NotYet miss.worker miss.seen miss.need }
    {
        self.looked = miss.looked;
        Advance::NotYet {
            worker: miss.worker,
            seen: miss.seen,
            need: miss.need,
        }
    }

    // It stands at its next task.
    fn next(&mut self) -> Advance
        requires { self.old.task + 1 < 2 ^ 64 }
        ensures worker { self.new ≡ record self.old { task = self.old.task + 1; looked = 0 } }
        ensures answer { result ≡ TaskDone }
    {
        self.task += 1;
        self.looked = 0;
        Advance::TaskDone
    }
}

// The number of a task, which is no more than its level.
fn task_number(task: usize, level: u32) -> u32
    requires { task ≤ level }
    ensures { result ≡ task }
{
    task as u32
}
