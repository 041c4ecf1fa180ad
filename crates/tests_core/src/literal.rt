// A second machine, which goes by the words of the definition: scripts are written out step by step, and words
// are left aside.
ghost use Rattle.std.specs.Prelude.{◌≤◌};
ghost use Rattle.loop_core.specs.Depth.{body_depth};

use core_machine::work::Work;
use loop_core::arrays::Arrays;
use loop_core::effect::Effect;
use loop_core::env::Env;
use loop_core::nest::{Expr, Nest};
use loop_meaning::walk::{Visitor, walk_row};
use sched_types::lists::Wait;
use sched_types::sched::Task;
use std::alloc::Global;
use wave_base::types::{ArrayId, Memory, RowId};

// A look for so many finished tasks of a worker, a word that is read or written, or a finish.
#[derive(Clone, Copy)]
enum Step {
    Look(u32, u64),
    Word,
    Finish,
}

#[derive(Drop)]
struct Seat {
    steps: Vec<Step>,
    place: usize,
    count: u64,
}

/// The seats of all workers, the looks so far, and those that passed.
#[derive(Drop)]
pub struct Literal {
    seats: Vec<Seat>,
    pub looks: u64,
    pub passed: u64,
}

// The steps of one worker so far, and which arrays are written.
#[derive(Drop)]
struct Lister {
    steps: Vec<Step>,
    written: Vec<bool>,
}

fn put_where(steps: &mut Vec<Step>, is_there: bool) -> Result<(), Memory> {
    if is_there {
        steps.push(Step::Word)?;
    }
    Ok(())
}

fn is_shared(written: &[bool], array: ArrayId) -> bool {
    match written.get(array.0 as usize) {
        Some(is_written) => *is_written,
        None => false,
    }
}

fn put_reads(steps: &mut Vec<Step>, written: &[bool], expr: &Expr) -> Result<(), Memory> {
    match expr {
        Expr::Lit(_) => Ok(()),
        Expr::Local(_) => Ok(()),
        Expr::Read(array, _) => put_where(steps, is_shared(written, *array)),
        Expr::Op(_, left, right) => {
            put_reads(steps, written, left.get())?;
            put_reads(steps, written, right.get())
        }
    }
}

fn sets(effect: Effect) -> bool {
    match effect {
        Effect::Sets(_) => true,
        Effect::Keeps(_) => false,
    }
}

// The words that an instance reads of written arrays, and the one that it writes.
impl Visitor for Lister {
    type Fault = Memory;

    ghost moves = { λ _ _ _. Unit {0} };

    fn visit(
        &mut self,
        _line: u16,
        effect: Effect,
        value: &Expr,
        _env: &Env<'_>,
        _arrays: &Arrays,
    ) -> Result<(), Memory> {
        put_reads(&mut self.steps, self.written.as_slice(), value)?;
        put_where(&mut self.steps, sets(effect))
    }
}

impl Lister {
    fn of(alloc: Global, nest: &Nest) -> Result<Lister, Memory> {
        let mut written = Vec::new(alloc);
        for array in 0..64u8 {
            written.push(nest.writes(ArrayId(array)))?;
        }
        Ok(Lister {
            steps: Vec::new(alloc),
            written,
        })
    }

    fn put_looks(&mut self, waits: &[Wait]) -> Result<(), Memory> {
        for wait in waits {
            self.steps
                .push(Step::Look(wait.worker, u64::from(wait.count)))?;
        }
        Ok(())
    }

    fn put_row(&mut self, work: &Work, row: RowId) -> Result<(), Memory>
        requires { body_depth work.now.nest.body ≤ 5 }
    {
        walk_row(&work.nest, &work.arrays, row, self)?;
        Ok(())
    }

    fn put_rows(&mut self, work: &Work, rows: &[RowId]) -> Result<(), Memory>
        requires { body_depth work.now.nest.body ≤ 5 }
    {
        for row in rows {
            self.put_row(work, *row)?;
        }
        Ok(())
    }

    fn put_tasks(&mut self, work: &Work, tasks: &[Task]) -> Result<(), Memory>
        requires { body_depth work.now.nest.body ≤ 5 }
    {
        for task in tasks {
            self.put_looks(task.waits.as_slice())?;
            self.put_rows(work, task.rows.as_slice())?;
            self.steps.push(Step::Finish)?;
        }
        Ok(())
    }
}

impl Literal {
    /// All workers at their starts.
    pub fn of(alloc: Global, work: &Work) -> Result<Literal, Memory>
        requires { body_depth work.now.nest.body ≤ 5 }
    {
        let mut seats = Vec::new(alloc);
        for list in work.sched.workers.as_slice() {
            let mut lister = Lister::of(alloc, &work.nest)?;
            lister.put_tasks(work, list.as_slice())?;
            let Lister { steps, written: _ } = lister;
            seats.push(Seat {
                steps,
                place: 0,
                count: 0,
            })?;
        }
        Ok(Literal {
            seats,
            looks: 0,
            passed: 0,
        })
    }

    fn next(&self, worker: usize) -> Option<Step> {
        let seat = self.seats.get(worker)?;
        seat.steps.get(seat.place).copied()
    }

    fn count(&self, worker: u32) -> u64 {
        match self.seats.get(worker as usize) {
            Some(seat) => seat.count,
            None => 0,
        }
    }

    fn advance(&mut self, worker: usize, tasks: u64) {
        if let Some(seat) = self.seats.get_mut(worker) {
            seat.place = seat.place.saturating_add(1);
            seat.count = seat.count.saturating_add(tasks);
        }
    }

    fn look(&mut self, worker: usize, from: u32, need: u64) {
        self.looks = self.looks.wrapping_add(1);
        if need <= self.count(from) {
            self.passed = self.passed.wrapping_add(1);
            self.advance(worker, 0);
        }
    }

    fn step(&mut self, worker: usize) {
        match self.next(worker) {
            Some(Step::Look(from, need)) => self.look(worker, from, need),
            Some(Step::Word) => self.advance(worker, 0),
            Some(Step::Finish) => self.advance(worker, 1),
            None => {}
        }
    }

    /// Whether all workers are at their ends.
    pub fn has_ended(&self) -> bool {
        for worker in 0..self.seats.len() {
            if self.next(worker).is_some() {
                return false;
            }
        }
        true
    }

    fn round(&mut self) {
        for worker in 0..self.seats.len() {
            self.step(worker);
        }
    }

    /// The steps of an order, and then whole rounds until all have ended, of which there are at most so many.
    pub fn replay(&mut self, order: &[u32], most: u32) {
        for worker in order {
            self.step(*worker as usize);
        }
        for _ in 0..most {
            if self.has_ended() {
                return;
            }
            self.round();
        }
    }
}
