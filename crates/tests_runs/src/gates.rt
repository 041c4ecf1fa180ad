// Gates that count who passes, and that hold workers back until they meet.
ghost use Rattle.std.specs.Prelude.{◌≤◌};

use std::alloc::Global;
use std::hint;
use std::sync::atomic::{AtomicU32, Ordering};
use wave_base::types::Memory;
use wave_io::gate::Gate;

// How many tasks of a worker are counted apart.
const TASKS: u32 = 4;

// After so many turns a worker goes on alone.
const TURNS: u32 = 100_000_000;

/// Counts how often each of the first tasks of some workers is passed, and all other passes together.
#[derive(Drop)]
pub struct Counts {
    passes: Vec<AtomicU32>,
    others: AtomicU32,
}

impl Counts {
    pub fn new(alloc: Global, workers: u32) -> Result<Counts, Memory>
        requires { workers ≤ 64 }
    {
        let mut passes = Vec::new(alloc);
        for _ in 0..workers * TASKS {
            passes.push(AtomicU32::new(0))?;
        }
        Ok(Counts {
            passes,
            others: AtomicU32::new(0),
        })
    }

    /// The counter of a task of a worker.
    fn counter(&self, worker: u32, task: u32) -> &AtomicU32 {
        if task < TASKS && worker < 64 {
            match self.passes.get((worker * TASKS + task) as usize) {
                Some(counter) => counter,
                None => &self.others,
            }
        } else {
            &self.others
        }
    }

    /// How often a task of a worker was passed.
    pub fn of(&self, worker: u32, task: u32) -> u32 {
        self.counter(worker, task).load(Ordering::SeqCst)
    }

    /// How often any other task was passed.
    pub fn others(&self) -> u32 {
        self.others.load(Ordering::SeqCst)
    }
}

impl Gate for Counts {
    fn pass(&self, worker: u32, task: u32) {
        let _before = self.counter(worker, task).fetch_add(1, Ordering::SeqCst);
    }
}

/// Counts, and lets worker 0 and worker 1 leave their first tasks' gates only once both are there.
#[derive(Drop)]
pub struct Meeting {
    pub counts: Counts,
    late: AtomicU32,
}

impl Meeting {
    pub fn new(alloc: Global) -> Result<Meeting, Memory> {
        let counts = Counts::new(alloc, 2)?;
        Ok(Meeting {
            counts,
            late: AtomicU32::new(0),
        })
    }

    /// How many workers went on alone.
    pub fn late(&self) -> u32 {
        self.late.load(Ordering::SeqCst)
    }

    fn meets(&self, worker: u32) -> bool {
        for _ in 0..TURNS {
            if self.counts.of(worker, 0) > 0 {
                return true;
            }
            hint::spin_loop();
        }
        false
    }
}

impl Gate for Meeting {
    fn pass(&self, worker: u32, task: u32) {
        self.counts.pass(worker, task);
        if worker < 2 && task == 0 && !self.meets(1 - worker) {
            let _before = self.late.fetch_add(1, Ordering::SeqCst);
        }
    }
}
