// All the memory that a team needs.
ghost use Rattle.std.specs.Prelude.{◌≡◌, length, IfOk};
ghost use Rattle.core_machine.specs.FitWork.{IsFitWork};
ghost use Rattle.p2p_team.specs.Hands.{AreNew, HasRoom};

use crate::hand::Hand;
use crate::start::Started;
use core_machine::work::Work;
use p2p_exec::worker::Worker;
use std::alloc::Global;
use std::sync::atomic::AtomicBool;
use wave_base::types::Memory;

/// The workers, each at its script's start.
pub fn make_workers(alloc: Global, work: &Work) -> Result<Vec<Worker>, Memory>
    requires { IsFitWork work.now }
    ensures len { IfOk result (λ made. length made.items ≡ length work.now.sched.workers) }
    ensures each { IfOk result (λ made. AreNew work.now made.items) }
{
    let count = work.sched.workers.as_slice().len();
    let mut workers = Vec::with_capacity(alloc, count)?;
    for number in 0..count {
        workers.push(Worker::new(alloc, work, number as u32)?)?;
    }
    Ok(workers)
}

/// Room for the workers before their threads start, while these run, and after they have ended.
#[derive(Drop)]
pub struct Rooms {
    pub hands: Vec<Hand>,
    pub started: Vec<Started>,
    pub ended: Vec<Hand>,
}

impl Rooms {
    /// Room for so many workers.
    pub fn make(alloc: Global, count: usize) -> Result<Rooms, Memory>
        ensures hands { IfOk result (λ rooms. HasRoom rooms.hands count) }
        ensures started { IfOk result (λ rooms. HasRoom rooms.started count) }
        ensures ended { IfOk result (λ rooms. HasRoom rooms.ended count) }
    {
        let hands = Vec::with_capacity(alloc, count)?;
        let started = Vec::with_capacity(alloc, count)?;
        let ended = Vec::with_capacity(alloc, count)?;
        Ok(Rooms {
            hands,
            started,
            ended,
        })
    }
}

/// A flag for each worker, which isn't set.
pub fn make_flags(alloc: Global, count: usize) -> Result<Vec<AtomicBool>, Memory>
    ensures { IfOk result (λ flags. length flags.items ≡ count) }
{
    let mut flags = Vec::with_capacity(alloc, count)?;
    for _ in 0..count {
        flags.push(AtomicBool::new(false))?;
    }
    Ok(flags)
}
