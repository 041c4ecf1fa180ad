// The core of a fit nest at its start.
ghost use Rattle.std.specs.Prelude.{◌≡◌, ◌≤◌, ◌++◌, [], ◌∷◌, ℤ, List, length, replicate, IfOk, OnOk};
ghost use Rattle.loop_core.specs.Depth.{body_depth};
ghost use Rattle.core_law.specs.Machine.{opening, stand};
ghost use Rattle.core_nest.specs.FitNest.{IsFitNest};
ghost use Rattle.core_nest.specs.NestLaws.{plain_work};
ghost use Rattle.core_run.specs.Cores.{core_of};
ghost use Rattle.core_run.specs.Links.{IsOf};
ghost use Rattle.core_run.specs.Seats.{AreCaught};
ghost use Rattle.core_unroll.specs.Advances.{AreUnrolled};

use crate::unrolling::Unrolling;
use core_run::action::{Hows, Script};
use core_run::machine::Core;
use core_run::standings::Standings;
use loop_core::arrays::Arrays;
use loop_core::nest::Nest;
use loop_core::values::Values;
use sched_types::sched::{Sched, TaskList};
use std::alloc::Global;
use std::mem;
use wave_base::types::Memory;

/// The script and the instances of one worker.
#[derive(Drop)]
struct Unrolled {
    script: Script,
    hows: Hows,
}

/// The scripts and the instances of the workers so far.
#[derive(Drop)]
struct Workers {
    scripts: Vec<Script>,
    hows: Vec<Hows>,
}

/// The core of a fit nest over these values, with all scripts unrolled, at its start.
///
/// The time is that of the loop run once. Where a row has 2^32 instances or more, there are more than 65,536
/// statements, or a list is longer than any memory, the answer is out of memory.
pub fn unroll(
    alloc: Global,
    nest: &Nest,
    arrays: &Arrays,
    values: &Values,
    sched: &Sched,
) -> Result<Core, Memory>
    requires { IsFitNest nest.now arrays.now values.now sched.now.workers }
    ensures of { IfOk result (λ c. IsOf (plain_work nest.now arrays.now values.now sched.now.workers) c) }
    ensures begins { IfOk result (λ c. core_of c ≡ opening (plain_work nest.now arrays.now values.now sched.now.workers)) }
    ensures caught { IfOk result (λ c. AreCaught c.book c.hows.items c.stands) }
{
    let mut unrolling = Unrolling::begin(alloc, nest, values)?;
    let tasks = sched.workers.as_slice();
    let workers = unroll_workers(alloc, nest, arrays, tasks, &mut unrolling)?;
    let count = tasks.len();
    let core = assemble(alloc, count, unrolling, workers)?;
    Ok(core)
}

fn unroll_workers(
    alloc: Global,
    nest: &Nest,
    arrays: &Arrays,
    tasks: &[TaskList],
    unrolling: &mut Unrolling,
) -> Result<Workers, Memory>
    requires { body_depth nest.now.body ≤ 5 }
    ensures { IfOk result (λ made. (x : List (List ℤ)) → AreUnrolled nest.now arrays.now x tasks.now unrolling.old 0 [] [] → AreUnrolled nest.now arrays.now x tasks.now unrolling.new (length tasks.now) made.scripts.items made.hows.items) }
{
    let mut workers = Workers {
        scripts: Vec::with_capacity(alloc, tasks.len())?,
        hows: Vec::with_capacity(alloc, tasks.len())?,
    };
    for list in tasks {
        unrolling.unroll_tasks(nest, arrays, list.as_slice())?;
        let made = unrolling.take_worker(alloc);
        workers.add(made)?;
    }
    Ok(workers)
}

impl Workers {
    // One worker more.
    fn add(&mut self, made: Unrolled) -> Result<(), Memory>
        ensures scripts { OnOk result (self.new.scripts.items ≡ self.old.scripts.items ++ made.script ∷ []) }
        ensures hows { OnOk result (self.new.hows.items ≡ self.old.hows.items ++ made.hows ∷ []) }
    {
        let Unrolled { script, hows } = made;
        self.scripts.push(script)?;
        self.hows.push(hows)?;
        Ok(())
    }
}

impl Unrolling {
    // The script and the instances so far. The next worker begins without any.
    fn take_worker(&mut self, alloc: Global) -> Unrolled
        ensures script { result.script ≡ self.old.actions.items }
        ensures hows { result.hows ≡ self.old.hows.items }
        ensures no_actions { self.new.actions.items ≡ [] }
        ensures no_hows { self.new.hows.items ≡ [] }
        ensures book { self.new.book ≡ self.old.book }
        ensures values { self.new.values ≡ self.old.values }
        ensures room { self.new.room ≡ self.old.room }
    {
        let actions = mem::replace(&mut self.actions, Vec::new(alloc));
        let hows = mem::replace(&mut self.hows, Vec::new(alloc));
        Unrolled {
            script: Script::from_vec(actions),
            hows: Hows::from_vec(hows),
        }
    }
}

// The core of these workers at its start.
fn assemble(
    alloc: Global,
    count: usize,
    unrolling: Unrolling,
    workers: Workers,
) -> Result<Core, Memory>
    ensures scripts { IfOk result (λ c. c.scripts.items ≡ workers.scripts.items) }
    ensures hows { IfOk result (λ c. c.hows.items ≡ workers.hows.items) }
    ensures book { IfOk result (λ c. c.book ≡ unrolling.book) }
    ensures values { IfOk result (λ c. c.values ≡ unrolling.values) }
    ensures counts { IfOk result (λ c. c.counts.items ≡ replicate count 0) }
    ensures stands { IfOk result (λ c. c.stands.stands ≡ replicate count (stand 0 [])) }
    ensures room { IfOk result (λ c. c.stands.room ≡ unrolling.room) }
    ensures caught { IfOk result (λ c. AreCaught c.book c.hows.items c.stands) }
{
    let Unrolling {
        actions: _,
        hows: _,
        before: _,
        room,
        book,
        values,
        slots: _,
    } = unrolling;
    let Workers { scripts, hows } = workers;
    let counts = vec![in alloc; 0u64; count]?;
    let stands = Standings::begin(alloc, count, room)?;
    Ok(Core {
        scripts,
        counts,
        values,
        stands,
        hows,
        book,
    })
}
