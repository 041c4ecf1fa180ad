// The core of a work.
ghost use Rattle.std.specs.Prelude.{◌≡◌, ◌↔◌, ◌≤◌, ℕ, IfOk, length, false};
ghost use Rattle.std.specs.List.{All};
ghost use Rattle.loop_core.specs.Sequence.{sequential};
ghost use Rattle.core_law.specs.Scripts.{script};
ghost use Rattle.core_law.specs.Machine as law;
ghost use Rattle.core_law.specs.Machine.{opening, place};
ghost use Rattle.core_run.specs.declared.machine.Event.TheVariants.{Looked, Ended};
ghost use Rattle.core_machine.specs.FitWork.{IsFitWork, IsWorker, plain};
ghost use Rattle.core_machine.specs.Answers.{answer_of, IsAsInLoop};
ghost use Rattle.core_machine.specs.Replays.{IsReplay};

use crate::work::Work;
use core_law::laws::shapes_stay;
use core_nest::laws::{
    ends_are_as_in_the_loop, nests_are_fit, reads_are_as_in_the_loop, writes_are_as_in_the_loop,
};
use core_run::machine::{Core as Inner, Event};
use core_unroll::unroll::unroll;
use loop_core::values::Values;
use std::alloc::Global;
use std::marker::Model;
use wave_base::types::Memory;

/// The core of a fit work in one of its reached states: the words, the done counts, and where each worker
/// stands in its script.
#[derive(Drop)]
pub struct Core<'w> {
    work: &'w Work,
    inner: Inner,
}

impl<'w> Model for Core<'w> {
    ghost use Rattle.std.specs.Coded.{codes};
    ghost use Rattle.loop_core.specs.contracts.nest.Atom as atom;
    ghost use Rattle.loop_core.specs.contracts.nest.Term as term;
    ghost use Rattle.loop_core.specs.contracts.nest.Expr as expr;
    ghost use Rattle.loop_core.specs.contracts.nest.Item as item;
    ghost use Rattle.core_run.specs.Cores.{core_of};
    ghost use Rattle.core_machine.specs.Machine.{Machine, IsRunning};

    ghost Value = { Machine };

    ghost coded = { Prim.hlevel (codes, atom.the_row.coded, term.the_row.coded, expr.the_row.coded, item.the_row.coded) };

    ghost view = { λ c. record { work = c.work.now; state = core_of c.inner } };

    ghost invariant = { λ c. IsRunning c.work.now c.inner };
}

/// What a replay comes to: the data arrays, and the looks and those that passed, both modulo 2^64.
#[derive(Drop)]
pub struct CoreEnd {
    pub values: Values,
    pub looks: u64,
    pub passed: u64,
}

impl<'w> Core<'w> {
    /// The core of a fit work at its start: the data arrays are copied, and each worker's script is unrolled.
    ///
    /// It takes the time of the loop run once, and memory for each action, instance and read of an array
    /// that the nest doesn't write. Out of memory is the one fault.
    pub fn start(alloc: Global, work: &'w Work) -> Result<Core<'w>, Memory>
        requires { IsFitWork work.now }
        ensures { IfOk result (λ core. core ≡ record { work = work.now; state = opening (plain work.now) }) }
    {
        let inner = unroll(alloc, &work.nest, &work.arrays, &work.values, &work.sched)?;
        Ok(Core { work, inner })
    }

    /// One word step of a worker: its next action.
    ///
    /// Nothing changes at a look that fails and at the script's end. It takes no memory, and constant time but
    /// for the expressions of the worker's row since its write before.
    pub fn event(&mut self, worker: u32) -> Event
        requires { IsWorker self.old.work worker }
        ensures work { self.new.work ≡ self.old.work }
        ensures step { self.new.state ≡ law.event (plain self.old.work) worker self.old.state }
        ensures answer { result ≡ answer_of self.old.work self.old.state worker }
        ensures value { IsAsInLoop self.old.work self.old.state worker result }
        ensures ended { result ≡ Ended ↔ (length (script (plain self.old.work) worker) ≤ place self.old.state worker) }
        ensures missed { (seen need : ℕ) → result ≡ Looked seen need false → self.new.state ≡ self.old.state }
        ensures stays { result ≡ Ended → self.new.state ≡ self.old.state }
    {
        nests_are_fit();
        shapes_stay();
        reads_are_as_in_the_loop();
        writes_are_as_in_the_loop();
        self.inner.event(worker as usize)
    }

    /// The events of an order of workers' numbers, and then whole rounds of all workers until all have ended.
    ///
    /// It always returns, and takes no memory.
    pub fn replay(self, order: &[u32]) -> CoreEnd
        requires { All (IsWorker self.work) order.now }
        ensures values { result.values ≡ sequential self.entry.work.nest self.entry.work.arrays self.entry.work.values }
        ensures counts { IsReplay self.entry.work self.entry.state order.now result.looks result.passed }
    {
        nests_are_fit();
        shapes_stay();
        ends_are_as_in_the_loop();
        let Core { work: _, mut inner } = self;
        let tally = inner.replay(order);
        let Inner {
            scripts: _,
            counts: _,
            values,
            stands: _,
            hows: _,
            book: _,
        } = inner;
        CoreEnd {
            values,
            looks: tally.looks,
            passed: tally.passed,
        }
    }
}
