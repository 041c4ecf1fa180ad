// The core: its words, and where its workers stand.
ghost use Rattle.std.specs.Prelude.{◌≡◌, ◌<◌, [], ◌∷◌, length};
ghost use Rattle.core_law.specs.Works.{Work};
ghost use Rattle.core_law.specs.Fit.{IsFit};
ghost use Rattle.core_law.specs.Machine.{Reached};
ghost use Rattle.core_run.specs.Seats.{AreCaught};
ghost use Rattle.core_run.specs.Plain.{did, told, HasRoom};
ghost use Rattle.core_run.specs.Cores.{core_of, hows_of, stand_in, next_of};
ghost use Rattle.core_run.specs.Links.{IsOf, IsGood};
ghost use Rattle.core_run.specs.Orders.{looked_by, passed_by, Follows};
ghost use Rattle.core_run.specs.Answers.{IsRight};

use crate::action::{Action, Hows, Script};
use crate::standings::Standings;
use core_book::book::Book;
use core_law::laws::{
    actions_are_there, reads_are_sequential, registers_are_sequential, shapes_stay,
    writes_are_sequential,
};
use loop_core::values::Values;
use wave_base::types::Cell;

/// The scripts of all workers, the done counts, the words, where the workers stand, and what never
/// changes.
#[derive(Drop)]
pub struct Core {
    pub scripts: Vec<Script>,
    pub counts: Vec<u64>,
    pub values: Values,
    pub stands: Standings,
    pub hows: Vec<Hows>,
    pub book: Book,
}

/// What an event did.
#[derive(Clone, Copy)]
pub enum Event {
    Looked { seen: u64, need: u64, passed: bool },
    Read { cell: Cell, value: i64 },
    Wrote { cell: Cell, value: i64 },
    FinishedTask { count: u64 },
    Ended,
}

impl Core {
    // The next action of a worker, by the code's own actions.
    fn step(&mut self, worker: usize) -> Event
        requires worker { worker < length self.old.stands.stands }
        requires scripts { length self.old.scripts.items ≡ length self.old.stands.stands }
        requires hows { length self.old.hows.items ≡ length self.old.stands.stands }
        requires room { HasRoom self.old.book (hows_of self.old worker) self.old.stands.room worker (core_of self.old) (stand_in self.old worker) (next_of self.old worker) }
        requires caught { AreCaught self.old.book self.old.hows.items self.old.stands }
        ensures step { core_of self.new ≡ did self.old.book (hows_of self.old worker) worker (core_of self.old) (stand_in self.old worker) (next_of self.old worker) }
        ensures answer { result ≡ told self.old.book (hows_of self.old worker) worker (core_of self.old) (stand_in self.old worker) (next_of self.old worker) }
        ensures scripts { self.new.scripts ≡ self.old.scripts }
        ensures book { self.new.book ≡ self.old.book }
        ensures hows { self.new.hows ≡ self.old.hows }
        ensures stands { length self.new.stands.stands ≡ length self.old.stands.stands }
        ensures room { self.new.stands.room ≡ self.old.stands.room }
        ensures caught { AreCaught self.new.book self.new.hows.items self.new.stands }
    {
        let place = self.stands.place(worker);
        let Some(action) = self.scripts[worker].at(place) else {
            return Event::Ended;
        };
        match action {
            Action::Look { from, need } => {
                let seen = self.counts[from as usize];
                let passed = need <= seen;
                if passed {
                    self.stands.pass(worker, false);
                }
                Event::Looked { seen, need, passed }
            }
            Action::Read { begins, cell } => {
                let value = self.values.get(cell);
                self.stands.hold(worker, begins, value);
                Event::Read { cell, value }
            }
            Action::Write { begins, cell, at } => {
                let hows = self.hows[worker].as_slice();
                let value = self.stands.work(worker, begins, &self.book, hows, at);
                self.values.set(cell, value);
                Event::Wrote { cell, value }
            }
            Action::Finish => {
                let count = self.counts[worker] + 1;
                self.counts[worker] = count;
                self.stands.pass(worker, true);
                Event::FinishedTask { count }
            }
        }
    }

    /// One word step of a worker: its next action. Nothing changes at a look that fails, and at the
    /// script's end. It takes no memory.
    pub fn event(&mut self, worker: usize) -> Event
        requires good { IsGood self.old }
        requires worker { worker < length self.old.stands.stands }
        ensures step { Follows self.old self.new (worker ∷ []) (looked_by result) (passed_by result) }
        ensures answer { result ≡ told self.old.book (hows_of self.old worker) worker (core_of self.old) (stand_in self.old worker) (next_of self.old worker) }
        ensures value { (w : Work) → IsFit w → IsOf w self.old → Reached w (core_of self.old) → IsRight w (core_of self.old) worker result }
    {
        shapes_stay();
        actions_are_there();
        registers_are_sequential();
        reads_are_sequential();
        writes_are_sequential();
        self.step(worker)
    }
}
