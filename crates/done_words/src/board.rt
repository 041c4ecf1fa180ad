// The board.
ghost use Rattle.std.specs.Prelude.{◌≡◌, ◌<◌, ◌^◌, ℕ, length, IfOk};
ghost use Rattle.loop_core.specs.Lengths.{HaveLengths};
ghost use Rattle.core_machine.specs.FitWork.{IsFitWork};
ghost use Rattle.done_words.specs.WordsOf.{opening_words, spans_of};
ghost use Rattle.done_words.specs.Views.{leading};
ghost use Rattle.done_words.specs.Sound.{IsSound, IsClosed};

use crate::copying::copy_array;
use crate::layout::{Layout, Span};
use crate::main_seat::MainSeat;
use crate::ranges::{tasks_fit, values_fit};
use crate::rule::SharedWords;
use core_machine::laws::ends_are_as_in_the_loop;
use core_machine::work::Work;
use loop_core::values::Values;
use std::alloc::Global;
use std::snapshot::Snapshot;
use wave_base::types::{ArrayId, Memory};

/// A done word for each worker, and then a word for each cell of an array that the nest writes. Any number of
/// threads may step on it at once, each with a seat of its own.
#[derive(Drop)]
pub struct Board {
    pub(crate) words: SharedWords,
    pub(crate) spans: Vec<Span>,
    ghost sized: { (words.shared.table_id.words ≡ length (opening_words words.shared.key.value)) × (words.shared.table_id.slots ≡ 0) × (words.shared.table_id.words < 2 ^ 63) },
    ghost spanned: { spans.items ≡ spans_of words.shared.key.value },
    ghost sound: { ∥ IsSound words.shared.key.value ∥₁ },
}

impl Board {
    ghost use Rattle.done_words.specs.Seats.{work_of, main_view, IsMainOf, HasAll};

    /// The board of a fit work in its opening state, and the seat that makes those of the workers.
    ///
    /// It takes 8 bytes for each worker and for each cell of a written array, twice while it runs, and the
    /// time of the work's words. Out of memory is the one fault.
    pub fn new(alloc: Global, work: &Work) -> Result<(Board, MainSeat), Memory>
        requires { IsFitWork work.now }
        ensures work { IfOk result (λ r. work_of r.0 ≡ work.now) }
        ensures own { IfOk result (λ r. IsMainOf r.1 r.0) }
        ensures leads { IfOk result (λ r. main_view r.1 ≡ leading work.now) }
    {
        values_fit(&work.values);
        tasks_fit(&work.sched.workers);
        let Layout {
            words: opening,
            spans,
        } = Layout::of(alloc, work)?;
        let (words, seat) = SharedWords::of_words(alloc, &opening, &Snapshot::of(work))?;
        Ok((Board { words, spans }, MainSeat { seat }))
    }

    /// Ends the board once all workers were made and joined. The arrays that the nest writes become those of the
    /// loop run in order, and all else in `into` stays. It takes no memory.
    pub fn close(self, main: MainSeat, into: &mut Values)
        requires own { IsMainOf main self }
        requires all { HasAll (work_of self) (main_view main) }
        requires room { HaveLengths (work_of self).nest.decls (work_of self).arrays into.old }
        ensures { IsClosed (work_of self) into.old into.new }
    {
        ends_are_as_in_the_loop();
        let Board { words, spans } = self;
        let MainSeat { seat } = main;
        let closed = words.close_with(seat);
        for array in 0..64u8 {
            copy_array(&closed, spans[array as usize], ArrayId(array), into);
        }
        closed.free();
    }
}
