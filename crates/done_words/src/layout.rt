// The words at the start, and where those of each array lie among them.
ghost use Rattle.std.specs.Prelude.{◌≡◌, ◌++◌, ◌∷◌, [], IfOk, OnOk, map, length, replicate};

use crate::words::push_words;
use core_machine::work::Work;
use std::alloc::Global;
use wave_base::types::{ArrayId, Memory};

/// The words of an array: the number of its first, and how many there are.
#[derive(Clone, Copy)]
pub struct Span {
    pub first: usize,
    pub size: usize,
}

#[derive(Drop)]
pub struct Layout {
    pub words: Vec<u64>,
    pub spans: Vec<Span>,
}

impl Layout {
    ghost use Rattle.done_words.specs.WordsOf.{word_of, opening_words, own_list, span_from, spans_of};

    /// A done count of 0 for each worker, and then the words of each array that the nest writes.
    pub fn of(alloc: Global, work: &Work) -> Result<Layout, Memory>
        ensures words { IfOk result (λ l. l.words.items ≡ opening_words work.now) }
        ensures spans { IfOk result (λ l. l.spans.items ≡ spans_of work.now) }
    {
        let mut layout = Layout::begin(alloc, work.sched.workers.as_slice().len())?;
        for array in 0..64u8 {
            layout.add(work, ArrayId(array))?;
        }
        Ok(layout)
    }

    fn begin(alloc: Global, workers: usize) -> Result<Layout, Memory>
        ensures words { IfOk result (λ l. l.words.items ≡ replicate workers 0) }
        ensures spans { IfOk result (λ l. l.spans.items ≡ []) }
    {
        let words = vec![in alloc; 0; workers]?;
        let spans = Vec::with_capacity(alloc, 64)?;
        Ok(Layout { words, spans })
    }

    // The words of one array more, where the nest writes it.
    fn add(&mut self, work: &Work, array: ArrayId) -> Result<(), Memory>
        ensures words { OnOk result (self.new.words.items ≡ self.old.words.items ++ map word_of (own_list work.now array.0)) }
        ensures spans { OnOk result (self.new.spans.items ≡ self.old.spans.items ++ span_from work.now (length self.old.words.items) array.0 ∷ []) }
    {
        if work.nest.writes(array) {
            self.add_words(work.values.words(array))
        } else {
            self.add_none()
        }
    }

    fn add_none(&mut self) -> Result<(), Memory>
        ensures words { OnOk result (self.new.words.items ≡ self.old.words.items) }
        ensures spans { OnOk result (self.new.spans.items ≡ self.old.spans.items ++ record { first = 0; size = 0 } ∷ []) }
    {
        self.spans.push(Span { first: 0, size: 0 })?;
        Ok(())
    }

    fn add_words(&mut self, words: &[i64]) -> Result<(), Memory>
        ensures words { OnOk result (self.new.words.items ≡ self.old.words.items ++ map word_of words.now) }
        ensures spans { OnOk result (self.new.spans.items ≡ self.old.spans.items ++ record { first = length self.old.words.items; size = length words.now } ∷ []) }
    {
        let first = self.words.len();
        push_words(&mut self.words, words)?;
        self.spans.push(Span {
            first,
            size: words.len(),
        })?;
        Ok(())
    }
}
