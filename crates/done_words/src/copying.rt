// Words back into arrays.
ghost use Rattle.std.specs.Prelude.{ℕ, ◌+◌, ◌<◌, ◌≤◌, ◌^◌, length};
ghost use Rattle.std.specs.Slots.{slots_items, slots_len, IsFull};
ghost use Rattle.core_words.specs.WordsOf.{list_of};
ghost use Rattle.done_words.specs.Copied.{AreCopied};

use crate::layout::Span;
use atomic_table::Closed;
use loop_core::values::Values;
use std::alloc::Global;
use wave_base::types::ArrayId;

/// The values of the span's words become the first ones of the array.
pub fn copy_array(closed: &Closed<(), Global>, span: Span, array: ArrayId, into: &mut Values)
    requires full { IsFull closed.now.words }
    requires short { slots_len closed.now.words < 2 ^ 63 }
    requires words { (at : ℕ) → at < span.size → span.first + at < slots_len closed.now.words }
    requires room { span.size ≤ length (list_of into.old array.0) }
    ensures { AreCopied (slots_items closed.now.words) span.first span.size array.0 into.old into.new }
{
    for at in 0..span.size {
        let value = closed.word(span.first + at).cast_signed();
        into.write(array, at as i128, value);
    }
}
