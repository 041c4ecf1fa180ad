// What an unrolling begins with.
ghost use Rattle.std.specs.Prelude.{◌≡◌, [], IfOk};
ghost use Rattle.loop_core.specs.IsNest.{IsNest};
ghost use Rattle.loop_core.specs.Shape.{is_target};
ghost use Rattle.core_value.specs.Taken.{flagged};

use crate::unrolling::Unrolling;
use core_book::book::Book;
use loop_core::nest::Nest;
use loop_core::values::Values;
use std::alloc::Global;
use wave_base::types::{ArrayId, Memory};

impl Unrolling {
    /// No actions, no instances and no statements, over a copy of the values.
    pub fn begin(alloc: Global, nest: &Nest, values: &Values) -> Result<Unrolling, Memory>
        ensures actions { IfOk result (λ u. u.actions.items ≡ []) }
        ensures instances { IfOk result (λ u. u.hows.items ≡ []) }
        ensures values { IfOk result (λ u. u.values ≡ values.now) }
        ensures written { IfOk result (λ u. IsNest nest.now → flagged u.book.written.items ≡ is_target nest.now) }
    {
        let written = flags(alloc, nest)?;
        let values = values.copy(alloc)?;
        Ok(Unrolling {
            actions: Vec::new(alloc),
            hows: Vec::new(alloc),
            before: 0,
            room: 0,
            book: Book {
                statements: Vec::new(alloc),
                written,
                others: Vec::new(alloc),
            },
            values,
            slots: Vec::new(alloc),
        })
    }
}

// Whether the nest writes each array: there are at most 64.
fn flags(alloc: Global, nest: &Nest) -> Result<Vec<bool>, Memory>
    ensures { IfOk result (λ flags. IsNest nest.now → flagged flags.items ≡ is_target nest.now) }
{
    let mut flags = Vec::with_capacity(alloc, 64)?;
    for array in 0..64u8 {
        flags.push(nest.writes(ArrayId(array)))?;
    }
    Ok(flags)
}
