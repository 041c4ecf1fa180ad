// Why a line can't be read.
ghost use Rattle.std.specs.Prelude.{◌≡◌};
ghost use Rattle.loop_lines.specs.declared.refusal.LineRefusal.TheVariants.{Memory};

use std::alloc::{AllocError, AllocFailed};

/// Why a line can't be read: it has no form of the language, or memory ran out.
#[derive(Clone, Copy, Debug, PartialEq, Eq)]
pub enum LineRefusal {
    Text,
    Memory,
}

impl From<AllocError> for LineRefusal {
    ghost from_gives = { λ _ e. e ≡ Memory };

    fn from(_refused: AllocError) -> LineRefusal {
        LineRefusal::Memory
    }
}

impl<T: Drop> From<AllocFailed<T>> for LineRefusal {
    ghost from_gives = { λ _ e. e ≡ Memory };

    fn from(_refused: AllocFailed<T>) -> LineRefusal {
        LineRefusal::Memory
    }
}
