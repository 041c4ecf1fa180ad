// Why a text is no matrix or vector.
ghost use Rattle.std.specs.Prelude.{◌≡◌};
ghost use Rattle.mtx_read.specs.declared.refusal.MtxRefusal.TheVariants.{Memory};

use std::alloc::{AllocError, AllocFailed};

/// What is wrong with an entry line. Of several faults of one line the first in this order is given.
#[derive(Clone, Copy, Debug, PartialEq, Eq)]
pub enum EntryKind {
    /// Another number of words.
    Words,
    /// A word isn't an optional sign and digits.
    Number,
    /// The value doesn't fit 64 bits.
    Wide,
    /// The row or the column is outside the matrix.
    Range,
    /// An entry above the diagonal of a symmetric or skew-symmetric matrix.
    AboveDiagonal,
    /// An entry on the diagonal of a skew-symmetric matrix.
    OnDiagonal,
}

/// Which count passes its limit.
#[derive(Clone, Copy, Debug, PartialEq, Eq)]
pub enum BigKind {
    Bytes,
    Rows,
    Columns,
    Stored,
}

/// Why a text is no matrix or vector, or that memory ran out. Lines count from 1.
#[derive(Clone, Copy, Debug, PartialEq, Eq)]
pub enum MtxRefusal {
    /// Line 1 isn't five words of which the first two are `%%MatrixMarket` and `matrix`.
    Header,
    /// A word of line 1 names a form, field or symmetry that isn't read.
    Field { word: u32 },
    /// The size line is missing, or isn't the numbers that it has to be.
    Size { line: u32 },
    /// An entry line is faulty.
    Entry { line: u32, kind: EntryKind },
    /// Fewer entry lines than announced.
    Short { have: u64, want: u64 },
    /// The first line after the announced entries that isn't skipped.
    Extra { line: u32 },
    /// The file, or a number of its size line, passes a limit.
    Big { what: BigKind, value: u64 },
    /// Out of memory. It says nothing of the text.
    Memory,
}

impl From<AllocError> for MtxRefusal {
    ghost from_gives = { λ _ e. e ≡ Memory };

    fn from(_refused: AllocError) -> MtxRefusal {
        MtxRefusal::Memory
    }
}

impl<T: Drop> From<AllocFailed<T>> for MtxRefusal {
    ghost from_gives = { λ _ e. e ≡ Memory };

    fn from(_refused: AllocFailed<T>) -> MtxRefusal {
        MtxRefusal::Memory
    }
}
