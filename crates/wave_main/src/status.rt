// How a call of the program ends.
ghost use Rattle.std.specs.Prelude.{◌≡◌};
ghost use Rattle.wave_main.specs.Status.{code_of};

use access_bounds::refusal::Side2;
use loop_syntax::refusal::{LimitKind, NameKind};
use mtx_read::refusal::{BigKind, EntryKind};
use std::alloc::{AllocError, AllocFailed};
use wave_base::types;

/// Why a file is no matrix or vector. Lines count from 1, and so do the words of the first line.
#[derive(Clone, Copy, Debug, PartialEq, Eq)]
pub enum MtxFault {
    /// The first line doesn't begin as that of a matrix.
    Header,
    /// A word of the first line names a form, field or symmetry that isn't read.
    Field { word: u32 },
    /// The size line is missing, or isn't the numbers that it has to be.
    Size { line: u32 },
    /// An entry line is faulty.
    Entry { line: u32, kind: EntryKind },
    /// Fewer entry lines than announced.
    Short { have: u64, want: u64 },
    /// A line after the announced entries.
    Extra { line: u32 },
    /// The file, or a number of its size line, passes a limit.
    Big { what: BigKind, value: u64 },
}

/// Which shapes don't fit.
#[derive(Clone, Copy, Debug, PartialEq, Eq)]
pub enum ShapeKind {
    /// The matrix isn't square.
    NotSquare { rows: u32, columns: u32 },
    /// Another number of files than the loop declares.
    Files { have: u32, want: u32 },
    /// The first file that hasn't as many values as its array.
    Length { word: u32, have: u64, want: u64 },
    /// The first entry of an order that is no worker's number.
    Order { place: u64, value: i64 },
}

/// How a call of the program ends. `word` is the place, from 0, of a word of the command line.
#[derive(Clone, Copy, Debug, PartialEq, Eq)]
pub enum Status {
    /// The text was put whole.
    Done,
    /// The words are no command's; the place is that of the first wrong or missing word.
    Usage {
        word: u32,
    },
    /// The file named by a word couldn't be read.
    ReadFault {
        word: u32,
    },
    /// The least line of the loop file that has no form of the language or doesn't fit.
    LoopText {
        line: u32,
    },
    /// The first name of the loop file that breaks a rule.
    LoopName {
        line: u32,
        kind: NameKind,
    },
    /// The first count of the loop file that passes its limit; line 0 stands for the whole file.
    LoopLimit {
        line: u32,
        kind: LimitKind,
    },
    /// The first bracket of the loop of which a bound can't be derived, and the side of it.
    Unbounded {
        line: u32,
        bracket: u32,
        side: Side2,
    },
    /// The first file that is no matrix or vector.
    MatrixText {
        word: u32,
        cause: MtxFault,
    },
    /// The shapes of the files don't fit the loop.
    Shape(ShapeKind),
    /// The first declared property, counted from 1, that the arrays break, and the two places that
    /// show it.
    Property {
        property: u32,
        first: u64,
        second: u64,
    },
    /// The text couldn't be put whole.
    WriteFault,
    /// Out of memory.
    Memory,
}

impl Status {
    /// The number with which the program ends.
    pub fn code(&self) -> u8
        ensures { result ≡ code_of self.now }
    {
        match self {
            Status::Done => 0,
            Status::Usage { .. } => 2,
            Status::LoopText { .. } => 3,
            Status::LoopName { .. } => 4,
            Status::LoopLimit { .. } => 5,
            Status::Unbounded { .. } => 6,
            Status::ReadFault { .. } => 7,
            Status::WriteFault => 8,
            Status::MatrixText { .. } => 9,
            Status::Shape(_) => 10,
            Status::Property { .. } => 11,
            Status::Memory => 12,
        }
    }
}

impl From<types::Memory> for Status {
    ghost use Rattle.wave_main.specs.declared.status.Status.TheVariants.{Memory};

    ghost from_gives = { λ _ status. status ≡ Memory };

    fn from(_want: types::Memory) -> Status {
        Status::Memory
    }
}

impl From<AllocError> for Status {
    ghost use Rattle.wave_main.specs.declared.status.Status.TheVariants.{Memory};

    ghost from_gives = { λ _ status. status ≡ Memory };

    fn from(_refused: AllocError) -> Status {
        Status::Memory
    }
}

impl<T: Drop> From<AllocFailed<T>> for Status {
    ghost use Rattle.wave_main.specs.declared.status.Status.TheVariants.{Memory};

    ghost from_gives = { λ _ status. status ≡ Memory };

    fn from(_refused: AllocFailed<T>) -> Status {
        Status::Memory
    }
}
