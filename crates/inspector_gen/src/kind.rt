// How a variable gets its values.
use loop_core::nest::Term;
use wave_base::types::ArrayId;

/// In which way a variable may get its values: as an atom plus a constant; or by the entry of an array
/// at the variable plus a constant, which is an atom plus a constant, or next below that.
#[derive(Clone, Copy, Debug, PartialEq, Eq)]
pub enum Way {
    Given,
    Found { array: ArrayId, plus: i64 },
    Located { array: ArrayId, plus: i64 },
}

/// How a variable gets its values from those before it.
#[derive(Drop)]
pub enum Kind {
    /// It is the value of the term.
    Given {
        term: Term,
    },
    /// The entry of the array at the variable plus the constant is the value of the term.
    Found {
        array: ArrayId,
        plus: i64,
        term: Term,
    },
    /// The entry of the array at the variable plus the constant is at most the value of the term, and the
    /// entry after it is above.
    Located {
        array: ArrayId,
        plus: i64,
        term: Term,
    },
    /// All values of its span are tried.
    Looped,
}
