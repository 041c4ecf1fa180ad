// The words and signs of a line.
use crate::number::Natural;
use loop_core::name::Name;

/// A reserved word other than `n` and `nnz`.
#[derive(Clone, Copy, Debug, PartialEq, Eq)]
pub enum Keyword {
    Matrix,
    Csr,
    Csc,
    Index,
    Vector,
    File,
    Zero,
    Range,
    Rising,
    Strict,
    Injective,
    Sorted,
    Below,
    Upto,
    Diagonal,
    Before,
    Of,
    By,
    Loop,
    For,
    In,
    When,
    Set,
    End,
    Local,
    Min,
    Max,
    Down,
    Block,
}

/// A word or a sign of a line.
#[derive(Debug, Drop)]
pub enum Token {
    /// The digit 0 alone.
    Zero,
    /// The digit 1 alone.
    One,
    /// Any other digits.
    Number(Natural),
    N,
    Nnz,
    Word(Keyword),
    Name(Name),
    /// A name, a point and a word, without blanks: an array of the matrix.
    Dotted(Name, Name),
    /// `[`
    Open,
    /// `]`
    Close,
    /// `(`
    Left,
    /// `)`
    Right,
    /// `,`
    Comma,
    Plus,
    Minus,
    Times,
    Over,
    /// `=`
    Assign,
    /// `==`
    Equal,
    /// `<`
    Less,
    /// `<=`
    AtMost,
    /// `..`
    To,
}
