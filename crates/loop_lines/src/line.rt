// The forms of lines, with arrays and variables that are still names.
use crate::tree::{ArrayName, NamedExpr, NamedTerm};
use loop_core::decl::{Form, Size, Source};
use loop_core::name::Name;
use loop_core::nest::Rel;

/// What a property says of the arrays that it names, in the order of its line.
#[derive(Drop)]
pub enum NamedProp {
    Range(ArrayName, NamedTerm, NamedTerm),
    Rising(ArrayName),
    Strict(ArrayName),
    Injective(ArrayName),
    Sorted(ArrayName, ArrayName),
    Below(ArrayName, ArrayName),
    Upto(ArrayName, ArrayName),
    Diagonal(ArrayName, ArrayName, ArrayName),
    Before(ArrayName, ArrayName),
}

/// A line that has words.
#[derive(Drop)]
pub enum Line {
    Matrix(Name, Form),
    Index(Name, Size),
    Vector(Name, Size, Source),
    Local(Name),
    Prop(NamedProp),
    /// The outer loop.
    Loop(Name),
    /// A loop from the first term up to but not including the second.
    For(Name, NamedTerm, NamedTerm),
    When(Rel, NamedTerm, NamedTerm),
    /// The value is written into the array at the term.
    Set(ArrayName, NamedTerm, NamedExpr),
    /// The local keeps the value.
    Keep(Name, NamedExpr),
    /// The end of a block.
    End,
}
