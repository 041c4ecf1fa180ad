// Terms and expressions whose arrays and variables are still names.
use loop_core::name::Name;
use loop_core::nest::Op;
use sqlite_items::Boxed;

/// An array as it is named: by its own name, or as an array of the matrix.
#[derive(Debug, Drop)]
pub enum ArrayName {
    Own(Name),
    Dotted(Name, Name),
}

/// What a term begins with: nothing, a size, a variable, or the entry of an array at a term.
#[cycle(named_term)]
#[derive(Drop)]
pub enum NamedAtom {
    Zero,
    N,
    Nnz,
    Var(Name),
    At(ArrayName, Boxed<NamedTerm>),
}

/// An index term: an atom plus a constant.
#[cycle(named_term)]
#[derive(Drop)]
pub struct NamedTerm {
    pub atom: NamedAtom,
    pub plus: i64,
}

/// A number, an array at a term, a local, or an operation.
#[derive(Drop)]
pub enum NamedExpr {
    Lit(i64),
    Read(ArrayName, NamedTerm),
    Local(Name),
    Op(Op, Boxed<NamedExpr>, Boxed<NamedExpr>),
}
