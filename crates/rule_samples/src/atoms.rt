// Short words for atoms and terms.
use loop_core::copies::copy_atom;
use loop_core::nest::{Atom, Side, Term, VarId};
use sqlite_items::Boxed;
use std::alloc::Global;
use wave_base::types::{ArrayId, Memory};

/// The variable of the loop on that line, on one side of a relation. It takes no memory.
pub fn variable(line: u16, side: Side) -> Atom {
    Atom::Var(VarId { line, side })
}

/// The term of an atom alone. It takes no memory.
pub fn plain(atom: Atom) -> Term {
    Term { atom, plus: 0 }
}

/// The entry of an array at an atom plus a constant.
pub fn entry(alloc: Global, array: ArrayId, atom: Atom, plus: i64) -> Result<Atom, Memory> {
    let index = Boxed::new(alloc, Term { atom, plus })?;
    Ok(Atom::At(array, index))
}

/// The entry of an array at a copy of an atom, plus a constant.
pub fn entry_at(alloc: Global, array: ArrayId, atom: &Atom, plus: i64) -> Result<Atom, Memory> {
    entry(alloc, array, copy_atom(alloc, atom)?, plus)
}
