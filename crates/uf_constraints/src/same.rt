// Equality of terms, as a test that definitions use.
ghost use Rattle.std.specs.Prelude.{◌≡◌};
ghost use Rattle.uf_constraints.specs.Same.{same_atom as equal_atoms, same_term as equal_terms, is_listed as among};

use loop_core::equal;
use loop_core::nest::{Atom, Term};

/// Whether two terms are equal. It takes no memory.
pub fn same_term(a: &Term, b: &Term) -> bool
    ensures { result ≡ equal_terms a.now b.now }
{
    equal::same_term(a, b)
}

/// Whether two atoms are equal. It takes no memory.
pub fn same_atom(a: &Atom, b: &Atom) -> bool
    ensures { result ≡ equal_atoms a.now b.now }
{
    equal::same_atom(a, b)
}

/// Whether the atom is among these. It takes no memory.
pub fn is_listed(atoms: &[Atom], atom: &Atom) -> bool
    ensures { result ≡ among atoms.now atom.now }
{
    atoms.iter().any(|listed| same_atom(atom, listed))
}
