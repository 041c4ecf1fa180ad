// Tests of what callers owe: how large the constants of terms are.
ghost use Rattle.std.specs.Prelude.{◌≡◌, ◌^◌, ◌↔◌, IsTrue};
ghost use Rattle.uf_constraints.specs.Constants.{atom_within, term_within, DiffsWithin, TermsWithin};

use crate::system::Diff;
use loop_core::nest::{Atom, Term};

/// Whether each constant in a term, inner ones too, is from -2^21 to 2^21. It takes no memory.
#[cycle(small)]
pub fn is_term_small(term: &Term) -> bool
    ensures { result ≡ term_within (2 ^ 21) term.now }
{
    is_atom_small(&term.atom) && term.plus.unsigned_abs() <= 2_097_152
}

/// Whether each constant in an atom is from -2^21 to 2^21. It takes no memory.
#[cycle(small)]
pub fn is_atom_small(atom: &Atom) -> bool
    ensures { result ≡ atom_within (2 ^ 21) atom.now }
{
    match atom {
        Atom::At(_, inner) => is_term_small(inner.get()),
        Atom::Zero => true,
        Atom::N => true,
        Atom::Nnz => true,
        Atom::Var(_) => true,
    }
}

/// Whether the terms may be handed to `universe`. It takes no memory.
pub fn are_terms_small(terms: &[Term]) -> bool
    ensures { IsTrue result ↔ TermsWithin (2 ^ 21) terms.now }
{
    for term in terms {
        if !is_term_small(term) {
            return false;
        }
    }
    true
}

/// Whether the constraints may be handed to `universe`. It takes no memory.
pub fn are_diffs_small(diffs: &[Diff]) -> bool
    ensures { IsTrue result ↔ DiffsWithin (2 ^ 21) diffs.now }
{
    for diff in diffs {
        if !is_diff_small(diff) {
            return false;
        }
    }
    true
}

fn is_diff_small(diff: &Diff) -> bool
    ensures { IsTrue result
        ↔ (IsTrue (atom_within (2 ^ 21) diff.now.a) × IsTrue (atom_within (2 ^ 21) diff.now.b)) }
{
    is_atom_small(&diff.a) && is_atom_small(&diff.b)
}
