// Atoms all of whose variables come earlier.
ghost use Rattle.std.specs.Prelude.{◌≡◌};
ghost use Rattle.inspector_run.specs.IsPlan.{is_among as among};
ghost use Rattle.inspector_gen.specs.Kinds.{is_fixed as fixed};

use loop_core::nest::{Atom, VarId};

/// Whether a variable is among these.
pub fn is_among(vars: &[VarId], v: VarId) -> bool
    ensures { result ≡ among vars.now v }
{
    vars.iter().any(|w| *w == v)
}

/// Whether all variables of an atom come earlier; it has one at most.
pub fn is_fixed(earlier: &[VarId], atom: &Atom) -> bool
    ensures { result ≡ fixed earlier.now atom.now }
{
    match atom {
        Atom::Zero => true,
        Atom::N => true,
        Atom::Nnz => true,
        Atom::Var(v) => is_among(earlier, *v),
        Atom::At(_, inner) => is_fixed(earlier, &inner.get().atom),
    }
}
