// The places of atoms in a list.
ghost use Rattle.std.specs.Prelude.{◌≡◌};
ghost use Rattle.bound_ways.specs.Places.{place_in};

use loop_core::nest::Atom;
use uf_constraints::same::same_atom;

/// The place of the first atom that is equal to this one, and the number of atoms where there is
/// none. It takes no memory.
pub fn place(atoms: &[Atom], atom: &Atom) -> usize
    ensures { result ≡ place_in atoms.now atom.now }
{
    for at in 0..atoms.len() {
        if same_atom(atom, &atoms[at]) {
            return at;
        }
    }
    atoms.len()
}
