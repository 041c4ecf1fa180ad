// Copies of steps and universes.
ghost use Rattle.std.specs.Prelude.{◌≡◌, IfOk};

use index_props::certificate::Step;
use loop_core::copies::copy_atom;
use loop_core::nest::Atom;
use sqlite_items::Items;
use std::alloc::Global;
use uf_constraints::system::Universe;
use wave_base::types::Memory;

fn copy_step(alloc: Global, step: &Step) -> Result<Step, Memory>
    ensures { IfOk result (λ s. s ≡ step.now) }
{
    match step {
        Step::Base(at) => Ok(Step::Base(*at)),
        Step::Same(atom) => {
            let atom = copy_atom(alloc, atom)?;
            Ok(Step::Same(atom))
        }
        Step::Sum(first, second) => Ok(Step::Sum(*first, *second)),
        Step::Weaken(at, c) => Ok(Step::Weaken(*at, *c)),
        Step::Rule(rule, at, places) => {
            let places = Items::from_slice(alloc, places.as_slice())?;
            Ok(Step::Rule(*rule, *at, places))
        }
    }
}

/// Equal steps.
pub fn copy_steps(alloc: Global, steps: &[Step]) -> Result<Items<Step>, Memory>
    ensures { IfOk result (λ copy. copy ≡ steps.now) }
{
    let mut copy = Items::new(alloc);
    for step in steps {
        copy.push(copy_step(alloc, step)?)?;
    }
    Ok(copy)
}

/// Equal atoms.
pub fn copy_atoms(alloc: Global, atoms: &[Atom]) -> Result<Items<Atom>, Memory>
    ensures { IfOk result (λ copy. copy ≡ atoms.now) }
{
    let mut copy = Items::new(alloc);
    for atom in atoms {
        copy.push(copy_atom(alloc, atom)?)?;
    }
    Ok(copy)
}

/// A universe of the same atoms.
pub fn copy_universe(alloc: Global, u: &Universe) -> Result<Universe, Memory>
    ensures { IfOk result (λ v. v.atoms ≡ u.now.atoms) }
{
    let atoms = copy_atoms(alloc, u.atoms.as_slice())?;
    Ok(Universe { atoms })
}
