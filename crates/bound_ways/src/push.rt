// Steps put at the end of a list. The answer is the number of the step.
ghost use Rattle.std.specs.Prelude.{◌≡◌, ◌++◌, ◌∷◌, [], length, IfOk, OnOk};
ghost use Rattle.index_props.specs.declared.certificate.Step.TheVariants.{Same, Sum, Weaken};

use index_props::certificate::Step;
use loop_core::copies::copy_atom;
use loop_core::nest::Atom;
use sqlite_items::Items;
use std::alloc::Global;
use wave_base::types::Memory;

/// Puts a step at the end.
pub fn push_step(step: Step, steps: &mut Items<Step>) -> Result<u64, Memory>
    ensures number { IfOk result (λ k. k ≡ length steps.old) }
    ensures steps { OnOk result (steps.new ≡ steps.old ++ step ∷ []) }
{
    let at = steps.len();
    steps.push(step)?;
    Ok(at as u64)
}

/// Puts `a - a <= 0` at the end.
pub fn push_same(alloc: Global, atom: &Atom, steps: &mut Items<Step>) -> Result<u64, Memory>
    ensures number { IfOk result (λ k. k ≡ length steps.old) }
    ensures steps { OnOk result (steps.new ≡ steps.old ++ Same atom.now ∷ []) }
{
    let atom = copy_atom(alloc, atom)?;
    push_step(Step::Same(atom), steps)
}

/// Puts the sum of two steps at the end.
pub fn push_sum(first: u64, second: u64, steps: &mut Items<Step>) -> Result<u64, Memory>
    ensures number { IfOk result (λ k. k ≡ length steps.old) }
    ensures steps { OnOk result (steps.new ≡ steps.old ++ Sum first second ∷ []) }
{
    push_step(Step::Sum(first, second), steps)
}

/// Puts a step with a greater right side at the end.
pub fn push_weaken(step: u64, c: i64, steps: &mut Items<Step>) -> Result<u64, Memory>
    ensures number { IfOk result (λ k. k ≡ length steps.old) }
    ensures steps { OnOk result (steps.new ≡ steps.old ++ Weaken step c ∷ []) }
{
    push_step(Step::Weaken(step, c), steps)
}
