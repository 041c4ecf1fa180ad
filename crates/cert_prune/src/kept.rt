// The marked steps of a certificate, with new numbers.
ghost use Rattle.std.specs.Prelude.{◌≡◌, ◌≤◌, length, map, IfOk};
ghost use Rattle.cert_prune.specs.Kept.{numbers, number_in, renamed, kept};

use index_props::certificate::Step;
use loop_core::copies::copy_atom;
use sqlite_items::Items;
use std::alloc::Global;
use wave_base::types::Memory;

/// The marked steps, each of which names the others by their new numbers.
pub fn kept(alloc: Global, steps: &[Step], marks: &[bool]) -> Result<Items<Step>, Memory>
    requires { length marks.now ≡ length steps.now }
    ensures { IfOk result (λ left. left ≡ kept (numbers 0 marks.now) marks.now steps.now) }
{
    let numbers = numbers(alloc, marks)?;
    let mut left = Items::new(alloc);
    for (i, step) in steps.iter().enumerate() {
        if marks[i] {
            left.push(renamed(alloc, numbers.as_slice(), step)?)?;
        }
    }
    Ok(left)
}

// How many marks stand before each place.
fn numbers(alloc: Global, marks: &[bool]) -> Result<Vec<u64>, Memory>
    ensures { IfOk result (λ ns. ns.items ≡ numbers 0 marks.now) }
{
    let mut ns = Vec::new(alloc);
    let mut number = 0u64;
    for mark in marks {
        ns.push(number)?;
        if *mark {
            number += 1;
        }
    }
    Ok(ns)
}

fn number_in(numbers: &[u64], k: u64) -> u64
    ensures { result ≡ number_in numbers.now k }
{
    match numbers.get(k as usize) {
        Some(number) => *number,
        None => k,
    }
}

fn renamed(alloc: Global, numbers: &[u64], step: &Step) -> Result<Step, Memory>
    ensures { IfOk result (λ s. s ≡ renamed numbers.now step.now) }
{
    match step {
        Step::Base(k) => Ok(Step::Base(*k)),
        Step::Same(atom) => {
            let atom = copy_atom(alloc, atom)?;
            Ok(Step::Same(atom))
        }
        Step::Sum(k, l) => Ok(Step::Sum(number_in(numbers, *k), number_in(numbers, *l))),
        Step::Weaken(k, c) => Ok(Step::Weaken(number_in(numbers, *k), *c)),
        Step::Rule(inst, result, ks) => {
            let ks = all_renamed(alloc, numbers, ks.as_slice())?;
            Ok(Step::Rule(*inst, *result, ks))
        }
    }
}

fn all_renamed(alloc: Global, numbers: &[u64], ks: &[u64]) -> Result<Items<u64>, Memory>
    ensures { IfOk result (λ new. new ≡ map (number_in numbers.now) ks.now) }
{
    let mut new = Items::new(alloc);
    for k in ks {
        new.push(number_in(numbers, *k))?;
    }
    Ok(new)
}
