// The constraint that one step gives.
ghost use Rattle.std.specs.Prelude.{◌≡◌, false, slice_get, IfOk, option_and_then};
ghost use Rattle.std.specs.Option.{option_map_or};
ghost use Rattle.index_props.specs.Certificate.{conclusion, same_of, sum_of, weakened, named, result_of, same_diff};

use index_props::certificate::Step;
use index_props::rule::RuleInst;
use loop_core::copies::copy_atom;
use loop_core::nest::Atom;
use sqlite_items::at;
use std::alloc::Global;
use uf_constraints::same::{is_listed, same_atom};
use uf_constraints::system::Diff;
use wave_base::types::Memory;

/// The constraint that a step gives beside those of the steps before it, and `None` where it is no
/// step.
///
/// A step is none where it names no earlier step, no constraint of the base, no instance or result,
/// or an atom that isn't listed, or where the right side needs more than 64 bits.
pub fn conclude(
    alloc: Global,
    atoms: &[Atom],
    base: &[Diff],
    rules: &[RuleInst],
    earlier: &[Diff],
    step: &Step,
) -> Result<Option<Diff>, Memory>
    ensures { IfOk result
        (λ d. d ≡ conclusion atoms.now base.now rules.now earlier.now step.now) }
{
    match step {
        Step::Base(k) => copied(alloc, base, *k),
        Step::Same(atom) => same(alloc, atoms, atom),
        Step::Sum(k, l) => sum(alloc, earlier, *k, *l),
        Step::Weaken(k, c) => weaken(alloc, earlier, *k, *c),
        Step::Rule(inst, number, places) => {
            apply(alloc, rules, earlier, *inst, *number, places.as_slice())
        }
    }
}

fn copied(alloc: Global, diffs: &[Diff], k: u64) -> Result<Option<Diff>, Memory>
    ensures { IfOk result (λ d. d ≡ slice_get diffs.now k) }
{
    match at(diffs, k as usize) {
        Some(diff) => Ok(Some(between(alloc, &diff.a, &diff.b, diff.c)?)),
        None => Ok(None),
    }
}

fn between(alloc: Global, a: &Atom, b: &Atom, c: i64) -> Result<Diff, Memory>
    ensures { IfOk result (λ d. d ≡ record { a = a.now; b = b.now; c = c }) }
{
    Ok(Diff {
        a: copy_atom(alloc, a)?,
        b: copy_atom(alloc, b)?,
        c,
    })
}

fn same(alloc: Global, atoms: &[Atom], atom: &Atom) -> Result<Option<Diff>, Memory>
    ensures { IfOk result (λ d. d ≡ same_of atoms.now atom.now) }
{
    if !is_listed(atoms, atom) {
        return Ok(None);
    }
    Ok(Some(between(alloc, atom, atom, 0)?))
}

fn sum(alloc: Global, earlier: &[Diff], k: u64, l: u64) -> Result<Option<Diff>, Memory>
    ensures { IfOk result (λ d. d
        ≡ option_and_then (λ x. option_and_then (sum_of x) (slice_get earlier.now l)) (slice_get earlier.now k)) }
{
    let Some(first) = at(earlier, k as usize) else {
        return Ok(None);
    };
    let Some(second) = at(earlier, l as usize) else {
        return Ok(None);
    };
    joined(alloc, first, second)
}

fn joined(alloc: Global, first: &Diff, second: &Diff) -> Result<Option<Diff>, Memory>
    ensures { IfOk result (λ d. d ≡ sum_of first.now second.now) }
{
    if !same_atom(&first.b, &second.a) {
        return Ok(None);
    }
    match first.c.checked_add(second.c) {
        Some(c) => Ok(Some(between(alloc, &first.a, &second.b, c)?)),
        None => Ok(None),
    }
}

fn weaken(alloc: Global, earlier: &[Diff], k: u64, c: i64) -> Result<Option<Diff>, Memory>
    ensures { IfOk result (λ d. d ≡ option_and_then (weakened c) (slice_get earlier.now k)) }
{
    match at(earlier, k as usize) {
        Some(diff) => raised(alloc, diff, c),
        None => Ok(None),
    }
}

fn raised(alloc: Global, diff: &Diff, c: i64) -> Result<Option<Diff>, Memory>
    ensures { IfOk result (λ d. d ≡ weakened c diff.now) }
{
    if diff.c > c {
        return Ok(None);
    }
    Ok(Some(between(alloc, &diff.a, &diff.b, c)?))
}

fn apply(
    alloc: Global,
    rules: &[RuleInst],
    earlier: &[Diff],
    inst: u64,
    number: u64,
    places: &[u64],
) -> Result<Option<Diff>, Memory>
    ensures { IfOk result (λ d. d
        ≡ option_and_then (result_of earlier.now number places.now) (slice_get rules.now inst)) }
{
    match at(rules, inst as usize) {
        Some(rule) => result_at(alloc, rule, earlier, number, places),
        None => Ok(None),
    }
}

fn result_at(
    alloc: Global,
    rule: &RuleInst,
    earlier: &[Diff],
    number: u64,
    places: &[u64],
) -> Result<Option<Diff>, Memory>
    ensures { IfOk result (λ d. d ≡ result_of earlier.now number places.now rule.now) }
{
    if !are_named(earlier, rule.premises.as_slice(), places) {
        return Ok(None);
    }
    copied(alloc, rule.results.as_slice(), number)
}

// Whether each premise in order is the constraint of the step named.
fn are_named(earlier: &[Diff], premises: &[Diff], places: &[u64]) -> bool
    ensures { result ≡ named earlier.now premises.now places.now }
{
    if premises.len() != places.len() {
        return false;
    }
    for i in 0..premises.len() {
        if !is_at(earlier, places[i], &premises[i]) {
            return false;
        }
    }
    true
}

fn is_at(earlier: &[Diff], k: u64, premise: &Diff) -> bool
    ensures { result ≡ option_map_or (same_diff premise.now) (slice_get earlier.now k) false }
{
    match at(earlier, k as usize) {
        Some(diff) => are_same(premise, diff),
        None => false,
    }
}

fn are_same(d: &Diff, e: &Diff) -> bool
    ensures { result ≡ same_diff d.now e.now }
{
    same_atom(&d.a, &e.a) && same_atom(&d.b, &e.b) && d.c == e.c
}
