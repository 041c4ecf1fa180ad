// Which steps of a certificate its last one needs.
ghost use Rattle.std.specs.Prelude.{◌≡◌, ◌<◌, ◌≤◌, ◌+◌, ℕ, [], ◌∷◌, length, true, IfOk};
ghost use Rattle.cert_prune.specs.Needed.{names, IsMarked, IsMarkedFrom, AreNeeded};

use index_props::certificate::Step;
use std::alloc::Global;
use wave_base::types::Memory;

/// A mark for each step, which stands at the last one and at each that a marked later one names.
pub fn needed(alloc: Global, steps: &[Step]) -> Result<Vec<bool>, Memory>
    ensures { IfOk result (λ marks. AreNeeded 0 steps.now marks.items) }
{
    let mut marks = last_marked(alloc, steps)?;
    mark_back(&mut marks, steps);
    Ok(marks)
}

// Goes back from the last step, so that each is marked by all that name it before it is passed.
fn mark_back(marks: &mut [bool], steps: &[Step])
    requires { AreNeeded (length steps.now) steps.now marks.old }
    ensures { AreNeeded 0 steps.now marks.new }
{
    let mut left = steps.len();
    while left > 0 {
        left -= 1;
        mark_from(marks, left, &steps[left]);
    }
}

fn last_marked(alloc: Global, steps: &[Step]) -> Result<Vec<bool>, Memory>
    ensures { IfOk result (λ marks. AreNeeded (length steps.now) steps.now marks.items) }
{
    let mut marks = vec![in alloc; false; steps.len()]?;
    if let Some(last) = marks.last_mut() {
        *last = true;
    }
    Ok(marks)
}

// Marks what a step names, where it is marked itself.
fn mark_from(marks: &mut [bool], at: usize, step: &Step)
    requires { at < length marks.old }
    ensures { IsMarkedFrom at (names step.now) marks.old marks.new }
{
    if marks[at] {
        mark_named(marks, at, step);
    }
}

// Marks what a step names, so far as it stands before it.
fn mark_named(marks: &mut [bool], below: usize, step: &Step)
    requires { below ≤ length marks.old }
    ensures { IsMarked below (names step.now) marks.old marks.new }
{
    match step {
        Step::Base(_) => {}
        Step::Same(_) => {}
        Step::Sum(k, l) => mark_two(marks, below, *k, *l),
        Step::Weaken(k, _) => mark(marks, below, *k),
        Step::Rule(_, _, ks) => mark_all(marks, below, ks.as_slice()),
    }
}

fn mark_two(marks: &mut [bool], below: usize, k: u64, l: u64)
    requires { below ≤ length marks.old }
    ensures { IsMarked below (k ∷ l ∷ []) marks.old marks.new }
{
    mark(marks, below, k);
    mark(marks, below, l);
}

fn mark_all(marks: &mut [bool], below: usize, ks: &[u64])
    requires { below ≤ length marks.old }
    ensures { IsMarked below ks.now marks.old marks.new }
{
    for k in ks {
        mark(marks, below, *k);
    }
}

fn mark(marks: &mut [bool], below: usize, k: u64)
    requires { below ≤ length marks.old }
    ensures { IsMarked below (k ∷ []) marks.old marks.new }
{
    let k = k as usize;
    if k < below {
        marks[k] = true;
    }
}
