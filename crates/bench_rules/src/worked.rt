// The derivation that docs/use/ANALYSIS.md works out, as a certificate: a.col[p] < n follows from the base of
// the bracket, with the instances in the order in which they are listed.
use index_props::certificate::{Cert, Step};
use sqlite_items::Items;
use std::alloc::Global;

/// The certificate, or one whose step 20 names itself in place of step 19.
pub fn certificate(alloc: Global, names_itself: bool) -> Option<Cert> {
    let mut steps = Items::new(alloc);
    push_all(alloc, &mut steps)?;
    let before = if names_itself { 20 } else { 19 };
    push(&mut steps, Step::Sum(before, 1))?;
    push(&mut steps, Step::Weaken(20, -1))?;
    Some(Cert { steps })
}

fn push(steps: &mut Items<Step>, step: Step) -> Option<()> {
    steps.push(step).ok()
}

fn push_rule(
    alloc: Global,
    steps: &mut Items<Step>,
    inst: u64,
    number: u64,
    places: &[u64],
) -> Option<()> {
    let places = Items::from_slice(alloc, places).ok()?;
    push(steps, Step::Rule(inst, number, places))
}

fn push_all(alloc: Global, steps: &mut Items<Step>) -> Option<()> {
    push_places(steps)?;
    push_diagonal(alloc, steps)?;
    push_segment(steps)?;
    push_sorted(alloc, steps)
}

// 0 to 3: 0 <= i, i < n, i <= n, 0 <= i+1
fn push_places(steps: &mut Items<Step>) -> Option<()> {
    push(steps, Step::Base(2))?;
    push(steps, Step::Base(3))?;
    push(steps, Step::Weaken(1, 0))?;
    push(steps, Step::Weaken(0, 1))
}

// 4 to 8: a.ptr[i] <= a.diag[i], a.diag[i] < a.ptr[i+1], a.col[a.diag[i]] <= i, 0 <= a.ptr[i],
// a.ptr[i+1] <= nnz
fn push_diagonal(alloc: Global, steps: &mut Items<Step>) -> Option<()> {
    push_rule(alloc, steps, 35, 0, &[0, 1, 0, 2, 3, 1])?;
    push_rule(alloc, steps, 35, 1, &[0, 1, 0, 2, 3, 1])?;
    push_rule(alloc, steps, 35, 2, &[0, 1, 0, 2, 3, 1])?;
    push_rule(alloc, steps, 9, 0, &[0, 2])?;
    push_rule(alloc, steps, 10, 1, &[3, 1])
}

// 9 to 17: a.ptr[i] <= p, p < a.diag[i], and that both are places in the segment
fn push_segment(steps: &mut Items<Step>) -> Option<()> {
    push(steps, Step::Base(4))?;
    push(steps, Step::Base(5))?;
    push(steps, Step::Sum(7, 9))?;
    push(steps, Step::Sum(10, 5))?;
    push(steps, Step::Weaken(12, -1))?;
    push(steps, Step::Sum(12, 8))?;
    push(steps, Step::Weaken(14, -1))?;
    push(steps, Step::Sum(7, 4))?;
    push(steps, Step::Sum(5, 8))
}

// 18 and 19: a.col[p] < a.col[a.diag[i]], a.col[p] < i
fn push_sorted(alloc: Global, steps: &mut Items<Step>) -> Option<()> {
    let places = [9, 13, 11, 15, 0, 2, 3, 1, 4, 5, 16, 17, 0, 2, 3, 1, 10];
    push_rule(alloc, steps, 20, 0, &places)?;
    push(steps, Step::Sum(18, 6))
}
