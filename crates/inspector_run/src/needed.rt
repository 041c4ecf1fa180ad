// The operations of a plan without the tests that are true by the operation before them.
ghost use Rattle.std.specs.Prelude.{◌≡◌, ◌++◌, ◌∷◌, [], IfOk};
ghost use Rattle.inspector_run.specs.Needed.{moved_by as with_constant, follows as makes_true, is_of_sizes as of_sizes, is_between as between, is_equal as equal, is_said as said, is_needless as needless, later as after_both, needed as all_needed, needed_after as all_after};

use crate::plan::InspOp;
use crate::run::first_of;
use crate::value::is_within;
use loop_core::copies::{copy_atom, copy_term};
use loop_core::nest::{Atom, Term, VarId};
use sqlite_items::Items;
use std::alloc::Global;
use uf_constraints::same::same_atom;
use uf_constraints::system::Diff;
use wave_base::types::Memory;

/// The operations, copied, without those tests that are true by the operation before them.
pub fn needed(alloc: Global, ops: &[InspOp]) -> Result<Items<InspOp>, Memory>
    ensures { IfOk result (λ kept. kept ≡ all_needed ops.now) }
{
    match first_of(ops) {
        None => Ok(Items::new(alloc)),
        Some((op, after)) => {
            let kept = with(alloc, Items::new(alloc), op)?;
            needed_after(alloc, op, after, kept)
        }
    }
}

// These operations, and those that are needed after the last one that fixed a variable.
fn needed_after(
    alloc: Global,
    last: &InspOp,
    ops: &[InspOp],
    kept: Items<InspOp>,
) -> Result<Items<InspOp>, Memory>
    ensures { IfOk result (λ all. all ≡ kept ++ all_after last.now ops.now) }
{
    match first_of(ops) {
        None => Ok(kept),
        Some((op, after)) => {
            if is_needless(last, op) {
                return needed_after(alloc, last, after, kept);
            }
            let kept = with(alloc, kept, op)?;
            needed_after(alloc, later(last, op), after, kept)
        }
    }
}

// The operations with a copy of one more.
fn with(alloc: Global, ops: Items<InspOp>, op: &InspOp) -> Result<Items<InspOp>, Memory>
    ensures { IfOk result (λ more. more ≡ ops ++ op.now ∷ []) }
{
    let copy = copy_op(alloc, op)?;
    let mut ops = ops;
    ops.push(copy)?;
    Ok(ops)
}

fn copy_op(alloc: Global, op: &InspOp) -> Result<InspOp, Memory>
    ensures { IfOk result (λ copy. copy ≡ op.now) }
{
    match op {
        InspOp::Loop { var, lo, hi } => Ok(InspOp::Loop {
            var: *var,
            lo: copy_term(alloc, lo)?,
            hi: copy_term(alloc, hi)?,
        }),
        InspOp::Let { var, term } => Ok(InspOp::Let {
            var: *var,
            term: copy_term(alloc, term)?,
        }),
        InspOp::Find {
            var,
            array,
            plus,
            term,
        } => Ok(InspOp::Find {
            var: *var,
            array: *array,
            plus: *plus,
            term: copy_term(alloc, term)?,
        }),
        InspOp::Locate {
            var,
            array,
            plus,
            term,
        } => Ok(InspOp::Locate {
            var: *var,
            array: *array,
            plus: *plus,
            term: copy_term(alloc, term)?,
        }),
        InspOp::Test(diff) => Ok(InspOp::Test(copy_diff(alloc, diff)?)),
        InspOp::Emit { first, second } => Ok(InspOp::Emit {
            first: *first,
            second: *second,
        }),
    }
}

fn copy_diff(alloc: Global, diff: &Diff) -> Result<Diff, Memory>
    ensures { IfOk result (λ copy. copy ≡ diff.now) }
{
    let a = copy_atom(alloc, &diff.a)?;
    let b = copy_atom(alloc, &diff.b)?;
    Ok(Diff { a, b, c: diff.c })
}

// The later of two operations that fixes a variable.
fn later<'a>(last: &'a InspOp, op: &'a InspOp) -> &'a InspOp
    ensures { result.now ≡ after_both last.now op.now }
{
    match op {
        InspOp::Loop { .. } => op,
        InspOp::Let { .. } => op,
        InspOp::Find { .. } => op,
        InspOp::Locate { .. } => op,
        InspOp::Test(_) => last,
        InspOp::Emit { .. } => last,
    }
}

// Whether an operation is a test that needn't be made.
fn is_needless(last: &InspOp, op: &InspOp) -> bool
    ensures { result ≡ needless last.now op.now }
{
    match op {
        InspOp::Test(diff) => is_of_sizes(diff) || is_said(last, diff),
        InspOp::Loop { .. } => false,
        InspOp::Let { .. } => false,
        InspOp::Find { .. } => false,
        InspOp::Locate { .. } => false,
        InspOp::Emit { .. } => false,
    }
}

// Whether a constraint is true at each value that an operation tries.
fn is_said(op: &InspOp, diff: &Diff) -> bool
    ensures { result ≡ said op.now diff.now }
{
    match op {
        InspOp::Loop { var, lo, hi } => is_between(*var, lo, hi, diff),
        InspOp::Let { var, term } => is_equal(*var, term, diff),
        InspOp::Find { .. } => false,
        InspOp::Locate { .. } => false,
        InspOp::Test(_) => false,
        InspOp::Emit { .. } => false,
    }
}

// Whether a constraint is true of all sizes.
fn is_of_sizes(diff: &Diff) -> bool
    ensures { result ≡ of_sizes diff.now }
{
    let zero = plain(Atom::Zero);
    follows(&zero, &plain(Atom::N), diff) || follows(&zero, &plain(Atom::Nnz), diff)
}

fn is_between(var: VarId, lo: &Term, hi: &Term, diff: &Diff) -> bool
    ensures { result ≡ between var lo.now hi.now diff.now }
{
    let value = plain(Atom::Var(var));
    let next = Term {
        atom: Atom::Var(var),
        plus: 1,
    };
    follows(lo, &value, diff) || follows(&next, hi, diff)
}

fn is_equal(var: VarId, term: &Term, diff: &Diff) -> bool
    ensures { result ≡ equal var term.now diff.now }
{
    let value = plain(Atom::Var(var));
    follows(term, &value, diff) || follows(&value, term, diff)
}

fn plain(atom: Atom) -> Term
    ensures { result ≡ with_constant 0 atom }
{
    Term { atom, plus: 0 }
}

// Whether a constraint is true where one term is at most another.
fn follows(lower: &Term, upper: &Term, diff: &Diff) -> bool
    ensures { result ≡ makes_true lower.now upper.now diff.now }
{
    same_atom(&lower.atom, &diff.a)
        && same_atom(&upper.atom, &diff.b)
        && is_within(upper.plus as i128, lower.plus as i128, diff.c)
}
