// The operations of the plans by hand.
ghost use Rattle.std.specs.Prelude.{◌≡◌, [], ◌∷◌, ◌++◌, pos, IfOk};
ghost use Rattle.uf_constraints.specs.Universe as of;
ghost use Rattle.inspection_samples.specs.Worked as worked;

use inspector_run::plan::InspOp;
use loop_core::nest::{Atom, Side, Term, VarId};
use sqlite_items::{Boxed, Items};
use std::alloc::Global;
use uf_constraints::system::Diff;
use wave_base::types::{ArrayId, Memory};

const I: VarId = VarId {
    line: 1,
    side: Side::First,
};

const J: VarId = VarId {
    line: 1,
    side: Side::Second,
};

const P: VarId = VarId {
    line: 2,
    side: Side::Second,
};

fn plain(atom: Atom) -> Term
    ensures { result ≡ of.plain atom }
{
    Term { atom, plus: 0 }
}

fn entry(alloc: Global, array: u8, var: VarId) -> Result<Atom, Memory>
    ensures { IfOk result (λ a. a ≡ worked.entry_of array var) }
{
    let at = Boxed::new(alloc, plain(Atom::Var(var)))?;
    Ok(Atom::At(ArrayId(array), at))
}

fn at_most(a: Atom, b: Atom) -> InspOp
    ensures { result ≡ worked.test_at_most a b }
{
    InspOp::Test(Diff { a, b, c: 0 })
}

fn less(a: Atom, b: Atom) -> InspOp
    ensures { result ≡ worked.test_less a b }
{
    InspOp::Test(Diff { a, b, c: -1 })
}

// The operations with one more at the end.
fn with(ops: Items<InspOp>, op: InspOp) -> Result<Items<InspOp>, Memory>
    ensures { IfOk result (λ more. more ≡ ops ++ op ∷ []) }
{
    let mut ops = ops;
    ops.push(op)?;
    Ok(ops)
}

// A loop over the rows, with the tests that have no variable.
fn over_rows(alloc: Global, var: VarId) -> Result<Items<InspOp>, Memory>
    ensures { IfOk result (λ ops. ops ≡ InspOp.Loop var (of.plain Atom.Zero) (of.plain Atom.N)
        ∷ worked.test_at_most Atom.Zero Atom.N ∷ worked.test_at_most Atom.Zero Atom.Nnz ∷ []) }
{
    let rows = InspOp::Loop {
        var,
        lo: plain(Atom::Zero),
        hi: plain(Atom::N),
    };
    let ops = with(Items::new(alloc), rows)?;
    let ops = with(ops, at_most(Atom::Zero, Atom::N))?;
    with(ops, at_most(Atom::Zero, Atom::Nnz))
}

// A loop over the places of row J before its diagonal.
fn over_places(alloc: Global) -> Result<InspOp, Memory>
    ensures { IfOk result (λ op. op ≡ InspOp.Loop worked.p (of.plain (worked.entry_of 0 worked.j)) (of.plain (worked.entry_of 2 worked.j))) }
{
    let start = entry(alloc, 0, J)?;
    let diagonal = entry(alloc, 2, J)?;
    Ok(InspOp::Loop {
        var: P,
        lo: plain(start),
        hi: plain(diagonal),
    })
}

fn with_places(alloc: Global, ops: Items<InspOp>) -> Result<Items<InspOp>, Memory>
    ensures { IfOk result (λ more. more ≡ ops
        ++ InspOp.Loop worked.p (of.plain (worked.entry_of 0 worked.j)) (of.plain (worked.entry_of 2 worked.j))
        ∷ worked.test_at_most (worked.entry_of 0 worked.j) (Atom.Var worked.p) ∷ worked.test_less (Atom.Var worked.p) (worked.entry_of 2 worked.j) ∷ []) }
{
    let places = over_places(alloc)?;
    let ops = with(ops, places)?;
    let start = entry(alloc, 0, J)?;
    let ops = with(ops, at_most(start, Atom::Var(P)))?;
    let diagonal = entry(alloc, 2, J)?;
    with(ops, less(Atom::Var(P), diagonal))
}

// Both halves of an equality.
fn with_equal(
    ops: Items<InspOp>,
    a: Atom,
    b: Atom,
    same_b: Atom,
    same_a: Atom,
) -> Result<Items<InspOp>, Memory>
    ensures { IfOk result (λ more. more ≡ ops ++ worked.test_at_most a b ∷ worked.test_at_most same_b same_a ∷ []) }
{
    let ops = with(ops, at_most(a, b))?;
    with(ops, at_most(same_b, same_a))
}

fn with_column(alloc: Global, ops: Items<InspOp>) -> Result<Items<InspOp>, Memory>
    ensures { IfOk result (λ more. more ≡ ops
        ++ InspOp.Let worked.i (of.plain (worked.entry_of 1 worked.p))
        ∷ worked.test_at_most Atom.Zero (Atom.Var worked.i) ∷ worked.test_less (Atom.Var worked.i) (Atom.Var worked.j) ∷ []) }
{
    let column = entry(alloc, 1, P)?;
    let ops = with(
        ops,
        InspOp::Let {
            var: I,
            term: plain(column),
        },
    )?;
    let ops = with(ops, at_most(Atom::Zero, Atom::Var(I)))?;
    with(ops, less(Atom::Var(I), Atom::Var(J)))
}

fn with_pair(ops: Items<InspOp>) -> Result<Items<InspOp>, Memory>
    ensures { IfOk result (λ more. more ≡ ops ++ InspOp.Emit worked.i worked.j ∷ []) }
{
    with(
        ops,
        InspOp::Emit {
            first: I,
            second: J,
        },
    )
}

/// A later row reads what the columns before its diagonal say.
pub fn columns(alloc: Global) -> Result<Items<InspOp>, Memory>
    ensures { IfOk result (λ ops. ops ≡ worked.by_columns) }
{
    let ops = over_rows(alloc, J)?;
    let ops = with(ops, less(Atom::Var(J), Atom::N))?;
    let ops = with_places(alloc, ops)?;
    let ops = with_column(alloc, ops)?;
    let column = entry(alloc, 1, P)?;
    let same = entry(alloc, 1, P)?;
    let ops = with_equal(ops, Atom::Var(I), column, same, Atom::Var(I))?;
    with_pair(ops)
}

fn with_alike(alloc: Global, ops: Items<InspOp>) -> Result<Items<InspOp>, Memory>
    ensures { IfOk result (λ more. more ≡ ops
        ++ InspOp.Find worked.j (worked.array 4) (pos 0) (of.plain (worked.entry_of 4 worked.i))
        ∷ worked.test_less (Atom.Var worked.i) (Atom.Var worked.j) ∷ worked.test_less (Atom.Var worked.j) Atom.N ∷ []) }
{
    let value = entry(alloc, 4, I)?;
    let ops = with(
        ops,
        InspOp::Find {
            var: J,
            array: ArrayId(4),
            plus: 0,
            term: plain(value),
        },
    )?;
    let ops = with(ops, less(Atom::Var(I), Atom::Var(J)))?;
    with(ops, less(Atom::Var(J), Atom::N))
}

// Both halves of the equality of two rows' values.
fn with_equal_values(alloc: Global, ops: Items<InspOp>) -> Result<Items<InspOp>, Memory>
    ensures { IfOk result (λ more. more ≡ ops
        ++ worked.test_at_most (worked.entry_of 4 worked.i) (worked.entry_of 4 worked.j) ∷ worked.test_at_most (worked.entry_of 4 worked.j) (worked.entry_of 4 worked.i) ∷ []) }
{
    let first = entry(alloc, 4, I)?;
    let second = entry(alloc, 4, J)?;
    let ops = with(ops, at_most(first, second))?;
    let second = entry(alloc, 4, J)?;
    let first = entry(alloc, 4, I)?;
    with(ops, at_most(second, first))
}

/// Two rows have one value.
pub fn values(alloc: Global) -> Result<Items<InspOp>, Memory>
    ensures { IfOk result (λ ops. ops ≡ worked.by_values) }
{
    let ops = over_rows(alloc, I)?;
    let ops = with(ops, at_most(Atom::Zero, Atom::Var(I)))?;
    let ops = with_alike(alloc, ops)?;
    let ops = with_equal_values(alloc, ops)?;
    with_pair(ops)
}
