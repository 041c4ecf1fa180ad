// The constraints of a relation and of a bracket.
ghost use Rattle.std.specs.Prelude.{◌≡◌, [], ◌∷◌, ◌++◌, ◌-ℤ◌, pos, IfOk, OnOk};
ghost use Rattle.loop_core.specs.declared.nest.Side.TheVariants.{First, Second};
ghost use Rattle.loop_core.specs.declared.nest.Atom.TheVariants.{Zero, N};
ghost use Rattle.uf_constraints.specs.Universe.{plain};
ghost use Rattle.uf_constraints.specs.Bases.{at_most, less, equal, on as on_side, atom_on, variable as variable_of, compared_by, said_by, said_by_all, of_sizes, bracket_base as base_of_bracket, relation_base as base_of_relation};

use loop_core::copies::copy_atom;
use loop_core::nest::{Atom, Nest, Rel, Side, Term, VarId};
use sqlite_items::{Boxed, Items};
use std::alloc::Global;
use uf_constraints::reach::{Around, Site, Spot};
use uf_constraints::system::Diff;
use wave_base::types::Memory;

/// A term with its variables on one side.
#[cycle(on)]
pub fn on(alloc: Global, side: Side, term: &Term) -> Result<Term, Memory>
    ensures { IfOk result (λ t. t ≡ on_side side term.now) }
{
    let atom = atom_on_side(alloc, side, &term.atom)?;
    Ok(Term {
        atom,
        plus: term.plus,
    })
}

#[cycle(on)]
fn atom_on_side(alloc: Global, side: Side, atom: &Atom) -> Result<Atom, Memory>
    ensures { IfOk result (λ a. a ≡ atom_on side atom.now) }
{
    match atom {
        Atom::Zero => Ok(Atom::Zero),
        Atom::N => Ok(Atom::N),
        Atom::Nnz => Ok(Atom::Nnz),
        Atom::Var(var) => Ok(Atom::Var(VarId {
            line: var.line,
            side,
        })),
        Atom::At(array, inner) => {
            let inner = on(alloc, side, inner.get())?;
            let inner = Boxed::new(alloc, inner)?;
            Ok(Atom::At(*array, inner))
        }
    }
}

fn variable(side: Side, line: u16) -> Term
    ensures { result ≡ variable_of side line }
{
    Term {
        atom: Atom::Var(VarId { line, side }),
        plus: 0,
    }
}

// A constant that no nest has, so large that the right side leaves 64 bits, is answered as `Memory`.
fn right_side(s: i64, t: i64) -> Result<i64, Memory>
    ensures { IfOk result (λ c. c ≡ t -ℤ s) }
{
    match t.checked_sub(s) {
        Some(c) => Ok(c),
        None => Err(Memory),
    }
}

fn lesser_right_side(s: i64, t: i64) -> Result<i64, Memory>
    ensures { IfOk result (λ c. c ≡ t -ℤ s -ℤ pos 1) }
{
    let c = right_side(s, t)?;
    right_side(1, c)
}

/// `s <= t`
pub fn push_at_most(alloc: Global, s: &Term, t: &Term, into: &mut Items<Diff>) -> Result<(), Memory>
    ensures { OnOk result (into.new ≡ into.old ++ at_most s.now t.now ∷ []) }
{
    into.push(Diff {
        a: copy_atom(alloc, &s.atom)?,
        b: copy_atom(alloc, &t.atom)?,
        c: right_side(s.plus, t.plus)?,
    })?;
    Ok(())
}

/// `s < t`
pub fn push_less(alloc: Global, s: &Term, t: &Term, into: &mut Items<Diff>) -> Result<(), Memory>
    ensures { OnOk result (into.new ≡ into.old ++ less s.now t.now ∷ []) }
{
    into.push(Diff {
        a: copy_atom(alloc, &s.atom)?,
        b: copy_atom(alloc, &t.atom)?,
        c: lesser_right_side(s.plus, t.plus)?,
    })?;
    Ok(())
}

/// `s = t`
pub fn push_equal(alloc: Global, s: &Term, t: &Term, into: &mut Items<Diff>) -> Result<(), Memory>
    ensures { OnOk result (into.new ≡ into.old ++ equal s.now t.now) }
{
    push_at_most(alloc, s, t, into)?;
    push_at_most(alloc, t, s, into)
}

fn push_compared(
    alloc: Global,
    rel: Rel,
    s: &Term,
    t: &Term,
    into: &mut Items<Diff>,
) -> Result<(), Memory>
    ensures { OnOk result (into.new ≡ into.old ++ compared_by rel s.now t.now) }
{
    match rel {
        Rel::Equal => push_equal(alloc, s, t, into),
        Rel::Less => push_less(alloc, s, t, into),
        Rel::LessEqual => push_at_most(alloc, s, t, into),
    }
}

fn push_said_by(
    alloc: Global,
    side: Side,
    around: &Around,
    into: &mut Items<Diff>,
) -> Result<(), Memory>
    ensures { OnOk result (into.new ≡ into.old ++ said_by side around.now) }
{
    match around {
        Around::Loop { line, lo, hi } => push_bounds(alloc, side, *line, lo, hi, into),
        Around::Guard { rel, left, right } => {
            let left = on(alloc, side, left)?;
            let right = on(alloc, side, right)?;
            push_compared(alloc, *rel, &left, &right, into)
        }
    }
}

fn push_bounds(
    alloc: Global,
    side: Side,
    line: u16,
    lo: &Term,
    hi: &Term,
    into: &mut Items<Diff>,
) -> Result<(), Memory>
    ensures { OnOk result (into.new
        ≡ into.old ++ at_most (on_side side lo.now) (variable_of side line) ∷ less (variable_of side line) (on_side side hi.now) ∷ []) }
{
    let lo = on(alloc, side, lo)?;
    let hi = on(alloc, side, hi)?;
    let var = variable(side, line);
    push_at_most(alloc, &lo, &var, into)?;
    push_less(alloc, &var, &hi, into)
}

/// What the loops and guards say of the variables on one side, as they nest.
pub fn push_said(
    alloc: Global,
    side: Side,
    around: &[Around],
    into: &mut Items<Diff>,
) -> Result<(), Memory>
    ensures { OnOk result (into.new ≡ into.old ++ said_by_all side around.now) }
{
    for one in around {
        push_said_by(alloc, side, one, into)?;
    }
    Ok(())
}

fn zero() -> Term
    ensures { result ≡ plain Zero }
{
    Term {
        atom: Atom::Zero,
        plus: 0,
    }
}

fn rows() -> Term
    ensures { result ≡ plain N }
{
    Term {
        atom: Atom::N,
        plus: 0,
    }
}

fn push_sizes(alloc: Global, into: &mut Items<Diff>) -> Result<(), Memory>
    ensures { OnOk result (into.new ≡ into.old ++ of_sizes) }
{
    let stored = Term {
        atom: Atom::Nnz,
        plus: 0,
    };
    push_at_most(alloc, &zero(), &rows(), into)?;
    push_at_most(alloc, &zero(), &stored, into)
}

// Two rows, the second after the first.
fn push_rows(alloc: Global, line: u16, into: &mut Items<Diff>) -> Result<(), Memory>
    ensures { OnOk result (into.new
        ≡ into.old ++ at_most (plain Zero) (variable_of First line)
        ∷ less (variable_of First line) (variable_of Second line)
        ∷ less (variable_of Second line) (plain N) ∷ []) }
{
    let first = variable(Side::First, line);
    let second = variable(Side::Second, line);
    push_at_most(alloc, &zero(), &first, into)?;
    push_less(alloc, &first, &second, into)?;
    push_less(alloc, &second, &rows(), into)
}

fn push_same_cell(alloc: Global, s: &Term, t: &Term, into: &mut Items<Diff>) -> Result<(), Memory>
    ensures { OnOk result (into.new ≡ into.old ++ equal (on_side First s.now) (on_side Second t.now)) }
{
    let s = on(alloc, Side::First, s)?;
    let t = on(alloc, Side::Second, t)?;
    push_equal(alloc, &s, &t, into)
}

/// The base of the relation of two references: a row and a later one, what stands round each
/// reference on its side, and the equality of the two cells.
pub fn relation_base(alloc: Global, nest: &Nest, s: &Site, t: &Site) -> Result<Items<Diff>, Memory>
    ensures { IfOk result (λ base. base ≡ base_of_relation nest.now s.now t.now) }
{
    let mut base = Items::new(alloc);
    push_sizes(alloc, &mut base)?;
    push_rows(alloc, nest.line, &mut base)?;
    push_said(alloc, Side::First, s.around.as_slice(), &mut base)?;
    push_said(alloc, Side::Second, t.around.as_slice(), &mut base)?;
    push_same_cell(alloc, &s.at, &t.at, &mut base)?;
    Ok(base)
}

/// The base of the brackets on a line: a row, and what stands round the line.
pub fn bracket_base(alloc: Global, nest: &Nest, spot: &Spot) -> Result<Items<Diff>, Memory>
    ensures { IfOk result (λ base. base ≡ base_of_bracket nest.now spot.now) }
{
    let row = variable(Side::Own, nest.line);
    let mut base = Items::new(alloc);
    push_sizes(alloc, &mut base)?;
    push_at_most(alloc, &zero(), &row, &mut base)?;
    push_less(alloc, &row, &rows(), &mut base)?;
    push_said(alloc, Side::Own, spot.around.as_slice(), &mut base)?;
    Ok(base)
}
