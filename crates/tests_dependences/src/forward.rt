// Unit forward substitution, and the same with a local in place of repeated writes.
//
//   loop i                                             line 9
//     set x[i] = b[i]                                  line 10
//     for p in a.ptr[i]..a.diag[i]                     line 11
//       set x[i] = x[i] - a.val[p] * x[a.col[p]]       line 12
use dep_extract::extract::{references, relations};
use loop_core::name::Name;
use loop_core::nest::{Atom, Expr, Item, Nest, Op, Side, Term, VarId};
use sqlite_items::{Boxed, Items};
use std::alloc::Global;
use std::test::Fail;
use uf_constraints::system::Relation;
use wave_base::types::ArrayId;

const PTR: ArrayId = ArrayId(0);

const COL: ArrayId = ArrayId(1);

const DIAG: ArrayId = ArrayId(2);

const VAL: ArrayId = ArrayId(3);

const B: ArrayId = ArrayId(4);

const X: ArrayId = ArrayId(5);

fn name() -> Result<Name, Fail> {
    Ok(Name::of(b"v").ok_or("a name is too long")?)
}

fn var(line: u16) -> Term {
    let var = VarId {
        line,
        side: Side::Own,
    };
    Term {
        atom: Atom::Var(var),
        plus: 0,
    }
}

fn entry(alloc: Global, array: ArrayId, at: Term) -> Result<Term, Fail> {
    let atom = Atom::At(array, Boxed::new(alloc, at)?);
    Ok(Term { atom, plus: 0 })
}

fn apply(alloc: Global, op: Op, left: Expr, right: Expr) -> Result<Expr, Fail> {
    let left = Boxed::new(alloc, left)?;
    let right = Boxed::new(alloc, right)?;
    Ok(Expr::Op(op, left, right))
}

// from - a.val[p] * x[a.col[p]]
fn taken_off(alloc: Global, from: Expr) -> Result<Expr, Fail> {
    let at = entry(alloc, COL, var(11))?;
    let product = apply(alloc, Op::Mul, Expr::Read(VAL, var(11)), Expr::Read(X, at))?;
    apply(alloc, Op::Sub, from, product)
}

// for p in a.ptr[i]..a.diag[i]
fn over_the_row(alloc: Global, item: Item) -> Result<Item, Fail> {
    let mut body = Items::new(alloc);
    body.push(item)?;
    Ok(Item::For {
        line: 11,
        name: name()?,
        lo: entry(alloc, PTR, var(9))?,
        hi: entry(alloc, DIAG, var(9))?,
        body,
    })
}

fn set(line: u16, value: Expr) -> Item {
    Item::Set {
        line,
        array: X,
        at: var(9),
        value,
    }
}

fn nest(alloc: Global, body: Items<Item>) -> Result<Nest, Fail> {
    Ok(Nest {
        decls: Items::new(alloc),
        props: Items::new(alloc),
        locals: Items::new(alloc),
        line: 9,
        name: name()?,
        body,
    })
}

fn forward(alloc: Global) -> Result<Nest, Fail> {
    let mut body = Items::new(alloc);
    body.push(set(10, Expr::Read(B, var(9))))?;
    let inner = set(12, taken_off(alloc, Expr::Read(X, var(9)))?);
    body.push(over_the_row(alloc, inner)?)?;
    nest(alloc, body)
}

// On line 12 the local is kept, and line 14 sets x[i] to it.
fn with_local(alloc: Global) -> Result<Nest, Fail> {
    let mut body = Items::new(alloc);
    let inner = Item::Keep {
        line: 12,
        local: 0,
        value: taken_off(alloc, Expr::Local(0))?,
    };
    body.push(over_the_row(alloc, inner)?)?;
    body.push(set(14, Expr::Local(0)))?;
    nest(alloc, body)
}

fn places(alloc: Global, relations: &[Relation]) -> Result<Vec<(u16, u16, u16, u16)>, Fail> {
    let mut places = Vec::new(alloc);
    for r in relations {
        places.push((
            r.first.line,
            r.first.bracket,
            r.second.line,
            r.second.bracket,
        ))?;
    }
    Ok(places)
}

#[test]
fn relations_stand_by_first_and_second(rt: HostRuntime) -> Result<(), Fail> {
    let nest = forward(rt.alloc())?;
    let found = relations(rt.alloc(), &nest)?;
    let places = places(rt.alloc(), found.as_slice())?;
    let wanted = [
        (10, 1, 10, 1),
        (10, 1, 12, 2),
        (10, 1, 12, 4),
        (10, 1, 12, 1),
        (12, 2, 10, 1),
        (12, 2, 12, 1),
        (12, 4, 10, 1),
        (12, 4, 12, 1),
        (12, 1, 10, 1),
        (12, 1, 12, 2),
        (12, 1, 12, 4),
        (12, 1, 12, 1),
    ];
    assert_eq!(rt; places.as_slice(), wanted.as_slice());
    Ok(())
}

#[test]
fn bases_have_the_loops_of_both_sides(rt: HostRuntime) -> Result<(), Fail> {
    let nest = forward(rt.alloc())?;
    let found = relations(rt.alloc(), &nest)?;
    let mut lengths = Vec::new(rt.alloc());
    for r in found.as_slice() {
        lengths.push(r.base.len())?;
    }
    assert_eq!(rt;
        lengths.as_slice(),
        [7, 9, 9, 9, 9, 11, 9, 11, 9, 11, 11, 11].as_slice()
    );
    Ok(())
}

#[test]
fn a_local_is_no_reference(rt: HostRuntime) -> Result<(), Fail> {
    let nest = with_local(rt.alloc())?;
    let found = references(rt.alloc(), &nest)?;
    let mut seen = Vec::new(rt.alloc());
    for r in found.as_slice() {
        seen.push((r.line, r.bracket, r.writes))?;
    }
    assert_eq!(rt; seen.as_slice(), [(12, 2, false), (14, 1, true)].as_slice());
    Ok(())
}
