// Unit forward substitution, part by part.
ghost use Rattle.std.specs.Prelude.{◌≡◌, IfOk};
ghost use Rattle.loop_core.specs.UnitForward as unit;

use loop_core::decl::{Decl, DeclKind, Form, PropDecl, PropKind, Size, Source};
use loop_core::name::Name;
use loop_core::nest::{Atom, Expr, Item, Nest, Op, Side, Term, VarId};
use sqlite_items::{Boxed, Items};
use std::alloc::Global;
use wave_base::types::{ArrayId, Memory};

const PTR: ArrayId = ArrayId(0);

const COL: ArrayId = ArrayId(1);

const DIAG: ArrayId = ArrayId(2);

const VAL: ArrayId = ArrayId(3);

const B: ArrayId = ArrayId(4);

const X: ArrayId = ArrayId(5);

fn name_of(text: &[u8]) -> Result<Name, Memory>
    ensures { IfOk result (λ n. n ≡ text.now) }
{
    match Name::of(text) {
        Some(name) => Ok(name),
        None => Err(Memory),
    }
}

fn plain(atom: Atom) -> Term
    ensures { result ≡ unit.plain atom }
{
    Term { atom, plus: 0 }
}

fn row() -> Term
    ensures { result ≡ unit.row }
{
    plain(Atom::Var(VarId {
        line: 9,
        side: Side::Own,
    }))
}

fn place() -> Term
    ensures { result ≡ unit.place }
{
    plain(Atom::Var(VarId {
        line: 11,
        side: Side::Own,
    }))
}

fn entry(alloc: Global, array: ArrayId, at: Term) -> Result<Term, Memory>
    ensures { IfOk result (λ t. t ≡ unit.plain (Atom.At array at)) }
{
    let inner = Boxed::new(alloc, at)?;
    Ok(plain(Atom::At(array, inner)))
}

fn operation(alloc: Global, op: Op, left: Expr, right: Expr) -> Result<Expr, Memory>
    ensures { IfOk result (λ e. e ≡ Expr.Op op left right) }
{
    let left = Boxed::new(alloc, left)?;
    let right = Boxed::new(alloc, right)?;
    Ok(Expr::Op(op, left, right))
}

fn start() -> Item
    ensures { result ≡ unit.start }
{
    Item::Set {
        line: 10,
        array: X,
        at: row(),
        value: Expr::Read(B, row()),
    }
}

fn subtract(alloc: Global) -> Result<Item, Memory>
    ensures { IfOk result (λ i. i ≡ unit.subtract) }
{
    let at = entry(alloc, COL, place())?;
    let product = operation(alloc, Op::Mul, Expr::Read(VAL, place()), Expr::Read(X, at))?;
    let value = operation(alloc, Op::Sub, Expr::Read(X, row()), product)?;
    Ok(Item::Set {
        line: 12,
        array: X,
        at: row(),
        value,
    })
}

fn body(alloc: Global) -> Result<Items<Item>, Memory>
    ensures { IfOk result (λ b. b ≡ unit.unit_forward.body) }
{
    let mut inner = Items::new(alloc);
    inner.push(subtract(alloc)?)?;
    let lo = entry(alloc, PTR, row())?;
    let hi = entry(alloc, DIAG, row())?;
    let name = name_of(b"p")?;
    let mut items = Items::new(alloc);
    items.push(start())?;
    items.push(Item::For {
        line: 11,
        name,
        lo,
        hi,
        body: inner,
    })?;
    Ok(items)
}

fn declared(alloc: Global) -> Result<Items<Decl>, Memory>
    ensures { IfOk result (λ d. d ≡ unit.unit_forward.decls) }
{
    let mut decls = Items::new(alloc);
    decls.push(Decl {
        line: 1,
        name: name_of(b"a")?,
        kind: DeclKind::Matrix(Form::Csr),
    })?;
    decls.push(Decl {
        line: 2,
        name: name_of(b"b")?,
        kind: DeclKind::Vector(Size::N, Source::File),
    })?;
    decls.push(Decl {
        line: 3,
        name: name_of(b"x")?,
        kind: DeclKind::Vector(Size::N, Source::Zeros),
    })?;
    Ok(decls)
}

fn properties(alloc: Global) -> Result<Items<PropDecl>, Memory>
    ensures { IfOk result (λ p. p ≡ unit.unit_forward.props) }
{
    let past = Term {
        atom: Atom::Nnz,
        plus: 1,
    };
    let mut props = Items::new(alloc);
    props.push(PropDecl {
        line: 4,
        kind: PropKind::Range(PTR, plain(Atom::Zero), past),
    })?;
    props.push(PropDecl {
        line: 5,
        kind: PropKind::Range(COL, plain(Atom::Zero), plain(Atom::N)),
    })?;
    props.push(PropDecl {
        line: 6,
        kind: PropKind::Rising(PTR),
    })?;
    props.push(PropDecl {
        line: 7,
        kind: PropKind::Sorted(COL, PTR),
    })?;
    props.push(PropDecl {
        line: 8,
        kind: PropKind::Diagonal(DIAG, COL, PTR),
    })?;
    Ok(props)
}

/// The nest of unit forward substitution.
pub fn unit_forward(alloc: Global) -> Result<Nest, Memory>
    ensures { IfOk result (λ n. n ≡ unit.unit_forward) }
{
    Ok(Nest {
        decls: declared(alloc)?,
        props: properties(alloc)?,
        locals: Items::new(alloc),
        line: 9,
        name: name_of(b"i")?,
        body: body(alloc)?,
    })
}
