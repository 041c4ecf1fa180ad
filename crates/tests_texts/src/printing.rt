// The nest of unit forward substitution, and its text.
ghost use Rattle.std.specs.Prelude.{◌≡◌, ◌<◌, ◌≤◌, length, IfOk};
ghost use Rattle.loop_core.specs.declared.nest.Atom.TheVariants.{At, Var};
ghost use Rattle.loop_core.specs.declared.nest.Side.TheVariants.{Own};
ghost use Rattle.loop_core.specs.UnitForward.{plain, subtract, unit_forward};

use loop_core::decl::{Decl, DeclKind, Form, PropDecl, PropKind, Size, Source};
use loop_core::laws::unit_forward_is_a_nest;
use loop_core::name::Name;
use loop_core::nest::{Atom, Expr, Item, Nest, Op, Side, Term, VarId};
use loop_print::print::print;
use sqlite_items::{Boxed, Items};
use std::alloc::Global;
use std::test::Fail;
use wave_base::types::{ArrayId, Memory};

const UNIT: &[u8] =
    b"matrix a csr\nvector b n file\nvector x n zero\nrange a.ptr 0 nnz+1\nrange a.col 0 n\nrising a.ptr\nsorted a.col by a.ptr\ndiagonal a.diag of a.col by a.ptr\nloop i\n  set x[i] = b[i]\n  for p in a.ptr[i]..a.diag[i]\n    set x[i] = x[i] - a.val[p] * x[a.col[p]]\n  end\nend\n";

const POINTERS: ArrayId = ArrayId(0);

const COLUMNS: ArrayId = ArrayId(1);

const DIAGONALS: ArrayId = ArrayId(2);

const MATRIX_VALUES: ArrayId = ArrayId(3);

const RIGHT_SIDE: ArrayId = ArrayId(4);

const SOLUTION: ArrayId = ArrayId(5);

/// The line of the outer loop, and so the name of its variable.
const ROW_LINE: u16 = 9;

/// The line of the inner loop.
const PLACE_LINE: u16 = 11;

fn name(text: &[u8]) -> Name
    requires some { 0 < length text.now }
    requires few { length text.now ≤ 16 }
    ensures { result ≡ text.now }
{
    match Name::of(text) {
        Some(name) => name,
        None => unreachable!(),
    }
}

fn term(atom: Atom, plus: i64) -> Term
    ensures { result ≡ record { atom = atom; plus = plus } }
{
    Term { atom, plus }
}

fn variable(line: u16) -> Term
    ensures { result ≡ plain (Var (record { line = line; side = Own })) }
{
    let var = VarId {
        line,
        side: Side::Own,
    };
    term(Atom::Var(var), 0)
}

fn entry(alloc: Global, array: ArrayId, line: u16) -> Result<Term, Memory>
    ensures { IfOk result (λ t. t ≡ plain (At array (plain (Var (record { line = line; side = Own }))))) }
{
    let at = Boxed::new(alloc, variable(line))?;
    Ok(term(Atom::At(array, at), 0))
}

fn declarations(alloc: Global) -> Result<Items<Decl>, Memory>
    ensures { IfOk result (λ decls. decls ≡ unit_forward.decls) }
{
    let mut decls = Items::new(alloc);
    decls.push(Decl {
        line: 1,
        name: name(b"a"),
        kind: DeclKind::Matrix(Form::Csr),
    })?;
    decls.push(Decl {
        line: 2,
        name: name(b"b"),
        kind: DeclKind::Vector(Size::N, Source::File),
    })?;
    decls.push(Decl {
        line: 3,
        name: name(b"x"),
        kind: DeclKind::Vector(Size::N, Source::Zeros),
    })?;
    Ok(decls)
}

fn properties(alloc: Global) -> Result<Items<PropDecl>, Memory>
    ensures { IfOk result (λ props. props ≡ unit_forward.props) }
{
    let places = PropKind::Range(POINTERS, term(Atom::Zero, 0), term(Atom::Nnz, 1));
    let rows = PropKind::Range(COLUMNS, term(Atom::Zero, 0), term(Atom::N, 0));
    let mut props = Items::new(alloc);
    props.push(PropDecl {
        line: 4,
        kind: places,
    })?;
    props.push(PropDecl {
        line: 5,
        kind: rows,
    })?;
    props.push(PropDecl {
        line: 6,
        kind: PropKind::Rising(POINTERS),
    })?;
    props.push(PropDecl {
        line: 7,
        kind: PropKind::Sorted(COLUMNS, POINTERS),
    })?;
    props.push(PropDecl {
        line: 8,
        kind: PropKind::Diagonal(DIAGONALS, COLUMNS, POINTERS),
    })?;
    Ok(props)
}

/// `set x[i] = x[i] - a.val[p] * x[a.col[p]]`
fn subtract(alloc: Global) -> Result<Item, Memory>
    ensures { IfOk result (λ item. item ≡ subtract) }
{
    let before = Boxed::new(alloc, Expr::Read(SOLUTION, variable(ROW_LINE)))?;
    let factor = Boxed::new(alloc, Expr::Read(MATRIX_VALUES, variable(PLACE_LINE)))?;
    let column = entry(alloc, COLUMNS, PLACE_LINE)?;
    let solved = Boxed::new(alloc, Expr::Read(SOLUTION, column))?;
    let product = Boxed::new(alloc, Expr::Op(Op::Mul, factor, solved))?;
    Ok(Item::Set {
        line: 12,
        array: SOLUTION,
        at: variable(ROW_LINE),
        value: Expr::Op(Op::Sub, before, product),
    })
}

fn body(alloc: Global) -> Result<Items<Item>, Memory>
    ensures { IfOk result (λ items. items ≡ unit_forward.body) }
{
    let lo = entry(alloc, POINTERS, ROW_LINE)?;
    let hi = entry(alloc, DIAGONALS, ROW_LINE)?;
    let mut inner = Items::new(alloc);
    inner.push(subtract(alloc)?)?;
    let mut body = Items::new(alloc);
    body.push(Item::Set {
        line: 10,
        array: SOLUTION,
        at: variable(ROW_LINE),
        value: Expr::Read(RIGHT_SIDE, variable(ROW_LINE)),
    })?;
    body.push(Item::For {
        line: PLACE_LINE,
        name: name(b"p"),
        lo,
        hi,
        body: inner,
    })?;
    Ok(body)
}

fn forward_loop(alloc: Global) -> Result<Nest, Memory>
    ensures { IfOk result (λ nest. nest ≡ unit_forward) }
{
    let decls = declarations(alloc)?;
    let props = properties(alloc)?;
    let body = body(alloc)?;
    Ok(Nest {
        decls,
        props,
        locals: Items::new(alloc),
        line: ROW_LINE,
        name: name(b"i"),
        body,
    })
}

fn forward_text(alloc: Global) -> Result<String, Memory> {
    let nest = forward_loop(alloc)?;
    unit_forward_is_a_nest();
    print(alloc, &nest)
}

#[test]
fn unit_forward_is_its_file(rt: HostRuntime) -> Result<(), Fail> {
    let text = forward_text(rt.alloc())?;
    assert_eq!(rt; text.as_bytes(), UNIT);
    Ok(())
}
