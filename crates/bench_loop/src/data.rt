// A band matrix, and unit forward substitution over it.
use loop_core::arrays::Arrays;
use loop_core::name::Name;
use loop_core::nest::{Atom, Expr, Item, Nest, Op, Side, Term, VarId};
use loop_core::values::Values;
use sqlite_items::{Boxed, Items};
use std::alloc::Global;
use wave_base::types::{ArrayId, Memory};
use wave_base::words::Words;

const PTR: ArrayId = ArrayId(0);

const COL: ArrayId = ArrayId(1);

const DIAG: ArrayId = ArrayId(2);

const VAL: ArrayId = ArrayId(3);

const B: ArrayId = ArrayId(4);
/// The array that is written.
pub const X: ArrayId = ArrayId(5);

const WIDTH: u32 = 4;

/// The loop, and what it runs over.
#[derive(Drop)]
pub struct Data {
    pub nest: Nest,
    pub arrays: Arrays,
    pub values: Values,
}

/// Unit forward substitution with so many rows, of which each has four entries before its
/// diagonal, or as many as there are.
pub fn band(alloc: Global, rows: u32) -> Result<Data, Memory> {
    let nest = unit_forward(alloc)?;
    let mut lists = Lists::new(alloc)?;
    for row in 0..rows {
        lists.push_row(row)?;
    }
    let (arrays, values) = lists.bound(alloc, rows)?;
    Ok(Data {
        nest,
        arrays,
        values,
    })
}

#[derive(Drop)]
struct Lists {
    ptr: Vec<i64>,
    col: Vec<i64>,
    diag: Vec<i64>,
    val: Vec<i64>,
    b: Vec<i64>,
    x: Vec<i64>,
}

fn length(list: &Vec<i64>) -> i64 {
    i64::try_from(list.len()).unwrap_or(i64::MAX)
}

impl Lists {
    fn new(alloc: Global) -> Result<Lists, Memory> {
        let mut ptr = Vec::new(alloc);
        ptr.push(0)?;
        Ok(Lists {
            ptr,
            col: Vec::new(alloc),
            diag: Vec::new(alloc),
            val: Vec::new(alloc),
            b: Vec::new(alloc),
            x: Vec::new(alloc),
        })
    }

    fn push_row(&mut self, row: u32) -> Result<(), Memory> {
        for column in row.saturating_sub(WIDTH)..row {
            self.push_entry(column, i64::from(column % 7) - 3)?;
        }
        let diagonal = length(&self.col);
        self.diag.push(diagonal)?;
        self.push_entry(row, 1)?;
        let end = length(&self.col);
        self.ptr.push(end)?;
        self.b.push(i64::from(row % 10))?;
        self.x.push(0)?;
        Ok(())
    }

    fn push_entry(&mut self, column: u32, value: i64) -> Result<(), Memory> {
        self.col.push(i64::from(column))?;
        self.val.push(value)?;
        Ok(())
    }

    fn bound(self, alloc: Global, rows: u32) -> Result<(Arrays, Values), Memory> {
        let Lists {
            ptr,
            col,
            diag,
            val,
            b,
            x,
        } = self;
        let stored = u32::try_from(col.len()).unwrap_or(u32::MAX);
        let mut places = Vec::new(alloc);
        for list in [ptr, col, diag] {
            places.push(Words::from_vec(list))?;
        }
        let mut words = Vec::new(alloc);
        for list in [Vec::new(alloc), Vec::new(alloc), Vec::new(alloc), val, b, x] {
            words.push(Words::from_vec(list))?;
        }
        Ok((Arrays::of(rows, stored, places), Values::of(words)))
    }
}

fn var(line: u16) -> Term {
    Term {
        atom: Atom::Var(VarId {
            line,
            side: Side::Own,
        }),
        plus: 0,
    }
}

fn at(alloc: Global, array: ArrayId, inner: Term) -> Result<Term, Memory> {
    let inner = Boxed::new(alloc, inner)?;
    Ok(Term {
        atom: Atom::At(array, inner),
        plus: 0,
    })
}

fn apply(alloc: Global, op: Op, left: Expr, right: Expr) -> Result<Expr, Memory> {
    let left = Boxed::new(alloc, left)?;
    let right = Boxed::new(alloc, right)?;
    Ok(Expr::Op(op, left, right))
}

fn one(alloc: Global, item: Item) -> Result<Items<Item>, Memory> {
    let mut items = Items::new(alloc);
    items.push(item)?;
    Ok(items)
}

fn name(text: &[u8]) -> Result<Name, Memory> {
    Name::of(text).ok_or(Memory)
}

// For each entry of the row before its diagonal, x[i] = x[i] - a.val[p] * x[a.col[p]].
fn subtract(alloc: Global) -> Result<Item, Memory> {
    let column = at(alloc, COL, var(11))?;
    let product = apply(
        alloc,
        Op::Mul,
        Expr::Read(VAL, var(11)),
        Expr::Read(X, column),
    )?;
    let value = apply(alloc, Op::Sub, Expr::Read(X, var(9)), product)?;
    let body = one(
        alloc,
        Item::Set {
            line: 12,
            array: X,
            at: var(9),
            value,
        },
    )?;
    Ok(Item::For {
        line: 11,
        name: name(b"p")?,
        lo: at(alloc, PTR, var(9))?,
        hi: at(alloc, DIAG, var(9))?,
        body,
    })
}

// A run doesn't look at declarations, so there are none.
fn unit_forward(alloc: Global) -> Result<Nest, Memory> {
    let start = Item::Set {
        line: 10,
        array: X,
        at: var(9),
        value: Expr::Read(B, var(9)),
    };
    let mut body = one(alloc, start)?;
    body.push(subtract(alloc)?)?;
    Ok(Nest {
        decls: Items::new(alloc),
        props: Items::new(alloc),
        locals: Items::new(alloc),
        line: 9,
        name: name(b"i")?,
        body,
    })
}
