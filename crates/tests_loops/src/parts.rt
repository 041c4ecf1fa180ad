// Small nests written as lists.
use Part::{Apply, At, Begin, For, Keep, Lit, Local, N, Nnz, Num, Plus, Read, Set, Var, When};
use loop_core::name::Name;
use loop_core::nest::{Atom, Expr, Item, Nest, Op, Rel, Side, Term, VarId};
use sqlite_items::{Boxed, Items};
use std::alloc::Global;
use std::test::Fail;
use wave_base::types::ArrayId;
use wave_base::words::Words;

// A nest is written as its parts in order, each after the parts that it takes.
#[derive(Clone, Copy)]
pub enum Part {
    // terms
    Num(i64),
    N,
    Nnz,
    Var(u16),
    At(u8),
    Plus(i64),
    // expressions, which take terms
    Lit(i64),
    Read(u8),
    Local(u8),
    Apply(Op),
    // items; a block takes all items since its `Begin`
    Set(u8),
    Keep(u8),
    Begin,
    For(u16),
    When(Rel),
}

#[derive(Drop)]
struct Parts {
    terms: Vec<Term>,
    exprs: Vec<Expr>,
    blocks: Vec<Items<Item>>,
}

impl Parts {
    fn term(&mut self) -> Result<Term, Fail> {
        Ok(self.terms.pop().ok_or("a term is missing")?)
    }

    fn expr(&mut self) -> Result<Expr, Fail> {
        Ok(self.exprs.pop().ok_or("an expression is missing")?)
    }

    fn block(&mut self) -> Result<Items<Item>, Fail> {
        Ok(self.blocks.pop().ok_or("a block is missing")?)
    }

    fn push_atom(&mut self, atom: Atom, plus: i64) -> Result<(), Fail> {
        self.terms.push(Term { atom, plus })?;
        Ok(())
    }

    fn push_expr(&mut self, expr: Expr) -> Result<(), Fail> {
        self.exprs.push(expr)?;
        Ok(())
    }

    fn push_block(&mut self, block: Items<Item>) -> Result<(), Fail> {
        self.blocks.push(block)?;
        Ok(())
    }

    fn push_item(&mut self, item: Item) -> Result<(), Fail> {
        let mut block = self.block()?;
        block.push(item)?;
        self.push_block(block)
    }

    fn push(&mut self, alloc: Global, part: Part) -> Result<(), Fail> {
        match part {
            Num(plus) => self.push_atom(Atom::Zero, plus),
            N => self.push_atom(Atom::N, 0),
            Nnz => self.push_atom(Atom::Nnz, 0),
            Var(line) => self.push_atom(Atom::Var(own(line)), 0),
            At(array) => self.push_at(alloc, ArrayId(array)),
            Plus(plus) => self.push_plus(plus),
            Lit(word) => self.push_expr(Expr::Lit(word)),
            Read(array) => self.push_read(ArrayId(array)),
            Local(local) => self.push_expr(Expr::Local(local)),
            Apply(op) => self.push_apply(alloc, op),
            Set(array) => self.push_set(ArrayId(array)),
            Keep(local) => self.push_keep(local),
            Begin => self.push_block(Items::new(alloc)),
            For(line) => self.push_for(line),
            When(rel) => self.push_when(rel),
        }
    }

    fn push_at(&mut self, alloc: Global, array: ArrayId) -> Result<(), Fail> {
        let inner = Boxed::new(alloc, self.term()?)?;
        self.push_atom(Atom::At(array, inner), 0)
    }

    fn push_plus(&mut self, plus: i64) -> Result<(), Fail> {
        let term = self.term()?;
        self.push_atom(term.atom, plus)
    }

    fn push_read(&mut self, array: ArrayId) -> Result<(), Fail> {
        let at = self.term()?;
        self.push_expr(Expr::Read(array, at))
    }

    fn push_apply(&mut self, alloc: Global, op: Op) -> Result<(), Fail> {
        let right = Boxed::new(alloc, self.expr()?)?;
        let left = Boxed::new(alloc, self.expr()?)?;
        self.push_expr(Expr::Op(op, left, right))
    }

    fn push_set(&mut self, array: ArrayId) -> Result<(), Fail> {
        let value = self.expr()?;
        let at = self.term()?;
        self.push_item(Item::Set {
            line: 0,
            array,
            at,
            value,
        })
    }

    fn push_keep(&mut self, local: u8) -> Result<(), Fail> {
        let value = self.expr()?;
        self.push_item(Item::Keep {
            line: 0,
            local,
            value,
        })
    }

    fn push_for(&mut self, line: u16) -> Result<(), Fail> {
        let body = self.block()?;
        let hi = self.term()?;
        let lo = self.term()?;
        self.push_item(Item::For {
            line,
            name: name()?,
            lo,
            hi,
            body,
        })
    }

    fn push_when(&mut self, rel: Rel) -> Result<(), Fail> {
        let body = self.block()?;
        let right = self.term()?;
        let left = self.term()?;
        self.push_item(Item::When {
            line: 0,
            rel,
            left,
            right,
            body,
        })
    }
}

fn own(line: u16) -> VarId {
    VarId {
        line,
        side: Side::Own,
    }
}

pub fn name() -> Result<Name, Fail> {
    Ok(Name::of(b"v").ok_or("a name is too long")?)
}

// The nest with these parts as its body. The outer loop stands on line 1.
pub fn nest_of(alloc: Global, parts: &[Part]) -> Result<Nest, Fail> {
    let mut made = Parts {
        terms: Vec::new(alloc),
        exprs: Vec::new(alloc),
        blocks: Vec::new(alloc),
    };
    made.push(alloc, Begin)?;
    for part in parts {
        made.push(alloc, *part)?;
    }
    Ok(Nest {
        decls: Items::new(alloc),
        props: Items::new(alloc),
        locals: Items::new(alloc),
        line: 1,
        name: name()?,
        body: made.block()?,
    })
}

// One list of words more.
pub fn push_list(lists: &mut Vec<Words>, alloc: Global, words: &[i64]) -> Result<(), Fail> {
    lists.push(Words::from_vec(Vec::from_slice(alloc, words)?))?;
    Ok(())
}
