// What names stand for on a line.
ghost use Rattle.std.specs.Prelude.{◌≡◌, ◌+◌, ◌<◌, ◌≤◌, ◌^◌, length, IfOk};
ghost use Rattle.std.specs.Str.{bytes_eq};
ghost use Rattle.loop_syntax.specs.Scope.{empty, variables, meaning_of, declared, opened, closed, scope_behind, index_part, parts_from, part_use, own_use, dotted_use, use_of};

use crate::standing::{Standings, make_room, own_meaning, put_declared, put_variable, standing_of};
use loop_core::decl::{Form, Size};
use loop_core::name::Name;
use loop_lines::block::Block;
use loop_lines::line::Line;
use loop_lines::tree::ArrayName;
use std::alloc::Global;
use std::marker::Model;
use wave_base::types::Memory;

/// The numbers of a matrix's arrays. `index` is that of the columns of a matrix by rows, and that
/// of the rows of one by columns.
#[derive(Clone, Copy, Debug, PartialEq, Eq)]
pub struct Parts {
    pub ptr: u32,
    pub index: u32,
    pub diag: u32,
    pub val: u32,
}

/// What a name stands for. Arrays count from 0 in the order of their declarations, and so do locals.
#[derive(Clone, Copy, Debug, PartialEq, Eq)]
pub enum Meaning {
    /// A matrix and the numbers of its arrays.
    Matrix(Form, Parts),
    /// An index array.
    Indexes(Size, u32),
    /// A data array.
    Holds(Size, u32),
    /// The variable of the loop on this line.
    Variable(u32),
    /// A local.
    Local(u32),
}

/// A name and what it stands for.
#[derive(Debug, Drop)]
pub struct Known {
    pub name: Name,
    pub meaning: Meaning,
}

/// What stands where an array is named.
#[derive(Clone, Copy, Debug, PartialEq, Eq)]
pub enum ArrayUse {
    /// Nothing of this name.
    Unknown,
    /// A matrix by itself, a variable or a local.
    Other,
    /// An index array of this size and number.
    Indexes(Size, u32),
    /// A data array of this size and number.
    Holds(Size, u32),
}

/// An open block, and for a loop the line of the next loop outside it whose variable has the same
/// name.
#[derive(Drop)]
pub struct Opened {
    block: Block,
    outer: Option<u32>,
}

/// What the lines above a line leave: the declared names, the numbers of their arrays and of their
/// locals, and the open blocks. Contracts see the innermost block first. A name is found in constant expected time,
/// whatever the number of names and open blocks.
#[derive(Drop)]
pub struct Scope {
    // The declared names in their order, which contracts speak of. Names are sought in the table.
    declared: Vec<Known>,
    arrays: u32,
    locals: u32,
    // From the outermost block on.
    blocks: Vec<Opened>,
    // How many of the blocks are loops.
    loops: usize,
    table: Standings,
}

impl Model for Scope {
    ghost use Rattle.std.specs.Prelude.{reverse};
    ghost use Rattle.loop_syntax.specs.Scope.{Scope as Names};

    ghost Value = { Names };

    ghost use Rattle.loop_syntax.specs.ScopeFields.{blocks_of, KeepsUp};

    ghost view = { λ s. record { declared = s.declared.items; arrays = s.arrays; locals = s.locals; blocks = blocks_of (reverse s.blocks.items) } };

    ghost invariant = { λ s. KeepsUp s.table s.declared.items (reverse s.blocks.items) s.loops };
}

fn is_text(word: &[u8], text: &[u8]) -> bool
    ensures { result ≡ bytes_eq word.now text.now }
{
    word == text
}

fn is_index_part(form: Form, part: &[u8]) -> bool
    ensures { result ≡ bytes_eq part.now (index_part form) }
{
    match form {
        Form::Csr => is_text(part, b"col"),
        Form::Csc => is_text(part, b"row"),
    }
}

/// What a part of a matrix is.
fn part_use(form: Form, parts: Parts, part: &[u8]) -> ArrayUse
    ensures { result ≡ part_use form parts part.now }
{
    if is_text(part, b"ptr") {
        ArrayUse::Indexes(Size::NPlusOne, parts.ptr)
    } else if is_index_part(form, part) {
        ArrayUse::Indexes(Size::Nnz, parts.index)
    } else if is_text(part, b"diag") {
        ArrayUse::Indexes(Size::N, parts.diag)
    } else if is_text(part, b"val") {
        ArrayUse::Holds(Size::Nnz, parts.val)
    } else {
        ArrayUse::Unknown
    }
}

fn own_use(meaning: Option<Meaning>) -> ArrayUse
    ensures { result ≡ own_use meaning }
{
    match meaning {
        None => ArrayUse::Unknown,
        Some(Meaning::Matrix(_, _)) => ArrayUse::Other,
        Some(Meaning::Indexes(size, number)) => ArrayUse::Indexes(size, number),
        Some(Meaning::Holds(size, number)) => ArrayUse::Holds(size, number),
        Some(Meaning::Variable(_)) => ArrayUse::Other,
        Some(Meaning::Local(_)) => ArrayUse::Other,
    }
}

fn dotted_use(meaning: Option<Meaning>, part: &[u8]) -> ArrayUse
    ensures { result ≡ dotted_use meaning part.now }
{
    match meaning {
        Some(Meaning::Matrix(form, parts)) => part_use(form, parts, part),
        _ => ArrayUse::Unknown,
    }
}

/// The numbers of four arrays from one on.
fn parts_from(first: u32) -> Parts
    requires { first + 4 < 2 ^ 32 }
    ensures { result ≡ parts_from first }
{
    Parts {
        ptr: first,
        index: first + 1,
        diag: first + 2,
        val: first + 3,
    }
}

impl Scope {
    /// No names and no open blocks.
    pub fn new(alloc: Global) -> Scope
        ensures { result ≡ empty }
    {
        Scope {
            declared: Vec::new(alloc),
            arrays: 0,
            locals: 0,
            blocks: Vec::new(alloc),
            loops: 0,
            table: Standings::new(alloc),
        }
    }

    /// How many arrays are declared.
    pub fn arrays(&self) -> u32
        ensures { result ≡ self.now.arrays }
    {
        self.arrays
    }

    /// How many locals are declared.
    pub fn locals(&self) -> u32
        ensures { result ≡ self.now.locals }
    {
        self.locals
    }

    /// How many loops are open.
    pub fn loops(&self) -> usize
        ensures { result ≡ length (variables self.now.blocks) }
    {
        self.loops
    }

    /// What a name stands for, where it is known.
    pub fn meaning_of(&self, name: &Name) -> Option<Meaning>
        ensures { result ≡ meaning_of self.now name.now }
    {
        own_meaning(standing_of(&self.table, name))
    }

    /// What stands where an array is named.
    pub fn use_of(&self, array: &ArrayName) -> ArrayUse
        ensures { result ≡ use_of self.now array.now }
    {
        match array {
            ArrayName::Own(name) => own_use(self.meaning_of(name)),
            ArrayName::Dotted(matrix, part) => dotted_use(self.meaning_of(matrix), part.as_slice()),
        }
    }

    fn declare(
        &mut self,
        name: &Name,
        meaning: Meaning,
        arrays: u32,
        locals: u32,
    ) -> Result<(), Memory>
        requires arrays { self.old.arrays + arrays < 2 ^ 32 }
        requires locals { self.old.locals + locals < 2 ^ 32 }
        ensures { IfOk result (λ _. self.new ≡ declared self.old name.now meaning arrays locals) }
    {
        make_room(&mut self.table, name)?;
        self.declared.push(Known {
            name: name.copy(),
            meaning,
        })?;
        put_declared(&mut self.table, name, meaning);
        self.arrays += arrays;
        self.locals += locals;
        Ok(())
    }

    fn open_loop(&mut self, line: u32, name: &Name) -> Result<(), Memory>
        ensures { IfOk result (λ _. self.new ≡ opened self.old (Block.Repeated line name.now)) }
    {
        let outer = make_room(&mut self.table, name)?.variable;
        self.blocks.push(Opened {
            block: Block::Repeated {
                line,
                name: name.copy(),
            },
            outer,
        })?;
        put_variable(&mut self.table, name, Some(line));
        // A length is below 2^64, and there are no more loops than blocks.
        let _blocks = self.blocks.len();
        self.loops += 1;
        Ok(())
    }

    fn open_guard(&mut self) -> Result<(), Memory>
        ensures { IfOk result (λ _. self.new ≡ opened self.old Block.Guarded) }
    {
        self.blocks.push(Opened {
            block: Block::Guarded,
            outer: None,
        })?;
        Ok(())
    }

    fn close(&mut self)
        ensures { self.new ≡ closed self.old }
    {
        let Some(Opened { block, outer }) = self.blocks.pop() else {
            return;
        };
        match block {
            Block::Repeated { line: _, name } => {
                put_variable(&mut self.table, &name, outer);
                self.loops -= 1;
            }
            Block::Guarded => {}
        }
    }

    /// Goes past a line: its declared name is known, and its block is open or closed.
    pub fn pass(&mut self, number: u32, line: &Line) -> Result<(), Memory>
        requires { self.old.arrays + self.old.locals + 4 < 2 ^ 32 }
        ensures scope { IfOk result (λ _. self.new ≡ scope_behind self.old number line.now) }
        ensures few { IfOk result (λ _. self.new.arrays + self.new.locals ≤ self.old.arrays + self.old.locals + 4) }
    {
        let next = self.arrays;
        match line {
            Line::Matrix(name, form) => {
                self.declare(name, Meaning::Matrix(*form, parts_from(next)), 4, 0)
            }
            Line::Index(name, size) => self.declare(name, Meaning::Indexes(*size, next), 1, 0),
            Line::Vector(name, size, _) => self.declare(name, Meaning::Holds(*size, next), 1, 0),
            Line::Local(name) => self.declare(name, Meaning::Local(self.locals), 0, 1),
            Line::Loop(name) => self.open_loop(number, name),
            Line::For(name, _, _) => self.open_loop(number, name),
            Line::When(_, _, _) => self.open_guard(),
            Line::End => {
                self.close();
                Ok(())
            }
            _ => Ok(()),
        }
    }
}
