// The array entries of a universe.
ghost use Rattle.std.specs.Prelude.{◌≡◌, ◌≤◌, ◌^◌, unsigned_abs, slice_get, IfOk};
ghost use Rattle.loop_core.specs.Sizes.{sizes};
ghost use Rattle.uf_constraints.specs.Universe.{next};
ghost use Rattle.index_props.specs.Entries.{EntryTerms, size_term, length_term, entry_of};

use loop_core::copies::{copy_atom, copy_term};
use loop_core::decl::{Decl, Size, size_of};
use loop_core::nest::{Atom, Term};
use sqlite_items::Boxed;
use std::alloc::Global;
use std::marker::Model;
use wave_base::types::{ArrayId, Memory};

/// An entry `f[t]`: its array with its length, its argument, and the entry itself as a term.
#[derive(Drop)]
pub struct Entry {
    array: ArrayId,
    extent: Term,
    index: Term,
    value: Term,
}

impl Model for Entry {
    ghost use Rattle.std.specs.Prelude.{◌≤◌, ◌^◌, unsigned_abs};
    ghost use Rattle.std.specs.Coded.{codes};
    ghost use Rattle.index_props.specs.Entries.{EntryTerms};
    ghost use Rattle.loop_core.specs.contracts.nest.Atom as atom;
    ghost use Rattle.loop_core.specs.contracts.nest.Term as term;

    ghost Value = { EntryTerms };

    ghost coded = { Prim.hlevel (codes, atom.the_row.coded, term.the_row.coded) };

    ghost view = { λ e. record { array = e.array; extent = e.extent; index = e.index; value = e.value } };

    ghost invariant = { λ e. (unsigned_abs e.extent.plus ≤ 2 ^ 23)
        × (unsigned_abs e.index.plus ≤ 2 ^ 23)
        × (unsigned_abs e.value.plus ≤ 2 ^ 23) };
}

fn size_as_term(size: Option<Size>) -> Term
    ensures term { result ≡ size_term size }
    ensures small { unsigned_abs result.plus ≤ 1 }
{
    match size {
        Some(Size::N) => Term {
            atom: Atom::N,
            plus: 0,
        },
        Some(Size::NPlusOne) => Term {
            atom: Atom::N,
            plus: 1,
        },
        Some(Size::Nnz) => Term {
            atom: Atom::Nnz,
            plus: 0,
        },
        None => Term {
            atom: Atom::Zero,
            plus: 0,
        },
    }
}

/// The term with a constant that is greater by 1.
pub fn next_term(alloc: Global, term: &Term) -> Result<Term, Memory>
    requires { unsigned_abs term.now.plus ≤ 2 ^ 22 }
    ensures { IfOk result (λ t. t ≡ next term.now) }
{
    let atom = copy_atom(alloc, &term.atom)?;
    Ok(Term {
        atom,
        plus: term.plus + 1,
    })
}

impl Entry {
    /// The entry of an array at an argument.
    pub fn of(alloc: Global, decls: &[Decl], array: ArrayId, index: Term) -> Result<Entry, Memory>
        requires { unsigned_abs index.plus ≤ 2 ^ 23 }
        ensures { IfOk result (λ e. e ≡ entry_of decls.now array index) }
    {
        let inside = Boxed::new(alloc, copy_term(alloc, &index)?)?;
        Ok(Entry {
            array,
            extent: size_as_term(size_of(decls, array)),
            index,
            value: Term {
                atom: Atom::At(array, inside),
                plus: 0,
            },
        })
    }

    /// The entry of an array at a copy of an argument.
    pub fn at(alloc: Global, decls: &[Decl], array: ArrayId, index: &Term) -> Result<Entry, Memory>
        requires { unsigned_abs index.now.plus ≤ 2 ^ 23 }
        ensures { IfOk result (λ e. e ≡ entry_of decls.now array index.now) }
    {
        Entry::of(alloc, decls, array, copy_term(alloc, index)?)
    }

    /// The entry of an array at the argument that is greater by 1.
    pub fn after(
        alloc: Global,
        decls: &[Decl],
        array: ArrayId,
        index: &Term,
    ) -> Result<Entry, Memory>
        requires { unsigned_abs index.now.plus ≤ 2 ^ 22 }
        ensures { IfOk result (λ e. e ≡ entry_of decls.now array (next index.now)) }
    {
        Entry::of(alloc, decls, array, next_term(alloc, index)?)
    }

    /// An equal entry.
    pub fn copy(&self, alloc: Global) -> Result<Entry, Memory>
        ensures { IfOk result (λ e. e ≡ self.now) }
    {
        let extent = copy_term(alloc, &self.extent)?;
        let index = copy_term(alloc, &self.index)?;
        let value = copy_term(alloc, &self.value)?;
        Ok(Entry {
            array: self.array,
            extent,
            index,
            value,
        })
    }

    /// The array.
    pub fn array(&self) -> ArrayId
        ensures { result ≡ self.now.array }
    {
        self.array
    }

    /// The array's length.
    pub fn extent(&self) -> &Term
        ensures term { result.now ≡ self.now.extent }
        ensures small { unsigned_abs result.now.plus ≤ 2 ^ 23 }
    {
        &self.extent
    }

    /// The argument.
    pub fn index(&self) -> &Term
        ensures term { result.now ≡ self.now.index }
        ensures small { unsigned_abs result.now.plus ≤ 2 ^ 23 }
    {
        &self.index
    }

    /// The entry itself.
    pub fn value(&self) -> &Term
        ensures term { result.now ≡ self.now.value }
        ensures small { unsigned_abs result.now.plus ≤ 2 ^ 23 }
    {
        &self.value
    }
}

/// Two entries `p[u]` and `p[u+1]`, between which a segment lies.
#[derive(Drop)]
pub struct Segment {
    start: Entry,
    stop: Entry,
}

impl Model for Segment {
    ghost use Rattle.std.specs.Coded.{codes};
    ghost use Rattle.index_props.specs.Entries.{SegmentTerms};
    ghost use Rattle.loop_core.specs.contracts.nest.Atom as atom;
    ghost use Rattle.loop_core.specs.contracts.nest.Term as term;

    ghost Value = { SegmentTerms };

    ghost coded = { Prim.hlevel (codes, atom.the_row.coded, term.the_row.coded) };

    ghost view = { λ g. record { start = g.start; stop = g.stop } };
}

impl Segment {
    /// The segment between two entries. It takes no memory.
    pub fn of(start: Entry, stop: Entry) -> Segment
        ensures { result ≡ record { start = start; stop = stop } }
    {
        Segment { start, stop }
    }

    /// The entry at which it begins.
    pub fn start(&self) -> &Entry
        ensures { result.now ≡ self.now.start }
    {
        &self.start
    }

    /// The entry before which it ends.
    pub fn stop(&self) -> &Entry
        ensures { result.now ≡ self.now.stop }
    {
        &self.stop
    }
}
