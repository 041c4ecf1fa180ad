// Systems of constraints with all that their atoms and instances follow from.
use crate::atoms::plain;
use loop_core::decl::{Decl, DeclKind, Form, PropDecl, PropKind};
use loop_core::name::Name;
use loop_core::nest::{Atom, Term};
use sqlite_items::Items;
use std::alloc::Global;
use uf_constraints::system::Diff;
use wave_base::types::{ArrayId, Memory};

/// The pointers of the matrix: n + 1 entries.
pub const PTR: ArrayId = ArrayId(0);

/// The columns of the matrix: nnz entries.
pub const COL: ArrayId = ArrayId(1);

/// The diagonal places of the matrix: n entries.
pub const DIAG: ArrayId = ArrayId(2);

/// A base with further terms, and the declarations and properties that it stands under.
#[derive(Drop)]
pub struct System {
    pub base: Items<Diff>,
    pub terms: Items<Term>,
    pub decls: Items<Decl>,
    pub props: Items<PropDecl>,
}

impl System {
    /// No constraints, over the arrays of one matrix by rows.
    pub fn new(alloc: Global) -> Result<System, Memory> {
        Ok(System {
            base: Items::new(alloc),
            terms: Items::new(alloc),
            decls: one_matrix(alloc)?,
            props: Items::new(alloc),
        })
    }

    /// No constraints but 0 <= n and 0 <= nnz.
    pub fn of_sizes(alloc: Global) -> Result<System, Memory> {
        let mut system = System::new(alloc)?;
        system.push(Atom::Zero, Atom::N, 0)?;
        system.push(Atom::Zero, Atom::Nnz, 0)?;
        Ok(system)
    }

    /// One more constraint of the base: a - b <= c.
    pub fn push(&mut self, a: Atom, b: Atom, c: i64) -> Result<(), Memory> {
        self.base.push(Diff { a, b, c })?;
        Ok(())
    }

    /// One more term, an atom alone.
    pub fn push_term(&mut self, atom: Atom) -> Result<(), Memory> {
        self.terms.push(plain(atom))?;
        Ok(())
    }

    /// One more property, on that line.
    pub fn push_prop(&mut self, line: u16, kind: PropKind) -> Result<(), Memory> {
        self.props.push(PropDecl { line, kind })?;
        Ok(())
    }
}

// One matrix by rows. "a" is a name, so that it is always declared.
fn one_matrix(alloc: Global) -> Result<Items<Decl>, Memory> {
    let mut decls = Items::new(alloc);
    if let Some(name) = Name::of(b"a") {
        let kind = DeclKind::Matrix(Form::Csr);
        decls.push(Decl {
            line: 1,
            name,
            kind,
        })?;
    }
    Ok(decls)
}
