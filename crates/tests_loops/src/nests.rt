// Nests, their arrays and values: copies with ample memory, lengths, and terms that are equal or not.
use crate::parts::Part::{Apply, Begin, For, Lit, N, Nnz, Num, Read, Set, Var, When};
use crate::parts::{name, nest_of, push_list};
use loop_core::arrays::Arrays;
use loop_core::decl::{Decl, DeclKind, Form, PropDecl, PropKind, Size, length_of, size_of};
use loop_core::equal::same_term;
use loop_core::name::Name;
use loop_core::nest::{Atom, Nest, Op, Rel, Term};
use loop_core::values::Values;
use sqlite_items::Items;
use std::alloc::Global;
use std::test::Fail;
use wave_base::types::{ArrayId, Cell};

fn term(atom: Atom, plus: i64) -> Term {
    Term { atom, plus }
}

// A matrix by rows, and index arrays as long as it has entries.
fn declarations(alloc: Global) -> Result<Items<Decl>, Fail> {
    let mut decls = Items::new(alloc);
    decls.push(Decl {
        line: 1,
        name: name()?,
        kind: DeclKind::Matrix(Form::Csr),
    })?;
    decls.push(Decl {
        line: 2,
        name: name()?,
        kind: DeclKind::Index(Size::Nnz),
    })?;
    Ok(decls)
}

// For v from 0 to nnz, where 0 < n, x[i] = x[i] * 2.
fn doubling(alloc: Global) -> Result<Nest, Fail> {
    let mut nest = nest_of(
        alloc,
        &[
            Num(0),
            Nnz,
            Begin,
            Num(0),
            N,
            Begin,
            Var(1),
            Var(1),
            Read(5),
            Lit(2),
            Apply(Op::Mul),
            Set(5),
            When(Rel::Less),
            For(4),
        ],
    )?;
    nest.decls = declarations(alloc)?;
    nest.props.push(PropDecl {
        line: 3,
        kind: PropKind::Range(ArrayId(1), term(Atom::Zero, 0), term(Atom::N, 0)),
    })?;
    Ok(nest)
}

#[test]
fn a_nest_is_copied(rt: HostRuntime) -> Result<(), Fail> {
    let nest = doubling(rt.alloc())?;
    let copy = nest.copy(rt.alloc())?;
    assert_eq!(rt; copy.props.len(), 1);
    Ok(())
}

#[test]
fn a_nest_writes_its_targets(rt: HostRuntime) -> Result<(), Fail> {
    let nest = doubling(rt.alloc())?;
    assert!(rt; nest.writes(ArrayId(5)) && !nest.writes(ArrayId(1)));
    Ok(())
}

fn one_list(alloc: Global) -> Result<Values, Fail> {
    let mut lists = Vec::new(alloc);
    push_list(&mut lists, alloc, &[7, -8])?;
    Ok(Values::of(lists))
}

#[test]
fn values_are_copied(rt: HostRuntime) -> Result<(), Fail> {
    let values = one_list(rt.alloc())?;
    let copy = values.copy(rt.alloc())?;
    assert_eq!(rt; copy.words(ArrayId(0)), [7, -8].as_slice());
    Ok(())
}

#[test]
fn a_cell_is_set(rt: HostRuntime) -> Result<(), Fail> {
    let mut values = one_list(rt.alloc())?;
    let cell = Cell {
        array: ArrayId(0),
        at: 1,
    };
    values.set(cell, 9);
    assert_eq!(rt; values.get(cell), 9);
    Ok(())
}

#[test]
fn sizes_follow_the_declarations(rt: HostRuntime) -> Result<(), Fail> {
    let decls = declarations(rt.alloc())?;
    let wanted = [
        (0, Some(Size::NPlusOne), 11),
        (1, Some(Size::Nnz), 25),
        (2, Some(Size::N), 10),
        (3, Some(Size::Nnz), 25),
        (4, Some(Size::Nnz), 25),
        (5, None, 0),
    ];
    for (array, size, length) in wanted {
        let array = ArrayId(array);
        assert!(rt;
            size_of(decls.as_slice(), array) == size
                && length_of(decls.as_slice(), 10, 25, array) == length
        );
    }
    Ok(())
}

#[test]
fn an_array_without_a_list_is_empty(rt: HostRuntime) {
    let arrays = Arrays::of(10, 25, Vec::new(rt.alloc()));
    assert!(rt; arrays.len(ArrayId(0)) == 0);
}

#[test]
fn terms_differ_by_their_constant(rt: HostRuntime) {
    let one = term(Atom::N, 1);
    assert!(rt; same_term(&one, &term(Atom::N, 1)) && !same_term(&one, &term(Atom::N, 2)));
}

#[test]
fn a_name_has_at_most_sixteen_bytes(rt: HostRuntime) {
    assert!(rt;
        Name::of(b"abcdefghijklmnop").is_some() && Name::of(b"abcdefghijklmnopq").is_none()
    );
}
