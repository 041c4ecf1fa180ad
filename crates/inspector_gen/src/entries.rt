// The entries of a system at a variable plus a constant.
ghost use Rattle.std.specs.Prelude.{◌≡◌, ◌-ℤ◌, pos, List, IfOk};
ghost use Rattle.std.specs.List.{flat_map};
ghost use Rattle.loop_core.specs.declared.nest.Atom.{out-Atom};
ghost use Rattle.loop_core.specs.declared.nest.Atom.{Atom as AnAtom};
ghost use Rattle.loop_core.specs.declared.decl.PropDecl.{PropDecl as APropDecl};
ghost use Rattle.uf_constraints.specs.Same.{is_listed as among};
ghost use Rattle.uf_constraints.specs.Universe.{next, plain};
ghost use Rattle.index_props.specs.Entries.{length_term};
ghost use Rattle.index_props.specs.Rules.{at_most, less};
ghost use Rattle.inspector_gen.specs.Known.{Bounds, IsTable, knows as is_known};
ghost use Rattle.inspector_gen.specs.Made.{AreFacts};
ghost use Rattle.inspector_gen.specs.Kinds.{Facts, first_of, found_at as found_by_entry, is_place as a_place, is_rising as rises, is_variable as is_that, located_at as located_by_entry, makes_rising as said_to_rise, may_find as can_find, may_locate as can_locate};

use crate::kind::{Kind, Way};
use crate::known::knows;
use crate::ways::kind_along;
use bound_close::closure::Closure;
use loop_core::copies::{copy_atom, copy_term};
use loop_core::decl::{Decl, PropDecl, PropKind, Size, size_of};
use loop_core::nest::{Atom, Term, VarId};
use sqlite_items::Boxed;
use std::alloc::Global;
use uf_constraints::same::is_listed;
use wave_base::types::{ArrayId, Memory};

// The length of an array as an atom and a constant.
fn length_of(decls: &[Decl], array: ArrayId) -> Term
    ensures { result ≡ length_term decls.now array }
{
    match size_of(decls, array) {
        Some(Size::N) => Term {
            atom: Atom::N,
            plus: 0,
        },
        Some(Size::NPlusOne) => Term {
            atom: Atom::N,
            plus: 1,
        },
        Some(Size::Nnz) => Term {
            atom: Atom::Nnz,
            plus: 0,
        },
        None => Term {
            atom: Atom::Zero,
            plus: 0,
        },
    }
}

fn is_natural(closure: &Closure, t: &Term) -> bool
    ensures { (bounds : Bounds) → IsTable closure.now bounds → result ≡ is_known bounds (at_most (plain Atom.Zero) t.now) }
{
    knows(closure, &Atom::Zero, &t.atom, t.plus as i128)
}

fn is_below(closure: &Closure, t: &Term, length: &Term) -> bool
    ensures { (bounds : Bounds) → IsTable closure.now bounds → result ≡ is_known bounds (less t.now length.now) }
{
    knows(closure, &t.atom, &length.atom, gap(t.plus, length.plus))
}

fn gap(low: i64, high: i64) -> i128
    ensures { result ≡ high -ℤ low -ℤ pos 1 }
{
    high as i128 - low as i128 - 1
}

// Whether a term is known to be a place of an array.
fn is_place(decls: &[Decl], closure: &Closure, array: ArrayId, t: &Term) -> bool
    ensures { (f : Facts) → f.decls ≡ decls.now → IsTable closure.now f.bounds → result ≡ a_place f array t.now }
{
    let length = length_of(decls, array);
    let low = is_natural(closure, t);
    let high = is_below(closure, t, &length);
    low && high
}

fn is_variable(v: VarId, atom: &Atom) -> bool
    ensures { result ≡ is_that v (out-Atom atom.now) }
{
    match atom {
        Atom::Var(w) => *w == v,
        _ => false,
    }
}

fn makes_rising(array: ArrayId, kind: &PropKind) -> bool
    ensures { result ≡ said_to_rise array kind.now }
{
    match kind {
        PropKind::Rising(p) => p.0 == array.0,
        PropKind::Strict(p) => p.0 == array.0,
        _ => false,
    }
}

fn is_rising(props: &[PropDecl], array: ArrayId) -> bool
    ensures { result ≡ rises props.now array }
{
    props.iter().any(|d| makes_rising(array, &d.kind))
}

fn may_find(decls: &[Decl], closure: &Closure, v: VarId, array: ArrayId, t: &Term) -> bool
    ensures { (f : Facts) → f.decls ≡ decls.now → IsTable closure.now f.bounds → result ≡ can_find f v array t.now }
{
    let here = is_variable(v, &t.atom);
    let place = is_place(decls, closure, array, t);
    here && place
}

// The term with a constant that is greater by 1.
fn next_of(alloc: Global, t: &Term) -> Result<Term, Memory>
    ensures { IfOk result (λ u. u ≡ next t.now) }
{
    let Some(plus) = t.plus.checked_add(1) else {
        return Err(Memory);
    };
    let atom = copy_atom(alloc, &t.atom)?;
    Ok(Term { atom, plus })
}

fn is_among(alloc: Global, closure: &Closure, array: ArrayId, t: &Term) -> Result<bool, Memory>
    ensures { IfOk result (λ yes'. (atoms : List AnAtom) → atoms ≡ closure.now.atoms → yes' ≡ among atoms (Atom.At array t.now)) }
{
    let inner = Boxed::new(alloc, copy_term(alloc, t)?)?;
    let entry = Atom::At(array, inner);
    Ok(is_listed(closure.universe().atoms.as_slice(), &entry))
}

fn may_locate(
    alloc: Global,
    decls: &[Decl],
    props: &[PropDecl],
    closure: &Closure,
    v: VarId,
    array: ArrayId,
    t: &Term,
) -> Result<bool, Memory>
    ensures { IfOk result (λ yes'. (f : Facts) → AreFacts decls.now props.now closure.now f → yes' ≡ can_locate f v array t.now) }
{
    let after = next_of(alloc, t)?;
    let here = may_find(decls, closure, v, array, t);
    let rises = is_rising(props, array);
    let listed = is_among(alloc, closure, array, &after)?;
    let place = is_place(decls, closure, array, &after);
    Ok(here && (rises && (listed && place)))
}

fn found_at(
    alloc: Global,
    decls: &[Decl],
    closure: &Closure,
    earlier: &[VarId],
    v: VarId,
    a: &Atom,
) -> Result<Option<Kind>, Memory>
    ensures { IfOk result (λ kind. (f : Facts) (props : List APropDecl) → AreFacts decls.now props closure.now f → kind ≡ first_of (found_by_entry f earlier.now v a.now)) }
{
    match a {
        Atom::At(array, inner) => {
            let t = inner.get();
            if may_find(decls, closure, v, *array, t) {
                let way = Way::Found {
                    array: *array,
                    plus: t.plus,
                };
                kind_along(alloc, closure, earlier, v, way)
            } else {
                Ok(None)
            }
        }
        _ => Ok(None),
    }
}

fn located_at(
    alloc: Global,
    decls: &[Decl],
    props: &[PropDecl],
    closure: &Closure,
    earlier: &[VarId],
    v: VarId,
    a: &Atom,
) -> Result<Option<Kind>, Memory>
    ensures { IfOk result (λ kind. (f : Facts) → AreFacts decls.now props.now closure.now f → kind ≡ first_of (located_by_entry f earlier.now v a.now)) }
{
    match a {
        Atom::At(array, inner) => {
            let t = inner.get();
            if may_locate(alloc, decls, props, closure, v, *array, t)? {
                let way = Way::Located {
                    array: *array,
                    plus: t.plus,
                };
                kind_along(alloc, closure, earlier, v, way)
            } else {
                Ok(None)
            }
        }
        _ => Ok(None),
    }
}

/// The first kind by an entry that is an atom plus a constant.
pub fn found(
    alloc: Global,
    decls: &[Decl],
    closure: &Closure,
    earlier: &[VarId],
    v: VarId,
) -> Result<Option<Kind>, Memory>
    ensures { IfOk result (λ kind. (f : Facts) (props : List APropDecl) → AreFacts decls.now props closure.now f → kind ≡ first_of (flat_map (found_by_entry f earlier.now v) f.atoms)) }
{
    for a in closure.universe().atoms.as_slice() {
        let kind = found_at(alloc, decls, closure, earlier, v, a)?;
        if kind.is_some() {
            return Ok(kind);
        }
    }
    Ok(None)
}

/// The first kind by an entry of an array that rises, where an atom plus a constant lies from that entry
/// up to but not including the next.
pub fn located(
    alloc: Global,
    decls: &[Decl],
    props: &[PropDecl],
    closure: &Closure,
    earlier: &[VarId],
    v: VarId,
) -> Result<Option<Kind>, Memory>
    ensures { IfOk result (λ kind. (f : Facts) → AreFacts decls.now props.now closure.now f → kind ≡ first_of (flat_map (located_by_entry f earlier.now v) f.atoms)) }
{
    for a in closure.universe().atoms.as_slice() {
        let kind = located_at(alloc, decls, props, closure, earlier, v, a)?;
        if kind.is_some() {
            return Ok(kind);
        }
    }
    Ok(None)
}
