// In which way a variable gets its values.
ghost use Rattle.std.specs.Prelude.{◌≡◌, ℤ, pos, negsuc, ◌+ℤ◌, ◌-ℤ◌, [], map, IfOk};
ghost use Rattle.std.specs.List.{cons_option};
ghost use Rattle.inspector_gen.specs.Kinds.{Facts, entry_at as entry, if_below, constants, kind_with as with_term, first_of, kinds_by, kinds_if_fixed, kinds_along};
ghost use Rattle.inspector_gen.specs.Known.{Bounds, IsTable, constant_between, knows as is_known};

use crate::fixed::is_fixed;
use crate::kind::{Kind, Way};
use crate::known::{constant_between as constant, knows, least};
use bound_close::closure::Closure;
use loop_core::copies::copy_atom;
use loop_core::nest::{Atom, Term, VarId};
use sqlite_items::Boxed;
use std::alloc::Global;
use wave_base::types::{ArrayId, Memory};

// The entry of an array at a variable plus a constant.
fn entry_at(alloc: Global, v: VarId, array: ArrayId, plus: i64) -> Result<Atom, Memory>
    ensures { IfOk result (λ a. a ≡ entry v array plus) }
{
    let atom = Atom::Var(v);
    let index = Boxed::new(alloc, Term { atom, plus })?;
    Ok(Atom::At(array, index))
}

// An atom plus a constant.
fn term_of(alloc: Global, a: &Atom, plus: i64) -> Result<Term, Memory>
    ensures { IfOk result (λ t. t ≡ record { atom = a.now; plus = plus }) }
{
    let atom = copy_atom(alloc, a)?;
    Ok(Term { atom, plus })
}

// The constant with which a variable, or an entry at it, is an atom plus that constant.
fn difference(
    alloc: Global,
    closure: &Closure,
    v: VarId,
    array: ArrayId,
    plus: i64,
    a: &Atom,
) -> Result<Option<i64>, Memory>
    ensures { IfOk result (λ c. (bounds : Bounds) → IsTable closure.now bounds → cons_option c [] ≡ constant_between bounds (entry v array plus) a.now) }
{
    let entry = entry_at(alloc, v, array, plus)?;
    Ok(constant(closure, &entry, a))
}

// The least constant with which an atom plus that constant is at least an entry, where it is below the next one.
fn least_below(
    alloc: Global,
    closure: &Closure,
    v: VarId,
    array: ArrayId,
    plus: i64,
    a: &Atom,
) -> Result<Option<i64>, Memory>
    ensures { IfOk result (λ c. (bounds : Bounds) → IsTable closure.now bounds → cons_option c [] ≡ if_below bounds a.now (entry v array (plus +ℤ pos 1)) (bounds (entry v array plus) a.now)) }
{
    let Some(next) = plus.checked_add(1) else {
        return Err(Memory);
    };
    let entry = entry_at(alloc, v, array, plus)?;
    let after = entry_at(alloc, v, array, next)?;
    Ok(below(closure, a, &after, least(closure, &entry, a)))
}

fn below(closure: &Closure, a: &Atom, after: &Atom, least: Option<i64>) -> Option<i64>
    ensures { (bounds : Bounds) → IsTable closure.now bounds → cons_option result [] ≡ if_below bounds a.now after.now least }
{
    match least {
        Some(e) => {
            if is_below(closure, a, after, e) {
                least
            } else {
                None
            }
        }
        None => None,
    }
}

// Whether an atom plus a constant is below another atom.
fn is_below(closure: &Closure, a: &Atom, after: &Atom, e: i64) -> bool
    ensures { (bounds : Bounds) → IsTable closure.now bounds → result ≡ is_known bounds (record { a = a.now; b = after.now; c = negsuc 0 -ℤ e }) }
{
    knows(closure, a, after, -1 - e as i128)
}

fn constant_by(
    alloc: Global,
    closure: &Closure,
    v: VarId,
    way: Way,
    a: &Atom,
) -> Result<Option<i64>, Memory>
    ensures { IfOk result (λ c. (bounds : Bounds) → IsTable closure.now bounds → cons_option c [] ≡ constants bounds v way a.now) }
{
    match way {
        Way::Given => Ok(constant(closure, &Atom::Var(v), a)),
        Way::Found { array, plus } => difference(alloc, closure, v, array, plus, a),
        Way::Located { array, plus } => least_below(alloc, closure, v, array, plus, a),
    }
}

fn kind_with(way: Way, term: Term) -> Kind
    ensures { result ≡ with_term way term }
{
    match way {
        Way::Given => Kind::Given { term },
        Way::Found { array, plus } => Kind::Found { array, plus, term },
        Way::Located { array, plus } => Kind::Located { array, plus, term },
    }
}

fn kind_of_constant(
    alloc: Global,
    way: Way,
    a: &Atom,
    constant: Option<i64>,
) -> Result<Option<Kind>, Memory>
    ensures { IfOk result (λ kind. cons_option kind [] ≡ map (λ c. with_term way (record { atom = a.now; plus = c })) (cons_option constant [])) }
{
    match constant {
        Some(plus) => {
            let term = term_of(alloc, a, plus)?;
            Ok(Some(kind_with(way, term)))
        }
        None => Ok(None),
    }
}

fn kind_by(
    alloc: Global,
    closure: &Closure,
    v: VarId,
    way: Way,
    a: &Atom,
) -> Result<Option<Kind>, Memory>
    ensures { IfOk result (λ kind. (f : Facts) → IsTable closure.now f.bounds → cons_option kind [] ≡ kinds_by f v way a.now) }
{
    let constant = constant_by(alloc, closure, v, way, a)?;
    kind_of_constant(alloc, way, a, constant)
}

fn kind_if_fixed(
    alloc: Global,
    closure: &Closure,
    earlier: &[VarId],
    v: VarId,
    way: Way,
    a: &Atom,
) -> Result<Option<Kind>, Memory>
    ensures { IfOk result (λ kind. (f : Facts) → IsTable closure.now f.bounds → cons_option kind [] ≡ kinds_if_fixed f earlier.now v way a.now) }
{
    if is_fixed(earlier, a) {
        kind_by(alloc, closure, v, way, a)
    } else {
        Ok(None)
    }
}

/// The first kind in this way, by the atoms all of whose variables come earlier.
pub fn kind_along(
    alloc: Global,
    closure: &Closure,
    earlier: &[VarId],
    v: VarId,
    way: Way,
) -> Result<Option<Kind>, Memory>
    ensures { IfOk result (λ kind. (f : Facts) → f.atoms ≡ closure.now.atoms → IsTable closure.now f.bounds → kind ≡ first_of (kinds_along f earlier.now v way)) }
{
    for a in closure.universe().atoms.as_slice() {
        let kind = kind_if_fixed(alloc, closure, earlier, v, way, a)?;
        if kind.is_some() {
            return Ok(kind);
        }
    }
    Ok(None)
}
