// The kinds of the variables of an order, and which of two orders is cheaper.
ghost use Rattle.std.specs.Prelude.{◌≡◌, [], ◌++◌, IfOk};
ghost use Rattle.std.specs.List.{count_by, flat_map};
ghost use Rattle.inspector_gen.specs.Made.{AreFacts};
ghost use Rattle.inspector_gen.specs.Kinds.{Facts, first_of, found_at, kind_of as kind_by, located_at, or_looped};
ghost use Rattle.inspector_gen.specs.Plans.{is_looped as looped, is_found as by_entry, is_located as by_search, is_cheaper as cheaper, kinds_from};

use crate::entries::{found, located};
use crate::kind::{Kind, Way};
use crate::unknown::Unknown;
use crate::ways::kind_along;
use bound_close::closure::Closure;
use loop_core::decl::{Decl, PropDecl};
use loop_core::nest::{Nest, VarId};
use sqlite_items::Items;
use std::alloc::Global;
use wave_base::types::Memory;

fn by_search(
    alloc: Global,
    decls: &[Decl],
    props: &[PropDecl],
    closure: &Closure,
    earlier: &[VarId],
    v: VarId,
) -> Result<Kind, Memory>
    ensures { IfOk result (λ kind. (f : Facts) → AreFacts decls.now props.now closure.now f → kind ≡ or_looped (first_of (flat_map (located_at f earlier.now v) f.atoms))) }
{
    let located = located(alloc, decls, props, closure, earlier, v)?;
    match located {
        Some(kind) => Ok(kind),
        None => Ok(Kind::Looped),
    }
}

fn by_entries(
    alloc: Global,
    decls: &[Decl],
    props: &[PropDecl],
    closure: &Closure,
    earlier: &[VarId],
    v: VarId,
) -> Result<Kind, Memory>
    ensures { IfOk result (λ kind. (f : Facts) → AreFacts decls.now props.now closure.now f → kind
        ≡ or_looped (first_of (flat_map (found_at f earlier.now v) f.atoms ++ flat_map (located_at f earlier.now v) f.atoms))) }
{
    let found = found(alloc, decls, closure, earlier, v)?;
    match found {
        Some(kind) => Ok(kind),
        None => Ok(by_search(alloc, decls, props, closure, earlier, v)?),
    }
}

/// How a variable gets its values from those that come earlier.
pub fn kind_of(
    alloc: Global,
    nest: &Nest,
    closure: &Closure,
    earlier: &[VarId],
    v: VarId,
) -> Result<Kind, Memory>
    ensures { IfOk result (λ kind. (f : Facts) → AreFacts nest.now.decls nest.now.props closure.now f → kind ≡ kind_by f earlier.now v) }
{
    let decls = nest.decls.as_slice();
    let props = nest.props.as_slice();
    let given = kind_along(alloc, closure, earlier, v, Way::Given)?;
    match given {
        Some(kind) => Ok(kind),
        None => Ok(by_entries(alloc, decls, props, closure, earlier, v)?),
    }
}

/// The kinds of the variables of an order.
pub fn kinds(
    alloc: Global,
    nest: &Nest,
    closure: &Closure,
    order: &[Unknown],
) -> Result<Items<Kind>, Memory>
    ensures { IfOk result (λ kinds. (f : Facts) → AreFacts nest.now.decls nest.now.props closure.now f → kinds ≡ kinds_from (kind_by f) [] order.now) }
{
    let mut earlier = Vec::new(alloc);
    let mut kinds = Items::new(alloc);
    for u in order {
        let kind = kind_of(alloc, nest, closure, earlier.as_slice(), u.var)?;
        kinds.push(kind)?;
        earlier.push(u.var)?;
    }
    Ok(kinds)
}

/// Whether all values are tried.
pub fn is_looped(kind: &Kind) -> bool
    ensures { result ≡ looped kind.now }
{
    match kind {
        Kind::Looped => true,
        _ => false,
    }
}

fn is_found(kind: &Kind) -> bool
    ensures { result ≡ by_entry kind.now }
{
    match kind {
        Kind::Found { .. } => true,
        _ => false,
    }
}

fn is_located(kind: &Kind) -> bool
    ensures { result ≡ by_search kind.now }
{
    match kind {
        Kind::Located { .. } => true,
        _ => false,
    }
}

/// How many are looped.
pub fn count_looped(kinds: &[Kind]) -> usize
    ensures { result ≡ count_by looped kinds.now }
{
    kinds.iter().filter(|kind| is_looped(*kind)).count()
}

fn count_found(kinds: &[Kind]) -> usize
    ensures { result ≡ count_by by_entry kinds.now }
{
    kinds.iter().filter(|kind| is_found(*kind)).count()
}

fn count_located(kinds: &[Kind]) -> usize
    ensures { result ≡ count_by by_search kinds.now }
{
    kinds.iter().filter(|kind| is_located(*kind)).count()
}

/// Whether an order with these kinds is cheaper than one with others.
pub fn is_cheaper(kinds: &[Kind], others: &[Kind]) -> bool
    ensures { result ≡ cheaper kinds.now others.now }
{
    let (looped, looped_there) = (count_looped(kinds), count_looped(others));
    let (found, found_there) = (count_found(kinds), count_found(others));
    if looped != looped_there {
        looped < looped_there
    } else if found != found_there {
        found < found_there
    } else {
        count_located(kinds) < count_located(others)
    }
}
