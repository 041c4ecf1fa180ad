// The variables of an order, one by one.
ghost use Rattle.std.specs.Prelude.{◌≡◌, ◌<◌, ◌+◌, suc, ℕ, ◌++◌, not, length, IfOk, OnOk};
ghost use Rattle.std.specs.List.{position};
ghost use Rattle.inspector_gen.specs.Made.{AreFacts};
ghost use Rattle.inspector_gen.specs.Kinds.{Facts, kind_of as kind_by};
ghost use Rattle.inspector_gen.specs.Plans.{is_looped as loops};
ghost use Rattle.inspector_gen.specs.Quick.{kinds_after as all_after, next_place as place_of, one_by_one as turned, in_turn as taken_in_turn, count_loops as loops_in, quicker as quicker_of};

use crate::kind::Kind;
use crate::order::{count_looped, is_looped, kind_of, kinds};
use crate::unknown::{Span, Unknown};
use bound_close::closure::Closure;
use loop_core::copies::copy_term;
use loop_core::nest::{Nest, VarId};
use sqlite_items::Items;
use std::alloc::Global;
use wave_base::types::Memory;

// How those that are left get their values from those taken.
fn kinds_after(
    alloc: Global,
    nest: &Nest,
    closure: &Closure,
    taken: &[VarId],
    left: &[Unknown],
) -> Result<Items<Kind>, Memory>
    ensures kinds { IfOk result (λ kinds. (f : Facts) → AreFacts nest.now.decls nest.now.props closure.now f → kinds ≡ all_after (kind_by f) taken.now left.now) }
    ensures length { IfOk result (λ kinds. length kinds ≡ length left.now) }
{
    let mut kinds = Items::new(alloc);
    for u in left {
        let kind = kind_of(alloc, nest, closure, taken, u.var)?;
        kinds.push(kind)?;
    }
    Ok(kinds)
}

// The place of the first that isn't looped.
fn first_known(kinds: &[Kind]) -> Option<usize>
    ensures { result ≡ position (λ kind. not (loops kind)) kinds.now }
{
    kinds.iter().position(|kind| !is_looped(kind))
}

// The place of the first of those left that isn't looped by those taken, and the first place where all are.
fn next_place(
    alloc: Global,
    nest: &Nest,
    closure: &Closure,
    taken: &[VarId],
    left: &[Unknown],
) -> Result<usize, Memory>
    requires { 0 < length left.now }
    ensures place { IfOk result (λ k. (f : Facts) → AreFacts nest.now.decls nest.now.props closure.now f → k ≡ place_of (kind_by f) taken.now left.now) }
    ensures within { IfOk result (λ k. k < length left.now) }
{
    let kinds = kinds_after(alloc, nest, closure, taken, left)?;
    match first_known(kinds.as_slice()) {
        Some(place) => Ok(place),
        None => Ok(0),
    }
}

// Takes the next of those that are left.
fn take_next(
    alloc: Global,
    nest: &Nest,
    closure: &Closure,
    left: &mut Items<Unknown>,
    taken: &mut Vec<VarId>,
    order: &mut Items<Unknown>,
) -> Result<(), Memory>
    requires { 0 < length left.old }
    ensures left { OnOk result (length left.new + 1 ≡ length left.old) }
    ensures turn { OnOk result ((f : Facts) → AreFacts nest.now.decls nest.now.props closure.now f → (n : ℕ)
        → order.new ++ turned (kind_by f) n taken.new.items left.new ≡ order.old ++ turned (kind_by f) (suc n) taken.old.items left.old) }
{
    let place = next_place(alloc, nest, closure, taken.as_slice(), left.as_slice())?;
    let next = left.remove(place);
    taken.push(next.var)?;
    order.push(next)?;
    Ok(())
}

// The variables of an order, one by one.
fn in_turn(
    alloc: Global,
    nest: &Nest,
    closure: &Closure,
    mut left: Items<Unknown>,
) -> Result<Items<Unknown>, Memory>
    ensures { IfOk result (λ order. (f : Facts) → AreFacts nest.now.decls nest.now.props closure.now f → order ≡ taken_in_turn (kind_by f) left) }
{
    let mut taken = Vec::new(alloc);
    let mut order = Items::new(alloc);
    for _ in 0..left.len() {
        take_next(alloc, nest, closure, &mut left, &mut taken, &mut order)?;
    }
    Ok(order)
}

fn copy_span(alloc: Global, span: &Span) -> Result<Span, Memory>
    ensures { IfOk result (λ copy. copy ≡ span.now) }
{
    match span {
        Span::Rows => Ok(Span::Rows),
        Span::Between { lo, hi } => Ok(Span::Between {
            lo: copy_term(alloc, lo)?,
            hi: copy_term(alloc, hi)?,
        }),
    }
}

fn copy_order(alloc: Global, order: &[Unknown]) -> Result<Items<Unknown>, Memory>
    ensures { IfOk result (λ copy. copy ≡ order.now) }
{
    let mut copy = Items::new(alloc);
    for u in order {
        let span = copy_span(alloc, &u.span)?;
        copy.push(Unknown { var: u.var, span })?;
    }
    Ok(copy)
}

// How many variables of an order are looped.
fn count_loops(
    alloc: Global,
    nest: &Nest,
    closure: &Closure,
    order: &[Unknown],
) -> Result<usize, Memory>
    ensures { IfOk result (λ count. (f : Facts) → AreFacts nest.now.decls nest.now.props closure.now f → count ≡ loops_in (kind_by f) order.now) }
{
    let kinds = kinds(alloc, nest, closure, order)?;
    Ok(count_looped(kinds.as_slice()))
}

/// The variables one by one, where fewer of them are looped so than in the order itself.
pub fn quicker(
    alloc: Global,
    nest: &Nest,
    closure: &Closure,
    order: Items<Unknown>,
) -> Result<Items<Unknown>, Memory>
    ensures { IfOk result (λ quick. (f : Facts) → AreFacts nest.now.decls nest.now.props closure.now f → quick ≡ quicker_of (kind_by f) order) }
{
    let copy = copy_order(alloc, order.as_slice())?;
    let turned = in_turn(alloc, nest, closure, copy)?;
    let count = count_loops(alloc, nest, closure, turned.as_slice())?;
    let count_there = count_loops(alloc, nest, closure, order.as_slice())?;
    if count < count_there {
        Ok(turned)
    } else {
        Ok(order)
    }
}
