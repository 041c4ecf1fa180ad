// Constraints between terms, pushed at the end of a list.
ghost use Rattle.std.specs.Prelude.{◌≡◌, ◌≤◌, ◌^◌, ◌++◌, [], ◌∷◌, unsigned_abs, OnOk};
ghost use Rattle.index_props.specs.Rules.{at_most, less, equal, compared, ok, seg, order_premise, order_result};

use crate::entry::{Entry, Segment};
use crate::rule::Order;
use loop_core::copies::copy_atom;
use loop_core::nest::{Atom, Term};
use sqlite_items::Items;
use std::alloc::Global;
use uf_constraints::system::Diff;
use wave_base::types::Memory;

/// `s <= t`
pub fn push_at_most(alloc: Global, s: &Term, t: &Term, into: &mut Items<Diff>) -> Result<(), Memory>
    requires s { unsigned_abs s.now.plus ≤ 2 ^ 23 }
    requires t { unsigned_abs t.now.plus ≤ 2 ^ 23 }
    ensures { OnOk result (into.new ≡ into.old ++ at_most s.now t.now ∷ []) }
{
    let a = copy_atom(alloc, &s.atom)?;
    let b = copy_atom(alloc, &t.atom)?;
    into.push(Diff {
        a,
        b,
        c: t.plus - s.plus,
    })?;
    Ok(())
}

/// `s < t`
pub fn push_less(alloc: Global, s: &Term, t: &Term, into: &mut Items<Diff>) -> Result<(), Memory>
    requires s { unsigned_abs s.now.plus ≤ 2 ^ 23 }
    requires t { unsigned_abs t.now.plus ≤ 2 ^ 23 }
    ensures { OnOk result (into.new ≡ into.old ++ less s.now t.now ∷ []) }
{
    let a = copy_atom(alloc, &s.atom)?;
    let b = copy_atom(alloc, &t.atom)?;
    into.push(Diff {
        a,
        b,
        c: t.plus - s.plus - 1,
    })?;
    Ok(())
}

/// `s = t`
pub fn push_equal(alloc: Global, s: &Term, t: &Term, into: &mut Items<Diff>) -> Result<(), Memory>
    requires s { unsigned_abs s.now.plus ≤ 2 ^ 23 }
    requires t { unsigned_abs t.now.plus ≤ 2 ^ 23 }
    ensures { OnOk result (into.new ≡ into.old ++ equal s.now t.now) }
{
    push_at_most(alloc, s, t, into)?;
    push_at_most(alloc, t, s, into)
}

/// `s < t` where it is strict, and `s <= t` elsewhere.
pub fn push_compared(
    alloc: Global,
    strict: bool,
    s: &Term,
    t: &Term,
    into: &mut Items<Diff>,
) -> Result<(), Memory>
    requires s { unsigned_abs s.now.plus ≤ 2 ^ 23 }
    requires t { unsigned_abs t.now.plus ≤ 2 ^ 23 }
    ensures { OnOk result (into.new ≡ into.old ++ compared strict s.now t.now ∷ []) }
{
    if strict {
        push_less(alloc, s, t, into)
    } else {
        push_at_most(alloc, s, t, into)
    }
}

/// The argument is a place of the array.
pub fn push_ok(alloc: Global, e: &Entry, into: &mut Items<Diff>) -> Result<(), Memory>
    ensures { OnOk result (into.new ≡ into.old ++ ok e.now) }
{
    let zero = Term {
        atom: Atom::Zero,
        plus: 0,
    };
    push_at_most(alloc, &zero, e.index(), into)?;
    push_less(alloc, e.index(), e.extent(), into)
}

/// The argument lies in the segment, and it and both ends are places.
pub fn push_seg(alloc: Global, g: &Segment, e: &Entry, into: &mut Items<Diff>) -> Result<(), Memory>
    ensures { OnOk result (into.new ≡ into.old ++ seg g.now e.now) }
{
    push_at_most(alloc, g.start().value(), e.index(), into)?;
    push_less(alloc, e.index(), g.stop().value(), into)?;
    push_ok(alloc, e, into)?;
    push_ok(alloc, g.start(), into)?;
    push_ok(alloc, g.stop(), into)
}

/// What a line for an order asks.
pub fn push_order_premise(
    alloc: Global,
    order: Order,
    s: &Entry,
    t: &Entry,
    into: &mut Items<Diff>,
) -> Result<(), Memory>
    ensures { OnOk result (into.new ≡ into.old ++ order_premise order s.now t.now ∷ []) }
{
    if order.back {
        push_compared(alloc, order.strict, s.value(), t.value(), into)
    } else {
        push_compared(alloc, order.strict, s.index(), t.index(), into)
    }
}

/// What a line for an order gives.
pub fn push_order_result(
    alloc: Global,
    order: Order,
    s: &Entry,
    t: &Entry,
    into: &mut Items<Diff>,
) -> Result<(), Memory>
    ensures { OnOk result (into.new ≡ into.old ++ order_result order s.now t.now ∷ []) }
{
    if order.back {
        push_compared(alloc, order.strict, s.index(), t.index(), into)
    } else {
        push_compared(alloc, order.strict, s.value(), t.value(), into)
    }
}
