// One instance of each line of the table of rules.
ghost use Rattle.std.specs.Prelude.{◌≡◌, ◌≤◌, ◌^◌, ◌++◌, [], ◌∷◌, unsigned_abs, OnOk, IfOk};
ghost use Rattle.index_props.specs.Rules.{pair_instance as pair, range_instance as ranged, sorted_instance as sorted, limit_instance as limited, diagonal_instance as diagonal, before_instance as before, ok, at_most, less, equal};
ghost use Rattle.index_props.specs.declared.rule.PairLine.TheVariants.{Equal, Injective, Ordered};

use crate::build::{
    push_at_most, push_compared, push_equal, push_less, push_ok, push_order_premise,
    push_order_result, push_seg,
};
use crate::entry::{Entry, Segment};
use crate::rule::{Order, PairLine, RuleInst};
use loop_core::decl::Decl;
use loop_core::nest::Term;
use sqlite_items::Items;
use std::alloc::Global;
use uf_constraints::system::Diff;
use wave_base::types::{ArrayId, Memory};

/// An instance at two entries of one array.
pub fn pair_instance(
    alloc: Global,
    line: PairLine,
    s: &Entry,
    t: &Entry,
) -> Result<RuleInst, Memory>
    ensures { IfOk result (λ r. r ≡ pair line s.now t.now) }
{
    match line {
        PairLine::Equal => equal_instance(alloc, s, t),
        PairLine::Injective => injective_instance(alloc, s, t),
        PairLine::Ordered(order) => ordered_instance(alloc, order, s, t),
    }
}

fn equal_instance(alloc: Global, s: &Entry, t: &Entry) -> Result<RuleInst, Memory>
    ensures { IfOk result (λ r. r ≡ pair Equal s.now t.now) }
{
    let mut premises = Items::new(alloc);
    push_equal(alloc, s.index(), t.index(), &mut premises)?;
    let mut results = Items::new(alloc);
    push_equal(alloc, s.value(), t.value(), &mut results)?;
    Ok(RuleInst { premises, results })
}

fn injective_instance(alloc: Global, s: &Entry, t: &Entry) -> Result<RuleInst, Memory>
    ensures { IfOk result (λ r. r ≡ pair Injective s.now t.now) }
{
    let mut premises = Items::new(alloc);
    push_ok(alloc, s, &mut premises)?;
    push_ok(alloc, t, &mut premises)?;
    push_equal(alloc, s.value(), t.value(), &mut premises)?;
    let mut results = Items::new(alloc);
    push_equal(alloc, s.index(), t.index(), &mut results)?;
    Ok(RuleInst { premises, results })
}

fn ordered_instance(alloc: Global, order: Order, s: &Entry, t: &Entry) -> Result<RuleInst, Memory>
    ensures { IfOk result (λ r. r ≡ pair (Ordered order) s.now t.now) }
{
    let mut premises = Items::new(alloc);
    push_ok(alloc, s, &mut premises)?;
    push_ok(alloc, t, &mut premises)?;
    push_order_premise(alloc, order, s, t, &mut premises)?;
    let mut results = Items::new(alloc);
    push_order_result(alloc, order, s, t, &mut results)?;
    Ok(RuleInst { premises, results })
}

/// An instance of `range` at an entry.
pub fn range_instance(alloc: Global, lo: &Term, hi: &Term, e: &Entry) -> Result<RuleInst, Memory>
    requires lo { unsigned_abs lo.now.plus ≤ 2 ^ 23 }
    requires hi { unsigned_abs hi.now.plus ≤ 2 ^ 23 }
    ensures { IfOk result (λ r. r ≡ ranged lo.now hi.now e.now) }
{
    let mut premises = Items::new(alloc);
    push_ok(alloc, e, &mut premises)?;
    let mut results = Items::new(alloc);
    push_at_most(alloc, lo, e.value(), &mut results)?;
    push_less(alloc, e.value(), hi, &mut results)?;
    Ok(RuleInst { premises, results })
}

/// An instance of `sorted` at two entries and a segment, at the end of a list.
pub fn push_sorted_instance(
    alloc: Global,
    order: Order,
    s: &Entry,
    t: &Entry,
    g: &Segment,
    into: &mut Items<RuleInst>,
) -> Result<(), Memory>
    ensures { OnOk result (into.new ≡ into.old ++ sorted order s.now t.now g.now ∷ []) }
{
    let one = sorted_instance(alloc, order, s, t, g)?;
    into.push(one)?;
    Ok(())
}

fn sorted_instance(
    alloc: Global,
    order: Order,
    s: &Entry,
    t: &Entry,
    g: &Segment,
) -> Result<RuleInst, Memory>
    ensures { IfOk result (λ r. r ≡ sorted order s.now t.now g.now) }
{
    let mut premises = Items::new(alloc);
    push_seg(alloc, g, s, &mut premises)?;
    push_seg(alloc, g, t, &mut premises)?;
    push_order_premise(alloc, order, s, t, &mut premises)?;
    let mut results = Items::new(alloc);
    push_order_result(alloc, order, s, t, &mut results)?;
    Ok(RuleInst { premises, results })
}

/// An instance of `below`, where it is strict, or of `upto`, at an entry and a segment, at the end of
/// a list.
pub fn push_limit_instance(
    alloc: Global,
    strict: bool,
    e: &Entry,
    g: &Segment,
    into: &mut Items<RuleInst>,
) -> Result<(), Memory>
    ensures { OnOk result (into.new ≡ into.old ++ limited strict e.now g.now ∷ []) }
{
    let one = limit_instance(alloc, strict, e, g)?;
    into.push(one)?;
    Ok(())
}

fn limit_instance(alloc: Global, strict: bool, e: &Entry, g: &Segment) -> Result<RuleInst, Memory>
    ensures { IfOk result (λ r. r ≡ limited strict e.now g.now) }
{
    let mut premises = Items::new(alloc);
    push_seg(alloc, g, e, &mut premises)?;
    let mut results = Items::new(alloc);
    push_compared(alloc, strict, e.value(), g.start().index(), &mut results)?;
    Ok(RuleInst { premises, results })
}

/// An instance of `diagonal` at `d[t]`, with `f[d[t]]`, `p[t]` and `p[t+1]`.
pub fn diagonal_instance(
    alloc: Global,
    decls: &[Decl],
    f: ArrayId,
    p: ArrayId,
    e: &Entry,
) -> Result<RuleInst, Memory>
    requires { unsigned_abs e.now.index.plus ≤ 2 ^ 22 }
    ensures { IfOk result (λ r. r ≡ diagonal decls.now f p e.now) }
{
    let at = Entry::at(alloc, decls, p, e.index())?;
    let after = Entry::after(alloc, decls, p, e.index())?;
    let back = Entry::at(alloc, decls, f, e.value())?;
    diagonal_between(alloc, &at, &after, &back, e)
}

fn diagonal_between(
    alloc: Global,
    at: &Entry,
    after: &Entry,
    back: &Entry,
    e: &Entry,
) -> Result<RuleInst, Memory>
    ensures { IfOk result (λ r. r ≡ record { premises = ok e.now ++ ok at.now ++ ok after.now; results = at_most at.now.value e.now.value ∷ less e.now.value after.now.value ∷ equal back.now.value e.now.index }) }
{
    let premises = diagonal_premises(alloc, at, after, e)?;
    let results = diagonal_results(alloc, at, after, back, e)?;
    Ok(RuleInst { premises, results })
}

// all three are places
fn diagonal_premises(
    alloc: Global,
    at: &Entry,
    after: &Entry,
    e: &Entry,
) -> Result<Items<Diff>, Memory>
    ensures { IfOk result (λ ds. ds ≡ ok e.now ++ ok at.now ++ ok after.now) }
{
    let mut premises = Items::new(alloc);
    push_ok(alloc, e, &mut premises)?;
    push_ok(alloc, at, &mut premises)?;
    push_ok(alloc, after, &mut premises)?;
    Ok(premises)
}

// p[t] <= d[t], d[t] < p[t+1] and f[d[t]] = t
fn diagonal_results(
    alloc: Global,
    at: &Entry,
    after: &Entry,
    back: &Entry,
    e: &Entry,
) -> Result<Items<Diff>, Memory>
    ensures { IfOk result (λ ds. ds ≡ at_most at.now.value e.now.value ∷ less e.now.value after.now.value ∷ equal back.now.value e.now.index) }
{
    let mut results = Items::new(alloc);
    push_at_most(alloc, at.value(), e.value(), &mut results)?;
    push_less(alloc, e.value(), after.value(), &mut results)?;
    push_equal(alloc, back.value(), e.index(), &mut results)?;
    Ok(results)
}

/// An instance of `before` at an entry, with that of the other array at the same argument.
pub fn before_instance(
    alloc: Global,
    decls: &[Decl],
    g: ArrayId,
    e: &Entry,
) -> Result<RuleInst, Memory>
    ensures { IfOk result (λ r. r ≡ before decls.now g e.now) }
{
    let other = Entry::at(alloc, decls, g, e.index())?;
    let mut premises = Items::new(alloc);
    push_ok(alloc, e, &mut premises)?;
    let mut results = Items::new(alloc);
    push_at_most(alloc, e.value(), other.value(), &mut results)?;
    Ok(RuleInst { premises, results })
}
