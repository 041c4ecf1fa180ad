// The plain decision of what a property says of the arrays: every place is looked at, and every pair.
ghost use Rattle.std.specs.Prelude.{◌≡◌, ◌≤◌, ◌<◌, ◌+◌, ◌↔◌, ℕ, pos, ◌≤ℤ◌, IsTrue, length, []};
ghost use Rattle.std.specs.Int.Signed.{◌<ℤ◌};
ghost use Rattle.loop_core.specs.Lists.{list_of, word_at};
ghost use Rattle.loop_core.specs.Terms.{term_value};
ghost use Rattle.index_props.specs.Meanings.{at, Ranged, RisingList, StrictList, InjectiveList, InSegment, SortedBy, BelowBy, UptoBy, IsDiagonal, DiagonalOf, BeforeList, Means};

use crate::words::{
    bound, has_next, is_at_most, is_equal, is_less, value_after, value_at, word_of,
};
use loop_core::arrays::Arrays;
use loop_core::decl::PropKind;
use loop_core::nest::Term;
use std::marker::Brand;
use std::sync::ledger::{Blank, Ledger};
use wave_base::steps::Steps;
use wave_base::types::ArrayId;

/// Whether the arrays have the property. It takes no memory.
pub fn means(arrays: &Arrays, kind: &PropKind) -> bool
    ensures { IsTrue result ↔ Means arrays.now kind.now }
{
    counted::<Brand>(arrays, kind, Blank::new(1))
}

fn counted<L: Ledger>(arrays: &Arrays, kind: &PropKind, blank: Blank) -> bool
    requires name { blank.name ≡ L.name }
    requires parts { blank.parts ≡ L.parts }
    requires one { blank.parts ≡ 1 }
    ensures { IsTrue result ↔ Means arrays.now kind.now }
{
    let mut steps = Steps::<L>::open(blank);
    has(arrays, kind, &mut steps)
}

fn has<L: Ledger>(arrays: &Arrays, kind: &PropKind, steps: &mut Steps<L>) -> bool
    ensures { IsTrue result ↔ Means arrays.now kind.now }
{
    match kind {
        PropKind::Range(f, lo, hi) => is_ranged(arrays, *f, lo, hi, steps),
        PropKind::Rising(p) => is_rising(arrays, *p, steps),
        PropKind::Strict(p) => is_strict(arrays, *p, steps),
        PropKind::Injective(f) => is_injective(arrays, *f, steps),
        PropKind::Sorted(f, p) => is_sorted(arrays, *f, *p, steps),
        PropKind::Below(f, p) => is_below(arrays, *f, *p, steps),
        PropKind::Upto(f, p) => is_upto(arrays, *f, *p, steps),
        PropKind::Diagonal(d, f, p) => is_diagonal(arrays, *d, *f, *p, steps),
        PropKind::Before(f, g) => is_before(arrays, *f, *g, steps),
    }
}

// Each entry is from the one bound up to but not including the other.
fn is_ranged<L: Ledger>(
    arrays: &Arrays,
    f: ArrayId,
    lo: &Term,
    hi: &Term,
    steps: &mut Steps<L>,
) -> bool
    ensures { IsTrue result
        ↔ Ranged (list_of arrays.now.lists f) (term_value arrays.now [] lo.now) (term_value arrays.now [] hi.now) }
{
    let many = arrays.len(f);
    for place in 0..many {
        if !is_between(arrays, f, lo, hi, place, steps) {
            return false;
        }
    }
    true
}

fn is_between<L: Ledger>(
    arrays: &Arrays,
    f: ArrayId,
    lo: &Term,
    hi: &Term,
    place: u64,
    steps: &mut Steps<L>,
) -> bool
    ensures { IsTrue result
        ↔ ((term_value arrays.now [] lo.now ≤ℤ at (list_of arrays.now.lists f) place)
        × (at (list_of arrays.now.lists f) place <ℤ term_value arrays.now [] hi.now)) }
{
    let value = value_at(arrays, f, place, steps);
    let least = bound(arrays, lo, steps);
    if !is_at_most(least, value) {
        return false;
    }
    is_less(value, bound(arrays, hi, steps))
}

// An earlier place has an entry that is at most that of a later one.
fn is_rising<L: Ledger>(arrays: &Arrays, p: ArrayId, steps: &mut Steps<L>) -> bool
    ensures { IsTrue result ↔ RisingList (list_of arrays.now.lists p) }
{
    let many = arrays.len(p);
    for a in 0..many {
        if !is_rising_from(arrays, p, a, steps) {
            return false;
        }
    }
    true
}

fn is_rising_from<L: Ledger>(arrays: &Arrays, p: ArrayId, a: u64, steps: &mut Steps<L>) -> bool
    ensures { IsTrue result ↔ ((b : ℕ) → b < length (list_of arrays.now.lists p) → a ≤ b → at (list_of arrays.now.lists p) a ≤ℤ at (list_of arrays.now.lists p) b) }
{
    let many = arrays.len(p);
    for b in 0..many {
        if !is_rising_at(arrays, p, a, b, steps) {
            return false;
        }
    }
    true
}

fn is_rising_at<L: Ledger>(
    arrays: &Arrays,
    p: ArrayId,
    a: u64,
    b: u64,
    steps: &mut Steps<L>,
) -> bool
    ensures { IsTrue result
        ↔ (a ≤ b → at (list_of arrays.now.lists p) a ≤ℤ at (list_of arrays.now.lists p) b) }
{
    if a > b {
        return true;
    }
    let first = value_at(arrays, p, a, steps);
    is_at_most(first, value_at(arrays, p, b, steps))
}

// An earlier place has an entry below that of a later one.
fn is_strict<L: Ledger>(arrays: &Arrays, p: ArrayId, steps: &mut Steps<L>) -> bool
    ensures { IsTrue result ↔ StrictList (list_of arrays.now.lists p) }
{
    let many = arrays.len(p);
    for a in 0..many {
        if !is_strict_from(arrays, p, a, steps) {
            return false;
        }
    }
    true
}

fn is_strict_from<L: Ledger>(arrays: &Arrays, p: ArrayId, a: u64, steps: &mut Steps<L>) -> bool
    ensures { IsTrue result ↔ ((b : ℕ) → b < length (list_of arrays.now.lists p) → a < b → at (list_of arrays.now.lists p) a <ℤ at (list_of arrays.now.lists p) b) }
{
    let many = arrays.len(p);
    for b in 0..many {
        if !is_strict_at(arrays, p, a, b, steps) {
            return false;
        }
    }
    true
}

fn is_strict_at<L: Ledger>(
    arrays: &Arrays,
    p: ArrayId,
    a: u64,
    b: u64,
    steps: &mut Steps<L>,
) -> bool
    ensures { IsTrue result
        ↔ (a < b → at (list_of arrays.now.lists p) a <ℤ at (list_of arrays.now.lists p) b) }
{
    if a >= b {
        return true;
    }
    let first = value_at(arrays, p, a, steps);
    is_less(first, value_at(arrays, p, b, steps))
}

// Equal entries stand at equal places.
fn is_injective<L: Ledger>(arrays: &Arrays, f: ArrayId, steps: &mut Steps<L>) -> bool
    ensures { IsTrue result ↔ InjectiveList (list_of arrays.now.lists f) }
{
    let many = arrays.len(f);
    for a in 0..many {
        if !is_injective_from(arrays, f, a, steps) {
            return false;
        }
    }
    true
}

fn is_injective_from<L: Ledger>(arrays: &Arrays, f: ArrayId, a: u64, steps: &mut Steps<L>) -> bool
    ensures { IsTrue result ↔ ((b : ℕ) → b < length (list_of arrays.now.lists f) → at (list_of arrays.now.lists f) a ≡ at (list_of arrays.now.lists f) b → a ≡ b) }
{
    let many = arrays.len(f);
    for b in 0..many {
        if !is_injective_at(arrays, f, a, b, steps) {
            return false;
        }
    }
    true
}

fn is_injective_at<L: Ledger>(
    arrays: &Arrays,
    f: ArrayId,
    a: u64,
    b: u64,
    steps: &mut Steps<L>,
) -> bool
    ensures { IsTrue result
        ↔ (at (list_of arrays.now.lists f) a ≡ at (list_of arrays.now.lists f) b → a ≡ b) }
{
    if a == b {
        return true;
    }
    let first = value_at(arrays, f, a, steps);
    !is_equal(first, value_at(arrays, f, b, steps))
}

// Whether a place lies in a segment.
fn is_in_segment<L: Ledger>(
    arrays: &Arrays,
    p: ArrayId,
    i: u64,
    a: u64,
    steps: &mut Steps<L>,
) -> bool
    ensures { IsTrue result ↔ InSegment (list_of arrays.now.lists p) i a }
{
    if !has_next(arrays.len(p), i) {
        return false;
    }
    let from = value_at(arrays, p, i, steps);
    if !is_at_most(from, a as i128) {
        return false;
    }
    is_less(a as i128, value_after(arrays, p, i, steps))
}

// In each segment an earlier place has an entry below that of a later one.
fn is_sorted<L: Ledger>(arrays: &Arrays, f: ArrayId, p: ArrayId, steps: &mut Steps<L>) -> bool
    ensures { IsTrue result ↔ SortedBy (list_of arrays.now.lists f) (list_of arrays.now.lists p) }
{
    let many = arrays.len(p);
    for i in 0..many {
        if !is_sorted_in(arrays, f, p, i, steps) {
            return false;
        }
    }
    true
}

fn is_sorted_in<L: Ledger>(
    arrays: &Arrays,
    f: ArrayId,
    p: ArrayId,
    i: u64,
    steps: &mut Steps<L>,
) -> bool
    ensures { IsTrue result ↔ ((b : ℕ) → b < length (list_of arrays.now.lists f) → (a : ℕ) → a < b
        → InSegment (list_of arrays.now.lists p) i a → InSegment (list_of arrays.now.lists p) i b → at (list_of arrays.now.lists f) a <ℤ at (list_of arrays.now.lists f) b) }
{
    let many = arrays.len(f);
    for b in 0..many {
        if !is_sorted_before(arrays, f, p, i, b, steps) {
            return false;
        }
    }
    true
}

fn is_sorted_before<L: Ledger>(
    arrays: &Arrays,
    f: ArrayId,
    p: ArrayId,
    i: u64,
    b: u64,
    steps: &mut Steps<L>,
) -> bool
    ensures { IsTrue result ↔ ((a : ℕ) → a < b
        → InSegment (list_of arrays.now.lists p) i a → InSegment (list_of arrays.now.lists p) i b → at (list_of arrays.now.lists f) a <ℤ at (list_of arrays.now.lists f) b) }
{
    for a in 0..b {
        if !is_sorted_at(arrays, f, p, i, a, b, steps) {
            return false;
        }
    }
    true
}

fn is_sorted_at<L: Ledger>(
    arrays: &Arrays,
    f: ArrayId,
    p: ArrayId,
    i: u64,
    a: u64,
    b: u64,
    steps: &mut Steps<L>,
) -> bool
    ensures { IsTrue result
        ↔ (InSegment (list_of arrays.now.lists p) i a → InSegment (list_of arrays.now.lists p) i b → at (list_of arrays.now.lists f) a <ℤ at (list_of arrays.now.lists f) b) }
{
    if !is_in_segment(arrays, p, i, a, steps) {
        return true;
    }
    if !is_in_segment(arrays, p, i, b, steps) {
        return true;
    }
    let first = value_at(arrays, f, a, steps);
    is_less(first, value_at(arrays, f, b, steps))
}

// The entries in segment i are below i.
fn is_below<L: Ledger>(arrays: &Arrays, f: ArrayId, p: ArrayId, steps: &mut Steps<L>) -> bool
    ensures { IsTrue result ↔ BelowBy (list_of arrays.now.lists f) (list_of arrays.now.lists p) }
{
    let many = arrays.len(p);
    for i in 0..many {
        if !is_below_in(arrays, f, p, i, steps) {
            return false;
        }
    }
    true
}

fn is_below_in<L: Ledger>(
    arrays: &Arrays,
    f: ArrayId,
    p: ArrayId,
    i: u64,
    steps: &mut Steps<L>,
) -> bool
    ensures { IsTrue result ↔ ((a : ℕ) → a < length (list_of arrays.now.lists f) → InSegment (list_of arrays.now.lists p) i a → at (list_of arrays.now.lists f) a <ℤ pos i) }
{
    let many = arrays.len(f);
    for a in 0..many {
        if !is_below_at(arrays, f, p, i, a, steps) {
            return false;
        }
    }
    true
}

fn is_below_at<L: Ledger>(
    arrays: &Arrays,
    f: ArrayId,
    p: ArrayId,
    i: u64,
    a: u64,
    steps: &mut Steps<L>,
) -> bool
    ensures { IsTrue result ↔ (InSegment (list_of arrays.now.lists p) i a → at (list_of arrays.now.lists f) a <ℤ pos i) }
{
    if !is_in_segment(arrays, p, i, a, steps) {
        return true;
    }
    is_less(value_at(arrays, f, a, steps), i as i128)
}

// The entries in segment i are at most i.
fn is_upto<L: Ledger>(arrays: &Arrays, f: ArrayId, p: ArrayId, steps: &mut Steps<L>) -> bool
    ensures { IsTrue result ↔ UptoBy (list_of arrays.now.lists f) (list_of arrays.now.lists p) }
{
    let many = arrays.len(p);
    for i in 0..many {
        if !is_upto_in(arrays, f, p, i, steps) {
            return false;
        }
    }
    true
}

fn is_upto_in<L: Ledger>(
    arrays: &Arrays,
    f: ArrayId,
    p: ArrayId,
    i: u64,
    steps: &mut Steps<L>,
) -> bool
    ensures { IsTrue result ↔ ((a : ℕ) → a < length (list_of arrays.now.lists f) → InSegment (list_of arrays.now.lists p) i a → at (list_of arrays.now.lists f) a ≤ℤ pos i) }
{
    let many = arrays.len(f);
    for a in 0..many {
        if !is_upto_at(arrays, f, p, i, a, steps) {
            return false;
        }
    }
    true
}

fn is_upto_at<L: Ledger>(
    arrays: &Arrays,
    f: ArrayId,
    p: ArrayId,
    i: u64,
    a: u64,
    steps: &mut Steps<L>,
) -> bool
    ensures { IsTrue result ↔ (InSegment (list_of arrays.now.lists p) i a → at (list_of arrays.now.lists f) a ≤ℤ pos i) }
{
    if !is_in_segment(arrays, p, i, a, steps) {
        return true;
    }
    is_at_most(value_at(arrays, f, a, steps), i as i128)
}

// Entry i of the first is a place in segment i of the third, and there the second holds i.
fn is_diagonal<L: Ledger>(
    arrays: &Arrays,
    d: ArrayId,
    f: ArrayId,
    p: ArrayId,
    steps: &mut Steps<L>,
) -> bool
    ensures { IsTrue result ↔ DiagonalOf (list_of arrays.now.lists d) (list_of arrays.now.lists f) (list_of arrays.now.lists p) }
{
    let many = arrays.len(d);
    for i in 0..many {
        if !is_diagonal_at(arrays, d, f, p, i, steps) {
            return false;
        }
    }
    true
}

fn is_diagonal_at<L: Ledger>(
    arrays: &Arrays,
    d: ArrayId,
    f: ArrayId,
    p: ArrayId,
    i: u64,
    steps: &mut Steps<L>,
) -> bool
    ensures { IsTrue result
        ↔ IsDiagonal (list_of arrays.now.lists d) (list_of arrays.now.lists f) (list_of arrays.now.lists p) i }
{
    if !lies_in(arrays, d, p, i, steps) {
        return false;
    }
    holds_there(arrays, d, f, i, steps)
}

fn lies_in<L: Ledger>(arrays: &Arrays, d: ArrayId, p: ArrayId, i: u64, steps: &mut Steps<L>) -> bool
    ensures { IsTrue result
        ↔ ((at (list_of arrays.now.lists p) i ≤ℤ at (list_of arrays.now.lists d) i)
        × (at (list_of arrays.now.lists d) i <ℤ at (list_of arrays.now.lists p) (i + 1))) }
{
    let place = value_at(arrays, d, i, steps);
    let from = value_at(arrays, p, i, steps);
    if !is_at_most(from, place) {
        return false;
    }
    is_less(place, value_after(arrays, p, i, steps))
}

fn holds_there<L: Ledger>(
    arrays: &Arrays,
    d: ArrayId,
    f: ArrayId,
    i: u64,
    steps: &mut Steps<L>,
) -> bool
    ensures { IsTrue result
        ↔ (word_at (list_of arrays.now.lists f) (at (list_of arrays.now.lists d) i) ≡ pos i) }
{
    let place = value_at(arrays, d, i, steps);
    is_equal(word_of(arrays, f, place, steps), i as i128)
}

// Each entry is at most that of the other array at the same place.
fn is_before<L: Ledger>(arrays: &Arrays, f: ArrayId, g: ArrayId, steps: &mut Steps<L>) -> bool
    ensures { IsTrue result ↔ BeforeList (list_of arrays.now.lists f) (list_of arrays.now.lists g) }
{
    let many = arrays.len(f);
    for i in 0..many {
        if !is_before_at(arrays, f, g, i, steps) {
            return false;
        }
    }
    true
}

fn is_before_at<L: Ledger>(
    arrays: &Arrays,
    f: ArrayId,
    g: ArrayId,
    i: u64,
    steps: &mut Steps<L>,
) -> bool
    ensures { IsTrue result ↔ (at (list_of arrays.now.lists f) i ≤ℤ at (list_of arrays.now.lists g) i) }
{
    let first = value_at(arrays, f, i, steps);
    is_at_most(first, value_at(arrays, g, i, steps))
}
