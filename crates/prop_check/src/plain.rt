// A plain second body of the check: of each property it looks at all pairs of numbers, in order, for
// the first that shows a failure. It sorts nothing, cuts nothing and keeps nothing.
ghost use Rattle.std.specs.Prelude.{◌≡◌, ◌<◌, ◌+◌, ◌^◌, ◌↔◌, [], ℕ, IsTrue, IfOk, IfErr, IfSome, length};
ghost use Rattle.loop_core.specs.Lists.{list_of};
ghost use Rattle.loop_core.specs.Terms.{term_value};
ghost use Rattle.index_props.specs.Meanings.{InSegment, IsDiagonal, Passes};
ghost use Rattle.index_props.specs.Places.{OutOfRange, SameBefore, StaysIn, NotBelowIn, AboveIn, NoDiagonal, NotBefore};
ghost use Rattle.prop_check.specs.Broken.{IsRefusal};
ghost use Rattle.prop_check.specs.Finds.{DoesNotRise, Finds, Shows};
ghost use Rattle.prop_check.specs.Pairs.{IsShownBy, places_of};
ghost use Rattle.prop_check.specs.Segments.{FindsIn};

use crate::check::{CheckRefusal, Passed};
use crate::entry::{bound, entry_after, entry_at};
use crate::places::Places;
use crate::rule::Spot;
use loop_core::arrays::Arrays;
use loop_core::decl::{PropDecl, PropKind};
use loop_core::nest::Term;
use std::marker::Brand;
use std::sync::ledger::{Blank, Ledger};
use wave_base::steps::Steps;
use wave_base::types::ArrayId;

/// What `check::check` says, found by looking at all pairs of numbers. It takes no memory.
pub fn check_by_pairs(props: &[PropDecl], arrays: &Arrays) -> Result<Passed, CheckRefusal>
    requires few { length props.now < 2 ^ 32 }
    ensures passes { IfOk result (λ _. Passes props.now arrays.now) }
    ensures refuses { IfErr result (IsRefusal props.now arrays.now) }
{
    counted::<Brand>(props, arrays, Blank::new(1))
}

fn counted<L: Ledger>(
    props: &[PropDecl],
    arrays: &Arrays,
    blank: Blank,
) -> Result<Passed, CheckRefusal>
    requires name { blank.name ≡ L.name }
    requires parts { blank.parts ≡ L.parts }
    requires one { blank.parts ≡ 1 }
    requires few { length props.now < 2 ^ 32 }
    ensures passes { IfOk result (λ _. Passes props.now arrays.now) }
    ensures refuses { IfErr result (IsRefusal props.now arrays.now) }
{
    let mut steps = Steps::<L>::open(blank);
    all(props, arrays, &mut steps)
}

fn all<L: Ledger>(
    props: &[PropDecl],
    arrays: &Arrays,
    steps: &mut Steps<L>,
) -> Result<Passed, CheckRefusal>
    requires few { length props.now < 2 ^ 32 }
    ensures passes { IfOk result (λ _. Passes props.now arrays.now) }
    ensures refuses { IfErr result (IsRefusal props.now arrays.now) }
{
    let mut property = 0;
    for prop in props {
        property += 1;
        if let Some(x) = failure(arrays, &prop.kind, steps) {
            let (first, second) = (x.first, x.second);
            return Err(CheckRefusal::Broken {
                property,
                first,
                second,
            });
        }
    }
    Ok(Passed)
}

#[tactic(auto, using(crate::proofs::ByPairs::fails_at, crate::proofs::ByPairs::none_fails))]
fn failure<L: Ledger>(arrays: &Arrays, kind: &PropKind, steps: &mut Steps<L>) -> Option<Places>
    ensures { Shows arrays.now kind.now result }
{
    match first_pair(arrays, kind, steps) {
        Some(pair) => Some(places(kind, pair)),
        None => None,
    }
}

fn places(kind: &PropKind, pair: Spot) -> Places
    requires { pair.place + 1 < 2 ^ 64 }
    ensures { result ≡ places_of kind.now pair }
{
    match kind {
        PropKind::Injective(_) => Places {
            first: pair.place,
            second: pair.segment,
        },
        PropKind::Sorted(_, _) => Places {
            first: pair.place,
            second: pair.place + 1,
        },
        PropKind::Range(_, _, _)
        | PropKind::Rising(_)
        | PropKind::Strict(_)
        | PropKind::Below(_, _)
        | PropKind::Upto(_, _)
        | PropKind::Diagonal(_, _, _)
        | PropKind::Before(_, _) => Places {
            first: pair.segment,
            second: pair.place,
        },
    }
}

fn first_pair<L: Ledger>(arrays: &Arrays, kind: &PropKind, steps: &mut Steps<L>) -> Option<Spot>
    ensures least { FindsIn (IsShownBy arrays.now kind.now) result }
    ensures small { IfSome result (λ x. x.place + 1 < 2 ^ 64) }
{
    let many = outer(arrays, kind);
    for i in 0..many {
        if let Some(place) = first_with(arrays, kind, i, steps) {
            return Some(Spot { segment: i, place });
        }
    }
    None
}

fn first_with<L: Ledger>(
    arrays: &Arrays,
    kind: &PropKind,
    i: u64,
    steps: &mut Steps<L>,
) -> Option<u64>
    ensures least { Finds (IsShownBy arrays.now kind.now i) result }
    ensures small { IfSome result (λ k. k + 1 < 2 ^ 64) }
{
    let many = inner(arrays, kind);
    for k in 0..many {
        if shows(arrays, kind, i, k, steps) {
            return Some(k);
        }
    }
    None
}

// A number above the first of each pair that shows a failure.
fn outer(arrays: &Arrays, kind: &PropKind) -> u64
    ensures { (i k : ℕ) → IsShownBy arrays.now kind.now i k → i < result }
{
    match kind {
        PropKind::Range(f, _, _) => arrays.len(*f),
        PropKind::Rising(p) => arrays.len(*p),
        PropKind::Strict(p) => arrays.len(*p),
        PropKind::Injective(f) => arrays.len(*f),
        PropKind::Sorted(_, p) => arrays.len(*p),
        PropKind::Below(_, p) => arrays.len(*p),
        PropKind::Upto(_, p) => arrays.len(*p),
        PropKind::Diagonal(d, _, _) => arrays.len(*d),
        PropKind::Before(f, _) => arrays.len(*f),
    }
}

// A number above the second of each such pair.
fn inner(arrays: &Arrays, kind: &PropKind) -> u64
    ensures { (i k : ℕ) → IsShownBy arrays.now kind.now i k → k < result }
{
    match kind {
        PropKind::Range(f, _, _) => arrays.len(*f),
        PropKind::Rising(p) => arrays.len(*p),
        PropKind::Strict(p) => arrays.len(*p),
        PropKind::Injective(f) => arrays.len(*f),
        PropKind::Sorted(f, _) => arrays.len(*f),
        PropKind::Below(f, _) => arrays.len(*f),
        PropKind::Upto(f, _) => arrays.len(*f),
        PropKind::Diagonal(d, _, _) => arrays.len(*d),
        PropKind::Before(f, _) => arrays.len(*f),
    }
}

fn shows<L: Ledger>(arrays: &Arrays, kind: &PropKind, i: u64, k: u64, steps: &mut Steps<L>) -> bool
    ensures { IsTrue result ↔ IsShownBy arrays.now kind.now i k }
{
    match kind {
        PropKind::Range(f, lo, hi) => out_of_range(arrays, *f, lo, hi, i, steps) && k == i,
        PropKind::Rising(p) => unrisen(arrays, *p, false, i, steps) && follows(k, i),
        PropKind::Strict(p) => unrisen(arrays, *p, true, i, steps) && follows(k, i),
        PropKind::Injective(f) => same_before(arrays, *f, i, k, steps),
        PropKind::Sorted(f, p) => stays_in(arrays, *f, *p, i, k, steps),
        PropKind::Below(f, p) => not_below_in(arrays, *f, *p, i, k, steps),
        PropKind::Upto(f, p) => above_in(arrays, *f, *p, i, k, steps),
        PropKind::Diagonal(d, f, p) => no_diagonal(arrays, *d, *f, *p, i, steps) && k == i,
        PropKind::Before(f, g) => not_before(arrays, *f, *g, i, steps) && k == i,
    }
}

fn follows(k: u64, i: u64) -> bool
    ensures { IsTrue result ↔ (k ≡ i + 1) }
{
    k > i && k - i == 1
}

fn has_next(many: u64, place: u64) -> bool
    ensures { IsTrue result ↔ (place + 1 < many) }
{
    place < many && place + 1 < many
}

fn is_in_segment<L: Ledger>(
    arrays: &Arrays,
    p: ArrayId,
    i: u64,
    k: u64,
    steps: &mut Steps<L>,
) -> bool
    ensures { IsTrue result ↔ InSegment (list_of arrays.now.lists p) i k }
{
    if !has_next(arrays.len(p), i) {
        return false;
    }
    if entry_at(arrays, p, i, steps) as i128 > k as i128 {
        return false;
    }
    (k as i128) < entry_after(arrays, p, i, steps) as i128
}

fn out_of_range<L: Ledger>(
    arrays: &Arrays,
    f: ArrayId,
    lo: &Term,
    hi: &Term,
    i: u64,
    steps: &mut Steps<L>,
) -> bool
    ensures { IsTrue result
        ↔ OutOfRange (list_of arrays.now.lists f) (term_value arrays.now [] lo.now) (term_value arrays.now [] hi.now) i }
{
    if i >= arrays.len(f) {
        return false;
    }
    let value = entry_at(arrays, f, i, steps) as i128;
    value < bound(arrays, lo, steps) || bound(arrays, hi, steps) <= value
}

fn unrisen<L: Ledger>(
    arrays: &Arrays,
    p: ArrayId,
    strict: bool,
    i: u64,
    steps: &mut Steps<L>,
) -> bool
    ensures { IsTrue result ↔ DoesNotRise strict (list_of arrays.now.lists p) i }
{
    if !has_next(arrays.len(p), i) {
        return false;
    }
    let here = entry_at(arrays, p, i, steps);
    if strict {
        entry_after(arrays, p, i, steps) <= here
    } else {
        entry_after(arrays, p, i, steps) < here
    }
}

fn same_before<L: Ledger>(arrays: &Arrays, f: ArrayId, b: u64, a: u64, steps: &mut Steps<L>) -> bool
    ensures { IsTrue result ↔ SameBefore (list_of arrays.now.lists f) b a }
{
    if a >= b || b >= arrays.len(f) {
        return false;
    }
    entry_at(arrays, f, a, steps) == entry_at(arrays, f, b, steps)
}

fn stays_in<L: Ledger>(
    arrays: &Arrays,
    f: ArrayId,
    p: ArrayId,
    i: u64,
    k: u64,
    steps: &mut Steps<L>,
) -> bool
    ensures { IsTrue result ↔ StaysIn (list_of arrays.now.lists f) (list_of arrays.now.lists p) i k }
{
    if !has_next(arrays.len(f), k) || !is_in_segment(arrays, p, i, k, steps) {
        return false;
    }
    if !is_in_segment(arrays, p, i, k + 1, steps) {
        return false;
    }
    unrisen(arrays, f, true, k, steps)
}

fn not_below_in<L: Ledger>(
    arrays: &Arrays,
    f: ArrayId,
    p: ArrayId,
    i: u64,
    k: u64,
    steps: &mut Steps<L>,
) -> bool
    ensures { IsTrue result ↔ NotBelowIn (list_of arrays.now.lists f) (list_of arrays.now.lists p) i k }
{
    if k >= arrays.len(f) || !is_in_segment(arrays, p, i, k, steps) {
        return false;
    }
    i as i128 <= entry_at(arrays, f, k, steps) as i128
}

fn above_in<L: Ledger>(
    arrays: &Arrays,
    f: ArrayId,
    p: ArrayId,
    i: u64,
    k: u64,
    steps: &mut Steps<L>,
) -> bool
    ensures { IsTrue result ↔ AboveIn (list_of arrays.now.lists f) (list_of arrays.now.lists p) i k }
{
    if k >= arrays.len(f) || !is_in_segment(arrays, p, i, k, steps) {
        return false;
    }
    (i as i128) < entry_at(arrays, f, k, steps) as i128
}

fn no_diagonal<L: Ledger>(
    arrays: &Arrays,
    d: ArrayId,
    f: ArrayId,
    p: ArrayId,
    i: u64,
    steps: &mut Steps<L>,
) -> bool
    ensures { IsTrue result
        ↔ NoDiagonal (list_of arrays.now.lists d) (list_of arrays.now.lists f) (list_of arrays.now.lists p) i }
{
    if i >= arrays.len(d) {
        return false;
    }
    !is_diagonal(arrays, d, f, p, i, steps)
}

fn is_diagonal<L: Ledger>(
    arrays: &Arrays,
    d: ArrayId,
    f: ArrayId,
    p: ArrayId,
    i: u64,
    steps: &mut Steps<L>,
) -> bool
    ensures { IsTrue result
        ↔ IsDiagonal (list_of arrays.now.lists d) (list_of arrays.now.lists f) (list_of arrays.now.lists p) i }
{
    let place = entry_at(arrays, d, i, steps);
    if entry_at(arrays, p, i, steps) > place {
        return false;
    }
    if entry_after(arrays, p, i, steps) <= place {
        return false;
    }
    arrays.at(f, place as i128, steps) as i128 == i as i128
}

fn not_before<L: Ledger>(
    arrays: &Arrays,
    f: ArrayId,
    g: ArrayId,
    i: u64,
    steps: &mut Steps<L>,
) -> bool
    ensures { IsTrue result ↔ NotBefore (list_of arrays.now.lists f) (list_of arrays.now.lists g) i }
{
    if i >= arrays.len(f) {
        return false;
    }
    entry_at(arrays, g, i, steps) < entry_at(arrays, f, i, steps)
}
