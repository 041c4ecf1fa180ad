// `sorted`, `below` and `upto`: what no segment may hold.
ghost use Rattle.std.specs.Prelude.{◌≡◌, ◌<◌, ◌≤◌, ◌+◌, ◌^◌, ◌↔◌, ◌-◌, ℕ, pos, ◌≤ℤ◌, IsTrue, IfSome, length};
ghost use Rattle.loop_core.specs.Lists.{list_of};
ghost use Rattle.index_props.specs.Meanings.{InSegment};
ghost use Rattle.prop_check.specs.Finds.{Finds};
ghost use Rattle.prop_check.specs.Segments.{IsBad, IsBadIn, IsClean, known, AreSkips, FindsIn};

use crate::entry::{entry_after, entry_at};
use crate::neighbours::does_not_rise;
use crate::rule::{Rule, Segmented, Span, Spot};
use crate::skips::{keep, known_from};
use loop_core::arrays::Arrays;
use std::sync::ledger::Ledger;
use wave_base::steps::Steps;

fn is_bad<L: Ledger>(arrays: &Arrays, by: Segmented, i: u64, k: u64, steps: &mut Steps<L>) -> bool
    requires { k < length (list_of arrays.now.lists by.f) }
    ensures { IsTrue result ↔ IsBad by.rule (list_of arrays.now.lists by.f) i k }
{
    match by.rule {
        Rule::Sorted => does_not_rise(arrays, by.f, true, k, steps),
        Rule::Below => i as i128 <= entry_at(arrays, by.f, k, steps) as i128,
        Rule::Upto => (i as i128) < entry_at(arrays, by.f, k, steps) as i128,
    }
}

// A number as a place of a list, or one of its ends.
fn cut(word: i64, many: u64) -> u64
    ensures inside { result ≤ many }
    ensures from { (k : ℕ) → k < many → (word ≤ℤ pos k) ↔ (result ≤ k) }
{
    if word <= 0 {
        return 0;
    }
    let place = word as u64;
    if place < many { place } else { many }
}

// The places of segment i that the array has.
fn whole<L: Ledger>(arrays: &Arrays, by: Segmented, i: u64, steps: &mut Steps<L>) -> Span
    requires { i + 1 < length (list_of arrays.now.lists by.p) }
    ensures inside { result.to ≤ length (list_of arrays.now.lists by.f) }
    ensures places { (k : ℕ) → k < length (list_of arrays.now.lists by.f) → InSegment (list_of arrays.now.lists by.p) i k
        ↔ ((result.from ≤ k) × (k < result.to)) }
{
    let many = arrays.len(by.f);
    let from = cut(entry_at(arrays, by.p, i, steps), many);
    let to = cut(entry_after(arrays, by.p, i, steps), many);
    Span { from, to }
}

// The places of segment i that are looked at. For `sorted` the last one has no next one.
fn span<L: Ledger>(arrays: &Arrays, by: Segmented, i: u64, steps: &mut Steps<L>) -> Span
    requires { i + 1 < length (list_of arrays.now.lists by.p) }
    ensures inside { result.to ≤ length (list_of arrays.now.lists by.f) }
    ensures bad { (k : ℕ) → IsBadIn by.rule (list_of arrays.now.lists by.f) (list_of arrays.now.lists by.p) i k
        ↔ ((result.from ≤ k) × (k < result.to) × IsBad by.rule (list_of arrays.now.lists by.f) i k) }
{
    let Span { from, to } = whole(arrays, by, i, steps);
    match by.rule {
        Rule::Sorted => Span {
            from,
            to: before(to),
        },
        Rule::Below => Span { from, to },
        Rule::Upto => Span { from, to },
    }
}

fn before(place: u64) -> u64
    ensures { result ≡ place - 1 }
{
    if place == 0 { 0 } else { place - 1 }
}

#[tactic(auto, using(crate::proofs::Kept::kept))]
// The place up to which all are clean: a later one, or this one where it is bad.
fn advance<L: Ledger>(
    arrays: &Arrays,
    by: Segmented,
    i: u64,
    k: u64,
    skips: &mut Vec<u64>,
    steps: &mut Steps<L>,
) -> u64
    requires inside { k < length (list_of arrays.now.lists by.f) }
    requires small { k + 1 < 2 ^ 64 }
    requires skips { AreSkips by.rule (list_of arrays.now.lists by.f) i skips.old.items }
    ensures rises { k ≤ result }
    ensures clean { IsClean by.rule (list_of arrays.now.lists by.f) i k result }
    ensures bad { result ≡ k → IsBad by.rule (list_of arrays.now.lists by.f) i k }
    ensures skips { AreSkips by.rule (list_of arrays.now.lists by.f) i skips.new.items }
{
    let next = known_from(skips.as_slice(), k);
    if next > k {
        let far = known_from(skips.as_slice(), next);
        keep(skips, k, far);
        return far;
    }
    if is_bad(arrays, by, i, k, steps) {
        return k;
    }
    keep(skips, k, k + 1);
    k + 1
}

// The least bad place of segment i.
fn first_in<L: Ledger>(
    arrays: &Arrays,
    by: Segmented,
    i: u64,
    skips: &mut Vec<u64>,
    steps: &mut Steps<L>,
) -> Option<u64>
    requires inside { i + 1 < length (list_of arrays.now.lists by.p) }
    requires skips { AreSkips by.rule (list_of arrays.now.lists by.f) i skips.old.items }
    ensures small { IfSome result (λ k. k + 1 < 2 ^ 64) }
    ensures least { Finds (IsBadIn by.rule (list_of arrays.now.lists by.f) (list_of arrays.now.lists by.p) i) result }
    ensures skips { AreSkips by.rule (list_of arrays.now.lists by.f) i skips.new.items }
{
    let span = span(arrays, by, i, steps);
    let mut k = span.from;
    while k < span.to {
        let next = advance(arrays, by, i, k, skips, steps);
        if next == k {
            return Some(k);
        }
        k = next;
    }
    None
}

/// The least segment with a bad place, and its least.
pub fn first_spot<L: Ledger>(
    arrays: &Arrays,
    by: Segmented,
    skips: &mut Vec<u64>,
    steps: &mut Steps<L>,
) -> Option<Spot>
    requires { (k : ℕ) → known skips.old.items k ≡ k }
    ensures least { FindsIn (IsBadIn by.rule (list_of arrays.now.lists by.f) (list_of arrays.now.lists by.p)) result }
    ensures small { IfSome result (λ x. x.place + 1 < 2 ^ 64) }
{
    let many = arrays.len(by.p);
    for i in 1..many {
        if let Some(place) = first_in(arrays, by, i - 1, skips, steps) {
            return Some(Spot {
                segment: i - 1,
                place,
            });
        }
    }
    None
}
