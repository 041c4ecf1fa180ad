// What each property says, by arrays that have it and arrays that lack it, at its edges.
use loop_core::arrays::Arrays;
use loop_core::decl::PropKind;
use loop_core::nest::{Atom, Term};
use props_plain::meaning::means;
use std::alloc::Global;
use std::process::Abort;
use std::test::Fail;
use wave_base::types::ArrayId;
use wave_base::words::Words;

// The arrays 0, 1 and 2 in the order of the property's line.
const FIRST: ArrayId = ArrayId(0);

const SECOND: ArrayId = ArrayId(1);

const THIRD: ArrayId = ArrayId(2);

// Arrays of these lists, where n is 4 and nnz is 6.
fn arrays_of(alloc: Global, lists: &[&[i64]]) -> Result<Arrays, Fail> {
    let mut words = Vec::new(alloc);
    for list in lists {
        words.push(Words::from_vec(Vec::from_slice(alloc, *list)?))?;
    }
    Ok(Arrays::of(4, 6, words))
}

// Tries the property on arrays that all have it, or all lack it.
fn try_all(
    rt: &impl Abort,
    alloc: Global,
    kind: &PropKind,
    wanted: bool,
    cases: &[&[&[i64]]],
) -> Result<(), Fail> {
    for (case, lists) in cases.iter().enumerate() {
        let arrays = arrays_of(alloc, lists)?;
        assert_eq!(rt; means(&arrays, kind), wanted, "case {case}");
    }
    Ok(())
}

fn bound(atom: Atom, plus: i64) -> Term {
    Term { atom, plus }
}

// from 1 up to but not including n, which is 4
#[test]
fn range_at_its_edges(rt: HostRuntime) -> Result<(), Fail> {
    let kind = PropKind::Range(FIRST, bound(Atom::Zero, 1), bound(Atom::N, 0));
    let have: [&[&[i64]]; 6] = [&[&[]], &[], &[&[1]], &[&[3]], &[&[1, 3, 2]], &[&[2, 2]]];
    let lack: [&[&[i64]]; 8] = [
        &[&[0]],
        &[&[4]],
        &[&[0, 1, 2]],
        &[&[1, 2, 4]],
        &[&[1, 5, 1]],
        &[&[-1]],
        &[&[i64::MAX]],
        &[&[i64::MIN]],
    ];
    try_all(&rt, rt.alloc(), &kind, true, &have)?;
    try_all(&rt, rt.alloc(), &kind, false, &lack)
}

// from nnz up to but not including n + 2, which are both 6
#[test]
fn empty_range_has_no_entry(rt: HostRuntime) -> Result<(), Fail> {
    let kind = PropKind::Range(FIRST, bound(Atom::Nnz, 0), bound(Atom::N, 2));
    let have: [&[&[i64]]; 1] = [&[&[]]];
    let lack: [&[&[i64]]; 3] = [&[&[5]], &[&[6]], &[&[7]]];
    try_all(&rt, rt.alloc(), &kind, true, &have)?;
    try_all(&rt, rt.alloc(), &kind, false, &lack)
}

#[test]
fn rising_at_its_edges(rt: HostRuntime) -> Result<(), Fail> {
    let kind = PropKind::Rising(FIRST);
    let have: [&[&[i64]]; 6] = [
        &[&[]],
        &[&[5]],
        &[&[1, 1]],
        &[&[1, 2]],
        &[&[1, 2, 2, 3]],
        &[&[-3, -2, 0]],
    ];
    let lack: [&[&[i64]]; 5] = [
        &[&[2, 1]],
        &[&[3, 1, 2, 4]],
        &[&[1, 2, 4, 3]],
        &[&[1, 3, 2, 4]],
        &[&[0, -1]],
    ];
    try_all(&rt, rt.alloc(), &kind, true, &have)?;
    try_all(&rt, rt.alloc(), &kind, false, &lack)
}

#[test]
fn strict_at_its_edges(rt: HostRuntime) -> Result<(), Fail> {
    let kind = PropKind::Strict(FIRST);
    let have: [&[&[i64]]; 5] = [&[&[]], &[&[5]], &[&[1, 2]], &[&[1, 2, 3]], &[&[-1, 0, 1]]];
    let lack: [&[&[i64]]; 6] = [
        &[&[1, 1]],
        &[&[2, 1]],
        &[&[1, 1, 2]],
        &[&[1, 2, 2]],
        &[&[1, 3, 2, 4]],
        &[&[1, 2, 1]],
    ];
    try_all(&rt, rt.alloc(), &kind, true, &have)?;
    try_all(&rt, rt.alloc(), &kind, false, &lack)
}

#[test]
fn injective_at_its_edges(rt: HostRuntime) -> Result<(), Fail> {
    let kind = PropKind::Injective(FIRST);
    let have: [&[&[i64]]; 5] = [&[&[]], &[&[7]], &[&[3, 1, 2]], &[&[2, 1]], &[&[-1, 1]]];
    let lack: [&[&[i64]]; 5] = [
        &[&[7, 7]],
        &[&[7, 8, 7]],
        &[&[3, 3, 1]],
        &[&[1, 2, 2]],
        &[&[0, 0]],
    ];
    try_all(&rt, rt.alloc(), &kind, true, &have)?;
    try_all(&rt, rt.alloc(), &kind, false, &lack)
}

#[test]
fn sorted_at_its_edges(rt: HostRuntime) -> Result<(), Fail> {
    let kind = PropKind::Sorted(FIRST, SECOND);
    let have: [&[&[i64]]; 12] = [
        &[&[1, 2, 0, 5], &[0, 2, 4]],
        &[&[1, 2, 0, 5], &[0, 2, 2, 4]],
        &[&[9, 1, 2, 0], &[1, 3]],
        &[&[2, 1], &[]],
        &[&[2, 1], &[0]],
        &[&[2, 1], &[0, 1]],
        &[&[2, 1], &[1, 2]],
        &[&[], &[0, 2]],
        &[&[7], &[0, 1]],
        &[&[1, 2], &[0, 9]],
        &[&[1, 2], &[-2, 2]],
        &[&[1, 2, 3, 4], &[0, 3, 1, 4]],
    ];
    let lack: [&[&[i64]]; 8] = [
        &[&[1, 1, 0, 5], &[0, 2, 4]],
        &[&[2, 1, 0, 5], &[0, 2, 4]],
        &[&[1, 2, 5, 0], &[0, 2, 4]],
        &[&[1, 2, 5, 5], &[0, 2, 4]],
        &[&[9, 1, 2, 0], &[0, 3]],
        &[&[2, 1], &[0, 9]],
        &[&[2, 1], &[-2, 2]],
        &[&[1, 2, 3, 0], &[0, 3, 1, 4]],
    ];
    try_all(&rt, rt.alloc(), &kind, true, &have)?;
    try_all(&rt, rt.alloc(), &kind, false, &lack)
}

#[test]
fn below_at_its_edges(rt: HostRuntime) -> Result<(), Fail> {
    let kind = PropKind::Below(FIRST, SECOND);
    let have: [&[&[i64]]; 9] = [
        &[&[0, 0, 1], &[0, 0, 2, 3]],
        &[&[-1], &[0, 1]],
        &[&[0, 9], &[0, 0, 1]],
        &[&[9, 0], &[1, 1, 2]],
        &[&[9], &[]],
        &[&[9], &[0]],
        &[&[], &[0, 1]],
        &[&[0, 0], &[0, 0, 9]],
        &[&[0, 7, 7], &[2, 0, 1]],
    ];
    let lack: [&[&[i64]]; 7] = [
        &[&[0], &[0, 1]],
        &[&[1, 0, 1], &[0, 0, 2, 3]],
        &[&[0, 1, 1], &[0, 0, 2, 3]],
        &[&[0, 0, 2], &[0, 0, 2, 3]],
        &[&[0, 9], &[0, 0, 2]],
        &[&[9, 0], &[0, 0, 2]],
        &[&[1, 7, 7], &[2, 0, 1]],
    ];
    try_all(&rt, rt.alloc(), &kind, true, &have)?;
    try_all(&rt, rt.alloc(), &kind, false, &lack)
}

#[test]
fn upto_at_its_edges(rt: HostRuntime) -> Result<(), Fail> {
    let kind = PropKind::Upto(FIRST, SECOND);
    let have: [&[&[i64]]; 9] = [
        &[&[1, 0, 2], &[0, 0, 2, 3]],
        &[&[0], &[0, 1]],
        &[&[-1], &[0, 1]],
        &[&[1, 9], &[0, 0, 1]],
        &[&[9, 1], &[1, 1, 2]],
        &[&[9], &[]],
        &[&[9], &[0]],
        &[&[], &[0, 1]],
        &[&[1, 7, 7], &[2, 0, 1]],
    ];
    let lack: [&[&[i64]]; 6] = [
        &[&[1], &[0, 1]],
        &[&[2, 0, 2], &[0, 0, 2, 3]],
        &[&[1, 2, 2], &[0, 0, 2, 3]],
        &[&[1, 0, 3], &[0, 0, 2, 3]],
        &[&[1, 9], &[0, 0, 2]],
        &[&[2, 7, 7], &[2, 0, 1]],
    ];
    try_all(&rt, rt.alloc(), &kind, true, &have)?;
    try_all(&rt, rt.alloc(), &kind, false, &lack)
}

#[test]
fn diagonal_at_its_edges(rt: HostRuntime) -> Result<(), Fail> {
    let kind = PropKind::Diagonal(FIRST, SECOND, THIRD);
    let have: [&[&[i64]]; 5] = [
        &[&[0, 2], &[0, 5, 1], &[0, 1, 3]],
        &[&[0, 1], &[0, 1, 9], &[0, 1, 3]],
        &[&[0], &[0], &[0, 1]],
        &[&[], &[], &[]],
        &[&[], &[7], &[0, 1]],
    ];
    let lack: [&[&[i64]]; 10] = [
        &[&[1, 2], &[0, 0, 1], &[0, 1, 3]],
        &[&[0, 0], &[0, 1, 1], &[0, 1, 3]],
        &[&[0, 3], &[0, 1, 1, 1], &[0, 1, 3]],
        &[&[0, 2], &[0, 5, 0], &[0, 1, 3]],
        &[&[0, 2], &[1, 5, 1], &[0, 1, 3]],
        &[&[0], &[0], &[0]],
        &[&[0], &[0], &[]],
        &[&[0, 0], &[0, 1], &[0, 0, 1]],
        &[&[0, 1], &[0], &[0, 1, 2]],
        &[&[0, 1], &[0, 1], &[0, 2, 1]],
    ];
    try_all(&rt, rt.alloc(), &kind, true, &have)?;
    try_all(&rt, rt.alloc(), &kind, false, &lack)
}

#[test]
fn before_at_its_edges(rt: HostRuntime) -> Result<(), Fail> {
    let kind = PropKind::Before(FIRST, SECOND);
    let have: [&[&[i64]]; 6] = [
        &[&[1, 2], &[1, 3]],
        &[&[], &[]],
        &[&[], &[1]],
        &[&[1], &[1]],
        &[&[1], &[2, 0]],
        &[&[-2], &[-1]],
    ];
    let lack: [&[&[i64]]; 5] = [
        &[&[2, 2], &[1, 3]],
        &[&[1, 4], &[1, 3]],
        &[&[2], &[1]],
        &[&[1], &[]],
        &[&[-1], &[-2]],
    ];
    try_all(&rt, rt.alloc(), &kind, true, &have)?;
    try_all(&rt, rt.alloc(), &kind, false, &lack)
}
