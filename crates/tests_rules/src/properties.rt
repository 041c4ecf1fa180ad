// The first failure of a declared property, by known places.
use loop_core::arrays::Arrays;
use loop_core::decl::{PropDecl, PropKind};
use loop_core::nest::{Atom, Term};
use prop_check::check::{CheckRefusal, Passed, check};
use prop_check::plain::check_by_pairs;
use std::alloc::Global;
use std::process::Abort;
use std::test::Fail;
use wave_base::types::ArrayId;
use wave_base::words::Words;

const FIRST: ArrayId = ArrayId(0);

const SECOND: ArrayId = ArrayId(1);

// Arrays of these two lists, where n is 4 and nnz is 6.
fn arrays_of(alloc: Global, first: &[i64], second: &[i64]) -> Result<Arrays, Fail> {
    let mut words = Vec::new(alloc);
    words.push(Words::from_vec(Vec::from_slice(alloc, first)?))?;
    words.push(Words::from_vec(Vec::from_slice(alloc, second)?))?;
    Ok(Arrays::of(4, 6, words))
}

// What the check says of one property of two lists: the property's number and its places, zeros
// where it holds, and none where memory ran out.
fn said(
    alloc: Global,
    kind: PropKind,
    first: &[i64],
    second: &[i64],
) -> Result<Option<(u32, u64, u64)>, Fail> {
    let arrays = arrays_of(alloc, first, second)?;
    let props = [PropDecl { line: 1, kind }];
    Ok(shown(check(alloc, &props, &arrays)))
}

fn shown(answer: Result<Passed, CheckRefusal>) -> Option<(u32, u64, u64)> {
    match answer {
        Ok(_) => Some((0, 0, 0)),
        Err(
            CheckRefusal::Broken {
                property,
                first,
                second,
            },
        ) => Some((property, first, second)),
        Err(CheckRefusal::Memory) => None,
    }
}

fn bound(atom: Atom, plus: i64) -> Term {
    Term { atom, plus }
}

// the least segment goes first, which isn't that of the least place
#[test]
fn the_least_segment_goes_first(rt: HostRuntime) -> Result<(), Fail> {
    let kind = PropKind::Sorted(FIRST, SECOND);
    let found = said(rt.alloc(), kind, &[9, 8, 0, 1, 5, 4], &[3, 6, 0, 3])?;
    assert_eq!(rt; found, Some((1, 4, 5)));
    Ok(())
}

// a segment of all numbers, then none
#[test]
fn segments_may_go_past_every_end(rt: HostRuntime) -> Result<(), Fail> {
    let kind = PropKind::Sorted(FIRST, SECOND);
    let found = said(rt.alloc(), kind, &[1, 2, 2, 4], &[i64::MIN, i64::MAX, 0])?;
    assert_eq!(rt; found, Some((1, 1, 2)));
    Ok(())
}

// entries fall from one segment to the next
#[test]
fn sorted_within_segments(rt: HostRuntime) -> Result<(), Fail> {
    let kind = PropKind::Sorted(FIRST, SECOND);
    let found = said(rt.alloc(), kind, &[1, 5, 2, 4], &[0, 2, 4])?;
    assert_eq!(rt; found, Some((0, 0, 0)));
    Ok(())
}

// the segment from 0 to 3 is the third
#[test]
fn below_in_a_later_segment(rt: HostRuntime) -> Result<(), Fail> {
    let kind = PropKind::Below(FIRST, SECOND);
    let found = said(rt.alloc(), kind, &[0, 0, 5, 0, 0, 0], &[6, 2, 0, 3])?;
    assert_eq!(rt; found, Some((1, 2, 2)));
    Ok(())
}

// a later segment has the lesser place
#[test]
fn upto_in_the_first_segment(rt: HostRuntime) -> Result<(), Fail> {
    let kind = PropKind::Upto(FIRST, SECOND);
    let found = said(rt.alloc(), kind, &[0, 0, 3, 0, 1, 0], &[3, 6, 0, 3])?;
    assert_eq!(rt; found, Some((1, 0, 4)));
    Ok(())
}

// entries may be the number of their segment
#[test]
fn upto_takes_its_own_number(rt: HostRuntime) -> Result<(), Fail> {
    let kind = PropKind::Upto(FIRST, SECOND);
    let found = said(rt.alloc(), kind, &[0, 1, 1], &[0, 1, 3])?;
    assert_eq!(rt; found, Some((0, 0, 0)));
    Ok(())
}

// entries of the first segment are never below 0
#[test]
fn below_does_not(rt: HostRuntime) -> Result<(), Fail> {
    let kind = PropKind::Below(FIRST, SECOND);
    let found = said(rt.alloc(), kind, &[-1, 0, 0], &[0, 1, 3])?;
    assert_eq!(rt; found, Some((0, 0, 0)));
    Ok(())
}

// two pairs, of which one ends first
#[test]
fn nearest_pair_of_equal_entries(rt: HostRuntime) -> Result<(), Fail> {
    let kind = PropKind::Injective(FIRST);
    let found = said(rt.alloc(), kind, &[5, 3, 3, 5], &[])?;
    assert_eq!(rt; found, Some((1, 1, 2)));
    Ok(())
}

// the second place decides
#[test]
fn first_of_equal_entries(rt: HostRuntime) -> Result<(), Fail> {
    let kind = PropKind::Injective(FIRST);
    let found = said(rt.alloc(), kind, &[5, 3, 5, 3], &[])?;
    assert_eq!(rt; found, Some((1, 0, 2)));
    Ok(())
}

// of three the first two
#[test]
fn three_equal_entries(rt: HostRuntime) -> Result<(), Fail> {
    let kind = PropKind::Injective(FIRST);
    let found = said(rt.alloc(), kind, &[7, 4, 4, 4], &[])?;
    assert_eq!(rt; found, Some((1, 1, 2)));
    Ok(())
}

// equal neighbours are no fall
#[test]
fn rising_allows_equal_entries(rt: HostRuntime) -> Result<(), Fail> {
    let kind = PropKind::Rising(FIRST);
    let found = said(rt.alloc(), kind, &[1, 1, 3, 2], &[])?;
    assert_eq!(rt; found, Some((1, 2, 3)));
    Ok(())
}

// equal neighbours don't rise
#[test]
fn strict_allows_none(rt: HostRuntime) -> Result<(), Fail> {
    let kind = PropKind::Strict(FIRST);
    let found = said(rt.alloc(), kind, &[1, 1, 3, 2], &[])?;
    assert_eq!(rt; found, Some((1, 0, 1)));
    Ok(())
}

// from 1 up to but not including n, which is 4
#[test]
fn upper_bound_is_out(rt: HostRuntime) -> Result<(), Fail> {
    let kind = PropKind::Range(FIRST, bound(Atom::Zero, 1), bound(Atom::N, 0));
    let found = said(rt.alloc(), kind, &[1, 3, 4, 0], &[])?;
    assert_eq!(rt; found, Some((1, 2, 2)));
    Ok(())
}

// the second list is shorter, and is 0 past its end
#[test]
fn before_at_the_least_place(rt: HostRuntime) -> Result<(), Fail> {
    let kind = PropKind::Before(FIRST, SECOND);
    let found = said(rt.alloc(), kind, &[0, 2, 1], &[0, 2])?;
    assert_eq!(rt; found, Some((1, 2, 2)));
    Ok(())
}

// entry 1 is the place 1, which lies in segment 0
#[test]
fn diagonal_in_its_segment(rt: HostRuntime) -> Result<(), Fail> {
    let kind = PropKind::Diagonal(FIRST, FIRST, SECOND);
    let found = said(rt.alloc(), kind, &[0, 1], &[0, 2, 3])?;
    assert_eq!(rt; found, Some((1, 1, 1)));
    Ok(())
}

// the second of three properties fails, and so does the third
#[test]
fn first_failing_property(rt: HostRuntime) -> Result<(), Fail> {
    let alloc = rt.alloc();
    let arrays = arrays_of(alloc, &[0, 2, 1], &[1, 1])?;
    let props = [
        PropDecl {
            line: 1,
            kind: PropKind::Rising(SECOND),
        },
        PropDecl {
            line: 2,
            kind: PropKind::Rising(FIRST),
        },
        PropDecl {
            line: 3,
            kind: PropKind::Strict(SECOND),
        },
    ];
    assert_eq!(rt; shown(check(alloc, &props, &arrays)), Some((2, 1, 2)));
    Ok(())
}

#[test]
fn without_properties_all_pass(rt: HostRuntime) -> Result<(), Fail> {
    let alloc = rt.alloc();
    let arrays = arrays_of(alloc, &[], &[])?;
    assert_eq!(rt; shown(check(alloc, &[], &arrays)), Some((0, 0, 0)));
    Ok(())
}

// Numbers from -1 to 6, made from a counter.
fn made(alloc: Global, seed: u64, many: u64) -> Result<Vec<i64>, Fail> {
    let mut list = Vec::new(alloc);
    for k in 0..many {
        let mixed = seed.wrapping_add(k).wrapping_mul(11400714819323198485) >> 59;
        list.push((mixed % 8).cast_signed().wrapping_sub(1))?;
    }
    Ok(list)
}

fn made_arrays(alloc: Global, seed: u64) -> Result<Arrays, Fail> {
    let first = made(alloc, seed, seed % 7)?;
    let second = made(alloc, seed.wrapping_mul(31), 5)?;
    arrays_of(alloc, first.as_slice(), second.as_slice())
}

fn agree(alloc: Global, props: &[PropDecl], arrays: &Arrays) -> bool {
    props.len() > 9 || shown(check(alloc, props, arrays)) == shown(check_by_pairs(props, arrays))
}

// Whether both bodies agree on a property, whatever the arrays.
fn always_agree(alloc: Global, kind: PropKind) -> Result<bool, Fail> {
    let props = [PropDecl { line: 1, kind }];
    for seed in 0..400 {
        let arrays = made_arrays(alloc, seed)?;
        if !agree(alloc, &props, &arrays) {
            return Ok(false);
        }
    }
    Ok(true)
}

#[test]
fn both_bodies_agree_on_entries(rt: HostRuntime) -> Result<(), Fail> {
    let alloc = rt.alloc();
    let range = PropKind::Range(FIRST, bound(Atom::Zero, 0), bound(Atom::N, 2));
    let ranges = always_agree(alloc, range)?;
    let befores = always_agree(alloc, PropKind::Before(FIRST, SECOND))?;
    let diagonals = always_agree(alloc, PropKind::Diagonal(FIRST, FIRST, SECOND))?;
    assert!(rt; ranges && befores && diagonals);
    Ok(())
}

#[test]
fn both_bodies_agree_on_pairs(rt: HostRuntime) -> Result<(), Fail> {
    let alloc = rt.alloc();
    let rising = always_agree(alloc, PropKind::Rising(FIRST))?;
    let strict = always_agree(alloc, PropKind::Strict(FIRST))?;
    let injective = always_agree(alloc, PropKind::Injective(FIRST))?;
    assert!(rt; rising && strict && injective);
    Ok(())
}

#[test]
fn both_bodies_agree_on_segments(rt: HostRuntime) -> Result<(), Fail> {
    let alloc = rt.alloc();
    let sorted = always_agree(alloc, PropKind::Sorted(FIRST, SECOND))?;
    let below = always_agree(alloc, PropKind::Below(FIRST, SECOND))?;
    let upto = always_agree(alloc, PropKind::Upto(FIRST, SECOND))?;
    assert!(rt; sorted && below && upto);
    Ok(())
}
