// How many relations of the worked loops are dropped, covered and kept.
use crate::judged::judged;
use crate::short::short;
use crate::texts::{
    AFTER_DIAGONAL, COLUMNS, DIAGONALS, DIVIDED, FACTORS, FALLING_FACTORS, FORWARD, LOOSE_SCATTER,
    SCATTER, SEIDEL, UNSORTED, UNSORTED_COLUMNS, UNSORTED_FACTORS,
};
use dep_simplify::verdict::Verdict;
use std::alloc::Global;
use std::test::Fail;

// How many there are, and how many are dropped, covered and kept.
fn counted(alloc: Global, text: &[u8]) -> Result<(usize, u32, u32, u32), Fail> {
    let verdicts = judged(alloc, text)?;
    let (mut dropped, mut covered, mut kept) = (0u32, 0u32, 0u32);
    for verdict in verdicts.as_slice() {
        match verdict {
            Verdict::Dropped(_) => dropped = dropped.wrapping_add(1),
            Verdict::Covered(_) => covered = covered.wrapping_add(1),
            Verdict::Kept => kept = kept.wrapping_add(1),
        }
    }
    Ok((verdicts.len(), dropped, covered, kept))
}

#[test]
fn forward_substitutions(rt: HostRuntime) -> Result<(), Fail> {
    assert_eq!(rt; counted(rt.alloc(), FORWARD)?, (12, 10, 1, 1));
    assert_eq!(rt; counted(rt.alloc(), DIVIDED)?, (27, 24, 2, 1));
    assert_eq!(rt; counted(rt.alloc(), SEIDEL)?, (56, 48, 6, 2));
    assert_eq!(rt; counted(rt.alloc(), COLUMNS)?, (16, 9, 5, 2));
    Ok(())
}

#[test]
fn factors_and_scatters(rt: HostRuntime) -> Result<(), Fail> {
    assert_eq!(rt; counted(rt.alloc(), FACTORS)?, (24, 22, 0, 2));
    assert_eq!(rt; counted(rt.alloc(), SCATTER)?, (1, 1, 0, 0));
    assert_eq!(rt; counted(rt.alloc(), LOOSE_SCATTER)?, (1, 0, 0, 1));
    Ok(())
}

#[test]
fn fewer_properties_drop_fewer(rt: HostRuntime) -> Result<(), Fail> {
    assert_eq!(rt; counted(rt.alloc(), UNSORTED)?, (12, 8, 2, 2));
    assert_eq!(rt; counted(rt.alloc(), UNSORTED_COLUMNS)?, (16, 5, 8, 3));
    assert_eq!(rt; counted(rt.alloc(), FALLING_FACTORS)?, (24, 0, 12, 12));
    assert_eq!(rt; counted(rt.alloc(), UNSORTED_FACTORS)?, (24, 20, 0, 4));
    Ok(())
}

// Relation 5 isn't covered by 4, whose atoms aren't all its own.
#[test]
fn a_cover_has_no_atoms_of_its_own(rt: HostRuntime) -> Result<(), Fail> {
    assert_eq!(rt;
        short(rt.alloc(), DIAGONALS)?.as_slice(),
        [0, 2, 3, 4, 5, 0].as_slice()
    );
    Ok(())
}

// Relation 5 covers 6 too.
#[test]
fn the_first_cover_is_named(rt: HostRuntime) -> Result<(), Fail> {
    let short = short(rt.alloc(), AFTER_DIAGONAL)?;
    assert_eq!(rt; short.get(5).copied(), Some(1));
    Ok(())
}
