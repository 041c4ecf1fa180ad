// The plans of relations of worked loops.
use crate::letters::{Planner, letters, letters_by};
use crate::texts::{COLUMNS, FORWARD, LOOSE_SCATTER, MAPPED_VALUES, SEIDEL};
use std::test::Fail;

// The row j and its entries p are looped, and i is the column of p.
#[test]
fn forward_substitution(rt: HostRuntime) -> Result<(), Fail> {
    let plan = letters(rt.alloc(), FORWARD, 3)?;
    assert!(rt; plan.as_slice() == b"L...L..=....E".as_slice());
    Ok(())
}

// The first side goes first: the row i and its entries p are looped, and j is the column of p.
#[test]
fn gauss_seidel(rt: HostRuntime) -> Result<(), Fail> {
    let plan = letters(rt.alloc(), SEIDEL, 31)?;
    assert!(rt; plan.as_slice() == b"L...L..=....E".as_slice());
    Ok(())
}

// The rows j and j' are looped after one another, and an entry of j' is found by its row.
#[test]
fn columns_below_columns(rt: HostRuntime) -> Result<(), Fail> {
    let plan = letters(rt.alloc(), COLUMNS, 9)?;
    assert!(rt; plan.as_slice() == b"L...L..L..F....E".as_slice());
    Ok(())
}

// A row j is found by the place that its entry of the file names.
#[test]
fn a_scatter_is_found(rt: HostRuntime) -> Result<(), Fail> {
    let plan = letters(rt.alloc(), LOOSE_SCATTER, 1)?;
    assert!(rt; plan.as_slice() == b"L...F....E".as_slice());
    Ok(())
}

// The row of an entry is located among the starts of the rows.
#[test]
fn rows_of_entries_are_located(rt: HostRuntime) -> Result<(), Fail> {
    let first = letters(rt.alloc(), MAPPED_VALUES, 2)?;
    let second = letters(rt.alloc(), MAPPED_VALUES, 4)?;
    assert!(rt; first.as_slice().contains(&b'S'));
    assert!(rt; second.as_slice().contains(&b'S'));
    Ok(())
}

// One by one, an entry of j' is found before its row, which is located among the starts of the columns.
#[test]
fn columns_one_by_one(rt: HostRuntime) -> Result<(), Fail> {
    let plan = letters_by(rt.alloc(), Planner::OneByOne, COLUMNS, 9)?;
    assert!(rt; plan.as_slice() == b"L...L..F..S....E".as_slice());
    Ok(())
}

// Where one by one no fewer variables are looped, the plan is that of the sides.
#[test]
fn forward_substitution_one_by_one(rt: HostRuntime) -> Result<(), Fail> {
    let plan = letters_by(rt.alloc(), Planner::OneByOne, FORWARD, 3)?;
    assert!(rt; plan.as_slice() == b"L...L..=....E".as_slice());
    Ok(())
}

// In the plain plan the rows and the entries are all looped.
#[test]
fn columns_plainly(rt: HostRuntime) -> Result<(), Fail> {
    let plan = letters_by(rt.alloc(), Planner::Plain, COLUMNS, 9)?;
    assert!(rt; plan.as_slice() == b"L...L..L..L....E".as_slice());
    Ok(())
}
