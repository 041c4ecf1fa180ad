// Weights of rows that are known by hand.
use crate::parts::Part;
use crate::parts::Part::{At, Begin, For, Lit, Num, Set, Var};
use crate::touched::{FORWARD_BY_COLUMNS, by_columns, four_columns};
use loop_core::depth::has_depth_within;
use loop_meaning::weights::weights;
use std::alloc::Global;
use std::process::Abort;
use std::test::Fail;

const MOST: u64 = 4294967296;

fn weights_of(rt: &impl Abort, alloc: Global, parts: &[Part]) -> Result<Vec<u64>, Fail> {
    let nest = by_columns(alloc, parts)?;
    let arrays = four_columns(alloc)?;
    assert!(rt; has_depth_within(nest.body.as_slice(), 5));
    Ok(weights(alloc, &nest, &arrays)?)
}

// Columns 1 and 2 have one entry below the diagonal.
#[test]
fn a_row_weighs_its_statements_and_one(rt: HostRuntime) -> Result<(), Fail> {
    let weights = weights_of(&rt, rt.alloc(), &FORWARD_BY_COLUMNS)?;
    assert!(rt; weights.as_slice() == [2, 3, 3, 2].as_slice());
    Ok(())
}

// Row i has i loops of two statements, and a statement after each of them.
#[test]
fn loops_in_loops_are_walked(rt: HostRuntime) -> Result<(), Fail> {
    let parts = [
        Num(0),
        Var(1),
        Begin,
        Num(0),
        Num(2),
        Begin,
        Num(0),
        Lit(1),
        Set(4),
        For(3),
        Num(0),
        Lit(1),
        Set(4),
        For(2),
    ];
    let weights = weights_of(&rt, rt.alloc(), &parts)?;
    assert!(rt; weights.as_slice() == [1, 4, 7, 10].as_slice());
    Ok(())
}

// A loop of statements is counted by its length, and a row is walked no further than what counts.
#[test]
fn long_rows_weigh_the_most(rt: HostRuntime) -> Result<(), Fail> {
    let parts = [
        Num(0),
        Num(4611686018427387904),
        Begin,
        Num(0),
        Num(2147483648),
        Begin,
        Num(0),
        Lit(1),
        Set(4),
        For(3),
        For(2),
    ];
    let weights = weights_of(&rt, rt.alloc(), &parts)?;
    assert!(rt; weights.as_slice() == [MOST, MOST, MOST, MOST].as_slice());
    Ok(())
}

// No row has an instance where the upper bound is not above the lower one.
#[test]
fn empty_rows_weigh_one(rt: HostRuntime) -> Result<(), Fail> {
    let parts = [Num(7), Var(1), At(0), Begin, Num(0), Lit(1), Set(4), For(2)];
    let weights = weights_of(&rt, rt.alloc(), &parts)?;
    assert!(rt; weights.as_slice() == [1, 1, 1, 1].as_slice());
    Ok(())
}
