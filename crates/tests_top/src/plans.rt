// What plans print.
use crate::answers::{
    BY_COLUMNS, BY_COLUMNS_MATRIX, BY_COLUMNS_VECTOR, NO_DIAGONAL, ONE_MATRIX, PLACES, SCATTER,
};
use crate::calls::{LOOP, MATRIX, ONE_VECTOR, VECTOR, call};
use std::test::Fail;

pub const WIDE_MATRIX: &str =
    "%%MatrixMarket matrix coordinate integer general\n6 6 18\n1 1 1\n2 2 1\n3 1 1\n3 2 1\n3 3 1\n4 1 1\n4 2 1\n4 4 1\n5 1 1\n5 2 1\n5 3 1\n5 4 1\n5 5 1\n6 1 1\n6 2 1\n6 3 1\n6 4 1\n6 6 1\n";

pub const SIX: &str = "%%MatrixMarket matrix array integer general\n6 1\n1\n2\n3\n4\n5\n6\n";

const NO_ROWS: &str = "%%MatrixMarket matrix coordinate integer general\n0 0 0\n";

const NO_ENTRIES: &str = "%%MatrixMarket matrix array integer general\n0 1\n";

const TWICE: &str = "%%MatrixMarket matrix array integer general\n3 1\n1\n1\n0\n";

#[test]
fn each_worker_has_its_tasks_with_their_waits(rt: HostRuntime) -> Result<(), Fail> {
    let wanted =
        "relations 12 dropped 10 covered 1 kept 1\nrows 6 stored 18 edges 12\nlevels 3 tasks 6 cross 6 waits 4\nchain 0 2 4\nworker 0\ntask rows 0 waits\ntask rows 2 waits 1:1\ntask rows 4 waits 1:2\nworker 1\ntask rows 1 waits\ntask rows 3 waits 0:1\ntask rows 5 waits 0:2\n";
    let files = [("L", LOOP), ("A", WIDE_MATRIX), ("B", SIX)];
    let outcome = call(&rt, &["plan", "L", "A", "2", "B"], &files)?;
    assert!(rt; outcome.is(0, wanted, ""));
    Ok(())
}

#[test]
fn a_level_is_shared_by_the_work_of_its_rows(rt: HostRuntime) -> Result<(), Fail> {
    let wanted =
        "relations 16 dropped 9 covered 5 kept 2\nrows 4 stored 6 edges 3\nlevels 3 tasks 3 cross 0 waits 0\nchain 1 2 3\nworker 0\ntask rows 0 1 waits\ntask rows 2 waits\ntask rows 3 waits\nworker 1\n";
    let files = [
        ("L", BY_COLUMNS),
        ("A", BY_COLUMNS_MATRIX),
        ("B", BY_COLUMNS_VECTOR),
    ];
    let outcome = call(&rt, &["plan", "L", "A", "2", "B"], &files)?;
    assert!(rt; outcome.is(0, wanted, ""));
    Ok(())
}

#[test]
fn without_rows_the_chain_is_empty(rt: HostRuntime) -> Result<(), Fail> {
    let wanted =
        "relations 12 dropped 10 covered 1 kept 1\nrows 0 stored 0 edges 0\nlevels 0 tasks 0 cross 0 waits 0\nchain\nworker 0\nworker 1\n";
    let files = [("L", LOOP), ("A", NO_ROWS), ("B", NO_ENTRIES)];
    let outcome = call(&rt, &["plan", "L", "A", "2", "B"], &files)?;
    assert!(rt; outcome.is(0, wanted, ""));
    Ok(())
}

/// Rows 0 and 1 write one place, so the second waits for the first.
#[test]
fn rows_that_write_one_place_are_found(rt: HostRuntime) -> Result<(), Fail> {
    let wanted =
        "relations 1 dropped 0 covered 0 kept 1\nrows 3 stored 5 edges 1\nlevels 2 tasks 3 cross 0 waits 0\nchain 0 1\nworker 0\ntask rows 0 waits\ntask rows 1 waits\nworker 1\ntask rows 2 waits\nworker 2\n";
    let files = [("L", SCATTER), ("A", MATRIX), ("Q", TWICE)];
    let outcome = call(&rt, &["plan", "L", "A", "3", "Q"], &files)?;
    let apart = call(
        &rt,
        &["plan", "L", "A", "1", "Q"],
        &[("L", SCATTER), ("A", MATRIX), ("Q", PLACES)],
    )?;
    assert!(rt; outcome.is(0, wanted, ""));
    assert!(rt;
        apart.is(
            0,
            "relations 1 dropped 0 covered 0 kept 1\nrows 3 stored 5 edges 0\nlevels 1 tasks 1 cross 0 waits 0\nchain 0\nworker 0\ntask rows 0 1 2 waits\n",
            "",
        )
    );
    Ok(())
}

#[test]
fn one_row_is_planned_for_64_workers(rt: HostRuntime) -> Result<(), Fail> {
    let begin =
        "relations 12 dropped 10 covered 1 kept 1\nrows 1 stored 1 edges 0\nlevels 1 tasks 1 cross 0 waits 0\nchain 0\nworker 0\ntask rows 0 waits\nworker 1\n";
    let files = [("L", LOOP), ("A", ONE_MATRIX), ("B", ONE_VECTOR)];
    let outcome = call(&rt, &["plan", "L", "A", "64", "B"], &files)?;
    assert!(rt; outcome.out.as_slice().starts_with(begin.as_bytes()));
    assert!(rt; outcome.out.as_slice().ends_with(b"worker 62\nworker 63\n"));
    Ok(())
}

#[test]
fn plans_refuse_as_runs(rt: HostRuntime) -> Result<(), Fail> {
    let words = ["plan", "L", "A", "2", "B"];
    let property = call(
        &rt,
        &words,
        &[("L", LOOP), ("A", NO_DIAGONAL), ("B", VECTOR)],
    )?;
    let shape = call(
        &rt,
        &words,
        &[("L", LOOP), ("A", MATRIX), ("B", ONE_VECTOR)],
    )?;
    let missing = call(&rt, &words, &[("L", LOOP), ("A", MATRIX)])?;
    assert!(rt; property.is(11, "", "property 5 first 1 second 1\n"));
    assert!(rt; shape.is(10, "", "shape length word 4 have 1 want 3\n"));
    assert!(rt; missing.is(7, "", "read word 4\n"));
    Ok(())
}
