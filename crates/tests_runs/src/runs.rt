// What runs with several workers print.
use crate::calls::{LOOP, MATRIX, RUN_TEXT, VECTOR, call, call_over, library, stream};
use std::test::Fail;
use wave_io::gate::Free;

pub const WIDE_MATRIX: &str =
    "%%MatrixMarket matrix coordinate integer general\n6 6 18\n1 1 1\n2 2 1\n3 1 1\n3 2 1\n3 3 1\n4 1 1\n4 2 1\n4 4 1\n5 1 1\n5 2 1\n5 3 1\n5 4 1\n5 5 1\n6 1 1\n6 2 1\n6 3 1\n6 4 1\n6 6 1\n";

pub const SIX: &str = "%%MatrixMarket matrix array integer general\n6 1\n1\n2\n3\n4\n5\n6\n";

pub const WIDE_TEXT: &str =
    "relations 12 dropped 10 covered 1 kept 1\nrows 6 stored 18 edges 12\nlevels 3 tasks 6 cross 6 waits 4\narray x 6\n1\n2\n0\n1\n1\n2\n";

const NO_ROWS: &str = "%%MatrixMarket matrix coordinate integer general\n0 0 0\n";

const NO_ENTRIES: &str = "%%MatrixMarket matrix array integer general\n0 1\n";

const ONE_MATRIX: &str = "%%MatrixMarket matrix coordinate integer general\n1 1 1\n1 1 1\n";

const ONE_VECTOR: &str = "%%MatrixMarket matrix array integer general\n1 1\n7\n";

#[test]
fn rows_in_a_chain(rt: HostRuntime) -> Result<(), Fail> {
    let files = [("L", LOOP), ("A", MATRIX), ("B", VECTOR)];
    for workers in ["1", "2", "3", "64"] {
        let outcome = call(&rt, &["run", "L", "A", workers, "B"], &files)?;
        assert!(rt; outcome.is(0, RUN_TEXT, ""), "{workers}");
    }
    Ok(())
}

#[test]
fn waits_between_workers(rt: HostRuntime) -> Result<(), Fail> {
    let files = [("L", LOOP), ("A", WIDE_MATRIX), ("B", SIX)];
    let outcome = call(&rt, &["run", "L", "A", "2", "B"], &files)?;
    assert!(rt; outcome.is(0, WIDE_TEXT, ""));
    Ok(())
}

#[test]
fn no_rows(rt: HostRuntime) -> Result<(), Fail> {
    let wanted =
        "relations 12 dropped 10 covered 1 kept 1\nrows 0 stored 0 edges 0\nlevels 0 tasks 0 cross 0 waits 0\narray x 0\n";
    let files = [("L", LOOP), ("A", NO_ROWS), ("B", NO_ENTRIES)];
    let outcome = call(&rt, &["run", "L", "A", "2", "B"], &files)?;
    assert!(rt; outcome.is(0, wanted, ""));
    Ok(())
}

#[test]
fn one_row_on_64_workers(rt: HostRuntime) -> Result<(), Fail> {
    let wanted =
        "relations 12 dropped 10 covered 1 kept 1\nrows 1 stored 1 edges 0\nlevels 1 tasks 1 cross 0 waits 0\narray x 1\n7\n";
    let files = [("L", LOOP), ("A", ONE_MATRIX), ("B", ONE_VECTOR)];
    let outcome = call(&rt, &["run", "L", "A", "64", "B"], &files)?;
    assert!(rt; outcome.is(0, wanted, ""));
    Ok(())
}

#[test]
fn a_stream_that_takes_a_byte_at_once_gets_all(rt: HostRuntime) -> Result<(), Fail> {
    let files = [("L", LOOP), ("A", MATRIX), ("B", VECTOR)];
    let lib = library(rt.alloc(), &files, &[])?;
    let out = stream(rt.alloc(), 1000, 1)?;
    let outcome = call_over(&rt, &["run", "L", "A", "2", "B"], lib, out, &Free)?;
    assert!(rt; outcome.is(0, RUN_TEXT, ""));
    Ok(())
}

#[test]
fn a_stream_without_room_is_a_fault(rt: HostRuntime) -> Result<(), Fail> {
    let files = [("L", LOOP), ("A", MATRIX), ("B", VECTOR)];
    let lib = library(rt.alloc(), &files, &[])?;
    let out = stream(rt.alloc(), 7, 1000)?;
    let outcome = call_over(&rt, &["run", "L", "A", "2", "B"], lib, out, &Free)?;
    assert!(rt; outcome.is(8, "relatio", "write\n"));
    Ok(())
}

#[test]
fn the_third_fetch_may_fail(rt: HostRuntime) -> Result<(), Fail> {
    let files = [("L", LOOP), ("A", MATRIX), ("B", VECTOR)];
    let lib = library(rt.alloc(), &files, &[3])?;
    let out = stream(rt.alloc(), 1000, 1000)?;
    let outcome = call_over(&rt, &["run", "L", "A", "2", "B"], lib, out, &Free)?;
    assert!(rt; outcome.status.code() == 7 && outcome.out.is_empty());
    Ok(())
}
