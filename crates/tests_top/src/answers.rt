// What whole calls answer, over files in memory.
use crate::calls::{
    LOOP, MATRIX, ONE_VECTOR, RUN, RUN_TEXT, VECTOR, call, library, stream, strings,
};
use std::test::Fail;
use wave_main::status::Status;
use wave_main::top::quiet_main;

pub const ONE_MATRIX: &str = "%%MatrixMarket matrix coordinate integer general\n1 1 1\n1 1 1\n";

pub const BY_COLUMNS: &str =
    "matrix a csc\nvector x n file\nrange a.ptr 0 nnz+1\nrange a.row 0 n\nrising a.ptr\nsorted a.row by a.ptr\ndiagonal a.diag of a.row by a.ptr\nloop j\n  set x[j] = x[j] / a.val[a.diag[j]]\n  for p in a.diag[j]+1..a.ptr[j+1]\n    set x[a.row[p]] = x[a.row[p]] - a.val[p] * x[j]\n  end\nend\n";

pub const BY_COLUMNS_MATRIX: &str =
    "%%MatrixMarket matrix coordinate integer general\n4 4 6\n1 1 1\n2 2 1\n3 3 1\n4 4 1\n4 2 2\n4 3 3\n";

pub const BY_COLUMNS_VECTOR: &str =
    "%%MatrixMarket matrix array integer general\n4 1\n5\n1\n2\n20\n";

pub const NO_DIAGONAL: &str =
    "%%MatrixMarket matrix coordinate integer general\n3 3 4\n1 1 1\n2 1 2\n3 2 3\n3 3 1\n";

const CHECK: [&str; 4] = ["check", "L", "A", "B"];

pub const SCATTER: &str =
    "matrix a csr\nindex q n\nvector x n zero\nrange q 0 n\nloop i\n  set x[q[i]] = 5\nend\n";

pub const PLACES: &str = "%%MatrixMarket matrix array integer general\n3 1\n2\n0\n1\n";

#[test]
fn runs_print_the_numbers_and_the_solution(rt: HostRuntime) -> Result<(), Fail> {
    let table = [
        (LOOP, MATRIX, VECTOR, RUN_TEXT),
        (
            LOOP,
            ONE_MATRIX,
            ONE_VECTOR,
            "relations 12 dropped 10 covered 1 kept 1\nrows 1 stored 1 edges 0\nlevels 1 tasks 1 cross 0 waits 0\narray x 1\n7\n",
        ),
        (
            BY_COLUMNS,
            BY_COLUMNS_MATRIX,
            BY_COLUMNS_VECTOR,
            "relations 16 dropped 9 covered 5 kept 2\nrows 4 stored 6 edges 3\nlevels 3 tasks 3 cross 0 waits 0\narray x 4\n5\n1\n2\n12\n",
        ),
        (
            SCATTER,
            MATRIX,
            PLACES,
            "relations 1 dropped 0 covered 0 kept 1\nrows 3 stored 5 edges 0\nlevels 1 tasks 1 cross 0 waits 0\narray x 3\n5\n5\n5\n",
        ),
    ];
    for (text, matrix, vector, wanted) in table {
        let outcome = call(&rt, &RUN, &[("L", text), ("A", matrix), ("B", vector)])?;
        assert!(rt; outcome.is(0, wanted, ""));
    }
    Ok(())
}

#[test]
fn words_of_no_command_are_refused(rt: HostRuntime) -> Result<(), Fail> {
    let table: [(&[&str], &str); 9] = [
        (&[], "usage word 0\n"),
        (&["walk"], "usage word 0\n"),
        (&["run", "L"], "usage word 2\n"),
        (&["run", "L", "A", "65"], "usage word 3\n"),
        (&["explain", "L", "L"], "usage word 2\n"),
        (&["demo", "grid", "0", "1"], "usage word 2\n"),
        (&["demo", "grid"], "usage word 2\n"),
        (&["show"], "usage word 1\n"),
        (&["show", "L", "L"], "usage word 2\n"),
    ];
    for (words, line) in table {
        let outcome = call(&rt, words, &[])?;
        assert!(rt; outcome.is(2, "", line), "{line}");
    }
    Ok(())
}

#[test]
fn the_first_faulty_file_is_named(rt: HostRuntime) -> Result<(), Fail> {
    let real = "%%MatrixMarket matrix coordinate real general\n3 3 0\n";
    let wide = "%%MatrixMarket matrix coordinate integer general\n2 3 0\n";
    let twice = "matrix a csr\nloop a\nend\n";
    let constant = "matrix a csr\nloop i\nwhen 1048577 < n\nend\nend\n";
    let below = "matrix a csr\nindex q n\nvector x n zero\nloop i\n  set x[q[i]] = x[i-1]\nend\n";
    let above = "matrix a csr\nvector x n zero\nvector y nnz zero\nloop i\n  set y[i] = 5\nend\n";
    let length = "shape length word 4 have 1 want 3\n";
    let table = [
        ("x\n", real, VECTOR, 3, "loop text line 1\n"),
        (twice, real, VECTOR, 4, "loop name line 2 twice\n"),
        (constant, real, VECTOR, 5, "loop limit line 3 constant\n"),
        (
            below,
            real,
            VECTOR,
            6,
            "loop unbounded line 5 bracket 1 low\n",
        ),
        (
            above,
            real,
            VECTOR,
            6,
            "loop unbounded line 5 bracket 1 high\n",
        ),
        (LOOP, real, "x", 9, "matrix word 2 field 4\n"),
        (LOOP, wide, "x", 9, "matrix word 4 header\n"),
        (LOOP, wide, VECTOR, 10, "shape rows 2 columns 3\n"),
        (LOOP, MATRIX, ONE_VECTOR, 10, length),
        (LOOP, NO_DIAGONAL, ONE_VECTOR, 10, length),
        (
            LOOP,
            NO_DIAGONAL,
            VECTOR,
            11,
            "property 5 first 1 second 1\n",
        ),
    ];
    for (text, matrix, vector, code, line) in table {
        let outcome = call(&rt, &RUN, &[("L", text), ("A", matrix), ("B", vector)])?;
        assert!(rt; outcome.is(code, "", line), "{line}");
    }
    Ok(())
}

#[test]
fn faults_inside_a_matrix_are_named(rt: HostRuntime) -> Result<(), Fail> {
    let size = "%%MatrixMarket matrix coordinate integer general\n3 3\n";
    let entry = "%%MatrixMarket matrix coordinate integer general\n3 3 1\n4 1 1\n";
    let short = "%%MatrixMarket matrix coordinate integer general\n3 3 2\n1 1 1\n";
    let extra = "%%MatrixMarket matrix coordinate integer general\n3 3 1\n1 1 1\n1 1 1\n";
    let big = "%%MatrixMarket matrix coordinate integer general\n1 1048577 1\n";
    let table = [
        (size, "matrix word 2 size line 2\n"),
        (entry, "matrix word 2 entry line 3 range\n"),
        (short, "matrix word 2 short have 1 want 2\n"),
        (extra, "matrix word 2 extra line 4\n"),
        (big, "matrix word 2 big columns 1048577\n"),
    ];
    for (matrix, line) in table {
        let outcome = call(&rt, &RUN, &[("L", LOOP), ("A", matrix), ("B", VECTOR)])?;
        assert!(rt; outcome.is(9, "", line), "{line}");
    }
    Ok(())
}

#[test]
fn files_are_counted_and_each_is_read(rt: HostRuntime) -> Result<(), Fail> {
    let files = [("L", LOOP), ("A", MATRIX), ("B", VECTOR)];
    let none = call(&rt, &["run", "L", "A", "1"], &files)?;
    let surplus = call(&rt, &["run", "L", "A", "1", "B", "L"], &files)?;
    assert!(rt; none.is(10, "", "shape files have 0 want 1\n"));
    assert!(rt; surplus.is(9, "", "matrix word 5 header\n"));
    Ok(())
}

#[test]
fn shows_the_loop(rt: HostRuntime) -> Result<(), Fail> {
    let spaced = "# a comment\n\nmatrix  a\tcsr\r\nloop i\nwhen 007<=n+0\nend\nend";
    let plain = call(&rt, &["show", "L"], &[("L", LOOP)])?;
    let other = call(&rt, &["show", "L"], &[("L", spaced)])?;
    assert!(rt; plain.is(0, LOOP, ""));
    assert!(rt; other.is(0, "matrix a csr\nloop i\n  when 7 <= n\n  end\nend\n", ""));
    Ok(())
}

#[test]
fn checks_count_the_properties(rt: HostRuntime) -> Result<(), Fail> {
    let twice = "matrix a csr\nrising a.ptr\nrising a.ptr\nloop i\nend\n";
    let files = [("L", LOOP), ("A", MATRIX), ("B", VECTOR)];
    let five = call(&rt, &CHECK, &files)?;
    let two = call(&rt, &["check", "L", "A"], &[("L", twice), ("A", MATRIX)])?;
    assert!(rt; five.is(0, "passed 5\n", ""));
    assert!(rt; two.is(0, "passed 2\n", ""));
    Ok(())
}

#[test]
fn checks_refuse_as_runs(rt: HostRuntime) -> Result<(), Fail> {
    let broken = [("L", LOOP), ("A", NO_DIAGONAL), ("B", VECTOR)];
    let short = [("L", LOOP), ("A", NO_DIAGONAL), ("B", ONE_VECTOR)];
    let property = call(&rt, &CHECK, &broken)?;
    let shape = call(&rt, &CHECK, &short)?;
    assert!(rt; property.is(11, "", "property 5 first 1 second 1\n"));
    assert!(rt; shape.is(10, "", "shape length word 3 have 1 want 3\n"));
    Ok(())
}

#[test]
fn the_quiet_call_leaves_runs_to_others(rt: HostRuntime) -> Result<(), Fail> {
    let alloc = rt.alloc();
    for (words, wanted) in [
        (["show", "L"], Status::Done),
        (["check", "L"], Status::Usage { word: 2 }),
        (["explain", "L"], Status::Done),
        (["plan", "L"], Status::Usage { word: 2 }),
        (["run", "L"], Status::Usage { word: 0 }),
        (["demo", "grid"], Status::Usage { word: 0 }),
    ] {
        let words = strings(alloc, &words)?;
        let mut lib = library(alloc, &[("L", LOOP)], &[])?;
        let mut out = stream(alloc, 1000, 1000)?;
        let mut err = stream(alloc, 100, 100)?;
        assert!(rt; words.len() < 100);
        let status = quiet_main(&rt, words.as_slice(), &mut lib, &mut out, &mut err);
        assert_eq!(rt; status, wanted);
    }
    Ok(())
}
