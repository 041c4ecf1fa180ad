// What demos print, and whom they let pass.
use crate::calls::{call, call_over, call_through, library, stream};
use crate::gates::Counts;
use std::test::Fail;
use wave_io::gate::Free;

const GRID_TEXT: &str =
    "demo grid 100 workers 4\nrelations 27 dropped 24 covered 2 kept 1\nrows 10000 stored 49600 edges 19800\nlevels 199 tasks 783 cross 588 waits 588\nsum x 50005000\n";

const FOUR_TEXT: &str =
    "demo grid 2 workers 2\nrelations 27 dropped 24 covered 2 kept 1\nrows 4 stored 12 edges 4\nlevels 3 tasks 4 cross 2 waits 2\nsum x 10\n";

#[test]
fn a_grid_of_ten_thousand_points(rt: HostRuntime) -> Result<(), Fail> {
    let outcome = call(&rt, &["demo", "grid", "100", "4"], &[])?;
    assert!(rt; outcome.is(0, GRID_TEXT, ""));
    Ok(())
}

/// The answer is 1, 2, 3 and so on, whatever the side.
#[test]
fn grids_have_a_known_sum(rt: HostRuntime) -> Result<(), Fail> {
    let table = [
        ("1", "sum x 1\n"),
        ("2", "sum x 10\n"),
        ("3", "sum x 45\n"),
        ("4", "sum x 136\n"),
        ("5", "sum x 325\n"),
        ("6", "sum x 666\n"),
        ("7", "sum x 1225\n"),
        ("8", "sum x 2080\n"),
    ];
    for (side, line) in table {
        let outcome = call(&rt, &["demo", "grid", side, "3"], &[])?;
        assert!(rt;
            outcome.status.code() == 0 && outcome.err.is_empty(),
            "{side}"
        );
        assert!(rt; outcome.out.as_slice().ends_with(line.as_bytes()), "{side}");
    }
    Ok(())
}

#[test]
fn a_drawn_matrix(rt: HostRuntime) -> Result<(), Fail> {
    let first =
        "demo lower 7 workers 8\nrelations 27 dropped 24 covered 2 kept 1\nrows 4096 stored ";
    let outcome = call(&rt, &["demo", "lower", "7", "8"], &[])?;
    assert!(rt; outcome.status.code() == 0 && outcome.err.is_empty());
    assert!(rt; outcome.out.as_slice().starts_with(first.as_bytes()));
    assert!(rt; outcome.out.as_slice().ends_with(b"sum x 8390656\n"));
    Ok(())
}

#[test]
fn drawn_matrices_have_one_sum(rt: HostRuntime) -> Result<(), Fail> {
    for (seed, workers) in [("0", "1"), ("12345", "3"), ("4294967295", "64")] {
        let outcome = call(&rt, &["demo", "lower", seed, workers], &[])?;
        assert!(rt; outcome.status.code() == 0, "{seed}");
        assert!(rt;
            outcome.out.as_slice().ends_with(b"sum x 8390656\n"),
            "{seed}"
        );
    }
    Ok(())
}

/// Worker 0 has three tasks and worker 1 has one: each is passed once, and no other.
#[test]
fn each_task_of_a_demo_is_passed_once(rt: HostRuntime) -> Result<(), Fail> {
    let counts = Counts::new(rt.alloc(), 2)?;
    let outcome = call_through(&rt, &["demo", "grid", "2", "2"], &[], &counts)?;
    assert!(rt; outcome.is(0, FOUR_TEXT, ""));
    assert!(rt; counts.of(0, 0) == 1 && counts.of(0, 1) == 1 && counts.of(0, 2) == 1);
    assert!(rt; counts.of(0, 3) == 0);
    assert!(rt; counts.of(1, 0) == 1 && counts.of(1, 1) == 0);
    assert!(rt; counts.of(1, 2) == 0 && counts.of(1, 3) == 0);
    assert!(rt; counts.others() == 0);
    Ok(())
}

#[test]
fn words_of_no_demo_are_refused(rt: HostRuntime) -> Result<(), Fail> {
    let table: [(&[&str], &str); 9] = [
        (&["demo"], "usage word 1\n"),
        (&["demo", "upper", "1", "1"], "usage word 1\n"),
        (&["demo", "grid", "0", "1"], "usage word 2\n"),
        (&["demo", "grid", "401", "1"], "usage word 2\n"),
        (&["demo", "lower", "4294967296", "1"], "usage word 2\n"),
        (&["demo", "lower", "07", "1"], "usage word 2\n"),
        (&["demo", "grid", "1", "0"], "usage word 3\n"),
        (&["demo", "lower", "1", "65"], "usage word 3\n"),
        (&["demo", "grid", "1", "1", "A"], "usage word 4\n"),
    ];
    for (words, line) in table {
        let outcome = call(&rt, words, &[])?;
        assert!(rt; outcome.is(2, "", line), "{line}");
    }
    Ok(())
}

/// The first fetch would fail.
#[test]
fn a_demo_reads_no_file(rt: HostRuntime) -> Result<(), Fail> {
    let lib = library(rt.alloc(), &[("grid", "x"), ("2", "x")], &[1])?;
    let out = stream(rt.alloc(), 1000, 1000)?;
    let outcome = call_over(&rt, &["demo", "grid", "2", "2"], lib, out, &Free)?;
    assert!(rt; outcome.is(0, FOUR_TEXT, ""));
    Ok(())
}

#[test]
fn a_stream_without_room_cuts_a_demo(rt: HostRuntime) -> Result<(), Fail> {
    let lib = library(rt.alloc(), &[], &[])?;
    let out = stream(rt.alloc(), 7, 1000)?;
    let outcome = call_over(&rt, &["demo", "grid", "2", "2"], lib, out, &Free)?;
    assert!(rt; outcome.is(8, "demo gr", "write\n"));
    Ok(())
}
