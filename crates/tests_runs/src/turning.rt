// Runs whose workers are held up for a made number of turns before each task: a thousand of them leave the same bytes.
use crate::calls::{LOOP, Outcome, call_over, library, stream};
use crate::runs::{SIX, WIDE_MATRIX};
use std::alloc::Global;
use std::hint;
use std::sync::Wait;
use std::sync::atomic::{AtomicU32, Ordering};
use std::test::Fail;
use std::thread::Threads;
use wave_base::types::Memory;
use wave_gen::grid::grid;
use wave_io::gate::Gate;
use wave_io::mem_library::MemLibrary;

const RUNS: u32 = 1000;

// The runs of a grid take longer, so they are shared out over five tests.
const GRID_RUNS: u32 = 200;

const TWELVE_MATRIX: &str =
    "%%MatrixMarket matrix coordinate integer general\n12 12 24\n1 1 1\n2 2 1\n3 3 1\n4 4 1\n5 5 1\n6 6 1\n7 7 1\n8 8 1\n9 9 1\n10 10 1\n11 11 1\n12 12 1\n4 1 1\n5 1 1\n6 3 1\n7 4 1\n8 5 1\n9 5 1\n10 7 1\n10 4 1\n11 8 1\n11 5 1\n12 9 1\n12 1 1\n";

const TWELVE: &str =
    "%%MatrixMarket matrix array integer general\n12 1\n1\n2\n3\n4\n5\n6\n7\n8\n9\n10\n11\n12\n";

// Holds each worker up for a number of turns that is drawn anew each time.
#[derive(Drop)]
struct Turning {
    drawn: AtomicU32,
}

impl Gate for Turning {
    fn pass(&self, worker: u32, task: u32) {
        let _ = (worker, task);
        let before = self.drawn.fetch_add(747_796_405, Ordering::SeqCst);
        for _ in 0..before % 251 {
            hint::spin_loop();
        }
    }
}

/// Whether a call was done and put these bytes, with nothing on the other stream.
fn repeats(first: &Outcome, outcome: &Outcome) -> bool {
    outcome.status.code() == 0
        && outcome.out.as_slice() == first.out.as_slice()
        && outcome.err.is_empty()
}

fn run_once<R: AllocGlobal + Threads + Sync + Wait>(
    rt: &R,
    workers: &str,
    lib: MemLibrary,
    gate: &Turning,
) -> Result<Outcome, Memory> {
    let out = stream(rt.alloc(), 10_000, 10_000)?;
    call_over(rt, &["run", "L", "A", workers, "B"], lib, out, gate)
}

/// How many of some runs leave other bytes than the first. The turns are drawn from a number on.
fn others<R: AllocGlobal + Threads + Sync + Wait>(
    rt: &R,
    workers: &str,
    files: &[(&str, &str)],
    drawn: u32,
    runs: u32,
) -> Result<u32, Memory> {
    let gate = Turning {
        drawn: AtomicU32::new(drawn),
    };
    let first = run_once(rt, workers, library(rt.alloc(), files, &[])?, &gate)?;
    let mut others = 0u32;
    for _ in 0..runs {
        let outcome = run_once(rt, workers, library(rt.alloc(), files, &[])?, &gate)?;
        if !repeats(&first, &outcome) {
            others = others.saturating_add(1);
        }
    }
    Ok(others)
}

#[test]
fn two_workers_that_wait_for_each_other(rt: HostRuntime) -> Result<(), Fail> {
    let files = [("L", LOOP), ("A", WIDE_MATRIX), ("B", SIX)];
    assert!(rt; others(&rt, "2", &files, 1, RUNS)? == 0);
    Ok(())
}

#[test]
fn three_workers_in_four_levels(rt: HostRuntime) -> Result<(), Fail> {
    let files = [("L", LOOP), ("A", TWELVE_MATRIX), ("B", TWELVE)];
    assert!(rt; others(&rt, "3", &files, 1, RUNS)? == 0);
    Ok(())
}

/// A vector of so many entries 1.
fn ones(alloc: Global, many: u32) -> Result<String, Memory> {
    let mut text = String::from_str(
        alloc,
        "%%MatrixMarket matrix array integer general\n400 1\n",
    )?;
    for _ in 0..many {
        text.push_str("1\n")?;
    }
    Ok(text)
}

fn grid_text(alloc: Global) -> Result<String, Memory> {
    let bytes = grid(alloc, 20)?;
    let mut text = String::new(alloc);
    for byte in bytes {
        text.push(byte as char)?;
    }
    Ok(text)
}

fn grid_others<R: AllocGlobal + Threads + Sync + Wait>(rt: &R, drawn: u32) -> Result<u32, Memory> {
    let matrix = grid_text(rt.alloc())?;
    let vector = ones(rt.alloc(), 400)?;
    let files = [("L", LOOP), ("A", matrix.as_str()), ("B", vector.as_str())];
    others(rt, "4", &files, drawn, GRID_RUNS)
}

#[test]
fn a_grid_on_four_workers(rt: HostRuntime) -> Result<(), Fail> {
    assert!(rt; grid_others(&rt, 1)? == 0);
    Ok(())
}

#[test]
fn a_grid_with_second_turns(rt: HostRuntime) -> Result<(), Fail> {
    assert!(rt; grid_others(&rt, 2)? == 0);
    Ok(())
}

#[test]
fn a_grid_with_third_turns(rt: HostRuntime) -> Result<(), Fail> {
    assert!(rt; grid_others(&rt, 3)? == 0);
    Ok(())
}

#[test]
fn a_grid_with_fourth_turns(rt: HostRuntime) -> Result<(), Fail> {
    assert!(rt; grid_others(&rt, 4)? == 0);
    Ok(())
}

#[test]
fn a_grid_with_fifth_turns(rt: HostRuntime) -> Result<(), Fail> {
    assert!(rt; grid_others(&rt, 5)? == 0);
    Ok(())
}
