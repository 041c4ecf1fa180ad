//! Times the replay of forward substitution on the 5-point grid.
//!
//! The words are the side of the grid, how many workers, and how many events the drawn order has; whole rounds
//! follow it. The looks and the last word of x go to standard output, nanoseconds of the start and of the replay
//! to standard error.
#![tactic(auto)]

ghost use Rattle.std.specs.Prelude.{◌≡◌, ◌≤◌, IfOk, length};
ghost use Rattle.std.specs.List.{All};
ghost use Rattle.core_machine.specs.FitWork.{IsFitWork, IsWorker};

use core_machine::cores::Core;
use core_machine::work::Work;
use std::alloc::Global;
use std::process::ExitCode;
use std::thread::Threads;
use std::time::{Clock, Instant};
use std::{env, io};
use wave_base::types::{ArrayId, Memory};
use wave_base::words::Words;
use wave_gen::grid::grid;
use work_samples::orders::order;
use work_samples::unfit::Unfit;
use work_samples::works::work_of;

const FORWARD: &[u8] =
    b"matrix a csr\nvector b n file\nvector x n zero\nrange a.ptr 0 nnz+1\nrange a.col 0 n\nrising a.ptr\nsorted a.col by a.ptr\ndiagonal a.diag of a.col by a.ptr\nloop i\n  set x[i] = b[i]\n  for p in a.ptr[i]..a.diag[i]\n    set x[i] = x[i] - a.val[p] * x[a.col[p]]\n  end\n  set x[i] = x[i] / a.val[a.diag[i]]\nend\n";

const X: ArrayId = ArrayId(5);

// One file of so many words, which are all the same.
fn right_side(alloc: Global, rows: u32) -> Result<Vec<Words>, Memory>
    ensures { IfOk result (λ files. length files.items ≡ 1) }
{
    let words = same(alloc, rows, 1000)?;
    let mut files = Vec::new(alloc);
    files.push(words)?;
    Ok(files)
}

fn same(alloc: Global, many: u32, word: i64) -> Result<Words, Memory> {
    let mut words = Vec::new(alloc);
    for _ in 0..many {
        words.push(word)?;
    }
    Ok(Words::from_vec(words))
}

// Forward substitution on the grid.
fn grid_work<R: AllocGlobal + Threads + Sync>(
    rt: &R,
    side: u32,
    workers: u32,
) -> Result<Work, Unfit>
    requires side { (1 ≤ side) × (side ≤ 400) }
    requires workers { (1 ≤ workers) × (workers ≤ 64) }
    ensures fit { IfOk result IsFitWork }
    ensures workers { IfOk result (λ work. length work.sched.workers ≡ workers) }
{
    let matrix = grid(rt.alloc(), side)?;
    let files = right_side(rt.alloc(), side * side)?;
    work_of(rt, FORWARD, matrix.as_slice(), files, workers)
}

fn timed<R: AllocGlobal + Clock + Print + Eprint>(
    rt: &R,
    work: &Work,
    order: &[u32],
) -> io::Result<ExitCode>
    requires fit { IsFitWork work.now }
    requires order { All (IsWorker work.now) order.now }
{
    let begin = Instant::now(rt)?;
    let Ok(core) = Core::start(rt.alloc(), work) else {
        return memory(rt);
    };
    let start = begin.elapsed(rt)?.as_nanos();
    let begin = Instant::now(rt)?;
    let end = core.replay(order);
    let replay = begin.elapsed(rt)?.as_nanos();
    let last = end.values.words(X).last().copied().unwrap_or(0);
    println!(rt; "looks {} passed {} last {}", end.looks, end.passed, last)?;
    eprintln!(rt; "start {start}")?;
    eprintln!(rt; "replay {replay}")?;
    Ok(ExitCode::SUCCESS)
}

fn ordered<R: AllocGlobal + Clock + Print + Eprint>(
    rt: &R,
    work: &Work,
    workers: u32,
    events: u32,
) -> io::Result<ExitCode>
    requires fit { IsFitWork work.now }
    requires workers { length work.now.sched.workers ≡ workers }
    requires some { 1 ≤ workers }
{
    match order(rt.alloc(), 1, events, workers) {
        Ok(order) => timed(rt, work, order.as_slice()),
        Err(_) => memory(rt),
    }
}

fn bench<R: AllocGlobal + Threads + Sync + Clock + Print + Eprint>(
    rt: &R,
    side: u32,
    workers: u32,
    events: u32,
) -> io::Result<ExitCode>
    requires side { (1 ≤ side) × (side ≤ 400) }
    requires workers { (1 ≤ workers) × (workers ≤ 64) }
{
    match grid_work(rt, side, workers) {
        Ok(work) => ordered(rt, &work, workers, events),
        Err(_) => memory(rt),
    }
}

fn number(word: Option<String>) -> Option<u32> {
    word?.as_str().parse::<u32>().ok()
}

fn main(rt: HostRuntime) -> io::Result<ExitCode> {
    let mut words = env::args(&rt)?;
    let (_, side, workers, events) = (words.next(), words.next(), words.next(), words.next());
    let (side, workers, events) = (number(side), number(workers), number(events));
    let (Some(side), Some(workers), Some(events)) = (side, workers, events) else {
        return usage(&rt);
    };
    if side == 0 || side > 400 || workers == 0 || workers > 64 {
        return usage(&rt);
    }
    bench(&rt, side, workers, events)
}

fn memory(rt: &impl Eprint) -> io::Result<ExitCode> {
    eprintln!(rt; "memory")?;
    Ok(ExitCode::FAILURE)
}

fn usage(rt: &impl Eprint) -> io::Result<ExitCode> {
    eprintln!(rt; "usage: bench_core SIDE WORKERS EVENTS")?;
    Ok(ExitCode::from(2))
}
