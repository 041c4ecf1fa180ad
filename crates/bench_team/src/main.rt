//! Times the workers of a run alone, from the first of them to the last one's end.
//!
//! The words are how many turns, a loop, a matrix, how many workers, and the vectors of the loop. The sum of all
//! data arrays after a turn goes to standard output, the least time of a turn in nanoseconds to standard error.
#![tactic(auto)]

ghost use Rattle.std.specs.Prelude.{◌<◌, ◌≤◌, ◌^◌, length, IfOk};
ghost use Rattle.core_machine.specs.FitWork.{IsFitWork};

use core_machine::work::Work;
use done_words::board::Board;
use loop_core::values::Values;
use p2p_team::team::run_team;
use std::process::ExitCode;
use std::sync::Wait;
use std::thread::Threads;
use std::time::{Clock, Instant};
use std::{env, io};
use wave_base::types::{ArrayId, Memory};
use wave_base::w64;
use wave_io::file_library::FileLibrary;
use wave_io::gate::Free;
use wave_io::library::Library;
use wave_main::fetch::fetch_inputs;
use wave_main::laws::sound_works_are_fit;
use wave_main::status::Status;
use wave_main::work::{core_work, planned_of};

// The work of these words, for 1 to 64 workers.
fn work_of<R: AllocGlobal + Threads + Sync, L: Library>(
    rt: &R,
    lib: &mut L,
    words: &[String],
    workers: u32,
) -> Result<Work, Status>
    requires words { (4 ≤ length words.now) × (length words.now < 2 ^ 32) }
    requires workers { (1 ≤ workers) × (workers ≤ 64) }
    ensures { IfOk result IsFitWork }
{
    sound_works_are_fit();
    let files = fetch_inputs(rt.alloc(), lib, words, 4)?;
    let planned = planned_of(rt, files, 4, workers)?;
    let work = core_work(rt.alloc(), planned)?;
    Ok(work)
}

// How long the workers took, and the sum of the data arrays that they left.
#[derive(Clone, Copy)]
struct Turn {
    nanoseconds: u128,
    sum: i64,
}

fn sum_of(words: &[i64]) -> i64 {
    let mut sum = 0;
    for word in words {
        sum = w64::add(sum, *word);
    }
    sum
}

fn sum_of_all(values: &Values) -> i64 {
    let mut sum = 0;
    for array in 0..64u8 {
        sum = w64::add(sum, sum_of(values.words(ArrayId(array))));
    }
    sum
}

// Why a turn came to nothing.
enum Failure {
    Memory,
    Clock,
}

impl From<Memory> for Failure {
    fn from(_refused: Memory) -> Failure {
        Failure::Memory
    }
}

impl From<io::Error> for Failure {
    fn from(_error: io::Error) -> Failure {
        Failure::Clock
    }
}

fn one_turn<R: AllocGlobal + Threads + Wait + Sync + Clock>(
    rt: &R,
    work: &Work,
) -> Result<Turn, Failure>
    requires { IsFitWork work.now }
{
    let mut values = work.values.copy(rt.alloc())?;
    let (board, mut main) = Board::new(rt.alloc(), work)?;
    let start = Instant::now(rt)?;
    run_team(rt, rt.alloc(), work, &board, &mut main, &Free)?;
    let nanoseconds = start.elapsed(rt)?.as_nanos();
    board.close(main, &mut values);
    Ok(Turn {
        nanoseconds,
        sum: sum_of_all(&values),
    })
}

// The quickest of one turn and some more.
fn quickest<R: AllocGlobal + Threads + Wait + Sync + Clock>(
    rt: &R,
    work: &Work,
    more: u32,
) -> Result<Turn, Failure>
    requires { IsFitWork work.now }
{
    let mut least = one_turn(rt, work)?;
    for _ in 0..more {
        let next = one_turn(rt, work)?;
        if next.nanoseconds < least.nanoseconds {
            least = next;
        }
    }
    Ok(least)
}

fn bench<R: AllocGlobal + Threads + Wait + Sync + Clock + Print + Eprint>(
    rt: &R,
    work: &Work,
    turns: u32,
) -> io::Result<ExitCode>
    requires { IsFitWork work.now }
{
    match quickest(rt, work, turns.saturating_sub(1)) {
        Ok(turn) => report(rt, turn),
        Err(Failure::Memory) => memory(rt),
        Err(Failure::Clock) => no_clock(rt),
    }
}

fn report(rt: &(impl Print + Eprint), turn: Turn) -> io::Result<ExitCode> {
    println!(rt; "sum {}", turn.sum)?;
    eprintln!(rt; "team {}", turn.nanoseconds)?;
    Ok(ExitCode::SUCCESS)
}

fn all_words(rt: &HostRuntime) -> io::Result<Vec<String>> {
    let words = env::args(rt)?.skip(1).collect(rt.alloc())?;
    Ok(words)
}

// How many turns and workers the words ask for.
fn numbers(words: &[String]) -> Option<(u32, u32)> {
    let turns = words.get(0)?.parse::<u32>().ok()?;
    let workers = words.get(3)?.parse::<u32>().ok()?;
    Some((turns, workers))
}

fn main(rt: HostRuntime) -> io::Result<ExitCode> {
    let words = all_words(&rt)?;
    let Some((turns, workers)) = numbers(words.as_slice()) else {
        return usage(&rt);
    };
    if workers < 1 || 64 < workers || words.len() < 4 || words.len() > 4294967295 {
        return usage(&rt);
    }
    let mut lib = FileLibrary::new(rt);
    match work_of(&rt, &mut lib, words.as_slice(), workers) {
        Ok(work) => bench(&rt, &work, turns),
        Err(Status::Memory) => memory(&rt),
        Err(_) => refused(&rt),
    }
}

fn memory(rt: &impl Eprint) -> io::Result<ExitCode> {
    eprintln!(rt; "memory")?;
    Ok(ExitCode::FAILURE)
}

fn no_clock(rt: &impl Eprint) -> io::Result<ExitCode> {
    eprintln!(rt; "there is no clock")?;
    Ok(ExitCode::FAILURE)
}

fn refused(rt: &impl Eprint) -> io::Result<ExitCode> {
    eprintln!(rt; "a file is refused: wave says which one, and why")?;
    Ok(ExitCode::FAILURE)
}

fn usage(rt: &impl Eprint) -> io::Result<ExitCode> {
    eprintln!(rt; "usage: bench_team TURNS LOOP MATRIX WORKERS FILE..")?;
    Ok(ExitCode::from(2))
}
