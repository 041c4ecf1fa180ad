//! Times the check of declared properties on arrays that it makes itself.
//!
//! The words are a shape, its size and how many turns. What the check says goes to standard output,
//! the least time of a turn to standard error.
#![tactic(auto)]

ghost use Rattle.std.specs.Prelude.{IfOk};
ghost use Rattle.index_props.specs.Meanings.{Passes};

mod grid;
mod lists;
mod made;

use grid::grid;
use made::{Kind, Made, injective, overlap};
use prop_check::check::{CheckRefusal, Passed, check};
use std::alloc::Global;
use std::process::ExitCode;
use std::time::Instant;
use std::{env, io};
use wave_base::types::Memory;

// The arrays of a shape, and none where there is no such shape.
fn made_as(alloc: Global, shape: &str, size: u32) -> Option<Result<Made, Memory>> {
    match shape {
        "grid" => Some(grid(alloc, size)),
        "injective" => Some(injective(alloc, size)),
        "sorted" => Some(overlap(alloc, Kind::Sorted, size)),
        "below" => Some(overlap(alloc, Kind::Below, size)),
        "upto" => Some(overlap(alloc, Kind::Upto, size)),
        _ => None,
    }
}

fn answer(alloc: Global, made: &Made) -> Result<Passed, CheckRefusal>
    ensures { IfOk result (λ _. Passes made.now.props.items made.now.arrays) }
{
    let props = made.props.as_slice();
    if props.len() > 9 {
        return Err(CheckRefusal::Memory);
    }
    check(alloc, props, &made.arrays)
}

fn show(rt: &HostRuntime, answer: Result<Passed, CheckRefusal>) -> io::Result<()> {
    match answer {
        Ok(_) => println!(rt; "passed"),
        Err(
            CheckRefusal::Broken {
                property,
                first,
                second,
            },
        ) => println!(rt; "property {property} fails at {first} and {second}"),
        Err(CheckRefusal::Memory) => println!(rt; "memory"),
    }
}

// The least number of nanoseconds that one of several checks takes.
fn least_time(rt: &HostRuntime, made: &Made, turns: u32) -> io::Result<u128> {
    let mut least = u128::MAX;
    for _turn in 0..turns {
        let start = Instant::now(rt)?;
        let passed = answer(rt.alloc(), made).is_ok();
        let taken = start.elapsed(rt)?.as_nanos();
        if passed && taken < least {
            least = taken;
        }
    }
    Ok(least)
}

fn bench(rt: &HostRuntime, made: &Made, turns: u32) -> io::Result<ExitCode> {
    println!(rt; "n {} nnz {}", made.arrays.n(), made.arrays.nnz())?;
    show(rt, answer(rt.alloc(), made))?;
    let least = least_time(rt, made, turns)?;
    eprintln!(rt; "nanoseconds {least}")?;
    Ok(ExitCode::SUCCESS)
}

fn main(rt: HostRuntime) -> io::Result<ExitCode> {
    let mut words = env::args(&rt)?;
    let (_, shape, size, turns) = (words.next(), words.next(), words.next(), words.next());
    let (Some(shape), Some(size), Some(turns)) = (shape, size, turns) else {
        return usage(&rt);
    };
    let (size, turns) = (size.parse::<u32>().ok(), turns.parse::<u32>().ok());
    let (Some(size), Some(turns)) = (size, turns) else {
        return usage(&rt);
    };
    match made_as(rt.alloc(), shape.as_str(), size) {
        Some(Ok(made)) => bench(&rt, &made, turns),
        Some(Err(_)) => memory(&rt),
        None => usage(&rt),
    }
}

fn memory(rt: &HostRuntime) -> io::Result<ExitCode> {
    eprintln!(rt; "memory")?;
    Ok(ExitCode::FAILURE)
}

fn usage(rt: &HostRuntime) -> io::Result<ExitCode> {
    eprintln!(rt; "usage: bench_check grid|sorted|below|upto|injective SIZE TURNS")?;
    Ok(ExitCode::from(2))
}
