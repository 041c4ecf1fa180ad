// Acceptance.
ghost use Rattle.loop_core.specs.IsNest.{IsNest};

use access_bounds::accept::{Accepted, accept};
use access_bounds::refusal::{BoundsRefusal, Side2};
use loop_core::nest::Nest;
use std::alloc::Global;
use std::io;
use std::process::ExitCode;
use std::time::Instant;

/// Asks whether a copy of the nest is accepted.
pub fn accepted_copy(alloc: Global, nest: &Nest) -> Result<Accepted, BoundsRefusal>
    requires { IsNest nest.now }
{
    let nest = nest.copy(alloc)?;
    accept(alloc, nest)
}

fn side(side: Side2) -> &'static str {
    match side {
        Side2::Low => "low",
        Side2::High => "high",
    }
}

fn show(rt: &HostRuntime, answer: Result<Accepted, BoundsRefusal>) -> io::Result<()> {
    match answer {
        Ok(_) => println!(rt; "accepted"),
        Err(BoundsRefusal::TermsFull { line }) => println!(rt; "line {line} atoms"),
        Err(
            BoundsRefusal::Unbounded {
                line,
                bracket,
                side: which,
            },
        ) => println!(rt; "line {line} bracket {bracket} {}", side(which)),
        Err(BoundsRefusal::Memory) => println!(rt; "memory"),
    }
}

// The least number of nanoseconds that one of several turns takes.
fn least_time(rt: &HostRuntime, nest: &Nest, turns: u32) -> io::Result<u128>
    requires { IsNest nest.now }
{
    let mut least = u128::MAX;
    for _turn in 0..turns {
        let start = Instant::now(rt)?;
        let _ = accepted_copy(rt.alloc(), nest).is_ok();
        let taken = start.elapsed(rt)?.as_nanos();
        if taken < least {
            least = taken;
        }
    }
    Ok(least)
}

/// Says whether the nest is accepted, and the least time of so many turns.
pub fn bench_accept(rt: &HostRuntime, nest: &Nest, turns: u32) -> io::Result<ExitCode>
    requires { IsNest nest.now }
{
    show(rt, accepted_copy(rt.alloc(), nest))?;
    let least = least_time(rt, nest, turns)?;
    eprintln!(rt; "nanoseconds {least}")?;
    Ok(ExitCode::SUCCESS)
}
