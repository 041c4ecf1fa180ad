//! Times the loop run in order, by the walk or by a direct runner, on data that it makes itself.
#![tactic(auto)]

mod data;
mod direct;

use data::{Data, X, band};
use direct::run_directly;
use loop_core::arrays::Arrays;
use loop_core::depth::has_depth_within;
use loop_core::nest::Nest;
use loop_core::values::Values;
use loop_meaning::run::run_in_order;
use std::process::ExitCode;
use std::time::Instant;
use std::{env, io};
use wave_base::types::Cell;
use wave_base::w64;

// What the words ask for: the body, and how many rows and rounds.
#[derive(Clone, Copy)]
struct Asked {
    directly: bool,
    rows: u32,
    rounds: u32,
}

fn read_words(body: &str, rows: &str, rounds: &str) -> Option<Asked> {
    let directly = match body {
        "walk" => false,
        "direct" => true,
        _ => return None,
    };
    let rows = rows.parse::<u32>().ok()?;
    let rounds = rounds.parse::<u32>().ok()?;
    Some(Asked {
        directly,
        rows,
        rounds,
    })
}

fn run(nest: &Nest, arrays: &Arrays, values: &mut Values, asked: Asked) {
    if !has_depth_within(nest.body.as_slice(), 5) {
        return;
    }
    for _ in 0..asked.rounds {
        if asked.directly {
            run_directly(nest, arrays, values);
        } else {
            run_in_order(nest, arrays, values);
        }
    }
}

fn sum_of(data: &Data) -> i64 {
    let mut sum = 0;
    for at in 0..data.arrays.n() {
        sum = w64::add(sum, data.values.get(Cell { array: X, at }));
    }
    sum
}

fn main(rt: HostRuntime) -> io::Result<ExitCode> {
    let mut words = env::args(&rt)?;
    let (_, body, rows, rounds) = (words.next(), words.next(), words.next(), words.next());
    let (Some(body), Some(rows), Some(rounds)) = (body, rows, rounds) else {
        return usage(&rt);
    };
    let Some(asked) = read_words(body.as_str(), rows.as_str(), rounds.as_str()) else {
        return usage(&rt);
    };
    let Ok(mut data) = band(rt.alloc(), asked.rows) else {
        eprintln!(rt; "memory")?;
        return Ok(ExitCode::FAILURE);
    };
    let start = Instant::now(&rt)?;
    run(&data.nest, &data.arrays, &mut data.values, asked);
    let nanos = start.elapsed(&rt)?.as_nanos();
    let sum = sum_of(&data);
    println!(rt; "rows {} rounds {} sum {sum}", asked.rows, asked.rounds)?;
    eprintln!(rt; "nanoseconds {nanos}")?;
    Ok(ExitCode::SUCCESS)
}

fn usage(rt: &impl io::Eprint) -> io::Result<ExitCode> {
    eprintln!(rt; "usage: bench_loop walk|direct ROWS ROUNDS")?;
    Ok(ExitCode::from(2))
}
