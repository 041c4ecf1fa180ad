//! Plans a graph made from counters: the words are SHAPE ROWS COLUMNS WORKERS, and `time` after them
//! prints how long the planning took. Each row has weight 1. SHAPE is `chain`, `grid`, `wide` or `random`.
#![tactic(auto)]

mod plan;

use crate::plan::plan;
use schedule_samples::shapes::{Shape, pairs};
use schedule_samples::weights::valid_weights;
use std::time::Instant;
use std::{env, io};

#[derive(Clone, Copy)]
struct Request {
    shape: Shape,
    rows: u32,
    columns: u32,
    workers: u32,
    timed: bool,
}

fn number(word: Option<&String>) -> Option<u32> {
    word?.as_str().parse::<u32>().ok()
}

fn asked_for(words: &[String]) -> Option<Request> {
    let shape = match words.first()?.as_str() {
        "chain" => Shape::Chain,
        "grid" => Shape::Grid,
        "wide" => Shape::Wide,
        "random" => Shape::Random,
        _ => return None,
    };
    Some(Request {
        shape,
        rows: number(words.get(1))?,
        columns: number(words.get(2))?,
        workers: number(words.get(3))?,
        timed: words.len() > 4,
    })
}

fn serve(rt: &HostRuntime, asked: &Request) -> io::Result<()> {
    if asked.rows == 0 || asked.rows > 16777216 || asked.columns == 0 {
        return Ok(());
    }
    if asked.workers == 0 || asked.workers > 64 {
        return Ok(());
    }
    let pairs = pairs(rt.alloc(), asked.shape, asked.rows, asked.columns)?;
    let many = pairs.len();
    let weights = valid_weights(rt.alloc(), asked.rows, &[])?;
    let start = Instant::now(rt)?;
    let Ok(counts) = plan(
        rt.alloc(),
        asked.rows,
        pairs,
        weights.as_slice(),
        asked.workers,
    ) else {
        return Ok(());
    };
    let took = start.elapsed(rt)?;
    println!(rt; "rows {} pairs {} edges {}", asked.rows, many, counts.edges)?;
    println!(rt;
        "levels {} chain {} tasks {}",
        counts.levels, counts.chain, counts.tasks
    )?;
    println!(rt; "cross {} waits {}", counts.cross, counts.waits)?;
    if asked.timed {
        println!(rt; "milliseconds {}", took.as_millis())?;
    }
    Ok(())
}

fn main(rt: HostRuntime) -> io::Result<()> {
    let words: Vec<String> = env::args(&rt)?.skip(1).collect(rt.alloc())?;
    match asked_for(words.as_slice()) {
        Some(asked) => serve(&rt, &asked),
        None => Ok(()),
    }
}
