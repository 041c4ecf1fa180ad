//! Makes the text of a matrix or a vector in memory, reads it, and prints what came of it.
//!
//! The words are `matrix NUMBER` or `vector NUMBER`, with how often to read it as a third word, or
//! `limits`. With a third word the least time of one reading is printed too.
#![tactic(auto)]

mod largest;
mod text;

use mtx_read::matrix::read_matrix;
use mtx_read::vector::read_vector;
use std::time::Instant;
use std::{env, io};

/// What a text held.
#[derive(Drop)]
struct Held {
    count: usize,
    sum: i64,
}

fn matrix_held(rt: &HostRuntime, bytes: &[u8]) -> Option<Held> {
    let m = read_matrix(rt.alloc(), bytes).ok()?;
    let triples = m.entries.as_slice();
    let mut sum: i64 = 0;
    for (row, column, value) in triples {
        sum = sum
            .wrapping_add(i64::from(*row))
            .wrapping_add(i64::from(*column))
            .wrapping_add(*value);
    }
    Some(Held {
        count: triples.len(),
        sum,
    })
}

fn vector_held(rt: &HostRuntime, bytes: &[u8]) -> Option<Held> {
    let values = read_vector(rt.alloc(), bytes).ok()?;
    let mut sum: i64 = 0;
    for value in &values {
        sum = sum.wrapping_add(*value);
    }
    Some(Held {
        count: values.len(),
        sum,
    })
}

fn read_once(rt: &HostRuntime, is_matrix: bool, bytes: &[u8]) -> Option<Held> {
    if is_matrix {
        matrix_held(rt, bytes)
    } else {
        vector_held(rt, bytes)
    }
}

/// The least number of nanoseconds that one of several readings takes.
fn least_time(rt: &HostRuntime, is_matrix: bool, bytes: &[u8], turns: u32) -> io::Result<u128> {
    let mut least = u128::MAX;
    for _turn in 0..turns {
        let start = Instant::now(rt)?;
        let read = if is_matrix {
            read_matrix(rt.alloc(), bytes).is_ok()
        } else {
            read_vector(rt.alloc(), bytes).is_ok()
        };
        let taken = start.elapsed(rt)?.as_nanos();
        if read && taken < least {
            least = taken;
        }
    }
    Ok(least)
}

fn usage(rt: &HostRuntime) -> io::Result<()> {
    println!(rt; "words: matrix NUMBER [TURNS], vector NUMBER [TURNS], or limits")
}

fn bench(rt: &HostRuntime, is_matrix: bool, number: u32, turns: Option<u32>) -> io::Result<()> {
    let bytes = text::made(rt.alloc(), is_matrix, number)?;
    match read_once(rt, is_matrix, &bytes) {
        Some(held) => println!(rt;
            "bytes {} count {} sum {}",
            bytes.len(),
            held.count,
            held.sum
        )?,
        None => println!(rt; "refused")?,
    }
    if let Some(turns) = turns {
        let least = least_time(rt, is_matrix, &bytes, turns)?;
        println!(rt; "nanoseconds {least}")?;
    }
    Ok(())
}

fn main(rt: HostRuntime) -> io::Result<()> {
    let mut words = env::args(&rt)?;
    let _program = words.next();
    let Some(kind) = words.next() else {
        return usage(&rt);
    };
    let kind = kind.as_str();
    if kind == "limits" {
        return largest::limits(&rt);
    }
    let number = words.next().and_then(|word| word.parse::<u32>().ok());
    let turns = words.next().and_then(|word| word.parse::<u32>().ok());
    match number {
        Some(number) if kind == "matrix" => bench(&rt, true, number, turns),
        Some(number) if kind == "vector" => bench(&rt, false, number, turns),
        _ => usage(&rt),
    }
}
