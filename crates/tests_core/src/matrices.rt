// Matrices and vectors that are drawn.
use std::alloc::Global;
use wave_base::types::Memory;
use wave_base::words::Words;
use wave_gen::grid::grid;
use wave_gen::lower::lower;
use work_samples::draws::draw;

const SYMMETRIC: &[u8] = b"%%MatrixMarket matrix coordinate integer symmetric\n";

/// The text of a matrix, and its rows.
#[derive(Drop)]
pub struct Matrix {
    pub text: Vec<u8>,
    pub rows: u32,
}

// A lower triangular matrix of 1 to 20 rows.
fn drawn_lower(alloc: Global, seed: u32) -> Result<Matrix, Memory> {
    let rows = 1 + draw(seed, 0, 0) % 20;
    let text = lower(alloc, rows, u64::from(seed))?;
    Ok(Matrix { text, rows })
}

// The same with its mirror.
fn drawn_symmetric(alloc: Global, seed: u32) -> Result<Matrix, Memory> {
    let Matrix { text: half, rows } = drawn_lower(alloc, seed)?;
    let mut text = Vec::from_slice(alloc, SYMMETRIC)?;
    let mut is_body = false;
    for byte in half.as_slice() {
        if is_body {
            text.push(*byte)?;
        }
        is_body = is_body || *byte == b'\n';
    }
    Ok(Matrix { text, rows })
}

// A grid of 1 to 5 points a side.
fn drawn_grid(alloc: Global, seed: u32) -> Result<Matrix, Memory> {
    let side = 1 + draw(seed, 1, 0) % 5;
    let text = grid(alloc, side)?;
    Ok(Matrix {
        text,
        rows: side * side,
    })
}

/// A lower triangular matrix, a symmetric one or a grid.
pub fn drawn_matrix(alloc: Global, seed: u32) -> Result<Matrix, Memory> {
    match seed % 5 {
        0 => drawn_grid(alloc, seed),
        1 | 2 => drawn_lower(alloc, seed),
        _ => drawn_symmetric(alloc, seed),
    }
}

// A word from -9 to 9.
fn word(seed: u32, row: u32) -> i64 {
    i64::from(draw(seed, row, 2) % 19) - 9
}

// Each place once: the rows in turn, from one that is drawn.
fn place(seed: u32, row: u32, rows: u32) -> i64 {
    let first = draw(seed, 3, 0) % 64;
    match row.wrapping_add(first).checked_rem(rows) {
        Some(place) => i64::from(place),
        None => 0,
    }
}

fn file(alloc: Global, has_places: bool, seed: u32, rows: u32) -> Result<Words, Memory> {
    let mut words = Vec::new(alloc);
    for row in 0..rows {
        words.push(if has_places {
            place(seed, row, rows)
        } else {
            word(seed, row)
        })?;
    }
    Ok(Words::from_vec(words))
}

/// A file of so many rows for each kind: places, each once, or words.
pub fn drawn_files(
    alloc: Global,
    kinds: &[bool],
    seed: u32,
    rows: u32,
) -> Result<Vec<Words>, Memory> {
    let mut files = Vec::new(alloc);
    let mut next = seed;
    for kind in kinds {
        files.push(file(alloc, *kind, next, rows)?)?;
        next = next.wrapping_add(1000);
    }
    Ok(files)
}
