// Weights of rows.
ghost use Rattle.std.specs.Prelude.{◌≡◌, ◌≤◌, ◌^◌, All, length, IfOk};

use std::alloc::{AllocError, Global};

/// For each row its weight in a list, moved into the range from 1 to 2^32, and 1 past the list's end.
pub fn valid_weights(alloc: Global, rows: u32, raw: &[u64]) -> Result<Vec<u64>, AllocError>
    ensures each_row { IfOk result (λ weights. length weights.items ≡ rows) }
    ensures range { IfOk result (λ weights. All (λ q. (1 ≤ q) × (q ≤ 2 ^ 32)) weights.items) }
{
    let mut weights = Vec::with_capacity(alloc, rows as usize)?;
    for row in 0..rows {
        weights.push(valid_weight(raw, row as usize))?;
    }
    Ok(weights)
}

// One of the weights, within the range.
fn valid_weight(raw: &[u64], at: usize) -> u64
    ensures { (1 ≤ result) × (result ≤ 2 ^ 32) }
{
    if at < raw.len() {
        raw[at].max(1).min(4294967296)
    } else {
        1
    }
}

/// Weights of 1 to 9, and now and then 2^32, from a counter that begins with `seed`.
pub fn made_weights(alloc: Global, seed: u32, rows: u32) -> Result<Vec<u64>, AllocError>
    ensures each_row { IfOk result (λ weights. length weights.items ≡ rows) }
    ensures range { IfOk result (λ weights. All (λ q. (1 ≤ q) × (q ≤ 2 ^ 32)) weights.items) }
{
    let raw = numbers(alloc, seed, rows)?;
    valid_weights(alloc, rows, raw.as_slice())
}

fn numbers(alloc: Global, seed: u32, many: u32) -> Result<Vec<u64>, AllocError> {
    let mut numbers = Vec::new(alloc);
    let mut state = seed;
    for _ in 0..many {
        state = state.wrapping_mul(1664525).wrapping_add(1013904223);
        numbers.push(number_of(state))?;
    }
    Ok(numbers)
}

fn number_of(state: u32) -> u64 {
    if state / 65536 % 8 == 0 {
        u64::MAX
    } else {
        (state / 1024 % 10) as u64
    }
}
