// Pairs of rows from a counter.
ghost use Rattle.std.specs.Prelude.{◌<◌, All, IfOk};
ghost use Rattle.wave_base.specs.declared.types.RowId.{RowId};

use std::alloc::{AllocError, Global};
use wave_base::types::RowId;

/// Up to 40 pairs of rows below `rows`, the lesser first, from a counter that begins with `seed`.
pub fn made_pairs(alloc: Global, seed: u32, rows: u32) -> Result<Vec<(RowId, RowId)>, AllocError>
    ensures earlier { IfOk result (λ pairs. All (λ (p : RowId × RowId). p.0.0 < p.1.0) pairs.items) }
    ensures below { IfOk result (λ pairs. All (λ (p : RowId × RowId). p.1.0 < rows) pairs.items) }
{
    let raw = numbers(alloc, seed, rows.max(1))?;
    valid_pairs(alloc, rows, raw.as_slice())
}

// Numbers below a bound from a counter, two by two.
fn numbers(alloc: Global, seed: u32, bound: u32) -> Result<Vec<(u32, u32)>, AllocError>
    requires { 0 < bound }
{
    let mut numbers = Vec::new(alloc);
    let mut state = seed;
    for _ in 0..seed % 41 {
        state = state.wrapping_mul(1664525).wrapping_add(1013904223);
        numbers.push((state / 65536 % bound, state / 1024 % bound))?;
    }
    Ok(numbers)
}

/// The pairs among these of which the first row is below the second, and the second below `rows`.
pub fn valid_pairs(
    alloc: Global,
    rows: u32,
    raw: &[(u32, u32)],
) -> Result<Vec<(RowId, RowId)>, AllocError>
    ensures earlier { IfOk result (λ pairs. All (λ (p : RowId × RowId). p.0.0 < p.1.0) pairs.items) }
    ensures below { IfOk result (λ pairs. All (λ (p : RowId × RowId). p.1.0 < rows) pairs.items) }
{
    let mut pairs = Vec::new(alloc);
    for (first, second) in raw {
        if *first < *second && *second < rows {
            pairs.push((RowId(*first), RowId(*second)))?;
        }
    }
    Ok(pairs)
}
