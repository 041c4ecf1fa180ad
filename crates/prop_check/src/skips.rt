// How far the places after each place are known to be clean, so that segments that overlap are not
// walked again and again. Without memory nothing is kept, and each segment is walked.
ghost use Rattle.std.specs.Prelude.{◌≡◌, ◌<◌, ℕ, length, IfOk, slice_index_or, slice_set};
ghost use Rattle.prop_check.specs.Segments.{known};

use std::alloc::Global;
use wave_base::types::Memory;

/// Nothing is known: each place has itself, or none has an entry.
pub fn unknown(alloc: Global, many: u64) -> Vec<u64>
    ensures { (k : ℕ) → known result.items k ≡ k }
{
    match own_places(alloc, many) {
        Ok(places) => places,
        Err(_) => Vec::new(alloc),
    }
}

fn own_places(alloc: Global, many: u64) -> Result<Vec<u64>, Memory>
    ensures { IfOk result (λ places. (k : ℕ) → known places.items k ≡ k) }
{
    let mut places = Vec::with_capacity(alloc, many as usize)?;
    for place in 0..many {
        places.push(place)?;
    }
    Ok(places)
}

/// The place up to which all are clean.
pub fn known_from(skips: &[u64], place: u64) -> u64
    ensures { result ≡ known skips.now place }
{
    match skips.get(place as usize) {
        Some(next) => *next,
        None => place,
    }
}

/// Keeps such a place, where there is room for it.
pub fn keep(skips: &mut Vec<u64>, place: u64, next: u64)
    ensures { skips.new.items ≡ slice_set skips.old.items place next }
{
    if (place as usize) < skips.len() {
        skips[place as usize] = next;
    }
}
