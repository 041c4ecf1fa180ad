// The places of the values of an array, by sorting.
ghost use Rattle.std.specs.Prelude.{◌≡◌, ℤ, List, map, IfOk};
ghost use Rattle.inspector_run.specs.Tries.{places_of};
ghost use Rattle.inspector_run.specs.Inverses.{place_of, listed_entries, IsAscendingByValue, IsInOrder};

use std::alloc::Global;
use wave_base::types::Memory;

/// An entry and its place.
#[derive(Clone, Copy, Drop)]
pub struct Held {
    pub value: i64,
    pub place: u64,
}

/// The entries of an array, ascending, each with its place. Equal entries stand in the order of their
/// places.
pub fn in_order(alloc: Global, values: Vec<i64>) -> Result<Vec<Held>, Memory>
    ensures { IfOk result (λ entries. IsInOrder values.items entries.items) }
{
    let mut entries = entries_of(alloc, values)?;
    entries.sort_by_key(|entry| entry.value)?;
    Ok(entries)
}

// The entries in the order of their places.
fn entries_of(alloc: Global, values: Vec<i64>) -> Result<Vec<Held>, Memory>
    ensures { IfOk result (λ entries. entries.items ≡ listed_entries values.items) }
{
    let mut entries = Vec::with_capacity(alloc, values.len())?;
    for place in 0..values.len() {
        let value = values[place];
        entries.push(Held {
            value,
            place: place as u64,
        })?;
    }
    Ok(entries)
}

/// The entries that equal a value, in the order of their places.
pub fn equal_to(entries: &[Held], value: i128) -> &[Held]
    requires { IsAscendingByValue entries.now }
    ensures { (list : List ℤ) → IsInOrder list entries.now → map place_of result.now ≡ places_of list value }
{
    let first = entries.partition_point(|entry| (entry.value as i128) < value);
    let after = entries.partition_point(|entry| entry.value as i128 <= value);
    &entries[first..after]
}
