// The order of a replay.
ghost use Rattle.std.specs.Prelude.{◌≡◌, ◌⊎◌, ◌<◌, ◌≤◌, ◌++◌, ◌∷◌, [], ℕ, ℤ, List, MatchResult, Some, length, slice_get};
ghost use Rattle.std.specs.List.{All};
ghost use Rattle.loop_core.specs.Instances.{natural};
ghost use Rattle.wave_main.specs.Orders.{IsFirstOdd, IsNumber, order_numbers};

use crate::status::{ShapeKind, Status};
use std::alloc::Global;

/// The workers of the entries of an order, or its first entry that is no worker's number.
pub fn workers_of_order(alloc: Global, entries: &[i64], workers: u32) -> Result<Vec<u32>, Status>
    ensures { MatchResult result
        (λ order. (order.items ≡ order_numbers entries.now) × All (λ k. k < workers) order.items × ((place : ℕ) (value : ℤ) → slice_get entries.now place ≡ Some value → IsNumber workers value))
        (λ status. (status ≡ Status.Memory) ⊎ ((place : ℕ) × (value : ℤ) × IsFirstOdd workers entries.now place value × (status ≡ Status.Shape (ShapeKind.Order place value)))) }
{
    let mut order = Vec::new(alloc);
    for place in 0..entries.len() {
        let entry = entry_at(entries, place);
        let worker = worker_of(place, entry, workers)?;
        order.push(worker)?;
    }
    Ok(order)
}

fn entry_at(entries: &[i64], place: usize) -> i64
    requires { place < length entries.now }
    ensures { slice_get entries.now place ≡ Some result }
{
    entries[place]
}

// The worker of the entry at a place.
fn worker_of(place: usize, value: i64, workers: u32) -> Result<u32, Status>
    ensures { MatchResult result
        (λ worker. (worker ≡ natural value) × (worker < workers) × IsNumber workers value)
        (λ status. (IsNumber workers value → ⊥) × (status ≡ Status.Shape (ShapeKind.Order place value))) }
{
    if 0 <= value && value < i64::from(workers) {
        Ok(value as u32)
    } else {
        Err(Status::Shape(ShapeKind::Order {
            place: place as u64,
            value,
        }))
    }
}
