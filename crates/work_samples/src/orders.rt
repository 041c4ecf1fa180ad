// Orders of workers that are drawn.
ghost use Rattle.std.specs.Prelude.{◌≡◌, ◌<◌, ◌≤◌, IfOk, length};
ghost use Rattle.std.specs.List.{All};

use crate::draws::draw;
use std::alloc::Global;
use wave_base::types::Memory;

/// So many numbers of workers, drawn by a seed.
pub fn order(alloc: Global, seed: u32, many: u32, workers: u32) -> Result<Vec<u32>, Memory>
    requires { 1 ≤ workers }
    ensures workers { IfOk result (λ order. All (λ k. k < workers) order.items) }
    ensures many { IfOk result (λ order. length order.items ≡ many) }
{
    let mut order = Vec::new(alloc);
    for at in 0..many {
        order.push(draw(seed, at, many) % workers)?;
    }
    Ok(order)
}
