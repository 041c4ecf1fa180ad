// How many loops stand in one another.
ghost use Rattle.std.specs.Prelude.{◌≤◌, ◌↔◌, IsTrue};
ghost use Rattle.loop_core.specs.Depth.{depth, body_depth};

use crate::nest::Item;

/// Whether at most so many `for` loops stand in one another. It takes no memory.
#[cycle(depth)]
pub fn has_depth_within(items: &[Item], limit: u32) -> bool
    ensures { IsTrue result ↔ (body_depth items.now ≤ limit) }
{
    for item in items {
        if !is_within(item, limit) {
            return false;
        }
    }
    true
}

#[cycle(depth)]
fn is_within(item: &Item, limit: u32) -> bool
    ensures { IsTrue result ↔ (depth item.now ≤ limit) }
{
    match item {
        Item::For {
            line: _,
            name: _,
            lo: _,
            hi: _,
            body,
        } => limit > 0 && has_depth_within(body.as_slice(), limit - 1),
        Item::When {
            line: _,
            rel: _,
            left: _,
            right: _,
            body,
        } => has_depth_within(body.as_slice(), limit),
        Item::Set { .. } => true,
        Item::Keep { .. } => true,
    }
}
