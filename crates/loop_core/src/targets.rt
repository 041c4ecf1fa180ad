// The arrays that a nest writes.
ghost use Rattle.std.specs.Prelude.{◌≡◌};
ghost use Rattle.std.specs.List.{list_any};
ghost use Rattle.loop_core.specs.Shape.{is_target, item_targets, body_targets, same_array};

use crate::nest::{Item, Nest};
use wave_base::types::ArrayId;

impl Nest {
    /// Whether some statement writes the array. It takes no memory.
    pub fn writes(&self, array: ArrayId) -> bool
        ensures { result ≡ is_target self.now array }
    {
        is_written(self.body.as_slice(), array)
    }
}

#[cycle(targets)]
fn is_written(items: &[Item], array: ArrayId) -> bool
    ensures { result ≡ list_any (same_array array) (body_targets items.now) }
{
    for item in items {
        if is_written_by(item, array) {
            return true;
        }
    }
    false
}

#[cycle(targets)]
fn is_written_by(item: &Item, array: ArrayId) -> bool
    ensures { result ≡ list_any (same_array array) (item_targets item.now) }
{
    match item {
        Item::For {
            line: _,
            name: _,
            lo: _,
            hi: _,
            body,
        } => is_written(body.as_slice(), array),
        Item::When {
            line: _,
            rel: _,
            left: _,
            right: _,
            body,
        } => is_written(body.as_slice(), array),
        Item::Set {
            line: _,
            array: target,
            at: _,
            value: _,
        } => array == *target,
        Item::Keep { .. } => false,
    }
}
