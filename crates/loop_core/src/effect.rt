// What a statement changes.
use crate::place::Place;

/// What an instance changes: it sets a place of an array, or it keeps its value in a local.
#[derive(Clone, Copy, Debug, PartialEq, Eq)]
pub enum Effect {
    Sets(Place),
    Keeps(u8),
}
