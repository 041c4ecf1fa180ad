// The three properties that speak of segments.

use wave_base::types::ArrayId;

/// What a place of segment i must not be: not below the next place of the segment, not below i, or
/// above i.
#[derive(Clone, Copy, Drop)]
pub enum Rule {
    Sorted,
    Below,
    Upto,
}

/// A segment and a place in it.
#[derive(Clone, Copy, Drop)]
pub struct Spot {
    pub segment: u64,
    pub place: u64,
}

/// From a place up to but not including another.
#[derive(Clone, Copy, Drop)]
pub struct Span {
    pub from: u64,
    pub to: u64,
}

/// An array, and another one whose neighbouring entries bound its segments.
#[derive(Clone, Copy, Drop)]
pub struct Segmented {
    pub rule: Rule,
    pub f: ArrayId,
    pub p: ArrayId,
}
