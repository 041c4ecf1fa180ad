// Systems of constraints.
ghost use Rattle.std.specs.Prelude.{◌≤◌, length};
ghost use Rattle.uf_constraints.specs.Once.{IsOnce};

use loop_core::nest::Atom;
use sqlite_items::Items;
use wave_base::types::ArrayId;

/// A constraint `a - b <= c` between two atoms.
#[derive(Drop)]
pub struct Diff {
    pub a: Atom,
    pub b: Atom,
    pub c: i64,
}

/// A reference to an array: the bracket of that number, from 1, on that line.
#[derive(Clone, Copy, Debug, PartialEq, Eq)]
pub struct Reference {
    pub line: u16,
    pub bracket: u16,
    pub array: ArrayId,
    pub writes: bool,
}

/// Two references to one array, of which one writes. The first side is the earlier iteration, the
/// second the later one, and the base says when the two touch one cell.
#[derive(Drop)]
pub struct Relation {
    pub first: Reference,
    pub second: Reference,
    pub base: Items<Diff>,
}

/// The atoms of a system of constraints, in their order and without repeats, at most 96.
#[derive(Drop)]
pub struct Universe {
    pub atoms: Items<Atom>,
    ghost few: { length atoms ≤ 96 },
    ghost once: { IsOnce atoms },
}
