// What is claimed of a bracket.
use loop_core::nest::Term;
use sqlite_items::Items;
use uf_constraints::system::Diff;

/// That the term of a bracket lies from 0 up to the length of its array, wherever the base of the
/// bracket holds.
#[derive(Drop)]
pub struct Claim {
    pub line: u16,
    pub bracket: u16,
    pub base: Items<Diff>,
    pub at: Term,
    pub extent: Term,
}
