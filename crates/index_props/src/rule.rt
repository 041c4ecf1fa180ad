// Instances of rules.
use sqlite_items::Items;
use uf_constraints::system::Diff;

/// An instance of a rule: where all premises are true, all results are.
#[derive(Drop)]
pub struct RuleInst {
    pub premises: Items<Diff>,
    pub results: Items<Diff>,
}

/// A line of the table of rules for an order between two entries of one array, or of one segment:
/// `<` where it is strict and `<=` elsewhere, from the arguments to the entries, or back.
#[derive(Clone, Copy, Debug, PartialEq, Eq)]
pub struct Order {
    pub strict: bool,
    pub back: bool,
}

/// A line of the table of rules for two entries of one array.
#[derive(Clone, Copy, Debug, PartialEq, Eq)]
pub enum PairLine {
    /// Equal arguments give equal entries.
    Equal,
    /// Equal entries have equal arguments.
    Injective,
    /// The order of the arguments and of the entries.
    Ordered(Order),
}
