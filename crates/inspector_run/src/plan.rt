// Inspection plans.
use loop_core::nest::{Term, VarId};
use sqlite_items::Items;
use uf_constraints::system::Diff;
use wave_base::types::ArrayId;

/// An operation of a plan. A value that is tried for a variable is seen by the operations that follow.
#[derive(Drop)]
pub enum InspOp {
    /// Tries each number from `lo` up to but not including `hi`.
    Loop {
        var: VarId,
        lo: Term,
        hi: Term,
    },
    /// Tries the term's value.
    Let {
        var: VarId,
        term: Term,
    },
    /// Tries `s - plus`, ascending, for all places s of the array whose entry is the term's value.
    Find {
        var: VarId,
        array: ArrayId,
        plus: i64,
        term: Term,
    },
    /// Tries `s - plus` for the greatest place s that has a place after it and whose entry is at most
    /// the term's value. Where there is no such place, nothing is tried.
    Locate {
        var: VarId,
        array: ArrayId,
        plus: i64,
        term: Term,
    },
    /// What follows happens only where the constraint is true.
    Test(Diff),
    /// Gives the pair of the two variables' values.
    Emit {
        first: VarId,
        second: VarId,
    },
}

/// The operations of a plan, in order.
#[derive(Drop)]
pub struct InspPlan {
    pub ops: Items<InspOp>,
}
