// The numbers of a summary.

/// What a loop and a plan of its rows come to in numbers: the relations with their verdicts, the rows, the
/// stored places of the matrix and the dependent pairs, and the levels, the tasks, the cross pairs and the
/// kept waits.
#[derive(Clone, Copy, Debug, PartialEq, Eq)]
pub struct Summary {
    pub relations: u64,
    pub dropped: u64,
    pub covered: u64,
    pub kept: u64,
    pub rows: u64,
    pub stored: u64,
    pub edges: u64,
    pub levels: u64,
    pub tasks: u64,
    pub cross: u64,
    pub waits: u64,
}
