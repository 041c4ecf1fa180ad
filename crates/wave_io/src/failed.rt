// A fault of the outside.

/// A read or a write failed. The object that failed has counted it.
#[derive(Clone, Copy, Debug, PartialEq, Eq)]
pub struct Failed;
