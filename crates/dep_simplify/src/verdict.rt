// Verdicts.
use index_props::certificate::Cert;

/// What is said of a relation.
#[derive(Drop)]
pub enum Verdict {
    /// It has no pairs: a certificate shows that its base contradicts itself.
    Dropped(Cert),
    /// Each of its pairs is one of the kept relation of that number, from 1.
    Covered(u32),
    /// Neither.
    Kept,
}
