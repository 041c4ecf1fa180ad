// Why texts make no work.
use access_bounds::refusal::BoundsRefusal;
use array_bind::shape::ShapeRefusal;
use loop_syntax::refusal::LoopRefusal;
use mtx_read::refusal::MtxRefusal;
use wave_base::types::Memory;

/// The text is no loop or isn't accepted, the matrix isn't read, shapes don't fit, the arrays break a declared
/// property, or out of memory.
#[derive(Clone, Copy, Debug, PartialEq, Eq)]
pub enum Unfit {
    Loop(LoopRefusal),
    Bounds(BoundsRefusal),
    Matrix(MtxRefusal),
    Shape(ShapeRefusal),
    Property,
    Memory,
}

impl From<Memory> for Unfit {
    fn from(_refused: Memory) -> Unfit {
        Unfit::Memory
    }
}
