// Rows or columns.
ghost use Rattle.std.specs.Prelude.{◌≡◌};
ghost use Rattle.csr_arrays.specs.Axes.{turned};

/// The axis along which a matrix is compressed.
#[derive(Clone, Copy, Debug, PartialEq, Eq)]
pub enum Axis {
    Row,
    Column,
}

/// A triple with its place along the axis first, and its place in that row or column second.
#[inline(always)]
pub fn turned(axis: Axis, triple: (u32, u32, i64)) -> (u32, u32, i64)
    ensures { result ≡ turned axis triple }
{
    let (row, column, value) = triple;
    match axis {
        Axis::Row => (row, column, value),
        Axis::Column => (column, row, value),
    }
}
