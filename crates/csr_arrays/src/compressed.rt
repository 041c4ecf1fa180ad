// The arrays of a matrix.
use wave_base::words::Words;

/// The stored places of a square matrix, row by row or column by column.
///
/// `index` and `val` have a number for each stored place, in order. Those of row `i` stand at `ptr[i]` up
/// to but not including `ptr[i + 1]`, and `diag[i]` is the first of them whose index is at least `i`, or
/// `ptr[i + 1]`.
#[derive(Debug, Drop)]
pub struct Compressed {
    pub ptr: Words,
    pub index: Words,
    pub diag: Words,
    pub val: Words,
}
