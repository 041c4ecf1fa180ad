// A right side that is made for a known answer.
ghost use Rattle.std.specs.Prelude.{◌≡◌, ◌<◌, ◌+◌, ◌^◌, IfOk};
ghost use Rattle.wave_base.specs.Word.{wrapped};
ghost use Rattle.wave_gen.specs.RightSide.{natural, term, row_sum, right_side};

use csr_arrays::compressed::Compressed;
use std::alloc::Global;
use wave_base::types::Memory;
use wave_base::w64;

/// For each row of a matrix in compressed rows the wrapped sum of value times (column + 1) over its
/// stored places up to the diagonal: the right side for which forward substitution is to give 1, 2, 3
/// and so on. It fails out of memory alone. The work is linear in rows and stored places.
pub fn right_side(alloc: Global, m: &Compressed) -> Result<Vec<i64>, Memory>
    ensures { IfOk result (λ b. b.items ≡ right_side m.now) }
{
    let rows = m.diag.len();
    let mut sums = Vec::with_capacity(alloc, rows)?;
    for row in 0..rows {
        sums.push(row_sum(m, row))?;
    }
    Ok(sums)
}

/// The sum of one row.
fn row_sum(m: &Compressed, row: usize) -> i64
    requires { row + 1 < 2 ^ 64 }
    ensures { result ≡ row_sum m.now row }
{
    let first = natural(m.ptr.get(row));
    let end = natural(m.ptr.get(row + 1));
    let mut sum = 0;
    for at in first..end {
        sum = w64::add(sum, term(m, row, at));
    }
    sum
}

/// A number that isn't negative, and 0 for others.
fn natural(word: i64) -> usize
    ensures { result ≡ natural word }
{
    if word < 0 { 0 } else { word as usize }
}

/// What one stored place adds to the sum of its row.
fn term(m: &Compressed, row: usize, at: usize) -> i64
    ensures { result ≡ wrapped (term m.now row at) }
{
    let column = m.index.get(at);
    if i128::from(column) <= row as i128 {
        w64::mul(m.val.get(at), w64::add(column, 1))
    } else {
        0
    }
}
