// A whole matrix file.
ghost use Rattle.std.specs.Prelude.{◌≡◌, ◌<◌, ◌≤◌, ◌^◌, length, IfOk};
ghost use Rattle.std.specs.List.{All};
ghost use Rattle.mtx_read.specs.Reading.{Gives};
ghost use Rattle.mtx_read.specs.Files.{matrix};

use crate::entries::read_entries;
use crate::head::split_head;
use crate::header::matrix_header;
use crate::next::next_line;
use crate::refusal::MtxRefusal;
use crate::size::matrix_size;
use crate::triples::{Entries, Triples};
use std::alloc::Global;

/// The matrix that a text spells: its rows, columns and triples, or the first refusal in the order of
/// its lines, `Short` last, and `Big` with `Bytes` before all else. Each triple is inside the matrix, and
/// there are at most 2^24. One pass over the bytes; besides the text it holds the triples alone.
pub fn read_matrix(alloc: Global, bytes: &[u8]) -> Result<Triples, MtxRefusal>
    ensures gives { Gives (λ m. (m.rows, m.columns, m.entries)) result (matrix bytes.now) }
    ensures inside { IfOk result (λ m. All (λ t. (t.0 < m.rows) × (t.1 < m.columns)) m.entries) }
    ensures few { IfOk result (λ m. length m.entries ≤ 2 ^ 24) }
{
    let (first, rest) = match split_head(bytes) {
        Ok(head) => head,
        Err(refusal) => return Err(refusal),
    };
    let format = match matrix_header(first) {
        Ok(format) => format,
        Err(refusal) => return Err(refusal),
    };
    let (at, found) = next_line(2, rest);
    let Some((line, rest)) = found else {
        return Err(MtxRefusal::Size { line: at });
    };
    let shape = match matrix_size(&format, at, line) {
        Ok(shape) => shape,
        Err(refusal) => return Err(refusal),
    };
    match read_entries(alloc, &shape, at + 1, rest) {
        Ok(entries) => Ok(Triples {
            rows: shape.rows,
            columns: shape.columns,
            entries: Entries::from_vec(entries),
        }),
        Err(refusal) => Err(refusal),
    }
}
