// A whole vector file.
ghost use Rattle.std.specs.Prelude.{◌≡◌};
ghost use Rattle.mtx_read.specs.Reading.{Gives};
ghost use Rattle.mtx_read.specs.Files.{vector};

use crate::head::split_head;
use crate::header::vector_header;
use crate::next::next_line;
use crate::refusal::MtxRefusal;
use crate::size::vector_size;
use crate::values::read_values;
use std::alloc::Global;

/// The values of the vector that a text spells, or the first refusal in the order of its lines, `Short`
/// last, and `Big` with `Bytes` before all else. One pass over the bytes.
pub fn read_vector(alloc: Global, bytes: &[u8]) -> Result<Vec<i64>, MtxRefusal>
    ensures { Gives (λ v. v.items) result (vector bytes.now) }
{
    let (first, rest) = match split_head(bytes) {
        Ok(head) => head,
        Err(refusal) => return Err(refusal),
    };
    match vector_header(first) {
        Ok(()) => {}
        Err(refusal) => return Err(refusal),
    }
    let (at, found) = next_line(2, rest);
    let Some((line, rest)) = found else {
        return Err(MtxRefusal::Size { line: at });
    };
    let rows = match vector_size(at, line) {
        Ok(rows) => rows,
        Err(refusal) => return Err(refusal),
    };
    read_values(alloc, rows, at + 1, rest)
}
