// The entry lines of a matrix.
ghost use Rattle.std.specs.Prelude.{◌≡◌, ◌+◌, ◌<◌, ◌^◌, ◌++◌, length, OnOk, IfErr};
ghost use Rattle.text_base.specs.Lines.{lines};
ghost use Rattle.mtx_read.specs.Reading.{Gives, kept, announced};
ghost use Rattle.mtx_read.specs.Entry.{entry, mirrored};
ghost use Rattle.mtx_read.specs.declared.refusal.MtxRefusal.TheVariants.{Memory};

use crate::entry::{Line, line_at};
use crate::header::{Field, Symmetry};
use crate::refusal::MtxRefusal;
use crate::size::Shape;
use crate::values::fitting;
use std::alloc::Global;

/// Adds an entry, and its mirror off the diagonal.
#[inline(always)]
fn push_entry(
    triples: &mut Vec<(u32, u32, i64)>,
    symmetry: Symmetry,
    triple: (u32, u32, i64),
) -> Result<(), MtxRefusal>
    ensures ok { OnOk result (triples.new.items ≡ triples.old.items ++ mirrored symmetry triple) }
    ensures err { IfErr result (λ e. e ≡ Memory) }
{
    let (i, j, a) = triple;
    triples.push(triple)?;
    match symmetry {
        Symmetry::General => {}
        Symmetry::Symmetric => {
            if i != j {
                triples.push((j, i, a))?;
            }
        }
        Symmetry::Skew => {
            triples.push((j, i, a.wrapping_neg()))?;
        }
    }
    Ok(())
}

/// How many triples to make room for: all that were announced, but no more than the text can hold.
fn room(shape: &Shape, bytes: usize) -> usize {
    let shortest_line = match shape.field {
        Field::Integer => 6,
        Field::Pattern => 4,
    };
    let lines = fitting(shape.stored, bytes, shortest_line);
    match shape.symmetry {
        Symmetry::General => lines,
        Symmetry::Symmetric | Symmetry::Skew => 2 * lines,
    }
}

/// The triples of the lines from the first on, as many entry lines as were announced.
pub fn read_entries(
    alloc: Global,
    shape: &Shape,
    first: u32,
    bytes: &[u8],
) -> Result<Vec<(u32, u32, i64)>, MtxRefusal>
    requires lines { first + length bytes.now < 2 ^ 32 }
    ensures { Gives (λ v. v.items) result
        (announced (entry shape.now) (mirrored shape.now.symmetry) shape.now.stored (kept first (lines bytes.now))) }
{
    let mut triples = Vec::with_capacity(alloc, room(shape, bytes.len()))?;
    let mut line = first;
    let mut have: u64 = 0;
    let mut rest = bytes;
    while !rest.is_empty() {
        let (found, after) = line_at(shape, rest);
        let at = line;
        rest = after;
        line += 1;
        match found {
            Line::Skipped => {}
            Line::Refused(kind) => {
                if have == shape.stored {
                    return Err(MtxRefusal::Extra { line: at });
                }
                return Err(MtxRefusal::Entry { line: at, kind });
            }
            Line::Entry(triple) => {
                if have == shape.stored {
                    return Err(MtxRefusal::Extra { line: at });
                }
                push_entry(&mut triples, shape.symmetry, triple)?;
                have += 1;
            }
        }
    }
    if have < shape.stored {
        return Err(MtxRefusal::Short {
            have,
            want: shape.stored,
        });
    }
    Ok(triples)
}
