// The size line.
ghost use Rattle.std.specs.Prelude.{◌≡◌, ◌≤◌, ◌^◌, true, IfOk};
ghost use Rattle.text_base.specs.Lines.{trimmed};
ghost use Rattle.text_base.specs.Words.{words};
ghost use Rattle.mtx_read.specs.Size.{size_number, is_square, sized, matrix_size, tall, vector_size};

use crate::header::{Field, Format, Symmetry};
use crate::refusal::{BigKind, MtxRefusal};
use text_base::lines::trim_line;
use text_base::numbers::natural;
use text_base::words::next_word;

/// What the first line and the size line say.
#[derive(Clone, Copy, Debug, PartialEq, Eq)]
pub struct Shape {
    pub field: Field,
    pub symmetry: Symmetry,
    pub rows: u32,
    pub columns: u32,
    pub stored: u64,
}

/// The number of 1 to 18 digits.
fn size_number(word: &[u8]) -> Option<u64>
    ensures { result ≡ size_number word.now }
{
    if word.len() <= 18 {
        natural(word)
    } else {
        None
    }
}

fn sized(
    format: &Format,
    line: u32,
    rows: Option<u64>,
    columns: Option<u64>,
    stored: Option<u64>,
) -> Result<Shape, MtxRefusal>
    ensures gives { result ≡ sized format.now line rows columns stored }
    ensures few { IfOk result (λ s. s.stored ≤ 2 ^ 23) }
    ensures square { IfOk result (λ s. is_square s.symmetry s.rows s.columns ≡ true) }
{
    let (Some(rows), Some(columns), Some(stored)) = (rows, columns, stored) else {
        return Err(MtxRefusal::Size { line });
    };
    if format.symmetry != Symmetry::General && rows != columns {
        return Err(MtxRefusal::Size { line });
    }
    if rows > 1 << 20 {
        return Err(MtxRefusal::Big {
            what: BigKind::Rows,
            value: rows,
        });
    }
    if columns > 1 << 20 {
        return Err(MtxRefusal::Big {
            what: BigKind::Columns,
            value: columns,
        });
    }
    if stored > 1 << 23 {
        return Err(MtxRefusal::Big {
            what: BigKind::Stored,
            value: stored,
        });
    }
    Ok(Shape {
        field: format.field,
        symmetry: format.symmetry,
        rows: rows as u32,
        columns: columns as u32,
        stored,
    })
}

/// The shape that the size line of a matrix file gives. `at` is the line's number.
pub fn matrix_size(format: &Format, at: u32, line: &[u8]) -> Result<Shape, MtxRefusal>
    ensures gives { result ≡ matrix_size format.now at (words (trimmed line.now)) }
    ensures few { IfOk result (λ s. s.stored ≤ 2 ^ 23) }
    ensures square { IfOk result (λ s. is_square s.symmetry s.rows s.columns ≡ true) }
{
    let Some((rows, rest)) = next_word(trim_line(line)) else {
        return Err(MtxRefusal::Size { line: at });
    };
    let Some((columns, rest)) = next_word(rest) else {
        return Err(MtxRefusal::Size { line: at });
    };
    let Some((stored, rest)) = next_word(rest) else {
        return Err(MtxRefusal::Size { line: at });
    };
    if next_word(rest).is_some() {
        return Err(MtxRefusal::Size { line: at });
    }
    sized(
        format,
        at,
        size_number(rows),
        size_number(columns),
        size_number(stored),
    )
}

fn tall(line: u32, rows: Option<u64>, columns: Option<u64>) -> Result<u64, MtxRefusal>
    ensures { result ≡ tall line rows columns }
{
    let (Some(rows), Some(columns)) = (rows, columns) else {
        return Err(MtxRefusal::Size { line });
    };
    if columns != 1 {
        return Err(MtxRefusal::Size { line });
    }
    if rows > 1 << 24 {
        return Err(MtxRefusal::Big {
            what: BigKind::Rows,
            value: rows,
        });
    }
    Ok(rows)
}

/// The number of rows that the size line of a vector file gives. `at` is the line's number.
pub fn vector_size(at: u32, line: &[u8]) -> Result<u64, MtxRefusal>
    ensures { result ≡ vector_size at (words (trimmed line.now)) }
{
    let Some((rows, rest)) = next_word(trim_line(line)) else {
        return Err(MtxRefusal::Size { line: at });
    };
    let Some((columns, rest)) = next_word(rest) else {
        return Err(MtxRefusal::Size { line: at });
    };
    if next_word(rest).is_some() {
        return Err(MtxRefusal::Size { line: at });
    }
    tall(at, size_number(rows), size_number(columns))
}
