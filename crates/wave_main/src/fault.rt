// The line that says why a call ended.
ghost use Rattle.std.specs.Prelude.{◌≡◌, ◌≤◌, length};
ghost use Rattle.wave_main.specs.Status.{spaced, name_word, limit_word, side_word, entry_word, big_word, matrix_words, shape_words, fault_line};

use crate::line::{Piece, ROOM, line_of, one, one_named, two};
use crate::status::{MtxFault, ShapeKind, Status};
use access_bounds::refusal::Side2;
use arrayvec::ArrayString;
use loop_syntax::refusal::{LimitKind, NameKind};
use mtx_read::refusal::{BigKind, EntryKind};

fn name_word(kind: NameKind) -> &'static str
    ensures word { result.now ≡ name_word kind }
    ensures short { length result.now ≤ 20 }
{
    match kind {
        NameKind::Unknown => "unknown",
        NameKind::Twice => "twice",
        NameKind::WrongKind => "wrong_kind",
        NameKind::WrittenIndex => "written_index",
    }
}

fn limit_word(kind: LimitKind) -> &'static str
    ensures word { result.now ≡ limit_word kind }
    ensures short { length result.now ≤ 20 }
{
    match kind {
        LimitKind::Length => "length",
        LimitKind::Lines => "lines",
        LimitKind::Constant => "constant",
        LimitKind::Arrays => "arrays",
        LimitKind::Locals => "locals",
        LimitKind::Depth => "depth",
        LimitKind::References => "references",
        LimitKind::Atoms => "atoms",
    }
}

fn side_word(side: Side2) -> &'static str
    ensures word { result.now ≡ side_word side }
    ensures short { length result.now ≤ 20 }
{
    match side {
        Side2::Low => "low",
        Side2::High => "high",
    }
}

fn entry_word(kind: EntryKind) -> &'static str
    ensures word { result.now ≡ entry_word kind }
    ensures short { length result.now ≤ 20 }
{
    match kind {
        EntryKind::Words => "words",
        EntryKind::Number => "number",
        EntryKind::Wide => "wide",
        EntryKind::Range => "range",
        EntryKind::AboveDiagonal => "above_diagonal",
        EntryKind::OnDiagonal => "on_diagonal",
    }
}

fn big_word(what: BigKind) -> &'static str
    ensures word { result.now ≡ big_word what }
    ensures short { length result.now ≤ 20 }
{
    match what {
        BigKind::Bytes => "bytes",
        BigKind::Rows => "rows",
        BigKind::Columns => "columns",
        BigKind::Stored => "stored",
    }
}

fn entry_line(word: u32, line: u32, kind: EntryKind) -> ArrayString<ROOM>
    ensures { result.bytes ≡ spaced (matrix_words word (MtxFault.Entry line kind)) }
{
    line_of(&[
        Piece::Text("matrix word"),
        Piece::Number(word as u64),
        Piece::Text("entry line"),
        Piece::Number(line as u64),
        Piece::Text(entry_word(kind)),
    ])
}

fn big_line(word: u32, what: BigKind, value: u64) -> ArrayString<ROOM>
    ensures { result.bytes ≡ spaced (matrix_words word (MtxFault.Big what value)) }
{
    line_of(&[
        Piece::Text("matrix word"),
        Piece::Number(word as u64),
        Piece::Text("big"),
        Piece::Text(big_word(what)),
        Piece::Number(value),
    ])
}

fn short_line(word: u32, have: u64, want: u64) -> ArrayString<ROOM>
    ensures { result.bytes ≡ spaced (matrix_words word (MtxFault.Short have want)) }
{
    line_of(&[
        Piece::Text("matrix word"),
        Piece::Number(word as u64),
        Piece::Text("short have"),
        Piece::Number(have),
        Piece::Text("want"),
        Piece::Number(want),
    ])
}

fn length_line(word: u32, have: u64, want: u64) -> ArrayString<ROOM>
    ensures { result.bytes ≡ spaced (shape_words (ShapeKind.Length word have want)) }
{
    line_of(&[
        Piece::Text("shape length word"),
        Piece::Number(word as u64),
        Piece::Text("have"),
        Piece::Number(have),
        Piece::Text("want"),
        Piece::Number(want),
    ])
}

fn order_line(place: u64, value: i64) -> ArrayString<ROOM>
    ensures { result.bytes ≡ spaced (shape_words (ShapeKind.Order place value)) }
{
    line_of(&[
        Piece::Text("shape order place"),
        Piece::Number(place),
        Piece::Text("value"),
        Piece::Signed(value),
    ])
}

/// The line of a file that is no matrix or vector.
fn matrix_line(word: u32, cause: MtxFault) -> ArrayString<ROOM>
    ensures { result.bytes ≡ spaced (matrix_words word cause) }
{
    match cause {
        MtxFault::Header => one_named("matrix word", word as u64, "header"),
        MtxFault::Field { word: place } => two("matrix word", word as u64, "field", place as u64),
        MtxFault::Size { line } => two("matrix word", word as u64, "size line", line as u64),
        MtxFault::Entry { line, kind } => entry_line(word, line, kind),
        MtxFault::Short { have, want } => short_line(word, have, want),
        MtxFault::Extra { line } => two("matrix word", word as u64, "extra line", line as u64),
        MtxFault::Big { what, value } => big_line(word, what, value),
    }
}

/// The line of shapes that don't fit.
fn shape_line(kind: ShapeKind) -> ArrayString<ROOM>
    ensures { result.bytes ≡ spaced (shape_words kind) }
{
    match kind {
        ShapeKind::NotSquare { rows, columns } => {
            two("shape rows", rows as u64, "columns", columns as u64)
        }
        ShapeKind::Files { have, want } => {
            two("shape files have", have as u64, "want", want as u64)
        }
        ShapeKind::Length { word, have, want } => length_line(word, have, want),
        ShapeKind::Order { place, value } => order_line(place, value),
    }
}

fn unbounded_line(line: u32, bracket: u32, side: Side2) -> ArrayString<ROOM>
    ensures { result.bytes ≡ fault_line (Status.Unbounded line bracket side) }
{
    line_of(&[
        Piece::Text("loop unbounded line"),
        Piece::Number(line as u64),
        Piece::Text("bracket"),
        Piece::Number(bracket as u64),
        Piece::Text(side_word(side)),
    ])
}

fn property_line(property: u32, first: u64, second: u64) -> ArrayString<ROOM>
    ensures { result.bytes ≡ fault_line (Status.Property property first second) }
{
    line_of(&[
        Piece::Text("property"),
        Piece::Number(property as u64),
        Piece::Text("first"),
        Piece::Number(first),
        Piece::Text("second"),
        Piece::Number(second),
    ])
}

/// The line that says why a call ended, which is empty after `Done`. It takes no memory.
pub fn fault_line(status: Status) -> ArrayString<ROOM>
    ensures { result.bytes ≡ fault_line status }
{
    match status {
        Status::Done => line_of(&[]),
        Status::Usage { word } => one("usage word", word as u64),
        Status::ReadFault { word } => one("read word", word as u64),
        Status::LoopText { line } => one("loop text line", line as u64),
        Status::LoopName { line, kind } => {
            one_named("loop name line", line as u64, name_word(kind))
        }
        Status::LoopLimit { line, kind } => {
            one_named("loop limit line", line as u64, limit_word(kind))
        }
        Status::Unbounded {
            line,
            bracket,
            side,
        } => unbounded_line(line, bracket, side),
        Status::MatrixText { word, cause } => matrix_line(word, cause),
        Status::Shape(kind) => shape_line(kind),
        Status::Property {
            property,
            first,
            second,
        } => property_line(property, first, second),
        Status::WriteFault => line_of(&[Piece::Text("write")]),
        Status::Memory => line_of(&[Piece::Text("memory")]),
    }
}
