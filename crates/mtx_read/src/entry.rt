// One line of a matrix's entries.
ghost use Rattle.std.specs.Prelude.{◌≡◌, Some, None, pos, ◌≤◌, ◌<◌, ◌^◌, length, IfSome};
ghost use Rattle.text_base.specs.Words.{words};
ghost use Rattle.text_base.specs.Lines.{trimmed};
ghost use Rattle.mtx_read.specs.Reading.{as_line, line_is, IsLine};
ghost use Rattle.mtx_read.specs.Quick.{AreTwoNumbers};
ghost use Rattle.mtx_read.specs.Entry.{placed, ranged, valued, entry, IsClamped};
ghost use Rattle.mtx_read.specs.declared.header.Field.TheVariants.{Integer, Pattern};

use crate::header::{Field, Symmetry};
use crate::refusal::EntryKind;
use crate::size::Shape;
use text_base::lines::{split_line, trim_line};
use text_base::numbers::integer;
use text_base::quick::{quick_close, quick_gap, quick_integer, quick_natural};
use text_base::words::{next_word, skip_blanks};

/// What a line after the size line is.
#[derive(Clone, Copy, Debug, PartialEq, Eq)]
pub enum Line<T> {
    Skipped,
    Refused(EntryKind),
    Entry(T),
}

fn place(symmetry: Symmetry, i: u32, j: u32, a: i64) -> Line<(u32, u32, i64)>
    ensures { result ≡ as_line (placed symmetry i j a) }
{
    match symmetry {
        Symmetry::General => Line::Entry((i, j, a)),
        Symmetry::Symmetric if i < j => Line::Refused(EntryKind::AboveDiagonal),
        Symmetry::Skew if i < j => Line::Refused(EntryKind::AboveDiagonal),
        Symmetry::Skew if i == j => Line::Refused(EntryKind::OnDiagonal),
        _ => Line::Entry((i, j, a)),
    }
}

#[inline(always)]
fn range(shape: &Shape, i: u64, j: u64, a: i64) -> Line<(u32, u32, i64)>
    ensures { result ≡ as_line (ranged shape.now (pos i) (pos j) a) }
{
    if 1 <= i && i <= u64::from(shape.rows) && 1 <= j && j <= u64::from(shape.columns) {
        place(shape.symmetry, (i - 1) as u32, (j - 1) as u32, a)
    } else {
        Line::Refused(EntryKind::Range)
    }
}

fn value(shape: &Shape, i: Option<i128>, j: Option<i128>, a: Option<i128>) -> Line<(u32, u32, i64)>
    requires i { IsClamped i }
    requires j { IsClamped j }
    ensures { result ≡ as_line (valued shape.now i j a) }
{
    let (Some(i), Some(j), Some(a)) = (i, j, a) else {
        return Line::Refused(EntryKind::Number);
    };
    if a < i128::from(i64::MIN) || i128::from(i64::MAX) < a {
        return Line::Refused(EntryKind::Wide);
    }
    if i < 0 || j < 0 {
        return Line::Refused(EntryKind::Range);
    }
    range(shape, i as u64, j as u64, a as i64)
}

/// A line read word by word.
fn line_by_words(shape: &Shape, line: &[u8]) -> Line<(u32, u32, i64)>
    ensures { result ≡ line_is (entry shape.now) (words (trimmed line.now)) }
{
    let (_rows, _columns) = (shape.rows, shape.columns);
    let Some((first, rest)) = next_word(trim_line(line)) else {
        return Line::Skipped;
    };
    if first[0] == b'%' {
        return Line::Skipped;
    }
    let Some((second, rest)) = next_word(rest) else {
        return Line::Refused(EntryKind::Words);
    };
    match shape.field {
        Field::Pattern => {
            if next_word(rest).is_some() {
                return Line::Refused(EntryKind::Words);
            }
            value(shape, integer(first), integer(second), Some(1))
        }
        Field::Integer => {
            let Some((third, rest)) = next_word(rest) else {
                return Line::Refused(EntryKind::Words);
            };
            if next_word(rest).is_some() {
                return Line::Refused(EntryKind::Words);
            }
            value(shape, integer(first), integer(second), integer(third))
        }
    }
}

/// Two plain numbers at the front, read byte by byte, and the text after them. `None` says nothing.
#[inline(always)]
fn two_numbers(bytes: &[u8]) -> Option<(u64, u64, &[u8])>
    ensures { IfSome result (λ x. AreTwoNumbers bytes.now x.0 x.1 x.2.now) }
{
    let start = skip_blanks(bytes);
    let Some((i, after_i)) = quick_natural(start) else {
        return None;
    };
    let Some(at_j) = quick_gap(after_i) else {
        return None;
    };
    let Some((j, after_j)) = quick_natural(at_j) else {
        return None;
    };
    Some((i, j, after_j))
}

/// A plain entry line of integers, read byte by byte. `None` says nothing.
#[inline(always)]
fn quick_integers<'a>(shape: &Shape, bytes: &'a [u8]) -> Option<(Line<(u32, u32, i64)>, &'a [u8])>
    requires { shape.now.field ≡ Integer }
    ensures { IfSome result (λ x. IsLine (entry shape.now) bytes.now x.0 x.1.now) }
{
    let Some((i, j, after_j)) = two_numbers(bytes) else {
        return None;
    };
    let Some(at_a) = quick_gap(after_j) else {
        return None;
    };
    let Some((a, after_a)) = quick_integer(at_a) else {
        return None;
    };
    let Some(rest) = quick_close(skip_blanks(after_a)) else {
        return None;
    };
    Some((range(shape, i, j, a), rest))
}

/// A plain entry line of a pattern, read byte by byte. `None` says nothing.
#[inline(always)]
fn quick_pattern<'a>(shape: &Shape, bytes: &'a [u8]) -> Option<(Line<(u32, u32, i64)>, &'a [u8])>
    requires { shape.now.field ≡ Pattern }
    ensures { IfSome result (λ x. IsLine (entry shape.now) bytes.now x.0 x.1.now) }
{
    let Some((i, j, after_j)) = two_numbers(bytes) else {
        return None;
    };
    let Some(rest) = quick_close(skip_blanks(after_j)) else {
        return None;
    };
    Some((range(shape, i, j, 1), rest))
}

#[inline(always)]
fn quick_line<'a>(shape: &Shape, bytes: &'a [u8]) -> Option<(Line<(u32, u32, i64)>, &'a [u8])>
    ensures { IfSome result (λ x. IsLine (entry shape.now) bytes.now x.0 x.1.now) }
{
    match shape.field {
        Field::Integer => quick_integers(shape, bytes),
        Field::Pattern => quick_pattern(shape, bytes),
    }
}

/// The first line, and the bytes after it.
#[inline(always)]
pub fn line_at<'a>(shape: &Shape, bytes: &'a [u8]) -> (Line<(u32, u32, i64)>, &'a [u8])
    ensures { IsLine (entry shape.now) bytes.now result.0 result.1.now }
{
    if let Some(found) = quick_line(shape, bytes) {
        return found;
    }
    let (line, rest) = split_line(bytes);
    (line_by_words(shape, line), rest)
}
