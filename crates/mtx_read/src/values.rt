// The value lines of a vector.
ghost use Rattle.std.specs.Prelude.{◌≡◌, ◌+◌, ◌/◌, ◌≤◌, ◌<◌, ◌^◌, length, IfSome};
ghost use Rattle.text_base.specs.Lines.{lines, trimmed};
ghost use Rattle.text_base.specs.Words.{words};
ghost use Rattle.mtx_read.specs.Reading.{as_line, line_is, IsLine, Gives, kept, announced};
ghost use Rattle.mtx_read.specs.Entry.{fitted, value, alone};

use crate::entry::Line;
use crate::refusal::{EntryKind, MtxRefusal};
use std::alloc::Global;
use text_base::lines::{split_line, trim_line};
use text_base::numbers::integer;
use text_base::quick::{quick_close, quick_integer};
use text_base::words::{next_word, skip_blanks};

fn fit(a: Option<i128>) -> Line<i64>
    ensures { result ≡ as_line (fitted a) }
{
    let Some(a) = a else {
        return Line::Refused(EntryKind::Number);
    };
    if a < i128::from(i64::MIN) || i128::from(i64::MAX) < a {
        return Line::Refused(EntryKind::Wide);
    }
    Line::Entry(a as i64)
}

/// A line read word by word.
fn value_by_words(line: &[u8]) -> Line<i64>
    ensures { result ≡ line_is value (words (trimmed line.now)) }
{
    let Some((first, rest)) = next_word(trim_line(line)) else {
        return Line::Skipped;
    };
    if first[0] == b'%' {
        return Line::Skipped;
    }
    if next_word(rest).is_some() {
        return Line::Refused(EntryKind::Words);
    }
    fit(integer(first))
}

/// A plain value line, read byte by byte. `None` says nothing.
#[inline(always)]
fn quick_value(bytes: &[u8]) -> Option<(Line<i64>, &[u8])>
    ensures { IfSome result (λ x. IsLine value bytes.now x.0 x.1.now) }
{
    let start = skip_blanks(bytes);
    let Some((a, after_a)) = quick_integer(start) else {
        return None;
    };
    let Some(rest) = quick_close(skip_blanks(after_a)) else {
        return None;
    };
    Some((Line::Entry(a), rest))
}

/// The first line, and the bytes after it.
#[inline(always)]
fn value_at(bytes: &[u8]) -> (Line<i64>, &[u8])
    ensures { IsLine value bytes.now result.0 result.1.now }
{
    if let Some(found) = quick_value(bytes) {
        return found;
    }
    let (line, rest) = split_line(bytes);
    (value_by_words(line), rest)
}

/// How many of the announced lines a text has room for.
pub fn fitting(announced: u64, bytes: usize, shortest_line: usize) -> usize
    requires { 2 ≤ shortest_line }
    ensures { result ≤ bytes / shortest_line + 1 }
{
    let most = bytes / shortest_line + 1;
    if announced < most as u64 {
        announced as usize
    } else {
        most
    }
}

/// The values of the lines from the first on, one for each row.
pub fn read_values(
    alloc: Global,
    rows: u64,
    first: u32,
    bytes: &[u8],
) -> Result<Vec<i64>, MtxRefusal>
    requires lines { first + length bytes.now < 2 ^ 32 }
    ensures { Gives (λ v. v.items) result (announced value alone rows (kept first (lines bytes.now))) }
{
    let mut values = Vec::with_capacity(alloc, fitting(rows, bytes.len(), 2))?;
    let mut line = first;
    let mut have: u64 = 0;
    let mut rest = bytes;
    while !rest.is_empty() {
        let (found, after) = value_at(rest);
        let at = line;
        rest = after;
        line += 1;
        match found {
            Line::Skipped => {}
            Line::Refused(kind) => {
                if have == rows {
                    return Err(MtxRefusal::Extra { line: at });
                }
                return Err(MtxRefusal::Entry { line: at, kind });
            }
            Line::Entry(a) => {
                if have == rows {
                    return Err(MtxRefusal::Extra { line: at });
                }
                values.push(a)?;
                have += 1;
            }
        }
    }
    if have < rows {
        return Err(MtxRefusal::Short { have, want: rows });
    }
    Ok(values)
}
