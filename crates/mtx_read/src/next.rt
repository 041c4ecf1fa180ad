// The lines that aren't skipped.
ghost use Rattle.std.specs.Prelude.{◌≡◌, ◌+◌, ◌<◌, ◌^◌, length};
ghost use Rattle.text_base.specs.Lines.{trimmed};
ghost use Rattle.text_base.specs.Words.{words};
ghost use Rattle.mtx_read.specs.Reading.{is_skipped, IsNext};

use text_base::lines::{split_line, trim_line};
use text_base::words::next_word;

/// Whether a line has no words, or is a comment.
fn is_skipped(line: &[u8]) -> bool
    ensures { result ≡ is_skipped (words (trimmed line.now)) }
{
    match next_word(trim_line(line)) {
        None => true,
        Some((word, _)) => word[0] == b'%',
    }
}

/// The next line that isn't skipped, with its number and the text after it. Without one the number is
/// that of the line after the last.
pub fn next_line(first: u32, bytes: &[u8]) -> (u32, Option<(&[u8], &[u8])>)
    requires { first + length bytes.now < 2 ^ 32 }
    ensures { IsNext first bytes.now result.0 result.1 }
{
    let mut rest = bytes;
    let mut at = first;
    while !rest.is_empty() {
        let (line, after) = split_line(rest);
        if !is_skipped(line) {
            return (at, Some((line, after)));
        }
        at += 1;
        rest = after;
    }
    (at, None)
}
