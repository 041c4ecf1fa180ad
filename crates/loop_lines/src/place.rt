// What a line says, and where it stands in a loop file.
ghost use Rattle.std.specs.Prelude.{◌+◌, ◌<◌, ◌≡◌, ◌^◌, Option, Some, IfOk};
ghost use Rattle.loop_lines.specs.declared.line.Line.{Line};
ghost use Rattle.loop_lines.specs.Reading.{Gives};
ghost use Rattle.loop_lines.specs.Fitting.{is_skipped, text_line, open_blocks, heading_after, body_after, place_after};
ghost use Rattle.loop_lines.specs.TextLines.{IsTextLine};

use crate::forms::read_line;
use crate::lexer::read_tokens;
use crate::line::Line;
use crate::refusal::LineRefusal;
use std::alloc::Global;
use text_base::lines::trim_line;
use text_base::words::skip_blanks;

/// What stands above a line.
#[derive(Clone, Copy, Debug, PartialEq, Eq)]
pub enum Place {
    /// No loop, and perhaps the matrix.
    Heading { matrix: bool },
    /// The loop, with this many blocks open inside it.
    Inside { blocks: u32 },
    /// The loop and its end.
    Behind,
}

/// Whether a line has no words, or is a comment.
fn is_skipped(line: &[u8]) -> bool
    ensures { result ≡ is_skipped line.now }
{
    match skip_blanks(line) {
        [] => true,
        [first, ..] => *first == b'#',
    }
}

fn read_bytes(alloc: Global, line: &[u8]) -> Result<Option<Line>, LineRefusal>
    ensures { Gives (λ x. x) result (text_line line.now) }
{
    let line = trim_line(line);
    if line.len() > 200 {
        return Err(LineRefusal::Text);
    }
    if is_skipped(line) {
        return Ok(None);
    }
    let tokens = read_tokens(alloc, line)?;
    let line = read_line(alloc, tokens.as_slice())?;
    Ok(Some(line))
}

/// What a line of the text is, without its line feed: `None` where it is skipped. Refused exactly where it has
/// more than 200 bytes or its words and signs are no line of the grammar.
pub fn text_line(alloc: Global, line: &[u8]) -> Result<Option<Line>, LineRefusal>
    // What is read is of the grammar.
    ensures found { IfOk result (λ said. IsTextLine line.now said) }
    // What is of the grammar is read, unless memory runs out.
    ensures only { (said : Option Line) → IsTextLine line.now said → Gives (λ x. x) result (Some said) }
    ensures reading { Gives (λ x. x) result (text_line line.now) }
{
    read_bytes(alloc, line)
}

/// Declarations and properties stand above the loop, and the one matrix is among them.
fn heading_after(matrix: bool, line: &Line) -> Result<Place, LineRefusal>
    ensures { Gives (λ x. x) result (heading_after matrix line.now) }
{
    match line {
        Line::Matrix(_, _) => {
            if matrix {
                Err(LineRefusal::Text)
            } else {
                Ok(Place::Heading { matrix: true })
            }
        }
        Line::Index(_, _) => Ok(Place::Heading { matrix }),
        Line::Vector(_, _, _) => Ok(Place::Heading { matrix }),
        Line::Local(_) => Ok(Place::Heading { matrix }),
        Line::Prop(_) => Ok(Place::Heading { matrix }),
        Line::Loop(_) => {
            if matrix {
                Ok(Place::Inside { blocks: 0 })
            } else {
                Err(LineRefusal::Text)
            }
        }
        _ => Err(LineRefusal::Text),
    }
}

/// Loops, guards and statements stand in the loop, and each block has its end.
fn body_after(blocks: u32, line: &Line) -> Result<Place, LineRefusal>
    requires { blocks + 1 < 2 ^ 32 }
    ensures { Gives (λ x. x) result (body_after blocks line.now) }
{
    match line {
        Line::For(_, _, _) => Ok(Place::Inside { blocks: blocks + 1 }),
        Line::When(_, _, _) => Ok(Place::Inside { blocks: blocks + 1 }),
        Line::Set(_, _, _) => Ok(Place::Inside { blocks }),
        Line::Keep(_, _) => Ok(Place::Inside { blocks }),
        Line::End => {
            if blocks == 0 {
                Ok(Place::Behind)
            } else {
                Ok(Place::Inside { blocks: blocks - 1 })
            }
        }
        _ => Err(LineRefusal::Text),
    }
}

/// What stands above the line after this one. `Text` says that this one can't stand where it does.
pub fn place_after(place: Place, line: &Line) -> Result<Place, LineRefusal>
    requires { open_blocks place + 1 < 2 ^ 32 }
    ensures { Gives (λ x. x) result (place_after place line.now) }
{
    match place {
        Place::Heading { matrix } => heading_after(matrix, line),
        Place::Inside { blocks } => body_after(blocks, line),
        Place::Behind => Err(LineRefusal::Text),
    }
}
