// A text, cut into the lines that have words.
ghost use Rattle.std.specs.Prelude.{◌≡◌, ◌+◌, ◌/◌, ◌≤◌, ◌<◌, ◌^◌, [], ◌∷◌, ◌++◌, length, IfOk};
ghost use Rattle.text_base.specs.Lines.{lines};
ghost use Rattle.loop_lines.specs.Fitting.{open_blocks, next_place, place_after as next_after, text_line as line_of};
ghost use Rattle.loop_syntax.specs.Numbered.{worded, before};
ghost use Rattle.loop_syntax.specs.Cutting.{IsKept, IsCut};

use crate::refusal::LoopRefusal;
use loop_lines::line::Line;
use loop_lines::place::{Place, place_after, text_line};
use loop_lines::refusal::LineRefusal;
use sqlite_items::Items;
use std::alloc::Global;
use text_base::lines::split_line;
use wave_base::types::Memory;

/// A line that has words, with its number, which counts from 1.
#[derive(Drop)]
pub struct Numbered {
    pub number: u32,
    pub line: Line,
}

/// The lines of a text that have words, and how many lines the text has, those without words among
/// them.
#[derive(Drop)]
pub struct Cut {
    pub count: u32,
    pub lines: Items<Numbered>,
}

/// How many lines there is room for: one for each line feed, and one more. Lines that fit are more
/// than six bytes long on average, since each `end` ends a block.
fn room(bytes: &[u8]) -> usize
    ensures { result ≤ length bytes.now / 6 + 1 }
{
    let most = bytes.len() / 6 + 1;
    let mut count = 1;
    for byte in bytes {
        if *byte == b'\n' && count < most {
            count += 1;
        }
    }
    count
}

fn with_room(alloc: Global, room: usize) -> Result<Items<Numbered>, Memory>
    ensures { IfOk result (λ kept. kept ≡ []) }
{
    Ok(Items::from_vec(Vec::with_capacity(alloc, room)?))
}

fn push(kept: &mut Items<Numbered>, number: u32, line: Line) -> Result<(), Memory>
    ensures { IfOk result (λ _. kept.new ≡ kept.old ++ record { number = number; line = line } ∷ []) }
{
    kept.push(Numbered { number, line })?;
    Ok(())
}

/// Keeps a line, where it can stand at its place.
fn keep(
    kept: &mut Items<Numbered>,
    number: u32,
    place: Place,
    line: Line,
) -> Result<Place, LoopRefusal>
    requires { open_blocks place + 1 < 2 ^ 32 }
    ensures { IsKept number (next_after place line) (kept.old ++ record { number = number; line = line } ∷ []) kept.new result }
{
    match place_after(place, &line) {
        Ok(next) => {
            push(kept, number, line)?;
            Ok(next)
        }
        Err(LineRefusal::Text) => Err(LoopRefusal::Text { line: number }),
        Err(LineRefusal::Memory) => Err(LoopRefusal::Memory),
    }
}

/// Keeps a line of the text that has words, where it is of a form and can stand at its place.
fn take(
    alloc: Global,
    kept: &mut Items<Numbered>,
    number: u32,
    place: Place,
    line: &[u8],
) -> Result<Place, LoopRefusal>
    requires { open_blocks place + 1 < 2 ^ 32 }
    ensures { IsKept number (next_place place line.now) (kept.old ++ before number (worded (line_of line.now)) []) kept.new result }
{
    match text_line(alloc, line) {
        Ok(None) => Ok(place),
        Ok(Some(line)) => keep(kept, number, place, line),
        Err(LineRefusal::Text) => Err(LoopRefusal::Text { line: number }),
        Err(LineRefusal::Memory) => Err(LoopRefusal::Memory),
    }
}

/// The lines of a text that have words. `Text` names the least line that has no form of the language
/// or doesn't fit the lines above it; a missing loop or end is missing on the line after the last. It
/// goes once over the text, and the room for the lines is taken before.
pub fn cut_lines(alloc: Global, bytes: &[u8]) -> Result<Cut, LoopRefusal>
    requires { length bytes.now ≤ 2 ^ 28 }
    ensures answer { IsCut (lines bytes.now) result }
    ensures short { IfOk result (λ cut. length cut.lines ≤ 2 ^ 28) }
{
    let mut kept = with_room(alloc, room(bytes))?;
    let mut place = Place::Heading { matrix: false };
    let mut number: u32 = 1;
    let mut rest = bytes;
    while !rest.is_empty() {
        let (line, after) = split_line(rest);
        place = take(alloc, &mut kept, number, place, line)?;
        number += 1;
        rest = after;
    }
    match place {
        Place::Behind => Ok(Cut {
            count: number - 1,
            lines: kept,
        }),
        _ => Err(LoopRefusal::Text { line: number }),
    }
}
