// A text's nest, or why it has none.
ghost use Rattle.std.specs.Prelude.{◌≡◌, ◌≤◌, ◌^◌, length, IfOk};
ghost use Rattle.text_base.specs.Lines.{lines};
ghost use Rattle.loop_core.specs.Depth.{body_depth};
ghost use Rattle.loop_core.specs.Sizes.{sizes};
ghost use Rattle.loop_lines.specs.Plain.{HasNames};
ghost use Rattle.loop_syntax.specs.TextNest.{broken, Answers};
ghost use Rattle.loop_syntax.specs.Texts.{IsAnswer};

use crate::build::build;
use crate::counts::first_limit;
use crate::names::first_fault;
use crate::numbered::{Cut, cut_lines};
use crate::refusal::LoopRefusal;
use loop_core::nest::Nest;
use std::alloc::Global;
use wave_base::types::Memory;

/// Why lines that fit are no nest: the first name that breaks a rule; else the first line that passes
/// a limit.
fn broken(alloc: Global, cut: &Cut) -> Result<Option<LoopRefusal>, Memory>
    requires { length cut.now.lines ≤ 2 ^ 28 }
    ensures { IfOk result (λ why. why ≡ broken cut.now.count cut.now.lines) }
{
    if let Some((line, kind)) = first_fault(alloc, cut.lines.as_slice())? {
        return Ok(Some(LoopRefusal::Name { line, kind }));
    }
    if let Some((line, kind)) = first_limit(alloc, cut)? {
        return Ok(Some(LoopRefusal::Limit { line, kind }));
    }
    Ok(None)
}

/// The nest that a text is. It goes once over the text and at most four times over its lines, finds
/// each name in constant expected time, and takes memory for the lines, for the names in scope and
/// for the nest. `Memory` says nothing of the text; the other refusals are those of the least line
/// that is wrong: `Text` goes first, then `Name`, then `Limit`.
pub fn read(alloc: Global, bytes: &[u8]) -> Result<Nest, LoopRefusal>
    requires { length bytes.now ≤ 2 ^ 28 }
    ensures answer { Answers (lines bytes.now) result }
    // The same, by the grammar of lines.
    ensures grammar { IsAnswer (lines bytes.now) result }
    // At most five loops stand in one another inside the outer one.
    ensures shallow { IfOk result (λ nest. body_depth nest.body ≤ 5) }
    ensures few { IfOk result (λ nest. length (sizes nest.decls) ≤ 64) }
    ensures few_locals { IfOk result (λ nest. length nest.locals ≤ 16) }
    // Names consist of letters, digits and `_`.
    ensures names { IfOk result HasNames }
{
    let cut = cut_lines(alloc, bytes)?;
    match broken(alloc, &cut)? {
        Some(why) => Err(why),
        None => Ok(build(alloc, cut.lines.as_slice())?),
    }
}
