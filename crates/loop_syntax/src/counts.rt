// The counts of a nest, each with the line at which it passes its limit.
ghost use Rattle.std.specs.Prelude.{◌≡◌, ◌≤◌, ◌<◌, ◌+◌, ◌^◌, min, ℕ, List, length, IfOk};
ghost use Rattle.std.specs.List.{filter};
ghost use Rattle.loop_syntax.specs.Scope.{empty, scope_after};
ghost use Rattle.loop_syntax.specs.Counts.{data_arrays, scope_limit, limits_at, is_within, first_passed, lines_limit, first_limit};
ghost use Rattle.loop_syntax.specs.Flags.{AreFlagged, flagged};

use crate::constants::line_has_constants;
use crate::numbered::{Cut, Numbered};
use crate::refusal::LimitKind;
use crate::scope::Scope;
use crate::written::{after_line, written_arrays};
use loop_lines::line::Line;
use std::alloc::Global;
use wave_base::types::Memory;

/// The limit that the scope after a line or the references up to its end pass.
fn scope_limit(after: &Scope, references: u32) -> Option<LimitKind>
    ensures { result ≡ scope_limit after.now references }
{
    if after.arrays() > 64 {
        Some(LimitKind::Arrays)
    } else if after.locals() > 16 {
        Some(LimitKind::Locals)
    } else if after.loops() > 6 {
        Some(LimitKind::Depth)
    } else if references > 16 {
        Some(LimitKind::References)
    } else {
        None
    }
}

/// The first limit that a line passes, with the scope after it and the references up to its end.
fn limit_at(line: &Line, after: &Scope, references: u32) -> Option<LimitKind>
    ensures { result ≡ limits_at line.now after.now references }
{
    if line_has_constants(line) {
        scope_limit(after, references)
    } else {
        Some(LimitKind::Constant)
    }
}

/// The first limit that a line passes; the scope goes past it, and its references are counted.
fn step(
    flags: &[bool],
    scope: &mut Scope,
    references: &mut u32,
    next: &Numbered,
) -> Result<Option<LimitKind>, Memory>
    requires few { scope.old.arrays + scope.old.locals + 4 < 2 ^ 32 }
    requires counted { references.old ≤ 17 }
    ensures limit { IfOk result (λ limit. limit ≡ limits_at next.now.line (scope_after scope.old next.now) references.new) }
    ensures scope { IfOk result (λ _. scope.new ≡ scope_after scope.old next.now) }
    ensures counted { references.new ≡ min 17 (references.old + flagged flags.now scope.old (data_arrays next.now.line)) }
{
    *references = after_line(flags, scope, &next.line, *references);
    scope.pass(next.number, &next.line)?;
    Ok(limit_at(&next.line, scope, *references))
}

/// The first of the lines up to line 400 that passes a limit, and which. Arrays that are written are
/// flagged.
fn first_passed(
    alloc: Global,
    flags: &[bool],
    lines: &[Numbered],
) -> Result<Option<(u32, LimitKind)>, Memory>
    ensures { (written : List ℕ) → AreFlagged flags.now written → IfOk result (λ passed. passed ≡ first_passed written empty 0 (filter is_within lines.now)) }
{
    let mut scope = Scope::new(alloc);
    let mut references = 0;
    for next in lines {
        if next.number > 400 {
            continue;
        }
        match step(flags, &mut scope, &mut references, next)? {
            Some(kind) => return Ok(Some((next.number, kind))),
            None => {}
        }
    }
    Ok(None)
}

fn lines_limit(count: u32) -> Option<(u32, LimitKind)>
    ensures { result ≡ lines_limit count }
{
    if count > 400 {
        Some((401, LimitKind::Lines))
    } else {
        None
    }
}

/// The first line that passes a limit, and which limit. It goes once over the lines for the arrays
/// that are written, and once over those up to line 400.
pub fn first_limit(alloc: Global, cut: &Cut) -> Result<Option<(u32, LimitKind)>, Memory>
    requires { length cut.now.lines ≤ 2 ^ 28 }
    ensures { IfOk result (λ passed. passed ≡ first_limit cut.now.count cut.now.lines) }
{
    let lines = cut.lines.as_slice();
    let written = written_arrays(alloc, lines)?;
    match first_passed(alloc, written.as_slice(), lines)? {
        Some(passed) => Ok(Some(passed)),
        None => Ok(lines_limit(cut.count)),
    }
}
