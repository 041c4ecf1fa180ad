// Which arrays the lines write.
ghost use Rattle.std.specs.Prelude.{◌≡◌, ◌≤◌, ◌<◌, ◌^◌, ℕ, ◌==◌, ◌||◌, ◌+◌, min, [], ◌∷◌, length, IfOk};
ghost use Rattle.std.specs.List.{list_any};
ghost use Rattle.loop_syntax.specs.Scope.{empty, scope_after};
ghost use Rattle.loop_syntax.specs.Counts.{target, targets, reads, data_arrays, is_written};
ghost use Rattle.loop_syntax.specs.Flags.{is_flagged, AreFlagged, flagged};

use crate::numbered::Numbered;
use crate::resolve::number_of;
use crate::scope::Scope;
use loop_lines::line::Line;
use loop_lines::tree::{ArrayName, NamedExpr};
use std::alloc::Global;
use wave_base::types::Memory;

fn is_flagged(flags: &[bool], number: u32) -> bool
    ensures { result ≡ is_flagged flags.now number }
{
    match flags.get(number as usize) {
        Some(flag) => *flag,
        None => false,
    }
}

/// Flags one number more.
fn flag(flags: &mut Vec<bool>, number: u32) -> Result<(), Memory>
    ensures { IfOk result (λ _. (k : ℕ) → is_flagged flags.new.items k ≡ (k == number || is_flagged flags.old.items k)) }
{
    let number = number as usize;
    while flags.len() <= number {
        flags.push(false)?;
    }
    flags[number] = true;
    Ok(())
}

fn flag_target(flags: &mut Vec<bool>, scope: &Scope, line: &Line) -> Result<(), Memory>
    ensures { IfOk result (λ _. (k : ℕ) → is_flagged flags.new.items k ≡ (is_written (target scope.now line.now) k || is_flagged flags.old.items k)) }
{
    match line {
        Line::Set(array, _, _) => flag(flags, number_of(scope.use_of(array))),
        _ => Ok(()),
    }
}

/// Flags what a line writes, and goes past it.
fn step(flags: &mut Vec<bool>, scope: &mut Scope, next: &Numbered) -> Result<(), Memory>
    requires { scope.old.arrays + scope.old.locals + 4 < 2 ^ 32 }
    ensures flags { IfOk result (λ _. (k : ℕ) → is_flagged flags.new.items k ≡ (is_written (target scope.old next.now.line) k || is_flagged flags.old.items k)) }
    ensures scope { IfOk result (λ _. scope.new ≡ scope_after scope.old next.now) }
    ensures few { IfOk result (λ _. scope.new.arrays + scope.new.locals ≤ scope.old.arrays + scope.old.locals + 4) }
{
    flag_target(flags, scope, &next.line)?;
    scope.pass(next.number, &next.line)
}

/// A flag for each array number: whether some line writes the array.
pub fn written_arrays(alloc: Global, lines: &[Numbered]) -> Result<Vec<bool>, Memory>
    requires { length lines.now ≤ 2 ^ 28 }
    ensures { IfOk result (λ flags. AreFlagged flags.items (targets empty lines.now)) }
{
    let mut scope = Scope::new(alloc);
    let mut flags = Vec::new(alloc);
    for next in lines {
        step(&mut flags, &mut scope, next)?;
    }
    Ok(flags)
}

/// The references so far and that to an array, counted up to 17.
fn after_array(flags: &[bool], scope: &Scope, array: &ArrayName, before: u32) -> u32
    requires { before ≤ 17 }
    ensures { result ≡ min 17 (before + flagged flags.now scope.now (array.now ∷ [])) }
{
    let is_reference = is_flagged(flags, number_of(scope.use_of(array)));
    if is_reference && before < 17 {
        before + 1
    } else {
        before
    }
}

/// The references so far and those that an expression reads, counted up to 17.
fn after_value(flags: &[bool], scope: &Scope, value: &NamedExpr, before: u32) -> u32
    requires { before ≤ 17 }
    ensures { result ≡ min 17 (before + flagged flags.now scope.now (reads value.now)) }
{
    match value {
        NamedExpr::Lit(_) => before,
        NamedExpr::Read(array, _) => after_array(flags, scope, array, before),
        NamedExpr::Local(_) => before,
        NamedExpr::Op(_, left, right) => {
            let left = after_value(flags, scope, left.get(), before);
            after_value(flags, scope, right.get(), left)
        }
    }
}

/// The references to written arrays up to the end of a line, counted up to 17, from those before it.
pub fn after_line(flags: &[bool], scope: &Scope, line: &Line, before: u32) -> u32
    requires { before ≤ 17 }
    ensures { result ≡ min 17 (before + flagged flags.now scope.now (data_arrays line.now)) }
{
    match line {
        Line::Set(array, _, value) => {
            let reads = after_value(flags, scope, value, before);
            after_array(flags, scope, array, reads)
        }
        Line::Keep(_, value) => after_value(flags, scope, value, before),
        _ => before,
    }
}
