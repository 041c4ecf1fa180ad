// The printed counts of a replay.
ghost use Rattle.std.specs.Prelude.{◌≡◌, IfOk};
ghost use Rattle.std.specs.String.{string_bytes};
ghost use Rattle.wave_report.specs.LooksText.{looks_text};

use crate::pieces::{put, put_number};
use core_machine::cores::CoreEnd;
use std::alloc::Global;
use wave_base::types::Memory;

/// The line of a replay's looks, and of those that passed: `looks A passed P`. It fails out of memory alone.
pub fn looks(alloc: Global, end: &CoreEnd) -> Result<String, Memory>
    ensures { IfOk result (λ text. string_bytes text ≡ looks_text end.now.looks end.now.passed) }
{
    let mut text = String::new(alloc);
    put_number(&mut text, "looks ", end.looks)?;
    put_number(&mut text, " passed ", end.passed)?;
    put(&mut text, "\n")?;
    Ok(text)
}
