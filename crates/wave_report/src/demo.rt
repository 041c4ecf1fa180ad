// The first and the last line of a demo.
ghost use Rattle.std.specs.Prelude.{◌≡◌, IfOk};
ghost use Rattle.std.specs.String.{string_bytes};
ghost use Rattle.wave_report.specs.DemoText.{head_text, sum_text};

use crate::pieces::{put, put_number};
use itoa::Buffer;
use std::alloc::Global;
use wave_base::types::Memory;

/// The line of what is made, with the word of its kind and its number, and of the number of workers:
/// `demo KIND NUMBER workers W`. It fails out of memory alone.
pub fn head(alloc: Global, kind: &str, number: u32, workers: u32) -> Result<String, Memory>
    ensures { IfOk result (λ text. string_bytes text ≡ head_text kind.now number workers) }
{
    let mut text = String::from_str(alloc, "demo ")?;
    put(&mut text, kind)?;
    put_number(&mut text, " ", u64::from(number))?;
    put_number(&mut text, " workers ", u64::from(workers))?;
    put(&mut text, "\n")?;
    Ok(text)
}

/// The line of the sum of the values of `x`: `sum x S`. It fails out of memory alone.
pub fn sum(alloc: Global, value: i64) -> Result<String, Memory>
    ensures { IfOk result (λ text. string_bytes text ≡ sum_text value) }
{
    let mut buffer = Buffer::new();
    let mut text = String::from_str(alloc, "sum x ")?;
    put(&mut text, buffer.format(value))?;
    put(&mut text, "\n")?;
    Ok(text)
}
