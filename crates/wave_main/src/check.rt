// The command `check`.
ghost use Rattle.std.specs.Prelude.{◌≡◌, ◌⊎◌, ◌<◌, ◌≤◌, ◌+◌, ◌++◌, ◌^◌, ℕ, List, MatchResult, IfOk, IfErr, length, codes, decimal};
ghost use Rattle.wave_words.specs.Words.{texts};
ghost use Rattle.wave_words.specs.declared.form.Form.TheVariants.{Check};
ghost use Rattle.wave_main.specs.Commands.{IsAsked, first_file};
ghost use Rattle.wave_main.specs.Fetching.{AreInputs};
ghost use Rattle.wave_main.specs.Files.{Inputs};
ghost use Rattle.wave_main.specs.Making.{IsMade, IsMissed};
ghost use Rattle.wave_main.specs.Stages.{AcceptAll, IsRefusedBy, input_stages};
ghost use Rattle.wave_main.specs.Status.{line};
ghost use Rattle.wave_main.specs.Texts.{CheckPrints};

use crate::fetch::{InputBytes, fetch_inputs};
use crate::input::input_of;
use crate::status::Status;
use itoa::Buffer;
use std::alloc::Global;
use wave_base::types::Memory;
use wave_io::library::Library;

fn passed_text(alloc: Global, count: usize) -> Result<Vec<u8>, Memory>
    ensures { IfOk result (λ text. text.items ≡ line (codes "passed " ++ decimal count)) }
{
    let mut text = Vec::new(alloc);
    let mut buffer = Buffer::new();
    text.extend_from_slice(b"passed ")?;
    text.extend_from_slice(buffer.format(count).as_bytes())?;
    text.push(b'\n')?;
    Ok(text)
}

/// How many properties the loop declares, all of which the arrays have; or the first refusal of the
/// files.
fn check_text(alloc: Global, files: InputBytes, first: u32) -> Result<Vec<u8>, Status>
    requires { first + length files.vectors.items < 2 ^ 32 }
    ensures { (inputs : Inputs) → AreInputs inputs files → inputs.first ≡ first → inputs.skips ≡ 0
        → MatchResult result (λ text. CheckPrints inputs text.items × AcceptAll input_stages inputs) (λ status. (status ≡ Status.Memory) ⊎ IsRefusedBy input_stages inputs status) }
{
    let input = input_of(alloc, files, first)?;
    let text = passed_text(alloc, input.nest.nest().props.as_slice().len())?;
    Ok(text)
}

/// The text that a check prints, or why it prints none. The first vector is named by the word
/// `first`.
pub fn make_check<L: Library>(
    alloc: Global,
    lib: &mut L,
    words: &[String],
    first: u32,
) -> Result<Vec<u8>, Status>
    requires asked { IsAsked (texts words.now) Check }
    requires places { first ≡ first_file Check }
    requires few { length words.now < 2 ^ 32 }
    ensures made { IfOk result (λ text. IsMade (L.held lib.old) (texts words.now) text.items) }
    ensures missed { IfErr result (IsMissed (L.held lib.old) (texts words.now) (L.faults lib.old) (L.faults lib.new)) }
    ensures never_fall { (other : List ℕ) → L.faults lib.old other ≤ L.faults lib.new other }
    ensures stays { (other : List ℕ) → L.held lib.new other ≡ L.held lib.old other }
{
    let files = fetch_inputs(alloc, lib, words, first)?;
    check_text(alloc, files, first)
}
