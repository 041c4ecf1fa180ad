// The command `run`.
ghost use Rattle.std.specs.Prelude.{◌≡◌, ◌⊎◌, ◌<◌, ◌≤◌, ◌+◌, ◌++◌, ◌^◌, ℕ, List, MatchResult, IfOk, IfErr, OnOk, length};
ghost use Rattle.std.specs.String.{string_bytes};
ghost use Rattle.loop_core.specs.Sequence.{sequential};
ghost use Rattle.core_machine.specs.FitWork.{IsFitWork};
ghost use Rattle.done_words.specs.Sound.{IsClosed};
ghost use Rattle.wave_report.specs.ArrayText.{arrays_text};
ghost use Rattle.wave_report.specs.SummaryText.{summary_text};
ghost use Rattle.wave_words.specs.Words.{texts};
ghost use Rattle.wave_words.specs.declared.form.Form.TheVariants.{Run};
ghost use Rattle.wave_main.specs.Commands.{IsAsked, first_file};
ghost use Rattle.wave_main.specs.Fetching.{AreInputs};
ghost use Rattle.wave_main.specs.Files.{Inputs};
ghost use Rattle.wave_main.specs.Making.{IsMade, IsMissed};
ghost use Rattle.wave_main.specs.Planning.{HasText, work_of};
ghost use Rattle.wave_main.specs.Run.{run_text};
ghost use Rattle.wave_main.specs.Sound.{IsSound};
ghost use Rattle.wave_main.specs.Stages.{AcceptAll, IsRefusedBy, input_stages};

use crate::fetch::{InputBytes, fetch_inputs};
use crate::laws::sound_works_are_fit;
use crate::status::Status;
use crate::words::workers_of;
use crate::work::{Planned, core_work, planned_of, summary_of};
use core_machine::work::Work;
use done_words::board::Board;
use loop_core::values::Values;
use p2p_team::team::run_team;
use std::sync::Wait;
use std::thread::Threads;
use wave_base::types::Memory;
use wave_io::gate::Gate;
use wave_io::library::Library;
use wave_report::arrays::arrays as arrays_text;
use wave_report::counts::Summary;
use wave_report::laws::nests_can_be_printed;
use wave_report::summary::summary;

/// The data arrays of a fit work after all of its workers have run.
pub fn team_values<R: AllocGlobal + Threads + Wait + Sync, G: Gate + Sync>(
    rt: &R,
    work: &Work,
    gate: &G,
) -> Result<Values, Memory>
    requires fit { IsFitWork work.now }
    ensures { IfOk result (IsClosed work.now work.now.values) }
{
    let mut values = work.values.copy(rt.alloc())?;
    let (board, mut main) = Board::new(rt.alloc(), work)?;
    run_team(rt, rt.alloc(), work, &board, &mut main, gate)?;
    board.close(main, &mut values);
    Ok(values)
}

// Runs a fit work, and puts the arrays that its loop writes after a text.
#[tactic(auto, using(crate::proofs::TeamLaws::closed_text))]
fn put_ran<R: AllocGlobal + Threads + Wait + Sync, G: Gate + Sync>(
    rt: &R,
    text: &mut String,
    work: &Work,
    gate: &G,
) -> Result<(), Memory>
    requires fit { IsFitWork work.now }
    ensures { OnOk result (string_bytes text.new
        ≡ string_bytes text.old ++ arrays_text work.now.nest (sequential work.now.nest work.now.arrays work.now.values)) }
{
    nests_can_be_printed();
    let values = team_values(rt, work, gate)?;
    let ran = arrays_text(rt.alloc(), &work.nest, &values)?;
    text.push_str(ran.as_str())?;
    Ok(())
}

// The text of a fit work with these numbers.
fn ran<R: AllocGlobal + Threads + Wait + Sync, G: Gate + Sync>(
    rt: &R,
    numbers: &Summary,
    work: &Work,
    gate: &G,
) -> Result<Vec<u8>, Memory>
    requires fit { IsFitWork work.now }
    ensures { IfOk result (λ text. text.items
        ≡ summary_text numbers.now ++ arrays_text work.now.nest (sequential work.now.nest work.now.arrays work.now.values)) }
{
    let mut text = summary(rt.alloc(), numbers)?;
    put_ran(rt, &mut text, work, gate)?;
    Ok(text.into_bytes())
}

// The text of a work that is planned.
fn planned_text<R: AllocGlobal + Threads + Wait + Sync, G: Gate + Sync>(
    rt: &R,
    planned: Planned,
    workers: u32,
    gate: &G,
) -> Result<Vec<u8>, Memory>
    requires sound { IsSound (work_of planned workers) }
    ensures { IfOk result (λ text. text.items ≡ run_text (work_of planned workers) planned.verdicts) }
{
    sound_works_are_fit();
    let numbers = summary_of(&planned)?;
    let work = core_work(rt.alloc(), planned)?;
    ran(rt, &numbers, &work, gate)
}

/// The summary of a work, and the arrays that its loop writes, as the loop run in order leaves them; or
/// the first refusal of the files.
fn run_text<R: AllocGlobal + Threads + Wait + Sync, G: Gate + Sync>(
    rt: &R,
    files: InputBytes,
    first: u32,
    workers: u32,
    gate: &G,
) -> Result<Vec<u8>, Status>
    requires few_files { first + length files.vectors.items < 2 ^ 32 }
    requires some { 1 ≤ workers }
    requires few { workers ≤ 64 }
    ensures { (inputs : Inputs) → AreInputs inputs files → inputs.first ≡ first → inputs.skips ≡ 0
        → MatchResult result (λ text. HasText inputs workers run_text text.items × AcceptAll input_stages inputs) (λ status. (status ≡ Status.Memory) ⊎ IsRefusedBy input_stages inputs status) }
{
    let planned = planned_of(rt, files, first, workers)?;
    let text = planned_text(rt, planned, workers, gate)?;
    Ok(text)
}

/// The text that a run prints, or why it prints none. The first vector is named by the word `first`.
///
/// Each worker passes the gate before each of its tasks. It may wait forever: no return is promised.
pub fn make_run<R: AllocGlobal + Threads + Wait + Sync, L: Library, G: Gate + Sync>(
    rt: &R,
    lib: &mut L,
    words: &[String],
    first: u32,
    gate: &G,
) -> Result<Vec<u8>, Status>
    requires asked { IsAsked (texts words.now) Run }
    requires places { first ≡ first_file Run }
    requires few { length words.now < 2 ^ 32 }
    ensures made { IfOk result (λ text. IsMade (L.held lib.old) (texts words.now) text.items) }
    ensures missed { IfErr result (IsMissed (L.held lib.old) (texts words.now) (L.faults lib.old) (L.faults lib.new)) }
    ensures never_fall { (other : List ℕ) → L.faults lib.old other ≤ L.faults lib.new other }
    ensures stays { (other : List ℕ) → L.held lib.new other ≡ L.held lib.old other }
{
    let files = fetch_inputs(rt.alloc(), lib, words, first)?;
    run_text(rt, files, first, workers_of(words), gate)
}
