// The command `replay`.
ghost use Rattle.std.specs.Prelude.{◌≡◌, ◌⊎◌, ◌<◌, ◌≤◌, ◌+◌, ◌++◌, ◌^◌, ℕ, List, MatchResult, IfOk, IfErr, OnOk, length};
ghost use Rattle.std.specs.List.{All};
ghost use Rattle.std.specs.String.{string_bytes};
ghost use Rattle.loop_core.specs.IsNest.{IsNest};
ghost use Rattle.loop_core.specs.Lengths.{HaveLengths};
ghost use Rattle.index_props.specs.Meanings.{Passes};
ghost use Rattle.core_machine.specs.FitWork.{IsFitWork, IsWorker};
ghost use Rattle.wave_report.specs.ArrayText.{arrays_text};
ghost use Rattle.wave_report.specs.LooksText.{looks_text};
ghost use Rattle.wave_report.specs.SummaryText.{summary_text};
ghost use Rattle.wave_words.specs.Words.{texts};
ghost use Rattle.wave_words.specs.declared.form.Form.TheVariants.{Replay};
ghost use Rattle.wave_main.specs.Commands.{IsAsked, first_file};
ghost use Rattle.wave_main.specs.Fetching.{AreInputs};
ghost use Rattle.wave_main.specs.Files.{Inputs};
ghost use Rattle.wave_main.specs.Making.{IsMade, IsMissed};
ghost use Rattle.wave_main.specs.Matrices.{vectors_of};
ghost use Rattle.wave_main.specs.Orders.{order_of};
ghost use Rattle.wave_main.specs.Planning.{work_of};
ghost use Rattle.wave_main.specs.Replay.{AreLooks, replay_text};
ghost use Rattle.wave_main.specs.Replaying.{HasEnd, HasReplay, IsOrdered};
ghost use Rattle.wave_main.specs.Run.{IsInput};
ghost use Rattle.wave_main.specs.Sound.{IsSound};
ghost use Rattle.wave_main.specs.Stages.{AcceptAll, IsRefusedBy, array_stages, replay_stages};

use crate::fetch::{InputBytes, fetch_inputs};
use crate::input::{Input, bound_input, check_properties, read_files};
use crate::laws::sound_works_are_fit;
use crate::order::workers_of_order;
use crate::status::Status;
use crate::words::workers_of;
use crate::work::{Planned, core_work, summary_of, with_plan};
use core_machine::cores::{Core, CoreEnd};
use core_machine::work::Work;
use loop_core::nest::Nest;
use std::alloc::Global;
use std::thread::Threads;
use wave_base::types::Memory;
use wave_base::words::Words;
use wave_io::library::Library;
use wave_report::arrays::arrays as put_arrays;
use wave_report::counts::Summary;
use wave_report::laws::nests_can_be_printed;
use wave_report::looks::looks;
use wave_report::summary::summary;

/// A loop with its arrays, and the order in which workers make events.
#[derive(Drop)]
pub struct Ordered {
    pub input: Input,
    pub order: Vec<u32>,
}

// The loop with its arrays, and the entries of the order, which is the first vector; or the first
// refusal, order and properties aside.
fn bound_with_order(alloc: Global, files: InputBytes, first: u32) -> Result<(Input, Words), Status>
    requires few_files { first + length files.vectors.items < 2 ^ 32 }
    requires some_file { 1 ≤ length files.vectors.items }
    ensures answer { (inputs : Inputs) → AreInputs inputs files → inputs.first ≡ first → inputs.skips ≡ 1
        → MatchResult result (λ r. IsInput inputs r.0 × (r.1 ≡ order_of (vectors_of inputs.vectors)) × AcceptAll array_stages inputs) (λ status. (status ≡ Status.Memory) ⊎ IsRefusedBy array_stages inputs status) }
    ensures lengths { IfOk result (λ r. HaveLengths r.0.nest.decls r.0.arrays r.0.values) }
    ensures few_properties { IfOk result (λ r. length r.0.nest.props < 2 ^ 32) }
{
    let mut read = read_files(alloc, files, first)?;
    let entries = read.vectors.remove(0);
    let input = bound_input(alloc, read, first + 1)?;
    Ok((input, entries))
}

/// The loop and the arrays of files that were fetched, which have the declared properties, and the
/// workers of the order, which is the first vector; or the first refusal.
fn ordered_input(
    alloc: Global,
    files: InputBytes,
    first: u32,
    workers: u32,
) -> Result<Ordered, Status>
    requires few_files { first + length files.vectors.items < 2 ^ 32 }
    requires some_file { 1 ≤ length files.vectors.items }
    ensures answer { (inputs : Inputs) → AreInputs inputs files → inputs.first ≡ first → inputs.skips ≡ 1
        → MatchResult result (λ ordered. IsOrdered inputs ordered × AcceptAll (replay_stages workers) inputs) (λ status. (status ≡ Status.Memory) ⊎ IsRefusedBy (replay_stages workers) inputs status) }
    ensures lengths { IfOk result (λ ordered. HaveLengths ordered.input.nest.decls ordered.input.arrays ordered.input.values) }
    ensures passes { IfOk result (λ ordered. Passes ordered.input.nest.props ordered.input.arrays) }
    ensures workers { IfOk result (λ ordered. All (λ k. k < workers) ordered.order.items) }
{
    let (input, entries) = bound_with_order(alloc, files, first)?;
    let order = workers_of_order(alloc, entries.as_slice(), workers)?;
    check_properties(alloc, &input)?;
    Ok(Ordered { input, order })
}

// Puts the looks and the arrays of a replay after a text.
fn put_end(alloc: Global, text: &mut String, nest: &Nest, end: &CoreEnd) -> Result<(), Memory>
    requires { IsNest nest.now }
    ensures { OnOk result (string_bytes text.new
        ≡ string_bytes text.old ++ (looks_text end.now.looks end.now.passed ++ arrays_text nest.now end.now.values)) }
{
    nests_can_be_printed();
    let said = looks(alloc, end)?;
    text.push_str(said.as_str())?;
    let arrays = put_arrays(alloc, nest, &end.values)?;
    text.push_str(arrays.as_str())?;
    Ok(())
}

// Replays an order of a fit work, and puts its looks and its arrays after a text.
fn put_replay(alloc: Global, text: &mut String, work: &Work, order: &[u32]) -> Result<(), Memory>
    requires fit { IsFitWork work.now }
    requires order { All (IsWorker work.now) order.now }
    ensures { OnOk result ((end : List ℕ) × HasEnd work.now order.now end × (string_bytes text.new ≡ string_bytes text.old ++ end)) }
{
    let core = Core::start(alloc, work)?;
    let end = core.replay(order);
    put_end(alloc, text, &work.nest, &end)
}

// The text of a fit work with these numbers, replayed in an order.
fn end_text(alloc: Global, numbers: &Summary, work: &Work, order: &[u32]) -> Result<Vec<u8>, Memory>
    requires fit { IsFitWork work.now }
    requires order { All (IsWorker work.now) order.now }
    ensures { IfOk result (λ text. (end : List ℕ) × HasEnd work.now order.now end × (text.items ≡ summary_text numbers.now ++ end)) }
{
    let mut text = summary(alloc, numbers)?;
    put_replay(alloc, &mut text, work, order)?;
    Ok(text.into_bytes())
}

// The text of a work that is planned, replayed in an order.
fn replayed(alloc: Global, planned: Planned, order: &[u32], workers: u32) -> Result<Vec<u8>, Memory>
    requires sound { IsSound (work_of planned workers) }
    requires order { All (λ k. k < workers) order.now }
    ensures { IfOk result (λ text. (looks : ℕ) × (passed : ℕ) × AreLooks (work_of planned workers) order.now looks passed
        × (text.items ≡ replay_text (work_of planned workers) planned.verdicts looks passed)) }
{
    sound_works_are_fit();
    let numbers = summary_of(&planned)?;
    let work = core_work(alloc, planned)?;
    end_text(alloc, &numbers, &work, order)
}

/// The summary of a work, the looks of its events in the order of the files and in the rounds after it,
/// and the arrays at the end; or the first refusal of the files.
fn replay_text<R: AllocGlobal + Threads + Sync>(
    rt: &R,
    files: InputBytes,
    first: u32,
    workers: u32,
) -> Result<Vec<u8>, Status>
    requires few_files { first + length files.vectors.items < 2 ^ 32 }
    requires some_file { 1 ≤ length files.vectors.items }
    requires some { 1 ≤ workers }
    requires few { workers ≤ 64 }
    ensures { (inputs : Inputs) → AreInputs inputs files → inputs.first ≡ first → inputs.skips ≡ 1
        → MatchResult result (λ text. HasReplay inputs workers text.items × AcceptAll (replay_stages workers) inputs) (λ status. (status ≡ Status.Memory) ⊎ IsRefusedBy (replay_stages workers) inputs status) }
{
    let ordered = ordered_input(rt.alloc(), files, first, workers)?;
    let planned = with_plan(rt, ordered.input, workers)?;
    let text = replayed(rt.alloc(), planned, ordered.order.as_slice(), workers)?;
    Ok(text)
}

/// The text that a replay prints, or why it prints none. The order is named by the word `first`.
pub fn make_replay<R: AllocGlobal + Threads + Sync, L: Library>(
    rt: &R,
    lib: &mut L,
    words: &[String],
    first: u32,
) -> Result<Vec<u8>, Status>
    requires asked { IsAsked (texts words.now) Replay }
    requires places { first ≡ first_file Replay }
    requires few { length words.now < 2 ^ 32 }
    ensures made { IfOk result (λ text. IsMade (L.held lib.old) (texts words.now) text.items) }
    ensures missed { IfErr result (IsMissed (L.held lib.old) (texts words.now) (L.faults lib.old) (L.faults lib.new)) }
    ensures never_fall { (other : List ℕ) → L.faults lib.old other ≤ L.faults lib.new other }
    ensures stays { (other : List ℕ) → L.held lib.new other ≡ L.held lib.old other }
{
    let files = fetch_inputs(rt.alloc(), lib, words, first)?;
    replay_text(rt, files, first, workers_of(words))
}
