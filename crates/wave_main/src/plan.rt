// The command `plan`.
ghost use Rattle.std.specs.Prelude.{◌≡◌, ◌⊎◌, ◌<◌, ◌≤◌, ◌+◌, ◌++◌, ◌^◌, ℕ, List, MatchResult, IfOk, IfErr, OnOk, length};
ghost use Rattle.std.specs.String.{string_bytes};
ghost use Rattle.wave_report.specs.PlanText.{plan_text as tasks_text};
ghost use Rattle.wave_words.specs.Words.{texts};
ghost use Rattle.wave_words.specs.declared.form.Form.TheVariants.{Plan};
ghost use Rattle.wave_main.specs.Commands.{IsAsked, first_file};
ghost use Rattle.wave_main.specs.Fetching.{AreInputs};
ghost use Rattle.wave_main.specs.Files.{Inputs};
ghost use Rattle.wave_main.specs.Making.{IsMade, IsMissed};
ghost use Rattle.wave_main.specs.Planning.{HasText};
ghost use Rattle.wave_main.specs.Run.{whole_plan_text};
ghost use Rattle.wave_main.specs.Stages.{AcceptAll, IsRefusedBy, input_stages};

use crate::fetch::{InputBytes, fetch_inputs};
use crate::status::Status;
use crate::words::workers_of;
use crate::work::{planned_of, summary_of};
use plan_build::build::Built;
use std::alloc::Global;
use std::thread::Threads;
use wave_base::types::Memory;
use wave_io::library::Library;
use wave_report::plan::plan as tasks_text;
use wave_report::summary::summary;

// Puts the chain and the tasks of a plan after a text.
fn put_tasks(alloc: Global, text: &mut String, plan: &Built) -> Result<(), Memory>
    ensures { OnOk result (string_bytes text.new ≡ string_bytes text.old ++ tasks_text plan.now.chain plan.now.sched) }
{
    let tasks = tasks_text(alloc, plan.chain.as_slice(), &plan.sched)?;
    text.push_str(tasks.as_str())?;
    Ok(())
}

/// The summary of a work, its chain and each worker's tasks with their waits; or the first refusal of the
/// files.
fn plan_text<R: AllocGlobal + Threads + Sync>(
    rt: &R,
    files: InputBytes,
    first: u32,
    workers: u32,
) -> Result<Vec<u8>, Status>
    requires few_files { first + length files.vectors.items < 2 ^ 32 }
    requires some { 1 ≤ workers }
    requires few { workers ≤ 64 }
    ensures { (inputs : Inputs) → AreInputs inputs files → inputs.first ≡ first → inputs.skips ≡ 0
        → MatchResult result (λ text. HasText inputs workers whole_plan_text text.items × AcceptAll input_stages inputs) (λ status. (status ≡ Status.Memory) ⊎ IsRefusedBy input_stages inputs status) }
{
    let planned = planned_of(rt, files, first, workers)?;
    let numbers = summary_of(&planned)?;
    let mut text = summary(rt.alloc(), &numbers)?;
    put_tasks(rt.alloc(), &mut text, &planned.plan)?;
    Ok(text.into_bytes())
}

/// The text that a plan prints, or why it prints none. The first vector is named by the word `first`.
pub fn make_plan<R: AllocGlobal + Threads + Sync, L: Library>(
    rt: &R,
    lib: &mut L,
    words: &[String],
    first: u32,
) -> Result<Vec<u8>, Status>
    requires asked { IsAsked (texts words.now) Plan }
    requires places { first ≡ first_file Plan }
    requires few { length words.now < 2 ^ 32 }
    ensures made { IfOk result (λ text. IsMade (L.held lib.old) (texts words.now) text.items) }
    ensures missed { IfErr result (IsMissed (L.held lib.old) (texts words.now) (L.faults lib.old) (L.faults lib.new)) }
    ensures never_fall { (other : List ℕ) → L.faults lib.old other ≤ L.faults lib.new other }
    ensures stays { (other : List ℕ) → L.held lib.new other ≡ L.held lib.old other }
{
    let files = fetch_inputs(rt.alloc(), lib, words, first)?;
    plan_text(rt, files, first, workers_of(words))
}
