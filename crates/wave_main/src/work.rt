// The work of files: a loop with its arrays, its verdicts and its plan.
ghost use Rattle.std.specs.Prelude.{◌≡◌, ◌⊎◌, ◌<◌, ◌≤◌, ◌+◌, ◌^◌, MatchResult, IfOk, length};
ghost use Rattle.loop_core.specs.Lengths.{HaveLengths};
ghost use Rattle.index_props.specs.Meanings.{Passes};
ghost use Rattle.wave_main.specs.Fetching.{AreInputs};
ghost use Rattle.wave_main.specs.Files.{Inputs};
ghost use Rattle.wave_main.specs.Planning.{IsPlanned, IsPlanFor, work_of};
ghost use Rattle.wave_main.specs.Run.{summary_of as numbers_of};
ghost use Rattle.wave_main.specs.Sound.{IsSound, core_work as core_of};
ghost use Rattle.wave_main.specs.Stages.{AcceptAll, IsRefusedBy, input_stages};

use crate::fetch::InputBytes;
use crate::input::{Input, input_of};
use crate::status::Status;
use core_machine::work::Work;
use dep_simplify::verdict::Verdict;
use dep_simplify::verdicts::verdicts;
use loop_plan::numbers::{count_tasks, count_verdicts};
use loop_plan::plan::plan_loop;
use plan_build::build::Built;
use sqlite_items::Items;
use std::alloc::Global;
use std::thread::Threads;
use wave_base::types::Memory;
use wave_report::counts::Summary;

/// An accepted loop with its arrays, the verdicts on its relations, and its plan.
#[derive(Drop)]
pub struct Planned {
    pub input: Input,
    pub verdicts: Items<Verdict>,
    pub plan: Built,
}

/// A loop with its arrays, planned for some workers. Out of memory is the only refusal.
pub fn with_plan<R: AllocGlobal + Threads + Sync>(
    rt: &R,
    input: Input,
    workers: u32,
) -> Result<Planned, Memory>
    requires lengths { HaveLengths input.nest.decls input.arrays input.values }
    requires passes { Passes input.nest.props input.arrays }
    requires some { 1 ≤ workers }
    requires few { workers ≤ 64 }
    ensures { IfOk result (IsPlanFor input workers) }
{
    let verdicts = verdicts(rt.alloc(), &input.nest)?;
    let plan = plan_loop(rt, &input.nest, verdicts.as_slice(), &input.arrays, workers)?;
    Ok(Planned {
        input,
        verdicts,
        plan,
    })
}

/// The loop and the arrays of files that were fetched, planned for some workers, or the first refusal.
/// The first vector is named by a word, and all vectors are those of the loop's arrays.
pub fn planned_of<R: AllocGlobal + Threads + Sync>(
    rt: &R,
    files: InputBytes,
    first: u32,
    workers: u32,
) -> Result<Planned, Status>
    requires few_files { first + length files.vectors.items < 2 ^ 32 }
    requires some { 1 ≤ workers }
    requires few { workers ≤ 64 }
    ensures answer { (inputs : Inputs) → AreInputs inputs files → inputs.first ≡ first → inputs.skips ≡ 0
        → MatchResult result (λ planned. IsPlanned inputs workers planned × AcceptAll input_stages inputs) (λ status. (status ≡ Status.Memory) ⊎ IsRefusedBy input_stages inputs status) }
    ensures sound { IfOk result (λ planned. IsSound (work_of planned workers)) }
{
    let input = input_of(rt.alloc(), files, first)?;
    let planned = with_plan(rt, input, workers)?;
    Ok(planned)
}

/// What the workers of a work run: its loop with its arrays, and the schedule of its plan.
pub fn core_work(alloc: Global, planned: Planned) -> Result<Work, Memory>
    ensures { IfOk result (λ work. work ≡ core_of (work_of planned 0)) }
{
    let Planned {
        input,
        verdicts: _,
        plan,
    } = planned;
    let nest = input.nest.nest().copy(alloc)?;
    Ok(Work {
        nest,
        arrays: input.arrays,
        values: input.values,
        sched: plan.sched,
    })
}

/// The numbers of a work.
pub fn summary_of(planned: &Planned) -> Result<Summary, Memory>
    ensures { IfOk result (λ summary. summary ≡ numbers_of planned.now.input planned.now.verdicts planned.now.plan) }
{
    let verdicts = planned.verdicts.as_slice();
    let counts = count_verdicts(verdicts);
    let tasks = count_tasks(&planned.plan.sched)?;
    Ok(Summary {
        relations: verdicts.len() as u64,
        dropped: counts.dropped,
        covered: counts.covered,
        kept: counts.kept,
        rows: u64::from(planned.input.arrays.n()),
        stored: u64::from(planned.input.arrays.nnz()),
        edges: planned.plan.edges,
        levels: u64::from(planned.plan.levels),
        tasks: tasks.tasks,
        cross: planned.plan.cross,
        waits: tasks.waits,
    })
}
