// How many verdicts there are of each kind, and how many tasks and waits.
ghost use Rattle.std.specs.Prelude.{◌≡◌, ◌<◌, ◌+◌, ◌-◌, ◌^◌, if◌then◌else◌, length, count_by, IfOk};
ghost use Rattle.loop_plan.specs.Numbers.{is_dropped, is_covered, is_kept, tasks_in, waits_in, waits_of};

use dep_simplify::verdict::Verdict;
use sched_types::sched::{Sched, Task};
use wave_base::types::Memory;

/// How many relations are dropped, covered and kept.
#[derive(Clone, Copy, Debug, PartialEq, Eq)]
pub struct VerdictCounts {
    pub dropped: u64,
    pub covered: u64,
    pub kept: u64,
}

/// How many tasks a schedule has, and how many waits.
#[derive(Clone, Copy, Debug, PartialEq, Eq)]
pub struct TaskCounts {
    pub tasks: u64,
    pub waits: u64,
}

/// The numbers of verdicts of each kind. It takes no memory.
pub fn count_verdicts(verdicts: &[Verdict]) -> VerdictCounts
    ensures dropped { result.dropped ≡ count_by is_dropped verdicts.now }
    ensures covered { result.covered ≡ count_by is_covered verdicts.now }
    ensures kept { result.kept ≡ count_by is_kept verdicts.now }
{
    let mut counts = VerdictCounts {
        dropped: 0,
        covered: 0,
        kept: 0,
    };
    for at in 0..verdicts.len() {
        counts = one_more(counts, &verdicts[at]);
    }
    counts
}

fn one_more(counts: VerdictCounts, verdict: &Verdict) -> VerdictCounts
    requires { counts.dropped + counts.covered + counts.kept < 2 ^ 64 - 1 }
    ensures dropped { result.dropped ≡ counts.dropped + (if is_dropped verdict.now then 1 else 0) }
    ensures covered { result.covered ≡ counts.covered + (if is_covered verdict.now then 1 else 0) }
    ensures kept { result.kept ≡ counts.kept + (if is_kept verdict.now then 1 else 0) }
{
    let VerdictCounts {
        dropped,
        covered,
        kept,
    } = counts;
    match verdict {
        Verdict::Dropped(_) => VerdictCounts {
            dropped: dropped + 1,
            covered,
            kept,
        },
        Verdict::Covered(_) => VerdictCounts {
            dropped,
            covered: covered + 1,
            kept,
        },
        Verdict::Kept => VerdictCounts {
            dropped,
            covered,
            kept: kept + 1,
        },
    }
}

/// The numbers of tasks and of waits of a schedule. It takes no memory. Numbers past 64 bits, which no
/// schedule in memory has, are answered as `Memory`.
pub fn count_tasks(sched: &Sched) -> Result<TaskCounts, Memory>
    ensures tasks { IfOk result (λ counts. counts.tasks ≡ tasks_in sched.now) }
    ensures waits { IfOk result (λ counts. counts.waits ≡ waits_in sched.now) }
{
    let mut counts = TaskCounts { tasks: 0, waits: 0 };
    for tasks in sched.workers.as_slice() {
        counts = with_tasks(counts, tasks.as_slice())?;
    }
    Ok(counts)
}

fn with_tasks(counts: TaskCounts, tasks: &[Task]) -> Result<TaskCounts, Memory>
    ensures tasks { IfOk result (λ more. more.tasks ≡ counts.tasks + length tasks.now) }
    ensures waits { IfOk result (λ more. more.waits ≡ counts.waits + waits_of tasks.now) }
{
    Ok(TaskCounts {
        tasks: sum(counts.tasks, tasks.len())?,
        waits: with_waits(counts.waits, tasks)?,
    })
}

fn with_waits(before: u64, tasks: &[Task]) -> Result<u64, Memory>
    ensures { IfOk result (λ waits. waits ≡ before + waits_of tasks.now) }
{
    let mut waits = before;
    for task in tasks {
        waits = sum(waits, task.waits.as_slice().len())?;
    }
    Ok(waits)
}

fn sum(a: u64, b: usize) -> Result<u64, Memory>
    ensures { IfOk result (λ sum. sum ≡ a + b) }
{
    match a.checked_add(b as u64) {
        Some(sum) => Ok(sum),
        None => Err(Memory),
    }
}
