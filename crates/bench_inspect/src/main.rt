//! Times the pairs of inspection plans on the 5-point grid, by one thread and by several.
//!
//! The words are a plan, `columns` or `values`, the side of the grid and how many turns. The number of
//! pairs goes to standard output, the least times of a turn to standard error.
#![tactic(auto)]

ghost use Rattle.std.specs.Prelude.{◌≡◌, IfOk};
ghost use Rattle.std.specs.List.{All};
ghost use Rattle.loop_core.specs.Lists.{Lists};
ghost use Rattle.inspector_run.specs.IsPlan.{IsPlan};
ghost use Rattle.inspector_run.specs.Ready.{SearchesAscending};

use inspection_samples::matrices::grid;
use inspection_samples::plans::{by_columns, by_values};
use inspector_run::pairs::pairs;
use inspector_run::plan::InspPlan;
use inspector_run::split::pairs_split;
use loop_core::arrays::Arrays;
use std::alloc::Global;
use std::marker::Brand;
use std::process::ExitCode;
use std::sync::ledger::{Blank, Ledger};
use std::thread::Threads;
use std::time::{Clock, Instant};
use std::{env, io};
use wave_base::steps::Steps;
use wave_base::types::{Memory, RowId};

fn counted<L: Ledger>(
    alloc: Global,
    plan: &InspPlan,
    arrays: &Arrays,
    blank: Blank,
) -> Result<Vec<(RowId, RowId)>, Memory>
    requires name { blank.name ≡ L.name }
    requires parts { blank.parts ≡ L.parts }
    requires one { blank.parts ≡ 1 }
    requires plan { IsPlan plan.now.ops }
    requires ascending { (a : Lists) → All (SearchesAscending a) plan.now.ops }
{
    let mut steps = Steps::<L>::open(blank);
    pairs(alloc, plan, arrays, &mut steps)
}

// How the pairs are found.
#[derive(Clone, Copy)]
enum By {
    One,
    Several,
}

fn found(
    rt: &(impl Threads + Sync + AllocGlobal),
    by: By,
    plan: &InspPlan,
    arrays: &Arrays,
) -> Result<Vec<(RowId, RowId)>, Memory>
    requires plan { IsPlan plan.now.ops }
    requires ascending { (a : Lists) → All (SearchesAscending a) plan.now.ops }
{
    match by {
        By::One => counted::<Brand>(rt.alloc(), plan, arrays, Blank::new(1)),
        By::Several => pairs_split(rt, rt.alloc(), plan, arrays),
    }
}

// The least number of nanoseconds that one of several turns takes.
fn least_time(
    rt: &(impl Threads + Sync + AllocGlobal + Clock),
    by: By,
    plan: &InspPlan,
    arrays: &Arrays,
    turns: u32,
) -> io::Result<u128>
    requires plan { IsPlan plan.now.ops }
    requires ascending { (a : Lists) → All (SearchesAscending a) plan.now.ops }
{
    let mut least = u128::MAX;
    for _turn in 0..turns {
        let start = Instant::now(rt)?;
        let is_found = found(rt, by, plan, arrays).is_ok();
        let taken = start.elapsed(rt)?.as_nanos();
        if is_found && taken < least {
            least = taken;
        }
    }
    Ok(least)
}

fn bench<R: Threads + Sync + AllocGlobal + Clock + Print + Eprint>(
    rt: &R,
    plan: &InspPlan,
    arrays: &Arrays,
    turns: u32,
) -> io::Result<ExitCode>
    requires plan { IsPlan plan.now.ops }
    requires ascending { (a : Lists) → All (SearchesAscending a) plan.now.ops }
{
    let Ok(pairs) = found(rt, By::Several, plan, arrays) else {
        return memory(rt);
    };
    println!(rt;
        "n {} nnz {} pairs {}",
        arrays.n(),
        arrays.nnz(),
        pairs.len()
    )?;
    let alone = least_time(rt, By::One, plan, arrays, turns)?;
    let split = least_time(rt, By::Several, plan, arrays, turns)?;
    eprintln!(rt; "pairs {alone}")?;
    eprintln!(rt; "pairs_split {split}")?;
    Ok(ExitCode::SUCCESS)
}

fn bench_plan<R: Threads + Sync + AllocGlobal + Clock + Print + Eprint>(
    rt: &R,
    plan: Result<InspPlan, Memory>,
    side: u32,
    turns: u32,
) -> io::Result<ExitCode>
    requires plan { IfOk plan (λ plan. IsPlan plan.ops) }
    requires ascending { IfOk plan (λ plan. (a : Lists) → All (SearchesAscending a) plan.ops) }
{
    let Ok(plan) = plan else {
        return memory(rt);
    };
    match grid(rt.alloc(), side) {
        Ok(arrays) => bench(rt, &plan, &arrays, turns),
        Err(_) => memory(rt),
    }
}

fn main(rt: HostRuntime) -> io::Result<ExitCode> {
    let mut words = env::args(&rt)?;
    let (_, plan, side, turns) = (words.next(), words.next(), words.next(), words.next());
    let (Some(plan), Some(side), Some(turns)) = (plan, side, turns) else {
        return usage(&rt);
    };
    let (side, turns) = (side.parse::<u32>().ok(), turns.parse::<u32>().ok());
    let (Some(side), Some(turns)) = (side, turns) else {
        return usage(&rt);
    };
    match plan.as_str() {
        "columns" => bench_plan(&rt, by_columns(rt.alloc()), side, turns),
        "values" => bench_plan(&rt, by_values(rt.alloc()), side, turns),
        _ => usage(&rt),
    }
}

fn memory(rt: &impl Eprint) -> io::Result<ExitCode> {
    eprintln!(rt; "memory")?;
    Ok(ExitCode::FAILURE)
}

fn usage(rt: &impl Eprint) -> io::Result<ExitCode> {
    eprintln!(rt; "usage: bench_inspect columns|values SIDE TURNS")?;
    Ok(ExitCode::from(2))
}
