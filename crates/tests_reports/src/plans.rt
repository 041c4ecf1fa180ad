// The printed plans of worked graphs.
ghost use Rattle.std.specs.Prelude.{◌<◌, ◌≤◌, All};
ghost use Rattle.wave_base.specs.declared.types.RowId.{RowId};

use plan_build::build::build;
use schedule_samples::weights::valid_weights;
use schedule_samples::worked::{by_columns, forward_substitution};
use std::alloc::Global;
use std::test::Fail;
use wave_base::types::{Memory, RowId};
use wave_report::plan::plan;

// The text of the plan of rows with some weights; rows past the list's end have weight 1.
fn printed(
    alloc: Global,
    rows: u32,
    pairs: Vec<(RowId, RowId)>,
    weights: &[u64],
    workers: u32,
) -> Result<String, Memory>
    requires earlier { All (λ (p : RowId × RowId). p.0.0 < p.1.0) pairs.items }
    requires below { All (λ (p : RowId × RowId). p.1.0 < rows) pairs.items }
    requires some { 1 ≤ workers }
    requires few { workers ≤ 64 }
{
    let weights = valid_weights(alloc, rows, weights)?;
    let built = build(alloc, rows, pairs, weights.as_slice(), workers)?;
    plan(alloc, built.chain.as_slice(), &built.sched)
}

#[test]
fn forward_substitution_on_two_workers(rt: HostRuntime) -> Result<(), Fail> {
    let text = printed(rt.alloc(), 6, forward_substitution(rt.alloc())?, &[], 2)?;
    assert!(rt;
        text.as_str()
            == "chain 0 2 4\nworker 0\ntask rows 0 waits\ntask rows 2 waits 1:1\ntask rows 4 waits 1:2\nworker 1\ntask rows 1 waits\ntask rows 3 waits 0:1\ntask rows 5 waits 0:2\n"
    );
    Ok(())
}

// Row 0 has one statement instance, rows 1 and 2 two each, and row 3 one.
#[test]
fn substitution_by_columns_on_two_workers(rt: HostRuntime) -> Result<(), Fail> {
    let text = printed(rt.alloc(), 4, by_columns(rt.alloc())?, &[2, 3, 3, 2], 2)?;
    assert!(rt;
        text.as_str()
            == "chain 1 2 3\nworker 0\ntask rows 0 1 waits\ntask rows 2 waits\ntask rows 3 waits\nworker 1\n"
    );
    Ok(())
}

#[test]
fn no_rows(rt: HostRuntime) -> Result<(), Fail> {
    let text = printed(rt.alloc(), 0, Vec::new(rt.alloc()), &[], 2)?;
    assert!(rt; text.as_str() == "chain\nworker 0\nworker 1\n");
    Ok(())
}

fn one_row_wanted(alloc: Global) -> Result<String, Memory> {
    let mut wanted = String::new(alloc);
    wanted.push_str("chain 0\nworker 0\ntask rows 0 waits\n")?;
    for worker in 1..64 {
        wanted.push_str(format!(in alloc; "worker {worker}\n")?.as_str())?;
    }
    Ok(wanted)
}

#[test]
fn one_row_on_many_workers(rt: HostRuntime) -> Result<(), Fail> {
    let text = printed(rt.alloc(), 1, Vec::new(rt.alloc()), &[], 64)?;
    let wanted = one_row_wanted(rt.alloc())?;
    assert!(rt; text.as_str() == wanted.as_str());
    Ok(())
}
