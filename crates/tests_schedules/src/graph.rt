// Which rows stand before each row.
ghost use Rattle.std.specs.Prelude.{◌<◌, All};
ghost use Rattle.wave_base.specs.declared.types.RowId.{RowId};

use crate::shown::push_rows;
use row_graph::buckets::by_key;
use row_graph::firsts::firsts_of_each;
use row_graph::lists::Lists;
use row_graph::plain::predecessors;
use row_graph::preds::Preds;
use schedule_samples::made::made_pairs;
use schedule_samples::worked::{by_columns, forward_substitution};
use std::alloc::Global;
use std::test::Fail;
use wave_base::types::{Memory, RowId};

// The number of pairs, and the rows before each row.
fn preds_shown(alloc: Global, preds: &Preds) -> Result<String, Memory> {
    let mut text = format!(in alloc; "edges {}", preds.edges())?;
    for row in 0..preds.rows() {
        text.push_str(" before")?;
        push_rows(alloc, &mut text, preds.before(RowId(row)))?;
    }
    Ok(text)
}

// The rows of each list.
fn lists_shown(alloc: Global, lists: &Lists) -> Result<String, Memory> {
    let mut text = String::new(alloc);
    for at in 0..lists.len() {
        text.push_str(" list")?;
        push_rows(alloc, &mut text, lists.list(at))?;
    }
    Ok(text)
}

// The same by the quick way.
fn quick(alloc: Global, rows: u32, pairs: Vec<(RowId, RowId)>) -> Result<String, Memory>
    requires earlier { All (λ (p : RowId × RowId). p.0.0 < p.1.0) pairs.items }
    requires below { All (λ (p : RowId × RowId). p.1.0 < rows) pairs.items }
{
    let preds = Preds::of(alloc, rows, pairs)?;
    preds_shown(alloc, &preds)
}

#[test]
fn rows_before_each_row(rt: HostRuntime) -> Result<(), Fail> {
    let text = quick(rt.alloc(), 6, forward_substitution(rt.alloc())?)?;
    assert_eq!(rt;
        text.as_str(),
        "edges 12 before before before 0 1 before 0 1 before 0 1 2 3 before 0 1 2 3"
    );
    Ok(())
}

#[test]
fn a_pair_that_repeats_counts_once(rt: HostRuntime) -> Result<(), Fail> {
    let text = quick(rt.alloc(), 4, by_columns(rt.alloc())?)?;
    assert_eq!(rt; text.as_str(), "edges 3 before before before 1 before 1 2");
    Ok(())
}

fn made(alloc: Global, seed: u32) -> Result<String, Memory> {
    quick(alloc, seed % 14, made_pairs(alloc, seed, seed % 14)?)
}

fn searched(alloc: Global, seed: u32) -> Result<String, Memory> {
    let pairs = made_pairs(alloc, seed, seed % 14)?;
    let preds = predecessors(alloc, seed % 14, pairs.as_slice())?;
    preds_shown(alloc, &preds)
}

#[test]
fn quick_and_plain_ways_agree(rt: HostRuntime) -> Result<(), Fail> {
    for seed in 0..240u32 {
        let fast = made(rt.alloc(), seed)?;
        let slow = searched(rt.alloc(), seed)?;
        assert_eq!(rt; fast.as_str(), slow.as_str(), "at {seed}");
    }
    Ok(())
}

fn firsts_shown(alloc: Global) -> Result<String, Memory> {
    let pairs = vec![in alloc;
        (RowId(2), RowId(0)),
        (RowId(1), RowId(2)),
        (RowId(0), RowId(2)),
    ]?;
    let firsts = firsts_of_each(alloc, 3, pairs)?;
    lists_shown(alloc, &firsts)
}

#[test]
fn either_row_of_a_pair_may_be_the_lesser(rt: HostRuntime) -> Result<(), Fail> {
    let text = firsts_shown(rt.alloc())?;
    assert_eq!(rt; text.as_str(), " list 2 list list 0 1");
    Ok(())
}

fn keyed_shown(alloc: Global) -> Result<String, Memory> {
    let entries = [(2, RowId(4)), (0, RowId(7)), (2, RowId(1))];
    let rows = by_key(alloc, 3, entries.as_slice())?;
    lists_shown(alloc, &rows)
}

#[test]
fn rows_by_their_keys(rt: HostRuntime) -> Result<(), Fail> {
    let text = keyed_shown(rt.alloc())?;
    assert_eq!(rt; text.as_str(), " list 7 list list 4 1");
    Ok(())
}
