// The level of each row, the rows of each level, and one longest chain.
ghost use Rattle.wave_levels.specs.Levels.{AreLevels};

use crate::shown::{push_number, push_rows};
use row_graph::preds::Preds;
use schedule_samples::made::made_pairs;
use schedule_samples::worked::forward_substitution;
use std::alloc::Global;
use std::test::Fail;
use wave_base::types::{Memory, RowId};
use wave_levels::chains::chain;
use wave_levels::grouped::Levels;
use wave_levels::levels::levels;
use wave_levels::plain::{chain_by_search, levels_by_search};

// The level of each row.
fn push_levels(
    alloc: Global,
    text: &mut String,
    preds: &Preds,
    levels: &Levels,
) -> Result<(), Memory>
    requires { AreLevels preds.now levels.now }
{
    for row in 0..preds.rows() {
        push_number(alloc, text, " ", levels.of(RowId(row)))?;
    }
    Ok(())
}

// The level of each row, the rows of each level, and a chain.
fn levels_shown(
    alloc: Global,
    preds: &Preds,
    levels: &Levels,
    chain: &[RowId],
) -> Result<String, Memory>
    requires { AreLevels preds.now levels.now }
{
    let mut text = String::new(alloc);
    push_levels(alloc, &mut text, preds, levels)?;
    for level in 0..levels.count() {
        text.push_str(" rows")?;
        push_rows(alloc, &mut text, levels.rows(level))?;
    }
    text.push_str(" chain")?;
    push_rows(alloc, &mut text, chain)?;
    Ok(text)
}

fn quick(alloc: Global, preds: &Preds) -> Result<String, Memory> {
    let levels = levels(alloc, preds)?;
    let chain = chain(alloc, preds, &levels)?;
    levels_shown(alloc, preds, &levels, chain.as_slice())
}

fn searched(alloc: Global, preds: &Preds) -> Result<String, Memory> {
    let levels = levels_by_search(alloc, preds)?;
    let chain = chain_by_search(alloc, preds, &levels)?;
    levels_shown(alloc, preds, &levels, chain.as_slice())
}

fn forward_levels(alloc: Global) -> Result<String, Memory> {
    let preds = Preds::of(alloc, 6, forward_substitution(alloc)?)?;
    quick(alloc, &preds)
}

#[test]
fn levels_of_forward_substitution(rt: HostRuntime) -> Result<(), Fail> {
    let text = forward_levels(rt.alloc())?;
    assert_eq!(rt;
        text.as_str(),
        " 0 0 1 1 2 2 rows 0 1 rows 2 3 rows 4 5 chain 0 2 4"
    );
    Ok(())
}

fn made_preds(alloc: Global, seed: u32) -> Result<Preds, Memory> {
    let pairs = made_pairs(alloc, seed, seed % 14)?;
    Preds::of(alloc, seed % 14, pairs)
}

#[test]
fn quick_and_plain_ways_agree(rt: HostRuntime) -> Result<(), Fail> {
    for seed in 0..240u32 {
        let preds = made_preds(rt.alloc(), seed)?;
        let fast = quick(rt.alloc(), &preds)?;
        let slow = searched(rt.alloc(), &preds)?;
        assert_eq!(rt; fast.as_str(), slow.as_str(), "at {seed}");
    }
    Ok(())
}
