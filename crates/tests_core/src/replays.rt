// Replays of two rows on two workers.
ghost use Rattle.std.specs.Prelude.{nat_lt, IsTrue};
ghost use Rattle.std.specs.List.{list_all};

use crate::works::two_rows;
use core_machine::cores::{Core, CoreEnd};
use loop_core::values::Values;
use loop_meaning::run::run_in_order;
use std::alloc::Global;
use std::process::Abort;
use std::test::Fail;
use wave_base::types::{ArrayId, Memory};

const X: ArrayId = ArrayId(5);

fn replay(alloc: Global, order: &[u32]) -> Result<CoreEnd, Memory>
    requires { IsTrue (list_all (λ k. nat_lt k 2) order.now) }
{
    let work = two_rows(alloc)?;
    let core = Core::start(alloc, &work)?;
    Ok(core.replay(order))
}

fn in_order(alloc: Global) -> Result<Values, Memory> {
    let work = two_rows(alloc)?;
    let mut values = work.values.copy(alloc)?;
    run_in_order(&work.nest, &work.arrays, &mut values);
    Ok(values)
}

fn expect_end(rt: &impl Abort, end: &CoreEnd, looks: u64, passed: u64) {
    assert_eq!(rt; end.looks, looks);
    assert_eq!(rt; end.passed, passed);
    assert_eq!(rt; end.values.words(X), [7, 6].as_slice());
}

// The five looks of worker 1 are in vain. So is that of the first round, and that of the second passes.
#[test]
fn looks_in_vain_are_counted(rt: HostRuntime) -> Result<(), Fail> {
    let end = replay(rt.alloc(), &[1, 1, 1, 1, 1])?;
    expect_end(&rt, &end, 7, 1);
    Ok(())
}

#[test]
fn an_order_may_be_empty(rt: HostRuntime) -> Result<(), Fail> {
    let end = replay(rt.alloc(), &[])?;
    expect_end(&rt, &end, 2, 1);
    Ok(())
}

// All have ended, so no round follows.
#[test]
fn an_order_may_end_all(rt: HostRuntime) -> Result<(), Fail> {
    let end = replay(rt.alloc(), &[0, 0, 1, 1, 1, 1, 1, 1])?;
    expect_end(&rt, &end, 1, 1);
    Ok(())
}

#[test]
fn the_loop_run_in_order_agrees(rt: HostRuntime) -> Result<(), Fail> {
    let end = replay(rt.alloc(), &[1, 0, 1, 0])?;
    let values = in_order(rt.alloc())?;
    assert_eq!(rt; end.values.words(X), values.words(X));
    Ok(())
}
