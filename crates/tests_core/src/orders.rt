// Two rows on two workers, in orders that are made from a counter.
ghost use Rattle.std.specs.Prelude.{◌≡◌, ◌<◌, ◌≤◌, IfOk};
ghost use Rattle.std.specs.List.{All};
ghost use Rattle.loop_core.specs.Depth.{body_depth};
ghost use Rattle.core_machine.specs.FitWork.{IsFitWork};
ghost use Rattle.core_machine.specs.TwoRows.{two_work};

use crate::literal::Literal;
use crate::works::two_rows;
use core_machine::cores::{Core, CoreEnd};
use core_machine::work::Work;
use loop_meaning::run::run_in_order;
use std::alloc::Global;
use std::process::Abort;
use std::test::Fail;
use wave_base::types::{ArrayId, Memory};

const X: ArrayId = ArrayId(5);

// So many workers' numbers, from the bits of a seed.
fn made_order(alloc: Global, seed: u32) -> Result<Vec<u32>, Memory>
    ensures { IfOk result (λ order. All (λ k. k < 2) order.items) }
{
    let mut order = Vec::new(alloc);
    let mut bits = seed.wrapping_mul(2654435761);
    for _ in 0..seed % 16 {
        order.push(bits % 2)?;
        bits /= 2;
    }
    Ok(order)
}

fn replayed(alloc: Global, work: &Work, order: &[u32]) -> Result<CoreEnd, Memory>
    requires fit { IsFitWork work.now }
    requires work { work.now ≡ two_work }
    requires order { All (λ k. k < 2) order.now }
{
    let core = Core::start(alloc, work)?;
    Ok(core.replay(order))
}

fn expect_same(rt: &impl Abort, alloc: Global, seed: u32) -> Result<(), Fail> {
    let work = two_rows(alloc)?;
    let order = made_order(alloc, seed)?;
    let end = replayed(alloc, &work, order.as_slice())?;
    let mut literal = Literal::of(alloc, &work)?;
    literal.replay(order.as_slice(), 16);
    assert_eq!(rt; end.looks, literal.looks, "at {seed}");
    assert_eq!(rt; end.passed, literal.passed, "at {seed}");
    expect_values(rt, alloc, &work, &end)
}

fn expect_values(rt: &impl Abort, alloc: Global, work: &Work, end: &CoreEnd) -> Result<(), Fail>
    requires { body_depth work.now.nest.body ≤ 5 }
{
    let mut values = work.values.copy(alloc)?;
    run_in_order(&work.nest, &work.arrays, &mut values);
    assert_eq!(rt; end.values.words(X), values.words(X));
    Ok(())
}

#[test]
fn made_orders_agree_with_the_literal_machine(rt: HostRuntime) -> Result<(), Fail> {
    for seed in 0..200u32 {
        expect_same(&rt, rt.alloc(), seed)?;
    }
    Ok(())
}
