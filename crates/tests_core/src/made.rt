// Works of loops and matrices that are drawn, on 1 to 64 workers, in orders that are drawn.
ghost use Rattle.std.specs.Prelude.{◌≡◌, ◌≤◌, IfOk, length};
ghost use Rattle.std.specs.List.{All};
ghost use Rattle.loop_core.specs.Depth.{body_depth};
ghost use Rattle.core_machine.specs.FitWork.{IsFitWork, IsWorker};

use crate::literal::Literal;
use crate::loops::{FACTOR, TEMPLATES, Template, with_operators};
use crate::matrices::{Matrix, drawn_files, drawn_matrix};
use core_machine::cores::{Core, CoreEnd};
use core_machine::work::Work;
use loop_core::values::Values;
use loop_meaning::run::run_in_order;
use std::alloc::Global;
use std::process::Abort;
use std::test::Fail;
use std::thread::Threads;
use wave_base::types::{ArrayId, Memory};
use work_samples::orders::order;
use work_samples::unfit::Unfit;
use work_samples::works::work_of;

fn template(number: u32) -> Template {
    if number % 25 == 24 {
        FACTOR
    } else {
        TEMPLATES[(number % 8) as usize]
    }
}

fn drawn_work<R: AllocGlobal + Threads + Sync>(
    rt: &R,
    number: u32,
    workers: u32,
) -> Result<Work, Unfit>
    requires some { 1 ≤ workers }
    requires few { workers ≤ 64 }
    ensures fit { IfOk result IsFitWork }
    ensures workers { IfOk result (λ work. length work.sched.workers ≡ workers) }
    ensures shallow { IfOk result (λ work. body_depth work.nest.body ≤ 5) }
{
    let Template { text, files } = template(number);
    let text = with_operators(rt.alloc(), text, number)?;
    let Matrix { text: matrix, rows } = drawn_matrix(rt.alloc(), number / 8)?;
    let files = drawn_files(rt.alloc(), files, number, rows)?;
    // never so, but `work_of` asks it
    if text.len() > 65536 || files.len() > 64 {
        return Err(Unfit::Memory);
    }
    work_of(rt, text.as_slice(), matrix.as_slice(), files, workers)
}

fn replayed(alloc: Global, work: &Work, order: &[u32]) -> Result<CoreEnd, Memory>
    requires fit { IsFitWork work.now }
    requires order { All (IsWorker work.now) order.now }
{
    let core = Core::start(alloc, work)?;
    Ok(core.replay(order))
}

fn expect_counts(
    rt: &impl Abort,
    alloc: Global,
    work: &Work,
    order: &[u32],
    end: &CoreEnd,
) -> Result<(), Fail>
    requires { body_depth work.now.nest.body ≤ 5 }
{
    let mut literal = Literal::of(alloc, work)?;
    literal.replay(order, 100000);
    assert!(rt; literal.has_ended());
    assert_eq!(rt; end.looks, literal.looks);
    assert_eq!(rt; end.passed, literal.passed);
    Ok(())
}

fn expect_arrays(rt: &impl Abort, have: &Values, want: &Values) {
    for array in 0..8u8 {
        assert_eq!(rt; have.words(ArrayId(array)), want.words(ArrayId(array)));
    }
}

fn expect_values(rt: &impl Abort, alloc: Global, work: &Work, end: &CoreEnd) -> Result<(), Fail>
    requires { body_depth work.now.nest.body ≤ 5 }
{
    let mut values = work.values.copy(alloc)?;
    run_in_order(&work.nest, &work.arrays, &mut values);
    expect_arrays(rt, &end.values, &values);
    Ok(())
}

fn expect_replay(rt: &impl Abort, alloc: Global, work: &Work, order: &[u32]) -> Result<(), Fail>
    requires fit { IsFitWork work.now }
    requires order { All (IsWorker work.now) order.now }
    requires shallow { body_depth work.now.nest.body ≤ 5 }
{
    let end = replayed(alloc, work, order)?;
    expect_counts(rt, alloc, work, order, &end)?;
    expect_values(rt, alloc, work, &end)
}

// A work on so many workers, in an order of so many events and the rounds after it.
fn expect_same<R: AllocGlobal + Threads + Sync + Abort>(
    rt: &R,
    number: u32,
    workers: u32,
    events: u32,
) -> Result<(), Fail>
    requires some { 1 ≤ workers }
    requires few { workers ≤ 64 }
{
    let work = drawn_work(rt, number, workers)?;
    let order = order(rt.alloc(), number, events, workers)?;
    expect_replay(rt, rt.alloc(), &work, order.as_slice())
}

fn few(number: u32) -> u32
    ensures { (1 ≤ result) × (result ≤ 5) }
{
    1 + number % 5
}

fn many(number: u32) -> u32
    ensures { (1 ≤ result) × (result ≤ 64) }
{
    1 + number.wrapping_mul(37) % 64
}

#[test]
fn drawn_works_on_few_workers(rt: HostRuntime) -> Result<(), Fail> {
    for number in 0..50u32 {
        expect_same(&rt, number, few(number), number.wrapping_mul(7) % 500)?;
    }
    Ok(())
}

#[test]
fn drawn_works_on_many_workers(rt: HostRuntime) -> Result<(), Fail> {
    for number in 50..100u32 {
        expect_same(&rt, number, many(number), number.wrapping_mul(7) % 500)?;
    }
    Ok(())
}

#[test]
fn drawn_works_in_rounds_alone(rt: HostRuntime) -> Result<(), Fail> {
    for number in 100..150u32 {
        expect_same(&rt, number, many(number), 0)?;
    }
    Ok(())
}

#[test]
fn drawn_works_in_long_orders(rt: HostRuntime) -> Result<(), Fail> {
    for number in 150..200u32 {
        expect_same(&rt, number, few(number), 4000)?;
    }
    Ok(())
}
