// The events of two rows, one after another.
ghost use Rattle.std.specs.Prelude.{◌≡◌, ◌<◌, IfOk};
ghost use Rattle.core_machine.specs.FitWork.{IsFitWork};
ghost use Rattle.core_machine.specs.TwoRows.{two_work};

use crate::works::two_rows;
use core_machine::cores::Core;
use core_machine::work::Work;
use core_run::machine::Event;
use std::alloc::Global;
use std::test::Fail;
use wave_base::types::{ArrayId, Cell, Memory};

fn begin(alloc: Global, work: &Work) -> Result<Core<'_>, Memory>
    requires fit { IsFitWork work.now }
    requires work { work.now ≡ two_work }
    ensures { IfOk result (λ core. core.work ≡ two_work) }
{
    let core = Core::start(alloc, work)?;
    Ok(core)
}

fn step(core: &mut Core<'_>, worker: u32) -> Event
    requires work { core.old.work ≡ two_work }
    requires worker { worker < 2 }
    ensures { core.new.work ≡ two_work }
{
    core.event(worker)
}

fn x(at: u32) -> Cell {
    Cell {
        array: ArrayId(5),
        at,
    }
}

fn is_look(event: Event, seen_now: u64, passes: bool) -> bool {
    match event {
        Event::Looked { seen, need, passed } => seen == seen_now && need == 1 && passed == passes,
        _ => false,
    }
}

fn is_read(event: Event, at: u32, word: i64) -> bool {
    match event {
        Event::Read { cell, value } => cell == x(at) && value == word,
        _ => false,
    }
}

fn is_write(event: Event, at: u32, word: i64) -> bool {
    match event {
        Event::Wrote { cell, value } => cell == x(at) && value == word,
        _ => false,
    }
}

fn is_finish(event: Event) -> bool {
    match event {
        Event::FinishedTask { count } => count == 1,
        _ => false,
    }
}

fn is_end(event: Event) -> bool {
    match event {
        Event::Ended => true,
        _ => false,
    }
}

// Worker 1 waits for worker 0, whose steps are a write and a finish.
#[test]
fn worker_one_waits(rt: HostRuntime) -> Result<(), Fail> {
    let work = two_rows(rt.alloc())?;
    let mut core = begin(rt.alloc(), &work)?;
    assert!(rt; is_look(step(&mut core, 1), 0, false));
    assert!(rt; is_write(step(&mut core, 0), 0, 7));
    assert!(rt; is_look(step(&mut core, 1), 0, false));
    assert!(rt; is_finish(step(&mut core, 0)));
    assert!(rt; is_look(step(&mut core, 1), 1, true));
    assert!(rt; is_end(step(&mut core, 0)));
    Ok(())
}

// x[1] = 20, and then x[1] = x[1] - 2 * x[0].
#[test]
fn the_second_row_reads_the_first(rt: HostRuntime) -> Result<(), Fail> {
    let work = two_rows(rt.alloc())?;
    let mut core = begin(rt.alloc(), &work)?;
    assert!(rt; is_write(step(&mut core, 0), 0, 7));
    assert!(rt; is_finish(step(&mut core, 0)));
    assert!(rt; is_look(step(&mut core, 1), 1, true));
    assert!(rt; is_write(step(&mut core, 1), 1, 20));
    assert!(rt; is_read(step(&mut core, 1), 1, 20));
    assert!(rt; is_read(step(&mut core, 1), 0, 7));
    assert!(rt; is_write(step(&mut core, 1), 1, 6));
    assert!(rt; is_finish(step(&mut core, 1)));
    assert!(rt; is_end(step(&mut core, 1)));
    Ok(())
}
