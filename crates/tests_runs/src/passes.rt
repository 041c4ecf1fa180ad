// Who passes the gate.
use crate::calls::{LOOP, call_through};
use crate::gates::Counts;
use crate::runs::{SIX, WIDE_MATRIX, WIDE_TEXT};
use std::test::Fail;

/// Three tasks for each of two workers, of which some wait for the other worker's: each is passed once.
#[test]
fn each_task_is_passed_once(rt: HostRuntime) -> Result<(), Fail> {
    let counts = Counts::new(rt.alloc(), 2)?;
    let files = [("L", LOOP), ("A", WIDE_MATRIX), ("B", SIX)];
    let outcome = call_through(&rt, &["run", "L", "A", "2", "B"], &files, &counts)?;
    assert!(rt; outcome.is(0, WIDE_TEXT, ""));
    for worker in 0..2u32 {
        assert!(rt;
            counts.of(worker, 0) == 1 && counts.of(worker, 1) == 1 && counts.of(worker, 2) == 1
        );
        assert!(rt; counts.of(worker, 3) == 0);
    }
    assert!(rt; counts.others() == 0);
    Ok(())
}

/// Nothing passes on the words of a plan.
#[test]
fn plans_pass_no_gate(rt: HostRuntime) -> Result<(), Fail> {
    let counts = Counts::new(rt.alloc(), 2)?;
    let files = [("L", LOOP), ("A", WIDE_MATRIX), ("B", SIX)];
    let outcome = call_through(&rt, &["plan", "L", "A", "2", "B"], &files, &counts)?;
    assert!(rt; outcome.status.code() == 0);
    assert!(rt; counts.of(0, 0) == 0 && counts.of(1, 0) == 0 && counts.others() == 0);
    Ok(())
}
