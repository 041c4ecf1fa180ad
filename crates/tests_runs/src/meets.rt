// Workers that meet at their gates.
use crate::calls::{LOOP, call_through};
use crate::gates::Meeting;
use std::test::Fail;

const DIAGONAL: &str =
    "%%MatrixMarket matrix coordinate integer general\n4 4 4\n1 1 1\n2 2 1\n3 3 1\n4 4 1\n";

const FOUR: &str = "%%MatrixMarket matrix array integer general\n4 1\n1\n2\n3\n4\n";

const DIAGONAL_TEXT: &str =
    "relations 12 dropped 10 covered 1 kept 1\nrows 4 stored 4 edges 0\nlevels 1 tasks 2 cross 0 waits 0\narray x 4\n1\n2\n3\n4\n";

#[test]
fn two_workers_run_at_the_same_time(rt: HostRuntime) -> Result<(), Fail> {
    let meeting = Meeting::new(rt.alloc())?;
    let files = [("L", LOOP), ("A", DIAGONAL), ("B", FOUR)];
    let outcome = call_through(&rt, &["run", "L", "A", "2", "B"], &files, &meeting)?;
    assert!(rt; outcome.is(0, DIAGONAL_TEXT, ""));
    assert!(rt; meeting.late() == 0);
    assert!(rt; meeting.counts.of(0, 0) == 1 && meeting.counts.of(1, 0) == 1);
    assert!(rt;
        meeting.counts.of(0, 1) == 0 && meeting.counts.of(1, 1) == 0 && meeting.counts.others() == 0
    );
    Ok(())
}
