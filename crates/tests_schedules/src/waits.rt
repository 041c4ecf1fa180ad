// Which cross pairs stay waits.
use crate::plans::planned;
use schedule_samples::worked::over_a_third_worker;
use std::test::Fail;

// Row 8 needn't wait for row 0, since row 4 stands between them.
#[test]
fn a_wait_over_a_third_worker_is_dropped(rt: HostRuntime) -> Result<(), Fail> {
    let text = planned(rt.alloc(), 9, over_a_third_worker(rt.alloc())?, &[], 3)?;
    assert_eq!(rt;
        text.as_str(),
        "edges 7 levels 3 cross 3 chain 0 3 6 worker task 0 0 task 1 3 task 2 6 worker task 0 1 task 1 4 0:1 task 2 7 worker task 0 2 task 1 5 task 2 8 1:2"
    );
    Ok(())
}
