// The printed numbers of a plan and of a replay.
use core_machine::cores::CoreEnd;
use loop_core::values::Values;
use std::test::Fail;
use wave_report::counts::Summary;
use wave_report::looks::looks;
use wave_report::summary::summary;

#[test]
fn each_number_has_its_word(rt: HostRuntime) -> Result<(), Fail> {
    let counts = Summary {
        relations: 12,
        dropped: 10,
        covered: 2,
        kept: 0,
        rows: 6,
        stored: 18,
        edges: 13,
        levels: 3,
        tasks: 7,
        cross: 5,
        waits: 4,
    };
    let text = summary(rt.alloc(), &counts)?;
    assert!(rt;
        text.as_str()
            == "relations 12 dropped 10 covered 2 kept 0\nrows 6 stored 18 edges 13\nlevels 3 tasks 7 cross 5 waits 4\n"
    );
    Ok(())
}

#[test]
fn looks_and_those_that_passed(rt: HostRuntime) -> Result<(), Fail> {
    let end = CoreEnd {
        values: Values::of(Vec::new(rt.alloc())),
        looks: u64::MAX,
        passed: 4,
    };
    let text = looks(rt.alloc(), &end)?;
    assert!(rt; text.as_str() == "looks 18446744073709551615 passed 4\n");
    Ok(())
}
