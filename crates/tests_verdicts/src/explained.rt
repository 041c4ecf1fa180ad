// The printed lines of relations.
use crate::judged::accepted;
use crate::texts::{FORWARD, LOOSE_SCATTER};
use dep_extract::extract::relations;
use dep_simplify::verdict::Verdict;
use dep_simplify::verdicts::verdicts;
use std::alloc::Global;
use std::test::Fail;
use uf_constraints::system::Relation;
use wave_report::relation::{Said, relation};

fn said(verdict: &Verdict) -> Said {
    match verdict {
        Verdict::Dropped(_) => Said::Dropped,
        Verdict::Covered(number) => Said::Covered(*number),
        Verdict::Kept => Said::Kept,
    }
}

fn line(alloc: Global, number: u32, r: &Relation, verdict: &Verdict) -> Result<String, Fail> {
    if !(r.first.writes || r.second.writes) {
        return Err("neither writes".into());
    }
    Ok(relation(alloc, number, &r.first, &r.second, said(verdict))?)
}

fn explained(alloc: Global, text: &[u8]) -> Result<String, Fail> {
    let nest = accepted(alloc, text)?;
    let all = relations(alloc, nest.nest())?;
    let verdicts = verdicts(alloc, &nest)?;
    let mut text = String::new(alloc);
    let mut number = 0u32;
    for (r, verdict) in all.as_slice().iter().zip(verdicts.as_slice()) {
        number = number.wrapping_add(1);
        text.push_str(line(alloc, number, r, verdict)?.as_str())?;
    }
    Ok(text)
}

#[test]
fn forward_substitution(rt: HostRuntime) -> Result<(), Fail> {
    let want =
        "relation 1 10:1 10:1 output dropped\nrelation 2 10:1 12:2 true dropped\nrelation 3 10:1 12:4 true kept\nrelation 4 10:1 12:1 output dropped\nrelation 5 12:2 10:1 anti dropped\nrelation 6 12:2 12:1 anti dropped\nrelation 7 12:4 10:1 anti dropped\nrelation 8 12:4 12:1 anti dropped\nrelation 9 12:1 10:1 output dropped\nrelation 10 12:1 12:2 true dropped\nrelation 11 12:1 12:4 true covered 3\nrelation 12 12:1 12:1 output dropped\n";
    assert!(rt; explained(rt.alloc(), FORWARD)?.as_str() == want);
    Ok(())
}

#[test]
fn a_scatter_without_distinct_places(rt: HostRuntime) -> Result<(), Fail> {
    let text = explained(rt.alloc(), LOOSE_SCATTER)?;
    assert!(rt; text.as_str() == "relation 1 8:1 8:1 output kept\n");
    Ok(())
}
