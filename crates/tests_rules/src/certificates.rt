// Certificates made by hand: each kind of step, and each way in which a step is none.
use cert_check::check::check;
use cert_check::refusal::CertRefusal;
use index_props::certificate::{Cert, Step};
use index_props::rule::RuleInst;
use loop_core::nest::{Atom, Side, VarId};
use sqlite_items::Items;
use std::alloc::Global;
use std::test::Fail;
use uf_constraints::same::same_atom;
use uf_constraints::system::Diff;
use uf_constraints::universe::universe;

// 0 < n and n <= nnz + 3
fn base(alloc: Global) -> Result<Items<Diff>, Fail> {
    let mut base = Items::new(alloc);
    base.push(Diff {
        a: Atom::Zero,
        b: Atom::N,
        c: -1,
    })?;
    base.push(Diff {
        a: Atom::N,
        b: Atom::Nnz,
        c: 3,
    })?;
    Ok(base)
}

// From the base it follows that nnz <= n + 5 and that nnz <= 7.
fn rules(alloc: Global) -> Result<Items<RuleInst>, Fail> {
    let mut results = Items::new(alloc);
    results.push(Diff {
        a: Atom::Nnz,
        b: Atom::N,
        c: 5,
    })?;
    results.push(Diff {
        a: Atom::Nnz,
        b: Atom::Zero,
        c: 7,
    })?;
    let mut rules = Items::new(alloc);
    rules.push(RuleInst {
        premises: base(alloc)?,
        results,
    })?;
    Ok(rules)
}

fn checked(alloc: Global, steps: Items<Step>) -> Result<Result<Diff, CertRefusal>, Fail> {
    let Ok(u) = universe(alloc, &[], &[], &[]) else {
        return Err("no universe".into());
    };
    let base = base(alloc)?;
    let rules = rules(alloc)?;
    let cert = Cert { steps };
    Ok(check(alloc, &u, base.as_slice(), rules.as_slice(), &cert))
}

// The step at which a certificate is refused that has both constraints of the base and then this step.
fn bad_after_base(alloc: Global, step: Step) -> Result<Option<u64>, Fail> {
    let mut steps = Items::new(alloc);
    steps.push(Step::Base(0))?;
    steps.push(Step::Base(1))?;
    steps.push(step)?;
    bad_step(checked(alloc, steps)?)
}

fn bad_step(answer: Result<Diff, CertRefusal>) -> Result<Option<u64>, Fail> {
    match answer {
        Ok(_) => Ok(None),
        Err(CertRefusal::BadStep { at }) => Ok(Some(at)),
        Err(CertRefusal::Memory) => Err("out of memory".into()),
    }
}

// The atom of a number: 0, n and nnz.
fn size(number: u8) -> Atom {
    match number {
        0 => Atom::Zero,
        1 => Atom::N,
        _ => Atom::Nnz,
    }
}

// Whether the answer is the constraint a - b <= c between the atoms of these numbers.
fn is_given(answer: &Result<Diff, CertRefusal>, a: u8, b: u8, c: i64) -> bool {
    match answer {
        Ok(diff) => same_atom(&diff.a, &size(a)) && same_atom(&diff.b, &size(b)) && diff.c == c,
        Err(_) => false,
    }
}

fn good_steps(alloc: Global, count: usize) -> Result<Items<Step>, Fail> {
    let mut steps = Items::new(alloc);
    steps.push(Step::Base(0))?;
    steps.push(Step::Base(1))?;
    steps.push(Step::Sum(0, 1))?;
    steps.push(Step::Weaken(2, 9))?;
    steps.push(Step::Same(Atom::Nnz))?;
    steps.push(Step::Sum(3, 4))?;
    steps.push(Step::Rule(0, 1, Items::from_slice(alloc, &[0, 1])?))?;
    steps.push(Step::Sum(6, 3))?;
    steps.push(Step::Weaken(7, 16))?;
    for _ in 0..9 {
        if steps.len() > count {
            steps.pop();
        }
    }
    Ok(steps)
}

#[test]
fn each_step_gives_its_constraint(rt: HostRuntime) -> Result<(), Fail> {
    let alloc = rt.alloc();
    let wanted = [
        (1, 0, 1, -1),
        (2, 1, 2, 3),
        (3, 0, 2, 2),
        (4, 0, 2, 9),
        (5, 2, 2, 0),
        (6, 0, 2, 9),
        (7, 2, 0, 7),
        (8, 2, 2, 16),
        (9, 2, 2, 16),
    ];
    for (count, a, b, c) in wanted {
        let answer = checked(alloc, good_steps(alloc, count)?)?;
        assert!(rt; is_given(&answer, a, b, c), "{count} steps");
    }
    Ok(())
}

#[test]
fn base_and_same_outside_the_system(rt: HostRuntime) -> Result<(), Fail> {
    let outside = Atom::Var(VarId {
        line: 1,
        side: Side::Own,
    });
    assert_eq!(rt; bad_after_base(rt.alloc(), Step::Base(2))?, Some(2));
    assert_eq!(rt; bad_after_base(rt.alloc(), Step::Same(outside))?, Some(2));
    Ok(())
}

#[test]
fn sums_that_are_none(rt: HostRuntime) -> Result<(), Fail> {
    for (k, l) in [(0, 2), (2, 1), (0, 3), (0, 0), (1, 0)] {
        let at = bad_after_base(rt.alloc(), Step::Sum(k, l))?;
        assert_eq!(rt; at, Some(2), "{k} and {l}");
    }
    Ok(())
}

#[test]
fn weakenings_that_are_none(rt: HostRuntime) -> Result<(), Fail> {
    for (k, c) in [(0, -2), (2, 9), (3, 9)] {
        let at = bad_after_base(rt.alloc(), Step::Weaken(k, c))?;
        assert_eq!(rt; at, Some(2), "{k} to {c}");
    }
    Ok(())
}

#[test]
fn rules_that_do_not_fire(rt: HostRuntime) -> Result<(), Fail> {
    let alloc = rt.alloc();
    let wanted: [(u64, u64, &[u64], Option<u64>); 9] = [
        (0, 0, &[0, 1], None),
        (1, 0, &[0, 1], Some(2)),
        (0, 2, &[0, 1], Some(2)),
        (0, 0, &[0], Some(2)),
        (0, 0, &[0, 1, 1], Some(2)),
        (0, 0, &[1, 0], Some(2)),
        (0, 0, &[0, 0], Some(2)),
        (0, 0, &[0, 2], Some(2)),
        (0, 0, &[0, 3], Some(2)),
    ];
    for (inst, result, places, at) in wanted {
        let step = Step::Rule(inst, result, Items::from_slice(alloc, places)?);
        assert_eq!(rt; bad_after_base(alloc, step)?, at, "result {result}");
    }
    Ok(())
}

#[test]
fn first_bad_step_and_no_steps(rt: HostRuntime) -> Result<(), Fail> {
    let alloc = rt.alloc();
    let mut steps = good_steps(alloc, 2)?;
    steps.push(Step::Base(9))?;
    steps.push(Step::Same(Atom::N))?;
    steps.push(Step::Base(8))?;
    assert_eq!(rt; bad_step(checked(alloc, steps)?)?, Some(2));
    assert_eq!(rt; bad_step(checked(alloc, Items::new(alloc))?)?, Some(0));
    Ok(())
}

#[test]
fn right_side_outside_64_bits(rt: HostRuntime) -> Result<(), Fail> {
    let alloc = rt.alloc();
    let mut steps = Items::new(alloc);
    steps.push(Step::Same(Atom::N))?;
    steps.push(Step::Weaken(0, i64::MAX))?;
    steps.push(Step::Weaken(0, 1))?;
    steps.push(Step::Sum(1, 0))?;
    steps.push(Step::Sum(1, 2))?;
    assert_eq!(rt; bad_step(checked(alloc, steps)?)?, Some(4));
    Ok(())
}
