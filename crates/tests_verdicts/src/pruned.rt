// Certificates cut down.
use cert_prune::prune::prune;
use index_props::certificate::{Cert, Step};
use sqlite_items::Items;
use std::alloc::Global;
use std::test::Fail;

fn five(alloc: Global) -> Result<Cert, Fail> {
    let mut steps = Items::new(alloc);
    steps.push(Step::Base(0))?;
    steps.push(Step::Base(3))?;
    steps.push(Step::Base(1))?;
    steps.push(Step::Sum(0, 1))?;
    steps.push(Step::Sum(0, 2))?;
    Ok(Cert { steps })
}

#[test]
fn needless_steps_are_left_out(rt: HostRuntime) -> Result<(), Fail> {
    let cert = prune(rt.alloc(), &five(rt.alloc())?)?;
    let [Step::Base(first), Step::Base(second), Step::Sum(k, l)] = cert.steps.as_slice() else {
        return Err("other steps are left".into());
    };
    assert_eq!(rt; (*first, *second, *k, *l), (0, 1, 0, 1));
    Ok(())
}

#[test]
fn no_steps_stay_none(rt: HostRuntime) -> Result<(), Fail> {
    let steps = Items::new(rt.alloc());
    let cert = prune(rt.alloc(), &Cert { steps })?;
    assert!(rt; cert.steps.is_empty());
    Ok(())
}
