// Both ways to the instances agree. What they list is compared by crates/bench_rules.
use index_props::instances::instances;
use index_props::rule::RuleInst;
use index_props::small::are_bounds_small;
use props_plain::listing::instances_by_search;
use rule_samples::made::make_system;
use rule_samples::system::System;
use std::alloc::Global;
use std::test::Fail;
use uf_constraints::same::same_atom;
use uf_constraints::small::{are_diffs_small, are_terms_small};
use uf_constraints::system::{Diff, Universe};
use uf_constraints::universe::universe;

fn same_diff(x: &Diff, y: &Diff) -> bool {
    same_atom(&x.a, &y.a) && same_atom(&x.b, &y.b) && x.c == y.c
}

fn same_diffs(xs: &[Diff], ys: &[Diff]) -> bool {
    xs.len() == ys.len() && xs.iter().zip(ys).all(|(x, y)| same_diff(x, y))
}

fn same_rule(x: &RuleInst, y: &RuleInst) -> bool {
    same_diffs(x.premises.as_slice(), y.premises.as_slice())
        && same_diffs(x.results.as_slice(), y.results.as_slice())
}

fn same_rules(xs: &[RuleInst], ys: &[RuleInst]) -> bool {
    xs.len() == ys.len() && xs.iter().zip(ys).all(|(x, y)| same_rule(x, y))
}

// How many instances both ways list.
fn agreed(alloc: Global, system: &System) -> Result<usize, Fail> {
    let base = system.base.as_slice();
    let terms = system.terms.as_slice();
    let props = system.props.as_slice();
    if !are_diffs_small(base) {
        return Err("a constant is too large".into());
    }
    if !are_terms_small(terms) {
        return Err("a constant is too large".into());
    }
    if !are_bounds_small(props) {
        return Err("a bound is too large".into());
    }
    let Ok(u) = universe(alloc, base, terms, props) else {
        return Err("no universe".into());
    };
    let quick = instances(alloc, &u, system.decls.as_slice(), props)?;
    let plain = instances_by_search(alloc, &u, system.decls.as_slice(), props)?;
    if !same_rules(quick.as_slice(), plain.as_slice()) {
        return Err("the two ways differ".into());
    }
    Ok(quick.len())
}

#[test]
fn both_ways_list_the_same_instances(rt: HostRuntime) -> Result<(), Fail> {
    let mut rules: usize = 0;
    for counter in 0..240 {
        let system = make_system(rt.alloc(), counter)?;
        rules = rules.wrapping_add(agreed(rt.alloc(), &system)?);
    }
    // the number that tests/rules.py counts for these systems
    assert_eq!(rt; rules, 58_047);
    Ok(())
}
