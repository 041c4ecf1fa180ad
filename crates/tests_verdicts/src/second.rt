// A second body of the verdicts: the plain closure, each relation by itself, all declared properties.
ghost use Rattle.std.specs.Prelude.{◌^◌, ◌+◌, IfOk};
ghost use Rattle.uf_constraints.specs.Constants.{IndexesWithin};

use crate::judged::accepted;
use crate::made::{COPY, CROSSED, GATHER, GUARDED, MAPPED, ROWS, SPREAD, made};
use crate::short::short;
use bound_close::over::{are_over, are_rules_over};
use bound_close::plain::{Plain, close};
use dep_extract::extract::relations;
use index_props::instances::instances;
use index_props::rule::RuleInst;
use index_props::small::are_bounds_small;
use loop_core::nest::Nest;
use sqlite_items::Items;
use std::alloc::Global;
use std::test::Fail;
use uf_constraints::small::are_diffs_small;
use uf_constraints::system::{Diff, Relation, Universe};
use uf_constraints::universe::universe;

fn universe_of(alloc: Global, nest: &Nest, base: &[Diff]) -> Result<Universe, Fail>
    ensures { IfOk result (λ u. IndexesWithin (2 ^ 21 + 1) u.atoms) }
{
    if !are_diffs_small(base) {
        return Err("a constant is too large".into());
    }
    match universe(alloc, base, &[], nest.props.as_slice()) {
        Ok(u) => Ok(u),
        Err(_) => Err("there is no universe".into()),
    }
}

// The closure of a base and of instances over the universe.
fn closed(alloc: Global, u: &Universe, base: &[Diff], rules: &[RuleInst]) -> Result<Plain, Fail> {
    let atoms = u.atoms.as_slice();
    if !are_over(atoms, base) {
        return Err("a constraint is too large".into());
    }
    if !are_rules_over(atoms, rules) {
        return Err("an instance isn't over the universe".into());
    }
    Ok(close(alloc, u, base, rules)?)
}

fn plain_rules(alloc: Global, nest: &Nest, u: &Universe) -> Result<Items<RuleInst>, Fail>
    requires { IndexesWithin (2 ^ 21 + 1) u.now.atoms }
{
    let props = nest.props.as_slice();
    if !are_bounds_small(props) {
        return Err("a bound is too large".into());
    }
    Ok(instances(alloc, u, nest.decls.as_slice(), props)?)
}

fn plain_closure(alloc: Global, nest: &Nest, base: &[Diff]) -> Result<Plain, Fail> {
    let u = universe_of(alloc, nest, base)?;
    let rules = plain_rules(alloc, nest, &u)?;
    closed(alloc, &u, base, rules.as_slice())
}

fn follows(k: &Plain, diff: &Diff) -> bool {
    match k.bound(&diff.a, &diff.b) {
        Some(bound) => bound <= diff.c,
        None => false,
    }
}

fn all_follow(k: &Plain, base: &[Diff]) -> bool {
    for diff in base {
        if !follows(k, diff) {
            return false;
        }
    }
    true
}

// The number of the first kept relation whose base follows, and the next number where there is none.
fn first_cover(k: &Plain, relations: &[Relation], so_far: &[u32]) -> u32 {
    let mut number = 0u32;
    for (relation, verdict) in relations.iter().zip(so_far) {
        number = number.wrapping_add(1);
        if *verdict == number && all_follow(k, relation.base.as_slice()) {
            return number;
        }
    }
    number.wrapping_add(1)
}

fn plainly(
    alloc: Global,
    nest: &Nest,
    base: &[Diff],
    relations: &[Relation],
    so_far: &[u32],
) -> Result<u32, Fail> {
    let k = plain_closure(alloc, nest, base)?;
    if k.empty() {
        return Ok(0);
    }
    Ok(first_cover(&k, relations, so_far))
}

fn plain_short(alloc: Global, nest: &Nest) -> Result<Vec<u32>, Fail> {
    let relations = relations(alloc, nest)?;
    let all = relations.as_slice();
    let mut short = Vec::new(alloc);
    for relation in all {
        let verdict = plainly(alloc, nest, relation.base.as_slice(), all, short.as_slice())?;
        short.push(verdict)?;
    }
    Ok(short)
}

fn agree(alloc: Global, text: &[u8]) -> Result<bool, Fail> {
    let nest = accepted(alloc, text)?;
    let plain = plain_short(alloc, nest.nest())?;
    let found = short(alloc, text)?;
    Ok(found.as_slice() == plain.as_slice())
}

// With how many of the 32 sets of properties both bodies agree on a statement.
fn agreed(alloc: Global, body: &[u8]) -> Result<u32, Fail> {
    let mut count = 0u32;
    for set in 0..32 {
        let text = made(alloc, set, body)?;
        if agree(alloc, text.as_slice())? {
            count = count.wrapping_add(1);
        }
    }
    Ok(count)
}

#[test]
fn both_bodies_agree_on_index_files(rt: HostRuntime) -> Result<(), Fail> {
    assert_eq!(rt; agreed(rt.alloc(), COPY)?, 32);
    assert_eq!(rt; agreed(rt.alloc(), GATHER)?, 32);
    assert_eq!(rt; agreed(rt.alloc(), GUARDED)?, 32);
    assert_eq!(rt; agreed(rt.alloc(), CROSSED)?, 32);
    Ok(())
}

#[test]
fn both_bodies_agree_on_entries_of_rows(rt: HostRuntime) -> Result<(), Fail> {
    assert_eq!(rt; agreed(rt.alloc(), SPREAD)?, 32);
    assert_eq!(rt; agreed(rt.alloc(), MAPPED)?, 32);
    assert_eq!(rt; agreed(rt.alloc(), ROWS)?, 32);
    Ok(())
}
