// The plan of a relation, one letter for each operation.
ghost use Rattle.std.specs.Prelude.{◌^◌, ◌+◌, IfOk};
ghost use Rattle.uf_constraints.specs.Constants.{IndexesWithin};

use bound_close::closure::{Closure, close};
use bound_close::over::{are_over, are_rules_over};
use dep_extract::extract::relations;
use index_props::instances::instances;
use index_props::rule::RuleInst;
use index_props::small::are_bounds_small;
use inspector_gen::plain::plain_plan_for;
use inspector_gen::plan::{plan_for, quick_plan_for};
use inspector_run::plan::{InspOp, InspPlan};
use loop_core::nest::Nest;
use loop_syntax::read::read;
use sqlite_items::Items;
use std::alloc::Global;
use std::test::Fail;
use uf_constraints::small::are_diffs_small;
use uf_constraints::system::{Diff, Relation, Universe};
use uf_constraints::universe::universe;

fn nest_of(alloc: Global, text: &[u8]) -> Result<Nest, Fail> {
    if text.len() > 65_536 {
        return Err("the text is too long".into());
    }
    match read(alloc, text) {
        Ok(nest) => Ok(nest),
        Err(_) => Err("the text is refused".into()),
    }
}

fn universe_of(alloc: Global, nest: &Nest, base: &[Diff]) -> Result<Universe, Fail>
    ensures { IfOk result (λ u. IndexesWithin (2 ^ 21 + 1) u.atoms) }
{
    if !are_diffs_small(base) {
        return Err("a constant is too large".into());
    }
    match universe(alloc, base, &[], nest.props.as_slice()) {
        Ok(u) => Ok(u),
        Err(_) => Err("there is no universe".into()),
    }
}

fn closed(alloc: Global, u: &Universe, base: &[Diff], rules: &[RuleInst]) -> Result<Closure, Fail> {
    let atoms = u.atoms.as_slice();
    if !are_over(atoms, base) {
        return Err("a constraint is too large".into());
    }
    if !are_rules_over(atoms, rules) {
        return Err("an instance isn't over the universe".into());
    }
    Ok(close(alloc, u, base, rules)?)
}

fn rules_of(alloc: Global, nest: &Nest, u: &Universe) -> Result<Items<RuleInst>, Fail>
    requires { IndexesWithin (2 ^ 21 + 1) u.now.atoms }
{
    let props = nest.props.as_slice();
    if !are_bounds_small(props) {
        return Err("a bound is too large".into());
    }
    Ok(instances(alloc, u, nest.decls.as_slice(), props)?)
}

fn closure_of(alloc: Global, nest: &Nest, base: &[Diff]) -> Result<Closure, Fail> {
    let u = universe_of(alloc, nest, base)?;
    let rules = rules_of(alloc, nest, &u)?;
    closed(alloc, &u, base, rules.as_slice())
}

fn letter(op: &InspOp) -> u8 {
    match op {
        InspOp::Loop { .. } => b'L',
        InspOp::Let { .. } => b'=',
        InspOp::Find { .. } => b'F',
        InspOp::Locate { .. } => b'S',
        InspOp::Test(_) => b'.',
        InspOp::Emit { .. } => b'E',
    }
}

fn letters_of(alloc: Global, ops: &[InspOp]) -> Result<Vec<u8>, Fail> {
    let mut letters = Vec::new(alloc);
    for op in ops {
        letters.push(letter(op))?;
    }
    Ok(letters)
}

/// Which plan.
#[derive(Clone, Copy)]
pub enum Planner {
    Sides,
    OneByOne,
    Plain,
}

fn plan_of(
    alloc: Global,
    planner: Planner,
    nest: &Nest,
    relation: &Relation,
    closure: &Closure,
) -> Result<InspPlan, Fail> {
    match planner {
        Planner::Sides => Ok(plan_for(alloc, nest, relation, closure)?),
        Planner::OneByOne => Ok(quick_plan_for(alloc, nest, relation, closure)?),
        Planner::Plain => Ok(plain_plan_for(alloc, nest, relation)?),
    }
}

/// The operations of a plan of a relation of a text; relations count from 1. `L` loops, `=` lets, `F`
/// finds, `S` searches, `.` tests, `E` emits.
pub fn letters_by(
    alloc: Global,
    planner: Planner,
    text: &[u8],
    number: usize,
) -> Result<Vec<u8>, Fail> {
    let nest = nest_of(alloc, text)?;
    let relations = relations(alloc, &nest)?;
    let relation = relations
        .get(number.wrapping_sub(1))
        .ok_or("there is no such relation")?;
    let closure = closure_of(alloc, &nest, relation.base.as_slice())?;
    if closure.empty() {
        return Err("the relation is dropped".into());
    }
    let plan = plan_of(alloc, planner, &nest, relation, &closure)?;
    letters_of(alloc, plan.ops.as_slice())
}

/// Those of the plan in the cheaper order of the sides.
pub fn letters(alloc: Global, text: &[u8], number: usize) -> Result<Vec<u8>, Fail> {
    letters_by(alloc, Planner::Sides, text, number)
}
