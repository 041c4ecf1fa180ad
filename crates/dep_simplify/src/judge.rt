// The verdict by a closure.
ghost use Rattle.std.specs.Prelude.{◌≤◌, List, length, IfOk};
ghost use Rattle.index_props.specs.declared.rule.RuleInst.{RuleInst};
ghost use Rattle.bound_ways.specs.Over.{AreOver, AreRulesOver};
ghost use Rattle.dep_simplify.specs.Ready.{IsOpen, IsJudged};

use crate::again::covered;
use crate::covers::least_cover;
use crate::refuted::refuted;
use crate::verdict::Verdict;
use bound_close::closure::{Closure, close};
use index_props::rule::RuleInst;
use std::alloc::Global;
use uf_constraints::system::{Diff, Relation, Universe};
use wave_base::types::Memory;

/// The verdict on a base by the closure of its system: dropped, or by the relations so far.
pub fn judged(
    alloc: Global,
    u: &Universe,
    base: &[Diff],
    rules: &[RuleInst],
    relations: &[Relation],
    verdicts: &[Verdict],
) -> Result<Verdict, Memory>
    requires base { AreOver u.now.atoms base.now }
    requires rules { AreRulesOver u.now.atoms rules.now }
    requires long { length verdicts.now ≤ length relations.now }
    ensures { IfOk result (IsJudged u.now.atoms base.now rules.now relations.now verdicts.now) }
{
    let closure = close(alloc, u, base, rules)?;
    match refuted(alloc, u, base, rules, &closure)? {
        Some(cert) => Ok(Verdict::Dropped(cert)),
        None => by_covers(&closure, relations, verdicts),
    }
}

fn by_covers(
    closure: &Closure,
    relations: &[Relation],
    verdicts: &[Verdict],
) -> Result<Verdict, Memory>
    requires { length verdicts.now ≤ length relations.now }
    ensures { (base : List Diff) (rules : List RuleInst) → IsOpen closure.now base rules
        → IfOk result (IsJudged closure.now.atoms base rules relations.now verdicts.now) }
{
    match least_cover(closure, relations, verdicts) {
        Some(k) => covered(k),
        None => Ok(Verdict::Kept),
    }
}
