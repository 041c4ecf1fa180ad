// Which kept relation covers another.
ghost use Rattle.std.specs.Prelude.{◌≡◌, ◌≤◌, ◌<◌, ℕ, ℤ, List, length, slice_get, Some, true, false, MatchOption};
ghost use Rattle.uf_constraints.specs.declared.system.Relation.{Relation};
ghost use Rattle.index_props.specs.declared.rule.RuleInst.{RuleInst};
ghost use Rattle.index_props.specs.Derivable.{Derivable};
ghost use Rattle.index_props.specs.Places.{IsLeast};
ghost use Rattle.dep_simplify.specs.declared.verdict.Verdict.TheVariants.{Kept};
ghost use Rattle.dep_simplify.specs.Ready.{IsOpen, AllFollow, IsFoundCover};

use crate::verdict::Verdict;
use bound_close::closure::Closure;
use uf_constraints::system::{Diff, Relation};

/// The place of the first kept relation whose base follows, by a closure that isn't empty. It takes no
/// memory.
pub fn least_cover(closure: &Closure, relations: &[Relation], verdicts: &[Verdict]) -> Option<usize>
    requires { length verdicts.now ≤ length relations.now }
    ensures { (base : List Diff) (rules : List RuleInst) → IsOpen closure.now base rules → MatchOption result
        ((k : ℕ) → IsFoundCover closure.now.atoms base rules relations.now verdicts.now k → ⊥)
        (IsLeast (IsFoundCover closure.now.atoms base rules relations.now verdicts.now)) }
{
    for k in 0..verdicts.len() {
        if is_cover(closure, &relations[k], &verdicts[k]) {
            return Some(k);
        }
    }
    None
}

fn is_cover(closure: &Closure, relation: &Relation, verdict: &Verdict) -> bool
    ensures kept { result ≡ true → verdict.now ≡ Kept }
    ensures yes { result ≡ true → (base : List Diff) (rules : List RuleInst)
        → IsOpen closure.now base rules → AllFollow closure.now.atoms base rules relation.now.base }
    ensures no { result ≡ false → verdict.now ≡ Kept → (base : List Diff) (rules : List RuleInst)
        → IsOpen closure.now base rules → AllFollow closure.now.atoms base rules relation.now.base → ⊥ }
{
    match verdict {
        Verdict::Kept => all_follow(closure, relation.base.as_slice()),
        Verdict::Covered(_) => false,
        Verdict::Dropped(_) => false,
    }
}

fn all_follow(closure: &Closure, diffs: &[Diff]) -> bool
    ensures yes { result ≡ true → (base : List Diff) (rules : List RuleInst)
        → IsOpen closure.now base rules → AllFollow closure.now.atoms base rules diffs.now }
    ensures no { result ≡ false → (base : List Diff) (rules : List RuleInst)
        → IsOpen closure.now base rules → AllFollow closure.now.atoms base rules diffs.now → ⊥ }
{
    for diff in diffs {
        if !follows(closure, diff) {
            return false;
        }
    }
    true
}

fn follows(closure: &Closure, diff: &Diff) -> bool
    ensures yes { result ≡ true → (base : List Diff) (rules : List RuleInst)
        → IsOpen closure.now base rules → Derivable closure.now.atoms base rules diff.now.a diff.now.b diff.now.c }
    ensures no { result ≡ false → (base : List Diff) (rules : List RuleInst)
        → IsOpen closure.now base rules → Derivable closure.now.atoms base rules diff.now.a diff.now.b diff.now.c → ⊥ }
{
    match closure.bound(&diff.a, &diff.b) {
        Some(bound) => bound <= diff.c,
        None => false,
    }
}
