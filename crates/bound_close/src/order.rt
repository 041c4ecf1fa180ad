// Closures of one system give the same answers, whatever the order of the base and whichever the body.
ghost use Rattle.std.specs.Prelude.{◌≡◌, ℤ, List, Option};
ghost use Rattle.loop_core.specs.declared.nest.Atom.{Atom};
ghost use Rattle.uf_constraints.specs.declared.system.Diff.{Diff};
ghost use Rattle.index_props.specs.declared.rule.RuleInst.{RuleInst};
ghost use Rattle.index_props.specs.Derivable.{IsContradictory};
ghost use Rattle.bound_close.specs.Closure.{IsClosure, IsBound, AreSame};
ghost use Rattle.bound_plain.specs.Plain.{IsSaturation};

use crate::closure::Closure;
use bound_plain::plain::Plain;

/// Two closures over one universe and one list of instances, of which the bases are one set of
/// constraints in any order, give the same answer of `empty`, and the same `bound` where they
/// aren't empty. It does nothing; its contract is the law.
pub fn same_in_any_order(first: &Closure, second: &Closure)
    ensures empty { (base other : List Diff) (rules : List RuleInst)
        → IsClosure first.now base rules → IsClosure second.now other rules
        → first.now.atoms ≡ second.now.atoms → AreSame base other
        → first.now.refuted ≡ second.now.refuted }
    ensures bound { (base other : List Diff) (rules : List RuleInst) (a b : Atom) (one two : Option ℤ)
        → first.now.atoms ≡ second.now.atoms → AreSame base other
        → (IsContradictory first.now.atoms base rules → ⊥)
        → IsBound first.now.atoms base rules a b one → IsBound second.now.atoms other rules a b two
        → one ≡ two }
{
    let _ = first;
    let _ = second;
}

/// A closure and a plain closure of one base and one list of instances over one list of atoms give the
/// same answer of `empty`, and the same `bound` where they aren't empty. It does nothing; its contract
/// is the law.
pub fn same_answers(first: &Closure, second: &Plain)
    ensures empty { (base : List Diff) (rules : List RuleInst)
        → IsClosure first.now base rules → IsSaturation second.now base rules
        → first.now.atoms ≡ second.now.atoms
        → first.now.refuted ≡ second.now.refuted }
    ensures bound { (base : List Diff) (rules : List RuleInst) (a b : Atom) (one two : Option ℤ)
        → first.now.atoms ≡ second.now.atoms
        → IsBound first.now.atoms base rules a b one → IsBound second.now.atoms base rules a b two
        → one ≡ two }
{
    let _ = first;
    let _ = second;
}
