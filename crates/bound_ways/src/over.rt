// Whether constraints are over the atoms of a list, with small constants.
ghost use Rattle.std.specs.Prelude.{◌≡◌, ◌<◌, ◌≤◌, ◌^◌, true, false, length, unsigned_abs};
ghost use Rattle.std.specs.List.{Contains};
ghost use Rattle.bound_ways.specs.Over.{IsOver, AreOver, IsRuleOver, AreRulesOver};

use crate::place::place;
use index_props::rule::RuleInst;
use loop_core::nest::Atom;
use uf_constraints::system::Diff;

fn lists(atoms: &[Atom], atom: &Atom) -> bool
    ensures yes { result ≡ true → Contains atoms.now atom.now }
    ensures no { result ≡ false → Contains atoms.now atom.now → ⊥ }
{
    place(atoms, atom) < atoms.len()
}

fn is_small(c: i64) -> bool
    ensures yes { result ≡ true → unsigned_abs c ≤ 2 ^ 23 }
    ensures no { result ≡ false → unsigned_abs c ≤ 2 ^ 23 → ⊥ }
{
    -8_388_608 <= c && c <= 8_388_608
}

fn is_over(atoms: &[Atom], diff: &Diff) -> bool
    ensures yes { result ≡ true → IsOver atoms.now diff.now }
    ensures no { result ≡ false → IsOver atoms.now diff.now → ⊥ }
{
    if !lists(atoms, &diff.a) {
        return false;
    }
    if !lists(atoms, &diff.b) {
        return false;
    }
    is_small(diff.c)
}

/// Whether each constraint is over the atoms, with a right side from -2^23 to 2^23. It takes no
/// memory.
pub fn are_over(atoms: &[Atom], diffs: &[Diff]) -> bool
    ensures yes { result ≡ true → AreOver atoms.now diffs.now }
    ensures no { result ≡ false → AreOver atoms.now diffs.now → ⊥ }
{
    for diff in diffs {
        if !is_over(atoms, diff) {
            return false;
        }
    }
    true
}

fn is_rule_over(atoms: &[Atom], rule: &RuleInst) -> bool
    ensures yes { result ≡ true → IsRuleOver atoms.now rule.now }
    ensures no { result ≡ false → IsRuleOver atoms.now rule.now → ⊥ }
{
    are_over(atoms, rule.premises.as_slice()) && are_over(atoms, rule.results.as_slice())
}

/// Whether the premises and results of each instance are over the atoms, with right sides from
/// -2^23 to 2^23. It takes no memory.
pub fn are_rules_over(atoms: &[Atom], rules: &[RuleInst]) -> bool
    ensures yes { result ≡ true → AreRulesOver atoms.now rules.now }
    ensures no { result ≡ false → AreRulesOver atoms.now rules.now → ⊥ }
{
    for rule in rules {
        if !is_rule_over(atoms, rule) {
            return false;
        }
    }
    true
}
