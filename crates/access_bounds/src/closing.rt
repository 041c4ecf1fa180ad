// Whether a claim follows from its base.
ghost use Rattle.std.specs.Prelude.{◌≡◌, ◌↔◌, ◌≤ℤ◌, ◌-ℤ◌, pos, IsTrue, List, IfOk, MatchOption};
ghost use Rattle.loop_core.specs.declared.decl.Decl.{Decl};
ghost use Rattle.loop_core.specs.declared.decl.PropDecl.{PropDecl};
ghost use Rattle.uf_constraints.specs.declared.system.Diff.{Diff};
ghost use Rattle.index_props.specs.declared.rule.RuleInst.{RuleInst};
ghost use Rattle.index_props.specs.Derivable.{Derivable, IsContradictory};
ghost use Rattle.index_props.specs.Sound.{AllNameIndexes};
ghost use Rattle.index_props.specs.Within.{AllBoundsWithin};
ghost use Rattle.bound_close.specs.Closure.{IsClosure};
ghost use Rattle.access_bounds.specs.Accepted.{IsBounded, Lacks};
ghost use Rattle.bracket_claims.specs.Claims.{atoms_of, rules_of, low, high};
ghost use Rattle.bracket_claims.specs.Small.{IsSmallClaim};

use crate::refusal::Side2;
use bound_close::closure::{Closure, close};
use bound_close::laws::instances_can_be_closed;
use bracket_claims::claim::Claim;
use index_props::instances::instances;
use loop_core::decl::{Decl, PropDecl};
use loop_core::nest::Atom;
use std::alloc::Global;
use uf_constraints::system::Universe;
use wave_base::types::Memory;

/// The closure of a claim's base by the instances at its universe.
pub fn closure_of(
    alloc: Global,
    decls: &[Decl],
    props: &[PropDecl],
    claim: &Claim,
    u: &Universe,
) -> Result<Closure, Memory>
    requires names { AllNameIndexes decls.now props.now }
    requires bounds { AllBoundsWithin props.now }
    requires small { IsSmallClaim claim.now }
    requires atoms { u.now.atoms ≡ atoms_of props.now claim.now }
    ensures atoms { IfOk result (λ k. k.atoms ≡ atoms_of props.now claim.now) }
    ensures closure { IfOk result (λ k. IsClosure k claim.now.base (rules_of decls.now props.now claim.now)) }
{
    instances_can_be_closed();
    let rules = instances(alloc, u, decls, props)?;
    close(alloc, u, claim.base.as_slice(), rules.as_slice())
}

/// The first side on which a claim isn't bounded, by the closure of its base. It takes no memory.
pub fn unbounded_side(closure: &Closure, claim: &Claim) -> Option<Side2>
    ensures { (decls : List Decl) (props : List PropDecl) → closure.now.atoms ≡ atoms_of props claim.now
        → IsClosure closure.now claim.now.base (rules_of decls props claim.now)
        → MatchOption result (IsBounded decls props claim.now) (Lacks decls props claim.now) }
{
    if closure.empty() {
        return None;
    }
    if !shows_low(closure, claim) {
        return Some(Side2::Low);
    }
    if !shows_high(closure, claim) {
        return Some(Side2::High);
    }
    None
}

fn shows_low(closure: &Closure, claim: &Claim) -> bool
    ensures { (base : List Diff) (rules : List RuleInst) → IsClosure closure.now base rules
        → (IsContradictory closure.now.atoms base rules → ⊥)
        → IsTrue result ↔ Derivable closure.now.atoms base rules (low claim.now).a (low claim.now).b (low claim.now).c }
{
    shows(
        closure,
        &Atom::Zero,
        &claim.at.atom,
        i128::from(claim.at.plus),
    )
}

fn shows_high(closure: &Closure, claim: &Claim) -> bool
    ensures { (base : List Diff) (rules : List RuleInst) → IsClosure closure.now base rules
        → (IsContradictory closure.now.atoms base rules → ⊥)
        → IsTrue result ↔ Derivable closure.now.atoms base rules (high claim.now).a (high claim.now).b (high claim.now).c }
{
    let room = room(claim.at.plus, claim.extent.plus);
    shows(closure, &claim.at.atom, &claim.extent.atom, room)
}

// The right side of `s < t` for the constants of two terms.
fn room(s: i64, t: i64) -> i128
    ensures { result ≡ t -ℤ s -ℤ pos 1 }
{
    i128::from(t) - i128::from(s) - 1
}

// Whether `a - b <= c` follows.
fn shows(closure: &Closure, a: &Atom, b: &Atom, c: i128) -> bool
    ensures { (base : List Diff) (rules : List RuleInst) → IsClosure closure.now base rules
        → (IsContradictory closure.now.atoms base rules → ⊥)
        → IsTrue result ↔ Derivable closure.now.atoms base rules a.now b.now c }
{
    match closure.bound(a, b) {
        Some(bound) => is_at_most(bound, c),
        None => false,
    }
}

fn is_at_most(bound: i64, c: i128) -> bool
    ensures { IsTrue result ↔ (bound ≤ℤ c) }
{
    i128::from(bound) <= c
}
