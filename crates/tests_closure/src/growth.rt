// Closures that grow by one constraint after another.
ghost use Rattle.std.specs.Prelude.{◌≡◌, OnOk};
ghost use Rattle.bound_close.specs.Over.{AreOver, AreRulesOver};
ghost use Rattle.bound_close.specs.Closure.{IsClosureOf};

use crate::closure::six::{atom, made};
use bound_close::closure::{Closure, close};
use bound_close::over::{are_over, are_rules_over};
use cert_check::check::check;
use index_props::certificate::Cert;
use index_props::rule::RuleInst;
use rule_samples::forward::relation;
use rule_samples::listing::list;
use std::alloc::Global;
use std::test::Fail;
use uf_constraints::system::{Diff, Universe};
use wave_base::types::Memory;

// Puts the constraint with that number, if there is one, at the end of a closure's base.
fn add_at(
    alloc: Global,
    closure: &mut Closure,
    u: &Universe,
    rules: &[RuleInst],
    base: &[Diff],
    at: usize,
) -> Result<(), Memory>
    requires base { AreOver u.now.atoms base.now }
    requires rules { AreRulesOver u.now.atoms rules.now }
    requires atoms { closure.old.atoms ≡ u.now.atoms }
    requires closure { IsClosureOf closure.old rules.now }
    ensures atoms { OnOk result (closure.new.atoms ≡ u.now.atoms) }
    ensures closure { OnOk result (IsClosureOf closure.new rules.now) }
{
    if at >= base.len() {
        return Ok(());
    }
    closure.add(alloc, u, rules, &base[at])
}

// Puts those from one number to another at the end.
fn add_forth(
    alloc: Global,
    closure: &mut Closure,
    u: &Universe,
    rules: &[RuleInst],
    base: &[Diff],
    from: usize,
    to: usize,
) -> Result<(), Memory>
    requires base { AreOver u.now.atoms base.now }
    requires rules { AreRulesOver u.now.atoms rules.now }
    requires atoms { closure.old.atoms ≡ u.now.atoms }
    requires closure { IsClosureOf closure.old rules.now }
    ensures atoms { OnOk result (closure.new.atoms ≡ u.now.atoms) }
    ensures closure { OnOk result (IsClosureOf closure.new rules.now) }
{
    for at in from..to {
        add_at(alloc, closure, u, rules, base, at)?;
    }
    Ok(())
}

// Puts so many at the end, the last of them first.
fn add_back(
    alloc: Global,
    closure: &mut Closure,
    u: &Universe,
    rules: &[RuleInst],
    base: &[Diff],
    many: usize,
) -> Result<(), Memory>
    requires base { AreOver u.now.atoms base.now }
    requires rules { AreRulesOver u.now.atoms rules.now }
    requires atoms { closure.old.atoms ≡ u.now.atoms }
    requires closure { IsClosureOf closure.old rules.now }
    ensures atoms { OnOk result (closure.new.atoms ≡ u.now.atoms) }
    ensures closure { OnOk result (IsClosureOf closure.new rules.now) }
{
    for after in 0..many {
        let at = many.wrapping_sub(after).wrapping_sub(1);
        add_at(alloc, closure, u, rules, base, at)?;
    }
    Ok(())
}

// The closure of a base of which the constraints were added one after another: those from a number on
// first, and then the others, the last of them first.
fn grown(
    alloc: Global,
    u: &Universe,
    rules: &[RuleInst],
    base: &[Diff],
    from: usize,
) -> Result<Closure, Memory>
    requires base { AreOver u.now.atoms base.now }
    requires rules { AreRulesOver u.now.atoms rules.now }
{
    let mut closure = close(alloc, u, &[], rules)?;
    add_forth(alloc, &mut closure, u, rules, base, from, base.len())?;
    add_back(alloc, &mut closure, u, rules, base, from)?;
    Ok(closure)
}

// Whether two closures answer alike.
fn are_alike(one: &Closure, two: &Closure) -> bool {
    if one.empty() || two.empty() {
        return one.empty() == two.empty();
    }
    for at in 0..36u16 {
        let (a, b) = (atom(at / 6), atom(at % 6));
        if one.bound(&a, &b) != two.bound(&a, &b) {
            return false;
        }
    }
    true
}

// Whether a closure answers like the one that grew from a place of the base on.
fn grows_alike(
    alloc: Global,
    whole: &Closure,
    u: &Universe,
    rules: &[RuleInst],
    base: &[Diff],
    from: usize,
) -> Result<bool, Memory>
    requires base { AreOver u.now.atoms base.now }
    requires rules { AreRulesOver u.now.atoms rules.now }
{
    let other = grown(alloc, u, rules, base, from)?;
    Ok(are_alike(whole, &other))
}

// Whether the closure of a base is the one that grew, whichever constraint comes when.
fn alike_in_any_order(
    alloc: Global,
    u: &Universe,
    rules: &[RuleInst],
    base: &[Diff],
) -> Result<bool, Memory>
    requires base { AreOver u.now.atoms base.now }
    requires rules { AreRulesOver u.now.atoms rules.now }
{
    let whole = close(alloc, u, base, rules)?;
    let forth = grows_alike(alloc, &whole, u, rules, base, 0)?;
    let back = grows_alike(alloc, &whole, u, rules, base, base.len())?;
    let mixed = grows_alike(alloc, &whole, u, rules, base, base.len() / 2)?;
    Ok(forth && back && mixed)
}

fn agrees(alloc: Global, counter: u32) -> Result<bool, Fail> {
    let listing = made(alloc, counter)?;
    let atoms = listing.universe.atoms.as_slice();
    let base = listing.base.as_slice();
    let rules = listing.rules.as_slice();
    if !are_over(atoms, base) {
        return Err("a constraint isn't over the universe".into());
    }
    if !are_rules_over(atoms, rules) {
        return Err("an instance isn't over the universe".into());
    }
    Ok(alike_in_any_order(alloc, &listing.universe, rules, base)?)
}

#[test]
fn growing_in_any_order_agrees(rt: HostRuntime) -> Result<(), Fail> {
    for counter in 0..100u32 {
        assert!(rt; agrees(rt.alloc(), counter)?);
    }
    Ok(())
}

// A refutation once the last two constraints were added, and not before.
fn refuted_at_last(
    alloc: Global,
    u: &Universe,
    rules: &[RuleInst],
    base: &[Diff],
) -> Result<Option<Cert>, Memory>
    requires base { AreOver u.now.atoms base.now }
    requires rules { AreRulesOver u.now.atoms rules.now }
{
    let few = base.len().saturating_sub(2);
    let mut closure = close(alloc, u, &[], rules)?;
    add_forth(alloc, &mut closure, u, rules, base, 0, few)?;
    if closure.empty() {
        return Ok(None);
    }
    add_forth(alloc, &mut closure, u, rules, base, few, base.len())?;
    closure.refutation(alloc)
}

// Whether that refutation passes the check, of a write of x[i] and a read of x[i] in a later row: the
// last two constraints say that the two cells are the same.
fn equal_cells_are_refuted(alloc: Global) -> Result<bool, Fail> {
    let Some(listing) = list(alloc, relation(alloc, true)?) else {
        return Err("no listing".into());
    };
    let atoms = listing.universe.atoms.as_slice();
    let base = listing.base.as_slice();
    let rules = listing.rules.as_slice();
    if !are_over(atoms, base) {
        return Err("a constraint isn't over the universe".into());
    }
    if !are_rules_over(atoms, rules) {
        return Err("an instance isn't over the universe".into());
    }
    let Some(cert) = refuted_at_last(alloc, &listing.universe, rules, base)? else {
        return Ok(false);
    };
    Ok(check(alloc, &listing.universe, base, rules, &cert).is_ok())
}

#[test]
fn equality_of_cells_refutes_at_last(rt: HostRuntime) -> Result<(), Fail> {
    assert!(rt; equal_cells_are_refuted(rt.alloc())?);
    Ok(())
}
