//! Closes systems of two chains of loops over compressed rows, a plain one and a contradictory one,
//! and checks a certificate of each. The words are LEVELS, and after it TURNS, with which it also
//! prints the least time that a closure and its certificate took in so many turns.
#![tactic(auto)]

ghost use Rattle.bound_close.specs.Over.{AreOver, AreRulesOver};

use bound_close::closure::{Closure, close};
use bound_close::over::{are_over, are_rules_over};
use cert_check::check::check;
use index_props::certificate::Cert;
use loop_core::nest::Atom;
use rule_samples::chains::two_chains;
use rule_samples::listing::{Listing, list};
use std::alloc::Global;
use std::time::Instant;
use std::{env, io};

/// A closure and a certificate of it.
#[derive(Drop)]
struct Closed {
    closure: Closure,
    cert: Cert,
}

/// A refutation, or a proof of the bound between the first atom and the last.
fn certificate(alloc: Global, closure: &Closure) -> Option<Cert> {
    if closure.empty() {
        return closure.refutation(alloc).ok()?;
    }
    let atoms = closure.universe().atoms.as_slice();
    let first = atoms.get(0)?;
    let last = atoms.get(atoms.len().saturating_sub(1))?;
    let bound = closure.bound(first, last)?;
    closure.proof(alloc, first, last, bound).ok()?
}

fn certified(alloc: Global, listing: &Listing) -> Option<Closed>
    requires base { AreOver listing.now.universe.atoms listing.now.base }
    requires rules { AreRulesOver listing.now.universe.atoms listing.now.rules }
{
    let (base, rules) = (listing.base.as_slice(), listing.rules.as_slice());
    let closure = close(alloc, &listing.universe, base, rules).ok()?;
    let cert = certificate(alloc, &closure)?;
    Some(Closed { closure, cert })
}

fn passes(alloc: Global, listing: &Listing, cert: &Cert) -> bool {
    let (base, rules) = (listing.base.as_slice(), listing.rules.as_slice());
    check(alloc, &listing.universe, base, rules, cert).is_ok()
}

fn bounds_known(closure: &Closure) -> usize {
    let atoms = closure.universe().atoms.as_slice();
    let mut many = 0usize;
    for a in atoms {
        many = many.saturating_add(bounds_from(closure, a));
    }
    many
}

fn bounds_from(closure: &Closure, a: &Atom) -> usize {
    let mut many = 0usize;
    for b in closure.universe().atoms.as_slice() {
        if closure.bound(a, b).is_some() {
            many = many.saturating_add(1);
        }
    }
    many
}

fn show(rt: &HostRuntime, listing: &Listing) -> io::Result<()>
    requires base { AreOver listing.now.universe.atoms listing.now.base }
    requires rules { AreRulesOver listing.now.universe.atoms listing.now.rules }
{
    println!(rt;
        "atoms {} constraints {} instances {}",
        listing.universe.atoms.len(),
        listing.base.len(),
        listing.rules.len()
    )?;
    let Some(closed) = certified(rt.alloc(), listing) else {
        return println!(rt; "no certificate");
    };
    println!(rt;
        "empty {} bounds {} certificate passes {}",
        closed.closure.empty(),
        bounds_known(&closed.closure),
        passes(rt.alloc(), listing, &closed.cert)
    )
}

/// The least number of nanoseconds that a closure and its certificate took.
fn time(rt: &HostRuntime, listing: &Listing, turns: u32) -> io::Result<()>
    requires base { AreOver listing.now.universe.atoms listing.now.base }
    requires rules { AreRulesOver listing.now.universe.atoms listing.now.rules }
{
    let mut least = u128::MAX;
    let mut steps = 0usize;
    for _ in 0..turns {
        let start = Instant::now(rt)?;
        let Some(closed) = certified(rt.alloc(), listing) else {
            return Ok(());
        };
        least = least.min(start.elapsed(rt)?.as_nanos());
        steps = closed.cert.steps.len();
    }
    println!(rt; "steps {} microseconds {}", steps, least / 1000)
}

fn serve(rt: &HostRuntime, levels: u16, contradictory: bool, turns: u32) -> io::Result<()> {
    let Ok(system) = two_chains(rt.alloc(), levels, contradictory) else {
        return Ok(());
    };
    let Some(listing) = list(rt.alloc(), system) else {
        return println!(rt; "no system of {levels} levels");
    };
    let atoms = listing.universe.atoms.as_slice();
    if !are_over(atoms, listing.base.as_slice()) {
        return println!(rt; "a constraint isn't over the atoms");
    }
    if !are_rules_over(atoms, listing.rules.as_slice()) {
        return println!(rt; "an instance isn't over the atoms");
    }
    report(rt, &listing, turns)
}

fn report(rt: &HostRuntime, listing: &Listing, turns: u32) -> io::Result<()>
    requires base { AreOver listing.now.universe.atoms listing.now.base }
    requires rules { AreRulesOver listing.now.universe.atoms listing.now.rules }
{
    show(rt, listing)?;
    if turns == 0 {
        return Ok(());
    }
    time(rt, listing, turns)
}

fn number(word: Option<&String>) -> Option<u32> {
    word?.as_str().parse::<u32>().ok()
}

fn levels(word: Option<&String>) -> u16 {
    match word {
        Some(word) => word.as_str().parse::<u16>().unwrap_or(3),
        None => 3,
    }
}

fn main(rt: HostRuntime) -> io::Result<()> {
    let words: Vec<String> = env::args(&rt)?.skip(1).collect(rt.alloc())?;
    let levels = levels(words.first());
    let turns = number(words.get(1)).unwrap_or(0);
    serve(&rt, levels, false, turns)?;
    serve(&rt, levels, true, turns)
}
