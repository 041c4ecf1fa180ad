// Closures of made systems against the plain body and a flat listing, and of systems by hand.
mod flat;
pub mod six;

use crate::closure::flat::{bound, is_contradictory, least};
use crate::closure::six::{atom, made, stairs};
use bound_close::closure::{Closure, close};
use bound_close::order::{same_answers, same_in_any_order};
use bound_close::over::{are_over, are_rules_over};
use bound_close::plain;
use bound_close::plain::Plain;
use cert_check::check::check;
use index_props::certificate::Cert;
use loop_core::nest::Atom;
use rule_samples::forward::{bracket, column, relation};
use rule_samples::listing::{Listing, list};
use rule_samples::system::System;
use std::alloc::Global;
use std::test::Fail;

/// The closures of one system by both bodies.
#[derive(Drop)]
struct Both {
    quick: Closure,
    plain: Plain,
}

fn closed(alloc: Global, listing: &Listing) -> Result<Both, Fail> {
    let atoms = listing.universe.atoms.as_slice();
    let base = listing.base.as_slice();
    let rules = listing.rules.as_slice();
    if !are_over(atoms, base) {
        return Err("a constraint isn't over the universe".into());
    }
    if !are_rules_over(atoms, rules) {
        return Err("an instance isn't over the universe".into());
    }
    let quick = close(alloc, &listing.universe, base, rules)?;
    let plain = plain::close(alloc, &listing.universe, base, rules)?;
    Ok(Both { quick, plain })
}

fn listed(alloc: Global, system: System) -> Result<Listing, Fail> {
    match list(alloc, system) {
        Some(listing) => Ok(listing),
        None => Err("no listing".into()),
    }
}

impl Both {
    // Whether both have the bound between two atoms that is wanted.
    fn has(&self, a: &Atom, b: &Atom, want: Option<i64>) -> bool {
        self.quick.bound(a, b) == want && self.plain.bound(a, b) == want
    }

    // Whether both are empty, or neither is.
    fn is_empty(&self, want: bool) -> bool {
        self.quick.empty() == want && self.plain.empty() == want
    }

    // Whether both have the bounds of a flat listing.
    fn has_all(&self, bounds: &[i64]) -> bool {
        for at in 0..36u16 {
            let (x, y) = (at / 6, at % 6);
            let want = bound(bounds, usize::from(x), usize::from(y));
            if !self.has(&atom(x), &atom(y), want) {
                return false;
            }
        }
        true
    }

    // Whether both answer as a flat listing does.
    fn agrees(&self, bounds: &[i64]) -> bool {
        if is_contradictory(bounds) {
            return self.is_empty(true);
        }
        self.is_empty(false) && self.has_all(bounds)
    }
}

// Whether the system of a number is contradictory, if all its closures answer alike.
fn agreed(alloc: Global, counter: u32) -> Result<bool, Fail> {
    let listing = made(alloc, counter)?;
    let both = closed(alloc, &listing)?;
    let bounds = least(alloc, listing.base.as_slice(), listing.rules.as_slice())?;
    if !both.agrees(&bounds) {
        return Err("the closures and the listing differ".into());
    }
    Ok(both.quick.empty())
}

#[test]
fn both_bodies_have_the_listed_bounds(rt: HostRuntime) -> Result<(), Fail> {
    let mut contradictory = 0u32;
    for counter in 0..300u32 {
        if agreed(rt.alloc(), counter)? {
            contradictory = contradictory.wrapping_add(1);
        }
    }
    assert!(rt; contradictory > 50 && contradictory < 250);
    Ok(())
}

#[test]
fn large_constants_add_up(rt: HostRuntime) -> Result<(), Fail> {
    let both = closed(rt.alloc(), &stairs(rt.alloc())?)?;
    assert!(rt; both.is_empty(false));
    assert!(rt; both.has(&atom(0), &atom(5), Some(41_943_040)));
    assert!(rt; both.has(&atom(5), &atom(0), Some(-41_943_040)));
    assert!(rt; both.has(&atom(0), &atom(9), None));
    Ok(())
}

// The laws say that the order of a base and the body don't matter; they hold of all closures.
#[test]
fn laws_do_nothing(rt: HostRuntime) -> Result<(), Fail> {
    let both = closed(rt.alloc(), &stairs(rt.alloc())?)?;
    same_in_any_order(&both.quick, &both.quick);
    same_answers(&both.quick, &both.plain);
    assert!(rt; both.quick.universe().atoms.len() == 6);
    Ok(())
}

fn passes(alloc: Global, listing: &Listing, cert: &Cert) -> bool {
    let (base, rules) = (listing.base.as_slice(), listing.rules.as_slice());
    check(alloc, &listing.universe, base, rules, cert).is_ok()
}

// A write of x[i] against a read of x[i] in a later row, with or without equal cells.
fn related(alloc: Global, same_cell: bool) -> Result<Listing, Fail> {
    listed(alloc, relation(alloc, same_cell)?)
}

#[test]
fn cells_of_two_rows_differ(rt: HostRuntime) -> Result<(), Fail> {
    let both = closed(rt.alloc(), &related(rt.alloc(), false)?)?;
    assert!(rt; both.is_empty(false));
    assert!(rt; both.quick.refutation(rt.alloc())?.is_none());
    Ok(())
}

#[test]
fn equal_cells_of_two_rows_are_refuted(rt: HostRuntime) -> Result<(), Fail> {
    let listing = related(rt.alloc(), true)?;
    let both = closed(rt.alloc(), &listing)?;
    assert!(rt; both.is_empty(true));
    let Some(cert) = both.quick.refutation(rt.alloc())? else {
        return Err("no refutation".into());
    };
    assert!(rt; passes(rt.alloc(), &listing, &cert));
    Ok(())
}

// Without the range of a.col the column of an entry left of the diagonal is below n, by the diagonal's
// place and the order of a row's columns, but isn't known to be at least 0.
#[test]
fn columns_are_bounded_above(rt: HostRuntime) -> Result<(), Fail> {
    let column = column(rt.alloc())?;
    let both = closed(rt.alloc(), &listed(rt.alloc(), bracket(rt.alloc())?)?)?;
    assert!(rt; both.is_empty(false));
    assert!(rt; both.has(&column, &Atom::N, Some(-2)));
    assert!(rt; both.has(&Atom::Zero, &column, None));
    Ok(())
}

#[test]
fn bounds_have_proofs_that_pass(rt: HostRuntime) -> Result<(), Fail> {
    let column = column(rt.alloc())?;
    let listing = listed(rt.alloc(), bracket(rt.alloc())?)?;
    let both = closed(rt.alloc(), &listing)?;
    assert!(rt;
        both.quick
            .proof(rt.alloc(), &column, &Atom::N, -3)?
            .is_none()
    );
    let Some(cert) = both.quick.proof(rt.alloc(), &column, &Atom::N, -1)? else {
        return Err("no proof".into());
    };
    assert!(rt; passes(rt.alloc(), &listing, &cert));
    Ok(())
}
