// Systems over 0, n, nnz and three variables.
ghost use Rattle.std.specs.Prelude.{◌<◌};

use index_props::rule::RuleInst;
use loop_core::nest::{Atom, Side, Term};
use rule_samples::atoms::{plain, variable};
use rule_samples::listing::Listing;
use rule_samples::made::Dice;
use sqlite_items::Items;
use std::alloc::Global;
use std::test::Fail;
use uf_constraints::small::are_terms_small;
use uf_constraints::system::{Diff, Universe};
use uf_constraints::universe::universe;
use wave_base::types::Memory;

/// The atom at a place.
pub fn atom(place: u16) -> Atom {
    match place {
        0 => Atom::Zero,
        1 => Atom::N,
        2 => Atom::Nnz,
        _ => variable(place, Side::Own),
    }
}

fn variables(alloc: Global) -> Result<Items<Term>, Memory> {
    let mut terms = Items::new(alloc);
    for place in 3..6u16 {
        terms.push(plain(atom(place)))?;
    }
    Ok(terms)
}

// The six atoms.
fn six(alloc: Global) -> Result<Universe, Fail> {
    let terms = variables(alloc)?;
    if !are_terms_small(terms.as_slice()) {
        return Err("a constant is too large".into());
    }
    match universe(alloc, &[], terms.as_slice(), &[]) {
        Ok(u) => Ok(u),
        Err(_) => Err("no universe".into()),
    }
}

fn diff(dice: &mut Dice) -> Diff {
    let a = atom(dice.roll(6) as u16);
    let b = atom(dice.roll(6) as u16);
    let c = i64::from(dice.roll(9)) - 3;
    Diff { a, b, c }
}

fn diffs(alloc: Global, dice: &mut Dice, sides: u32) -> Result<Items<Diff>, Memory>
    requires { 0 < sides }
{
    let mut diffs = Items::new(alloc);
    for _ in 0..dice.roll(sides) {
        diffs.push(diff(dice))?;
    }
    Ok(diffs)
}

fn instance(alloc: Global, dice: &mut Dice) -> Result<RuleInst, Memory> {
    let premises = diffs(alloc, dice, 4)?;
    let results = diffs(alloc, dice, 3)?;
    Ok(RuleInst { premises, results })
}

fn instances(alloc: Global, dice: &mut Dice) -> Result<Items<RuleInst>, Memory> {
    let mut rules = Items::new(alloc);
    for _ in 0..dice.roll(6) {
        rules.push(instance(alloc, dice)?)?;
    }
    Ok(rules)
}

/// The system of a number.
pub fn made(alloc: Global, counter: u32) -> Result<Listing, Fail> {
    let mut dice = Dice::of(counter);
    let base = diffs(alloc, &mut dice, 9)?;
    let rules = instances(alloc, &mut dice)?;
    let universe = six(alloc)?;
    Ok(Listing {
        base,
        universe,
        rules,
    })
}

// Each atom is 2^23 above the next one.
fn steps(alloc: Global) -> Result<Items<Diff>, Memory> {
    let mut base = Items::new(alloc);
    for place in 0..5u16 {
        base.push(Diff {
            a: atom(place),
            b: atom(place + 1),
            c: 8_388_608,
        })?;
        base.push(Diff {
            a: atom(place + 1),
            b: atom(place),
            c: -8_388_608,
        })?;
    }
    Ok(base)
}

/// Six atoms, each 2^23 above the next one, without instances.
pub fn stairs(alloc: Global) -> Result<Listing, Fail> {
    let base = steps(alloc)?;
    let universe = six(alloc)?;
    Ok(Listing {
        base,
        universe,
        rules: Items::new(alloc),
    })
}
