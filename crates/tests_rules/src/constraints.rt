// How many atoms a universe may have, that both ways to it agree, and where a constraint is just true.
// What a universe lists is compared by crates/bench_rules.
ghost use Rattle.std.specs.Prelude.{◌≡◌};
ghost use Rattle.uf_constraints.specs.Bindings.{AreWide};

use loop_core::arrays::Arrays;
use loop_core::nest::Atom;
use rule_samples::atoms::entry;
use rule_samples::made::make_system;
use rule_samples::many::many_entries;
use rule_samples::system::{COL, PTR, System};
use std::alloc::Global;
use std::marker::Brand;
use std::sync::ledger::{Blank, Ledger};
use std::test::Fail;
use uf_constraints::env::Env;
use uf_constraints::plain::universe_by_search;
use uf_constraints::same::same_atom;
use uf_constraints::small::{are_diffs_small, are_terms_small};
use uf_constraints::system::{Diff, Universe};
use uf_constraints::truth::holds;
use uf_constraints::universe::{UniverseRefusal, universe};
use wave_base::steps::Steps;
use wave_base::types::Memory;
use wave_base::words::Words;

fn same_atoms(a: &[Atom], b: &[Atom]) -> bool {
    a.len() == b.len() && a.iter().zip(b).all(|(x, y)| same_atom(x, y))
}

// How many atoms both ways list, or how both refuse.
fn agreed(alloc: Global, system: &System) -> Result<Result<usize, UniverseRefusal>, Fail> {
    let base = system.base.as_slice();
    let terms = system.terms.as_slice();
    let props = system.props.as_slice();
    if !are_diffs_small(base) {
        return Err("a constant is too large".into());
    }
    if !are_terms_small(terms) {
        return Err("a constant is too large".into());
    }
    let quick = universe(alloc, base, terms, props);
    compared(quick, universe_by_search(alloc, base, terms, props))
}

fn compared(
    quick: Result<Universe, UniverseRefusal>,
    plain: Result<Universe, UniverseRefusal>,
) -> Result<Result<usize, UniverseRefusal>, Fail> {
    match (quick, plain) {
        (Ok(u), Ok(v)) => one_count(&u, &v),
        (Err(r), Err(s)) => one_refusal(r, s),
        _ => Err("one way refuses".into()),
    }
}

fn one_count(u: &Universe, v: &Universe) -> Result<Result<usize, UniverseRefusal>, Fail> {
    if !same_atoms(u.atoms.as_slice(), v.atoms.as_slice()) {
        return Err("the two ways list other atoms".into());
    }
    Ok(Ok(u.atoms.len()))
}

fn one_refusal(
    r: UniverseRefusal,
    s: UniverseRefusal,
) -> Result<Result<usize, UniverseRefusal>, Fail> {
    if r != s {
        return Err("the two ways refuse otherwise".into());
    }
    Ok(Err(r))
}

// 0, n, nnz and i stand beside the entries
#[test]
fn full_above_96_atoms(rt: HostRuntime) -> Result<(), Fail> {
    let alloc = rt.alloc();
    let full = |count| Err(UniverseRefusal::TermsFull { count });
    let cases = [
        (0, Ok(3)),
        (1, Ok(5)),
        (92, Ok(96)),
        (93, full(97)),
        (200, full(204)),
    ];
    for (entries, wanted) in cases {
        assert_eq!(rt; agreed(alloc, &many_entries(alloc, entries)?)?, wanted);
    }
    Ok(())
}

#[test]
fn both_ways_list_the_same_atoms(rt: HostRuntime) -> Result<(), Fail> {
    let mut atoms: usize = 0;
    for counter in 0..240 {
        let system = make_system(rt.alloc(), counter)?;
        atoms = atoms.wrapping_add(agreed(rt.alloc(), &system)?.unwrap_or(0));
    }
    // the number that tests/rules.py counts for these systems
    assert_eq!(rt; atoms, 4730);
    Ok(())
}

// n = 3, a.ptr = [5, 1, 7, 9] and a.col = [4, 6, 2]
fn arrays(alloc: Global) -> Result<Arrays, Memory> {
    let mut lists = Vec::new(alloc);
    lists.push(Words::from_vec(Vec::from_slice(alloc, &[5, 1, 7, 9])?))?;
    lists.push(Words::from_vec(Vec::from_slice(alloc, &[4, 6, 2])?))?;
    Ok(Arrays::of(3, 4, lists))
}

// a.ptr[1], which is 1
fn first(alloc: Global) -> Result<Atom, Memory> {
    entry(alloc, PTR, Atom::Zero, 1)
}

// a.col[a.ptr[1] + 1], which is 2
fn second(alloc: Global) -> Result<Atom, Memory> {
    entry(alloc, COL, first(alloc)?, 1)
}

// a.ptr[a.col[a.ptr[1] + 1] + 1], which is 9
fn third(alloc: Global) -> Result<Atom, Memory> {
    entry(alloc, PTR, second(alloc)?, 1)
}

// Constraints with the least right sides with which they are true, or so much below them.
fn just_true(alloc: Global, below: i64) -> Result<System, Memory> {
    let mut system = System::new(alloc)?;
    system.push(Atom::Zero, Atom::N, (-3i64).saturating_sub(below))?;
    system.push(first(alloc)?, Atom::Zero, 1i64.saturating_sub(below))?;
    system.push(Atom::Zero, third(alloc)?, (-9i64).saturating_sub(below))?;
    system.push(first(alloc)?, first(alloc)?, 0i64.saturating_sub(below))?;
    system.push(second(alloc)?, first(alloc)?, 1i64.saturating_sub(below))?;
    Ok(system)
}

fn how_many_hold<L: Ledger>(
    diffs: &[Diff],
    env: &Env,
    arrays: &Arrays,
    steps: &mut Steps<L>,
) -> usize
    requires { AreWide env.now }
{
    let mut many: usize = 0;
    for diff in diffs {
        if holds(diff, env, arrays, steps) {
            many = many.wrapping_add(1);
        }
    }
    many
}

fn true_below<L: Ledger>(alloc: Global, below: i64, blank: Blank) -> Result<usize, Fail>
    requires name { blank.name ≡ L.name }
    requires parts { blank.parts ≡ L.parts }
    requires one { blank.parts ≡ 1 }
{
    let arrays = arrays(alloc)?;
    let env = Env::of(Vec::new(alloc));
    let system = just_true(alloc, below)?;
    let mut steps = Steps::<L>::open(blank);
    Ok(how_many_hold(system.base.as_slice(), &env, &arrays, &mut steps))
}

fn how_many_are_true(alloc: Global, below: i64) -> Result<usize, Fail> {
    true_below::<Brand>(alloc, below, Blank::new(1))
}

#[test]
fn truths_are_sharp(rt: HostRuntime) -> Result<(), Fail> {
    assert_eq!(rt; how_many_are_true(rt.alloc(), 0)?, 5);
    assert_eq!(rt; how_many_are_true(rt.alloc(), 1)?, 0);
    Ok(())
}
