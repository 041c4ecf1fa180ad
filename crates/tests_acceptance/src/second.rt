// A second body of acceptance: the plain closure, each bracket by itself, all declared properties.
ghost use Rattle.std.specs.Prelude.{◌^◌, ◌+◌, IfOk, IfSome};
ghost use Rattle.uf_constraints.specs.Constants.{IndexesWithin};

use crate::loops::{COLUMNS, FORWARD, ILU, SCATTER, SEIDEL, SOLVE};
use crate::texts::{refused, without};
use access_bounds::refusal::{BoundsRefusal, Side2};
use bound_close::over::{are_over, are_rules_over};
use bound_close::plain::{Plain, close};
use dep_extract::bases::{bracket_base, on};
use dep_extract::extract::relations;
use dep_extract::walk::spots;
use index_props::instances::instances;
use index_props::rule::RuleInst;
use index_props::small::are_bounds_small;
use loop_core::decl::{Decl, PropDecl, Size, size_of};
use loop_core::nest::{Atom, Nest, Side, Term};
use loop_syntax::read::read;
use sqlite_items::Items;
use std::alloc::Global;
use std::slice::from_ref;
use std::test::Fail;
use uf_constraints::reach::{Bracket, Spot};
use uf_constraints::small::{are_diffs_small, are_terms_small};
use uf_constraints::system::{Diff, Universe};
use uf_constraints::universe::{UniverseRefusal, universe};
use wave_base::types::ArrayId;

// The universe, and none where it has more than 96 atoms.
fn few_atoms(
    alloc: Global,
    base: &[Diff],
    extra: &[Term],
    props: &[PropDecl],
) -> Result<Option<Universe>, Fail>
    ensures { IfOk result (λ found. IfSome found (λ u. IndexesWithin (2 ^ 21 + 1) u.atoms)) }
{
    if !are_diffs_small(base) || !are_terms_small(extra) {
        return Err("a constant is too large".into());
    }
    match universe(alloc, base, extra, props) {
        Ok(u) => Ok(Some(u)),
        Err(UniverseRefusal::TermsFull { count: _ }) => Ok(None),
        Err(UniverseRefusal::Memory) => Err("memory".into()),
    }
}

fn extent(decls: &[Decl], array: ArrayId) -> Term {
    match size_of(decls, array) {
        Some(Size::N) => term(Atom::N, 0),
        Some(Size::NPlusOne) => term(Atom::N, 1),
        Some(Size::Nnz) => term(Atom::Nnz, 0),
        None => term(Atom::Zero, 0),
    }
}

fn term(atom: Atom, plus: i64) -> Term {
    Term { atom, plus }
}

// Whether `s < t`.
fn is_below(k: &Plain, s: &Term, t: &Term) -> bool {
    match k.bound(&s.atom, &t.atom) {
        Some(c) => i128::from(c) + i128::from(s.plus) < i128::from(t.plus),
        None => false,
    }
}

fn side(k: &Plain, at: &Term, extent: &Term) -> Option<Side2> {
    if k.empty() {
        return None;
    }
    if !is_below(k, &term(Atom::Zero, -1), at) {
        return Some(Side2::Low);
    }
    if !is_below(k, at, extent) {
        return Some(Side2::High);
    }
    None
}

// The closure of a base and of instances over the universe.
fn closed(alloc: Global, u: &Universe, base: &[Diff], rules: &[RuleInst]) -> Result<Plain, Fail> {
    let atoms = u.atoms.as_slice();
    if !are_over(atoms, base) {
        return Err("a constraint is too large".into());
    }
    if !are_rules_over(atoms, rules) {
        return Err("an instance isn't over the universe".into());
    }
    Ok(close(alloc, u, base, rules)?)
}

fn plain_rules(alloc: Global, nest: &Nest, u: &Universe) -> Result<Items<RuleInst>, Fail>
    requires { IndexesWithin (2 ^ 21 + 1) u.now.atoms }
{
    let props = nest.props.as_slice();
    if !are_bounds_small(props) {
        return Err("a bound is too large".into());
    }
    Ok(instances(alloc, u, nest.decls.as_slice(), props)?)
}

fn plain_closure(alloc: Global, nest: &Nest, base: &[Diff], at: &Term) -> Result<Plain, Fail> {
    match few_atoms(alloc, base, from_ref(at), nest.props.as_slice())? {
        Some(u) => {
            let rules = plain_rules(alloc, nest, &u)?;
            closed(alloc, &u, base, rules.as_slice())
        }
        None => Err("too many atoms".into()),
    }
}

fn open_side(
    alloc: Global,
    nest: &Nest,
    spot: &Spot,
    bracket: &Bracket,
) -> Result<Option<Side2>, Fail> {
    let base = bracket_base(alloc, nest, spot)?;
    let at = on(alloc, Side::Own, &bracket.at)?;
    let k = plain_closure(alloc, nest, base.as_slice(), &at)?;
    Ok(side(&k, &at, &extent(nest.decls.as_slice(), bracket.array)))
}

fn open_on(alloc: Global, nest: &Nest, spot: &Spot) -> Result<Option<BoundsRefusal>, Fail> {
    for bracket in spot.brackets.as_slice() {
        if let Some(side) = open_side(alloc, nest, spot, bracket)? {
            return Ok(Some(BoundsRefusal::Unbounded {
                line: u32::from(spot.line),
                bracket: u32::from(bracket.number),
                side,
            }));
        }
    }
    Ok(None)
}

fn first_open(alloc: Global, nest: &Nest, spots: &[Spot]) -> Result<Option<BoundsRefusal>, Fail> {
    for spot in spots {
        if let Some(found) = open_on(alloc, nest, spot)? {
            return Ok(Some(found));
        }
    }
    Ok(None)
}

fn is_full_on(alloc: Global, nest: &Nest, spot: &Spot) -> Result<bool, Fail> {
    let base = bracket_base(alloc, nest, spot)?;
    for bracket in spot.brackets.as_slice() {
        let at = on(alloc, Side::Own, &bracket.at)?;
        let u = few_atoms(alloc, base.as_slice(), from_ref(&at), nest.props.as_slice())?;
        if u.is_none() {
            return Ok(true);
        }
    }
    Ok(false)
}

fn first_full_spot(alloc: Global, nest: &Nest, spots: &[Spot]) -> Result<Option<u32>, Fail> {
    for spot in spots {
        if is_full_on(alloc, nest, spot)? {
            return Ok(Some(u32::from(spot.line)));
        }
    }
    Ok(None)
}

fn first_full_relation(alloc: Global, nest: &Nest) -> Result<Option<u32>, Fail> {
    let found = relations(alloc, nest)?;
    for r in found.as_slice() {
        let u = few_atoms(alloc, r.base.as_slice(), &[], nest.props.as_slice())?;
        if u.is_none() {
            return Ok(Some(u32::from(r.second.line)));
        }
    }
    Ok(None)
}

fn plain_refusal(alloc: Global, nest: &Nest) -> Result<Option<BoundsRefusal>, Fail> {
    let spots = spots(alloc, nest)?;
    if let Some(line) = first_full_spot(alloc, nest, spots.as_slice())? {
        return Ok(Some(BoundsRefusal::TermsFull { line }));
    }
    if let Some(line) = first_full_relation(alloc, nest)? {
        return Ok(Some(BoundsRefusal::TermsFull { line }));
    }
    first_open(alloc, nest, spots.as_slice())
}

fn plainly_refused(alloc: Global, text: &[u8]) -> Result<Option<BoundsRefusal>, Fail> {
    if text.len() > 1_000_000 {
        return Err("the text is too long".into());
    }
    match read(alloc, text) {
        Ok(nest) => plain_refusal(alloc, &nest),
        Err(_) => Err("the text is no nest".into()),
    }
}

fn agree(alloc: Global, text: &[u8]) -> Result<bool, Fail> {
    Ok(refused(alloc, text)? == plainly_refused(alloc, text)?)
}

// Whether both bodies agree on a text without its properties of a set, the first one at this line.
fn agree_without(alloc: Global, text: &[u8], first: u32, set: u32) -> Result<bool, Fail> {
    let mut cut = Vec::from_slice(alloc, text)?;
    for place in 0..5 {
        if (set >> place) & 1 == 1 {
            cut = without(alloc, cut.as_slice(), first.wrapping_add(place))?;
        }
    }
    agree(alloc, cut.as_slice())
}

// On how many of the 32 sets of its five properties they do.
fn agreed(alloc: Global, text: &[u8], first: u32) -> Result<u32, Fail> {
    let mut count: u32 = 0;
    for set in 0..32 {
        if agree_without(alloc, text, first, set)? {
            count = count.wrapping_add(1);
        }
    }
    Ok(count)
}

const SCATTERED: &[u8] =
    b"matrix a csr\nindex q n\nvector x n file\nlocal s\nrange q 0 n\ninjective q\nrange a.ptr 0 nnz+1\nstrict a.ptr\nupto a.col by a.ptr\nloop i\n  for p in a.ptr[q[i]]..a.ptr[q[i]+1]\n    set s = s + a.val[p] * x[a.col[p]]\n  end\n  when 0 < i\n    set x[q[i]] = s + x[q[i-1]]\n  end\nend\n";

const LOCAL: &[u8] =
    b"matrix a csr\nvector x n file\nlocal s\nrange a.ptr 0 nnz+1\nrange a.col 0 n\nrising a.ptr\nsorted a.col by a.ptr\ndiagonal a.diag of a.col by a.ptr\nloop i\n  set s = x[i]\n  for p in a.ptr[i]..a.diag[i]\n    set s = s - a.val[p] * x[a.col[p]]\n  end\n  set x[i] = s / a.val[a.diag[i]]\nend\n";

#[test]
fn both_bodies_agree_on_solves(rt: HostRuntime) -> Result<(), Fail> {
    assert_eq!(rt; agreed(rt.alloc(), FORWARD, 4)?, 32);
    assert_eq!(rt; agreed(rt.alloc(), SOLVE, 4)?, 32);
    assert_eq!(rt; agreed(rt.alloc(), LOCAL, 4)?, 32);
    Ok(())
}

#[test]
fn both_bodies_agree_on_sweeps(rt: HostRuntime) -> Result<(), Fail> {
    assert_eq!(rt; agreed(rt.alloc(), SEIDEL, 4)?, 32);
    assert_eq!(rt; agreed(rt.alloc(), COLUMNS, 3)?, 32);
    Ok(())
}

#[test]
fn both_bodies_agree_on_other_loops(rt: HostRuntime) -> Result<(), Fail> {
    assert_eq!(rt; agreed(rt.alloc(), ILU, 2)?, 32);
    assert_eq!(rt; agree(rt.alloc(), SCATTER)?, true);
    assert_eq!(rt; agreed(rt.alloc(), SCATTERED, 5)?, 32);
    Ok(())
}
