// The least bounds between six atoms, in one flat list and without contracts: the rules of derivation in
// turn, as often as the least bounds of such systems need.
use index_props::rule::RuleInst;
use loop_core::nest::Atom;
use std::alloc::Global;
use uf_constraints::system::Diff;
use wave_base::types::Memory;

// The bound of a pair of which none is derivable.
const FAR: i64 = 1_000_000;

fn place(atom: &Atom) -> usize {
    match atom {
        Atom::Zero => 0,
        Atom::N => 1,
        Atom::Nnz => 2,
        Atom::Var(var) => usize::from(var.line),
        Atom::At(_, _) => 6,
    }
}

fn get(bounds: &[i64], x: usize, y: usize) -> i64 {
    let at = x.wrapping_mul(6).wrapping_add(y);
    if at < bounds.len() { bounds[at] } else { FAR }
}

fn lower(bounds: &mut [i64], x: usize, y: usize, c: i64) {
    let at = x.wrapping_mul(6).wrapping_add(y);
    if at < bounds.len() {
        bounds[at] = bounds[at].min(c);
    }
}

fn take(bounds: &mut [i64], diffs: &[Diff]) {
    for diff in diffs {
        lower(bounds, place(&diff.a), place(&diff.b), diff.c);
    }
}

fn holds(bounds: &[i64], diffs: &[Diff]) -> bool {
    for diff in diffs {
        if get(bounds, place(&diff.a), place(&diff.b)) > diff.c {
            return false;
        }
    }
    true
}

fn fire(bounds: &mut [i64], rules: &[RuleInst]) {
    for rule in rules {
        if holds(bounds, rule.premises.as_slice()) {
            take(bounds, rule.results.as_slice());
        }
    }
}

fn sum(bounds: &mut [i64], x: usize, z: usize, y: usize) {
    let (first, second) = (get(bounds, x, z), get(bounds, z, y));
    if first < FAR && second < FAR {
        lower(bounds, x, y, first.saturating_add(second));
    }
}

fn sums(bounds: &mut [i64]) {
    for at in 0..216usize {
        sum(bounds, at / 36, at / 6 % 6, at % 6);
    }
}

// Only x - x <= 0 is known.
fn unknown(alloc: Global) -> Result<Vec<i64>, Memory> {
    let mut bounds = vec![in alloc; FAR; 36]?;
    for x in 0..6usize {
        lower(&mut bounds, x, x, 0);
    }
    Ok(bounds)
}

/// The least bounds, row by row.
pub fn least(alloc: Global, base: &[Diff], rules: &[RuleInst]) -> Result<Vec<i64>, Memory> {
    let mut bounds = unknown(alloc)?;
    take(&mut bounds, base);
    for _ in 0..40 {
        fire(&mut bounds, rules);
        sums(&mut bounds);
    }
    Ok(bounds)
}

/// Whether some atom is below itself.
pub fn is_contradictory(bounds: &[i64]) -> bool {
    for x in 0..6usize {
        if get(bounds, x, x) < 0 {
            return true;
        }
    }
    false
}

/// The bound between two atoms, where there is one.
pub fn bound(bounds: &[i64], x: usize, y: usize) -> Option<i64> {
    let c = get(bounds, x, y);
    if c < FAR { Some(c) } else { None }
}
