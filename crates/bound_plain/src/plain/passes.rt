// Passes over the instances, until none fires that hasn't fired before.
ghost use Rattle.std.specs.Prelude.{◌≡◌, ◌<◌, ◌≤◌, ℕ, length, true, false, IfOk, MatchOption};
ghost use Rattle.index_props.specs.Derivable.{IsContradictory};
ghost use Rattle.bound_ways.specs.Exact.{IsExact};
ghost use Rattle.bound_ways.specs.Over.{AreOver, AreRulesOver};
ghost use Rattle.bound_plain.specs.Plain.{IsGrid, IsMade, IsOpposed, Visited};
ghost use Rattle.bound_table.specs.Rows.{entry};

use crate::plain::grid::Grid;
use bound_ways::places::Places;
use index_props::rule::RuleInst;
use std::alloc::Global;
use uf_constraints::system::Diff;
use wave_base::types::Memory;

// The table of a base and of the results of the instances that have fired, or none where they
// contradict one another.
fn made(
    alloc: Global,
    atoms: &Places,
    base: &[Diff],
    rules: &[RuleInst],
    fired: &[bool],
) -> Result<Option<Grid>, Memory>
    requires few { length atoms.now ≤ 96 }
    requires base { AreOver atoms.now base.now }
    requires rules { AreRulesOver atoms.now rules.now }
    requires long { length fired.now ≡ length rules.now }
    ensures { IfOk result (λ made. MatchOption made (IsOpposed atoms.now base.now rules.now fired.now)
        (λ g. IsMade atoms.now base.now rules.now fired.now g.rows.items)) }
{
    let mut grid = Grid::new(alloc, atoms.len())?;
    if !grid.take_all(alloc, atoms, base)? {
        return Ok(None);
    }
    if !grid.take_fired(alloc, atoms, rules, fired)? {
        return Ok(None);
    }
    Ok(Some(grid))
}

// Fires an instance if it hasn't fired and its premises hold; whether it did.
fn visit(atoms: &Places, grid: &Grid, rules: &[RuleInst], at: usize, fired: &mut [bool]) -> bool
    requires grid { IsGrid atoms.now grid.now.rows.items }
    requires over { AreRulesOver atoms.now rules.now }
    requires long { length fired.old ≡ length rules.now }
    requires at { at < length rules.now }
    ensures { Visited atoms.now rules.now grid.now.rows.items (λ k. k ≡ at) fired.old fired.new result }
{
    if fired[at] {
        return false;
    }
    let instance = &rules[at];
    if !grid.holds(atoms, instance.premises.as_slice()) {
        return false;
    }
    fired[at] = true;
    true
}

// Fires each instance that hasn't fired and of which all premises hold; whether there was one.
fn pass(atoms: &Places, grid: &Grid, rules: &[RuleInst], fired: &mut [bool]) -> bool
    requires grid { IsGrid atoms.now grid.now.rows.items }
    requires over { AreRulesOver atoms.now rules.now }
    requires long { length fired.old ≡ length rules.now }
    ensures { Visited atoms.now rules.now grid.now.rows.items (λ k. k < length rules.now) fired.old fired.new result }
{
    let mut new = false;
    for at in 0..rules.len() {
        new |= visit(atoms, grid, rules, at, fired);
    }
    new
}

/// The table of least bounds, or none where the system is contradictory.
pub fn saturated(
    alloc: Global,
    atoms: &Places,
    base: &[Diff],
    rules: &[RuleInst],
) -> Result<Option<Grid>, Memory>
    requires few { length atoms.now ≤ 96 }
    requires base { AreOver atoms.now base.now }
    requires rules { AreRulesOver atoms.now rules.now }
    ensures exact { IfOk result (λ found. MatchOption found (IsContradictory atoms.now base.now rules.now)
        (λ g. IsExact atoms.now base.now rules.now (entry g.rows.items))) }
    ensures grid { IfOk result (λ found. MatchOption found (Unit {0}) (λ g. IsGrid atoms.now g.rows.items)) }
{
    let mut fired = vec![in alloc; false; rules.len()]?;
    'passes: loop {
        let Some(grid) = made(alloc, atoms, base, rules, &fired)? else {
            return Ok(None);
        };
        if !pass(atoms, &grid, rules, &mut fired) {
            return Ok(Some(grid));
        }
    }
}
