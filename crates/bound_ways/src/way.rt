// The way of a bound, as steps of a certificate.
ghost use Rattle.std.specs.Prelude.{◌≡◌, ◌<◌, ◌+ℤ◌, ◌≤ℤ◌, length, pos, IfOk, OnOk};
ghost use Rattle.std.specs.Int.Signed.{◌<ℤ◌};
ghost use Rattle.bound_ways.specs.Exact.{Holds};
ghost use Rattle.bound_ways.specs.Log.{Emitted, Naming, Refuting};
ghost use Rattle.bound_table.specs.Marks.{IsTraced};
ghost use Rattle.bound_ways.specs.Over.{IsOver, AreOver};
ghost use Rattle.bound_ways.specs.Places.{diff_at, place_in};
ghost use Rattle.bound_table.specs.Rows.{Within, entry, far};

use crate::places::Places;
use crate::push::{push_same, push_sum, push_weaken};
use bound_table::edge::Edge;
use bound_table::table::Table;
use index_props::certificate::Step;
use sqlite_items::Items;
use std::alloc::Global;
use uf_constraints::system::Diff;
use wave_base::types::Memory;

/// Puts the steps of a bound's way at the end. The answer is the number of the step that gives it.
pub fn emit(
    alloc: Global,
    atoms: &Places,
    table: &Table,
    x: usize,
    y: usize,
    steps: &mut Items<Step>,
) -> Result<u64, Memory>
    requires traced { IsTraced table.now.rows.items table.now.marks.items table.now.edges.items }
    requires atoms { length table.now.rows.items ≡ length atoms.now }
    requires x { x < length table.now.rows.items }
    requires y { y < length table.now.rows.items }
    requires known { entry table.now.rows.items x y <ℤ far }
    ensures { IfOk result (λ k. Emitted atoms.now table.now.edges.items steps.old steps.new k
        (diff_at atoms.now x y (entry table.now.rows.items x y))) }
{
    let Some(edge) = table.edge_over(x, y) else {
        let listed = atoms.as_slice();
        return push_same(alloc, &listed[x], steps);
    };
    if edge.a == x {
        if edge.b == y {
            return Ok(edge.step);
        }
        let second = emit(alloc, atoms, table, edge.b, y, steps)?;
        return push_sum(edge.step, second, steps);
    }
    let first = emit(alloc, atoms, table, x, edge.a, steps)?;
    let at = push_sum(first, edge.step, steps)?;
    if edge.b == y {
        return Ok(at);
    }
    let second = emit(alloc, atoms, table, edge.b, y, steps)?;
    push_sum(at, second, steps)
}

/// Puts the way of a bound that is at most `c` at the end, and then the constraint with right side
/// `c`. The answer is the number of the step that gives that.
pub fn settle(
    alloc: Global,
    atoms: &Places,
    table: &Table,
    x: usize,
    y: usize,
    c: i64,
    steps: &mut Items<Step>,
) -> Result<u64, Memory>
    requires traced { IsTraced table.now.rows.items table.now.marks.items table.now.edges.items }
    requires atoms { length table.now.rows.items ≡ length atoms.now }
    requires x { x < length table.now.rows.items }
    requires y { y < length table.now.rows.items }
    requires known { entry table.now.rows.items x y <ℤ far }
    requires holds { entry table.now.rows.items x y ≤ℤ c }
    ensures { IfOk result (λ k. Emitted atoms.now table.now.edges.items steps.old steps.new k (diff_at atoms.now x y c)) }
{
    let way = emit(alloc, atoms, table, x, y, steps)?;
    if table.get(x, y) == c {
        return Ok(way);
    }
    push_weaken(way, c, steps)
}

/// Puts the steps at the end that show `a - a <= -1`, where an edge and the bound the other way round
/// add up to less than nothing.
pub fn refute(
    alloc: Global,
    atoms: &Places,
    table: &Table,
    edge: &Edge,
    steps: &mut Items<Step>,
) -> Result<(), Memory>
    requires traced { IsTraced table.now.rows.items table.now.marks.items table.now.edges.items }
    requires atoms { length table.now.rows.items ≡ length atoms.now }
    requires a { edge.now.a < length table.now.rows.items }
    requires b { edge.now.b < length table.now.rows.items }
    requires few { Within 8388608 edge.now.c }
    requires known { entry table.now.rows.items edge.now.b edge.now.a <ℤ far }
    requires below { (entry table.now.rows.items edge.now.b edge.now.a +ℤ edge.now.c) <ℤ pos 0 }
    ensures { OnOk result (Refuting atoms.now table.now.edges.items steps.old steps.new edge.now) }
{
    let back = emit(alloc, atoms, table, edge.b, edge.a, steps)?;
    let sum = push_sum(edge.step, back, steps)?;
    push_weaken(sum, -1, steps)?;
    Ok(())
}

fn certify_one(
    alloc: Global,
    atoms: &Places,
    table: &Table,
    premise: &Diff,
    steps: &mut Items<Step>,
) -> Result<u64, Memory>
    requires traced { IsTraced table.now.rows.items table.now.marks.items table.now.edges.items }
    requires atoms { length table.now.rows.items ≡ length atoms.now }
    requires over { IsOver atoms.now premise.now }
    requires holds { entry table.now.rows.items (place_in atoms.now premise.now.a) (place_in atoms.now premise.now.b) ≤ℤ premise.now.c }
    ensures { IfOk result (λ k. Emitted atoms.now table.now.edges.items steps.old steps.new k premise.now) }
{
    let (x, y) = (atoms.place(&premise.a), atoms.place(&premise.b));
    settle(alloc, atoms, table, x, y, premise.c, steps)
}

/// Puts the ways of premises that hold in the table at the end. The answer has the numbers of the
/// steps that give them.
pub fn certify(
    alloc: Global,
    atoms: &Places,
    table: &Table,
    premises: &[Diff],
    steps: &mut Items<Step>,
) -> Result<Items<u64>, Memory>
    requires traced { IsTraced table.now.rows.items table.now.marks.items table.now.edges.items }
    requires atoms { length table.now.rows.items ≡ length atoms.now }
    requires over { AreOver atoms.now premises.now }
    requires holds { Holds atoms.now (entry table.now.rows.items) premises.now }
    ensures { IfOk result (λ places. Naming atoms.now table.now.edges.items steps.old steps.new premises.now places) }
{
    let mut places = Items::new(alloc);
    for premise in premises {
        places.push(certify_one(alloc, atoms, table, premise, steps)?)?;
    }
    Ok(places)
}
