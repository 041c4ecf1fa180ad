// A plain second body of the closure: saturation with tables made from scratch, and no certificates.
ghost use Rattle.std.specs.Prelude.{◌≡◌, ◌<◌, ◌↔◌, IsTrue, ℤ, List, length, true, false, IfOk, MatchOption};
ghost use Rattle.bound_ways.specs.Over.{AreOver, AreRulesOver};
ghost use Rattle.bound_plain.specs.Plain.{IsSaturation};

mod grid;
mod passes;

use crate::plain::grid::Grid;
use crate::plain::passes::saturated;
use bound_ways::places::Places;
use index_props::rule::RuleInst;
use loop_core::nest::Atom;
use std::alloc::Global;
use std::marker::Model;
use uf_constraints::system::{Diff, Universe};
use wave_base::types::Memory;

/// The least bounds that follow from a base by rule instances, or that it is contradictory.
#[derive(Drop)]
pub struct Plain {
    places: Places,
    grid: Grid,
    refuted: bool,
}

impl Model for Plain {
    ghost use Rattle.std.specs.Prelude.{◌≡◌, false};
    ghost use Rattle.bound_plain.specs.Plain.{Saturated, IsGrid};
    ghost use Rattle.loop_core.specs.contracts.nest.Atom as an_atom;
    ghost use Rattle.std.specs.Coded.{codes};

    ghost Value = { Saturated };

    ghost coded = { Prim.hlevel (codes, an_atom.the_row.coded) };

    ghost view = { λ k. record { atoms = k.places; rows = k.grid.rows.items; refuted = k.refuted } };

    ghost invariant = { λ k. k.refuted ≡ false → IsGrid k.places k.grid.rows.items };
}

/// The closure of a base and a list of instances over a universe, by plain saturation.
///
/// Each pass makes the table again from the base and the results of the instances that have fired, and
/// then fires each whose premises hold. There is at most one pass more than there are instances.
pub fn close(
    alloc: Global,
    u: &Universe,
    base: &[Diff],
    rules: &[RuleInst],
) -> Result<Plain, Memory>
    requires base { AreOver u.now.atoms base.now }
    requires rules { AreRulesOver u.now.atoms rules.now }
    ensures atoms { IfOk result (λ k. k.atoms ≡ u.now.atoms) }
    ensures closure { IfOk result (λ k. IsSaturation k base.now rules.now) }
{
    let places = Places::new(alloc, u.atoms.as_slice())?;
    match saturated(alloc, &places, base, rules)? {
        Some(grid) => Ok(Plain {
            places,
            grid,
            refuted: false,
        }),
        None => refuted(alloc, places),
    }
}

// The closure of a contradictory system, of which no bound is kept.
fn refuted(alloc: Global, places: Places) -> Result<Plain, Memory>
    ensures atoms { IfOk result (λ k. k.atoms ≡ places) }
    ensures refuted { IfOk result (λ k. k.refuted ≡ true) }
{
    let grid = Grid::new(alloc, 0)?;
    Ok(Plain {
        places,
        grid,
        refuted: true,
    })
}

impl Plain {
    ghost use Rattle.uf_constraints.specs.declared.system.Diff.{Diff};
    ghost use Rattle.index_props.specs.declared.rule.RuleInst.{RuleInst};
    ghost use Rattle.index_props.specs.Derivable.{IsContradictory};
    ghost use Rattle.bound_ways.specs.Exact.{IsBound};

    /// Whether `a - a <= -1` is derivable for some atom. It takes no memory.
    pub fn empty(&self) -> bool
        ensures told { result ≡ self.now.refuted }
        ensures exact { (base : List Diff) (rules : List RuleInst) → IsSaturation self.now base rules
            → IsTrue result ↔ IsContradictory self.now.atoms base rules }
    {
        self.refuted
    }

    /// The least `c` for which `a - b <= c` is derivable, where the system isn't contradictory: `None`
    /// exactly where there is none. It takes no memory.
    pub fn bound(&self, a: &Atom, b: &Atom) -> Option<i64>
        ensures { (base : List Diff) (rules : List RuleInst) → IsSaturation self.now base rules
            → (IsContradictory self.now.atoms base rules → ⊥)
            → IsBound self.now.atoms base rules a.now b.now result }
    {
        if self.refuted {
            return None;
        }
        self.grid.between(&self.places, a, b)
    }
}
