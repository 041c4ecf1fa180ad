// The closure of a base and a list of instances.
ghost use Rattle.std.specs.Prelude.{◌≡◌, ◌<◌, ◌↔◌, IsTrue, ℤ, List, length, true, false, IfOk, OnOk, OnErr, MatchOption};
ghost use Rattle.std.specs.Int.Signed.{◌<ℤ◌};
ghost use Rattle.bound_ways.specs.Over.{IsOver, AreOver, AreRulesOver};
ghost use Rattle.bound_close.specs.Closure.{Found, IsClosure, IsClosureOf, IsGrown, IsAdded, IsBound, Shows, ShowsContradiction, Closed};

use crate::engine::Engine;
use bound_table::between::Between;
use bound_table::row::FAR;
use bound_ways::copy::{copy_steps, copy_universe};
use bound_ways::places::Places;
use bound_ways::push::push_weaken;
use bound_ways::way::emit;
use index_props::certificate::Cert;
use index_props::rule::RuleInst;
use loop_core::nest::Atom;
use std::alloc::Global;
use std::marker::Model;
use uf_constraints::system::{Diff, Universe};
use wave_base::types::Memory;

/// All that follows from a base by rule instances, over the atoms of a universe.
#[derive(Drop)]
pub struct Closure {
    universe: Universe,
    places: Places,
    engine: Engine,
    given: usize,
    refuted: bool,
}

impl Model for Closure {
    ghost use Rattle.std.specs.Prelude.{◌≡◌, false};
    ghost use Rattle.bound_close.specs.Closure.{Found};
    ghost use Rattle.bound_close.specs.Workings.{IsFine};
    ghost use Rattle.loop_core.specs.contracts.nest.Atom as an_atom;
    ghost use Rattle.index_props.specs.contracts.certificate.Step as a_step;
    ghost use Rattle.std.specs.Coded.{codes};

    ghost Value = { Found };

    ghost coded = { Prim.hlevel (codes, an_atom.the_row.coded, a_step.the_row.coded) };

    ghost view = { λ k. record { atoms = k.places; engine = k.engine; given = k.given; refuted = k.refuted } };

    ghost invariant = { λ k. (k.refuted ≡ false → IsFine k.places k.engine.workings) × (k.universe.atoms ≡ k.places) };
}

/// The closure of a base and a list of instances over a universe.
///
/// It keeps the least bound that is derivable for each pair of atoms, and the steps that derive it. It
/// is the closure of an empty base to which the base is added in order. The time is at most that of one
/// pass over the table for each constraint that tightens it and each pass in which an instance fires,
/// and of one look at an instance for each bound of a premise of its own that is lowered.
pub fn close(
    alloc: Global,
    u: &Universe,
    base: &[Diff],
    rules: &[RuleInst],
) -> Result<Closure, Memory>
    requires base { AreOver u.now.atoms base.now }
    requires rules { AreRulesOver u.now.atoms rules.now }
    ensures atoms { IfOk result (λ k. k.atoms ≡ u.now.atoms) }
    ensures closure { IfOk result (λ k. IsClosure k base.now rules.now) }
    ensures grown { IfOk result (λ k. (j : Found) → IsGrown rules.now j base.now → j.atoms ≡ k.atoms
        → IsClosure j base.now rules.now × (j.refuted ≡ k.refuted)) }
{
    let universe = copy_universe(alloc, u)?;
    let places = Places::new(alloc, universe.atoms.as_slice())?;
    let mut engine = Engine::new(alloc, &places, rules.len())?;
    let fine = engine.run(alloc, &places, base, rules)?;
    Ok(Closure {
        universe,
        places,
        engine,
        given: base.len(),
        refuted: !fine,
    })
}

impl Closure {
    ghost use Rattle.uf_constraints.specs.declared.system.Diff.{Diff};
    ghost use Rattle.index_props.specs.declared.rule.RuleInst.{RuleInst};
    ghost use Rattle.index_props.specs.Derivable.{Derivable, IsContradictory};
    ghost use Rattle.bound_ways.specs.Places.{place_in};
    ghost use Rattle.bound_table.specs.Rows.{far};
    ghost use Rattle.bound_close.specs.Workings.{bounds};
    ghost use Rattle.bound_close.specs.Between.{IsBetween, NotBetween};

    /// Puts a constraint at the end of the base. The universe and the instances are those of the closure,
    /// and the constraint is over its atoms, with a right side from -2^23 to 2^23.
    ///
    /// Out of memory, the closure is as before. Only instances of which a bound of a premise is lowered
    /// are looked at; the table, the steps and the queues are copied once.
    pub fn add(
        &mut self,
        alloc: Global,
        u: &Universe,
        rules: &[RuleInst],
        d: &Diff,
    ) -> Result<(), Memory>
        requires universe { u.now.atoms ≡ self.old.atoms }
        requires closure { IsClosureOf self.old rules.now }
        requires rules { AreRulesOver self.old.atoms rules.now }
        requires over { IsOver self.old.atoms d.now }
        ensures added { OnOk result (IsAdded rules.now self.old d.now self.new) }
        ensures kept { OnErr result (self.new ≡ self.old) }
    {
        // The closure has the universe already.
        let _ = u;
        let Some(given) = self.given.checked_add(1) else {
            return Err(Memory);
        };
        if self.refuted {
            self.given = given;
            return Ok(());
        }
        let mut engine = self.engine.copy(alloc)?;
        let fine = engine.grow(alloc, &self.places, rules, d, self.given)?;
        self.engine = engine;
        self.given = given;
        self.refuted = !fine;
        Ok(())
    }

    /// The universe that the closure is over. It takes no memory.
    pub fn universe(&self) -> &Universe
        ensures { result.now.atoms ≡ self.now.atoms }
    {
        &self.universe
    }

    /// Whether `a - a <= -1` is derivable for some atom. It takes no memory.
    pub fn empty(&self) -> bool
        ensures told { result ≡ self.now.refuted }
        ensures exact { (base : List Diff) (rules : List RuleInst) → IsClosure self.now base rules
            → IsTrue result ↔ IsContradictory self.now.atoms base rules }
    {
        self.refuted
    }

    // The bound that is known between two atoms.
    fn between(&self, a: &Atom, b: &Atom) -> Option<Between>
        ensures { MatchOption result (NotBetween self.now a.now b.now) (IsBetween self.now a.now b.now) }
    {
        if self.refuted {
            return None;
        }
        let atoms = &self.places;
        let (x, y) = (atoms.place(a), atoms.place(b));
        if x >= atoms.len() {
            return None;
        }
        if y >= atoms.len() {
            return None;
        }
        let bound = self.engine.workings.table.get(x, y);
        if bound >= FAR {
            return None;
        }
        Some(Between { x, y, bound })
    }

    /// The least `c` for which `a - b <= c` is derivable, where the closure isn't empty: `None`
    /// exactly where there is none, as where an atom isn't of the universe. It takes no memory.
    pub fn bound(&self, a: &Atom, b: &Atom) -> Option<i64>
        ensures { (base : List Diff) (rules : List RuleInst) → IsClosure self.now base rules
            → (IsContradictory self.now.atoms base rules → ⊥)
            → IsBound self.now.atoms base rules a.now b.now result }
    {
        let Some(between) = self.between(a, b) else {
            return None;
        };
        Some(between.bound)
    }

    /// A certificate of `a - b <= c`, where the closure isn't empty: `Some` exactly where it is
    /// derivable. It has a step for each that the closure keeps, and those of the bound's way.
    pub fn proof(&self, alloc: Global, a: &Atom, b: &Atom, c: i64) -> Result<Option<Cert>, Memory>
        ensures { IfOk result (λ found. (base : List Diff) (rules : List RuleInst) → IsClosure self.now base rules
            → MatchOption found
            ((IsContradictory self.now.atoms base rules → ⊥) → Derivable self.now.atoms base rules a.now b.now c → ⊥)
            (λ cert. Derivable self.now.atoms base rules a.now b.now c
            × Shows self.now.atoms base rules cert.steps a.now b.now c)) }
    {
        let Some(between) = self.between(a, b) else {
            return Ok(None);
        };
        if between.is_above(c) {
            return Ok(None);
        }
        let mut steps = copy_steps(alloc, self.engine.workings.steps.as_slice())?;
        let way = emit(
            alloc,
            &self.places,
            &self.engine.workings.table,
            between.x,
            between.y,
            &mut steps,
        )?;
        push_weaken(way, c, &mut steps)?;
        Ok(Some(Cert { steps }))
    }

    /// A certificate of `a - a <= -1` for some atom: `Some` exactly where the closure is empty.
    pub fn refutation(&self, alloc: Global) -> Result<Option<Cert>, Memory>
        ensures { IfOk result (λ found. (base : List Diff) (rules : List RuleInst) → IsClosure self.now base rules
            → MatchOption found
            (IsContradictory self.now.atoms base rules → ⊥)
            (λ cert. IsContradictory self.now.atoms base rules
            × ShowsContradiction self.now.atoms base rules cert.steps)) }
    {
        if !self.refuted {
            return Ok(None);
        }
        let steps = copy_steps(alloc, self.engine.workings.steps.as_slice())?;
        Ok(Some(Cert { steps }))
    }
}
