// A base that grows, and its closure.
ghost use Rattle.std.specs.Prelude.{true, false, ◌≡◌, ◌++◌, ◌∷◌, [], IfOk, length, List};

use crate::engine::Engine;
use bound_ways::places::Places;
use index_props::rule::RuleInst;
use std::alloc::Global;
use uf_constraints::system::Diff;
use wave_base::types::Memory;

impl Engine {
    ghost use Rattle.uf_constraints.specs.declared.system.Diff.{Diff};
    ghost use Rattle.bound_close.specs.Closure.{Closed};
    ghost use Rattle.bound_ways.specs.Over.{IsOver, AreOver, AreRulesOver};
    ghost use Rattle.bound_close.specs.Waits.{Tended, IsTending};
    ghost use Rattle.bound_close.specs.Workings.{Kept, Refuted};

    /// Fires what follows from an empty base; false where that is contradictory.
    pub fn start(
        &mut self,
        alloc: Global,
        atoms: &Places,
        rules: &[RuleInst],
    ) -> Result<bool, Memory>
        requires tended { Tended atoms.now rules.now self.old }
        requires rules { AreRulesOver atoms.now rules.now }
        ensures tending { IfOk result (λ fine. fine ≡ true → IsTending atoms.now rules.now self.new) }
        ensures closed { IfOk result (λ fine. fine ≡ true → Kept atoms.now [] rules.now self.old.workings → Closed atoms.now [] rules.now self.new.workings) }
        ensures refuted { IfOk result (λ fine. fine ≡ false → Kept atoms.now [] rules.now self.old.workings → Refuted atoms.now [] rules.now self.new.workings.steps) }
    {
        let since = self.workings.table.edges.len();
        if !self.look_at_all(alloc, atoms, rules)? {
            return Ok(false);
        }
        self.saturate(alloc, atoms, rules, since)
    }

    /// Takes in the next constraint of a base, with that number, and all that follows then; false
    /// where that is contradictory.
    pub fn grow(
        &mut self,
        alloc: Global,
        atoms: &Places,
        rules: &[RuleInst],
        diff: &Diff,
        at: usize,
    ) -> Result<bool, Memory>
        requires tending { IsTending atoms.now rules.now self.old }
        requires over { IsOver atoms.now diff.now }
        requires rules { AreRulesOver atoms.now rules.now }
        ensures tending { IfOk result (λ fine. fine ≡ true → IsTending atoms.now rules.now self.new) }
        ensures closed { IfOk result (λ fine. fine ≡ true → (base : List Diff) → at ≡ length base → Closed atoms.now base rules.now self.old.workings
            → Closed atoms.now (base ++ diff.now ∷ []) rules.now self.new.workings) }
        ensures refuted { IfOk result (λ fine. fine ≡ false → (base : List Diff) → at ≡ length base → Closed atoms.now base rules.now self.old.workings
            → Refuted atoms.now (base ++ diff.now ∷ []) rules.now self.new.workings.steps) }
    {
        let before = self.workings.table.edges.len();
        if !self.workings.add_given(alloc, atoms, diff, at)? {
            return Ok(false);
        }
        self.saturate(alloc, atoms, rules, before)
    }

    /// Takes in a base, one constraint after another; false where that is contradictory.
    pub fn run(
        &mut self,
        alloc: Global,
        atoms: &Places,
        base: &[Diff],
        rules: &[RuleInst],
    ) -> Result<bool, Memory>
        requires tended { Tended atoms.now rules.now self.old }
        requires base { AreOver atoms.now base.now }
        requires rules { AreRulesOver atoms.now rules.now }
        ensures tending { IfOk result (λ fine. fine ≡ true → IsTending atoms.now rules.now self.new) }
        ensures closed { IfOk result (λ fine. fine ≡ true → Kept atoms.now [] rules.now self.old.workings → Closed atoms.now base.now rules.now self.new.workings) }
        ensures refuted { IfOk result (λ fine. fine ≡ false → Kept atoms.now [] rules.now self.old.workings → Refuted atoms.now base.now rules.now self.new.workings.steps) }
    {
        if !self.start(alloc, atoms, rules)? {
            return Ok(false);
        }
        for at in 0..base.len() {
            if !self.grow(alloc, atoms, rules, &base[at], at)? {
                return Ok(false);
            }
        }
        Ok(true)
    }
}
