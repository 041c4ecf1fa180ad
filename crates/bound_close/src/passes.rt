// Passes over the pairs of which the bound was lowered, until none fires an instance.
ghost use Rattle.std.specs.Prelude.{◌≡◌, ◌<◌, ◌+◌, ℕ, length, true, false, IfOk};

use crate::engine::Engine;
use bound_ways::places::Places;
use index_props::rule::RuleInst;
use std::alloc::Global;
use wave_base::types::Memory;

impl Engine {
    ghost use Rattle.bound_ways.specs.Over.{AreRulesOver};
    ghost use Rattle.bound_close.specs.Passes.{Stopped};
    ghost use Rattle.bound_close.specs.Waits.{Tended, Looked, AllCovered, Steady, edges};

    // Looks at each instance in the queue of a pair.
    fn look_at_pair(
        &mut self,
        alloc: Global,
        atoms: &Places,
        rules: &[RuleInst],
        x: usize,
        y: usize,
    ) -> Result<bool, Memory>
        requires tended { Tended atoms.now rules.now self.old }
        requires over { AreRulesOver atoms.now rules.now }
        requires x { x < length atoms.now }
        requires y { y < length atoms.now }
        ensures looked { IfOk result (λ fine. fine ≡ true → (since : ℕ) → Looked atoms.now rules.now since x y x (y + 1) self.old self.new) }
        ensures stopped { IfOk result (λ fine. fine ≡ false → Stopped atoms.now rules.now self.old.workings self.new.workings) }
    {
        let taken = self.queues.take(alloc, x, y);
        for waiting in taken.as_slice() {
            if !self.visit(alloc, atoms, rules, *waiting)? {
                return Ok(false);
            }
        }
        Ok(true)
    }

    // Looks at each instance in the queue of a pair, if its bound was lowered.
    fn look_if_lowered(
        &mut self,
        alloc: Global,
        atoms: &Places,
        rules: &[RuleInst],
        since: usize,
        x: usize,
        y: usize,
    ) -> Result<bool, Memory>
        requires tended { Tended atoms.now rules.now self.old }
        requires over { AreRulesOver atoms.now rules.now }
        requires x { x < length atoms.now }
        requires y { y < length atoms.now }
        ensures looked { IfOk result (λ fine. fine ≡ true → Looked atoms.now rules.now since x y x (y + 1) self.old self.new) }
        ensures stopped { IfOk result (λ fine. fine ≡ false → Stopped atoms.now rules.now self.old.workings self.new.workings) }
    {
        if !self.workings.table.was_lowered(x, y, since) {
            return Ok(true);
        }
        self.look_at_pair(alloc, atoms, rules, x, y)
    }

    // Looks at the instances in the queues of a row.
    fn look_at_row(
        &mut self,
        alloc: Global,
        atoms: &Places,
        rules: &[RuleInst],
        since: usize,
        x: usize,
    ) -> Result<bool, Memory>
        requires tended { Tended atoms.now rules.now self.old }
        requires over { AreRulesOver atoms.now rules.now }
        requires x { x < length atoms.now }
        ensures looked { IfOk result (λ fine. fine ≡ true → Looked atoms.now rules.now since x 0 (x + 1) 0 self.old self.new) }
        ensures stopped { IfOk result (λ fine. fine ≡ false → Stopped atoms.now rules.now self.old.workings self.new.workings) }
    {
        for y in 0..atoms.len() {
            if !self.look_if_lowered(alloc, atoms, rules, since, x, y)? {
                return Ok(false);
            }
        }
        Ok(true)
    }

    // Looks at the instances in the queues of all pairs of which the bound was lowered.
    fn pass(
        &mut self,
        alloc: Global,
        atoms: &Places,
        rules: &[RuleInst],
        since: usize,
    ) -> Result<bool, Memory>
        requires tended { Tended atoms.now rules.now self.old }
        requires over { AreRulesOver atoms.now rules.now }
        ensures looked { IfOk result (λ fine. fine ≡ true → Looked atoms.now rules.now since 0 0 (length atoms.now) 0 self.old self.new) }
        ensures stopped { IfOk result (λ fine. fine ≡ false → Stopped atoms.now rules.now self.old.workings self.new.workings) }
    {
        for x in 0..atoms.len() {
            if !self.look_at_row(alloc, atoms, rules, since, x)? {
                return Ok(false);
            }
        }
        Ok(true)
    }

    /// Fires instances until each has fired or has a premise that doesn't hold; false where they lead
    /// to a contradiction, and then the last step gives `a - a <= -1`. Only instances of which a bound
    /// was lowered by an edge from that number on are looked at.
    pub fn saturate(
        &mut self,
        alloc: Global,
        atoms: &Places,
        rules: &[RuleInst],
        since: usize,
    ) -> Result<bool, Memory>
        requires tended { Tended atoms.now rules.now self.old }
        requires over { AreRulesOver atoms.now rules.now }
        requires covered { AllCovered atoms.now rules.now self.old since }
        ensures steady { IfOk result (λ fine. fine ≡ true → Steady atoms.now rules.now self.old self.new) }
        ensures covered { IfOk result (λ fine. fine ≡ true → AllCovered atoms.now rules.now self.new (edges self.new)) }
        ensures stopped { IfOk result (λ fine. fine ≡ false → Stopped atoms.now rules.now self.old.workings self.new.workings) }
    {
        let mut since = since;
        'passes: loop {
            let edges = self.workings.table.edges.len();
            if !self.pass(alloc, atoms, rules, since)? {
                return Ok(false);
            }
            since = edges;
            if self.workings.table.edges.len() == since {
                return Ok(true);
            }
        }
    }
}
