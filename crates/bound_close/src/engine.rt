// A table of bounds with its steps, and the instances that wait for a bound to be lowered.
ghost use Rattle.std.specs.Prelude.{◌≡◌, ◌<◌, ◌≤◌, ℕ, List, length, true, false, IfOk};
ghost use Rattle.bound_close.specs.Workings.{bounds};

use crate::workings::Workings;
use bound_table::queues::Queues;
use bound_table::waiting::Waiting;
use bound_ways::places::Places;
use index_props::rule::RuleInst;
use std::alloc::Global;
use wave_base::types::Memory;

/// A table with its steps, which instances have fired, and the others, each in the queue of a premise
/// that doesn't hold.
#[derive(Drop)]
pub struct Engine {
    pub workings: Workings,
    pub fired: Vec<bool>,
    pub queues: Queues,
}

impl Engine {
    ghost use Rattle.std.specs.Prelude.{slice_get, slice_index_or, [], Some, ◌∷◌};
    ghost use Rattle.index_props.specs.declared.rule.RuleInst.{RuleInst};
    ghost use Rattle.bound_table.specs.Marks.{no_edge};
    ghost use Rattle.bound_table.specs.Rows.{unit_bound};
    ghost use Rattle.bound_ways.specs.Exact.{Holds};
    ghost use Rattle.bound_ways.specs.Over.{AreRulesOver};
    ghost use Rattle.bound_close.specs.Passes.{Stopped};
    ghost use Rattle.bound_close.specs.Waits.{Holding, IsWaiting, Tended, Onwards, IsCovered, AllCovered, Steady, edges};

    /// A table in which nothing is known, without steps, and no instance in a queue.
    pub fn new(alloc: Global, atoms: &Places, rules: usize) -> Result<Engine, Memory>
        requires { length atoms.now ≤ 96 }
        ensures tended { IfOk result (λ g. (list : List RuleInst) → length list ≡ rules → Tended atoms.now list g) }
        ensures each { IfOk result (λ g. (x y : ℕ) → x < length atoms.now → y < length atoms.now → bounds g.workings x y ≡ unit_bound x y) }
        ensures edges { IfOk result (λ g. g.workings.table.edges.items ≡ no_edge ∷ []) }
        ensures steps { IfOk result (λ g. g.workings.steps ≡ []) }
    {
        let workings = Workings::new(alloc, atoms)?;
        let fired = vec![in alloc; false; rules]?;
        let queues = Queues::new(alloc, atoms.len())?;
        Ok(Engine {
            workings,
            fired,
            queues,
        })
    }

    // Fires an instance that hasn't fired and of which all premises hold.
    fn fire(
        &mut self,
        alloc: Global,
        atoms: &Places,
        rules: &[RuleInst],
        rule: usize,
    ) -> Result<bool, Memory>
        requires tended { Tended atoms.now rules.now self.old }
        requires over { AreRulesOver atoms.now rules.now }
        requires rule { rule < length rules.now }
        requires first { slice_index_or self.old.fired.items rule false ≡ false }
        requires holds { (r : RuleInst) → slice_get rules.now rule ≡ Some r → Holds atoms.now (bounds self.old.workings) r.premises }
        ensures onwards { IfOk result (λ fine. fine ≡ true → Onwards atoms.now rules.now self.old self.new) }
        ensures covered { IfOk result (λ fine. fine ≡ true → IsCovered atoms.now self.new rule) }
        ensures stopped { IfOk result (λ fine. fine ≡ false → Stopped atoms.now rules.now self.old.workings self.new.workings) }
    {
        if !self.workings.fire(alloc, atoms, rules, rule)? {
            return Ok(false);
        }
        self.fired[rule] = true;
        Ok(true)
    }

    // Fires an instance of which that many premises hold, or puts it where a premise fails.
    fn look(
        &mut self,
        alloc: Global,
        atoms: &Places,
        rules: &[RuleInst],
        rule: usize,
        held: usize,
    ) -> Result<bool, Memory>
        requires tended { Tended atoms.now rules.now self.old }
        requires over { AreRulesOver atoms.now rules.now }
        requires holding { Holding atoms.now rules.now self.old.workings rule held }
        requires first { slice_index_or self.old.fired.items rule false ≡ false }
        ensures onwards { IfOk result (λ fine. fine ≡ true → Onwards atoms.now rules.now self.old self.new) }
        ensures covered { IfOk result (λ fine. fine ≡ true → IsCovered atoms.now self.new rule) }
        ensures stopped { IfOk result (λ fine. fine ≡ false → Stopped atoms.now rules.now self.old.workings self.new.workings) }
    {
        let instance = &rules[rule];
        let premises = instance.premises.as_slice();
        let found = self.workings.open_from(atoms, premises, held);
        if found.at < premises.len() {
            let waiting = Waiting {
                rule,
                held: found.held,
                seen: found.seen,
            };
            self.queues.put(waiting)?;
            return Ok(true);
        }
        self.fire(alloc, atoms, rules, rule)
    }

    /// Looks at an instance of which a watched bound may have been lowered.
    pub fn visit(
        &mut self,
        alloc: Global,
        atoms: &Places,
        rules: &[RuleInst],
        waiting: Waiting,
    ) -> Result<bool, Memory>
        requires tended { Tended atoms.now rules.now self.old }
        requires over { AreRulesOver atoms.now rules.now }
        requires waits { IsWaiting atoms.now rules.now self.old.workings waiting }
        ensures onwards { IfOk result (λ fine. fine ≡ true → Onwards atoms.now rules.now self.old self.new) }
        ensures covered { IfOk result (λ fine. fine ≡ true → IsCovered atoms.now self.new waiting.rule) }
        ensures stopped { IfOk result (λ fine. fine ≡ false → Stopped atoms.now rules.now self.old.workings self.new.workings) }
    {
        if self.fired[waiting.rule] {
            return Ok(true);
        }
        if self.workings.is_above(&waiting.seen) {
            self.queues.put(waiting)?;
            return Ok(true);
        }
        self.look(alloc, atoms, rules, waiting.rule, waiting.held)
    }

    /// Looks at each instance for the first time.
    pub fn look_at_all(
        &mut self,
        alloc: Global,
        atoms: &Places,
        rules: &[RuleInst],
    ) -> Result<bool, Memory>
        requires tended { Tended atoms.now rules.now self.old }
        requires over { AreRulesOver atoms.now rules.now }
        ensures steady { IfOk result (λ fine. fine ≡ true → Steady atoms.now rules.now self.old self.new) }
        ensures covered { IfOk result (λ fine. fine ≡ true → AllCovered atoms.now rules.now self.new (edges self.old)) }
        ensures stopped { IfOk result (λ fine. fine ≡ false → Stopped atoms.now rules.now self.old.workings self.new.workings) }
    {
        for rule in 0..rules.len() {
            if !self.first_look(alloc, atoms, rules, rule)? {
                return Ok(false);
            }
        }
        Ok(true)
    }

    fn first_look(
        &mut self,
        alloc: Global,
        atoms: &Places,
        rules: &[RuleInst],
        rule: usize,
    ) -> Result<bool, Memory>
        requires tended { Tended atoms.now rules.now self.old }
        requires over { AreRulesOver atoms.now rules.now }
        requires rule { rule < length rules.now }
        ensures onwards { IfOk result (λ fine. fine ≡ true → Onwards atoms.now rules.now self.old self.new) }
        ensures covered { IfOk result (λ fine. fine ≡ true → IsCovered atoms.now self.new rule) }
        ensures stopped { IfOk result (λ fine. fine ≡ false → Stopped atoms.now rules.now self.old.workings self.new.workings) }
    {
        if self.fired[rule] {
            return Ok(true);
        }
        self.look(alloc, atoms, rules, rule, 0)
    }

    /// Equal workings, and the same instances in the queues.
    pub fn copy(&self, alloc: Global) -> Result<Engine, Memory>
        ensures rows { IfOk result (λ g. g.workings.table.rows.items ≡ self.now.workings.table.rows.items) }
        ensures marks { IfOk result (λ g. g.workings.table.marks.items ≡ self.now.workings.table.marks.items) }
        ensures edges { IfOk result (λ g. g.workings.table.edges.items ≡ self.now.workings.table.edges.items) }
        ensures steps { IfOk result (λ g. g.workings.steps ≡ self.now.workings.steps) }
        ensures fired { IfOk result (λ g. g.fired.items ≡ self.now.fired.items) }
        ensures queues { IfOk result (λ g. g.queues.rows.items ≡ self.now.queues.rows.items) }
    {
        let workings = self.workings.copy(alloc)?;
        let fired = Vec::from_slice(alloc, &self.fired)?;
        let queues = self.queues.copy(alloc)?;
        Ok(Engine {
            workings,
            fired,
            queues,
        })
    }
}
