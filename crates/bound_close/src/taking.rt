// How the workings take in the results of an instance.
ghost use Rattle.std.specs.Int.Signed.{◌<ℤ◌};
ghost use Rattle.bound_close.specs.Passes.{IsWatched};
ghost use Rattle.bound_ways.specs.Places.{place_in};
ghost use Rattle.std.specs.Prelude.{◌≤ℤ◌, ◌≡◌, ◌<◌, ◌≤◌, length, true, false, IfOk, List, slice_get, take, Some};

use crate::workings::Workings;
use bound_table::between::Between;
use bound_ways::places::Places;
use bound_ways::way::certify;
use index_props::rule::RuleInst;
use std::alloc::Global;
use uf_constraints::system::Diff;
use wave_base::types::Memory;

/// A premise at a place, with its places and its right side, and the number of premises from the
/// first on that are known to hold.
#[derive(Clone, Copy, Debug)]
pub struct Opening {
    pub held: usize,
    pub at: usize,
    pub seen: Between,
}

// The places of a constraint, and its right side.
fn watched(atoms: &Places, diff: &Diff) -> Between
    ensures x { result.x ≡ place_in atoms.now diff.now.a }
    ensures y { result.y ≡ place_in atoms.now diff.now.b }
    ensures bound { result.bound ≡ diff.now.c }
{
    let (x, y) = (atoms.place(&diff.a), atoms.place(&diff.b));
    Between {
        x,
        y,
        bound: diff.c,
    }
}

// Those of the constraint at a place of a list, and any after its end.
fn seen_at(atoms: &Places, diffs: &[Diff], at: usize) -> Between
    ensures { at < length diffs.now → IsWatched atoms.now diffs.now at result }
{
    if at < diffs.len() {
        watched(atoms, &diffs[at])
    } else {
        Between {
            x: 0,
            y: 0,
            bound: 0,
        }
    }
}

impl Workings {
    ghost use Rattle.uf_constraints.specs.declared.system.Diff.{Diff};
    ghost use Rattle.index_props.specs.declared.rule.RuleInst.{RuleInst};
    ghost use Rattle.bound_ways.specs.Exact.{bound_of, Holds};
    ghost use Rattle.bound_ways.specs.Over.{AreOver, AreRulesOver};
    ghost use Rattle.bound_close.specs.Passes.{Applied, Ready, Forward, Stopped, ResultsHold};
    ghost use Rattle.bound_close.specs.Workings.{bounds, IsFine, Halted, Refuted};

    /// The number of the first premise from a place on that doesn't hold, and that of all premises
    /// where each holds. It takes no memory.
    pub fn first_open(&self, atoms: &Places, premises: &[Diff], from: usize) -> usize
        requires fine { IsFine atoms.now self.now }
        requires over { AreOver atoms.now premises.now }
        requires from { from ≤ length premises.now }
        requires held { Holds atoms.now (bounds self.now) (take from premises.now) }
        ensures within { result ≤ length premises.now }
        ensures held { Holds atoms.now (bounds self.now) (take result premises.now) }
        ensures open { (d : Diff) → slice_get premises.now result ≡ Some d → d.c <ℤ bound_of atoms.now (bounds self.now) d }
    {
        for at in from..premises.len() {
            if !self.knows(atoms, &premises[at]) {
                return at;
            }
        }
        premises.len()
    }

    /// A premise that doesn't hold: the last one, or else the first from a place on. The last one of
    /// most lines of the table of rules compares the two entries, and seldom holds.
    pub fn open_from(&self, atoms: &Places, premises: &[Diff], from: usize) -> Opening
        requires fine { IsFine atoms.now self.now }
        requires over { AreOver atoms.now premises.now }
        requires from { from ≤ length premises.now }
        requires held { Holds atoms.now (bounds self.now) (take from premises.now) }
        ensures within { result.at ≤ length premises.now }
        ensures held { Holds atoms.now (bounds self.now) (take result.held premises.now) }
        ensures few { result.at < length premises.now → result.held < length premises.now }
        ensures seen { result.at < length premises.now → IsWatched atoms.now premises.now result.at result.seen }
        ensures low { result.at < length premises.now → result.seen.bound <ℤ bounds self.now result.seen.x result.seen.y }
        ensures all { result.at ≡ length premises.now → result.held ≡ length premises.now }
    {
        if from < premises.len() {
            let at = premises.len() - 1;
            let seen = seen_at(atoms, premises, at);
            if self.is_above(&seen) {
                return Opening {
                    held: from,
                    at,
                    seen,
                };
            }
        }
        let at = self.first_open(atoms, premises, from);
        let seen = seen_at(atoms, premises, at);
        Opening { held: at, at, seen }
    }

    /// Whether the bound between two places is above a right side. It takes no memory.
    pub fn is_above(&self, seen: &Between) -> bool
        ensures above { result ≡ true → seen.now.bound <ℤ bounds self.now seen.now.x seen.now.y }
        ensures known { result ≡ false → seen.now.x < length self.now.table.rows.items → bounds self.now seen.now.x seen.now.y ≤ℤ seen.now.bound }
    {
        if seen.x >= self.table.rows.len() {
            return false;
        }
        self.table.get(seen.x, seen.y) > seen.bound
    }

    fn add_results(
        &mut self,
        alloc: Global,
        atoms: &Places,
        rules: &[RuleInst],
        rule: usize,
        places: &[u64],
    ) -> Result<bool, Memory>
        requires fine { IsFine atoms.now self.old }
        requires over { AreRulesOver atoms.now rules.now }
        requires rule { rule < length rules.now }
        ensures applied { IfOk result (λ fine. fine ≡ true → (r : RuleInst) → slice_get rules.now rule ≡ Some r
            → Applied atoms.now rules.now r places.now r.results self.old self.new) }
        ensures refuted { IfOk result (λ fine. fine ≡ false → (r : RuleInst) → slice_get rules.now rule ≡ Some r
            → (base : List Diff) → Ready atoms.now base rules.now self.old r places.now → Refuted atoms.now base rules.now self.new.steps) }
    {
        let instance = &rules[rule];
        let results = instance.results.as_slice();
        for at in 0..results.len() {
            if !self.add_result(alloc, atoms, &results[at], rule, at, places)? {
                return Ok(false);
            }
        }
        Ok(true)
    }

    /// Takes in the results of an instance whose premises hold.
    pub fn fire(
        &mut self,
        alloc: Global,
        atoms: &Places,
        rules: &[RuleInst],
        rule: usize,
    ) -> Result<bool, Memory>
        requires fine { IsFine atoms.now self.old }
        requires over { AreRulesOver atoms.now rules.now }
        requires rule { rule < length rules.now }
        requires holds { (r : RuleInst) → slice_get rules.now rule ≡ Some r → Holds atoms.now (bounds self.old) r.premises }
        ensures forward { IfOk result (λ fine. fine ≡ true → Forward atoms.now rules.now self.old self.new) }
        ensures holds { IfOk result (λ fine. fine ≡ true → ResultsHold atoms.now rules.now self.new rule) }
        ensures stopped { IfOk result (λ fine. fine ≡ false → Stopped atoms.now rules.now self.old self.new) }
    {
        let instance = &rules[rule];
        let results = instance.results.as_slice();
        if self.first_open(atoms, results, 0) == results.len() {
            return Ok(true);
        }
        let premises = instance.premises.as_slice();
        let places = certify(alloc, atoms, &self.table, premises, &mut self.steps)?;
        self.add_results(alloc, atoms, rules, rule, places.as_slice())
    }
}
