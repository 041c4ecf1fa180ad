// Tables of bounds without marks, in which each constraint that is taken in gives new rows.
ghost use Rattle.std.specs.Prelude.{◌≡◌, ◌<◌, ◌≤◌, ◌+ℤ◌, ◌≤ℤ◌, ◌∷◌, [], ℕ, length, pos, true, false, IfOk, MatchOption, slice_index_or};
ghost use Rattle.std.specs.Int.Signed.{◌<ℤ◌};
ghost use Rattle.bound_table.specs.Rows.{far, cell, entry, Range, Within, lowered, IsTable, Adds, unit_bound};

use bound_table::plain::through;
use bound_table::row::{FAR, Row};
use bound_table::table::{contradicts, entry_at, new_rows};
use bound_ways::places::Places;
use index_props::rule::RuleInst;
use loop_core::nest::Atom;
use std::alloc::Global;
use uf_constraints::system::Diff;
use wave_base::types::Memory;

/// The bounds that are known between places.
#[derive(Drop)]
pub struct Grid {
    pub rows: Vec<Row>,
}

impl Grid {
    ghost use Rattle.std.specs.List.{Contains};
    ghost use Rattle.bound_ways.specs.Exact.{bound_of, Holds, Fails};
    ghost use Rattle.bound_ways.specs.Over.{IsOver, AreOver, AreRulesOver};
    ghost use Rattle.bound_plain.specs.Plain.{IsGrid, TakenIn, Opposed, IsResult, IsKnown, IsUnknown};

    /// A table in which only `x - x <= 0` is known.
    pub fn new(alloc: Global, size: usize) -> Result<Grid, Memory>
        requires { size ≤ 96 }
        ensures len { IfOk result (λ g. length g.rows.items ≡ size) }
        ensures each { IfOk result (λ g. (x y : ℕ) → x < size → y < size → entry g.rows.items x y ≡ unit_bound x y) }
        ensures table { IfOk result (λ g. IsTable g.rows.items) }
    {
        let rows = new_rows(alloc, size)?;
        Ok(Grid { rows })
    }

    // Takes in a constraint; false where it contradicts what is known.
    fn take_one(&mut self, alloc: Global, atoms: &Places, diff: &Diff) -> Result<bool, Memory>
        requires grid { IsGrid atoms.now self.old.rows.items }
        requires over { IsOver atoms.now diff.now }
        ensures taken { IfOk result (λ fine. fine ≡ true
            → TakenIn atoms.now (Contains (diff.now ∷ [])) self.old.rows.items self.new.rows.items) }
        ensures opposed { IfOk result (λ fine. fine ≡ false → Opposed atoms.now (Contains (diff.now ∷ [])) self.old.rows.items) }
    {
        let (a, b) = (atoms.place(&diff.a), atoms.place(&diff.b));
        if contradicts(&self.rows, a, b, diff.c) {
            return Ok(false);
        }
        self.rows = through(alloc, &self.rows, a, b, diff.c)?;
        Ok(true)
    }

    /// Takes in constraints; false where they contradict what is known.
    pub fn take_all(
        &mut self,
        alloc: Global,
        atoms: &Places,
        diffs: &[Diff],
    ) -> Result<bool, Memory>
        requires grid { IsGrid atoms.now self.old.rows.items }
        requires over { AreOver atoms.now diffs.now }
        ensures taken { IfOk result (λ fine. fine ≡ true
            → TakenIn atoms.now (Contains diffs.now) self.old.rows.items self.new.rows.items) }
        ensures opposed { IfOk result (λ fine. fine ≡ false → Opposed atoms.now (Contains diffs.now) self.old.rows.items) }
    {
        for diff in diffs {
            if !self.take_one(alloc, atoms, diff)? {
                return Ok(false);
            }
        }
        Ok(true)
    }

    // Takes in the results of an instance, if it has fired; false where they contradict what is known.
    fn take_results(
        &mut self,
        alloc: Global,
        atoms: &Places,
        rule: &RuleInst,
        fired: bool,
    ) -> Result<bool, Memory>
        requires grid { IsGrid atoms.now self.old.rows.items }
        requires over { AreOver atoms.now rule.now.results }
        ensures skipped { IfOk result (λ fine. fired ≡ false → (fine ≡ true) × (self.new.rows.items ≡ self.old.rows.items)) }
        ensures taken { IfOk result (λ fine. fired ≡ true → fine ≡ true
            → TakenIn atoms.now (Contains rule.now.results) self.old.rows.items self.new.rows.items) }
        ensures opposed { IfOk result (λ fine. fine ≡ false → Opposed atoms.now (Contains rule.now.results) self.old.rows.items) }
    {
        if !fired {
            return Ok(true);
        }
        self.take_all(alloc, atoms, rule.results.as_slice())
    }

    /// Takes in the results of the instances that have fired; false where they contradict what is known.
    pub fn take_fired(
        &mut self,
        alloc: Global,
        atoms: &Places,
        rules: &[RuleInst],
        fired: &[bool],
    ) -> Result<bool, Memory>
        requires grid { IsGrid atoms.now self.old.rows.items }
        requires over { AreRulesOver atoms.now rules.now }
        requires long { length fired.now ≡ length rules.now }
        ensures taken { IfOk result (λ fine. fine ≡ true
            → TakenIn atoms.now (IsResult rules.now fired.now (length rules.now)) self.old.rows.items self.new.rows.items) }
        ensures opposed { IfOk result (λ fine. fine ≡ false
            → Opposed atoms.now (IsResult rules.now fired.now (length rules.now)) self.old.rows.items) }
    {
        for at in 0..rules.len() {
            if !self.take_results(alloc, atoms, &rules[at], fired[at])? {
                return Ok(false);
            }
        }
        Ok(true)
    }

    // Whether a constraint holds.
    fn knows(&self, atoms: &Places, diff: &Diff) -> bool
        requires grid { IsGrid atoms.now self.now.rows.items }
        requires over { IsOver atoms.now diff.now }
        ensures yes { result ≡ true → bound_of atoms.now (entry self.now.rows.items) diff.now ≤ℤ diff.now.c }
        ensures no { result ≡ false → diff.now.c <ℤ bound_of atoms.now (entry self.now.rows.items) diff.now }
    {
        let (x, y) = (atoms.place(&diff.a), atoms.place(&diff.b));
        entry_at(&self.rows, x, y) <= diff.c
    }

    /// Whether each of the constraints holds. It takes no memory.
    pub fn holds(&self, atoms: &Places, diffs: &[Diff]) -> bool
        requires grid { IsGrid atoms.now self.now.rows.items }
        requires over { AreOver atoms.now diffs.now }
        ensures yes { result ≡ true → Holds atoms.now (entry self.now.rows.items) diffs.now }
        ensures no { result ≡ false → Fails atoms.now (entry self.now.rows.items) diffs.now }
    {
        for diff in diffs {
            if !self.knows(atoms, diff) {
                return false;
            }
        }
        true
    }

    /// The bound that is known between two atoms. It takes no memory.
    pub fn between(&self, atoms: &Places, a: &Atom, b: &Atom) -> Option<i64>
        requires { IsGrid atoms.now self.now.rows.items }
        ensures { MatchOption result (IsUnknown atoms.now (entry self.now.rows.items) a.now b.now)
            (IsKnown atoms.now (entry self.now.rows.items) a.now b.now) }
    {
        let (x, y) = (atoms.place(a), atoms.place(b));
        if x >= atoms.len() {
            return None;
        }
        if y >= atoms.len() {
            return None;
        }
        let bound = entry_at(&self.rows, x, y);
        if bound >= FAR {
            return None;
        }
        Some(bound)
    }
}
