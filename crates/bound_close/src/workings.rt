// The table and the steps beside it, and how they take in one constraint.
ghost use Rattle.std.specs.Prelude.{◌≡◌, ◌<◌, ◌≤◌, ◌+ℤ◌, ◌≤ℤ◌, ◌∷◌, [], ℕ, length, pos, true, false, IfOk, OnOk, List, Some};
ghost use Rattle.std.specs.Int.Signed.{◌<ℤ◌};

use bound_table::edge::Edge;
use bound_table::table::Table;
use bound_ways::copy::copy_steps;
use bound_ways::places::Places;
use bound_ways::push::push_step;
use bound_ways::way::refute;
use index_props::certificate::Step;
use sqlite_items::Items;
use std::alloc::Global;
use uf_constraints::system::Diff;
use wave_base::types::Memory;

/// A table of bounds, and the steps that give the constraints that tightened it.
#[derive(Drop)]
pub struct Workings {
    pub table: Table,
    pub steps: Items<Step>,
}

impl Workings {
    ghost use Rattle.index_props.specs.declared.certificate.Step.TheVariants.{Base, Rule};
    ghost use Rattle.bound_ways.specs.Exact.{bound_of};
    ghost use Rattle.bound_table.specs.Marks.{no_edge};
    ghost use Rattle.bound_ways.specs.Over.{IsOver};
    ghost use Rattle.bound_table.specs.Rows.{unit_bound};
    ghost use Rattle.bound_close.specs.Workings.{bounds, IsFine, Grown, Clashes};

    /// A table for so many atoms in which nothing is known, without steps.
    pub fn new(alloc: Global, atoms: &Places) -> Result<Workings, Memory>
        requires { length atoms.now ≤ 96 }
        ensures fine { IfOk result (IsFine atoms.now) }
        ensures each { IfOk result (λ w. (x y : ℕ) → x < length atoms.now → y < length atoms.now → bounds w x y ≡ unit_bound x y) }
        ensures edges { IfOk result (λ w. w.table.edges.items ≡ no_edge ∷ []) }
        ensures steps { IfOk result (λ w. w.steps ≡ []) }
    {
        let table = Table::new(alloc, atoms.len())?;
        let steps = Items::new(alloc);
        Ok(Workings { table, steps })
    }

    /// Equal workings.
    pub fn copy(&self, alloc: Global) -> Result<Workings, Memory>
        ensures rows { IfOk result (λ w. w.table.rows.items ≡ self.now.table.rows.items) }
        ensures marks { IfOk result (λ w. w.table.marks.items ≡ self.now.table.marks.items) }
        ensures edges { IfOk result (λ w. w.table.edges.items ≡ self.now.table.edges.items) }
        ensures steps { IfOk result (λ w. w.steps ≡ self.now.steps) }
    {
        let table = self.table.copy(alloc)?;
        let steps = copy_steps(alloc, self.steps.as_slice())?;
        Ok(Workings { table, steps })
    }

    /// Whether a constraint holds in the table. It takes no memory.
    pub fn knows(&self, atoms: &Places, diff: &Diff) -> bool
        requires fine { IsFine atoms.now self.now }
        requires over { IsOver atoms.now diff.now }
        ensures yes { result ≡ true → bound_of atoms.now (bounds self.now) diff.now ≤ℤ diff.now.c }
        ensures no { result ≡ false → diff.now.c <ℤ bound_of atoms.now (bounds self.now) diff.now }
    {
        let (x, y) = (atoms.place(&diff.a), atoms.place(&diff.b));
        self.table.get(x, y) <= diff.c
    }

    /// Takes in a constraint that the step gives; false where it contradicts what is known, and then
    /// the last step gives `a - a <= -1`.
    pub fn add(
        &mut self,
        alloc: Global,
        atoms: &Places,
        diff: &Diff,
        step: Step,
    ) -> Result<bool, Memory>
        requires fine { IsFine atoms.now self.old }
        requires over { IsOver atoms.now diff.now }
        ensures grown { IfOk result (λ fine. fine ≡ true → Grown atoms.now self.old self.new diff.now step) }
        ensures clashes { IfOk result (λ fine. fine ≡ false → Clashes atoms.now self.old self.new diff.now step) }
    {
        let (a, b) = (atoms.place(&diff.a), atoms.place(&diff.b));
        let at = push_step(step, &mut self.steps)?;
        let edge = Edge {
            a,
            b,
            c: diff.c,
            step: at,
        };
        if self.table.refuses(a, b, diff.c) {
            refute(alloc, atoms, &self.table, &edge, &mut self.steps)?;
            return Ok(false);
        }
        self.table.add(alloc, edge)?;
        Ok(true)
    }

    /// Takes in the constraint of a base with that number.
    pub fn add_given(
        &mut self,
        alloc: Global,
        atoms: &Places,
        given: &Diff,
        at: usize,
    ) -> Result<bool, Memory>
        requires fine { IsFine atoms.now self.old }
        requires over { IsOver atoms.now given.now }
        ensures grown { IfOk result (λ fine. fine ≡ true → Grown atoms.now self.old self.new given.now (Base at)) }
        ensures clashes { IfOk result (λ fine. fine ≡ false → Clashes atoms.now self.old self.new given.now (Base at)) }
    {
        if self.knows(atoms, given) {
            return Ok(true);
        }
        self.add(alloc, atoms, given, Step::Base(at as u64))
    }

    /// Takes in a result of an instance, by steps that give its premises.
    pub fn add_result(
        &mut self,
        alloc: Global,
        atoms: &Places,
        outcome: &Diff,
        rule: usize,
        at: usize,
        places: &[u64],
    ) -> Result<bool, Memory>
        requires fine { IsFine atoms.now self.old }
        requires over { IsOver atoms.now outcome.now }
        ensures grown { IfOk result (λ fine. fine ≡ true → Grown atoms.now self.old self.new outcome.now (Rule rule at places.now)) }
        ensures clashes { IfOk result (λ fine. fine ≡ false → Clashes atoms.now self.old self.new outcome.now (Rule rule at places.now)) }
    {
        if self.knows(atoms, outcome) {
            return Ok(true);
        }
        let places = Items::from_slice(alloc, places)?;
        self.add(
            alloc,
            atoms,
            outcome,
            Step::Rule(rule as u64, at as u64, places),
        )
    }
}
