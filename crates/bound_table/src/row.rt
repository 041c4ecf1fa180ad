// Rows of bounds, and the marks beside them.
ghost use Rattle.std.specs.Prelude.{◌≡◌, ◌<◌, ◌≤◌, ℕ, length, slice_index_or, ◌+ℤ◌, ◌≤ℤ◌, IfOk, cond};
ghost use Rattle.std.specs.Int.Signed.{◌<ℤ◌, lt_z};
ghost use Rattle.bound_table.specs.Rows.{far, cell, step, Range, Within, lowered, unit_bound, AreMarked, mark_of};

use std::alloc::Global;
use std::marker::Model;
use wave_base::types::Memory;

/// The entry of a pair of which no bound is known. Bounds stay below 2^30.
pub const FAR: i64 = 1_099_511_627_776;

/// A row of bounds, which contracts see as a list.
#[derive(Drop)]
pub struct Row {
    cells: Vec<i64>,
}

impl Model for Row {
    ghost use Rattle.std.specs.Prelude.{List, ℤ};

    ghost Value = { List ℤ };

    ghost view = { λ r. r.cells.items };
}

impl Row {
    /// A row in which only the bound at one place is known, and is 0.
    pub fn new(alloc: Global, size: usize, at: usize) -> Result<Row, Memory>
        ensures len { IfOk result (λ r. length r ≡ size) }
        ensures each { IfOk result (λ r. (y : ℕ) → y < size → cell r y ≡ unit_bound at y) }
    {
        let mut cells = vec![in alloc; FAR; size]?;
        if at < size {
            cells[at] = 0;
        }
        Ok(Row { cells })
    }

    /// The bound at a place, or `FAR`. It takes no memory.
    pub fn get(&self, at: usize) -> i64
        ensures { result ≡ cell self.now at }
    {
        cell_at(&self.cells, at)
    }

    /// An equal row.
    pub fn copy(&self, alloc: Global) -> Result<Row, Memory>
        ensures { IfOk result (λ r. r ≡ self.now) }
    {
        let cells = Vec::from_slice(alloc, &self.cells)?;
        Ok(Row { cells })
    }

    /// The row in which each bound is lowered to the one by way of the bound at `a`, a constraint with
    /// right side `c` and a row of further bounds.
    pub fn by_way(&self, alloc: Global, a: usize, from: &Row, c: i64) -> Result<Row, Memory>
        requires same { length self.now ≡ length from.now }
        requires few { Within 8388608 c }
        requires small { (y : ℕ) → y < length from.now → cell from.now y <ℤ far → Range (cell from.now y) }
        requires start { cell self.now a <ℤ far → Range (cell self.now a) }
        ensures len { IfOk result (λ r. length r ≡ length self.now) }
        ensures each { IfOk result (λ r. (y : ℕ) → y < length self.now → cell r y ≡ lowered a from.now c self.now y) }
    {
        let cells = cells_by_way(alloc, &self.cells, a, &from.cells, c)?;
        Ok(Row { cells })
    }

    /// Lowers each bound to the one by way of the bound at `a`, a constraint with right side `c`
    /// and a row of further bounds, and marks what it lowers.
    pub fn improve(&mut self, marks: &mut Marks, a: usize, from: &Row, c: i64, edge: usize)
        requires marks { length marks.old ≡ length from.now }
        requires same { length self.old ≡ length from.now }
        requires few { Within 8388608 c }
        requires small { (y : ℕ) → y < length from.now → cell from.now y <ℤ far → Range (cell from.now y) }
        requires start { cell self.old a <ℤ far → Range (cell self.old a) }
        ensures len { length self.new ≡ length self.old }
        ensures each { (y : ℕ) → y < length self.old → cell self.new y ≡ lowered a from.now c self.old y }
        ensures marks_len { length marks.new ≡ length marks.old }
        ensures marked { AreMarked (length self.old) edge self.old self.new marks.old marks.new }
    {
        improve_from(&mut self.cells, &mut marks.numbers, a, &from.cells, c, edge);
    }
}

/// The numbers of the edges that tightened the bounds of a row last, which contracts see as a list.
#[derive(Drop)]
pub struct Marks {
    numbers: Vec<usize>,
}

impl Model for Marks {
    ghost use Rattle.std.specs.Prelude.{List, ℕ};

    ghost Value = { List ℕ };

    ghost view = { λ m. m.numbers.items };
}

impl Marks {
    /// Marks of no edge.
    pub fn new(alloc: Global, size: usize) -> Result<Marks, Memory>
        ensures len { IfOk result (λ m. length m ≡ size) }
        ensures each { IfOk result (λ m. (y : ℕ) → y < size → slice_index_or m y 0 ≡ 0) }
    {
        let numbers = vec![in alloc; 0; size]?;
        Ok(Marks { numbers })
    }

    /// Equal marks.
    pub fn copy(&self, alloc: Global) -> Result<Marks, Memory>
        ensures { IfOk result (λ m. m ≡ self.now) }
    {
        let numbers = Vec::from_slice(alloc, &self.numbers)?;
        Ok(Marks { numbers })
    }

    /// The mark at a place, or 0. It takes no memory.
    pub fn get(&self, at: usize) -> usize
        ensures { result ≡ slice_index_or self.now at 0 }
    {
        if at < self.numbers.len() {
            self.numbers[at]
        } else {
            0
        }
    }
}

fn cell_at(cells: &[i64], at: usize) -> i64
    ensures { result ≡ cell cells.now at }
{
    if at < cells.len() { cells[at] } else { FAR }
}

// The lower of a bound and the one by way of a new constraint.
fn improved(old: i64, from: i64, start: i64) -> i64
    requires start { Within 4294967296 start }
    requires small { from <ℤ far → Range from }
    ensures { result ≡ step start from old }
{
    if from < FAR {
        let sum = start + from;
        if sum < old { sum } else { old }
    } else {
        old
    }
}

fn improve_from(cells: &mut [i64], marks: &mut [usize], a: usize, from: &[i64], c: i64, edge: usize)
    requires marks { length marks.old ≡ length from.now }
    requires same { length cells.old ≡ length from.now }
    requires few { Within 8388608 c }
    requires small { (y : ℕ) → y < length from.now → cell from.now y <ℤ far → Range (cell from.now y) }
    requires start { cell cells.old a <ℤ far → Range (cell cells.old a) }
    ensures len { length cells.new ≡ length cells.old }
    ensures each { (y : ℕ) → y < length cells.old → cell cells.new y ≡ lowered a from.now c cells.old y }
    ensures marks_len { length marks.new ≡ length marks.old }
    ensures marked { AreMarked (length cells.old) edge cells.old cells.new marks.old marks.new }
{
    let start = cell_at(cells, a);
    if start < FAR {
        improve_cells(cells, marks, from, start + c, edge);
    }
}

fn improve_cells(cells: &mut [i64], marks: &mut [usize], from: &[i64], start: i64, edge: usize)
    requires marks { length marks.old ≡ length from.now }
    requires same { length cells.old ≡ length from.now }
    requires start { Within 4294967296 start }
    requires small { (y : ℕ) → y < length from.now → cell from.now y <ℤ far → Range (cell from.now y) }
    ensures len { length cells.new ≡ length cells.old }
    ensures each { (y : ℕ) → y < length cells.old → cell cells.new y ≡ step start (cell from.now y) (cell cells.old y) }
    ensures marks_len { length marks.new ≡ length marks.old }
    ensures marked { AreMarked (length cells.old) edge cells.old cells.new marks.old marks.new }
{
    for y in 0..from.len() {
        let old = cells[y];
        let new = improved(old, from[y], start);
        marks[y] = marked(old, new, marks[y], edge);
        cells[y] = new;
    }
}

// The mark of a bound: the new edge where it was lowered.
fn marked(old: i64, new: i64, mark: usize, edge: usize) -> usize
    ensures { result ≡ mark_of old new mark edge }
{
    if new < old { edge } else { mark }
}

// The lower of a bound and the one by way of another, a constraint and a further bound.
fn lower_of(start: i64, c: i64, from: i64, old: i64) -> i64
    requires few { Within 8388608 c }
    requires start { start <ℤ far → Range start }
    requires small { from <ℤ far → Range from }
    ensures { result ≡ cond (lt_z start far) (step (start +ℤ c) from old) old }
{
    if start < FAR {
        improved(old, from, start + c)
    } else {
        old
    }
}

fn cells_by_way(
    alloc: Global,
    cells: &[i64],
    a: usize,
    from: &[i64],
    c: i64,
) -> Result<Vec<i64>, Memory>
    requires same { length cells.now ≡ length from.now }
    requires few { Within 8388608 c }
    requires small { (y : ℕ) → y < length from.now → cell from.now y <ℤ far → Range (cell from.now y) }
    requires start { cell cells.now a <ℤ far → Range (cell cells.now a) }
    ensures len { IfOk result (λ v. length v.items ≡ length cells.now) }
    ensures each { IfOk result (λ v. (y : ℕ) → y < length cells.now → cell v.items y ≡ lowered a from.now c cells.now y) }
{
    let mut new = Vec::new(alloc);
    for y in 0..cells.len() {
        new.push(lower_of(cell_at(cells, a), c, cell_at(from, y), cell_at(cells, y)))?;
    }
    Ok(new)
}
