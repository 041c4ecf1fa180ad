// The table of least bounds.
ghost use Rattle.std.specs.Prelude.{◌≡◌, ◌<◌, ◌≤◌, ◌++◌, ◌∷◌, ℕ, length, pos, ◌+ℤ◌, ◌≤ℤ◌, slice_index_or, [], IfOk, OnOk, MatchOption, true, false};
ghost use Rattle.std.specs.Int.Signed.{◌<ℤ◌};
ghost use Rattle.bound_table.specs.Rows.{far, cell, entry, Range, Within, lowered, IsTable, Adds, unit_bound, AreMarked, IsMarks, AllMarked};
ghost use Rattle.bound_table.specs.Marks.{GoesBy, IsTraced, no_edge, mark_at};

use crate::edge::Edge;
use crate::row::{FAR, Marks, Row};
use std::alloc::Global;
use wave_base::types::Memory;

/// Least bounds between places, the mark of each, and the edges that the marks count. Edge 0 is none.
#[derive(Drop)]
pub struct Table {
    pub rows: Vec<Row>,
    pub marks: Vec<Marks>,
    pub edges: Vec<Edge>,
}

impl Table {
    /// A table in which only `x - x <= 0` is known.
    pub fn new(alloc: Global, size: usize) -> Result<Table, Memory>
        requires { size ≤ 96 }
        ensures len { IfOk result (λ t. length t.rows.items ≡ size) }
        ensures each { IfOk result (λ t. (x y : ℕ) → x < size → y < size → entry t.rows.items x y ≡ unit_bound x y) }
        ensures edges { IfOk result (λ t. t.edges.items ≡ no_edge ∷ []) }
        ensures traced { IfOk result (λ t. IsTraced t.rows.items t.marks.items t.edges.items) }
    {
        let rows = new_rows(alloc, size)?;
        let marks = new_marks(alloc, size)?;
        let edges = new_edges(alloc)?;
        Ok(Table { rows, marks, edges })
    }

    /// The least bound that is known, or `FAR`. It takes no memory.
    pub fn get(&self, x: usize, y: usize) -> i64
        requires { x < length self.now.rows.items }
        ensures { result ≡ entry self.now.rows.items x y }
    {
        self.rows[x].get(y)
    }

    /// The edge by way of which a known bound goes, and none for that of a place to itself. It takes
    /// no memory.
    pub fn edge_over(&self, x: usize, y: usize) -> Option<Edge>
        requires traced { IsTraced self.now.rows.items self.now.marks.items self.now.edges.items }
        requires x { x < length self.now.rows.items }
        requires y { y < length self.now.rows.items }
        requires known { entry self.now.rows.items x y <ℤ far }
        ensures { MatchOption result (x ≡ y) (GoesBy self.now.rows.items self.now.marks.items self.now.edges.items x y) }
    {
        let mark = self.marks[x].get(y);
        if mark == 0 {
            return None;
        }
        Some(self.edges[mark])
    }

    /// Whether the bound of a pair was lowered by an edge from that number on. It takes no memory.
    pub fn was_lowered(&self, x: usize, y: usize, since: usize) -> bool
        requires { x < length self.now.marks.items }
        ensures yes { result ≡ true → since ≤ mark_at self.now.marks.items x y }
        ensures no { result ≡ false → mark_at self.now.marks.items x y < since }
    {
        since <= self.marks[x].get(y)
    }

    /// An equal table.
    pub fn copy(&self, alloc: Global) -> Result<Table, Memory>
        ensures rows { IfOk result (λ t. t.rows.items ≡ self.now.rows.items) }
        ensures marks { IfOk result (λ t. t.marks.items ≡ self.now.marks.items) }
        ensures edges { IfOk result (λ t. t.edges.items ≡ self.now.edges.items) }
    {
        let rows = copy_rows(alloc, &self.rows)?;
        let marks = copy_marks(alloc, &self.marks)?;
        let edges = Vec::from_slice(alloc, &self.edges)?;
        Ok(Table { rows, marks, edges })
    }

    /// Whether `a - b <= c` contradicts what is known. It takes no memory.
    pub fn refuses(&self, a: usize, b: usize, c: i64) -> bool
        requires table { IsTable self.now.rows.items }
        requires a { a < length self.now.rows.items }
        requires b { b < length self.now.rows.items }
        requires few { Within 8388608 c }
        ensures yes { result ≡ true → (entry self.now.rows.items b a <ℤ far) × ((entry self.now.rows.items b a +ℤ c) <ℤ pos 0) }
        ensures no { result ≡ false → entry self.now.rows.items b a <ℤ far → pos 0 ≤ℤ (entry self.now.rows.items b a +ℤ c) }
    {
        contradicts(&self.rows, a, b, c)
    }

    /// Adds a constraint that doesn't contradict what is known.
    pub fn add(&mut self, alloc: Global, edge: Edge) -> Result<(), Memory>
        requires traced { IsTraced self.old.rows.items self.old.marks.items self.old.edges.items }
        requires a { edge.a < length self.old.rows.items }
        requires b { edge.b < length self.old.rows.items }
        requires few { Within 8388608 edge.c }
        requires fits { entry self.old.rows.items edge.b edge.a <ℤ far → pos 0 ≤ℤ (entry self.old.rows.items edge.b edge.a +ℤ edge.c) }
        ensures long { OnOk result (length self.new.rows.items ≡ length self.old.rows.items) }
        ensures adds { OnOk result (Adds (length self.old.rows.items) (entry self.old.rows.items) edge.a edge.b edge.c (entry self.new.rows.items)) }
        ensures edges { OnOk result (self.new.edges.items ≡ self.old.edges.items ++ edge ∷ []) }
        ensures marked { OnOk result (AllMarked (length self.old.rows.items) (length self.old.edges.items) self.old.rows.items self.new.rows.items self.old.marks.items self.new.marks.items) }
        ensures traced { OnOk result (IsTraced self.new.rows.items self.new.marks.items self.new.edges.items) }
    {
        let from = self.rows[edge.b].copy(alloc)?;
        let number = self.edges.len();
        self.edges.push(edge)?;
        tighten(
            &mut self.rows,
            &mut self.marks,
            &from,
            edge.a,
            edge.b,
            edge.c,
            number,
        );
        Ok(())
    }
}

/// Rows in which only `x - x <= 0` is known.
pub fn new_rows(alloc: Global, size: usize) -> Result<Vec<Row>, Memory>
    requires { size ≤ 96 }
    ensures len { IfOk result (λ t. length t.items ≡ size) }
    ensures each { IfOk result (λ t. (x y : ℕ) → x < size → y < size → entry t.items x y ≡ unit_bound x y) }
    ensures table { IfOk result (λ t. IsTable t.items) }
{
    let mut rows = Vec::new(alloc);
    for at in 0..size {
        rows.push(Row::new(alloc, size, at)?)?;
    }
    Ok(rows)
}

fn copy_rows(alloc: Global, rows: &[Row]) -> Result<Vec<Row>, Memory>
    ensures { IfOk result (λ v. v.items ≡ rows.now) }
{
    let mut copy = Vec::with_capacity(alloc, rows.len())?;
    for row in rows {
        copy.push(row.copy(alloc)?)?;
    }
    Ok(copy)
}

fn copy_marks(alloc: Global, marks: &[Marks]) -> Result<Vec<Marks>, Memory>
    ensures { IfOk result (λ v. v.items ≡ marks.now) }
{
    let mut copy = Vec::with_capacity(alloc, marks.len())?;
    for row in marks {
        copy.push(row.copy(alloc)?)?;
    }
    Ok(copy)
}

fn new_marks(alloc: Global, size: usize) -> Result<Vec<Marks>, Memory>
    ensures shape { IfOk result (λ v. IsMarks size v.items) }
    ensures each { IfOk result (λ v. (x y : ℕ) → x < size → y < size → slice_index_or (slice_index_or v.items x []) y 0 ≡ 0) }
{
    let mut marks = Vec::new(alloc);
    for _ in 0..size {
        marks.push(Marks::new(alloc, size)?)?;
    }
    Ok(marks)
}

fn new_edges(alloc: Global) -> Result<Vec<Edge>, Memory>
    ensures { IfOk result (λ v. v.items ≡ no_edge ∷ []) }
{
    let mut edges = Vec::new(alloc);
    edges.push(Edge {
        a: 0,
        b: 0,
        c: 0,
        step: 0,
    })?;
    Ok(edges)
}

/// The bound of a pair of places, or `FAR`. It takes no memory.
pub fn entry_at(rows: &[Row], x: usize, y: usize) -> i64
    requires { x < length rows.now }
    ensures { result ≡ entry rows.now x y }
{
    rows[x].get(y)
}

/// Whether `a - b <= c` contradicts what rows know. It takes no memory.
pub fn contradicts(rows: &[Row], a: usize, b: usize, c: i64) -> bool
    requires table { IsTable rows.now }
    requires a { a < length rows.now }
    requires b { b < length rows.now }
    requires few { Within 8388608 c }
    ensures yes { result ≡ true → (entry rows.now b a <ℤ far) × ((entry rows.now b a +ℤ c) <ℤ pos 0) }
    ensures no { result ≡ false → entry rows.now b a <ℤ far → pos 0 ≤ℤ (entry rows.now b a +ℤ c) }
{
    sums_below_zero(entry_at(rows, b, a), c)
}

// Whether a bound and a constraint the other way round add up to less than nothing.
fn sums_below_zero(back: i64, c: i64) -> bool
    requires few { Within 8388608 c }
    requires small { back <ℤ far → Range back }
    ensures yes { result ≡ true → (back <ℤ far) × ((back +ℤ c) <ℤ pos 0) }
    ensures no { result ≡ false → back <ℤ far → pos 0 ≤ℤ (back +ℤ c) }
{
    if back < FAR { back + c < 0 } else { false }
}

fn tighten(
    rows: &mut [Row],
    marks: &mut [Marks],
    from: &Row,
    a: usize,
    b: usize,
    c: i64,
    edge: usize,
)
    requires marks { IsMarks (length rows.old) marks.old }
    requires table { IsTable rows.old }
    requires a { a < length rows.old }
    requires b { b < length rows.old }
    requires from { from.now ≡ slice_index_or rows.old b [] }
    requires few { Within 8388608 c }
    requires fits { entry rows.old b a <ℤ far → pos 0 ≤ℤ (entry rows.old b a +ℤ c) }
    ensures long { length rows.new ≡ length rows.old }
    ensures adds { Adds (length rows.old) (entry rows.old) a b c (entry rows.new) }
    ensures table { IsTable rows.new }
    ensures marks { IsMarks (length rows.old) marks.new }
    ensures marked { AllMarked (length rows.old) edge rows.old rows.new marks.old marks.new }
{
    improve_rows(rows, marks, a, from, c, edge);
}

fn improve_rows(rows: &mut [Row], marks: &mut [Marks], a: usize, from: &Row, c: i64, edge: usize)
    requires square { length rows.old ≡ length from.now }
    requires marks { IsMarks (length rows.old) marks.old }
    requires wide { (x : ℕ) → x < length rows.old → length (slice_index_or rows.old x []) ≡ length from.now }
    requires few { Within 8388608 c }
    requires small { (y : ℕ) → y < length from.now → cell from.now y <ℤ far → Range (cell from.now y) }
    requires start { (x : ℕ) → x < length rows.old → entry rows.old x a <ℤ far → Range (entry rows.old x a) }
    ensures long { length rows.new ≡ length rows.old }
    ensures wide { (x : ℕ) → x < length rows.old → length (slice_index_or rows.new x []) ≡ length from.now }
    ensures each { (x y : ℕ) → x < length rows.old → y < length from.now → entry rows.new x y ≡ lowered a from.now c (slice_index_or rows.old x []) y }
    ensures marks { IsMarks (length rows.old) marks.new }
    ensures marked { AllMarked (length rows.old) edge rows.old rows.new marks.old marks.new }
{
    for x in 0..rows.len() {
        rows[x].improve(&mut marks[x], a, from, c, edge);
    }
}
