// A plain second body of `Table::add`: new rows, without marks.
ghost use Rattle.std.specs.Prelude.{◌≡◌, ◌<◌, ◌+ℤ◌, ◌≤ℤ◌, [], ℕ, length, pos, IfOk, slice_index_or};
ghost use Rattle.std.specs.Int.Signed.{◌<ℤ◌};
ghost use Rattle.bound_table.specs.Rows.{far, cell, entry, Range, Within, lowered, IsTable, Adds};

use crate::row::Row;
use std::alloc::Global;
use wave_base::types::Memory;

/// The rows with a constraint added: the lower of each bound and the one by way of the constraint.
pub fn through(alloc: Global, rows: &[Row], a: usize, b: usize, c: i64) -> Result<Vec<Row>, Memory>
    requires table { IsTable rows.now }
    requires a { a < length rows.now }
    requires b { b < length rows.now }
    requires few { Within 8388608 c }
    requires fits { entry rows.now b a <ℤ far → pos 0 ≤ℤ (entry rows.now b a +ℤ c) }
    ensures long { IfOk result (λ new. length new.items ≡ length rows.now) }
    ensures adds { IfOk result (λ new. Adds (length rows.now) (entry rows.now) a b c (entry new.items)) }
    ensures table { IfOk result (λ new. IsTable new.items) }
{
    all_by_way(alloc, rows, a, &rows[b], c)
}

fn all_by_way(alloc: Global, rows: &[Row], a: usize, from: &Row, c: i64) -> Result<Vec<Row>, Memory>
    requires wide { (x : ℕ) → x < length rows.now → length (slice_index_or rows.now x []) ≡ length from.now }
    requires few { Within 8388608 c }
    requires small { (y : ℕ) → y < length from.now → cell from.now y <ℤ far → Range (cell from.now y) }
    requires start { (x : ℕ) → x < length rows.now → entry rows.now x a <ℤ far → Range (entry rows.now x a) }
    ensures long { IfOk result (λ new. length new.items ≡ length rows.now) }
    ensures wide { IfOk result (λ new. (x : ℕ) → x < length rows.now → length (slice_index_or new.items x []) ≡ length from.now) }
    ensures each { IfOk result (λ new. (x y : ℕ) → x < length rows.now → y < length from.now
        → entry new.items x y ≡ lowered a from.now c (slice_index_or rows.now x []) y) }
{
    let mut new = Vec::new(alloc);
    for x in 0..rows.len() {
        new.push(rows[x].by_way(alloc, a, from, c)?)?;
    }
    Ok(new)
}
