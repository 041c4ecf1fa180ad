// What one row adds to the arrays.
ghost use Rattle.std.specs.Prelude.{◌≡◌, ℕ, List, ◌+◌, ◌<◌, ◌≤◌, ◌++◌, [], ◌∷◌, if◌then◌else◌, nat_le, true, length, drop, map, pos, None, OnOk};
ghost use Rattle.std.specs.List.{All, position_or_len};
ghost use Rattle.csr_arrays.specs.Rows.{IsAscending, added, is_last, row_columns, run, sum_in};

use wave_base::types::Memory;
use wave_base::w64;
use wave_base::words::Words;

/// Whether no column falls.
fn is_ascending(cells: &[(u32, i64)]) -> bool
    ensures { result ≡ true → IsAscending cells.now }
{
    let mut last = 0;
    for (column, _) in cells {
        if *column < last {
            return false;
        }
        last = *column;
    }
    true
}

fn is_last(last: Option<u32>, column: u32) -> bool
    ensures { result ≡ is_last last column }
{
    match last {
        Some(before) => column == before,
        None => false,
    }
}

/// Adds to the last number, modulo 2^64. Without one nothing changes.
#[inline(always)]
fn add_to_last(val: &mut Words, value: i64)
    ensures { val.new ≡ added val.old value }
{
    let len = val.len();
    if 0 < len {
        val.set(len - 1, w64::add(val.get(len - 1), value));
    }
}

/// One more cell: its value goes to the last stored place, or to a new one that begins with 0.
#[inline(always)]
fn put(
    index: &mut Words,
    val: &mut Words,
    again: bool,
    column: u32,
    value: i64,
) -> Result<(), Memory>
    ensures index { OnOk result (index.new ≡ (if again then index.old else index.old ++ pos column ∷ [])) }
    ensures val { OnOk result (val.new ≡ added (if again then val.old else val.old ++ pos 0 ∷ []) value) }
    ensures few { OnOk result (length index.new ≤ length index.old + 1) }
    ensures grows { OnOk result (length index.old ≤ length index.new) }
{
    if again {
        add_to_last(val, value);
        return Ok(());
    }
    index.push(i64::from(column))?;
    val.push(0)?;
    add_to_last(val, value);
    Ok(())
}

/// The stored places of a row whose cells ascend.
fn put_ascending(cells: &[(u32, i64)], index: &mut Words, val: &mut Words) -> Result<(), Memory>
    ensures run { OnOk result (run cells.now index.old val.old None ≡ (index.new, val.new)) }
    ensures few { OnOk result (length index.new ≤ length index.old + length cells.now) }
    ensures grows { OnOk result (length index.old ≤ length index.new) }
{
    let mut last = None;
    for (column, value) in cells {
        put(index, val, is_last(last, *column), *column, *value)?;
        last = Some(*column);
    }
    Ok(())
}

/// The stored places of a row. A row whose cells don't ascend is sorted in the spare list first.
pub fn put_row(
    cells: &[(u32, i64)],
    spare: &mut Vec<(u32, i64)>,
    index: &mut Words,
    val: &mut Words,
) -> Result<(), Memory>
    ensures places { OnOk result ((n : ℕ) → All (λ e. e.0 < n) cells.now
        → (index.new ≡ index.old ++ map pos (row_columns n cells.now)) × (val.new ≡ val.old ++ map (sum_in cells.now) (row_columns n cells.now))) }
    ensures few { OnOk result (length index.new ≤ length index.old + length cells.now) }
    ensures grows { OnOk result (length index.old ≤ length index.new) }
{
    if is_ascending(cells) {
        return put_ascending(cells, index, val);
    }
    spare.clear();
    spare.extend_from_slice(cells)?;
    spare.sort_by_key(|cell| cell.0)?;
    put_ascending(spare.as_slice(), index, val)
}

/// The first place whose number is at least a row's, or the length.
fn first_from(row: u32, columns: &[i64]) -> usize
    ensures first { (cs : List ℕ) → columns.now ≡ map pos cs → result ≡ position_or_len (λ c. nat_le row c) cs }
    ensures within { result ≤ length columns.now }
{
    for (at, column) in columns.iter().enumerate() {
        if i64::from(row) <= *column {
            return at;
        }
    }
    columns.len()
}

/// Where the diagonal of a row stands, or would stand: the row's places begin at `start`.
pub fn diagonal_of(row: u32, index: &Words, start: usize) -> usize
    requires { start ≤ length index.now }
    ensures first { (cs : List ℕ) → drop start index.now ≡ map pos cs → result ≡ start + position_or_len (λ c. nat_le row c) cs }
    ensures within { result ≤ length index.now }
{
    let (_, columns) = index.as_slice().split_at(start);
    start + first_from(row, columns)
}
