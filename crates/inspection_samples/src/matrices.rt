// The arrays of matrices by rows: the starts of rows, the columns of entries, the places of the diagonal,
// an empty list for the entries' values, and a value for each row.
use loop_core::arrays::Arrays;
use std::alloc::Global;
use wave_base::types::Memory;
use wave_base::words::Words;

#[derive(Drop)]
struct Lists {
    starts: Vec<i64>,
    columns: Vec<i64>,
    diagonal: Vec<i64>,
    values: Vec<i64>,
}

/// Three rows, whose columns are 0, then 0 and 1, then 1 and 2, with these values.
pub fn three_rows(alloc: Global, values: &[i64]) -> Result<Arrays, Memory> {
    let lists = Lists {
        starts: Vec::from_slice(alloc, &[0, 1, 3, 5])?,
        columns: Vec::from_slice(alloc, &[0, 0, 1, 1, 2])?,
        diagonal: Vec::from_slice(alloc, &[0, 2, 4])?,
        values: Vec::from_slice(alloc, values)?,
    };
    lists.bound(alloc, 3)
}

/// The 5-point grid of so many points a side: a row for each point, with entries at the point and at its
/// neighbours. Each row has its half as value.
pub fn grid(alloc: Global, side: u32) -> Result<Arrays, Memory> {
    let rows = side.saturating_mul(side);
    let mut lists = Lists::new(alloc)?;
    for row in 0..rows {
        lists.push_row(side, rows, row)?;
    }
    lists.bound(alloc, rows)
}

fn length(list: &Vec<i64>) -> i64 {
    i64::try_from(list.len()).unwrap_or(i64::MAX)
}

impl Lists {
    fn new(alloc: Global) -> Result<Lists, Memory> {
        let mut starts = Vec::new(alloc);
        starts.push(0)?;
        Ok(Lists {
            starts,
            columns: Vec::new(alloc),
            diagonal: Vec::new(alloc),
            values: Vec::new(alloc),
        })
    }

    fn push_row(&mut self, side: u32, rows: u32, row: u32) -> Result<(), Memory> {
        let (here, width) = (i64::from(row), i64::from(side));
        let across = row.checked_rem(side).unwrap_or(0);
        self.push_where(row >= side, here - width)?;
        self.push_where(across > 0, here - 1)?;
        let diagonal = length(&self.columns);
        self.diagonal.push(diagonal)?;
        self.push_where(true, here)?;
        self.push_where(across < side.saturating_sub(1), here + 1)?;
        self.push_where(row < rows.saturating_sub(side), here + width)?;
        self.end_row(here / 2)
    }

    fn push_where(&mut self, is_there: bool, column: i64) -> Result<(), Memory> {
        if is_there {
            self.columns.push(column)?;
        }
        Ok(())
    }

    fn end_row(&mut self, value: i64) -> Result<(), Memory> {
        let end = length(&self.columns);
        self.starts.push(end)?;
        self.values.push(value)?;
        Ok(())
    }

    fn bound(self, alloc: Global, rows: u32) -> Result<Arrays, Memory> {
        let Lists {
            starts,
            columns,
            diagonal,
            values,
        } = self;
        let stored = u32::try_from(columns.len()).unwrap_or(u32::MAX);
        let mut lists = Vec::new(alloc);
        for list in [starts, columns, diagonal, Vec::new(alloc), values] {
            lists.push(Words::from_vec(list))?;
        }
        Ok(Arrays::of(rows, stored, lists))
    }
}
