// Many entries of one array.
use crate::atoms::{entry, variable};
use crate::system::{PTR, System};
use loop_core::nest::{Atom, Side};
use std::alloc::Global;
use wave_base::types::Memory;

/// 0 <= a.ptr[i + k] for each k below a number: that many entries, beside 0, n, nnz and i.
pub fn many_entries(alloc: Global, entries: i64) -> Result<System, Memory> {
    let mut system = System::new(alloc)?;
    for plus in 0..entries {
        let row = variable(9, Side::Own);
        system.push(Atom::Zero, entry(alloc, PTR, row, plus)?, 0)?;
    }
    Ok(system)
}
