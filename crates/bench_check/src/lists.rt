// Lists whose entries follow from their places.
ghost use Rattle.std.specs.Prelude.{◌≡◌, length, IfOk};

use std::alloc::Global;
use wave_base::types::Memory;
use wave_base::words::Words;

/// What the entry at a place is.
#[derive(Clone, Copy, Drop)]
pub enum Entry {
    /// The place.
    Place,
    /// Always this.
    Same(i64),
    /// 0 at even places, and this at odd ones.
    AtOdd(i64),
    /// The place times an odd number, modulo 2^64: no two are equal.
    Scrambled,
}

fn entry_at(entry: Entry, place: u64) -> i64 {
    match entry {
        Entry::Place => place.cast_signed(),
        Entry::Same(value) => value,
        Entry::AtOdd(value) => { if place % 2 == 0 { 0 } else { value } }
        Entry::Scrambled => place.wrapping_mul(11400714819323198485).cast_signed(),
    }
}

/// A list of so many such entries.
pub fn list_of(alloc: Global, entry: Entry, many: u64) -> Result<Words, Memory>
    ensures { IfOk result (λ list. length list ≡ many) }
{
    let mut list = Vec::new(alloc);
    for place in 0..many {
        list.push(entry_at(entry, place))?;
    }
    Ok(Words::from_vec(list))
}
