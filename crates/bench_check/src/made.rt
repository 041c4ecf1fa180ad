// Arrays with properties that they have: of segments that overlap, and of distinct entries.
ghost use Rattle.std.specs.Prelude.{◌≡◌, IfOk};

use crate::lists::{Entry, list_of};
use loop_core::arrays::Arrays;
use loop_core::decl::{PropDecl, PropKind};
use std::alloc::Global;
use wave_base::types::{ArrayId, Memory};

const FIRST: ArrayId = ArrayId(0);

const SECOND: ArrayId = ArrayId(1);

/// Arrays, and what is declared of them.
#[derive(Drop)]
pub struct Made {
    pub arrays: Arrays,
    pub props: Vec<PropDecl>,
}

/// The properties that speak of segments.
#[derive(Clone, Copy, Drop)]
pub enum Kind {
    Sorted,
    Below,
    Upto,
}

fn entry_of(kind: Kind) -> Entry {
    match kind {
        Kind::Sorted => Entry::Place,
        Kind::Below => Entry::Same(-1),
        Kind::Upto => Entry::Same(0),
    }
}

fn prop_of(kind: Kind) -> PropKind {
    match kind {
        Kind::Sorted => PropKind::Sorted(FIRST, SECOND),
        Kind::Below => PropKind::Below(FIRST, SECOND),
        Kind::Upto => PropKind::Upto(FIRST, SECOND),
    }
}

fn one(alloc: Global, kind: PropKind) -> Result<Vec<PropDecl>, Memory> {
    let mut props = Vec::new(alloc);
    props.push(PropDecl { line: 1, kind })?;
    Ok(props)
}

/// A list of eight entries for each row, of which every second row has all in its segment.
pub fn overlap(alloc: Global, kind: Kind, rows: u32) -> Result<Made, Memory>
    ensures { IfOk result (λ made. made.arrays.n ≡ rows) }
{
    let stored = u64::from(rows) * 8;
    let by = Entry::AtOdd(stored.cast_signed());
    let mut lists = Vec::new(alloc);
    lists.push(list_of(alloc, entry_of(kind), stored)?)?;
    lists.push(list_of(alloc, by, u64::from(rows) + 1)?)?;
    Ok(Made {
        arrays: Arrays::of(rows, rows.saturating_mul(8), lists),
        props: one(alloc, prop_of(kind))?,
    })
}

/// A list of so many distinct entries, which don't rise.
pub fn injective(alloc: Global, many: u32) -> Result<Made, Memory>
    ensures { IfOk result (λ made. made.arrays.n ≡ many) }
{
    let list = list_of(alloc, Entry::Scrambled, u64::from(many))?;
    let mut lists = Vec::new(alloc);
    lists.push(list)?;
    Ok(Made {
        arrays: Arrays::of(many, many, lists),
        props: one(alloc, PropKind::Injective(FIRST))?,
    })
}
