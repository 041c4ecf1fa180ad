// Verdicts as numbers.
use crate::judged::judged;
use dep_simplify::verdict::Verdict;
use std::alloc::Global;
use std::test::Fail;

fn number_of(verdict: &Verdict, own: u32) -> u32 {
    match verdict {
        Verdict::Dropped(_) => 0,
        Verdict::Covered(number) => *number,
        Verdict::Kept => own,
    }
}

/// For each relation of a text 0 where it is dropped, the number of the one that covers it, or its own
/// number where it is kept.
pub fn short(alloc: Global, text: &[u8]) -> Result<Vec<u32>, Fail> {
    let verdicts = judged(alloc, text)?;
    let mut short = Vec::new(alloc);
    let mut own = 0u32;
    for verdict in verdicts.as_slice() {
        own = own.wrapping_add(1);
        short.push(number_of(verdict, own))?;
    }
    Ok(short)
}
