// Loop texts, and what acceptance says of them.
use access_bounds::accept::{Accepted, accept};
use access_bounds::refusal::{BoundsRefusal, Side2};
use loop_laws::laws::what_is_read_is_a_nest;
use loop_syntax::read::read;
use std::alloc::Global;
use std::test::Fail;

fn answer(accepted: Result<Accepted, BoundsRefusal>) -> Option<BoundsRefusal> {
    match accepted {
        Ok(_) => None,
        Err(refusal) => Some(refusal),
    }
}

/// Why the nest that a text is isn't accepted, and `None` where it is.
pub fn refused(alloc: Global, text: &[u8]) -> Result<Option<BoundsRefusal>, Fail> {
    if text.len() > 1_000_000 {
        return Err("the text is too long".into());
    }
    what_is_read_is_a_nest();
    match read(alloc, text) {
        Ok(nest) => Ok(answer(accept(alloc, nest))),
        Err(_) => Err("the text is no nest".into()),
    }
}

pub fn unbounded(line: u32, bracket: u32, side: Side2) -> Option<BoundsRefusal> {
    Some(BoundsRefusal::Unbounded {
        line,
        bracket,
        side,
    })
}

pub fn full(line: u32) -> Option<BoundsRefusal> {
    Some(BoundsRefusal::TermsFull { line })
}

/// The text with one line, counted from 1, as a comment.
pub fn without(alloc: Global, text: &[u8], line: u32) -> Result<Vec<u8>, Fail> {
    let mut cut = Vec::new(alloc);
    let mut at: u32 = 0;
    let mut begins = true;
    for byte in text {
        if begins {
            at = at.wrapping_add(1);
        }
        if begins && at == line {
            cut.push(b'#')?;
        }
        cut.push(*byte)?;
        begins = *byte == b'\n';
    }
    Ok(cut)
}

/// Why the nest with one line as a comment isn't accepted.
pub fn refused_without(
    alloc: Global,
    text: &[u8],
    line: u32,
) -> Result<Option<BoundsRefusal>, Fail> {
    let cut = without(alloc, text, line)?;
    refused(alloc, cut.as_slice())
}
