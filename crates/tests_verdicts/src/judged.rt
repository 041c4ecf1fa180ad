// The verdicts on the relations of a text.
use access_bounds::accept::{Accepted, accept};
use dep_simplify::verdict::Verdict;
use dep_simplify::verdicts::verdicts;
use loop_laws::laws::what_is_read_is_a_nest;
use loop_syntax::read::read;
use sqlite_items::Items;
use std::alloc::Global;
use std::test::Fail;

/// The nest of a text, which is accepted.
pub fn accepted(alloc: Global, text: &[u8]) -> Result<Accepted, Fail> {
    what_is_read_is_a_nest();
    if text.len() > 65_536 {
        return Err("the text is too long".into());
    }
    match read(alloc, text) {
        Ok(nest) => match accept(alloc, nest) {
            Ok(accepted) => Ok(accepted),
            Err(_) => Err("the nest is refused".into()),
        },
        Err(_) => Err("the text is refused".into()),
    }
}

/// The verdicts on its relations.
pub fn judged(alloc: Global, text: &[u8]) -> Result<Items<Verdict>, Fail> {
    let nest = accepted(alloc, text)?;
    Ok(verdicts(alloc, &nest)?)
}
