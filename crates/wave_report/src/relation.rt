// The printed line of a relation.
ghost use Rattle.std.specs.Prelude.{◌≡◌, ◌++◌, ◌||◌, codes, IfOk, OnOk, IsTrue};
ghost use Rattle.std.specs.String.{string_bytes};
ghost use Rattle.wave_report.specs.RelationText.{reference_text, kind_text, verdict_text, relation_text};

use crate::pieces::{put, put_number};
use std::alloc::Global;
use uf_constraints::system::Reference;
use wave_base::types::Memory;

/// What is said of a relation: it has no pairs, its pairs are among those of a kept one, whose number
/// this is, or its pairs are kept.
#[derive(Clone, Copy, Debug, PartialEq, Eq)]
pub enum Said {
    Dropped,
    Covered(u32),
    Kept,
}

/// The line of a relation: `relation NUMBER FIRST SECOND KIND VERDICT`.
///
/// A reference is its line and its bracket, as `12:4`. The kind is `output` where both write, `true`
/// where the first alone writes, and `anti` where the second alone writes. The verdict is `dropped`,
/// `covered` with the number of the relation that covers it, or `kept`. It fails out of memory alone.
pub fn relation(
    alloc: Global,
    number: u32,
    first: &Reference,
    second: &Reference,
    said: Said,
) -> Result<String, Memory>
    requires { IsTrue (first.now.writes || second.now.writes) }
    ensures { IfOk result (λ text. string_bytes text ≡ relation_text number first.now second.now said) }
{
    let mut text = String::new(alloc);
    put_number(&mut text, "relation ", u64::from(number))?;
    put_reference(&mut text, first)?;
    put_reference(&mut text, second)?;
    text.push_str(kind(first.writes, second.writes))?;
    put_verdict(&mut text, said)?;
    text.push_str("\n")?;
    Ok(text)
}

fn put_reference(text: &mut String, reference: &Reference) -> Result<(), Memory>
    ensures { OnOk result (string_bytes text.new
        ≡ string_bytes text.old ++ (codes " " ++ reference_text reference.now)) }
{
    put_number(text, " ", u64::from(reference.line))?;
    put_number(text, ":", u64::from(reference.bracket))
}

fn kind(first_writes: bool, second_writes: bool) -> &'static str
    ensures { result.now ≡ codes " " ++ kind_text first_writes second_writes }
{
    match (first_writes, second_writes) {
        (true, true) => " output",
        (true, false) => " true",
        (false, _) => " anti",
    }
}

fn put_verdict(text: &mut String, said: Said) -> Result<(), Memory>
    ensures { OnOk result (string_bytes text.new ≡ string_bytes text.old ++ (codes " " ++ verdict_text said)) }
{
    match said {
        Said::Dropped => put(text, " dropped"),
        Said::Covered(number) => put_number(text, " covered ", u64::from(number)),
        Said::Kept => put(text, " kept"),
    }
}
