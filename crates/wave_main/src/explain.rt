// The command `explain`.
ghost use Rattle.std.specs.Prelude.{◌≡◌, ◌⊎◌, ◌≤◌, ◌+◌, ◌++◌, ◌||◌, ℕ, List, length, MatchResult, IfOk, IfErr, OnOk, IsTrue};
ghost use Rattle.std.specs.List.{All};
ghost use Rattle.std.specs.String.{string_bytes};
ghost use Rattle.uf_constraints.specs.Relations.{relations as relations_of};
ghost use Rattle.dep_simplify.specs.declared.verdict.Verdict as verdict;
ghost use Rattle.dep_simplify.specs.Verdicts.{AreVerdicts};
ghost use Rattle.wave_report.specs.RelationText.{relation_text};
ghost use Rattle.wave_words.specs.Words.{texts};
ghost use Rattle.wave_words.specs.declared.form.Form.TheVariants.{Explain};
ghost use Rattle.wave_main.specs.Commands.{IsAsked};
ghost use Rattle.wave_main.specs.Explaining.{IsExplained, IsUnexplained};
ghost use Rattle.wave_main.specs.Files.{IsFetched};
ghost use Rattle.wave_main.specs.Making.{IsMade, IsMissed};
ghost use Rattle.wave_main.specs.Texts.{relation_lines, said as said_of};

use crate::bounds::accepted;
use crate::fetch::fetch_loop;
use crate::loops::read_loop;
use crate::status::Status;
use access_bounds::accept::Accepted;
use dep_extract::extract::relations;
use dep_simplify::verdict::Verdict;
use dep_simplify::verdicts::verdicts;
use std::alloc::Global;
use uf_constraints::system::Relation;
use wave_base::types::Memory;
use wave_io::library::Library;
use wave_report::relation::{Said, relation};

fn said(verdict: &Verdict) -> Said
    ensures { result ≡ said_of verdict.now }
{
    match verdict {
        Verdict::Dropped(_) => Said::Dropped,
        Verdict::Covered(number) => Said::Covered(*number),
        Verdict::Kept => Said::Kept,
    }
}

// The number of the relation at a place. One past 4,294,967,295, which no nest has, is answered as
// `Memory`.
fn number_of(at: usize) -> Result<u32, Memory>
    ensures { IfOk result (λ number. number ≡ at + 1) }
{
    if at >= 4_294_967_295 {
        return Err(Memory);
    }
    Ok(at as u32 + 1)
}

fn put_relation(
    alloc: Global,
    text: &mut String,
    at: usize,
    of: &Relation,
    verdict: &Verdict,
) -> Result<(), Memory>
    requires { IsTrue (of.now.first.writes || of.now.second.writes) }
    ensures { OnOk result (string_bytes text.new
        ≡ string_bytes text.old ++ relation_text (at + 1) of.now.first of.now.second (said_of verdict.now)) }
{
    let number = number_of(at)?;
    let line = relation(alloc, number, &of.first, &of.second, said(verdict))?;
    text.push_str(line.as_str())?;
    Ok(())
}

fn put_relations(
    alloc: Global,
    text: &mut String,
    relations: &[Relation],
    verdicts: &[Verdict],
) -> Result<(), Memory>
    requires long { length verdicts.now ≡ length relations.now }
    requires writes { All (λ r. IsTrue (r.first.writes || r.second.writes)) relations.now }
    ensures { OnOk result (string_bytes text.new
        ≡ string_bytes text.old ++ relation_lines 1 relations.now verdicts.now) }
{
    for at in 0..relations.len() {
        put_relation(alloc, text, at, &relations[at], &verdicts[at])?;
    }
    Ok(())
}

// The lines of the relations of an accepted loop with their verdicts.
fn explained(alloc: Global, loop_in: &Accepted) -> Result<Vec<u8>, Memory>
    ensures { IfOk result (λ text. (all : List verdict.Verdict) × AreVerdicts loop_in.now all
        × (text.items ≡ relation_lines 1 (relations_of loop_in.now) all)) }
{
    let relations = relations(alloc, loop_in.nest())?;
    let verdicts = verdicts(alloc, loop_in)?;
    let mut text = String::new(alloc);
    put_relations(alloc, &mut text, relations.as_slice(), verdicts.as_slice())?;
    Ok(text.into_bytes())
}

/// The relations of the loop of a file that was fetched, or why the file is refused.
fn explain_text(alloc: Global, file: Option<Vec<u8>>) -> Result<Vec<u8>, Status>
    ensures { (bytes : List ℕ) → IsFetched 65536 bytes file → MatchResult result (λ text. IsExplained bytes text.items) (IsUnexplained bytes) }
{
    let nest = read_loop(alloc, file)?;
    let loop_in = accepted(alloc, nest)?;
    let text = explained(alloc, &loop_in)?;
    Ok(text)
}

/// The relations of the loop that the words name, with their verdicts, or why there are none.
pub fn make_explain<L: Library>(
    alloc: Global,
    lib: &mut L,
    words: &[String],
) -> Result<Vec<u8>, Status>
    requires { IsAsked (texts words.now) Explain }
    ensures made { IfOk result (λ text. IsMade (L.held lib.old) (texts words.now) text.items) }
    ensures missed { IfErr result (IsMissed (L.held lib.old) (texts words.now) (L.faults lib.old) (L.faults lib.new)) }
    ensures never_fall { (other : List ℕ) → L.faults lib.old other ≤ L.faults lib.new other }
    ensures stays { (other : List ℕ) → L.held lib.new other ≡ L.held lib.old other }
{
    let file = fetch_loop(alloc, lib, words)?;
    explain_text(alloc, file)
}
