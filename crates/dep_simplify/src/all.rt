// The verdicts on all relations.
ghost use Rattle.std.specs.Prelude.{◌≡◌, ◌<◌, ◌++◌, [], ◌∷◌, length, IfOk, OnOk};
ghost use Rattle.dep_simplify.specs.Ready.{IsReady, IsNext, AreSoFar};
ghost use Rattle.dep_simplify.specs.Verdicts.{AreVerdicts, AreCertified};

use crate::again::{again, twin};
use crate::fresh::fresh;
use crate::verdict::Verdict;
use loop_core::decl::PropDecl;
use loop_core::nest::Nest;
use sqlite_items::Items;
use std::alloc::Global;
use uf_constraints::system::Relation;
use wave_base::types::Memory;

/// The verdicts on all relations of a nest, with the properties without repeats.
pub fn all(
    alloc: Global,
    nest: &Nest,
    props: &[PropDecl],
    relations: &[Relation],
) -> Result<Items<Verdict>, Memory>
    requires { IsReady nest.now props.now relations.now }
    ensures exact { IfOk result (AreVerdicts nest.now) }
    ensures certified { IfOk result (AreCertified nest.now) }
{
    let mut verdicts = Items::new(alloc);
    while verdicts.len() < relations.len() {
        let verdict = next(alloc, nest, props, relations, verdicts.as_slice())?;
        push(verdict, &mut verdicts)?;
    }
    Ok(verdicts)
}

fn push(verdict: Verdict, into: &mut Items<Verdict>) -> Result<(), Memory>
    ensures { OnOk result (into.new ≡ into.old ++ verdict ∷ []) }
{
    into.push(verdict)?;
    Ok(())
}

// The verdict on the relation after those that have one: from an earlier one with its base, or by the
// closure of its own.
fn next(
    alloc: Global,
    nest: &Nest,
    props: &[PropDecl],
    relations: &[Relation],
    verdicts: &[Verdict],
) -> Result<Verdict, Memory>
    requires ready { IsReady nest.now props.now relations.now }
    requires left { length verdicts.now < length relations.now }
    requires so_far { AreSoFar nest.now verdicts.now }
    ensures { IfOk result (IsNext nest.now verdicts.now) }
{
    let at = verdicts.len();
    match twin(relations, at) {
        Some(k) => again(alloc, &verdicts[k], k),
        None => fresh(alloc, nest, props, relations, verdicts),
    }
}
