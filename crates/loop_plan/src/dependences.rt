// The dependent rows of an accepted nest.
ghost use Rattle.std.specs.Prelude.{◌≡◌, ◌↔◌, ◌<◌, ◌≤◌, ◌+◌, ◌++◌, length, IfOk, OnOk, IsTrue};
ghost use Rattle.std.specs.List.{All};
ghost use Rattle.loop_core.specs.IsNest.{IsNest};
ghost use Rattle.uf_constraints.specs.Relations.{relations as all_relations};
ghost use Rattle.index_props.specs.Meanings.{Passes};
ghost use Rattle.index_props.specs.Sound.{IndexLengths};
ghost use Rattle.dep_simplify.specs.declared.verdict.Verdict.TheVariants.{Kept};
ghost use Rattle.dep_simplify.specs.Ready.{IsFit};
ghost use Rattle.dep_simplify.specs.Verdicts.{AreVerdicts};
ghost use Rattle.loop_plan.specs.Kept.{ArePairsOfKept};

use crate::inspection::pairs_of;
use access_bounds::accept::Accepted;
use bracket_claims::laws::systems_are_small;
use dep_extract::extract::relations;
use dep_simplify::verdict::Verdict;
use loop_core::arrays::Arrays;
use loop_core::nest::Nest;
use std::thread::Threads;
use uf_constraints::system::Relation;
use wave_base::types::{Memory, RowId};

/// The pairs of all relations that are kept, with repeats.
pub fn dependences<R: AllocGlobal + Threads + Sync>(
    rt: &R,
    loop_in: &Accepted,
    verdicts: &[Verdict],
    arrays: &Arrays,
) -> Result<Vec<(RowId, RowId)>, Memory>
    requires verdicts { AreVerdicts loop_in.now verdicts.now }
    requires lengths { IndexLengths loop_in.now.decls arrays.now }
    requires passes { Passes loop_in.now.props arrays.now }
    ensures { IfOk result (λ pairs. ArePairsOfKept loop_in.now verdicts.now arrays.now pairs.items) }
{
    systems_are_small();
    let nest = loop_in.nest();
    let relations = relations(rt.alloc(), nest)?;
    pairs_of_kept(rt, nest, relations.as_slice(), verdicts, arrays)
}

fn pairs_of_kept<R: AllocGlobal + Threads + Sync>(
    rt: &R,
    nest: &Nest,
    relations: &[Relation],
    verdicts: &[Verdict],
    arrays: &Arrays,
) -> Result<Vec<(RowId, RowId)>, Memory>
    requires is_nest { IsNest nest.now }
    requires listed { relations.now ≡ all_relations nest.now }
    requires fit { All (IsFit nest.now) relations.now }
    requires verdicts { AreVerdicts nest.now verdicts.now }
    requires lengths { IndexLengths nest.now.decls arrays.now }
    requires passes { Passes nest.now.props arrays.now }
    ensures { IfOk result (λ pairs. ArePairsOfKept nest.now verdicts.now arrays.now pairs.items) }
{
    let mut pairs = Vec::new(rt.alloc());
    for at in 0..relations.len() {
        if is_kept(&verdicts[at]) {
            let more = pairs_of(rt, nest, &relations[at], arrays)?;
            append(&mut pairs, more)?;
        }
    }
    Ok(pairs)
}

fn is_kept(verdict: &Verdict) -> bool
    ensures { IsTrue result ↔ (verdict.now ≡ Kept) }
{
    match verdict {
        Verdict::Dropped(_) => false,
        Verdict::Covered(_) => false,
        Verdict::Kept => true,
    }
}

fn append(into: &mut Vec<(RowId, RowId)>, more: Vec<(RowId, RowId)>) -> Result<(), Memory>
    ensures { OnOk result (into.new.items ≡ into.old.items ++ more.items) }
{
    into.extend_from_slice(more.as_slice())?;
    Ok(())
}
