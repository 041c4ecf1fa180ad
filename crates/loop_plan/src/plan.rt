// The plan of an accepted loop.
ghost use Rattle.std.specs.Prelude.{◌≡◌, ◌≤◌, ℤ, List, IfOk};
ghost use Rattle.loop_core.specs.Depth.{body_depth};
ghost use Rattle.loop_core.specs.Lengths.{HaveLengths};
ghost use Rattle.index_props.specs.Meanings.{Passes};
ghost use Rattle.index_props.specs.Sound.{IndexLengths};
ghost use Rattle.dep_simplify.specs.Verdicts.{AreVerdicts};
ghost use Rattle.loop_plan.specs.Planned.{IsPlanOf};

use crate::dependences::dependences;
use access_bounds::accept::Accepted;
use dep_simplify::laws::dependences_are_pairs_of_kept_relations;
use dep_simplify::verdict::Verdict;
use loop_core::arrays::Arrays;
use loop_meaning::weights::weights;
use plan_build::build::{Built, build};
use std::thread::Threads;
use wave_base::types::Memory;

/// The plan of an accepted loop over arrays of the declared lengths that pass its properties, for 1 to
/// 64 workers. The verdicts are those on its relations.
///
/// Each kept relation is inspected by its quick plan, split over the processors; its closure and its
/// plan are given up before the next. Levels are shared out by the weights of the rows. Out of memory
/// is the only refusal.
pub fn plan_loop<R: AllocGlobal + Threads + Sync>(
    rt: &R,
    loop_in: &Accepted,
    verdicts: &[Verdict],
    arrays: &Arrays,
    workers: u32,
) -> Result<Built, Memory>
    requires verdicts { AreVerdicts loop_in.now verdicts.now }
    requires lengths { IndexLengths loop_in.now.decls arrays.now }
    requires passes { Passes loop_in.now.props arrays.now }
    requires some { 1 ≤ workers }
    requires few { workers ≤ 64 }
    ensures { IfOk result (λ built. (x : List (List ℤ)) → HaveLengths loop_in.now.decls arrays.now x
        → IsPlanOf loop_in.now arrays.now x workers built) }
{
    dependences_are_pairs_of_kept_relations();
    let pairs = dependences(rt, loop_in, verdicts, arrays)?;
    let weights = weights(rt.alloc(), loop_in.nest(), arrays)?;
    build(rt.alloc(), arrays.n(), pairs, weights.as_slice(), workers)
}
