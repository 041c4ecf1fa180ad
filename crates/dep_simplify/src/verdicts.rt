// The verdicts on the relations of an accepted nest.
ghost use Rattle.std.specs.Prelude.{IfOk};
ghost use Rattle.dep_simplify.specs.Verdicts.{AreVerdicts, AreCertified};

use crate::all::all;
use crate::verdict::Verdict;
use access_bounds::accept::Accepted;
use bracket_claims::laws::systems_are_small;
use dep_extract::extract::relations;
use props_once::once::without_repeats;
use sqlite_items::Items;
use std::alloc::Global;
use wave_base::types::Memory;

/// The verdict on each relation of a nest, in order: dropped, covered by the first earlier kept one
/// that covers it, or kept.
///
/// The certificate of a dropped one has passed the check over the atoms and the base of the relation
/// and the instances of the properties without repeats, and is cut down to the steps that it needs. One
/// closure for relations with equal bases, and one alive at a time, with its instances. It fails out of
/// memory alone; a relation past number 4,294,967,295, which no nest has, is answered so too.
pub fn verdicts(alloc: Global, loop_in: &Accepted) -> Result<Items<Verdict>, Memory>
    ensures exact { IfOk result (AreVerdicts loop_in.now) }
    ensures certified { IfOk result (AreCertified loop_in.now) }
{
    systems_are_small();
    let nest = loop_in.nest();
    let props = without_repeats(alloc, nest.props.as_slice())?;
    let relations = relations(alloc, nest)?;
    all(alloc, nest, props.as_slice(), relations.as_slice())
}
