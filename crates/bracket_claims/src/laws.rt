// What holds of the systems of any nest, and of the arrays that it accesses.
ghost use Rattle.std.specs.Prelude.{◌⊎◌, ℕ, pos, List, IsTrue};
ghost use Rattle.std.specs.List.{All};
ghost use Rattle.loop_core.specs.declared.place.Place.{Place};
ghost use Rattle.loop_core.specs.declared.nest.Nest.{Nest};
ghost use Rattle.loop_core.specs.Lists.{Lists};
ghost use Rattle.loop_core.specs.Instances.{instances};
ghost use Rattle.loop_core.specs.IsNest.{IsNest};
ghost use Rattle.loop_core.specs.Sizes.{is_data};
ghost use Rattle.loop_core.specs.Touches.{Reads, Writes};
ghost use Rattle.uf_constraints.specs.Relations.{relations};
ghost use Rattle.bracket_claims.specs.Claims.{claims};
ghost use Rattle.bracket_claims.specs.Small.{IsSmallBase, IsSmallClaim};

use rule_laws::laws::nest_meets_conditions;

/// The systems of a nest have small constants: those of its brackets, and those of its relations. So
/// they may be handed to `universe` and to `close`.
pub fn systems_are_small()
    ensures brackets { (nest : Nest) → IsNest nest → All IsSmallClaim (claims nest) }
    ensures relations { (nest : Nest) → IsNest nest → All (λ r. IsSmallBase r.base) (relations nest) }
{
    nest_meets_conditions();
}

/// Each place that a row of a nest reads or sets is one of an array of data.
pub fn accessed_arrays_hold_data()
    ensures { (nest : Nest) (a : Lists) → IsNest nest → (i : ℕ) (p : Place)
        → Reads (instances a nest (pos i)) p ⊎ Writes (instances a nest (pos i)) p → IsTrue (is_data nest.decls p.array) }
{
    nest_meets_conditions();
}
