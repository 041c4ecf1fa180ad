// What holds of accepted nests.
ghost use Rattle.std.specs.Prelude.{◌≡◌, ◌↔◌, ℕ, ℤ, List, Contains};
ghost use Rattle.loop_core.specs.declared.nest.Nest.{Nest};
ghost use Rattle.loop_core.specs.Lists.{Lists};
ghost use Rattle.loop_core.specs.Lengths.{HaveLengths};
ghost use Rattle.loop_core.specs.IsNest.{IsNest};
ghost use Rattle.loop_core.specs.Touches.{IsWithinLists, Depends};
ghost use Rattle.uf_constraints.specs.declared.system.Relation.{Relation};
ghost use Rattle.uf_constraints.specs.Pairs.{Pairs};
ghost use Rattle.uf_constraints.specs.Relations.{relations};
ghost use Rattle.index_props.specs.Meanings.{Passes};
ghost use Rattle.access_bounds.specs.declared.refusal.BoundsRefusal.{BoundsRefusal};
ghost use Rattle.access_bounds.specs.declared.refusal.BoundsRefusal.TheVariants.{Memory};
ghost use Rattle.access_bounds.specs.Accepted.{IsAccepted, IsCause};

use bracket_claims::laws::accessed_arrays_hold_data;
use cert_check::laws::derivable_is_true;
use dep_extract::laws::{accesses_are_of_brackets, dependences_are_pairs};
use rule_laws::laws::nest_meets_conditions;

/// Each access of each row of an accepted nest is inside its list, where the lists have their declared
/// lengths and the arrays pass.
pub fn accesses_are_inside()
    ensures { (nest : Nest) (a : Lists) (x : List (List ℤ)) → IsNest nest → IsAccepted nest
        → HaveLengths nest.decls a x → Passes nest.props a → IsWithinLists nest a x }
{
    nest_meets_conditions();
    derivable_is_true();
    accesses_are_of_brackets();
    accessed_arrays_hold_data();
}

/// So a row of an accepted nest depends on an earlier one just where some relation has the two as a
/// pair.
pub fn dependences_of_accepted_are_pairs()
    ensures { (nest : Nest) (a : Lists) (x : List (List ℤ)) → IsNest nest → IsAccepted nest
        → HaveLengths nest.decls a x → Passes nest.props a
        → (i j : ℕ) → Depends a nest x i j ↔ ((r : Relation) × Contains (relations nest) r × Pairs nest.line r a i j) }
{
    accesses_are_inside();
    dependences_are_pairs();
}

/// A nest has at most one refusal, out of memory aside, and none where it is accepted.
pub fn one_refusal_at_most()
    ensures one { (nest : Nest) (r s : BoundsRefusal) → IsCause nest r → IsCause nest s
        → (r ≡ Memory → ⊥) → (s ≡ Memory → ⊥) → r ≡ s }
    ensures none { (nest : Nest) (r : BoundsRefusal) → IsAccepted nest → IsCause nest r → r ≡ Memory }
{}
