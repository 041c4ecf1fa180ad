// What holds of verdicts.
ghost use Rattle.std.specs.Prelude.{◌≡◌, ◌↔◌, ℕ, ℤ, List, map};
ghost use Rattle.loop_core.specs.declared.nest.Nest.{Nest};
ghost use Rattle.loop_core.specs.Lists.{Lists};
ghost use Rattle.loop_core.specs.Lengths.{HaveLengths};
ghost use Rattle.loop_core.specs.IsNest.{IsNest};
ghost use Rattle.loop_core.specs.Touches.{Depends};
ghost use Rattle.uf_constraints.specs.declared.system.Relation.{Relation};
ghost use Rattle.uf_constraints.specs.Pairs.{Pairs};
ghost use Rattle.index_props.specs.Meanings.{Passes};
ghost use Rattle.access_bounds.specs.Accepted.{IsAccepted};
ghost use Rattle.dep_simplify.specs.declared.verdict.Verdict.{Verdict};
ghost use Rattle.dep_simplify.specs.Verdicts.{AreVerdicts, IsKept, bare};

use access_bounds::laws::dependences_of_accepted_are_pairs;
use cert_check::laws::derivable_is_true;
use rule_laws::laws::nest_meets_conditions;

/// Two lists of verdicts on one nest are equal, certificates aside.
pub fn a_nest_has_one_list_of_verdicts()
    ensures { (nest : Nest) (vs ws : List Verdict) → AreVerdicts nest vs → AreVerdicts nest ws → map bare vs ≡ map bare ws }
{}

/// A row of an accepted nest depends on an earlier one just where some kept relation has the two as a
/// pair, where the lists have their declared lengths and the arrays pass.
pub fn dependences_are_pairs_of_kept_relations()
    ensures { (nest : Nest) (vs : List Verdict) (a : Lists) (x : List (List ℤ)) → IsNest nest → IsAccepted nest
        → AreVerdicts nest vs → HaveLengths nest.decls a x → Passes nest.props a
        → (i j : ℕ) → Depends a nest x i j ↔ ((r : Relation) × IsKept nest vs r × Pairs nest.line r a i j) }
{
    nest_meets_conditions();
    derivable_is_true();
    dependences_of_accepted_are_pairs();
}
