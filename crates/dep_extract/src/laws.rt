// What holds of references and relations.
ghost use Rattle.std.specs.Prelude.{◌≡◌, ◌↔◌, ◌⊎◌, ◌<◌, ℕ, ℤ, pos, List, Contains};
ghost use Rattle.loop_core.specs.declared.place.Place.{Place};
ghost use Rattle.loop_core.specs.declared.nest.Nest.{Nest};
ghost use Rattle.loop_core.specs.declared.nest.Side.TheVariants.{Own};
ghost use Rattle.loop_core.specs.Lists.{Lists};
ghost use Rattle.loop_core.specs.Binding.{Binding};
ghost use Rattle.loop_core.specs.Lengths.{HaveLengths};
ghost use Rattle.loop_core.specs.IsNest.{IsNest};
ghost use Rattle.loop_core.specs.Terms.{term_value};
ghost use Rattle.loop_core.specs.Instances.{instances};
ghost use Rattle.loop_core.specs.Touches.{Reads, Writes, IsWithinLists, Depends};
ghost use Rattle.uf_constraints.specs.declared.system.Relation.{Relation};
ghost use Rattle.uf_constraints.specs.declared.reach.Bracket.{Bracket};
ghost use Rattle.uf_constraints.specs.declared.reach.Spot.{Spot};
ghost use Rattle.uf_constraints.specs.Bases.{on, bracket_base};
ghost use Rattle.uf_constraints.specs.Brackets.{spots};
ghost use Rattle.uf_constraints.specs.Pairs.{Pairs};
ghost use Rattle.uf_constraints.specs.Relations.{relations};
ghost use Rattle.uf_constraints.specs.Truth.{AllHold};

use loop_core::laws::dependences_are_of_touched_cells;

/// Where the lists have their declared lengths and no access leaves its list, a row depends on an
/// earlier one just where some relation of the nest has the two as a pair.
pub fn dependences_are_pairs()
    ensures { (nest : Nest) (a : Lists) (x : List (List ℤ)) → IsNest nest → HaveLengths nest.decls a x → IsWithinLists nest a x
        → (i j : ℕ) → Depends a nest x i j ↔ ((r : Relation) × Contains (relations nest) r × Pairs nest.line r a i j) }
{
    dependences_are_of_touched_cells();
}

/// Each place that a row reads or sets is that of a bracket of the nest, less some values of the
/// variables that make the bracket's base true.
pub fn accesses_are_of_brackets()
    ensures { (nest : Nest) (a : Lists) → IsNest nest → (i : ℕ) (p : Place) → i < a.n
        → Reads (instances a nest (pos i)) p ⊎ Writes (instances a nest (pos i)) p
        → (s : Spot) × (b : Bracket) × (env : List Binding) × Contains (spots nest) s × Contains s.brackets b
        × (b.array ≡ p.array) × AllHold a env (bracket_base nest s) × (term_value a env (on Own b.at) ≡ p.at) }
{}
