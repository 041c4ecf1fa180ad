// What holds of the definitions.
ghost use Rattle.std.specs.Prelude.{◌≡◌, ◌↔◌, ◌<◌, ◌++◌, ℕ, ℤ, false, List, map, length, IsTrue};
ghost use Rattle.wave_base.specs.declared.types.ArrayId.{ArrayId};
ghost use Rattle.loop_core.specs.declared.nest.Nest.{Nest};
ghost use Rattle.loop_core.specs.declared.nest.Op.{Op};
ghost use Rattle.loop_core.specs.Instances.{Formula, Apply};
ghost use Rattle.loop_core.specs.Values.{operated, reads, value_of};
ghost use Rattle.loop_core.specs.Sequence.{word_of, formula_value};
ghost use Rattle.loop_core.specs.Registers.{shared_reads, register_value};
ghost use Rattle.loop_core.specs.Lists.{Lists, entry};
ghost use Rattle.loop_core.specs.Sizes.{is_data};
ghost use Rattle.loop_core.specs.Shape.{is_target};
ghost use Rattle.loop_core.specs.Lengths.{HaveLengths};
ghost use Rattle.loop_core.specs.Touches.{Depends, Meet};
ghost use Rattle.loop_core.specs.IsNest.{IsNest};
ghost use Rattle.loop_core.specs.UnitForward.{unit_forward};

/// Unit forward substitution is a nest, so some nest meets all conditions.
pub fn unit_forward_is_a_nest()
    ensures { IsNest unit_forward }
{}

/// Words past those that a formula reads don't change its value.
pub fn values_are_of_words_read()
    ensures { (f : Formula) (locals words more : List ℤ) → length words ≡ length (reads f)
        → value_of f locals (words ++ more) ≡ value_of f locals words }
{}

/// The value of an operation is that of its two sides.
pub fn operations_are_of_sides()
    ensures { (x : List (List ℤ)) (locals : List ℤ) (op : Op) (left right : Formula)
        → formula_value x locals (Apply op left right) ≡ operated op (formula_value x locals left) (formula_value x locals right) }
{}

/// Each array that a nest writes is a data array.
pub fn written_arrays_hold_data()
    ensures { (nest : Nest) (array : ArrayId) → IsNest nest → IsTrue (is_target nest array) → IsTrue (is_data nest.decls array) }
{}

/// Where the lists have their declared lengths, a row depends on an earlier one just where the two
/// touch a common cell, one of them by a write.
pub fn dependences_are_of_touched_cells()
    ensures { (nest : Nest) (a : Lists) (x : List (List ℤ)) → IsNest nest → HaveLengths nest.decls a x → (i j : ℕ)
        → Depends a nest x i j ↔ ((i < j) × (j < a.n) × Meet a nest i j) }
{}

/// Registers that hold what the lists hold at a formula's places in written arrays give it its value
/// over these lists, where the other arrays are as at the start.
pub fn registers_give_values()
    ensures { (nest : Nest) (start lists : List (List ℤ)) → ((array : ArrayId) (at : ℤ) → is_target nest array ≡ false → entry lists array at ≡ entry start array at)
        → (locals : List ℤ) (f : Formula) (more : List ℤ)
        → register_value nest start locals f (map (word_of lists) (shared_reads nest f) ++ more) ≡ formula_value lists locals f }
{}
