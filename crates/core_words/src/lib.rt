//! The words of arrays, one array after another.
#![tactic(auto)]

ghost use Rattle.std.specs.Prelude.{ℕ, ℤ, List, Contains};
ghost use Rattle.wave_base.specs.declared.types.Cell.{Cell};
ghost use Rattle.core_cells.specs.Cells.{IsInside};
ghost use Rattle.core_words.specs.WordsOf.{AreApart, AreWords};

/// A cell's word is its value, and a write to the one is a write to the other.
pub fn words_are_cells()
    ensures { (arrays : List ℕ) (x : List (List ℤ)) (cell : Cell) → AreApart arrays → Contains arrays cell.array.0 → IsInside x cell → AreWords arrays x cell }
{}
