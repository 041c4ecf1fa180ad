// What holds of boards' works.
ghost use Rattle.std.specs.Prelude.{◌≡◌, ℕ, ◌<◌, true, FitsSigned};
ghost use Rattle.std.specs.Int.{w64};
ghost use Rattle.wave_base.specs.declared.types.Cell.{Cell};
ghost use Rattle.core_cells.specs.Cells.{at_cell, IsInside};
ghost use Rattle.core_law.specs.Machine.{State, Reached};
ghost use Rattle.core_machine.specs.declared.work.Work.{Work};
ghost use Rattle.core_machine.specs.FitWork.{plain};
ghost use Rattle.done_words.specs.Sound.{IsSound};
ghost use Rattle.done_words.specs.WordsOf.{HasWord};
ghost use Rattle.loop_core.specs.Shape.{is_target};

/// Each cell of each reached state fits 64 bits, so a word gives back what was stored.
pub fn cells_fit()
    ensures { (w : Work) (c : State) (cell : Cell) → IsSound w → Reached (plain w) c → cell.array.0 < 64 → FitsSigned w64 (at_cell c.cells cell) }
{}

/// A cell's word holds its value, and a write to the cell is a write to its word.
pub fn cells_have_words()
    ensures { (w : Work) (c : State) (cell : Cell) → IsSound w → Reached (plain w) c → IsInside w.values cell → is_target w.nest cell.array ≡ true → HasWord w c cell }
{}
