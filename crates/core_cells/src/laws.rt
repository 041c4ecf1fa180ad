// What a write changes.
ghost use Rattle.std.specs.Prelude.{◌≡◌, ℤ, List, length, map};
ghost use Rattle.wave_base.specs.declared.types.Cell.{Cell};
ghost use Rattle.core_cells.specs.Cells.{at_cell, lengths, IsPut};

/// A write changes the word of its own cell alone, and no length.
pub fn writes_change_one_cell()
    ensures { (x : List (List ℤ)) (cell : Cell) (word : ℤ) → IsPut x cell word }
{}

/// Arrays of the same lengths are equal where all their cells are.
pub fn cells_make_arrays()
    ensures { (x y : List (List ℤ)) → lengths x ≡ lengths y → ((cell : Cell) → at_cell x cell ≡ at_cell y cell) → x ≡ y }
{}
