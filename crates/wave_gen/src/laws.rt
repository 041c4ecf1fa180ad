// What the reader of matrices gives for made texts.
ghost use Rattle.std.specs.Prelude.{◌≡◌, ◌≤◌, ◌*◌, ◌^◌, ℕ, Ok};
ghost use Rattle.mtx_read.specs.Files.{matrix};
ghost use Rattle.wave_gen.specs.Grid.{grid_entries, grid_text};
ghost use Rattle.wave_gen.specs.Lower.{lower_entries, lower_text};

/// The text of a grid is read as the matrix of its entries, in their order.
pub fn grid_is_read()
    ensures { (k : ℕ) → 1 ≤ k → k ≤ 400 → matrix (grid_text k) ≡ Ok (k * k, k * k, grid_entries k) }
{}

/// The text of a drawn matrix is read as the matrix of its entries, in their order.
pub fn lower_is_read()
    ensures { (n seed : ℕ) → 1 ≤ n → n ≤ 2 ^ 20 → matrix (lower_text n seed) ≡ Ok (n, n, lower_entries n seed) }
{}
