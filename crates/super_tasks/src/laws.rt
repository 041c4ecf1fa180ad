// What holds of shares.
ghost use Rattle.std.specs.Prelude.{◌≡◌, ◌<◌, ◌≤◌, ◌*◌, ◌/◌, ℕ, List, All, length};
ghost use Rattle.wave_base.specs.declared.types.RowId.{RowId};
ghost use Rattle.super_tasks.specs.Shares.{weight_at, worker_at};

/// Where all rows of a level have one weight, the row at place s of m goes to worker
/// floor(s * workers / m).
pub fn rows_of_one_weight_are_shared_by_number()
    ensures { (weights : List ℕ) (workers weight : ℕ) (rows : List RowId) (place : ℕ) → 0 < weight
        → All (λ (r : RowId). weight_at weights r ≡ weight) rows → place ≤ length rows
        → worker_at weights workers rows place ≡ place * workers / length rows }
{}
