// What holds of plans, whoever made them.
ghost use Rattle.std.specs.Prelude.{◌≡◌, ◌↔◌, ◌≤◌, ℕ, List, Contains};
ghost use Rattle.wave_base.specs.declared.types.RowId.{RowId};
ghost use Rattle.sched_types.specs.Fits.{Fits};
ghost use Rattle.super_tasks.specs.Shares.{AreWeights};
ghost use Rattle.plan_build.specs.declared.build.Built.{Built};
ghost use Rattle.plan_build.specs.Plan.{IsPlan, Pairs};

/// The schedule of a plan fits its pairs.
pub fn a_plan_fits()
    ensures { (n : ℕ) (pairs : List (RowId × RowId)) (weights : List ℕ) (workers : ℕ) (built : Built)
        → AreWeights n weights → 1 ≤ workers → IsPlan n pairs weights workers built
        → Fits n (Pairs pairs) built.sched.workers }
{}

/// Rows with pairs and weights have one plan for some workers: two are equal in the number of
/// dependences and of levels, the chain, the schedule and the number of cross pairs.
pub fn rows_have_one_plan()
    ensures { (n : ℕ) (pairs : List (RowId × RowId)) (weights : List ℕ) (workers : ℕ) (a b : Built)
        → IsPlan n pairs weights workers a → IsPlan n pairs weights workers b → a ≡ b }
{}

/// A plan is one of its pairs as a set: pairs in another order, or listed more or less often, have it too.
pub fn a_plan_is_of_a_set_of_pairs()
    ensures { (n : ℕ) (pairs others : List (RowId × RowId)) (weights : List ℕ) (workers : ℕ) (built : Built)
        → ((i j : RowId) → Contains pairs (i, j) ↔ Contains others (i, j))
        → IsPlan n pairs weights workers built → IsPlan n others weights workers built }
{}
