// What holds of the plans of loops.
ghost use Rattle.std.specs.Prelude.{◌≡◌, ◌≤◌, ℕ, ℤ, List};
ghost use Rattle.wave_base.specs.declared.types.RowId.{RowId};
ghost use Rattle.loop_core.specs.declared.nest.Nest.{Nest};
ghost use Rattle.loop_core.specs.Lists.{Lists};
ghost use Rattle.loop_core.specs.Touches.{Depends};
ghost use Rattle.sched_types.specs.Fits.{Fits};
ghost use Rattle.plan_build.specs.declared.build.Built.{Built};
ghost use Rattle.loop_plan.specs.Planned.{IsPlanOf};

use plan_build::laws::a_plan_fits;

/// A nest over arrays has one plan for some workers.
pub fn a_nest_has_one_plan()
    ensures { (nest : Nest) (a : Lists) (x : List (List ℤ)) (workers : ℕ) (built other : Built)
        → IsPlanOf nest a x workers built → IsPlanOf nest a x workers other → built ≡ other }
{}

/// The schedule of a plan fits the dependences of the rows.
pub fn plans_fit_the_dependences()
    ensures { (nest : Nest) (a : Lists) (x : List (List ℤ)) (workers : ℕ) (built : Built)
        → 1 ≤ workers → IsPlanOf nest a x workers built
        → Fits a.n (λ (i : RowId) (j : RowId). Depends a nest x i.0 j.0) built.sched.workers }
{
    a_plan_fits();
}
