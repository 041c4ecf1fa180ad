// What holds of plans.
ghost use Rattle.std.specs.Prelude.{List, []};
ghost use Rattle.std.specs.List.{All};
ghost use Rattle.loop_core.specs.Lists.{Lists};
ghost use Rattle.inspector_run.specs.declared.plan.InspOp.{InspOp};
ghost use Rattle.inspector_run.specs.Pairs.{met, IsEarlier};
ghost use Rattle.inspector_run.specs.IsPlan.{IsPlan};

/// A plan emits earlier rows with later ones, whatever the arrays are.
pub fn plans_emit_earlier_rows()
    ensures { (a : Lists) (ops : List InspOp) → IsPlan ops → All (IsEarlier a.n) (met a ops []) }
{}
