// What the value of an expression over words says of the loop.
ghost use Rattle.std.specs.Prelude.{◌≡◌, ◌++◌, ℤ, List, take, drop, length};
ghost use Rattle.loop_core.specs.declared.nest.Nest.{Nest};
ghost use Rattle.loop_core.specs.declared.nest.Expr.{Expr};
ghost use Rattle.loop_core.specs.Lists.{Lists};
ghost use Rattle.loop_core.specs.Binding.{Binding};
ghost use Rattle.loop_core.specs.Shape.{is_target};
ghost use Rattle.loop_core.specs.Instances.{formula, Instance};
ghost use Rattle.loop_core.specs.Registers.{shared_reads, register_value};
ghost use Rattle.core_rows.specs.Deeds.{Deed};
ghost use Rattle.core_rows.specs.Replay.{instance_of};
ghost use Rattle.core_rows.specs.Progress.{begun_row, caught_up};
ghost use Rattle.core_nest.specs.Nested.{deed_of};
ghost use Rattle.core_value.specs.Taken.{taken, other_words};

/// Over locals, registers and the words of the other arrays, an expression has the value that its formula has.
pub fn expressions_have_values()
    ensures { (nest : Nest) (a : Lists) (x : List (List ℤ)) (env : List Binding) (e : Expr) (locals registers more : List ℤ)
        → (taken (is_target nest) locals e registers (other_words nest x (formula a env e) ++ more)).value ≡ register_value nest x locals (formula a env e) registers }
{}

/// So has an instance of a nest's work, over the locals that those before it in its row leave, and over its own
/// among the registers of its row.
pub fn instances_have_values()
    ensures { (nest : Nest) (a : Lists) (x : List (List ℤ)) (env : List Binding) (e : Expr) (s : Instance) (earlier : List Deed) (registers more : List ℤ) → s.value ≡ formula a env e
        → (instance_of 16 earlier (deed_of nest x s)).value registers
        ≡ (taken (is_target nest) (caught_up registers earlier (begun_row 16)).locals e (take (length (shared_reads nest s.value)) (drop (caught_up registers earlier (begun_row 16)).used registers)) (other_words nest x s.value ++ more)).value }
{}
