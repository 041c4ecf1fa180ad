// Nests can be printed.
ghost use Rattle.std.specs.Prelude.{◌≤◌, length};
ghost use Rattle.loop_core.specs.declared.nest.Nest.{Nest};
ghost use Rattle.loop_core.specs.IsNest.{IsNest};
ghost use Rattle.loop_core.specs.Sizes.{sizes};
ghost use Rattle.wave_report.specs.ArrayText.{AreNamed};

/// A nest meets the conditions of `arrays`: it has at most 64 arrays, and the names of its declarations
/// consist of letters, digits and `_`.
pub fn nests_can_be_printed()
    ensures few { (nest : Nest) → IsNest nest → length (sizes nest.decls) ≤ 64 }
    ensures names { (nest : Nest) → IsNest nest → AreNamed nest.decls }
{}
