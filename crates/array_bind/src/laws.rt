// What holds of the arrays that are bound.
ghost use Rattle.std.specs.Prelude.{◌≡◌, ℕ, ℤ, List, Ok};
ghost use Rattle.std.specs.List.{count_by};
ghost use Rattle.loop_core.specs.declared.decl.Decl.{Decl};
ghost use Rattle.loop_core.specs.IsNest.{is_matrix};
ghost use Rattle.csr_arrays.specs.Axes.{Triple};
ghost use Rattle.array_bind.specs.declared.bind.Bound.{Bound};
ghost use Rattle.array_bind.specs.Lists.{Binds};
ghost use Rattle.array_bind.specs.Lengths.{AreDeclared};

/// Where `bind` answers with arrays and one matrix is declared, as in every nest, each array has
/// the length that its declaration names, and one list stands for each array number.
pub fn bound_arrays_have_the_declared_lengths()
    ensures { (decls : List Decl) (rows columns : ℕ) (ts : List Triple) (files : List (List ℤ)) (bound : Bound) → count_by (λ d. is_matrix d.kind) decls ≡ 1
        → Binds decls rows columns ts files (Ok bound) → AreDeclared decls bound }
{}
