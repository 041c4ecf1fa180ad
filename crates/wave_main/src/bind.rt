// The arrays of a run.
ghost use Rattle.std.specs.Prelude.{◌≡◌, ◌⊎◌, ◌+◌, ◌<◌, ◌≤◌, ◌^◌, ℕ, List, None, Some, MatchResult, IfOk, length};
ghost use Rattle.std.specs.List.{All};
ghost use Rattle.loop_core.specs.IsNest.{IsNest};
ghost use Rattle.loop_core.specs.Lengths.{HaveLengths};
ghost use Rattle.loop_core.specs.Sizes.{sizes};
ghost use Rattle.array_bind.specs.Lists.{bound_of};
ghost use Rattle.array_bind.specs.Shape.{file_of};
ghost use Rattle.wave_main.specs.Binding.{shape_status, binding_fault};

use crate::status::{ShapeKind, Status};
use array_bind::bind::{Bound, bind};
use array_bind::laws::bound_arrays_have_the_declared_lengths;
use array_bind::shape::ShapeRefusal;
use loop_core::nest::Nest;
use mtx_read::triples::Triples;
use std::alloc::Global;
use wave_base::words::Words;

/// File k is named by the word `first + k`.
fn shape_status(first: u32, refusal: ShapeRefusal) -> Status
    requires { first + file_of refusal < 2 ^ 32 }
    ensures { result ≡ shape_status first refusal }
{
    match refusal {
        ShapeRefusal::NotSquare { rows, columns } => {
            Status::Shape(ShapeKind::NotSquare { rows, columns })
        }
        ShapeRefusal::Files { have, want } => Status::Shape(ShapeKind::Files { have, want }),
        ShapeRefusal::Length { file, have, want } => Status::Shape(ShapeKind::Length {
            word: first + file,
            have,
            want,
        }),
        ShapeRefusal::Memory => Status::Memory,
    }
}

/// The arrays of a loop over a matrix and vectors, of which the first is named by a word.
pub fn bound(
    alloc: Global,
    nest: &Nest,
    matrix: Triples,
    vectors: Vec<Words>,
    first: u32,
) -> Result<Bound, Status>
    requires is_nest { IsNest nest.now }
    requires few_arrays { length (sizes nest.now.decls) ≤ 64 }
    requires few { length matrix.entries ≤ 2 ^ 24 }
    requires inside { All (λ e. (e.0 < matrix.rows) × (e.1 < matrix.columns)) matrix.entries }
    requires few_files { first + length vectors.items < 2 ^ 32 }
    ensures answer { MatchResult result
        (λ b. (binding_fault first nest.now.decls (matrix.rows, matrix.columns, matrix.entries) vectors.items ≡ None) × (b ≡ bound_of nest.now.decls matrix.rows matrix.entries vectors.items))
        (λ status. (status ≡ Status.Memory) ⊎ (binding_fault first nest.now.decls (matrix.rows, matrix.columns, matrix.entries) vectors.items ≡ Some status)) }
    ensures lengths { IfOk result (λ b. HaveLengths nest.now.decls b.arrays b.values) }
{
    bound_arrays_have_the_declared_lengths();
    match bind(alloc, nest, matrix, vectors) {
        Ok(bound) => Ok(bound),
        Err(refusal) => Err(shape_status(first, refusal)),
    }
}
