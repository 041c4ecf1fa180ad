// The work of texts.
ghost use Rattle.std.specs.Prelude.{◌≡◌, ◌<◌, ◌≤◌, ◌^◌, IfOk, length};
ghost use Rattle.std.specs.List.{All};
ghost use Rattle.text_base.specs.Lines.{lines};
ghost use Rattle.loop_core.specs.Depth.{body_depth};
ghost use Rattle.loop_core.specs.IsNest.{IsNest};
ghost use Rattle.loop_core.specs.Lengths.{HaveLengths};
ghost use Rattle.loop_core.specs.Sizes.{sizes};
ghost use Rattle.loop_syntax.specs.TextNest.{IsRead};
ghost use Rattle.core_machine.specs.FitWork.{IsFitWork};
ghost use Rattle.array_bind.specs.Lists.{bound_of};
ghost use Rattle.work_samples.specs.Works.{AreArrays, AreBound, IsPlanned};

use crate::planned::planned;
use crate::unfit::Unfit;
use array_bind::bind::{Bound, bind};
use array_bind::laws::bound_arrays_have_the_declared_lengths;
use core_machine::work::Work;
use loop_core::nest::Nest;
use loop_laws::laws::what_is_read_is_a_nest;
use loop_syntax::read::read;
use mtx_read::matrix::read_matrix;
use mtx_read::triples::Triples;
use std::alloc::Global;
use std::thread::Threads;
use wave_base::words::Words;

fn nest_of(alloc: Global, text: &[u8]) -> Result<Nest, Unfit>
    requires { length text.now ≤ 2 ^ 28 }
    ensures is_nest { IfOk result IsNest }
    ensures read { IfOk result (IsRead (lines text.now)) }
    ensures shallow { IfOk result (λ nest. body_depth nest.body ≤ 5) }
    ensures few { IfOk result (λ nest. length (sizes nest.decls) ≤ 64) }
{
    what_is_read_is_a_nest();
    match read(alloc, text) {
        Ok(nest) => Ok(nest),
        Err(refusal) => Err(Unfit::Loop(refusal)),
    }
}

fn bound_to(alloc: Global, nest: &Nest, triples: Triples, files: Vec<Words>) -> Result<Bound, Unfit>
    requires is_nest { IsNest nest.now }
    requires few_arrays { length (sizes nest.now.decls) ≤ 64 }
    requires few { length triples.entries ≤ 2 ^ 24 }
    requires inside { All (λ e. (e.0 < triples.rows) × (e.1 < triples.columns)) triples.entries }
    requires few_files { length files.items < 2 ^ 32 }
    ensures lengths { IfOk result (λ bound. HaveLengths nest.now.decls bound.arrays bound.values) }
    ensures arrays { IfOk result (λ bound. bound ≡ bound_of nest.now.decls triples.rows triples.entries files.items) }
{
    bound_arrays_have_the_declared_lengths();
    match bind(alloc, nest, triples, files) {
        Ok(bound) => Ok(bound),
        Err(refusal) => Err(Unfit::Shape(refusal)),
    }
}

// The arrays of a nest over the matrix of a text and the words of files.
fn bound_over(alloc: Global, nest: &Nest, matrix: &[u8], files: Vec<Words>) -> Result<Bound, Unfit>
    requires is_nest { IsNest nest.now }
    requires few_arrays { length (sizes nest.now.decls) ≤ 64 }
    requires few_files { length files.items < 2 ^ 32 }
    ensures lengths { IfOk result (λ bound. HaveLengths nest.now.decls bound.arrays bound.values) }
    ensures arrays { IfOk result (AreBound nest.now.decls matrix.now files.items) }
{
    match read_matrix(alloc, matrix) {
        Ok(triples) => bound_to(alloc, nest, triples, files),
        Err(refusal) => Err(Unfit::Matrix(refusal)),
    }
}

/// The work of the loop that a text is, over the matrix of a text and the words of its other arrays in their
/// order, planned for some workers.
pub fn work_of<R: AllocGlobal + Threads + Sync>(
    rt: &R,
    text: &[u8],
    matrix: &[u8],
    files: Vec<Words>,
    workers: u32,
) -> Result<Work, Unfit>
    requires short { length text.now ≤ 2 ^ 28 }
    requires few_files { length files.items < 2 ^ 32 }
    requires some { 1 ≤ workers }
    requires few { workers ≤ 64 }
    ensures fit { IfOk result IsFitWork }
    ensures nest { IfOk result (λ work. IsRead (lines text.now) work.nest) }
    ensures arrays { IfOk result (AreArrays matrix.now files.items) }
    ensures plan { IfOk result (IsPlanned workers) }
    ensures workers { IfOk result (λ work. length work.sched.workers ≡ workers) }
    ensures shallow { IfOk result (λ work. body_depth work.nest.body ≤ 5) }
{
    let nest = nest_of(rt.alloc(), text)?;
    let bound = bound_over(rt.alloc(), &nest, matrix, files)?;
    planned(rt, nest, bound, workers)
}
