// The loop and the arrays of files.
ghost use Rattle.std.specs.Prelude.{◌≡◌, ◌⊎◌, ◌<◌, ◌≤◌, ◌+◌, ◌^◌, MatchResult, IfOk, length};
ghost use Rattle.std.specs.List.{All};
ghost use Rattle.loop_core.specs.Lengths.{HaveLengths};
ghost use Rattle.index_props.specs.Meanings.{Passes};
ghost use Rattle.wave_main.specs.Fetching.{AreInputs};
ghost use Rattle.wave_main.specs.Files.{Inputs};
ghost use Rattle.wave_main.specs.Reading.{IsReadFrom, HasArrays};
ghost use Rattle.wave_main.specs.Run.{IsInput};
ghost use Rattle.wave_main.specs.Stages.{AcceptAll, IsRefusedBy, Breaks, Accepts, OfProperties, array_stages, input_stages};

use crate::bind::bound;
use crate::bounds::accepted;
use crate::fetch::InputBytes;
use crate::loops::read_loop;
use crate::matrices::{matrix_of, vectors_of};
use crate::status::Status;
use access_bounds::accept::Accepted;
use loop_core::arrays::Arrays;
use loop_core::values::Values;
use mtx_read::triples::Triples;
use prop_check::check::{CheckRefusal, check};
use std::alloc::Global;
use wave_base::words::Words;

/// An accepted loop with its arrays.
#[derive(Drop)]
pub struct Input {
    pub nest: Accepted,
    pub arrays: Arrays,
    pub values: Values,
}

/// What files say: an accepted loop, a matrix, and vectors.
#[derive(Drop)]
pub struct ReadFiles {
    pub nest: Accepted,
    pub matrix: Triples,
    pub vectors: Vec<Words>,
}

/// What files that were fetched say, or the first refusal, shapes and properties aside. The first
/// vector is named by a word.
pub fn read_files(alloc: Global, files: InputBytes, first: u32) -> Result<ReadFiles, Status>
    requires { first + length files.vectors.items < 2 ^ 32 }
    ensures answer { (inputs : Inputs) → AreInputs inputs files → inputs.first ≡ first
        → MatchResult result (IsReadFrom inputs) (λ status. (status ≡ Status.Memory) ⊎ IsRefusedBy array_stages inputs status) }
    ensures inside { IfOk result (λ read. All (λ e. (e.0 < read.matrix.rows) × (e.1 < read.matrix.columns)) read.matrix.entries) }
    ensures few { IfOk result (λ read. length read.matrix.entries ≤ 2 ^ 24) }
    ensures same { IfOk result (λ read. length read.vectors.items ≡ length files.vectors.items) }
    ensures few_properties { IfOk result (λ read. length read.nest.props < 2 ^ 32) }
{
    let read = read_loop(alloc, files.loop_file)?;
    let nest = accepted(alloc, read)?;
    let matrix = matrix_of(alloc, files.matrix)?;
    let vectors = vectors_of(alloc, first, files.vectors.as_slice())?;
    Ok(ReadFiles {
        nest,
        matrix,
        vectors,
    })
}

/// The loop with its arrays, or the first shape that doesn't fit. The vectors are those of the loop's
/// arrays, and the first of them is named by a word.
pub fn bound_input(alloc: Global, read: ReadFiles, word: u32) -> Result<Input, Status>
    requires few_files { word + length read.vectors.items < 2 ^ 32 }
    requires inside { All (λ e. (e.0 < read.matrix.rows) × (e.1 < read.matrix.columns)) read.matrix.entries }
    requires few { length read.matrix.entries ≤ 2 ^ 24 }
    ensures answer { (inputs : Inputs) → HasArrays inputs read word
        → MatchResult result (λ input. IsInput inputs input × AcceptAll array_stages inputs) (λ status. (status ≡ Status.Memory) ⊎ IsRefusedBy array_stages inputs status) }
    ensures nest { IfOk result (λ input. input.nest ≡ read.nest) }
    ensures lengths { IfOk result (λ input. HaveLengths input.nest.decls input.arrays input.values) }
{
    let ReadFiles {
        nest,
        matrix,
        vectors,
    } = read;
    let bound = bound(alloc, nest.nest(), matrix, vectors, word)?;
    Ok(Input {
        nest,
        arrays: bound.arrays,
        values: bound.values,
    })
}

/// Whether the arrays have the declared properties, or the first that they break.
pub fn check_properties(alloc: Global, input: &Input) -> Result<(), Status>
    requires { length input.now.nest.props < 2 ^ 32 }
    ensures answer { (inputs : Inputs) → IsInput inputs input.now
        → MatchResult result (λ _. Accepts OfProperties inputs) (λ status. (status ≡ Status.Memory) ⊎ Breaks inputs status) }
    ensures passes { IfOk result (λ _. Passes input.now.nest.props input.now.arrays) }
{
    match check(alloc, input.nest.nest().props.as_slice(), &input.arrays) {
        Ok(_) => Ok(()),
        Err(CheckRefusal::Memory) => Err(Status::Memory),
        Err(
            CheckRefusal::Broken {
                property,
                first,
                second,
            },
        ) => Err(Status::Property {
            property,
            first,
            second,
        }),
    }
}

/// The loop and the arrays of files that were fetched, which have the declared properties, or the
/// first refusal. The first vector is named by a word, and all vectors are those of the loop's arrays.
pub fn input_of(alloc: Global, files: InputBytes, first: u32) -> Result<Input, Status>
    requires { first + length files.vectors.items < 2 ^ 32 }
    ensures answer { (inputs : Inputs) → AreInputs inputs files → inputs.first ≡ first → inputs.skips ≡ 0
        → MatchResult result (λ input. IsInput inputs input × AcceptAll input_stages inputs) (λ status. (status ≡ Status.Memory) ⊎ IsRefusedBy input_stages inputs status) }
    ensures lengths { IfOk result (λ input. HaveLengths input.nest.decls input.arrays input.values) }
    ensures passes { IfOk result (λ input. Passes input.nest.props input.arrays) }
{
    let read = read_files(alloc, files, first)?;
    let input = bound_input(alloc, read, first)?;
    check_properties(alloc, &input)?;
    Ok(input)
}
