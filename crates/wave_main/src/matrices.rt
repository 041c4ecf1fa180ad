// The matrix and the vectors of files.
ghost use Rattle.std.specs.Prelude.{◌≡◌, ◌⊎◌, ◌+◌, ◌<◌, ◌≤◌, ◌^◌, ℕ, List, [], None, Some, MatchResult, IfOk, length};
ghost use Rattle.std.specs.List.{All};
ghost use Rattle.mtx_read.specs.Files.{matrix, vector};
ghost use Rattle.wave_main.specs.Files.{IsFetched, AreFetched};
ghost use Rattle.wave_main.specs.Matrices.{matrix_status, fault_of, matrix_fault, vectors_fault, matrix_of, ok_or, vectors_of};

use crate::status::{MtxFault, Status};
use mtx_read::matrix::read_matrix;
use mtx_read::refusal::{BigKind, MtxRefusal};
use mtx_read::triples::Triples;
use mtx_read::vector::read_vector;
use std::alloc::Global;
use wave_base::words::Words;

/// The refusal of the matrix or the vector that a word names.
pub fn matrix_status(word: u32, refusal: MtxRefusal) -> Status
    ensures { result ≡ matrix_status word refusal }
{
    let cause = match refusal {
        MtxRefusal::Header => MtxFault::Header,
        MtxRefusal::Field { word } => MtxFault::Field { word },
        MtxRefusal::Size { line } => MtxFault::Size { line },
        MtxRefusal::Entry { line, kind } => MtxFault::Entry { line, kind },
        MtxRefusal::Short { have, want } => MtxFault::Short { have, want },
        MtxRefusal::Extra { line } => MtxFault::Extra { line },
        MtxRefusal::Big { what, value } => MtxFault::Big { what, value },
        MtxRefusal::Memory => return Status::Memory,
    };
    Status::MatrixText { word, cause }
}

/// The refusal of a file that is longer than 2^28 bytes.
fn too_long(word: u32) -> Status
    ensures { result ≡ matrix_status word (MtxRefusal.Big BigKind.Bytes (2 ^ 28 + 1)) }
{
    matrix_status(
        word,
        MtxRefusal::Big {
            what: BigKind::Bytes,
            value: (1 << 28) + 1,
        },
    )
}

/// The matrix of a file that was fetched.
pub fn matrix_of(alloc: Global, file: Option<Vec<u8>>) -> Result<Triples, Status>
    ensures answer { (bytes : List ℕ) → IsFetched (2 ^ 28) bytes file → MatchResult result
        (λ t. (matrix_fault bytes ≡ None) × (matrix_of bytes ≡ (t.rows, t.columns, t.entries)))
        (λ status. (status ≡ Status.Memory) ⊎ (matrix_fault bytes ≡ Some status)) }
    ensures inside { IfOk result (λ t. All (λ e. (e.0 < t.rows) × (e.1 < t.columns)) t.entries) }
    ensures few { IfOk result (λ t. length t.entries ≤ 2 ^ 24) }
{
    let Some(bytes) = file else {
        return Err(too_long(2));
    };
    match read_matrix(alloc, bytes.as_slice()) {
        Ok(matrix) => Ok(matrix),
        Err(refusal) => Err(matrix_status(2, refusal)),
    }
}

/// The vector of a file that was fetched, named by a word.
fn vector_of(alloc: Global, word: u32, file: &Option<Vec<u8>>) -> Result<Words, Status>
    ensures { (bytes : List ℕ) → IsFetched (2 ^ 28) bytes file.now → MatchResult result
        (λ v. (fault_of word (vector bytes) ≡ None) × (v ≡ ok_or [] (vector bytes)))
        (λ status. (status ≡ Status.Memory) ⊎ (fault_of word (vector bytes) ≡ Some status)) }
{
    let Some(bytes) = file else {
        return Err(too_long(word));
    };
    match read_vector(alloc, bytes.as_slice()) {
        Ok(values) => Ok(Words::from_vec(values)),
        Err(refusal) => Err(matrix_status(word, refusal)),
    }
}

/// The vectors of files that were fetched, of which the first is named by a word.
pub fn vectors_of(
    alloc: Global,
    first: u32,
    files: &[Option<Vec<u8>>],
) -> Result<Vec<Words>, Status>
    requires { first + length files.now < 2 ^ 32 }
    ensures same { IfOk result (λ vs. length vs.items ≡ length files.now) }
    ensures answer { (bytes : List (List ℕ)) → AreFetched (2 ^ 28) bytes files.now → MatchResult result
        (λ vs. (vectors_fault first bytes ≡ None) × (vs.items ≡ vectors_of bytes))
        (λ status. (status ≡ Status.Memory) ⊎ (vectors_fault first bytes ≡ Some status)) }
{
    let mut vectors = Vec::new(alloc);
    let mut word = first;
    for file in files {
        let vector = vector_of(alloc, word, file)?;
        vectors.push(vector)?;
        word += 1;
    }
    Ok(vectors)
}
