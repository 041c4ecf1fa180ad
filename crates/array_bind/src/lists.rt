// A list for each array number.
ghost use Rattle.std.specs.Prelude.{◌≡◌, ◌++◌, [], ◌∷◌, pos, replicate, OnOk, IfOk};
ghost use Rattle.loop_core.specs.Sizes.{size_length};
ghost use Rattle.array_bind.specs.Lists.{none_left, index_of, data_of, matrix_after, files_after};

use crate::files::Files;
use crate::shape::size_length;
use csr_arrays::compressed::Compressed;
use loop_core::decl::{DeclKind, Size, Source};
use std::alloc::Global;
use wave_base::types::Memory;
use wave_base::words::Words;

/// The index arrays and the data arrays so far, each with a list for each array number.
#[derive(Drop)]
pub struct ArrayLists {
    pub index: Vec<Words>,
    pub values: Vec<Words>,
}

fn no_words(alloc: Global) -> Words
    ensures { result ≡ [] }
{
    Words::from_vec(Vec::new(alloc))
}

fn zeros(alloc: Global, size: Size, n: u32, nnz: u32) -> Result<Words, Memory>
    ensures { IfOk result (λ words. words ≡ replicate (size_length n nnz size) (pos 0)) }
{
    let words = vec![in alloc; 0i64; size_length(size, n, nnz) as usize]?;
    Ok(Words::from_vec(words))
}

/// Puts an index array.
fn put_index(alloc: Global, lists: &mut ArrayLists, words: Words) -> Result<(), Memory>
    ensures index { OnOk result (lists.new.index.items ≡ lists.old.index.items ++ words ∷ []) }
    ensures values { OnOk result (lists.new.values.items ≡ lists.old.values.items ++ [] ∷ []) }
{
    lists.index.push(words)?;
    lists.values.push(no_words(alloc))?;
    Ok(())
}

/// Puts a data array.
fn put_data(alloc: Global, lists: &mut ArrayLists, words: Words) -> Result<(), Memory>
    ensures index { OnOk result (lists.new.index.items ≡ lists.old.index.items ++ [] ∷ []) }
    ensures values { OnOk result (lists.new.values.items ≡ lists.old.values.items ++ words ∷ []) }
{
    lists.index.push(no_words(alloc))?;
    lists.values.push(words)?;
    Ok(())
}

/// Puts the arrays of a matrix.
fn put_matrix(alloc: Global, lists: &mut ArrayLists, matrix: Compressed) -> Result<(), Memory>
    ensures index { OnOk result (lists.new.index.items ≡ lists.old.index.items ++ matrix.ptr ∷ matrix.index ∷ matrix.diag ∷ [] ∷ []) }
    ensures values { OnOk result (lists.new.values.items ≡ lists.old.values.items ++ [] ∷ [] ∷ [] ∷ matrix.val ∷ []) }
{
    let Compressed {
        ptr,
        index,
        diag,
        val,
    } = matrix;
    put_index(alloc, lists, ptr)?;
    put_index(alloc, lists, index)?;
    put_index(alloc, lists, diag)?;
    put_data(alloc, lists, val)
}

fn none_left(alloc: Global) -> Compressed
    ensures { result ≡ none_left }
{
    Compressed {
        ptr: no_words(alloc),
        index: no_words(alloc),
        diag: no_words(alloc),
        val: no_words(alloc),
    }
}

/// What is left to be taken: the matrix, and files.
#[derive(Drop)]
pub struct Sources {
    pub matrix: Compressed,
    pub files: Files,
}

/// Puts the arrays of a declaration, which takes its part of what is left.
pub fn put_declared(
    alloc: Global,
    lists: &mut ArrayLists,
    sources: Sources,
    kind: DeclKind,
    n: u32,
    nnz: u32,
) -> Result<Sources, Memory>
    ensures index { OnOk result (lists.new.index.items ≡ lists.old.index.items ++ index_of sources.matrix kind sources.files) }
    ensures values { OnOk result (lists.new.values.items ≡ lists.old.values.items ++ data_of n nnz sources.matrix kind sources.files) }
    ensures left { IfOk result (λ left. (left.matrix ≡ matrix_after kind sources.matrix) × (left.files ≡ files_after kind sources.files)) }
{
    let Sources { matrix, mut files } = sources;
    match kind {
        DeclKind::Matrix(_) => {
            put_matrix(alloc, lists, matrix)?;
            Ok(Sources {
                matrix: none_left(alloc),
                files,
            })
        }
        DeclKind::Index(_) => {
            let file = files.next(alloc);
            put_index(alloc, lists, file)?;
            Ok(Sources { matrix, files })
        }
        DeclKind::Vector(_, Source::File) => {
            let file = files.next(alloc);
            put_data(alloc, lists, file)?;
            Ok(Sources { matrix, files })
        }
        DeclKind::Vector(size, Source::Zeros) => {
            let words = zeros(alloc, size, n, nnz)?;
            put_data(alloc, lists, words)?;
            Ok(Sources { matrix, files })
        }
    }
}
