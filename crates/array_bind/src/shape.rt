// Whether a matrix and files fit a nest.
ghost use Rattle.std.specs.Prelude.{◌≡◌, ◌+◌, ◌<◌, ◌≤◌, ◌^◌, ◌++◌, length, IfOk, IfSome};
ghost use Rattle.loop_core.specs.Sizes.{size_length};
ghost use Rattle.array_bind.specs.declared.shape.ShapeRefusal.TheVariants.{Memory as OutOfMemory};
ghost use Rattle.array_bind.specs.Shape.{file_size, before, file_sizes, length_fault};

use loop_core::decl::{Decl, DeclKind, Size, Source};
use std::alloc::{AllocError, AllocFailed, Global};
use wave_base::types::Memory;
use wave_base::words::Words;

/// Why a matrix and files don't fit a nest, or that memory ran out. Files count from 0.
#[derive(Clone, Copy, Debug, PartialEq, Eq)]
pub enum ShapeRefusal {
    /// The matrix isn't square.
    NotSquare { rows: u32, columns: u32 },
    /// There is another number of files than of arrays that begin with the words of one.
    Files { have: u32, want: u32 },
    /// The first file that hasn't as many words as its array.
    Length { file: u32, have: u64, want: u64 },
    /// Out of memory. It says nothing of the shapes.
    Memory,
}

impl From<Memory> for ShapeRefusal {
    ghost from_gives = { λ _ e. e ≡ OutOfMemory };

    fn from(_refused: Memory) -> ShapeRefusal {
        ShapeRefusal::Memory
    }
}

impl From<AllocError> for ShapeRefusal {
    ghost from_gives = { λ _ e. e ≡ OutOfMemory };

    fn from(_refused: AllocError) -> ShapeRefusal {
        ShapeRefusal::Memory
    }
}

impl<T: Drop> From<AllocFailed<T>> for ShapeRefusal {
    ghost from_gives = { λ _ e. e ≡ OutOfMemory };

    fn from(_refused: AllocFailed<T>) -> ShapeRefusal {
        ShapeRefusal::Memory
    }
}

/// The size of the array that begins with the words of a file, where a declaration has one.
fn file_size(kind: DeclKind) -> Option<Size>
    ensures { result ≡ file_size kind }
{
    match kind {
        DeclKind::Matrix(_) => None,
        DeclKind::Index(size) => Some(size),
        DeclKind::Vector(size, Source::File) => Some(size),
        DeclKind::Vector(_, Source::Zeros) => None,
    }
}

/// The sizes of the arrays that begin with the words of a file, in the order of their declarations.
pub fn file_sizes(alloc: Global, decls: &[Decl]) -> Result<Vec<Size>, Memory>
    ensures { IfOk result (λ sizes. sizes.items ≡ file_sizes decls.now) }
{
    let mut sizes = Vec::new(alloc);
    for decl in decls {
        if let Some(size) = file_size(decl.kind) {
            sizes.push(size)?;
        }
    }
    Ok(sizes)
}

/// The length of an array of a size.
pub fn size_length(size: Size, n: u32, nnz: u32) -> u64
    ensures { result ≡ size_length n nnz size }
{
    match size {
        Size::N => u64::from(n),
        Size::NPlusOne => u64::from(n) + 1,
        Size::Nnz => u64::from(nnz),
    }
}

/// A file, from 0, that has another number of words than its array.
#[derive(Clone, Copy, Debug, PartialEq, Eq)]
pub struct OtherLength {
    pub file: u32,
    pub have: u64,
    pub want: u64,
}

/// The first file that hasn't as many words as its array.
pub fn length_fault(n: u32, nnz: u32, sizes: &[Size], files: &[Words]) -> Option<OtherLength>
    requires same { length files.now ≡ length sizes.now }
    requires few { length files.now < 2 ^ 32 }
    ensures fault { result ≡ length_fault n nnz 0 sizes.now files.now }
    ensures within { IfSome result (λ other. other.file ≤ length files.now) }
{
    let mut at = 0;
    while at < files.len() {
        let have = files[at].len() as u64;
        let want = size_length(sizes[at], n, nnz);
        if have != want {
            return Some(OtherLength {
                file: at as u32,
                have,
                want,
            });
        }
        at += 1;
    }
    None
}
