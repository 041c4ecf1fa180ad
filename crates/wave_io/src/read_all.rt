// A whole file out of a library.
ghost use Rattle.std.specs.Prelude.{◌≡◌, ◌+◌, ◌^◌, ◌<◌, ◌≤◌, ℕ, List, IfOk, IfSome, OnErr, IsErrOf, vec_len, length, min};
ghost use Rattle.wave_io.specs.Faults.{Rose};
ghost use Rattle.wave_io.specs.Files.{EndsExactly, Begin};

use crate::failed::Failed;
use crate::library::Library;
use std::alloc::{AllocError, Global};

/// Why a file wasn't read.
#[derive(Clone, Copy, Debug, PartialEq, Eq)]
pub enum ReadCause {
    /// The library failed.
    Failed,
    /// The file has more bytes than the limit.
    Long,
    /// Out of memory.
    Memory,
}

impl From<Failed> for ReadCause {
    ghost use Rattle.wave_io.specs.declared.read_all.ReadCause.TheVariants.{Failed as OfLibrary};

    ghost from_gives = { λ _ e. e ≡ OfLibrary };

    fn from(_fault: Failed) -> ReadCause {
        ReadCause::Failed
    }
}

impl From<AllocError> for ReadCause {
    ghost use Rattle.wave_io.specs.declared.read_all.ReadCause.TheVariants.{Memory as OfMemory};

    ghost from_gives = { λ _ e. e ≡ OfMemory };

    fn from(_refused: AllocError) -> ReadCause {
        ReadCause::Memory
    }
}

/// The most bytes that one fetch asks for.
const PIECE: u64 = 65536;

/// The bytes of the file `name`, at most `limit` of them. It fetches from the front, in pieces of
/// at most 65,536 bytes, until nothing comes, and never asks for more than `limit + 1` bytes in all.
pub fn read_all<L: Library>(
    alloc: Global,
    lib: &mut L,
    name: &str,
    limit: u64,
) -> Result<Vec<u8>, ReadCause>
    requires { limit ≤ 2 ^ 28 }
    ensures whole { IfOk result (λ v. IfSome (L.held lib.old name.now) (λ all. v.items ≡ all)) }
    ensures within { IfOk result (λ v. vec_len v ≤ limit) }
    ensures long { IsErrOf result ReadCause.Long →
        IfSome (L.held lib.old name.now) (λ all. limit < length all) }
    ensures failed { IsErrOf result ReadCause.Failed →
        Rose (L.faults lib.old name.now) (L.faults lib.new name.now) }
    ensures never_fall { (other : List ℕ) → L.faults lib.old other ≤ L.faults lib.new other }
    ensures stays { (other : List ℕ) → L.held lib.new other ≡ L.held lib.old other }
{
    let mut bytes = Vec::new(alloc);
    let mut filled: usize = 0;
    while filled as u64 <= limit {
        let count = fetch_piece(lib, name, limit, &mut bytes, filled)?;
        if count == 0 {
            bytes.truncate(filled);
            return Ok(bytes);
        }
        filled += count;
    }
    Err(ReadCause::Long)
}

// Fetches from the place `filled` on, right after the bytes that were fetched before.
fn fetch_piece<L: Library>(
    lib: &mut L,
    name: &str,
    limit: u64,
    bytes: &mut Vec<u8>,
    filled: usize,
) -> Result<usize, ReadCause>
    requires limit { limit ≤ 2 ^ 28 }
    requires open { filled ≤ limit }
    requires filled { filled ≤ vec_len bytes.old }
    requires tail { vec_len bytes.old ≤ min (filled + PIECE) (limit + 1) }
    ensures tail { IfOk result (λ k. (filled + k ≤ vec_len bytes.new)
        × (vec_len bytes.new ≤ min (filled + PIECE) (limit + 1))) }
    ensures bytes { IfOk result (λ k. IfSome (L.held lib.old name.now)
        (λ all. Begin all bytes.old.items filled → Begin all bytes.new.items (filled + k))) }
    ensures end { IfOk result (λ k. IfSome (L.held lib.old name.now) (λ all. EndsExactly all filled k)) }
    ensures failed { IsErrOf result ReadCause.Failed →
        Rose (L.faults lib.old name.now) (L.faults lib.new name.now) }
    ensures not_long { ¬ (IsErrOf result ReadCause.Long) }
    ensures never_fall { (other : List ℕ) → L.faults lib.old other ≤ L.faults lib.new other }
    ensures stays { (other : List ℕ) → L.held lib.new other ≡ L.held lib.old other }
{
    let piece = PIECE.min(limit + 1 - filled as u64);
    bytes.resize(filled + piece as usize, 0)?;
    let count = fetch_after(lib, name, bytes, filled)?;
    Ok(count)
}

// Fetches into all the bytes from the place `filled` on, and leaves those before it.
fn fetch_after<L: Library>(
    lib: &mut L,
    name: &str,
    bytes: &mut [u8],
    filled: usize,
) -> Result<usize, Failed>
    requires { filled < length bytes.old }
    ensures count { IfOk result (λ k. filled + k ≤ length bytes.new) }
    ensures bytes { IfOk result (λ k. IfSome (L.held lib.old name.now)
        (λ all. Begin all bytes.old filled → Begin all bytes.new (filled + k))) }
    ensures end { IfOk result (λ k. IfSome (L.held lib.old name.now) (λ all. EndsExactly all filled k)) }
    ensures failed { OnErr result (Rose (L.faults lib.old name.now) (L.faults lib.new name.now)) }
    ensures never_fall { (other : List ℕ) → L.faults lib.old other ≤ L.faults lib.new other }
    ensures stays { (other : List ℕ) → L.held lib.new other ≡ L.held lib.old other }
{
    lib.fetch(name, filled as u64, &mut bytes[filled..])
}
