// Files, fetched whole.
ghost use Rattle.std.specs.Prelude.{◌≡◌, ℕ, List, ◌+◌, ◌<◌, ◌≤◌, ◌^◌, ◌⊎◌, [], ◌∷◌, drop, length, IfOk, IfErr};
ghost use Rattle.wave_io.specs.Faults.{Rose};
ghost use Rattle.wave_words.specs.Words.{texts};
ghost use Rattle.wave_main.specs.Files.{IsOfFile, AreOfFiles, word_of};
ghost use Rattle.wave_main.specs.Fetching.{IsFaultFrom, IsInputFault, IsInputFetched};

use crate::status::Status;
use crate::words::word_at;
use std::alloc::Global;
use wave_io::library::Library;
use wave_io::read_all::{ReadCause, read_all};

/// The most bytes of a loop file.
pub const LOOP_LIMIT: u64 = 65536;

/// The most bytes of a matrix or vector file: 2^28.
const FILE_LIMIT: u64 = 268435456;

/// The bytes of the file that the word at a place names, and `None` where it has more than the
/// limit. A fault of the library is a `ReadFault` of that word.
pub fn fetch_file<L: Library>(
    alloc: Global,
    lib: &mut L,
    name: &str,
    word: u32,
    limit: u64,
) -> Result<Option<Vec<u8>>, Status>
    requires { limit ≤ 2 ^ 28 }
    ensures file { IfOk result (λ file. IsOfFile limit (L.held lib.old name.now) file) }
    ensures fault { IfErr result (λ status. (status ≡ Status.Memory) ⊎
        ((status ≡ Status.ReadFault word) × Rose (L.faults lib.old name.now) (L.faults lib.new name.now))) }
    ensures never_fall { (other : List ℕ) → L.faults lib.old other ≤ L.faults lib.new other }
    ensures stays { (other : List ℕ) → L.held lib.new other ≡ L.held lib.old other }
{
    match read_all(alloc, lib, name, limit) {
        Ok(bytes) => Ok(Some(bytes)),
        Err(ReadCause::Long) => Ok(None),
        Err(ReadCause::Failed) => Err(Status::ReadFault { word }),
        Err(ReadCause::Memory) => Err(Status::Memory),
    }
}

/// The bytes of the vector files that these words name, of which the first has a place, up to the first fault.
fn fetch_vectors<L: Library>(
    alloc: Global,
    lib: &mut L,
    names: &[String],
    first: u32,
) -> Result<Vec<Option<Vec<u8>>>, Status>
    requires { first + length names.now < 2 ^ 32 }
    ensures files { IfOk result (λ got. AreOfFiles (L.held lib.old) (texts names.now) got.items) }
    ensures fault { IfErr result (λ status. (status ≡ Status.Memory) ⊎ IsFaultFrom first (texts names.now) (L.faults lib.old) (L.faults lib.new) status) }
    ensures never_fall { (other : List ℕ) → L.faults lib.old other ≤ L.faults lib.new other }
    ensures stays { (other : List ℕ) → L.held lib.new other ≡ L.held lib.old other }
{
    let mut files = Vec::new(alloc);
    for at in 0..names.len() {
        let word = first + at as u32;
        let file = fetch_file(alloc, lib, names[at].as_str(), word, FILE_LIMIT)?;
        files.push(file)?;
    }
    Ok(files)
}

/// The bytes of the files of a loop with its arrays; `None` where a file has more than its limit.
#[derive(Drop)]
pub struct InputBytes {
    pub loop_file: Option<Vec<u8>>,
    pub matrix: Option<Vec<u8>>,
    pub vectors: Vec<Option<Vec<u8>>>,
}

/// Fetches the loop, the matrix and the vectors, which begin at the word `first`, in the order of
/// their words and up to the first fault.
pub fn fetch_inputs<L: Library>(
    alloc: Global,
    lib: &mut L,
    words: &[String],
    first: u32,
) -> Result<InputBytes, Status>
    requires apart { 3 ≤ first }
    requires within { first ≤ length words.now }
    requires few { length words.now < 2 ^ 32 }
    ensures fetched { IfOk result (λ got. (files : List (List ℕ)) × IsInputFetched (L.held lib.old) (texts words.now) first files got) }
    ensures count { IfOk result (λ got. first + length got.vectors.items ≡ length words.now) }
    ensures fault { IfErr result (λ status. (status ≡ Status.Memory) ⊎ IsInputFault first (texts words.now) (L.faults lib.old) (L.faults lib.new) status) }
    ensures never_fall { (other : List ℕ) → L.faults lib.old other ≤ L.faults lib.new other }
    ensures stays { (other : List ℕ) → L.held lib.new other ≡ L.held lib.old other }
{
    let loop_file = fetch_loop(alloc, lib, words)?;
    let matrix = fetch_file(alloc, lib, word_at(words, 2), 2, FILE_LIMIT)?;
    let vectors = fetch_vectors(alloc, lib, &words[first as usize..], first)?;
    Ok(InputBytes {
        loop_file,
        matrix,
        vectors,
    })
}

/// Fetches the loop file.
pub fn fetch_loop<L: Library>(
    alloc: Global,
    lib: &mut L,
    words: &[String],
) -> Result<Option<Vec<u8>>, Status>
    ensures file { IfOk result (λ file. IsOfFile 65536 (L.held lib.old (word_of (texts words.now) 1)) file) }
    ensures fault { IfErr result (λ status. (status ≡ Status.Memory) ⊎
        ((status ≡ Status.ReadFault 1) × Rose (L.faults lib.old (word_of (texts words.now) 1)) (L.faults lib.new (word_of (texts words.now) 1)))) }
    ensures never_fall { (other : List ℕ) → L.faults lib.old other ≤ L.faults lib.new other }
    ensures stays { (other : List ℕ) → L.held lib.new other ≡ L.held lib.old other }
{
    fetch_file(alloc, lib, word_at(words, 1), 1, LOOP_LIMIT)
}
