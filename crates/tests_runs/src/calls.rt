// Calls over files and streams in memory.
use std::alloc::Global;
use std::sync::Wait;
use std::thread::Threads;
use wave_base::types::Memory;
use wave_io::gate::{Free, Gate};
use wave_io::mem_library::MemLibrary;
use wave_io::mem_sink::MemSink;
use wave_main::status::Status;
use wave_main::top::wave_main;

pub const LOOP: &str =
    "matrix a csr\nvector b n file\nvector x n zero\nrange a.ptr 0 nnz+1\nrange a.col 0 n\nrising a.ptr\nsorted a.col by a.ptr\ndiagonal a.diag of a.col by a.ptr\nloop i\n  set x[i] = b[i]\n  for p in a.ptr[i]..a.diag[i]\n    set x[i] = x[i] - a.val[p] * x[a.col[p]]\n  end\nend\n";

pub const MATRIX: &str =
    "%%MatrixMarket matrix coordinate integer general\n3 3 5\n1 1 1\n2 1 2\n2 2 1\n3 2 3\n3 3 1\n";

pub const VECTOR: &str = "%%MatrixMarket matrix array integer general\n3 1\n1\n2\n3\n";

pub const RUN_TEXT: &str =
    "relations 12 dropped 10 covered 1 kept 1\nrows 3 stored 5 edges 2\nlevels 3 tasks 3 cross 0 waits 0\narray x 3\n1\n0\n3\n";

/// How a call ended, and what it put.
#[derive(Drop)]
pub struct Outcome {
    pub status: Status,
    pub out: Vec<u8>,
    pub err: Vec<u8>,
}

impl Outcome {
    /// Whether the call ended with that code and put these texts.
    pub fn is(&self, code: u8, out: &str, err: &str) -> bool {
        self.status.code() == code
            && self.out.as_slice() == out.as_bytes()
            && self.err.as_slice() == err.as_bytes()
    }
}

pub fn strings(alloc: Global, words: &[&str]) -> Result<Vec<String>, Memory> {
    let mut strings = Vec::new(alloc);
    for word in words {
        strings.push(String::from_str(alloc, *word)?)?;
    }
    Ok(strings)
}

pub fn library(alloc: Global, files: &[(&str, &str)], fail: &[u64]) -> Result<MemLibrary, Memory> {
    let mut held = Vec::new(alloc);
    for (name, text) in files {
        let name = String::from_str(alloc, *name)?;
        held.push((name, Vec::from_slice(alloc, text.as_bytes())?))?;
    }
    Ok(MemLibrary::new(held, Vec::from_slice(alloc, fail)?))
}

/// A call on words, with a library, a stream for the text and a gate.
pub fn call_over<R: AllocGlobal + Threads + Sync + Wait, G: Gate + Sync>(
    rt: &R,
    words: &[&str],
    mut lib: MemLibrary,
    mut out: MemSink,
    gate: &G,
) -> Result<Outcome, Memory> {
    let alloc = rt.alloc();
    let words = strings(alloc, words)?;
    let mut err = stream(alloc, 100, 100)?;
    let status = if words.len() < 100 {
        wave_main(rt, words.as_slice(), &mut lib, &mut out, &mut err, gate)
    } else {
        Status::Memory
    };
    let out = Vec::from_slice(alloc, out.bytes())?;
    let err = Vec::from_slice(alloc, err.bytes())?;
    Ok(Outcome { status, out, err })
}

/// A stream with room for so many bytes, which takes at most so many at once.
pub fn stream(alloc: Global, room: usize, piece: usize) -> Result<MemSink, Memory> {
    MemSink::new(alloc, room, piece.max(1), Vec::new(alloc))
}

/// A call on words and files, with ample streams, through a gate.
pub fn call_through<R: AllocGlobal + Threads + Sync + Wait, G: Gate + Sync>(
    rt: &R,
    words: &[&str],
    files: &[(&str, &str)],
    gate: &G,
) -> Result<Outcome, Memory> {
    let alloc = rt.alloc();
    let lib = library(alloc, files, &[])?;
    let out = stream(alloc, 1000, 1000)?;
    call_over(rt, words, lib, out, gate)
}

/// A call on words and files, with ample streams and a gate that does nothing.
pub fn call<R: AllocGlobal + Threads + Sync + Wait>(
    rt: &R,
    words: &[&str],
    files: &[(&str, &str)],
) -> Result<Outcome, Memory> {
    call_through(rt, words, files, &Free)
}
