// The largest files, and one past each.
use crate::text::repeated;
use mtx_read::matrix::read_matrix;
use mtx_read::refusal::MtxRefusal;
use mtx_read::vector::read_vector;
use std::io;

const MATRIX: &[u8] =
    b"%%MatrixMarket matrix coordinate pattern general\n1048576 1048576 8388608\n";

const VECTOR: &[u8] = b"%%MatrixMarket matrix array integer general\n16777216 1\n";

const EMPTY: &[u8] = b"%%MatrixMarket matrix array integer general\n0 1\n";

fn said(rt: &HostRuntime, what: &str, read: Result<usize, MtxRefusal>) -> io::Result<()> {
    match read {
        Ok(count) => println!(rt; "{what}: {count}"),
        Err(refusal) => println!(rt; "{what}: {refusal:?}"),
    }
}

fn matrix_of(rt: &HostRuntime, bytes: &[u8]) -> Result<usize, MtxRefusal> {
    let m = read_matrix(rt.alloc(), bytes)?;
    Ok(m.entries.as_slice().len())
}

fn vector_of(rt: &HostRuntime, bytes: &[u8]) -> Result<usize, MtxRefusal> {
    let values = read_vector(rt.alloc(), bytes)?;
    Ok(values.len())
}

/// Reads the largest matrix and vector, one entry more of each, and the longest file and one byte more.
pub fn limits(rt: &HostRuntime) -> io::Result<()> {
    let mut bytes = repeated(rt.alloc(), MATRIX, b"1048576 1048576\n", 8_388_608)?;
    said(rt, "largest matrix", matrix_of(rt, &bytes))?;
    bytes.extend_from_slice(b"1 1\n")?;
    said(rt, "one entry more", matrix_of(rt, &bytes))?;
    let mut bytes = repeated(rt.alloc(), VECTOR, b"1\n", 16_777_216)?;
    said(rt, "longest vector", vector_of(rt, &bytes))?;
    bytes.extend_from_slice(b"1\n")?;
    said(rt, "one value more", vector_of(rt, &bytes))?;
    let mut bytes = repeated(rt.alloc(), EMPTY, b"%\n", 134_217_704)?;
    said(rt, "bytes", Ok(bytes.len()))?;
    said(rt, "longest file", vector_of(rt, &bytes))?;
    bytes.extend_from_slice(b"\n")?;
    said(rt, "one byte more", vector_of(rt, &bytes))
}
