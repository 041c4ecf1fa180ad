// Texts of matrices and vectors.
ghost use Rattle.std.specs.Prelude.{◌≤◌};

use itoa::Buffer;
use std::alloc::{AllocError, Global};

/// A place from 1 to a million, which jumps about as `k` rises.
fn place(k: u32, step: u32) -> u32
    ensures least { 1 ≤ result }
    ensures most { result ≤ 1000000 }
{
    k.wrapping_mul(step) % 1_000_000 + 1
}

/// A value of either sign.
fn value(k: u32) -> i64 {
    i64::from(k.wrapping_mul(2_654_435_761)) - 2_000_000_000
}

fn put_number(text: &mut Vec<u8>, number: i64) -> Result<(), AllocError> {
    let mut buffer = Buffer::new();
    text.extend_from_slice(buffer.format(number).as_bytes())
}

fn put_entry(text: &mut Vec<u8>, k: u32) -> Result<(), AllocError> {
    put_number(text, i64::from(place(k, 613)))?;
    text.extend_from_slice(b" ")?;
    put_number(text, i64::from(place(k, 100_003)))?;
    text.extend_from_slice(b" ")?;
    put_number(text, value(k))?;
    text.extend_from_slice(b"\n")
}

fn put_value(text: &mut Vec<u8>, k: u32) -> Result<(), AllocError> {
    put_number(text, value(k))?;
    text.extend_from_slice(b"\n")
}

/// The text of a matrix of a million rows, or of a vector, with a number of lines.
pub fn made(alloc: Global, is_matrix: bool, lines: u32) -> Result<Vec<u8>, AllocError> {
    let mut text = Vec::new(alloc);
    if is_matrix {
        text.extend_from_slice(
            b"%%MatrixMarket matrix coordinate integer general\n1000000 1000000 ",
        )?;
        put_number(&mut text, i64::from(lines))?;
    } else {
        text.extend_from_slice(b"%%MatrixMarket matrix array integer general\n")?;
        put_number(&mut text, i64::from(lines))?;
        text.extend_from_slice(b" 1")?;
    }
    text.extend_from_slice(b"\n")?;
    for k in 0..lines {
        if is_matrix {
            put_entry(&mut text, k)?;
        } else {
            put_value(&mut text, k)?;
        }
    }
    Ok(text)
}

/// A first part, and then one line many times.
pub fn repeated(
    alloc: Global,
    first: &[u8],
    line: &[u8],
    times: u32,
) -> Result<Vec<u8>, AllocError> {
    let mut text = Vec::from_slice(alloc, first)?;
    for _time in 0..times {
        text.extend_from_slice(line)?;
    }
    Ok(text)
}
