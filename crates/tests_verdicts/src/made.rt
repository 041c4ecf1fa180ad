// Texts with some of five properties, all of which are accepted.
use std::alloc::Global;
use std::test::Fail;

const FRONT: &[u8] =
    b"matrix a csr\nindex q n\nindex r n\nvector x n file\nvector z nnz file\nrange q 0 n\nrange r 0 n\nrange a.ptr 0 nnz+1\nrange a.col 0 n\n";

/// A copy between places of two index files.
pub const COPY: &[u8] = b"set x[q[i]] = x[r[i]]\n";

/// Reads through one and two index files.
pub const GATHER: &[u8] = b"set x[i] = x[q[i]] + x[r[q[i]]]\n";

/// Writes at the columns of a row.
pub const SPREAD: &[u8] =
    b"for p in a.ptr[i]..a.ptr[i+1]\nset x[a.col[p]] = x[a.col[p]] + x[i]\nend\n";

/// Writes through the columns of a row and an index file.
pub const MAPPED: &[u8] = b"for p in a.ptr[i]..a.ptr[i+1]\nset x[q[a.col[p]]] = x[i]\nend\n";

/// Entries of a row from those of another.
pub const ROWS: &[u8] =
    b"for p in a.ptr[i]..a.ptr[i+1]\nfor s in a.ptr[q[i]]..a.ptr[q[i]+1]\nset z[p] = z[s]\nend\nend\n";

/// A copy inside a guard.
pub const GUARDED: &[u8] = b"when q[i] < r[i]\nset x[q[i]] = x[r[i]]\nend\n";

/// Two index files in one another, both ways round.
pub const CROSSED: &[u8] = b"set x[q[r[i]]] = x[r[q[i]]] + x[i]\n";

fn push_if(text: &mut Vec<u8>, yes: bool, line: &[u8]) -> Result<(), Fail> {
    if yes {
        text.extend_from_slice(line)?;
    }
    Ok(())
}

fn push_props(text: &mut Vec<u8>, set: u32) -> Result<(), Fail> {
    push_if(text, set & 1 == 1, b"injective q\n")?;
    push_if(text, set & 2 == 2, b"strict r\n")?;
    push_if(text, set & 4 == 4, b"before q r\n")?;
    push_if(text, set & 8 == 8, b"sorted a.col by a.ptr\n")?;
    push_if(text, set & 16 == 16, b"rising a.ptr\n")
}

/// The text with the properties of a set, and a body.
pub fn made(alloc: Global, set: u32, body: &[u8]) -> Result<Vec<u8>, Fail> {
    let mut text = Vec::from_slice(alloc, FRONT)?;
    push_props(&mut text, set)?;
    text.extend_from_slice(b"loop i\n")?;
    text.extend_from_slice(body)?;
    text.extend_from_slice(b"end\n")?;
    Ok(text)
}
