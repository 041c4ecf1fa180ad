// Loops by templates, in which each `?` stands for an operator that is drawn.
use std::alloc::Global;
use wave_base::types::Memory;
use work_samples::draws::draw;

/// A loop, and whether each of its files has places or else words.
#[derive(Clone, Copy)]
pub struct Template {
    pub text: &'static str,
    pub files: &'static [bool],
}

const PLACES: bool = true;

const WORDS: bool = false;

pub const TEMPLATES: [Template; 8] = [
    // forward substitution
    Template {
        text: "matrix a csr\nvector b n file\nvector x n zero\nrange a.ptr 0 nnz+1\nrange a.col 0 n\nrising a.ptr\nsorted a.col by a.ptr\ndiagonal a.diag of a.col by a.ptr\nloop i\n  set x[i] = b[i]\n  for p in a.ptr[i]..a.diag[i]\n    set x[i] = x[i] ? a.val[p] ? x[a.col[p]]\n  end\n  set x[i] = x[i] ? a.val[a.diag[i]]\nend\n",
        files: &[WORDS],
    },
    // the same with two locals and a bound
    Template {
        text: "matrix a csr\nvector b n file\nvector x n file\nlocal s\nlocal t\nrange a.ptr 0 nnz+1\nrange a.col 0 n\nrising a.ptr\nsorted a.col by a.ptr\ndiagonal a.diag of a.col by a.ptr\nloop i\n  set s = b[i]\n  set t = x[i] ? s\n  for p in a.ptr[i]..a.diag[i]\n    set s = s ? a.val[p] ? x[a.col[p]]\n    set t = max(t ? s, b[i])\n  end\n  set x[i] = min(s ? t, 1000)\nend\n",
        files: &[WORDS, WORDS],
    },
    // a sweep over whole rows
    Template {
        text: "matrix a csr\nvector b n file\nvector x n file\nrange a.ptr 0 nnz+1\nrange a.col 0 n\nrising a.ptr\nsorted a.col by a.ptr\ndiagonal a.diag of a.col by a.ptr\nloop i\n  set x[i] = b[i]\n  for p in a.ptr[i]..a.diag[i]\n    set x[i] = x[i] ? a.val[p] ? x[a.col[p]]\n  end\n  for p in a.diag[i]+1..a.ptr[i+1]\n    set x[i] = x[i] ? a.val[p] ? x[a.col[p]]\n  end\n  set x[i] = x[i] ? a.val[a.diag[i]]\nend\n",
        files: &[WORDS, WORDS],
    },
    // by columns
    Template {
        text: "matrix a csc\nvector x n file\nrange a.ptr 0 nnz+1\nrange a.row 0 n\nrising a.ptr\nsorted a.row by a.ptr\ndiagonal a.diag of a.row by a.ptr\nloop j\n  set x[j] = x[j] ? a.val[a.diag[j]]\n  for p in a.diag[j]+1..a.ptr[j+1]\n    set x[a.row[p]] = x[a.row[p]] ? a.val[p] ? x[j]\n  end\nend\n",
        files: &[WORDS],
    },
    // by columns, into another vector, with a local
    Template {
        text: "matrix a csc\nvector x n file\nvector y n zero\nlocal s\nrange a.ptr 0 nnz+1\nrange a.row 0 n\nrising a.ptr\nsorted a.row by a.ptr\nloop j\n  set s = 3\n  for p in a.ptr[j]..a.ptr[j+1]\n    set s = s ? a.val[p]\n    set y[j] = y[j] ? s ? x[a.row[p]]\n  end\nend\n",
        files: &[WORDS],
    },
    // to places that differ
    Template {
        text: "matrix a csr\nindex q n\nvector b n file\nvector x n zero\nrange q 0 n\ninjective q\nloop i\n  set x[q[i]] = b[i] ? 5\nend\n",
        files: &[PLACES, WORDS],
    },
    // to places that may be the same
    Template {
        text: "matrix a csr\nindex q n\nvector b n file\nvector x n zero\nlocal s\nrange q 0 n\nloop i\n  set s = x[q[i]] ? b[i]\n  set x[q[i]] = s ? x[i]\nend\n",
        files: &[PLACES, WORDS],
    },
    // in an order of rows, before the row alone
    Template {
        text: "matrix a csr\nindex r n\nvector b n file\nvector x n file\nrange a.ptr 0 nnz+1\nrange a.col 0 n\nrange r 0 n\nrising a.ptr\ninjective r\nsorted a.col by a.ptr\ndiagonal a.diag of a.col by a.ptr\nloop i\n  set x[r[i]] = b[r[i]]\n  for p in a.ptr[r[i]]..a.ptr[r[i]+1]\n    when a.col[p] < r[i]\n      set x[r[i]] = x[r[i]] ? a.val[p] ? x[a.col[p]]\n    end\n  end\nend\n",
        files: &[PLACES, WORDS, WORDS],
    },
];

/// An incomplete factor, of which the analysis takes the longest.
pub const FACTOR: Template = Template {
    text: "matrix a csr\nrange a.ptr 0 nnz+1\nrange a.col 0 n\nrising a.ptr\nsorted a.col by a.ptr\ndiagonal a.diag of a.col by a.ptr\nloop i\n  for k in a.ptr[i]..a.diag[i]\n    set a.val[k] = a.val[k] ? a.val[a.diag[a.col[k]]]\n    for m in a.diag[a.col[k]]+1..a.ptr[a.col[k]+1]\n      for l in k+1..a.ptr[i+1]\n        when a.col[l] == a.col[m]\n          set a.val[l] = a.val[l] ? a.val[k] ? a.val[m]\n        end\n      end\n    end\n  end\nend\n",
    files: &[],
};

fn operator(number: u32) -> u8 {
    match number % 4 {
        0 => b'+',
        1 => b'-',
        2 => b'*',
        _ => b'/',
    }
}

/// The text with an operator for each `?`, drawn by a seed.
pub fn with_operators(alloc: Global, text: &str, seed: u32) -> Result<Vec<u8>, Memory> {
    let mut drawn = Vec::new(alloc);
    let mut place = 0u32;
    for byte in text.as_bytes() {
        drawn.push(if *byte == b'?' {
            operator(draw(seed, place, 0))
        } else {
            *byte
        })?;
        place = place.wrapping_add(1);
    }
    Ok(drawn)
}
