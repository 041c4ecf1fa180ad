// Made matrices and right sides: small ones by hand, and drawn ones from another language.
use csr_arrays::compressed::Compressed;
use csr_arrays::csr::csr;
use mtx_read::matrix::read_matrix;
use wave_base::types::Memory;
use wave_gen::grid::grid;
use wave_gen::lower::lower;
use wave_gen::right_side::right_side;

const ONE: &[u8] = b"%%MatrixMarket matrix coordinate integer general\n1 1 1\n1 1 4\n";

const TWO: &[u8] =
    b"%%MatrixMarket matrix coordinate integer general\n4 4 12\n1 1 4\n1 2 -1\n1 3 -1\n2 1 -1\n2 2 4\n2 4 -1\n3 1 -1\n3 3 4\n3 4 -1\n4 2 -1\n4 3 -1\n4 4 4\n";

const DRAWN: &[u8] =
    b"%%MatrixMarket matrix coordinate integer general\n3 3 9\n1 1 9\n2 1 -8\n2 1 -4\n2 1 -2\n2 2 3\n3 1 8\n3 2 3\n3 1 2\n3 3 1\n";

/// Four rows, from the greatest seed.
const GREATEST: &[u8] =
    b"%%MatrixMarket matrix coordinate integer general\n4 4 13\n1 1 5\n2 1 0\n2 1 6\n2 1 1\n2 2 6\n3 1 4\n3 2 1\n3 1 4\n3 3 3\n4 2 -8\n4 2 -2\n4 1 5\n4 4 6\n";

fn is(text: Result<Vec<u8>, Memory>, want: &[u8]) -> bool {
    match text {
        Ok(text) => text.as_slice() == want,
        Err(_) => false,
    }
}

#[test]
fn grids(rt: HostRuntime) {
    assert!(rt; is(grid(rt.alloc(), 1), ONE));
    assert!(rt; is(grid(rt.alloc(), 2), TWO));
}

#[test]
fn drawn_matrices(rt: HostRuntime) {
    assert!(rt; is(lower(rt.alloc(), 3, 0), DRAWN));
    assert!(rt; is(lower(rt.alloc(), 4, 18446744073709551615), GREATEST));
}

/// How many rows and entries a text has.
fn counted(rt: &HostRuntime, text: Result<Vec<u8>, Memory>) -> Option<(u32, usize)> {
    let Ok(text) = text else {
        return None;
    };
    match read_matrix(rt.alloc(), &text) {
        Ok(m) => Some((m.rows, m.entries.as_slice().len())),
        Err(_) => None,
    }
}

#[test]
fn texts_are_read(rt: HostRuntime) {
    assert_eq!(rt; counted(&rt, grid(rt.alloc(), 30)), Some((900, 4380)));
    assert_eq!(rt;
        counted(&rt, lower(rt.alloc(), 1000, 7)),
        Some((1000, 3997))
    );
}

fn arrays(rt: &HostRuntime, text: &[u8]) -> Option<Compressed> {
    let Ok(m) = read_matrix(rt.alloc(), text) else {
        return None;
    };
    if m.columns != m.rows {
        return None;
    }
    csr(rt.alloc(), &m).ok()
}

fn has_right_side(rt: &HostRuntime, text: &[u8], want: &[i64]) -> bool {
    let Some(m) = arrays(rt, text) else {
        return false;
    };
    match right_side(rt.alloc(), &m) {
        Ok(b) => b.as_slice() == want,
        Err(_) => false,
    }
}

#[test]
fn right_sides(rt: HostRuntime) {
    assert!(rt; has_right_side(&rt, TWO, &[4, 7, 11, 11]));
    assert!(rt; has_right_side(&rt, DRAWN, &[9, -8, 19]));
}
