// Compressed arrays: known ones by hand, and both bodies on made matrices.
ghost use Rattle.std.specs.Prelude.{◌≡◌, ◌≤◌, ◌<◌, ◌^◌, length};
ghost use Rattle.std.specs.List.{All};

use csr_arrays::compressed::Compressed;
use csr_arrays::csr::{csc, csr};
use csr_arrays::plain::{csc_by_places, csr_by_places};
use mtx_read::matrix::read_matrix;
use mtx_read::triples::Triples;

fn quick(rt: &HostRuntime, by_rows: bool, m: &Triples) -> Option<Compressed>
    requires square { m.now.columns ≡ m.now.rows }
    requires few { length m.now.entries ≤ 2 ^ 24 }
    requires inside { All (λ e. (e.0 < m.now.rows) × (e.1 < m.now.columns)) m.now.entries }
{
    if by_rows {
        csr(rt.alloc(), m).ok()
    } else {
        csc(rt.alloc(), m).ok()
    }
}

fn plain(rt: &HostRuntime, by_rows: bool, m: &Triples) -> Option<Compressed>
    requires square { m.now.columns ≡ m.now.rows }
    requires few { length m.now.entries ≤ 2 ^ 24 }
    requires inside { All (λ e. (e.0 < m.now.rows) × (e.1 < m.now.columns)) m.now.entries }
{
    if by_rows {
        csr_by_places(rt.alloc(), m).ok()
    } else {
        csc_by_places(rt.alloc(), m).ok()
    }
}

/// The arrays of a text by the quick body and by the plain one.
fn both(rt: &HostRuntime, by_rows: bool, text: &[u8]) -> Option<(Compressed, Compressed)> {
    let Ok(m) = read_matrix(rt.alloc(), text) else {
        return None;
    };
    if m.columns != m.rows {
        return None;
    }
    match (quick(rt, by_rows, &m), plain(rt, by_rows, &m)) {
        (Some(one), Some(other)) => Some((one, other)),
        _ => None,
    }
}

fn has(m: &Compressed, ptr: &[i64], index: &[i64], diag: &[i64], val: &[i64]) -> bool {
    m.ptr.as_slice() == ptr
        && m.index.as_slice() == index
        && m.diag.as_slice() == diag
        && m.val.as_slice() == val
}

const SKEW: &[u8] =
    b"%%MatrixMarket matrix coordinate integer skew-symmetric\n2 2 1\n2 1 -9223372036854775808\n";

const PATTERN: &[u8] = b"%%MatrixMarket matrix coordinate pattern symmetric\n2 2 2\n1 1\n2 1\n";

const TWICE: &[u8] = b"%%MatrixMarket matrix coordinate integer general\n1 1 2\n1 1 2\n1 1 3\n";

const NO_ROWS: &[u8] = b"%%MatrixMarket matrix coordinate integer general\n0 0 0\n";

const MIXED: &[u8] =
    b"%%MatrixMarket matrix coordinate integer general\n3 3 7\n3 3 1\n1 3 2\n3 1 3\n1 1 4\n3 1 -3\n1 3 9223372036854775807\n2 1 6\n";

const LEAST: i64 = -9223372036854775808;

#[test]
fn known_arrays(rt: HostRuntime) {
    let table: [(bool, &[u8], &[i64], &[i64], &[i64], &[i64]); 7] = [
        (true, SKEW, &[0, 1, 2], &[1, 0], &[0, 2], &[LEAST, LEAST]),
        (false, PATTERN, &[0, 2, 3], &[0, 1, 0], &[0, 3], &[1, 1, 1]),
        (true, TWICE, &[0, 1], &[0], &[0], &[5]),
        (true, NO_ROWS, &[0], &[], &[], &[]),
        (false, NO_ROWS, &[0], &[], &[], &[]),
        (
            true,
            MIXED,
            &[0, 2, 3, 5],
            &[0, 2, 0, 0, 2],
            &[0, 3, 4],
            &[4, LEAST + 1, 6, 0, 1],
        ),
        (
            false,
            MIXED,
            &[0, 3, 3, 5],
            &[0, 1, 2, 0, 2],
            &[0, 3, 4],
            &[4, 6, 0, LEAST + 1, 1],
        ),
    ];
    for (by_rows, text, ptr, index, diag, val) in table {
        match both(&rt, by_rows, text) {
            Some((one, other)) => {
                assert!(rt; has(&one, ptr, index, diag, val) && has(&other, ptr, index, diag, val))
            }
            None => assert!(rt; false),
        }
    }
}

/// A row, a column and a value, each a digit from 1 to 9.
type Place = (u8, u8, u8);

fn digit(number: u32) -> u8 {
    (number % 9) as u8 + b'1'
}

/// Sixty places that follow from a counter, some more than once.
fn made(rt: &HostRuntime) -> Option<Vec<Place>> {
    let mut places = Vec::new(rt.alloc());
    let mut seed: u32 = 1;
    for _turn in 0..60 {
        seed = seed.wrapping_mul(1_664_525).wrapping_add(1_013_904_223);
        let place = (digit(seed >> 8), digit(seed >> 16), digit(seed >> 24));
        if places.push(place).is_err() {
            return None;
        }
    }
    Some(places)
}

/// The file of sixty places in this order.
fn text_of(rt: &HostRuntime, places: &[Place]) -> Option<Vec<u8>> {
    let head = b"%%MatrixMarket matrix coordinate integer general\n9 9 60\n";
    let Ok(mut text) = Vec::from_slice(rt.alloc(), head) else {
        return None;
    };
    for (row, column, value) in places {
        let line = [*row, b' ', *column, b' ', *value, b'\n'];
        if text.extend_from_slice(&line).is_err() {
            return None;
        }
    }
    Some(text)
}

fn is_same(rt: &HostRuntime, by_rows: bool, text: &[u8]) -> bool {
    match both(rt, by_rows, text) {
        Some((one, other)) => has(
            &one,
            other.ptr.as_slice(),
            other.index.as_slice(),
            other.diag.as_slice(),
            other.val.as_slice(),
        ),
        None => false,
    }
}

/// Whether both bodies give the same arrays of sixty places in this order, by rows and by columns.
fn agree(rt: &HostRuntime, places: &[Place]) -> bool {
    match text_of(rt, places) {
        Some(text) => is_same(rt, true, &text) && is_same(rt, false, &text),
        None => false,
    }
}

fn agree_as_made(rt: &HostRuntime) -> bool {
    match made(rt) {
        Some(places) => agree(rt, &places),
        None => false,
    }
}

fn agree_by_rows(rt: &HostRuntime) -> bool {
    match made(rt) {
        Some(mut places) => places.sort_by_key(|place| (place.0, place.1)).is_ok()
            && agree(rt, &places),
        None => false,
    }
}

fn agree_by_columns(rt: &HostRuntime) -> bool {
    match made(rt) {
        Some(mut places) => places.sort_by_key(|place| (place.1, place.0)).is_ok()
            && agree(rt, &places),
        None => false,
    }
}

fn agree_in_one_row(rt: &HostRuntime) -> bool {
    match made(rt) {
        Some(mut places) => {
            for place in places.iter_mut() {
                place.0 = b'5';
            }
            agree(rt, &places)
        }
        None => false,
    }
}

#[test]
fn both_bodies_agree_in_any_order(rt: HostRuntime) {
    assert!(rt; agree_as_made(&rt));
    assert!(rt; agree_by_rows(&rt));
    assert!(rt; agree_by_columns(&rt));
    assert!(rt; agree_in_one_row(&rt));
}
