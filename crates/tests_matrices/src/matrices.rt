// Matrix files with known answers.
use mtx_read::matrix::read_matrix;
use mtx_read::refusal::{BigKind, EntryKind, MtxRefusal};

const INTEGERS: &[u8] = b"%%MatrixMarket matrix coordinate integer general\n";

const TWO_BY_THREE: &[u8] = b"%%MatrixMarket matrix coordinate integer general\n2 3 1\n";

const A1: &[u8] =
    b"%%MatrixMarket matrix coordinate integer general\n3 3 5\n1 1 1\n2 1 2\n2 2 1\n3 2 3\n3 3 1\n";

fn refusal(rt: &HostRuntime, text: &[u8]) -> Option<MtxRefusal> {
    match read_matrix(rt.alloc(), text) {
        Ok(_) => None,
        Err(refusal) => Some(refusal),
    }
}

/// The refusal of a text of two parts.
fn joined(rt: &HostRuntime, head: &[u8], body: &[u8]) -> Option<MtxRefusal> {
    match Vec::from_slice(rt.alloc(), head) {
        Err(_) => Some(MtxRefusal::Memory),
        Ok(mut text) => match text.extend_from_slice(body) {
            Ok(()) => refusal(rt, &text),
            Err(_) => Some(MtxRefusal::Memory),
        },
    }
}

fn is_read(
    rt: &HostRuntime,
    text: &[u8],
    rows: u32,
    columns: u32,
    entries: &[(u32, u32, i64)],
) -> bool {
    match read_matrix(rt.alloc(), text) {
        Ok(m) => m.rows == rows && m.columns == columns && m.entries.as_slice() == entries,
        Err(_) => false,
    }
}

fn is_a1(rt: &HostRuntime, text: &[u8]) -> bool {
    is_read(
        rt,
        text,
        3,
        3,
        &[(0, 0, 1), (1, 0, 2), (1, 1, 1), (2, 1, 3), (2, 2, 1)],
    )
}

#[test]
fn one_matrix_in_several_spellings(rt: HostRuntime) {
    let scipy =
        b"%%MatrixMarket matrix coordinate integer general\n%\n3 3 5\n1 1 1\n2 1 2\n2 2 1\n3 2 3\n3 3 1\n";
    let by_hand =
        b"%%MATRIXMARKET MATRIX COORDINATE INTEGER GENERAL\r\n\n% by hand\n3\t3 5\n1 1 1\n2 1 2\n% a comment\n\n2 2 1\n3 2 3\n3 3 1";
    let signs =
        b"  %%MatrixMarket\tmatrix coordinate integer general\n003 3 5\n+1 01 1\n2 1 +2\n\t2 2 1 \n3 2 03\r\n3 3 1\r";
    assert!(rt; is_a1(&rt, A1));
    assert!(rt; is_a1(&rt, scipy));
    assert!(rt; is_a1(&rt, by_hand));
    assert!(rt; is_a1(&rt, signs));
}

/// What the first bytes of the entry lines give.
fn cut_entries(k: usize) -> Option<MtxRefusal> {
    if k >= 84 {
        return None;
    }
    let entry = k.saturating_sub(56) / 6;
    if k.saturating_sub(56) % 6 < 4 {
        return Some(MtxRefusal::Entry {
            line: 3 + entry as u32,
            kind: EntryKind::Words,
        });
    }
    Some(MtxRefusal::Short {
        have: entry as u64 + 1,
        want: 5,
    })
}

/// What the first bytes of the file give.
fn cut(k: usize) -> Option<MtxRefusal> {
    if k <= 41 {
        return Some(MtxRefusal::Header);
    }
    if k <= 47 {
        return Some(MtxRefusal::Field { word: 5 });
    }
    if k <= 53 {
        return Some(MtxRefusal::Size { line: 2 });
    }
    if k <= 55 {
        return Some(MtxRefusal::Short { have: 0, want: 5 });
    }
    cut_entries(k)
}

#[test]
fn a_file_cut_anywhere(rt: HostRuntime) {
    assert_eq!(rt; A1.len(), 85);
    for k in 0..=A1.len() {
        assert_eq!(rt; refusal(&rt, &A1[..k]), cut(k), "cut to {k}");
    }
}

#[test]
fn first_lines_without_the_mark(rt: HostRuntime) {
    let lines: [&[u8]; 5] = [
        b"",
        b"\n",
        b"%MatrixMarket matrix coordinate integer general\n0 0 0\n",
        b"%%MatrixMarket matrix coordinate integer general x\n0 0 0\n",
        b"%%MatrixMarket vector coordinate integer general\n0 0 0\n",
    ];
    for text in lines {
        assert_eq!(rt; refusal(&rt, text), Some(MtxRefusal::Header));
    }
}

#[test]
fn first_lines_of_other_kinds(rt: HostRuntime) {
    let table: [(&[u8], u32); 5] = [
        (b"array integer general\n0 0 0\n", 3),
        (b"coordinate real general\n0 0 0\n", 4),
        (b"coordinate integer\0 general\n0 0 0\n", 4),
        (b"coordinate pattern skew-symmetric\n0 0 0\n", 5),
        (b"coordinate integer hermitian\n0 0 0\n", 5),
    ];
    for (rest, word) in table {
        let found = joined(&rt, b"%%MatrixMarket matrix ", rest);
        assert_eq!(rt; found, Some(MtxRefusal::Field { word }));
    }
}

#[test]
fn faulty_size_lines(rt: HostRuntime) {
    let table: [(&[u8], u32); 7] = [
        (b"", 2),
        (b"% only this\n", 3),
        (b"0 0\n", 2),
        (b"0 0 0 0\n", 2),
        (b"\n-1 1 0\n", 3),
        (b"+1 1 0\n", 2),
        (b"1 1 0000000000000000000\n", 2),
    ];
    for (rest, line) in table {
        assert_eq!(rt;
            joined(&rt, INTEGERS, rest),
            Some(MtxRefusal::Size { line })
        );
    }
}

#[test]
fn a_symmetric_matrix_is_square(rt: HostRuntime) {
    let text = b"%%MatrixMarket matrix coordinate integer symmetric\n2097152 1 0\n";
    assert_eq!(rt; refusal(&rt, text), Some(MtxRefusal::Size { line: 2 }));
}

#[test]
fn sizes_over_their_limits(rt: HostRuntime) {
    let table: [(&[u8], BigKind, u64); 4] = [
        (b"1048577 1048577 8388609\n", BigKind::Rows, 1048577),
        (
            b"1 999999999999999999 0\n",
            BigKind::Columns,
            999999999999999999,
        ),
        (b"1 1048577 8388609\n", BigKind::Columns, 1048577),
        (b"1 1 8388609\n", BigKind::Stored, 8388609),
    ];
    for (rest, what, value) in table {
        assert_eq!(rt;
            joined(&rt, INTEGERS, rest),
            Some(MtxRefusal::Big { what, value })
        );
    }
}

#[test]
fn sizes_at_their_limits(rt: HostRuntime) {
    let short = Some(MtxRefusal::Short {
        have: 0,
        want: 8388608,
    });
    let pattern = b"%%MatrixMarket matrix coordinate pattern general\n0 0 0\n";
    assert_eq!(rt; joined(&rt, INTEGERS, b"1 1 8388608\n"), short);
    assert_eq!(rt; joined(&rt, INTEGERS, b"1048576 1048576 0\n"), None);
    assert_eq!(rt; joined(&rt, INTEGERS, b"0 1 000000000000000000\n"), None);
    assert_eq!(rt; refusal(&rt, pattern), None);
}

fn are_refused(rt: &HostRuntime, kind: EntryKind, lines: &[&[u8]]) -> bool {
    for line in lines {
        if joined(rt, TWO_BY_THREE, *line) != Some(MtxRefusal::Entry { line: 3, kind }) {
            return false;
        }
    }
    true
}

#[test]
fn entry_lines_of_other_words(rt: HostRuntime) {
    let count: [&[u8]; 3] = [b"1 1", b"1 1 1 1", b"a 1"];
    let numbers: [&[u8]; 8] = [
        b"1 1 x",
        b"1 1 -",
        b"1 + 1",
        b"1 1 1.0",
        b"1 1 1\0",
        b"1 1 \xc3\xa9",
        b"1 1 1\r\r",
        b"9 9 --1",
    ];
    assert!(rt; are_refused(&rt, EntryKind::Words, &count));
    assert!(rt; are_refused(&rt, EntryKind::Number, &numbers));
}

#[test]
fn entry_lines_out_of_range(rt: HostRuntime) {
    let values: [&[u8]; 3] = [
        b"1 1 9223372036854775808",
        b"1 1 -9223372036854775809",
        b"9 9 1234567890123456789012345678901234567890",
    ];
    let places: [&[u8]; 7] = [
        b"0 1 1",
        b"3 1 1",
        b"1 4 1",
        b"1 -1 1",
        b"18446744073709551617 1 1",
        b"1234567890123456789012345678901234567890 1 1",
        b"9 9 9\n1 1 1",
    ];
    assert!(rt; are_refused(&rt, EntryKind::Wide, &values));
    assert!(rt; are_refused(&rt, EntryKind::Range, &places));
}

#[test]
fn fewer_and_more_entries_than_announced(rt: HostRuntime) {
    let short = Some(MtxRefusal::Short { have: 0, want: 1 });
    let extra = |line| Some(MtxRefusal::Extra { line });
    assert_eq!(rt; joined(&rt, TWO_BY_THREE, b""), short);
    assert_eq!(rt; joined(&rt, TWO_BY_THREE, b"% 1 1 1\n"), short);
    assert_eq!(rt; joined(&rt, TWO_BY_THREE, b"1 1 1\n2 2 2"), extra(4));
    assert_eq!(rt; joined(&rt, TWO_BY_THREE, b"1 1 1\n\n%\nx"), extra(6));
}

#[test]
fn entries_at_the_limits_of_values(rt: HostRuntime) {
    let lines: [&[u8]; 3] = [
        b"1 3 9223372036854775807\n% more\n",
        b"2 3 -9223372036854775808",
        b"+2 003 -0",
    ];
    for line in lines {
        assert_eq!(rt; joined(&rt, TWO_BY_THREE, line), None);
    }
}

#[test]
fn mirrored_entries(rt: HostRuntime) {
    let symmetric =
        b"%%MatrixMarket matrix coordinate integer Symmetric\n2 2 3\n2 1 5\n1 1 7\n2 2 9\n";
    let skew = b"%%MatrixMarket matrix coordinate integer skew-symmetric\n2 2 1\n2 1 5\n";
    assert!(rt;
        is_read(
            &rt,
            symmetric,
            2,
            2,
            &[(1, 0, 5), (0, 1, 5), (0, 0, 7), (1, 1, 9)]
        )
    );
    assert!(rt; is_read(&rt, skew, 2, 2, &[(1, 0, 5), (0, 1, -5)]));
}

#[test]
fn entries_that_stand_for_their_mirror(rt: HostRuntime) {
    let above = Some(MtxRefusal::Entry {
        line: 3,
        kind: EntryKind::AboveDiagonal,
    });
    let on = Some(MtxRefusal::Entry {
        line: 4,
        kind: EntryKind::OnDiagonal,
    });
    let head = b"%%MatrixMarket matrix coordinate ";
    assert_eq!(rt;
        joined(&rt, head, b"integer symmetric\n2 2 1\n1 2 5\n"),
        above
    );
    assert_eq!(rt;
        joined(&rt, head, b"integer skew-symmetric\n2 2 1\n1 2 5\n"),
        above
    );
    assert_eq!(rt;
        joined(&rt, head, b"pattern symmetric\n2 2 2\n1 2\n"),
        above
    );
    assert_eq!(rt;
        joined(&rt, head, b"integer skew-symmetric\n2 2 2\n2 1 5\n1 1 0\n"),
        on
    );
}
