// Vector files with known answers.
use mtx_read::refusal::{BigKind, EntryKind, MtxRefusal};
use mtx_read::vector::read_vector;

const INTEGERS: &[u8] = b"%%MatrixMarket matrix array integer general\n";

/// The refusal of a text of two parts.
fn joined(rt: &HostRuntime, head: &[u8], body: &[u8]) -> Option<MtxRefusal> {
    match Vec::from_slice(rt.alloc(), head) {
        Err(_) => Some(MtxRefusal::Memory),
        Ok(mut text) => match text.extend_from_slice(body) {
            Ok(()) => read_vector(rt.alloc(), &text).err(),
            Err(_) => Some(MtxRefusal::Memory),
        },
    }
}

#[test]
fn first_lines(rt: HostRuntime) {
    let table: [(&[u8], MtxRefusal); 5] = [
        (b"", MtxRefusal::Header),
        (b"array integer\n0 1\n", MtxRefusal::Header),
        (
            b"coordinate integer general\n0 1\n",
            MtxRefusal::Field { word: 3 },
        ),
        (
            b"array pattern general\n0 1\n",
            MtxRefusal::Field { word: 4 },
        ),
        (
            b"array integer symmetric\n0 1\n",
            MtxRefusal::Field { word: 5 },
        ),
    ];
    for (rest, why) in table {
        assert_eq!(rt; joined(&rt, b"%%MatrixMarket matrix ", rest), Some(why));
    }
}

#[test]
fn an_empty_file_has_no_first_line(rt: HostRuntime) {
    assert_eq!(rt; joined(&rt, b"", b""), Some(MtxRefusal::Header));
}

#[test]
fn faulty_size_lines(rt: HostRuntime) {
    let lines: [&[u8]; 4] = [b"", b"0 2\n", b"0 1 0\n", b"99999999 2\n"];
    for line in lines {
        assert_eq!(rt;
            joined(&rt, INTEGERS, line),
            Some(MtxRefusal::Size { line: 2 })
        );
    }
}

#[test]
fn rows_at_their_limit(rt: HostRuntime) {
    let big = Some(MtxRefusal::Big {
        what: BigKind::Rows,
        value: 16777217,
    });
    let short = Some(MtxRefusal::Short {
        have: 0,
        want: 16777216,
    });
    assert_eq!(rt; joined(&rt, INTEGERS, b"16777217 1\n"), big);
    assert_eq!(rt; joined(&rt, INTEGERS, b"16777216 1\n"), short);
}

#[test]
fn fewer_and_more_values_than_announced(rt: HostRuntime) {
    let short = Some(MtxRefusal::Short { have: 1, want: 2 });
    let extra = |line| Some(MtxRefusal::Extra { line });
    assert_eq!(rt; joined(&rt, INTEGERS, b"2 1\n1\n"), short);
    assert_eq!(rt; joined(&rt, INTEGERS, b"1 1\n1\n% c\n2\n"), extra(5));
    assert_eq!(rt; joined(&rt, INTEGERS, b"0 1\nx"), extra(3));
}

#[test]
fn faulty_value_lines(rt: HostRuntime) {
    let table: [(&[u8], EntryKind); 3] = [
        (b"1 1\n1 1\n", EntryKind::Words),
        (b"1 1\n-\n", EntryKind::Number),
        (b"1 1\n9223372036854775808\n", EntryKind::Wide),
    ];
    for (rest, kind) in table {
        assert_eq!(rt;
            joined(&rt, INTEGERS, rest),
            Some(MtxRefusal::Entry { line: 3, kind })
        );
    }
}

fn is_read(rt: &HostRuntime, text: &[u8], wanted: &[i64]) -> bool {
    match read_vector(rt.alloc(), text) {
        Ok(values) => values.as_slice() == wanted,
        Err(_) => false,
    }
}

#[test]
fn values_in_order(rt: HostRuntime) {
    let three = b"%%MatrixMarket matrix array integer general\n3 1\n-1\n+2\n 003\n";
    let least =
        b"%%matrixmarket MATRIX array Integer general\r\n%\n1 1\n\n\t-9223372036854775808 \r\n";
    let zeros = b"%%MatrixMarket matrix array integer general\n1 01\n+0012";
    assert!(rt; is_read(&rt, three, &[-1, 2, 3]));
    assert!(rt; is_read(&rt, least, &[i64::MIN]));
    assert!(rt; is_read(&rt, zeros, &[12]));
    assert!(rt;
        is_read(
            &rt,
            b"%%MatrixMarket matrix array integer general\n0 1\n",
            &[]
        )
    );
}
