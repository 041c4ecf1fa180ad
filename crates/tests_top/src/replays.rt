// What replays print.
use crate::answers::{BY_COLUMNS, BY_COLUMNS_MATRIX, BY_COLUMNS_VECTOR, NO_DIAGONAL, ONE_MATRIX};
use crate::calls::{LOOP, MATRIX, ONE_VECTOR, VECTOR, call};
use crate::plans::{SIX, WIDE_MATRIX};
use std::alloc::Global;
use std::test::Fail;
use wave_base::types::Memory;

const ANY_ORDER: &str = "%%MatrixMarket matrix array integer general\n0 1\n";

const ODD_ORDER: &str = "%%MatrixMarket matrix array integer general\n1 1\n2\n";

const REPLAY: [&str; 6] = ["replay", "L", "A", "2", "O", "B"];

/// An order of a thousand entries, all of worker 0.
fn thousand_zeros(alloc: Global) -> Result<String, Memory> {
    let mut text = String::from_str(
        alloc,
        "%%MatrixMarket matrix array integer general\n1000 1\n",
    )?;
    for _ in 0..1000 {
        text.push_str("0\n")?;
    }
    Ok(text)
}

/// Worker 0 makes two steps and looks in vain 998 times, and twice more in the rounds.
#[test]
fn looks_in_vain_are_counted(rt: HostRuntime) -> Result<(), Fail> {
    let order = thousand_zeros(rt.alloc())?;
    let wanted =
        "relations 12 dropped 10 covered 1 kept 1\nrows 6 stored 18 edges 12\nlevels 3 tasks 6 cross 6 waits 4\nlooks 1004 passed 4\narray x 6\n1\n2\n0\n1\n1\n2\n";
    let files = [
        ("L", LOOP),
        ("A", WIDE_MATRIX),
        ("O", order.as_str()),
        ("B", SIX),
    ];
    let outcome = call(&rt, &REPLAY, &files)?;
    assert!(rt; outcome.is(0, wanted, ""));
    Ok(())
}

#[test]
fn without_waits_there_are_no_looks(rt: HostRuntime) -> Result<(), Fail> {
    let order = thousand_zeros(rt.alloc())?;
    let wanted =
        "relations 16 dropped 9 covered 5 kept 2\nrows 4 stored 6 edges 3\nlevels 3 tasks 3 cross 0 waits 0\nlooks 0 passed 0\narray x 4\n5\n1\n2\n12\n";
    let files = [
        ("L", BY_COLUMNS),
        ("A", BY_COLUMNS_MATRIX),
        ("O", order.as_str()),
        ("B", BY_COLUMNS_VECTOR),
    ];
    let outcome = call(&rt, &REPLAY, &files)?;
    assert!(rt; outcome.is(0, wanted, ""));
    Ok(())
}

/// Whole rounds of both workers: each of the four looks passes at once.
#[test]
fn an_order_without_entries_is_rounds_alone(rt: HostRuntime) -> Result<(), Fail> {
    let files = [("L", LOOP), ("A", MATRIX), ("O", ANY_ORDER), ("B", VECTOR)];
    let wanted =
        "relations 12 dropped 10 covered 1 kept 1\nrows 3 stored 5 edges 2\nlevels 3 tasks 3 cross 0 waits 0\nlooks 0 passed 0\narray x 3\n1\n0\n3\n";
    let outcome = call(&rt, &REPLAY, &files)?;
    assert!(rt; outcome.is(0, wanted, ""));
    Ok(())
}

#[test]
fn orders_are_refused_after_shapes_and_before_properties(rt: HostRuntime) -> Result<(), Fail> {
    let odd = "shape order place 0 value 2\n";
    let length = "shape length word 5 have 1 want 3\n";
    let table = [
        (MATRIX, ODD_ORDER, VECTOR, 10, odd),
        (NO_DIAGONAL, ODD_ORDER, VECTOR, 10, odd),
        (MATRIX, ODD_ORDER, ONE_VECTOR, 10, length),
        (
            NO_DIAGONAL,
            ANY_ORDER,
            VECTOR,
            11,
            "property 5 first 1 second 1\n",
        ),
        (ONE_MATRIX, "x", "y", 9, "matrix word 4 header\n"),
        (ONE_MATRIX, ODD_ORDER, "y", 9, "matrix word 5 header\n"),
    ];
    for (matrix, order, vector, code, line) in table {
        let files = [("L", LOOP), ("A", matrix), ("O", order), ("B", vector)];
        let outcome = call(&rt, &REPLAY, &files)?;
        assert!(rt; outcome.is(code, "", line), "{line}");
    }
    Ok(())
}
