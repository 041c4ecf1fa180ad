// Operators at the edges of their words.
use loop_core::nest::Op;
use loop_meaning::exprs::operate;

#[test]
fn operators_at_their_edges(rt: HostRuntime) {
    let cases = [
        (Op::Add, i64::MAX, 1, i64::MIN),
        (Op::Add, i64::MIN, -1, i64::MAX),
        (Op::Sub, i64::MIN, 1, i64::MAX),
        (Op::Sub, i64::MAX, -1, i64::MIN),
        (Op::Sub, 0, i64::MIN, i64::MIN),
        (Op::Mul, i64::MAX, 2, -2),
        (Op::Mul, i64::MIN, -1, i64::MIN),
        (Op::Mul, i64::MIN, 2, 0),
        (Op::Mul, 4294967296, 4294967296, 0),
        (Op::Mul, -4294967296, 2147483648, i64::MIN),
        (Op::Quot, i64::MIN, -1, i64::MIN),
        (Op::Quot, i64::MIN, 0, 0),
        (Op::Quot, 5, 0, 0),
        (Op::Quot, -7, 2, -3),
        (Op::Quot, 7, -2, -3),
        (Op::Quot, -7, -2, 3),
        (Op::Quot, i64::MAX, -1, -9223372036854775807),
        (Op::Min, i64::MIN, i64::MAX, i64::MIN),
        (Op::Min, i64::MAX, i64::MIN, i64::MIN),
        (Op::Min, -1, 0, -1),
        (Op::Min, 5, 5, 5),
        (Op::Max, i64::MIN, i64::MAX, i64::MAX),
        (Op::Max, i64::MAX, i64::MIN, i64::MAX),
        (Op::Max, -1, 0, 0),
        (Op::Max, 5, 5, 5),
    ];
    for (op, left, right, word) in cases {
        assert_eq!(rt; operate(op, left, right), word);
    }
}
