// Locals of a row: each row begins with zeros, and a local is no array.
use crate::parts::Part::{Apply, Keep, Lit, Local, Num, Read, Set, Var};
use crate::runs::try_run;
use loop_core::nest::Op;
use std::test::Fail;

// l = l + 1, and then y[i] = l.
#[test]
fn each_row_begins_with_zeros(rt: HostRuntime) -> Result<(), Fail> {
    let parts = [
        Local(0),
        Lit(1),
        Apply(Op::Add),
        Keep(0),
        Var(1),
        Local(0),
        Set(4),
    ];
    try_run(&rt, rt.alloc(), 3, &parts, [1, 1, 1, 0, 0, 0])
}

// The last local keeps 7 and the one past it nothing: y[i] = the last + 10 * the one past it.
#[test]
fn sixteen_locals(rt: HostRuntime) -> Result<(), Fail> {
    let parts = [
        Lit(7),
        Keep(15),
        Lit(5),
        Keep(16),
        Var(1),
        Local(15),
        Lit(10),
        Local(16),
        Apply(Op::Mul),
        Apply(Op::Add),
        Set(4),
    ];
    try_run(&rt, rt.alloc(), 2, &parts, [7, 7, 0, 0, 0, 0])
}

// y[i] = max(min(x[i], 25), 15), where x is 10, 20, 30, 40.
#[test]
fn the_lesser_and_the_greater(rt: HostRuntime) -> Result<(), Fail> {
    let parts = [
        Var(1),
        Read(3),
        Lit(25),
        Apply(Op::Min),
        Keep(1),
        Var(1),
        Local(1),
        Lit(15),
        Apply(Op::Max),
        Set(4),
    ];
    try_run(&rt, rt.alloc(), 4, &parts, [15, 20, 25, 25, 0, 0])
}

// A local keeps what a place held before it was set.
#[test]
fn a_local_keeps_what_was_read(rt: HostRuntime) -> Result<(), Fail> {
    let parts = [
        Num(0),
        Read(4),
        Keep(2),
        Num(0),
        Lit(9),
        Set(4),
        Var(1),
        Local(2),
        Set(4),
    ];
    try_run(&rt, rt.alloc(), 3, &parts, [9, 0, 9, 0, 0, 0])
}
