// Reads and writes outside the lists, known by hand.
use crate::parts::Part::{Apply, At, Begin, For, Lit, Num, Plus, Read, Set, Var, When};
use crate::runs::try_run;
use loop_core::nest::{Op, Rel};
use std::test::Fail;

#[test]
fn a_bound_past_the_end_is_zero(rt: HostRuntime) -> Result<(), Fail> {
    try_run(
        &rt,
        rt.alloc(),
        1,
        &[
            Num(9),
            At(0),
            Num(1),
            At(0),
            Begin,
            Var(2),
            Lit(1),
            Set(4),
            For(2),
        ],
        [1, 1, 0, 0, 0, 0],
    )
}

#[test]
fn a_bound_before_the_beginning_is_zero(rt: HostRuntime) -> Result<(), Fail> {
    try_run(
        &rt,
        rt.alloc(),
        1,
        &[
            Num(-1),
            At(0),
            Num(1),
            At(0),
            Begin,
            Var(2),
            Lit(1),
            Set(4),
            For(2),
        ],
        [1, 1, 0, 0, 0, 0],
    )
}

#[test]
fn an_index_inside_an_index_is_zero(rt: HostRuntime) -> Result<(), Fail> {
    try_run(
        &rt,
        rt.alloc(),
        1,
        &[Num(7), At(0), At(1), Lit(5), Set(4)],
        [0, 0, 5, 0, 0, 0],
    )
}

#[test]
fn a_constant_is_added_to_an_index_of_zero(rt: HostRuntime) -> Result<(), Fail> {
    try_run(
        &rt,
        rt.alloc(),
        1,
        &[Num(-3), At(0), Plus(1), At(1), Lit(5), Set(4)],
        [5, 0, 0, 0, 0, 0],
    )
}

#[test]
fn a_guard_of_an_entry_that_is_zero(rt: HostRuntime) -> Result<(), Fail> {
    try_run(
        &rt,
        rt.alloc(),
        3,
        &[
            Num(44),
            At(1),
            Num(0),
            Begin,
            Var(1),
            Lit(1),
            Set(4),
            When(Rel::Equal),
        ],
        [1, 1, 1, 0, 0, 0],
    )
}

#[test]
fn a_read_past_the_end_is_zero(rt: HostRuntime) -> Result<(), Fail> {
    try_run(
        &rt,
        rt.alloc(),
        1,
        &[Num(0), Num(9), Read(3), Lit(1), Apply(Op::Add), Set(4)],
        [1, 0, 0, 0, 0, 0],
    )
}

#[test]
fn a_read_before_the_beginning_is_zero(rt: HostRuntime) -> Result<(), Fail> {
    try_run(
        &rt,
        rt.alloc(),
        1,
        &[Num(1), Num(-1), Read(3), Lit(2), Apply(Op::Add), Set(4)],
        [0, 2, 0, 0, 0, 0],
    )
}

#[test]
fn a_read_of_an_array_without_a_list_is_zero(rt: HostRuntime) -> Result<(), Fail> {
    try_run(
        &rt,
        rt.alloc(),
        1,
        &[Num(1), Num(0), Read(9), Lit(2), Apply(Op::Add), Set(4)],
        [0, 2, 0, 0, 0, 0],
    )
}

#[test]
fn a_write_past_the_end_does_nothing(rt: HostRuntime) -> Result<(), Fail> {
    try_run(
        &rt,
        rt.alloc(),
        1,
        &[Num(6), Lit(1), Set(4), Num(5), Lit(2), Set(4)],
        [0, 0, 0, 0, 0, 2],
    )
}

#[test]
fn a_write_before_the_beginning_does_nothing(rt: HostRuntime) -> Result<(), Fail> {
    try_run(&rt, rt.alloc(), 1, &[Num(-1), Lit(1), Set(4)], [0; 6])
}

#[test]
fn a_write_to_an_array_without_a_list_does_nothing(rt: HostRuntime) -> Result<(), Fail> {
    try_run(&rt, rt.alloc(), 1, &[Num(0), Lit(1), Set(9)], [0; 6])
}

#[test]
fn a_scatter_partly_outside(rt: HostRuntime) -> Result<(), Fail> {
    try_run(
        &rt,
        rt.alloc(),
        4,
        &[Var(1), At(1), Var(1), Read(3), Set(4)],
        [20, 0, 10, 0, 0, 0],
    )
}
