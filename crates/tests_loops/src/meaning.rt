// Small nests whose run is known by hand.
use crate::parts::Part::{Apply, At, Begin, For, Lit, N, Nnz, Num, Plus, Read, Set, Var, When};
use crate::runs::try_run;
use loop_core::nest::{Op, Rel};
use std::test::Fail;

#[test]
fn a_copy_row_by_row(rt: HostRuntime) -> Result<(), Fail> {
    try_run(
        &rt,
        rt.alloc(),
        3,
        &[Var(1), Var(1), Read(3), Set(4)],
        [10, 20, 30, 0, 0, 0],
    )
}

#[test]
fn an_empty_range(rt: HostRuntime) -> Result<(), Fail> {
    try_run(
        &rt,
        rt.alloc(),
        2,
        &[Num(2), Num(2), Begin, Num(0), Lit(1), Set(4), For(2)],
        [0; 6],
    )
}

#[test]
fn a_range_that_ends_before_it_begins(rt: HostRuntime) -> Result<(), Fail> {
    try_run(
        &rt,
        rt.alloc(),
        2,
        &[Num(3), Num(-1), Begin, Num(0), Lit(1), Set(4), For(2)],
        [0; 6],
    )
}

#[test]
fn a_range_over_negative_numbers(rt: HostRuntime) -> Result<(), Fail> {
    try_run(
        &rt,
        rt.alloc(),
        1,
        &[
            Num(-2),
            Num(1),
            Begin,
            Var(2),
            Plus(2),
            Lit(7),
            Set(4),
            For(2),
        ],
        [7, 7, 7, 0, 0, 0],
    )
}

#[test]
fn ranges_by_outer_variables(rt: HostRuntime) -> Result<(), Fail> {
    try_run(
        &rt,
        rt.alloc(),
        4,
        &[
            Num(0),
            Var(1),
            Begin,
            Var(2),
            Var(1),
            Begin,
            Var(1),
            Var(1),
            Read(4),
            Lit(1),
            Apply(Op::Add),
            Set(4),
            For(3),
            For(2),
        ],
        [0, 1, 3, 6, 0, 0],
    )
}

#[test]
fn a_range_by_an_index_array(rt: HostRuntime) -> Result<(), Fail> {
    try_run(
        &rt,
        rt.alloc(),
        2,
        &[
            Var(1),
            At(0),
            Var(1),
            Plus(1),
            At(0),
            Begin,
            Var(2),
            Var(1),
            Read(3),
            Set(4),
            For(2),
        ],
        [10, 10, 20, 0, 0, 0],
    )
}

#[test]
fn a_range_by_the_sizes(rt: HostRuntime) -> Result<(), Fail> {
    try_run(
        &rt,
        rt.alloc(),
        3,
        &[N, Nnz, Begin, Var(2), Lit(1), Set(4), For(2)],
        [0, 0, 0, 1, 1, 0],
    )
}

#[test]
fn a_guard_of_equality(rt: HostRuntime) -> Result<(), Fail> {
    try_run(
        &rt,
        rt.alloc(),
        4,
        &[
            Var(1),
            Num(2),
            Begin,
            Var(1),
            Lit(1),
            Set(4),
            When(Rel::Equal),
        ],
        [0, 0, 1, 0, 0, 0],
    )
}

#[test]
fn a_guard_of_less(rt: HostRuntime) -> Result<(), Fail> {
    try_run(
        &rt,
        rt.alloc(),
        4,
        &[
            Var(1),
            Num(2),
            Begin,
            Var(1),
            Lit(1),
            Set(4),
            When(Rel::Less),
        ],
        [1, 1, 0, 0, 0, 0],
    )
}

#[test]
fn a_guard_of_less_or_equal(rt: HostRuntime) -> Result<(), Fail> {
    try_run(
        &rt,
        rt.alloc(),
        4,
        &[
            Var(1),
            Num(2),
            Begin,
            Var(1),
            Lit(1),
            Set(4),
            When(Rel::LessEqual),
        ],
        [1, 1, 1, 0, 0, 0],
    )
}

#[test]
fn a_read_of_what_the_iteration_before_wrote(rt: HostRuntime) -> Result<(), Fail> {
    try_run(
        &rt,
        rt.alloc(),
        4,
        &[
            Var(1),
            Plus(1),
            Var(1),
            Read(4),
            Lit(1),
            Apply(Op::Add),
            Set(4),
        ],
        [0, 1, 2, 3, 4, 0],
    )
}

#[test]
fn two_statements_in_order(rt: HostRuntime) -> Result<(), Fail> {
    try_run(
        &rt,
        rt.alloc(),
        2,
        &[
            Num(0),
            Lit(3),
            Set(4),
            Num(0),
            Num(0),
            Read(4),
            Num(0),
            Read(4),
            Apply(Op::Add),
            Set(4),
        ],
        [6, 0, 0, 0, 0, 0],
    )
}
