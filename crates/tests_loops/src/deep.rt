// Guards and loops that stand deep in one another.
use crate::parts::Part;
use crate::parts::Part::{Apply, Begin, For, Lit, Num, Read, Set, Var, When};
use crate::runs::try_run;
use loop_core::nest::{Op, Rel};
use std::alloc::Global;
use std::test::Fail;

// So many times the same parts.
fn push_often(parts: &mut Vec<Part>, many: u32, more: [Part; 3]) -> Result<(), Fail> {
    for _ in 0..many {
        parts.extend_from_slice(&more)?;
    }
    Ok(())
}

// Many guards in one another, of which each holds where `i <= last`.
fn guards(alloc: Global, many: u32, last: i64) -> Result<Vec<Part>, Fail> {
    let mut parts = Vec::new(alloc);
    push_often(&mut parts, many, [Var(1), Num(last), Begin])?;
    parts.extend_from_slice(&[Var(1), Lit(1), Set(4)])?;
    for _ in 0..many {
        parts.push(When(Rel::LessEqual))?;
    }
    Ok(parts)
}

// So many loops in one another, each over 0 and 1, around `y[0] = y[0] + 1`.
fn loops(alloc: Global, many: u16) -> Result<Vec<Part>, Fail> {
    let mut parts = Vec::new(alloc);
    push_often(&mut parts, u32::from(many), [Num(0), Num(2), Begin])?;
    parts.extend_from_slice(&[Num(0), Num(0), Read(4), Lit(1), Apply(Op::Add), Set(4)])?;
    for depth in 0..many {
        parts.push(For(7 - depth.min(5)))?;
    }
    Ok(parts)
}

#[test]
fn many_guards(rt: HostRuntime) -> Result<(), Fail> {
    let parts = guards(rt.alloc(), 198, 2)?;
    try_run(&rt, rt.alloc(), 5, parts.as_slice(), [1, 1, 1, 0, 0, 0])
}

#[test]
fn six_loops(rt: HostRuntime) -> Result<(), Fail> {
    let parts = loops(rt.alloc(), 5)?;
    try_run(&rt, rt.alloc(), 3, parts.as_slice(), [96, 0, 0, 0, 0, 0])
}
