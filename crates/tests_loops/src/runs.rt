// The run of a nest over index arrays 0 and 1 and data arrays 3 and 4, and array 4 after it.
use crate::parts::{Part, nest_of, push_list};
use loop_core::arrays::Arrays;
use loop_core::depth::has_depth_within;
use loop_core::values::Values;
use loop_meaning::run::run_in_order;
use std::alloc::Global;
use std::process::Abort;
use std::test::Fail;
use wave_base::types::ArrayId;
use wave_base::words::Words;

fn places(alloc: Global) -> Result<Vec<Words>, Fail> {
    let mut lists = Vec::new(alloc);
    push_list(&mut lists, alloc, &[0, 2, 3])?;
    push_list(&mut lists, alloc, &[2, 0, -1, 7])?;
    Ok(lists)
}

fn words(alloc: Global) -> Result<Vec<Words>, Fail> {
    let mut lists = Vec::new(alloc);
    for _ in 0..3 {
        push_list(&mut lists, alloc, &[])?;
    }
    push_list(&mut lists, alloc, &[10, 20, 30, 40])?;
    push_list(&mut lists, alloc, &[0; 6])?;
    Ok(lists)
}

// Runs the nest of these parts over so many rows.
pub fn try_run(
    rt: &impl Abort,
    alloc: Global,
    n: u32,
    parts: &[Part],
    after: [i64; 6],
) -> Result<(), Fail> {
    let nest = nest_of(alloc, parts)?;
    let arrays = Arrays::of(n, 5, places(alloc)?);
    let mut values = Values::of(words(alloc)?);
    assert!(rt; has_depth_within(nest.body.as_slice(), 5));
    run_in_order(&nest, &arrays, &mut values);
    assert_eq!(rt; values.words(ArrayId(4)), after.as_slice());
    Ok(())
}
