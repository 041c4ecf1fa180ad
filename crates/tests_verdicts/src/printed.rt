// The printed text of arrays.
use crate::judged::accepted;
use crate::texts::{FACTORS, SCATTER};
use loop_core::values::Values;
use std::alloc::Global;
use std::test::Fail;
use wave_base::words::Words;
use wave_report::arrays::arrays;
use wave_report::laws::nests_can_be_printed;

// Values in which one array has these words, and each before it none.
fn one(alloc: Global, array: u32, words: &[i64]) -> Result<Values, Fail> {
    let mut lists = Vec::new(alloc);
    for _ in 0..array {
        lists.push(Words::from_vec(Vec::new(alloc)))?;
    }
    lists.push(Words::from_vec(Vec::from_slice(alloc, words)?))?;
    Ok(Values::of(lists))
}

fn printed(alloc: Global, text: &[u8], array: u32, words: &[i64]) -> Result<String, Fail> {
    nests_can_be_printed();
    let nest = accepted(alloc, text)?;
    let values = one(alloc, array, words)?;
    Ok(arrays(alloc, nest.nest(), &values)?)
}

#[test]
fn a_vector_has_its_name(rt: HostRuntime) -> Result<(), Fail> {
    let text = printed(rt.alloc(), SCATTER, 6, &[8, -9, 7])?;
    assert!(rt; text.as_str() == "array x 3\n8\n-9\n7\n");
    Ok(())
}

#[test]
fn the_data_of_a_matrix_are_val(rt: HostRuntime) -> Result<(), Fail> {
    let text = printed(rt.alloc(), FACTORS, 3, &[])?;
    assert!(rt; text.as_str() == "array a.val 0\n");
    Ok(())
}
