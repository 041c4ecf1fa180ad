// Calls whose files or streams fail.
use crate::calls::{
    LOOP, MATRIX, Outcome, RUN, RUN_TEXT, VECTOR, call, call_over, library, stream,
};
use std::sync::Wait;
use std::test::Fail;
use std::thread::Threads;
use wave_base::types::Memory;
use wave_io::mem_library::MemLibrary;
use wave_io::mem_sink::MemSink;

const FILES: [(&str, &str); 3] = [("L", LOOP), ("A", MATRIX), ("B", VECTOR)];

#[test]
fn a_missing_file_is_named(rt: HostRuntime) -> Result<(), Fail> {
    let run = call(&rt, &RUN, &[("A", MATRIX), ("B", VECTOR)])?;
    let show = call(&rt, &["show", "M"], &[("L", LOOP)])?;
    assert!(rt; run.is(7, "", "read word 1\n"));
    assert!(rt; show.is(7, "", "read word 1\n"));
    Ok(())
}

/// A run of this loop in which the fetch of that number fails.
fn failing_at<R: AllocGlobal + Threads + Sync + Wait>(
    rt: &R,
    text: &str,
    number: u64,
) -> Result<Outcome, Memory> {
    let alloc = rt.alloc();
    let files = [("L", text), ("A", MATRIX), ("B", VECTOR)];
    let lib = library(alloc, &files, &[number])?;
    let out = stream(alloc, 1000, 1000)?;
    let err = stream(alloc, 100, 100)?;
    call_over(rt, &RUN, lib, out, err)
}

#[test]
fn a_failed_read_is_named(rt: HostRuntime) -> Result<(), Fail> {
    let outcome = failing_at(&rt, LOOP, 3)?;
    assert!(rt; outcome.is(7, "", "read word 2\n"));
    Ok(())
}

/// Each file takes two fetches, and no file is judged before all are there: this loop has no line of
/// the language.
#[test]
fn files_are_fetched_once_in_the_order_of_their_words(rt: HostRuntime) -> Result<(), Fail> {
    for (number, code, line) in [
        (1, 7, "read word 1\n"),
        (2, 7, "read word 1\n"),
        (3, 7, "read word 2\n"),
        (4, 7, "read word 2\n"),
        (5, 7, "read word 4\n"),
        (6, 7, "read word 4\n"),
        (7, 3, "loop text line 1\n"),
    ] {
        let outcome = failing_at(&rt, "x\n", number)?;
        assert!(rt; outcome.is(code, "", line), "{line}");
    }
    Ok(())
}

#[test]
fn a_full_output_keeps_a_first_part(rt: HostRuntime) -> Result<(), Fail> {
    let alloc = rt.alloc();
    let lib = library(alloc, &FILES, &[])?;
    let outcome = call_over(
        &rt,
        &RUN,
        lib,
        stream(alloc, 7, 1000)?,
        stream(alloc, 100, 100)?,
    )?;
    assert!(rt; outcome.is(8, "relatio", "write\n"));
    Ok(())
}

#[test]
fn streams_that_take_a_byte_at_once_get_all(rt: HostRuntime) -> Result<(), Fail> {
    let alloc = rt.alloc();
    let lib = library(alloc, &FILES, &[])?;
    let outcome = call_over(
        &rt,
        &RUN,
        lib,
        stream(alloc, 1000, 1)?,
        stream(alloc, 100, 1)?,
    )?;
    let lib = library(alloc, &[], &[])?;
    let refused = call_over(
        &rt,
        &RUN,
        lib,
        stream(alloc, 1000, 1)?,
        stream(alloc, 100, 1)?,
    )?;
    assert!(rt; outcome.is(0, RUN_TEXT, ""));
    assert!(rt; refused.is(7, "", "read word 1\n"));
    Ok(())
}

/// The second call on standard error would fail.
#[test]
fn a_fault_line_is_put_at_once(rt: HostRuntime) -> Result<(), Fail> {
    let alloc = rt.alloc();
    let lib = library(alloc, &[], &[])?;
    let err = MemSink::new(alloc, 100, 100, Vec::from_slice(alloc, &[2])?)?;
    let outcome = call_over(&rt, &RUN, lib, stream(alloc, 1000, 1000)?, err)?;
    assert!(rt; outcome.is(7, "", "read word 1\n"));
    Ok(())
}

#[test]
fn a_failing_error_stream_changes_no_answer(rt: HostRuntime) -> Result<(), Fail> {
    let alloc = rt.alloc();
    let lib = library(alloc, &[], &[])?;
    let outcome = call_over(
        &rt,
        &RUN,
        lib,
        stream(alloc, 1000, 1000)?,
        stream(alloc, 6, 4)?,
    )?;
    assert!(rt; outcome.is(7, "", "read w"));
    Ok(())
}

#[test]
fn a_long_loop_file_is_noted_and_fetching_goes_on(rt: HostRuntime) -> Result<(), Fail> {
    let alloc = rt.alloc();
    let long = vec![in alloc; b'#'; 65537]?;
    let mut held = Vec::new(alloc);
    held.push((String::from_str(alloc, "L")?, long))?;
    let lib = MemLibrary::new(held, Vec::new(alloc));
    let outcome = call_over(
        &rt,
        &RUN,
        lib,
        stream(alloc, 1000, 1000)?,
        stream(alloc, 100, 100)?,
    )?;
    assert!(rt; outcome.is(7, "", "read word 2\n"));
    Ok(())
}
