// Lists of words, and what a read or a write outside one does.
use std::alloc::Global;
use std::test::Fail;
use wave_base::words::Words;

fn two_words(alloc: Global) -> Result<Words, Fail> {
    let mut words = Words::with_room(alloc, 2)?;
    words.push(7)?;
    words.push(-8)?;
    Ok(words)
}

#[test]
fn words_are_copied(rt: HostRuntime) -> Result<(), Fail> {
    let mut words = two_words(rt.alloc())?;
    let copy = words.copy(rt.alloc())?;
    words.set(1, 9);
    assert!(rt; words.get(1) == 9 && copy.len() == 2);
    assert_eq!(rt; copy.into_vec().as_slice(), [7, -8].as_slice());
    Ok(())
}

#[test]
fn a_write_outside_a_list_does_nothing(rt: HostRuntime) -> Result<(), Fail> {
    let mut words = two_words(rt.alloc())?;
    words.write(-1, 1);
    words.write(2, 1);
    words.write(0, 5);
    assert_eq!(rt; words.as_slice(), [5, -8].as_slice());
    Ok(())
}

#[test]
fn a_read_outside_a_list_is_zero(rt: HostRuntime) -> Result<(), Fail> {
    let words = two_words(rt.alloc())?;
    assert!(rt; words.read(-1) == 0 && words.read(2) == 0);
    Ok(())
}
