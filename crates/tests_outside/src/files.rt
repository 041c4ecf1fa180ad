// Whole files out of libraries, in memory and of the system.
use std::alloc::Global;
use std::fs;
use std::test::Fail;
use wave_io::failed::Failed;
use wave_io::file_library::FileLibrary;
use wave_io::library::Library;
use wave_io::mem_library::MemLibrary;
use wave_io::read_all::{ReadCause, read_all};

// Two files, one of which takes three fetches and has a twin.
fn two_files(alloc: Global, fail: Vec<u64>) -> Result<MemLibrary, Fail> {
    let small = String::from_str(alloc, "small")?;
    let large = String::from_str(alloc, "large")?;
    let twin = String::from_str(alloc, "large")?;
    let files = vec![in alloc;
        (small, vec![in alloc; 7, 8, 9]?),
        (large, vec![in alloc; 1; 70_000]?),
        (twin, vec![in alloc]?),
    ]?;
    Ok(MemLibrary::new(files, fail))
}

#[test]
fn a_small_file_is_read_whole(rt: HostRuntime) -> Result<(), Fail> {
    let alloc = rt.alloc();
    let mut lib = two_files(alloc, vec![in alloc]?)?;
    let small = read_all(alloc, &mut lib, "small", 3)
        .ok()
        .expect(&rt, "small");
    assert_eq!(rt; small.as_slice(), [7, 8, 9].as_slice());
    Ok(())
}

#[test]
fn a_large_file_is_read_in_three_fetches(rt: HostRuntime) -> Result<(), Fail> {
    let alloc = rt.alloc();
    let mut lib = two_files(alloc, vec![in alloc]?)?;
    let large = read_all(alloc, &mut lib, "large", 70_000)
        .ok()
        .expect(&rt, "large");
    assert_eq!(rt; large.len(), 70_000);
    Ok(())
}

#[test]
fn a_long_file_is_refused(rt: HostRuntime) -> Result<(), Fail> {
    let alloc = rt.alloc();
    let mut lib = two_files(alloc, vec![in alloc]?)?;
    let cause = read_all(alloc, &mut lib, "small", 2).err();
    assert_eq!(rt; cause, Some(ReadCause::Long));
    Ok(())
}

#[test]
fn an_unknown_name_is_a_fault(rt: HostRuntime) -> Result<(), Fail> {
    let alloc = rt.alloc();
    let mut lib = two_files(alloc, vec![in alloc]?)?;
    let cause = read_all(alloc, &mut lib, "other", 9).err();
    assert!(rt; cause == Some(ReadCause::Failed) && lib.other_faults() == 1);
    Ok(())
}

#[test]
fn the_third_fetch_fails(rt: HostRuntime) -> Result<(), Fail> {
    let alloc = rt.alloc();
    let mut lib = two_files(alloc, vec![in alloc; 3]?)?;
    let cause = read_all(alloc, &mut lib, "large", 70_000).err();
    assert!(rt; cause == Some(ReadCause::Failed) && lib.faults() == 1);
    Ok(())
}

#[test]
fn a_real_file_is_read(rt: HostRuntime) -> Result<(), Fail> {
    let name = "/tmp/wave_tests_outside_whole";
    fs::write(&rt, name, b"0123456789")?;
    let mut lib = FileLibrary::new(rt);
    let whole = read_all(rt.alloc(), &mut lib, name, 10)
        .ok()
        .expect(&rt, "read");
    fs::remove_file(&rt, name)?;
    assert_eq!(rt; whole.as_slice(), b"0123456789".as_slice());
    Ok(())
}

#[test]
fn a_long_real_file_is_refused(rt: HostRuntime) -> Result<(), Fail> {
    let name = "/tmp/wave_tests_outside_long";
    fs::write(&rt, name, b"0123456789")?;
    let mut lib = FileLibrary::new(rt);
    let cause = read_all(rt.alloc(), &mut lib, name, 9).err();
    fs::remove_file(&rt, name)?;
    assert!(rt; cause == Some(ReadCause::Long) && lib.faults_seen() == 0);
    Ok(())
}

// On from a place, back, and past the end.
#[test]
fn a_real_file_is_fetched_in_pieces(rt: HostRuntime) -> Result<(), Fail> {
    let name = "/tmp/wave_tests_outside_pieces";
    fs::write(&rt, name, b"0123456789")?;
    let mut lib = FileLibrary::new(rt);
    let mut into = [0u8; 4];
    for (at, count, first) in [
        (2, 4, b'2'),
        (6, 4, b'6'),
        (0, 4, b'0'),
        (8, 2, b'8'),
        (12, 0, b'8'),
    ] {
        let taken = lib.fetch(name, at, &mut into);
        assert!(rt; taken == Ok(count) && into[0] == first);
    }
    fs::remove_file(&rt, name)?;
    assert_eq!(rt; lib.faults_seen(), 0);
    Ok(())
}

#[test]
fn faults_of_the_system_are_counted(rt: HostRuntime) {
    let mut lib = FileLibrary::new(rt);
    let mut into = [0u8; 4];
    let folder = lib.fetch("/tmp", 0, &mut into);
    let none = lib.fetch("/tmp/wave_tests_outside_none", 0, &mut into);
    assert!(rt; folder == Err(Failed) && none == Err(Failed));
    assert_eq!(rt; lib.faults_seen(), 2);
}
