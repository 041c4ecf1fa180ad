// Guards in one another, which ask for one atom after another.
use crate::texts::{full, refused, unbounded};
use access_bounds::refusal::Side2;
use std::alloc::Global;
use std::test::Fail;

const FRONT: &[u8] = b"matrix a csr\nindex q n\nvector x n file\nloop i\n";

fn push_digits(text: &mut Vec<u8>, number: u8) -> Result<(), Fail> {
    if number > 9 {
        text.push(b'0' + number / 10 % 10)?;
    }
    text.push(b'0' + number % 10)?;
    Ok(())
}

fn push_guard(text: &mut Vec<u8>, number: u8) -> Result<(), Fail> {
    text.extend_from_slice(b"when 0 <= q[i+")?;
    push_digits(text, number)?;
    text.extend_from_slice(b"]\n")?;
    Ok(())
}

fn push_guards(text: &mut Vec<u8>, guards: u8) -> Result<(), Fail> {
    for number in 0..guards {
        push_guard(text, number)?;
    }
    Ok(())
}

fn push_ends(text: &mut Vec<u8>, ends: u8) -> Result<(), Fail> {
    for _ in 0..ends {
        text.extend_from_slice(b"end\n")?;
    }
    Ok(())
}

// So many guards in one another round `set x[i] = 1`.
fn guarded(alloc: Global, guards: u8) -> Result<Vec<u8>, Fail> {
    let mut text = Vec::new(alloc);
    text.extend_from_slice(FRONT)?;
    push_guards(&mut text, guards)?;
    text.extend_from_slice(b"set x[i] = 1\n")?;
    push_ends(&mut text, guards)?;
    text.extend_from_slice(b"end\n")?;
    Ok(text)
}

#[test]
fn counts_atoms_before_it_closes(rt: HostRuntime) -> Result<(), Fail> {
    let few = guarded(rt.alloc(), 45)?;
    assert_eq!(rt;
        refused(rt.alloc(), few.as_slice())?,
        unbounded(6, 1, Side2::High)
    );
    let more = guarded(rt.alloc(), 46)?;
    assert_eq!(rt; refused(rt.alloc(), more.as_slice())?, full(51));
    let most = guarded(rt.alloc(), 93)?;
    assert_eq!(rt; refused(rt.alloc(), most.as_slice())?, full(98));
    Ok(())
}

const NEVER: &[u8] =
    b"matrix a csr\nindex q n\nvector x n file\nloop i\nwhen n < 0\nset x[q[i+7]] = x[i-1]\nend\nend\n";

const ALWAYS: &[u8] =
    b"matrix a csr\nindex q n\nvector x n file\nloop i\nwhen 0 <= n\nset x[q[i+7]] = x[i-1]\nend\nend\n";

#[test]
fn accepts_what_is_never_reached(rt: HostRuntime) -> Result<(), Fail> {
    assert_eq!(rt; refused(rt.alloc(), NEVER)?, None);
    assert_eq!(rt; refused(rt.alloc(), ALWAYS)?, unbounded(6, 1, Side2::Low));
    Ok(())
}
