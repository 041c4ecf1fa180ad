// Texts with locals that are read, and those that are refused, by hand.
use crate::reading::{limit, long, name, refused};
use loop_syntax::refusal::{LimitKind, LoopRefusal, NameKind};
use std::alloc::Global;
use std::test::Fail;

#[test]
fn refuses_names_of_locals(rt: HostRuntime) -> Result<(), Fail> {
    let front = b"matrix a csr\nvector x n zero\nindex q n\nindex p n+1\nlocal s\n";
    let lines: [(&[u8], u32, NameKind); 19] = [
        (b"local s\nloop i\nend", 6, NameKind::Twice),
        (b"local x\nloop i\nend", 6, NameKind::Twice),
        (b"local a\nloop i\nend", 6, NameKind::Twice),
        (b"index s n\nloop i\nend", 6, NameKind::Twice),
        (b"loop s\nend", 6, NameKind::Twice),
        (b"loop i\nfor s in 0..n\nend\nend", 7, NameKind::Twice),
        (b"rising t\nlocal t\nloop i\nend", 6, NameKind::Unknown),
        (b"rising s\nloop i\nend", 6, NameKind::WrongKind),
        (b"range s 0 n\nloop i\nend", 6, NameKind::WrongKind),
        (b"sorted q by s\nloop i\nend", 6, NameKind::WrongKind),
        (b"sorted s by p\nloop i\nend", 6, NameKind::WrongKind),
        (b"loop i\nset x[s] = 0\nend", 7, NameKind::WrongKind),
        (b"loop i\nset x[q[s]] = 0\nend", 7, NameKind::WrongKind),
        (b"loop i\nset x[i] = x[s]\nend", 7, NameKind::WrongKind),
        (b"loop i\nset s[0] = t\nend", 7, NameKind::WrongKind),
        (b"loop i\nset x[i] = s[t]\nend", 7, NameKind::WrongKind),
        (b"loop i\nset x[i] = s.ptr[0]\nend", 7, NameKind::Unknown),
        (b"loop i\nwhen s < n\nend\nend", 7, NameKind::WrongKind),
        (b"loop i\nfor k in 0..s\nend\nend", 7, NameKind::WrongKind),
    ];
    for (end, line, kind) in lines {
        let text = long(rt.alloc(), front, end, 1, b"")?;
        assert_eq!(rt; refused(rt.alloc(), text.as_slice())?, name(line, kind));
    }
    Ok(())
}

#[test]
fn refuses_what_is_kept(rt: HostRuntime) -> Result<(), Fail> {
    let front = b"matrix a csr\nvector x n zero\nindex q n\nlocal s\nloop i\n";
    let lines: [(&[u8], NameKind); 11] = [
        (b"set s = i\nend", NameKind::WrongKind),
        (b"set s = x\nend", NameKind::WrongKind),
        (b"set s = q\nend", NameKind::WrongKind),
        (b"set s = a\nend", NameKind::WrongKind),
        (b"set s = t\nend", NameKind::Unknown),
        (b"set s = min(s, max(1, t))\nend", NameKind::Unknown),
        (b"set t = i\nend", NameKind::Unknown),
        (b"set q = t\nend", NameKind::WrittenIndex),
        (b"set x = t\nend", NameKind::WrongKind),
        (b"set a = t\nend", NameKind::WrongKind),
        (b"set i = t\nend", NameKind::WrongKind),
    ];
    for (end, kind) in lines {
        let text = long(rt.alloc(), front, end, 1, b"")?;
        assert_eq!(rt; refused(rt.alloc(), text.as_slice())?, name(6, kind));
    }
    Ok(())
}

/// So many vectors, so many locals and an end.
fn declarations(alloc: Global, vectors: u32, locals: u32, end: &[u8]) -> Result<Vec<u8>, Fail> {
    let mut text = Vec::new(alloc);
    text.extend_from_slice(b"matrix a csr\n")?;
    for k in 0..vectors {
        text.extend_from_slice(b"vector x")?;
        text.push(b'a' + (k / 26 % 26) as u8)?;
        text.push(b'a' + (k % 26) as u8)?;
        text.extend_from_slice(b" n zero\n")?;
    }
    for k in 0..locals {
        text.extend_from_slice(b"local s")?;
        text.push(b'a' + (k % 26) as u8)?;
        text.extend_from_slice(b"\n")?;
    }
    text.extend_from_slice(end)?;
    Ok(text)
}

#[test]
fn counts_locals(rt: HostRuntime) -> Result<(), Fail> {
    let ends: [(u32, u32, &[u8], LoopRefusal); 4] = [
        (60, 16, b"loop i\nset sa = sp\nend", LoopRefusal::Memory),
        (
            0,
            17,
            b"loop i\nset sa = sq\nend",
            limit(18, LimitKind::Locals),
        ),
        (61, 17, b"loop i\nend", limit(62, LimitKind::Arrays)),
        (
            0,
            17,
            b"loop i\nset sa = sr\nend",
            name(20, NameKind::Unknown),
        ),
    ];
    for (vectors, locals, end, why) in ends {
        let text = declarations(rt.alloc(), vectors, locals, end)?;
        assert_eq!(rt; refused(rt.alloc(), text.as_slice())?, why);
    }
    Ok(())
}

#[test]
fn locals_are_no_references(rt: HostRuntime) -> Result<(), Fail> {
    let front = b"matrix a csr\nvector x n zero\nlocal s\nloop i\nset x[i] = s\n";
    let lines: [(&[u8], u32, LoopRefusal); 3] = [
        (b"set s = s + s\n", 40, LoopRefusal::Memory),
        (b"set s = x[i]\n", 15, LoopRefusal::Memory),
        (b"set s = x[i]\n", 16, limit(21, LimitKind::References)),
    ];
    for (line, times, why) in lines {
        let text = long(rt.alloc(), front, line, times, b"end")?;
        assert_eq!(rt; refused(rt.alloc(), text.as_slice())?, why);
    }
    Ok(())
}

/// A statement whose value is a number in so many calls of `min` or `max`.
fn least(alloc: Global, call: &[u8], depth: u32) -> Result<Vec<u8>, Fail> {
    let front = b"matrix a csr\nlocal s\nloop i\nset s=";
    let open = long(alloc, front, call, depth, b"1")?;
    long(alloc, open.as_slice(), b",1)", depth, b"\nend")
}

#[test]
fn reads_a_line_full_of_calls(rt: HostRuntime) -> Result<(), Fail> {
    let lines: [(&[u8], u32, LoopRefusal); 4] = [
        (b"min(", 27, LoopRefusal::Memory),
        (b"max(", 27, LoopRefusal::Memory),
        (b"min(", 28, LoopRefusal::Text { line: 4 }),
        (b"max(", 28, LoopRefusal::Text { line: 4 }),
    ];
    for (call, depth, why) in lines {
        let text = least(rt.alloc(), call, depth)?;
        assert_eq!(rt; refused(rt.alloc(), text.as_slice())?, why);
    }
    Ok(())
}
