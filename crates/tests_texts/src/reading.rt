// Texts that are read and printed again, and texts that are refused, by hand.
use loop_core::nest::Nest;
use loop_print::print::print;
use loop_syntax::read::read;
use loop_syntax::refusal::{LimitKind, LoopRefusal, NameKind};
use std::alloc::Global;
use std::test::Fail;

fn answer(alloc: Global, text: &[u8]) -> Result<Result<Nest, LoopRefusal>, Fail> {
    if text.len() > 1_000_000 {
        return Err("the text is too long".into());
    }
    Ok(read(alloc, text))
}

fn shown(alloc: Global, text: &[u8]) -> Result<Vec<u8>, Fail> {
    if text.len() > 1_000_000 {
        return Err("the text is too long".into());
    }
    match read(alloc, text) {
        Ok(nest) => match print(alloc, &nest) {
            Ok(text) => Ok(text.into_bytes()),
            Err(_) => Err("memory".into()),
        },
        Err(_) => Err("the text is refused".into()),
    }
}

/// Why a text is refused, and `Memory` where it is read.
pub fn refused(alloc: Global, text: &[u8]) -> Result<LoopRefusal, Fail> {
    match answer(alloc, text)? {
        Ok(_) => Ok(LoopRefusal::Memory),
        Err(why) => Ok(why),
    }
}

pub fn name(line: u32, kind: NameKind) -> LoopRefusal {
    LoopRefusal::Name { line, kind }
}

pub fn limit(line: u32, kind: LimitKind) -> LoopRefusal {
    LoopRefusal::Limit { line, kind }
}

/// A front, a line so many times, and an end.
pub fn long(
    alloc: Global,
    front: &[u8],
    line: &[u8],
    times: u32,
    end: &[u8],
) -> Result<Vec<u8>, Fail> {
    let mut text = Vec::new(alloc);
    text.extend_from_slice(front)?;
    for _ in 0..times {
        text.extend_from_slice(line)?;
    }
    text.extend_from_slice(end)?;
    Ok(text)
}

const FORWARD: &[u8] =
    b"matrix a csr\nvector b n file\nvector x n zero\nrange a.ptr 0 nnz+1\nrange a.col 0 n\nrising a.ptr\nsorted a.col by a.ptr\ndiagonal a.diag of a.col by a.ptr\nloop i\n  set x[i] = b[i]\n  for p in a.ptr[i]..a.diag[i]\n    set x[i] = x[i] - a.val[p] * x[a.col[p]]\n  end\nend\n";

const MIXED: &[u8] =
    b"index q n\nrange q 0-3 n-1\nmatrix a csc\nstrict a.ptr\nbefore q a.diag\nloop i\n  when 5 <= a.row[i+1]\n    when i-2 == nnz\n      set a.val[0] = (a.val[i] - 7) * a.val[q[i-1]+4] / (2 * 3) - (8 - (9 + 1)) + 6\n    end\n  end\nend\n";

#[test]
fn reads_loops(rt: HostRuntime) -> Result<(), Fail> {
    let texts: [&[u8]; 7] = [
        FORWARD,
        MIXED,
        b"matrix a csr\nvector b n file\nvector x n zero\nrange a.ptr 0 nnz+1\nrange a.col 0 n\nrising a.ptr\nsorted a.col by a.ptr\ndiagonal a.diag of a.col by a.ptr\nloop i\n  set x[i] = b[i]\n  for p in a.ptr[i]..a.diag[i]\n    set x[i] = x[i] - a.val[p] * x[a.col[p]]\n  end\n  set x[i] = x[i] / a.val[a.diag[i]]\nend\n",
        b"matrix a csr\nvector b n file\nvector x n file\nrange a.ptr 0 nnz+1\nrange a.col 0 n\nrising a.ptr\nsorted a.col by a.ptr\ndiagonal a.diag of a.col by a.ptr\nloop i\n  set x[i] = b[i]\n  for p in a.ptr[i]..a.diag[i]\n    set x[i] = x[i] - a.val[p] * x[a.col[p]]\n  end\n  for p in a.diag[i]+1..a.ptr[i+1]\n    set x[i] = x[i] - a.val[p] * x[a.col[p]]\n  end\n  set x[i] = x[i] / a.val[a.diag[i]]\nend\n",
        b"matrix a csc\nvector x n file\nrange a.ptr 0 nnz+1\nrange a.row 0 n\nrising a.ptr\nsorted a.row by a.ptr\ndiagonal a.diag of a.row by a.ptr\nloop j\n  set x[j] = x[j] / a.val[a.diag[j]]\n  for p in a.diag[j]+1..a.ptr[j+1]\n    set x[a.row[p]] = x[a.row[p]] - a.val[p] * x[j]\n  end\nend\n",
        b"matrix a csr\nrange a.ptr 0 nnz+1\nrange a.col 0 n\nrising a.ptr\nsorted a.col by a.ptr\ndiagonal a.diag of a.col by a.ptr\nloop i\n  for k in a.ptr[i]..a.diag[i]\n    set a.val[k] = a.val[k] / a.val[a.diag[a.col[k]]]\n    for m in a.diag[a.col[k]]+1..a.ptr[a.col[k]+1]\n      for l in k+1..a.ptr[i+1]\n        when a.col[l] == a.col[m]\n          set a.val[l] = a.val[l] - a.val[k] * a.val[m]\n        end\n      end\n    end\n  end\nend\n",
        b"matrix a csr\nindex q n\nvector b n file\nvector x n zero\nrange q 0 n\ninjective q\nloop i\n  set x[q[i]] = b[i]\nend\n",
    ];
    for text in texts {
        assert_eq!(rt; shown(rt.alloc(), text)?.as_slice(), text);
    }
    Ok(())
}

#[test]
fn reads_the_innermost_variable(rt: HostRuntime) -> Result<(), Fail> {
    let text =
        b"# names\n\nindex q n\nmatrix a csc\nvector x n zero\nvector y nnz file\n\nloop i\nfor j in 0 .. q [ i ]\nset y[j-01]=(x[i])*(1-a.val[j])\nend\nfor j in i..n\nwhen a.row[j]<=i\nset x[j]=y[q[j]]\nend\nend\nend";
    let want =
        b"index q n\nmatrix a csc\nvector x n zero\nvector y nnz file\nloop i\n  for j in 0..q[i]\n    set y[j-1] = x[i] * (1 - a.val[j])\n  end\n  for j in i..n\n    when a.row[j] <= i\n      set x[j] = y[q[j]]\n    end\n  end\nend\n";
    assert_eq!(rt; shown(rt.alloc(), text)?.as_slice(), want.as_slice());
    Ok(())
}

#[test]
fn refuses_names(rt: HostRuntime) -> Result<(), Fail> {
    let front = b"matrix a csr\nvector x n zero\nindex q n\nindex p n+1\n";
    let lines: [(&[u8], u32, NameKind); 24] = [
        (b"vector q n file\nloop i\nend", 5, NameKind::Twice),
        (b"loop a\nend", 5, NameKind::Twice),
        (b"rising y\nloop i\nend", 5, NameKind::Unknown),
        (b"rising a.row\nloop i\nend", 5, NameKind::Unknown),
        (b"rising x.ptr\nloop i\nend", 5, NameKind::Unknown),
        (b"rising x\nloop i\nend", 5, NameKind::WrongKind),
        (b"strict a\nloop i\nend", 5, NameKind::WrongKind),
        (b"range a.val 0 n\nloop i\nend", 5, NameKind::WrongKind),
        (b"sorted a.col by q\nloop i\nend", 5, NameKind::WrongKind),
        (b"below x by y\nloop i\nend", 5, NameKind::WrongKind),
        (b"upto y by x\nloop i\nend", 5, NameKind::Unknown),
        (
            b"diagonal p of a.col by p\nloop i\nend",
            5,
            NameKind::WrongKind,
        ),
        (b"diagonal q of y by p\nloop i\nend", 5, NameKind::Unknown),
        (b"before q p\nloop i\nend", 5, NameKind::WrongKind),
        (
            b"injective later\nindex later n\nloop i\nend",
            5,
            NameKind::Unknown,
        ),
        (b"loop x\nset y[0] = 0\nend", 5, NameKind::Twice),
        (b"loop n1\nset y[0] = 0\nend", 6, NameKind::Unknown),
        (b"loop i\nset q[y] = 0\nend", 6, NameKind::WrittenIndex),
        (b"loop i\nset a.col[i] = 0\nend", 6, NameKind::WrittenIndex),
        (b"loop i\nset i[0] = y[0]\nend", 6, NameKind::WrongKind),
        (b"loop i\nset x[q] = 0\nend", 6, NameKind::WrongKind),
        (b"loop i\nset x[x[i]] = 0\nend", 6, NameKind::WrongKind),
        (b"loop i\nset x[i] = q[i]\nend", 6, NameKind::WrongKind),
        (b"loop i\nset x[i] = y[q]\nend", 6, NameKind::Unknown),
    ];
    for (end, line, kind) in lines {
        let text = long(rt.alloc(), front, end, 1, b"")?;
        assert_eq!(rt; refused(rt.alloc(), text.as_slice())?, name(line, kind));
    }
    Ok(())
}

#[test]
fn refuses_names_of_loops(rt: HostRuntime) -> Result<(), Fail> {
    let front = b"matrix a csr\nvector x n zero\nloop i\n";
    let lines: [(&[u8], u32, NameKind); 7] = [
        (b"for i in 0..n\nend\nend", 4, NameKind::Twice),
        (b"for x in y..n\nend\nend", 4, NameKind::Twice),
        (b"for p in p..n\nend\nend", 4, NameKind::Unknown),
        (
            b"for p in 0..n\nend\nset x[p] = 0\nend",
            6,
            NameKind::Unknown,
        ),
        (
            b"for p in 0..n\nfor p in p..n\nend\nend\nend",
            5,
            NameKind::Twice,
        ),
        (
            b"when a.ptr[i] < a.val[i]\nend\nend",
            4,
            NameKind::WrongKind,
        ),
        (b"when 0 == a\nend\nend", 4, NameKind::WrongKind),
    ];
    for (end, line, kind) in lines {
        let text = long(rt.alloc(), front, end, 1, b"")?;
        assert_eq!(rt; refused(rt.alloc(), text.as_slice())?, name(line, kind));
    }
    Ok(())
}

const SHORT: &[u8] = b"matrix a csr\nloop i\nend\n";

#[test]
fn reads_400_lines(rt: HostRuntime) -> Result<(), Fail> {
    let text = long(rt.alloc(), SHORT, b"\n", 397, b"")?;
    assert_eq!(rt; refused(rt.alloc(), text.as_slice())?, LoopRefusal::Memory);
    Ok(())
}

#[test]
fn refuses_401_lines(rt: HostRuntime) -> Result<(), Fail> {
    let text = long(rt.alloc(), SHORT, b"\n", 398, b"")?;
    assert_eq!(rt;
        refused(rt.alloc(), text.as_slice())?,
        limit(401, LimitKind::Lines)
    );
    Ok(())
}

#[test]
fn refuses_a_far_line_that_does_not_fit(rt: HostRuntime) -> Result<(), Fail> {
    let text = long(rt.alloc(), SHORT, b"\n", 70_000, b"loop j")?;
    assert_eq!(rt;
        refused(rt.alloc(), text.as_slice())?,
        LoopRefusal::Text { line: 70_004 }
    );
    Ok(())
}

#[test]
fn refuses_a_far_name(rt: HostRuntime) -> Result<(), Fail> {
    let text = long(
        rt.alloc(),
        b"matrix a csr\nloop i\n",
        b"#\n",
        70_000,
        b"when j < n\nend\nend",
    )?;
    assert_eq!(rt;
        refused(rt.alloc(), text.as_slice())?,
        name(70_003, NameKind::Unknown)
    );
    Ok(())
}

/// A declaration for each of some numbers, with names of three letters.
fn declarations(alloc: Global, count: u32, end: &[u8]) -> Result<Vec<u8>, Fail> {
    let mut text = Vec::new(alloc);
    text.extend_from_slice(b"matrix a csr\n")?;
    for k in 0..count {
        text.extend_from_slice(b"vector v")?;
        text.push(b'a' + (k / 26 % 26) as u8)?;
        text.push(b'a' + (k % 26) as u8)?;
        text.extend_from_slice(b" n zero\n")?;
    }
    text.extend_from_slice(end)?;
    Ok(text)
}

#[test]
fn counts_arrays(rt: HostRuntime) -> Result<(), Fail> {
    let alloc = rt.alloc();
    let text = declarations(alloc, 60, b"loop i\nset vaa[i] = vch[i]\nend")?;
    assert_eq!(rt; refused(alloc, text.as_slice())?, LoopRefusal::Memory);
    let text = declarations(alloc, 61, b"loop i\nend")?;
    assert_eq!(rt;
        refused(alloc, text.as_slice())?,
        limit(62, LimitKind::Arrays)
    );
    let text = declarations(alloc, 300, b"loop i\nset vaa[i] = w[i]\nend")?;
    assert_eq!(rt;
        refused(alloc, text.as_slice())?,
        name(303, NameKind::Unknown)
    );
    let text = declarations(alloc, 300, b"loop i\nset vaa[i] = vln[i]\nend")?;
    assert_eq!(rt;
        refused(alloc, text.as_slice())?,
        limit(62, LimitKind::Arrays)
    );
    Ok(())
}

#[test]
fn counts_constants(rt: HostRuntime) -> Result<(), Fail> {
    let read = LoopRefusal::Memory;
    let lines: [(&[u8], LoopRefusal); 9] = [
        (b"range a.ptr 0-1048576 n+1048576\nloop i\nend", read),
        (
            b"range a.ptr 0-1048577 n\nloop i\nend",
            limit(3, LimitKind::Constant),
        ),
        (
            b"range a.ptr 0 nnz+1048577\nloop i\nend",
            limit(3, LimitKind::Constant),
        ),
        (
            b"loop i\nset x[i+1048577] = 0\nend",
            limit(4, LimitKind::Constant),
        ),
        (
            b"loop i\nset x[i] = x[a.ptr[n-1048577]]\nend",
            limit(4, LimitKind::Constant),
        ),
        (b"loop i\nset x[i] = 1 + 9223372036854775807\nend", read),
        (
            b"loop i\nfor p in 0..1048577\nend\nend",
            limit(4, LimitKind::Constant),
        ),
        (
            b"loop i\nwhen 1048577 < n\nend\nend",
            limit(4, LimitKind::Constant),
        ),
        (
            b"loop i\nwhen 1048577 < j\nend\nend",
            name(4, NameKind::Unknown),
        ),
    ];
    for (end, why) in lines {
        let text = long(rt.alloc(), b"matrix a csr\nvector x n zero\n", end, 1, b"")?;
        assert_eq!(rt; refused(rt.alloc(), text.as_slice())?, why);
    }
    Ok(())
}

const LOOP: &[u8] = b"matrix a csr\nvector x n zero\nvector y n zero\nloop i\n";

#[test]
fn counts_loops(rt: HostRuntime) -> Result<(), Fail> {
    let five =
        b"for j in 0..n\nfor k in 0..n\nfor l in 0..n\nwhen 0 < n\nfor o in 0..n\nfor p in 0..n\n";
    let lines: [(&[u8], LoopRefusal); 3] = [
        (b"end\nend\nend\nend\nend\nend\nend", LoopRefusal::Memory),
        (
            b"for q in 0..n\nend\nend\nend\nend\nend\nend\nend\nend",
            limit(11, LimitKind::Depth),
        ),
        (
            b"for q in 0..1048577\nend\nend\nend\nend\nend\nend\nend\nend",
            limit(11, LimitKind::Constant),
        ),
    ];
    for (end, why) in lines {
        let text = long(rt.alloc(), LOOP, five, 1, end)?;
        assert_eq!(rt; refused(rt.alloc(), text.as_slice())?, why);
    }
    Ok(())
}

#[test]
fn counts_references(rt: HostRuntime) -> Result<(), Fail> {
    let read = LoopRefusal::Memory;
    let lines: [(&[u8], u32, &[u8], LoopRefusal); 5] = [
        (b"set x[i] = x[0]", 1, b"\nset x[i] = y[i]\nend", read),
        (
            b"set x[i] = 1",
            1,
            b"+x[0]+x[0]+x[0]+x[0]+x[0]+x[0]+x[0]+x[0]+x[0]+x[0]+x[0]+x[0]+x[0]+x[0]+x[0]\nend",
            read,
        ),
        (
            b"set x[i] = y[0]",
            1,
            b"+x[0]+x[0]+x[0]+x[0]+x[0]+x[0]+x[0]+x[0]+x[0]+x[0]+x[0]+x[0]+x[0]+x[0]+x[0]+x[0]\nend",
            limit(5, LimitKind::References),
        ),
        (b"set x[i] = y[0]\n", 16, b"end", read),
        (
            b"set x[i] = y[0]\n",
            16,
            b"set y[i] = 0\nend",
            limit(13, LimitKind::References),
        ),
    ];
    for (line, times, end, why) in lines {
        let text = long(rt.alloc(), LOOP, line, times, end)?;
        assert_eq!(rt; refused(rt.alloc(), text.as_slice())?, why);
    }
    Ok(())
}

const LONG_FRONT: &[u8] = b"matrix a csr\nvector x n zero\nloop i\n";

/// A front, so many guards and so many ends.
fn guarded(alloc: Global, guards: u32, ends: u32) -> Result<Vec<u8>, Fail> {
    let open = long(alloc, LONG_FRONT, b"when 0<n\n", guards, b"")?;
    long(alloc, open.as_slice(), b"end\n", ends, b"")
}

/// A statement whose value is a number in so many parentheses.
fn grouped(alloc: Global, depth: u32) -> Result<Vec<u8>, Fail> {
    let open = long(alloc, LONG_FRONT, b"set x[i] = ", 1, b"")?;
    let open = long(alloc, open.as_slice(), b"(", depth, b"1")?;
    long(alloc, open.as_slice(), b")", depth, b"\nend")
}

#[test]
fn reads_many_guards_in_one_another(rt: HostRuntime) -> Result<(), Fail> {
    let text = guarded(rt.alloc(), 198, 199)?;
    assert_eq!(rt; refused(rt.alloc(), text.as_slice())?, LoopRefusal::Memory);
    Ok(())
}

#[test]
fn refuses_guards_without_an_end(rt: HostRuntime) -> Result<(), Fail> {
    let text = guarded(rt.alloc(), 6_500, 0)?;
    assert_eq!(rt;
        refused(rt.alloc(), text.as_slice())?,
        LoopRefusal::Text { line: 6_504 }
    );
    Ok(())
}

#[test]
fn refuses_guards_past_the_last_line(rt: HostRuntime) -> Result<(), Fail> {
    let text = guarded(rt.alloc(), 6_500, 6_501)?;
    assert_eq!(rt;
        refused(rt.alloc(), text.as_slice())?,
        limit(401, LimitKind::Lines)
    );
    Ok(())
}

#[test]
fn refuses_open_parentheses(rt: HostRuntime) -> Result<(), Fail> {
    let text = long(rt.alloc(), LONG_FRONT, b"(", 200, b"\nend")?;
    assert_eq!(rt;
        refused(rt.alloc(), text.as_slice())?,
        LoopRefusal::Text { line: 4 }
    );
    Ok(())
}

#[test]
fn reads_many_parentheses(rt: HostRuntime) -> Result<(), Fail> {
    let text = grouped(rt.alloc(), 94)?;
    assert_eq!(rt; refused(rt.alloc(), text.as_slice())?, LoopRefusal::Memory);
    Ok(())
}

#[test]
fn refuses_changes_of_a_loop(rt: HostRuntime) -> Result<(), Fail> {
    let (front, rest) = FORWARD.split_at(157);
    let changes: [(&[u8], LoopRefusal); 5] = [
        (b"  set y[i] = b[i]", name(10, NameKind::Unknown)),
        (b"  set a.col[i] = 0", name(10, NameKind::WrittenIndex)),
        (b"  set x[i] = a.col[i]", name(10, NameKind::WrongKind)),
        (b"  set x[i+1048577] = 0", limit(10, LimitKind::Constant)),
        (b"  set x[i] = b[i]", LoopRefusal::Memory),
    ];
    let (_, after) = rest.split_at(17);
    for (line, why) in changes {
        let text = long(rt.alloc(), front, line, 1, after)?;
        assert_eq!(rt; refused(rt.alloc(), text.as_slice())?, why);
    }
    let (whole, _) = FORWARD.split_at(FORWARD.len() - 4);
    assert_eq!(rt; refused(rt.alloc(), whole)?, LoopRefusal::Text { line: 14 });
    Ok(())
}
