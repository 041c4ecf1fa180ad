// Lines that are read, and texts with their least lines that don't fit, by hand.
use loop_core::nest::Op;
use loop_lines::line::Line;
use loop_lines::place::text_line;
use loop_lines::tree::NamedExpr;
use loop_syntax::numbered::cut_lines;
use loop_syntax::refusal::LoopRefusal;
use std::alloc::Global;
use std::test::Fail;

fn line(alloc: Global, text: &[u8]) -> Result<Line, Fail> {
    match text_line(alloc, text) {
        Ok(Some(found)) => Ok(found),
        Ok(None) => Err("the line is skipped".into()),
        Err(_) => Err("the line is refused".into()),
    }
}

/// Whether an expression is a number taken from something.
fn takes_away(value: &NamedExpr, number: i64) -> bool {
    match value {
        NamedExpr::Op(Op::Sub, _, right) =>
            matches!(right.get(), NamedExpr::Lit(n) if *n == number),
        _ => false,
    }
}

#[test]
fn a_statement_is_read(rt: HostRuntime) -> Result<(), Fail> {
    let found = line(rt.alloc(), b"\tset x[i+1]=a.val[0]")?;
    assert!(rt; matches!(found, Line::Set(_, _, _)));
    Ok(())
}

#[test]
fn differences_group_from_the_left(rt: HostRuntime) -> Result<(), Fail> {
    let found = line(rt.alloc(), b"set x[0] = 1 - 2 * 5 - 3")?;
    assert!(rt; matches!(&found, Line::Set(_, _, value) if takes_away(value, 3)));
    Ok(())
}

/// Whether an expression is the greater of something and a number.
fn is_at_least(value: &NamedExpr, number: i64) -> bool {
    match value {
        NamedExpr::Op(Op::Max, _, right) =>
            matches!(right.get(), NamedExpr::Lit(n) if *n == number),
        _ => false,
    }
}

#[test]
fn a_local_keeps_the_greater(rt: HostRuntime) -> Result<(), Fail> {
    let found = line(rt.alloc(), b"set s = max( s*2 ,7)")?;
    assert!(rt; matches!(&found, Line::Keep(_, value) if is_at_least(value, 7)));
    Ok(())
}

#[test]
fn a_local_is_declared(rt: HostRuntime) -> Result<(), Fail> {
    assert!(rt; matches!(line(rt.alloc(), b"local s\r")?, Line::Local(_)));
    Ok(())
}

fn misfit(alloc: Global, text: &[u8]) -> Result<Option<u32>, Fail> {
    if text.len() > 100_000 {
        return Err("the text is too long".into());
    }
    match cut_lines(alloc, text) {
        Ok(_) => Ok(None),
        Err(LoopRefusal::Text { line }) => Ok(Some(line)),
        Err(_) => Err("memory".into()),
    }
}

#[test]
fn takes_loops(rt: HostRuntime) -> Result<(), Fail> {
    let texts: [&[u8]; 5] = [
        b"matrix a csr\nvector b n file\nvector x n zero\nrange a.ptr 0 nnz+1\nrange a.col 0 n\nrising a.ptr\nsorted a.col by a.ptr\ndiagonal a.diag of a.col by a.ptr\nloop i\n  set x[i] = b[i]\n  for p in a.ptr[i]..a.diag[i]\n    set x[i] = x[i] - a.val[p] * x[a.col[p]]\n  end\nend\n",
        b"matrix a csr\nrange a.ptr 0 nnz+1\nrange a.col 0 n\nrising a.ptr\nsorted a.col by a.ptr\ndiagonal a.diag of a.col by a.ptr\nloop i\n  for k in a.ptr[i]..a.diag[i]\n    set a.val[k] = a.val[k] / a.val[a.diag[a.col[k]]]\n    for m in a.diag[a.col[k]]+1..a.ptr[a.col[k]+1]\n      for l in k+1..a.ptr[i+1]\n        when a.col[l] == a.col[m]\n          set a.val[l] = a.val[l] - a.val[k] * a.val[m]\n        end\n      end\n    end\n  end\nend\n",
        b"matrix a csr\nindex q n\nvector b n file\nvector x n zero\nrange q 0 n\ninjective q\nloop i\n  set x[q[i]] = b[i]\nend\n",
        b"# \xff\n\tmatrix\ta csc\r\nstrict a.csr\nupto a.row by a.ptr\nbefore a.ptr a.row\nindex q n + 1\nvector y nnz zero\n\nloop i\nwhen 0 - 5 <= i\nset y[i]=(1+2)*3/y[nnz-1]\nend\nend",
        b"matrix a csr\nlocal s\nvector x n zero\nloop i\nset s = 1\nset x[i] = min(s, max(0 ,x[i])) - (s)\nend",
    ];
    for text in texts {
        assert_eq!(rt; misfit(rt.alloc(), text)?, None);
    }
    Ok(())
}

#[test]
fn refuses_the_least_line(rt: HostRuntime) -> Result<(), Fail> {
    let texts: [(&[u8], u32); 21] = [
        (b"", 1),
        (b"matrix a csr", 2),
        (b"loop i\nend", 1),
        (b"matrix a csr\nmatrix b csr\nloop i\nend", 2),
        (b"matrix a csr\nloop i\nfor p in0..n\nend\nend", 3),
        (b"matrix a csr\nloop i\nset x[n-5n] = 0\nend", 3),
        (b"matrix a csr\nindex q n+01\nloop i\nend", 2),
        (b"matrix a csr\nloop i\nwhen 00-5 < n\nend\nend", 3),
        (b"matrix a csr\nloop i\nwhen 0 = n\nend\nend", 3),
        (
            b"matrix a csr\nloop i\nset x[i] = 9223372036854775808\nend",
            3,
        ),
        (b"matrix a csr\nloop i\nset x[i] = 1\nend\nend", 5),
        (b"matrix a csr\nloop i\nset x[i] = a.val\nend", 3),
        (
            b"matrix a csr\nloop i\nset x[i] = 1\nvector y n file\nend",
            4,
        ),
        (b"matrix set csr\nloop i\nend\r\r", 1),
        (b"matrix a csr\nlocal min\nloop i\nend", 2),
        (b"matrix a csr\nset s = 1\nloop i\nend", 2),
        (b"matrix a csr\nloop i\nlocal s\nend", 3),
        (b"matrix a csr\nloop i\nset a.val = 1\nend", 3),
        (b"matrix a csr\nloop i\nset s = a.val\nend", 3),
        (b"matrix a csr\nloop i\nset s = min(1)\nend", 3),
        (b"matrix a csr\nloop i\nset s = max(1, 2, 3)\nend", 3),
    ];
    for (text, line) in texts {
        assert_eq!(rt; misfit(rt.alloc(), text)?, Some(line));
    }
    Ok(())
}
