// Six loops of the field are accepted, and aren't without one of their properties.
use crate::texts::{refused, refused_without, unbounded};
use access_bounds::refusal::Side2;
use std::test::Fail;

pub const FORWARD: &[u8] =
    b"matrix a csr\nvector b n file\nvector x n zero\nrange a.ptr 0 nnz+1\nrange a.col 0 n\nrising a.ptr\nsorted a.col by a.ptr\ndiagonal a.diag of a.col by a.ptr\nloop i\n  set x[i] = b[i]\n  for p in a.ptr[i]..a.diag[i]\n    set x[i] = x[i] - a.val[p] * x[a.col[p]]\n  end\nend\n";

pub const SOLVE: &[u8] =
    b"matrix a csr\nvector b n file\nvector x n zero\nrange a.ptr 0 nnz+1\nrange a.col 0 n\nrising a.ptr\nsorted a.col by a.ptr\ndiagonal a.diag of a.col by a.ptr\nloop i\n  set x[i] = b[i]\n  for p in a.ptr[i]..a.diag[i]\n    set x[i] = x[i] - a.val[p] * x[a.col[p]]\n  end\n  set x[i] = x[i] / a.val[a.diag[i]]\nend\n";

pub const SEIDEL: &[u8] =
    b"matrix a csr\nvector b n file\nvector x n file\nrange a.ptr 0 nnz+1\nrange a.col 0 n\nrising a.ptr\nsorted a.col by a.ptr\ndiagonal a.diag of a.col by a.ptr\nloop i\n  set x[i] = b[i]\n  for p in a.ptr[i]..a.diag[i]\n    set x[i] = x[i] - a.val[p] * x[a.col[p]]\n  end\n  for p in a.diag[i]+1..a.ptr[i+1]\n    set x[i] = x[i] - a.val[p] * x[a.col[p]]\n  end\n  set x[i] = x[i] / a.val[a.diag[i]]\nend\n";

pub const COLUMNS: &[u8] =
    b"matrix a csc\nvector x n file\nrange a.ptr 0 nnz+1\nrange a.row 0 n\nrising a.ptr\nsorted a.row by a.ptr\ndiagonal a.diag of a.row by a.ptr\nloop j\n  set x[j] = x[j] / a.val[a.diag[j]]\n  for p in a.diag[j]+1..a.ptr[j+1]\n    set x[a.row[p]] = x[a.row[p]] - a.val[p] * x[j]\n  end\nend\n";

pub const ILU: &[u8] =
    b"matrix a csr\nrange a.ptr 0 nnz+1\nrange a.col 0 n\nrising a.ptr\nsorted a.col by a.ptr\ndiagonal a.diag of a.col by a.ptr\nloop i\n  for k in a.ptr[i]..a.diag[i]\n    set a.val[k] = a.val[k] / a.val[a.diag[a.col[k]]]\n    for m in a.diag[a.col[k]]+1..a.ptr[a.col[k]+1]\n      for l in k+1..a.ptr[i+1]\n        when a.col[l] == a.col[m]\n          set a.val[l] = a.val[l] - a.val[k] * a.val[m]\n        end\n      end\n    end\n  end\nend\n";

pub const SCATTER: &[u8] =
    b"matrix a csr\nindex q n\nvector b n file\nvector x n zero\nrange q 0 n\ninjective q\nloop i\n  set x[q[i]] = b[i]\nend\n";

#[test]
fn accepts_forward_solves(rt: HostRuntime) -> Result<(), Fail> {
    assert_eq!(rt; refused(rt.alloc(), FORWARD)?, None);
    assert_eq!(rt; refused(rt.alloc(), SOLVE)?, None);
    assert_eq!(rt; refused(rt.alloc(), COLUMNS)?, None);
    Ok(())
}

#[test]
fn accepts_other_loops(rt: HostRuntime) -> Result<(), Fail> {
    assert_eq!(rt; refused(rt.alloc(), SEIDEL)?, None);
    assert_eq!(rt; refused(rt.alloc(), ILU)?, None);
    assert_eq!(rt; refused(rt.alloc(), SCATTER)?, None);
    Ok(())
}

#[test]
fn names_the_bracket_in_forward_solves(rt: HostRuntime) -> Result<(), Fail> {
    let alloc = rt.alloc();
    assert_eq!(rt;
        refused_without(alloc, FORWARD, 4)?,
        unbounded(12, 3, Side2::Low)
    );
    assert_eq!(rt;
        refused_without(alloc, FORWARD, 5)?,
        unbounded(12, 4, Side2::Low)
    );
    assert_eq!(rt;
        refused_without(alloc, FORWARD, 8)?,
        unbounded(12, 3, Side2::High)
    );
    assert_eq!(rt; refused_without(alloc, FORWARD, 6)?, None);
    assert_eq!(rt; refused_without(alloc, FORWARD, 7)?, None);
    Ok(())
}

#[test]
fn names_the_bracket_in_other_loops(rt: HostRuntime) -> Result<(), Fail> {
    let alloc = rt.alloc();
    assert_eq!(rt;
        refused_without(alloc, COLUMNS, 4)?,
        unbounded(11, 1, Side2::High)
    );
    assert_eq!(rt;
        refused_without(alloc, ILU, 6)?,
        unbounded(9, 1, Side2::High)
    );
    assert_eq!(rt;
        refused_without(alloc, SCATTER, 5)?,
        unbounded(8, 1, Side2::Low)
    );
    Ok(())
}
