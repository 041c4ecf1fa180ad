// The worked loops.

/// Unit forward substitution.
pub const FORWARD: &[u8] =
    b"matrix a csr\nvector b n file\nvector x n zero\nrange a.ptr 0 nnz+1\nrange a.col 0 n\nrising a.ptr\nsorted a.col by a.ptr\ndiagonal a.diag of a.col by a.ptr\nloop i\n  set x[i] = b[i]\n  for p in a.ptr[i]..a.diag[i]\n    set x[i] = x[i] - a.val[p] * x[a.col[p]]\n  end\nend\n";

/// Gauss-Seidel.
pub const SEIDEL: &[u8] =
    b"matrix a csr\nvector b n file\nvector x n file\nrange a.ptr 0 nnz+1\nrange a.col 0 n\nrising a.ptr\nsorted a.col by a.ptr\ndiagonal a.diag of a.col by a.ptr\nloop i\n  set x[i] = b[i]\n  for p in a.ptr[i]..a.diag[i]\n    set x[i] = x[i] - a.val[p] * x[a.col[p]]\n  end\n  for p in a.diag[i]+1..a.ptr[i+1]\n    set x[i] = x[i] - a.val[p] * x[a.col[p]]\n  end\n  set x[i] = x[i] / a.val[a.diag[i]]\nend\n";

/// Forward substitution by columns.
pub const COLUMNS: &[u8] =
    b"matrix a csc\nvector x n file\nrange a.ptr 0 nnz+1\nrange a.row 0 n\nrising a.ptr\nsorted a.row by a.ptr\ndiagonal a.diag of a.row by a.ptr\nloop j\n  set x[j] = x[j] / a.val[a.diag[j]]\n  for p in a.diag[j]+1..a.ptr[j+1]\n    set x[a.row[p]] = x[a.row[p]] - a.val[p] * x[j]\n  end\nend\n";

/// Incomplete factors.
pub const FACTORS: &[u8] =
    b"matrix a csr\nrange a.ptr 0 nnz+1\nrange a.col 0 n\nrising a.ptr\nsorted a.col by a.ptr\ndiagonal a.diag of a.col by a.ptr\nloop i\n  for k in a.ptr[i]..a.diag[i]\n    set a.val[k] = a.val[k] / a.val[a.diag[a.col[k]]]\n    for m in a.diag[a.col[k]]+1..a.ptr[a.col[k]+1]\n      for l in k+1..a.ptr[i+1]\n        when a.col[l] == a.col[m]\n          set a.val[l] = a.val[l] - a.val[k] * a.val[m]\n        end\n      end\n    end\n  end\nend\n";

/// The same without the distinct places.
pub const LOOSE_SCATTER: &[u8] =
    b"matrix a csr\nindex q n\nvector b n file\nvector x n zero\nrange q 0 n\n#\nloop i\n  set x[q[i]] = b[i]\nend\n";

/// Writes of the values of a row, which read the value at the place that a file names.
pub const MAPPED_VALUES: &[u8] =
    b"matrix a csr\nindex q n\nrange a.ptr 0 nnz+1\nrange q 0 nnz\nrising a.ptr\nloop i\n  for l in a.ptr[i]..a.ptr[i+1]\n    set a.val[l] = a.val[l] + a.val[q[i]]\n  end\nend\n";
