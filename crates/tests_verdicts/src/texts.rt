// The worked loops.

/// Unit forward substitution.
pub const FORWARD: &[u8] =
    b"matrix a csr\nvector b n file\nvector x n zero\nrange a.ptr 0 nnz+1\nrange a.col 0 n\nrising a.ptr\nsorted a.col by a.ptr\ndiagonal a.diag of a.col by a.ptr\nloop i\n  set x[i] = b[i]\n  for p in a.ptr[i]..a.diag[i]\n    set x[i] = x[i] - a.val[p] * x[a.col[p]]\n  end\nend\n";

/// The same without the sorted columns.
pub const UNSORTED: &[u8] =
    b"matrix a csr\nvector b n file\nvector x n zero\nrange a.ptr 0 nnz+1\nrange a.col 0 n\nrising a.ptr\n#\ndiagonal a.diag of a.col by a.ptr\nloop i\n  set x[i] = b[i]\n  for p in a.ptr[i]..a.diag[i]\n    set x[i] = x[i] - a.val[p] * x[a.col[p]]\n  end\nend\n";

/// Forward substitution.
pub const DIVIDED: &[u8] =
    b"matrix a csr\nvector b n file\nvector x n zero\nrange a.ptr 0 nnz+1\nrange a.col 0 n\nrising a.ptr\nsorted a.col by a.ptr\ndiagonal a.diag of a.col by a.ptr\nloop i\n  set x[i] = b[i]\n  for p in a.ptr[i]..a.diag[i]\n    set x[i] = x[i] - a.val[p] * x[a.col[p]]\n  end\n  set x[i] = x[i] / a.val[a.diag[i]]\nend\n";

/// Gauss-Seidel.
pub const SEIDEL: &[u8] =
    b"matrix a csr\nvector b n file\nvector x n file\nrange a.ptr 0 nnz+1\nrange a.col 0 n\nrising a.ptr\nsorted a.col by a.ptr\ndiagonal a.diag of a.col by a.ptr\nloop i\n  set x[i] = b[i]\n  for p in a.ptr[i]..a.diag[i]\n    set x[i] = x[i] - a.val[p] * x[a.col[p]]\n  end\n  for p in a.diag[i]+1..a.ptr[i+1]\n    set x[i] = x[i] - a.val[p] * x[a.col[p]]\n  end\n  set x[i] = x[i] / a.val[a.diag[i]]\nend\n";

/// Forward substitution by columns.
pub const COLUMNS: &[u8] =
    b"matrix a csc\nvector x n file\nrange a.ptr 0 nnz+1\nrange a.row 0 n\nrising a.ptr\nsorted a.row by a.ptr\ndiagonal a.diag of a.row by a.ptr\nloop j\n  set x[j] = x[j] / a.val[a.diag[j]]\n  for p in a.diag[j]+1..a.ptr[j+1]\n    set x[a.row[p]] = x[a.row[p]] - a.val[p] * x[j]\n  end\nend\n";

/// The same without the sorted rows.
pub const UNSORTED_COLUMNS: &[u8] =
    b"matrix a csc\nvector x n file\nrange a.ptr 0 nnz+1\nrange a.row 0 n\nrising a.ptr\n#\ndiagonal a.diag of a.row by a.ptr\nloop j\n  set x[j] = x[j] / a.val[a.diag[j]]\n  for p in a.diag[j]+1..a.ptr[j+1]\n    set x[a.row[p]] = x[a.row[p]] - a.val[p] * x[j]\n  end\nend\n";

/// Incomplete factors.
pub const FACTORS: &[u8] =
    b"matrix a csr\nrange a.ptr 0 nnz+1\nrange a.col 0 n\nrising a.ptr\nsorted a.col by a.ptr\ndiagonal a.diag of a.col by a.ptr\nloop i\n  for k in a.ptr[i]..a.diag[i]\n    set a.val[k] = a.val[k] / a.val[a.diag[a.col[k]]]\n    for m in a.diag[a.col[k]]+1..a.ptr[a.col[k]+1]\n      for l in k+1..a.ptr[i+1]\n        when a.col[l] == a.col[m]\n          set a.val[l] = a.val[l] - a.val[k] * a.val[m]\n        end\n      end\n    end\n  end\nend\n";

/// The same without the rising starts of rows.
pub const FALLING_FACTORS: &[u8] =
    b"matrix a csr\nrange a.ptr 0 nnz+1\nrange a.col 0 n\n#\nsorted a.col by a.ptr\ndiagonal a.diag of a.col by a.ptr\nloop i\n  for k in a.ptr[i]..a.diag[i]\n    set a.val[k] = a.val[k] / a.val[a.diag[a.col[k]]]\n    for m in a.diag[a.col[k]]+1..a.ptr[a.col[k]+1]\n      for l in k+1..a.ptr[i+1]\n        when a.col[l] == a.col[m]\n          set a.val[l] = a.val[l] - a.val[k] * a.val[m]\n        end\n      end\n    end\n  end\nend\n";

/// The same without the sorted columns.
pub const UNSORTED_FACTORS: &[u8] =
    b"matrix a csr\nrange a.ptr 0 nnz+1\nrange a.col 0 n\nrising a.ptr\n#\ndiagonal a.diag of a.col by a.ptr\nloop i\n  for k in a.ptr[i]..a.diag[i]\n    set a.val[k] = a.val[k] / a.val[a.diag[a.col[k]]]\n    for m in a.diag[a.col[k]]+1..a.ptr[a.col[k]+1]\n      for l in k+1..a.ptr[i+1]\n        when a.col[l] == a.col[m]\n          set a.val[l] = a.val[l] - a.val[k] * a.val[m]\n        end\n      end\n    end\n  end\nend\n";

/// A scatter through an index file.
pub const SCATTER: &[u8] =
    b"matrix a csr\nindex q n\nvector b n file\nvector x n zero\nrange q 0 n\ninjective q\nloop i\n  set x[q[i]] = b[i]\nend\n";

/// The same without the distinct places.
pub const LOOSE_SCATTER: &[u8] =
    b"matrix a csr\nindex q n\nvector b n file\nvector x n zero\nrange q 0 n\n#\nloop i\n  set x[q[i]] = b[i]\nend\n";

/// Cells of z at the diagonals of earlier rows.
pub const DIAGONALS: &[u8] =
    b"matrix a csr\nvector x n file\nvector z nnz file\nrange a.diag 0 nnz\nloop i\n  for j in 0..i\n    set z[a.diag[j]] = x[j] + 2\n  end\n  set x[i] = z[a.diag[i]] + 2\nend\n";

/// Writes of x at q[i], before and inside a loop over the entries after the diagonal.
pub const AFTER_DIAGONAL: &[u8] =
    b"matrix a csr\nindex q n\nvector x n file\nvector z nnz file\nrange a.ptr 0 nnz+1\ndiagonal a.diag of a.col by a.ptr\nrange q 0 n\nloop i\n  set z[a.diag[i]] = x[q[i]] + z[a.diag[i]]\n  for p in a.diag[i]+1..a.ptr[i+1]\n    set x[q[i]] = 1\n  end\nend\n";
