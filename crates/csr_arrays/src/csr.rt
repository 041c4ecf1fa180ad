// The two compressed forms.
ghost use Rattle.std.specs.Prelude.{◌≡◌, ◌<◌, ◌≤◌, ◌^◌, length, map, IfOk};
ghost use Rattle.std.specs.List.{All};
ghost use Rattle.csr_arrays.specs.Axes.{flipped};
ghost use Rattle.csr_arrays.specs.Arrays.{AreArrays};

use crate::axis::Axis;
use crate::compressed::Compressed;
use crate::rows::compress;
use mtx_read::triples::Triples;
use std::alloc::Global;
use wave_base::types::Memory;

/// The arrays of a square matrix by rows. Time and memory are linear in its rows and triples.
pub fn csr(alloc: Global, t: &Triples) -> Result<Compressed, Memory>
    requires square { t.now.columns ≡ t.now.rows }
    requires few { length t.now.entries ≤ 2 ^ 24 }
    requires inside { All (λ e. (e.0 < t.now.rows) × (e.1 < t.now.columns)) t.now.entries }
    ensures arrays { IfOk result (λ m. AreArrays t.now.rows t.now.entries m) }
    ensures few { IfOk result (λ m. length m.index ≤ length t.now.entries) }
{
    compress(alloc, Axis::Row, t.rows, t.entries.as_slice())
}

/// The arrays of a square matrix by columns. Time and memory are linear in its rows and triples.
pub fn csc(alloc: Global, t: &Triples) -> Result<Compressed, Memory>
    requires square { t.now.columns ≡ t.now.rows }
    requires few { length t.now.entries ≤ 2 ^ 24 }
    requires inside { All (λ e. (e.0 < t.now.rows) × (e.1 < t.now.columns)) t.now.entries }
    ensures arrays { IfOk result (λ m. AreArrays t.now.rows (map flipped t.now.entries) m) }
    ensures few { IfOk result (λ m. length m.index ≤ length t.now.entries) }
{
    compress(alloc, Axis::Column, t.rows, t.entries.as_slice())
}
