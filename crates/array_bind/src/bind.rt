// The arrays of a nest.
ghost use Rattle.std.specs.Prelude.{◌≡◌, ◌++◌, ◌<◌, ◌≤◌, ◌^◌, length, IfOk, IfErr};
ghost use Rattle.std.specs.List.{All};
ghost use Rattle.loop_core.specs.Sizes.{sizes};
ghost use Rattle.array_bind.specs.Lists.{index_lists, data_lists, Binds};
ghost use Rattle.array_bind.specs.Shape.{file_of};
ghost use Rattle.array_bind.specs.Matrix.{form_or, matrix_form, compressed};

use crate::files::Files;
use crate::lists::{ArrayLists, Sources, put_declared};
use crate::shape::{ShapeRefusal, file_sizes, length_fault};
use csr_arrays::compressed::Compressed;
use csr_arrays::csr::{csc, csr};
use loop_core::arrays::Arrays;
use loop_core::decl::{Decl, DeclKind, Form};
use loop_core::nest::Nest;
use loop_core::values::Values;
use mtx_read::triples::Triples;
use std::alloc::Global;
use wave_base::types::Memory;
use wave_base::words::Words;

/// The index arrays and the data arrays of a nest.
#[derive(Drop)]
pub struct Bound {
    pub arrays: Arrays,
    pub values: Values,
}

/// The form of the declared matrix.
fn matrix_form(decls: &[Decl]) -> Form
    ensures { result ≡ matrix_form decls.now }
{
    for decl in decls {
        if let DeclKind::Matrix(form) = decl.kind {
            return form;
        }
    }
    Form::Csr
}

fn compressed(alloc: Global, form: Form, t: &Triples) -> Result<Compressed, Memory>
    requires square { t.now.columns ≡ t.now.rows }
    requires few { length t.now.entries ≤ 2 ^ 24 }
    requires inside { All (λ e. (e.0 < t.now.rows) × (e.1 < t.now.columns)) t.now.entries }
    ensures arrays { IfOk result (λ m. m ≡ compressed form t.now.rows t.now.entries) }
    ensures few { IfOk result (λ m. length m.index ≤ 2 ^ 24) }
{
    match form {
        Form::Csr => csr(alloc, t),
        Form::Csc => csc(alloc, t),
    }
}

/// The arrays of declarations: the matrix has its own, and the others take their files in order.
fn lists_of(
    alloc: Global,
    decls: &[Decl],
    matrix: Compressed,
    files: Vec<Words>,
    n: u32,
    nnz: u32,
) -> Result<ArrayLists, Memory>
    ensures index { IfOk result (λ lists. lists.index.items ≡ index_lists matrix decls.now files.items) }
    ensures values { IfOk result (λ lists. lists.values.items ≡ data_lists n nnz matrix decls.now files.items) }
{
    let mut lists = ArrayLists {
        index: Vec::new(alloc),
        values: Vec::new(alloc),
    };
    let mut left = Sources {
        matrix,
        files: Files::of(files),
    };
    for decl in decls {
        left = put_declared(alloc, &mut lists, left, decl.kind, n, nnz)?;
    }
    Ok(lists)
}

/// The arrays of a nest, from a matrix in triples and the words of files: one list for each array
/// number. The files are those of the arrays declared with `file` or as `index`, in the order of
/// their declarations. Work and memory are linear in the triples and the words.
#[tactic(auto, using(crate::proofs::Few::few_files))]
pub fn bind(
    alloc: Global,
    nest: &Nest,
    t: Triples,
    files: Vec<Words>,
) -> Result<Bound, ShapeRefusal>
    requires few_arrays { length (sizes nest.now.decls) ≤ 64 }
    requires few { length t.entries ≤ 2 ^ 24 }
    requires inside { All (λ e. (e.0 < t.rows) × (e.1 < t.columns)) t.entries }
    requires few_files { length files.items < 2 ^ 32 }
    ensures binds { Binds nest.now.decls t.rows t.columns t.entries files.items result }
    ensures within { IfErr result (λ why. file_of why ≤ length files.items) }
{
    let decls = nest.decls.as_slice();
    if t.rows != t.columns {
        return Err(ShapeRefusal::NotSquare {
            rows: t.rows,
            columns: t.columns,
        });
    }
    let sizes = file_sizes(alloc, decls)?;
    if files.len() != sizes.len() {
        return Err(ShapeRefusal::Files {
            have: files.len() as u32,
            want: sizes.len() as u32,
        });
    }
    let matrix = compressed(alloc, matrix_form(decls), &t)?;
    let n = t.rows;
    let nnz = matrix.index.len() as u32;
    if let Some(other) = length_fault(n, nnz, sizes.as_slice(), files.as_slice()) {
        return Err(ShapeRefusal::Length {
            file: other.file,
            have: other.have,
            want: other.want,
        });
    }
    let lists = lists_of(alloc, decls, matrix, files, n, nnz)?;
    Ok(Bound {
        arrays: Arrays::of(n, nnz, lists.index),
        values: Values::of(lists.values),
    })
}
