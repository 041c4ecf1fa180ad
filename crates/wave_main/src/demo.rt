// The command `demo`.
ghost use Rattle.std.specs.Prelude.{◌≡◌, ◌<◌, ◌≤◌, ◌++◌, ◌∷◌, [], ◌^◌, true, ℕ, List, Option, IfOk, IfErr, length};
ghost use Rattle.std.specs.List.{All};
ghost use Rattle.loop_core.specs.Lengths.{HaveLengths};
ghost use Rattle.loop_core.specs.Lists.{list_of};
ghost use Rattle.loop_core.specs.Sequence.{sequential};
ghost use Rattle.loop_core.specs.Shape.{is_target};
ghost use Rattle.index_props.specs.Meanings.{Passes};
ghost use Rattle.access_bounds.specs.Accepted.{IsAccepted};
ghost use Rattle.array_bind.specs.Lists.{arrays_of, values_of};
ghost use Rattle.array_bind.specs.Matrix.{by_rows};
ghost use Rattle.core_machine.specs.FitWork.{IsFitWork};
ghost use Rattle.wave_gen.specs.RightSide.{right_side};
ghost use Rattle.wave_report.specs.DemoText.{head_text, sum_text};
ghost use Rattle.wave_report.specs.SummaryText.{summary_text};
ghost use Rattle.wave_words.specs.Words.{texts};
ghost use Rattle.wave_main.specs.Commands.{demo_form, IsAsked};
ghost use Rattle.wave_main.specs.Demo.{demo_text, drawn_rows, entries_of, kind_word, rows_of, solve_loop, solved, total, IsDemo, IsNumberOf};
ghost use Rattle.wave_main.specs.Loops.{IsLoop};
ghost use Rattle.wave_main.specs.Making.{IsMade};
ghost use Rattle.wave_main.specs.Planning.{made_text, work_of, HasDemo};
ghost use Rattle.wave_main.specs.Sound.{IsSound};

use crate::bind::bound;
use crate::bounds::accepted;
use crate::input::{Input, check_properties};
use crate::laws::sound_works_are_fit;
use crate::loops::nest_of;
use crate::matrices::matrix_status;
use crate::run::team_values;
use crate::status::Status;
use crate::words::{made_of, workers_of};
use crate::work::{Planned, core_work, summary_of, with_plan};
use access_bounds::accept::Accepted;
use core_machine::work::Work;
use csr_arrays::csr::csr;
use mtx_read::matrix::read_matrix;
use mtx_read::triples::Triples;
use std::alloc::Global;
use std::sync::Wait;
use std::thread::Threads;
use wave_base::types::{ArrayId, Memory};
use wave_base::w64;
use wave_base::words::Words;
use wave_gen::grid::grid;
use wave_gen::laws::{grid_is_read, lower_is_read};
use wave_gen::lower::lower;
use wave_gen::right_side::right_side;
use wave_io::gate::Gate;
use wave_report::counts::Summary;
use wave_report::demo::{head, sum};
use wave_report::summary::summary;

/// What a demo's matrix is made of: a square grid, by its side, or draws, by their seed.
#[derive(Clone, Copy, Debug, PartialEq, Eq)]
pub enum Kind {
    Grid,
    Lower,
}

// The number of the array x of the loop.
const SOLVED: ArrayId = ArrayId(5);

#[tactic(auto, unfolding(crate::specs::Demo::solve_loop))]
fn solve_loop() -> &'static [u8]
    ensures { result.now ≡ solve_loop }
{
    "matrix a csr\nvector b n file\nvector x n zero\nrange a.ptr 0 nnz+1\nrange a.col 0 n\nrising a.ptr\nsorted a.col by a.ptr\ndiagonal a.diag of a.col by a.ptr\nloop i\n  set x[i] = b[i]\n  for p in a.ptr[i]..a.diag[i]\n    set x[i] = x[i] - a.val[p] * x[a.col[p]]\n  end\n  set x[i] = x[i] / a.val[a.diag[i]]\nend\n".as_bytes()
}

#[tactic(auto, unfolding(crate::specs::Demo::drawn_rows))]
fn drawn_rows() -> u32
    ensures value { result ≡ drawn_rows }
    ensures some { 1 ≤ result }
    ensures few { result ≤ 2 ^ 20 }
{
    4096
}

fn kind_word(kind: Kind) -> &'static str
    ensures { result.now ≡ kind_word kind }
{
    match kind {
        Kind::Grid => "grid",
        Kind::Lower => "lower",
    }
}

fn made_text(alloc: Global, kind: Kind, made: u32) -> Result<Vec<u8>, Memory>
    requires { IsNumberOf kind made }
    ensures { IfOk result (λ text. text.items ≡ made_text kind made) }
{
    match kind {
        Kind::Grid => grid(alloc, made),
        Kind::Lower => lower(alloc, drawn_rows(), u64::from(made)),
    }
}

// The made matrix, as it is read from its text.
fn made_matrix(alloc: Global, kind: Kind, made: u32) -> Result<Triples, Status>
    requires { IsNumberOf kind made }
    ensures rows { IfOk result (λ t. t.rows ≡ rows_of kind made) }
    ensures columns { IfOk result (λ t. t.columns ≡ rows_of kind made) }
    ensures entries { IfOk result (λ t. t.entries ≡ entries_of kind made) }
    ensures inside { IfOk result (λ t. All (λ e. (e.0 < t.rows) × (e.1 < t.columns)) t.entries) }
    ensures few { IfOk result (λ t. length t.entries ≤ 2 ^ 24) }
{
    grid_is_read();
    lower_is_read();
    let text = made_text(alloc, kind, made)?;
    match read_matrix(alloc, text.as_slice()) {
        Ok(matrix) => Ok(matrix),
        Err(refusal) => Err(matrix_status(2, refusal)),
    }
}

// The right side for a matrix, as the one vector.
fn vectors_of(alloc: Global, matrix: &Triples) -> Result<Vec<Words>, Memory>
    requires square { matrix.now.columns ≡ matrix.now.rows }
    requires few { length matrix.now.entries ≤ 2 ^ 24 }
    requires inside { All (λ e. (e.0 < matrix.now.rows) × (e.1 < matrix.now.columns)) matrix.now.entries }
    ensures { IfOk result (λ vs. vs.items ≡ right_side (by_rows matrix.now.rows matrix.now.entries) ∷ []) }
{
    let compressed = csr(alloc, matrix)?;
    let right = right_side(alloc, &compressed)?;
    let mut vectors = Vec::new(alloc);
    vectors.push(Words::from_vec(right))?;
    Ok(vectors)
}

// The loop, accepted.
fn solve_nest(alloc: Global) -> Result<Accepted, Status>
    ensures is_loop { IfOk result (λ nest. IsLoop solve_loop nest) }
    ensures accepted { IfOk result (λ nest. IsAccepted nest) }
    ensures few_properties { IfOk result (λ nest. length nest.props < 2 ^ 32) }
{
    let read = nest_of(alloc, solve_loop())?;
    let nest = accepted(alloc, read)?;
    Ok(nest)
}

// A loop over a square matrix and the right side for it.
fn solve_input(alloc: Global, nest: Accepted, matrix: Triples) -> Result<Input, Status>
    requires square { matrix.columns ≡ matrix.rows }
    requires few { length matrix.entries ≤ 2 ^ 24 }
    requires inside { All (λ e. (e.0 < matrix.rows) × (e.1 < matrix.columns)) matrix.entries }
    ensures nest { IfOk result (λ input. input.nest ≡ nest) }
    ensures arrays { IfOk result (λ input. input.arrays ≡ arrays_of nest.decls matrix.rows matrix.entries (right_side (by_rows matrix.rows matrix.entries) ∷ [])) }
    ensures values { IfOk result (λ input. input.values ≡ values_of nest.decls matrix.rows matrix.entries (right_side (by_rows matrix.rows matrix.entries) ∷ [])) }
    ensures lengths { IfOk result (λ input. HaveLengths input.nest.decls input.arrays input.values) }
{
    let vectors = vectors_of(alloc, &matrix)?;
    let bound = bound(alloc, nest.nest(), matrix, vectors, 0)?;
    Ok(Input {
        nest,
        arrays: bound.arrays,
        values: bound.values,
    })
}

// What a demo runs, judged as the files of a run are.
fn judged_input(alloc: Global, kind: Kind, made: u32) -> Result<Input, Status>
    requires { IsNumberOf kind made }
    ensures demo { IfOk result (IsDemo kind made) }
    ensures lengths { IfOk result (λ input. HaveLengths input.nest.decls input.arrays input.values) }
    ensures passes { IfOk result (λ input. Passes input.nest.props input.arrays) }
{
    let nest = solve_nest(alloc)?;
    let matrix = made_matrix(alloc, kind, made)?;
    let input = solve_input(alloc, nest, matrix)?;
    check_properties(alloc, &input)?;
    Ok(input)
}

/// What a demo runs. Out of memory is the only refusal.
// The made matrix is square and has a diagonal, its text is read without a refusal, the right side has a word
// for each row, and the fixed loop is accepted and writes x: so none of the refusals of a run's files comes
// here. That isn't proved, and one that came would be answered as out of memory.
fn made_input(alloc: Global, kind: Kind, made: u32) -> Result<Input, Memory>
    requires { IsNumberOf kind made }
    ensures demo { IfOk result (IsDemo kind made) }
    ensures lengths { IfOk result (λ input. HaveLengths input.nest.decls input.arrays input.values) }
    ensures passes { IfOk result (λ input. Passes input.nest.props input.arrays) }
    ensures writes { IfOk result (λ input. is_target input.nest solved ≡ true) }
{
    let Ok(input) = judged_input(alloc, kind, made) else {
        return Err(Memory);
    };
    if !input.nest.nest().writes(SOLVED) {
        return Err(Memory);
    }
    Ok(input)
}

fn total(words: &[i64]) -> i64
    ensures { result ≡ total words.now }
{
    let mut sum = 0;
    for word in words {
        sum = w64::add(sum, *word);
    }
    sum
}

// The sum of x after all workers of a fit work have run.
#[tactic(auto, using(crate::proofs::DemoLaws::closed_total))]
fn solved_total<R: AllocGlobal + Threads + Wait + Sync, G: Gate + Sync>(
    rt: &R,
    work: &Work,
    gate: &G,
) -> Result<i64, Memory>
    requires fit { IsFitWork work.now }
    requires writes { is_target work.now.nest solved ≡ true }
    ensures { IfOk result (λ sum. sum ≡ total (list_of (sequential work.now.nest work.now.arrays work.now.values) solved)) }
{
    let values = team_values(rt, work, gate)?;
    Ok(total(values.words(SOLVED)))
}

// The lines of a demo.
fn lines_of(
    alloc: Global,
    kind: Kind,
    made: u32,
    workers: u32,
    numbers: &Summary,
    total: i64,
) -> Result<Vec<u8>, Memory>
    ensures { IfOk result (λ text. text.items ≡ head_text (kind_word kind) made workers ++ summary_text numbers.now ++ sum_text total) }
{
    let mut text = head(alloc, kind_word(kind), made, workers)?;
    let middle = summary(alloc, numbers)?;
    let last = sum(alloc, total)?;
    text.push_str(middle.as_str())?;
    text.push_str(last.as_str())?;
    Ok(text.into_bytes())
}

// The text of a work that is planned.
fn planned_text<R: AllocGlobal + Threads + Wait + Sync, G: Gate + Sync>(
    rt: &R,
    kind: Kind,
    made: u32,
    workers: u32,
    planned: Planned,
    gate: &G,
) -> Result<Vec<u8>, Memory>
    requires sound { IsSound (work_of planned workers) }
    requires writes { is_target planned.input.nest solved ≡ true }
    ensures { IfOk result (λ text. text.items ≡ demo_text kind made (work_of planned workers) planned.verdicts) }
{
    sound_works_are_fit();
    let numbers = summary_of(&planned)?;
    let work = core_work(rt.alloc(), planned)?;
    let total = solved_total(rt, &work, gate)?;
    lines_of(rt.alloc(), kind, made, workers, &numbers, total)
}

// The text of a demo of a number on some workers. Out of memory is the only refusal.
fn demo_text<R: AllocGlobal + Threads + Wait + Sync, G: Gate + Sync>(
    rt: &R,
    kind: Kind,
    made: u32,
    workers: u32,
    gate: &G,
) -> Result<Vec<u8>, Memory>
    requires made { IsNumberOf kind made }
    requires some { 1 ≤ workers }
    requires few { workers ≤ 64 }
    ensures { IfOk result (λ text. HasDemo kind made workers text.items) }
{
    let input = made_input(rt.alloc(), kind, made)?;
    let planned = with_plan(rt, input, workers)?;
    planned_text(rt, kind, made, workers, planned, gate)
}

/// The text that a demo prints, or out of memory. It reads no file.
///
/// Each worker passes the gate before each of its tasks. It may wait forever: no return is promised.
pub fn make_demo<R: AllocGlobal + Threads + Wait + Sync, G: Gate + Sync>(
    rt: &R,
    words: &[String],
    kind: Kind,
    gate: &G,
) -> Result<Vec<u8>, Status>
    requires { IsAsked (texts words.now) (demo_form kind) }
    ensures made { (held : List ℕ → Option (List ℕ)) → IfOk result (λ text. IsMade held (texts words.now) text.items) }
    ensures missed { IfErr result (λ status. status ≡ Status.Memory) }
{
    let text = demo_text(rt, kind, made_of(words, kind), workers_of(words), gate)?;
    Ok(text)
}
