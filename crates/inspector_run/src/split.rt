// The pairs of a plan, by as many threads as there are processors.
ghost use Rattle.std.specs.Prelude.{◌≡◌, ◌∷◌, [], ◌<◌, flat_map, vec_items, IfOk, IfSome};
ghost use Rattle.std.specs.List.{All};
ghost use Rattle.wave_base.specs.declared.types.RowId.{RowId};
ghost use Rattle.inspector_run.specs.Pairs.{emitted as of_plan};
ghost use Rattle.inspector_run.specs.Ready.{SearchesAscending, IsReady};
ghost use Rattle.inspector_run.specs.IsPlan.{IsPlan};
ghost use Rattle.inspector_run.specs.Left.{left};
ghost use Rattle.inspector_run.specs.Pieces.{values_in, piece_pairs, MayRun, IsHeld};

use crate::inverse::Inverse;
use crate::invert::invert;
use crate::joined::joined;
use crate::needed::needed;
use crate::pairs::all_pairs;
use crate::pieces::{Piece, pieces, whole};
use crate::plan::{InspOp, InspPlan};
use crate::run::{first_of, run_along};
use crate::tries::Tries;
use loop_core::arrays::Arrays;
use loop_core::env::Env;
use loop_core::nest::{Term, VarId};
use rayon::prelude::*;
use std::alloc::Global;
use std::marker::Brand;
use std::sync::ledger::{Blank, Ledger};
use std::thread::Threads;
use wave_base::steps::Steps;
use wave_base::types::{Memory, RowId};

/// The list that `pairs` gives. Where the first operation is a `Loop`, threads share its values.
///
/// The array of each `Locate` ascends. A thread that can't be had is work for the caller.
pub fn pairs_split(
    rt: &(impl Threads + Sync),
    alloc: Global,
    plan: &InspPlan,
    arrays: &Arrays,
) -> Result<Vec<(RowId, RowId)>, Memory>
    requires plan { IsPlan plan.now.ops }
    requires ascending { All (SearchesAscending arrays.now) plan.now.ops }
    ensures emitted { IfOk result (λ pairs. pairs.items ≡ of_plan arrays.now plan.now.ops) }
    ensures earlier { IfOk result (λ pairs. All (λ (p : RowId × RowId). p.0.0 < p.1.0) pairs.items) }
    ensures rows { IfOk result (λ pairs. All (λ (p : RowId × RowId). p.1.0 < arrays.now.n) pairs.items) }
{
    let ops = needed(alloc, plan.ops.as_slice())?;
    pairs_shared(rt, alloc, ops.as_slice(), arrays)
}

// The pairs of operations that may be run.
fn pairs_shared(
    rt: &(impl Threads + Sync),
    alloc: Global,
    ops: &[InspOp],
    arrays: &Arrays,
) -> Result<Vec<(RowId, RowId)>, Memory>
    requires ready { IsReady arrays.now ops.now [] }
    ensures { IfOk result (λ pairs. pairs.items ≡ of_plan arrays.now ops.now) }
{
    match outer_loop(ops) {
        None => alone::<Brand>(alloc, ops, arrays, Blank::new(1)),
        Some(outer) => spread::<Brand>(rt, alloc, outer, arrays, Blank::new(1)),
    }
}

// A first operation that is a `Loop`, and those after it.
#[derive(Clone, Copy)]
struct OuterLoop<'a> {
    var: VarId,
    lo: &'a Term,
    hi: &'a Term,
    after: &'a [InspOp],
}

fn outer_loop(ops: &[InspOp]) -> Option<OuterLoop<'_>>
    ensures { IfSome result (λ o. ops.now ≡ InspOp.Loop o.var o.lo.now o.hi.now ∷ o.after.now) }
{
    let (first, after) = first_of(ops)?;
    match first {
        InspOp::Loop { var, lo, hi } => Some(OuterLoop {
            var: *var,
            lo,
            hi,
            after,
        }),
        InspOp::Let { .. } => None,
        InspOp::Find { .. } => None,
        InspOp::Locate { .. } => None,
        InspOp::Test(_) => None,
        InspOp::Emit { .. } => None,
    }
}

// All pairs by the caller.
fn alone<L: Ledger>(
    alloc: Global,
    ops: &[InspOp],
    arrays: &Arrays,
    blank: Blank,
) -> Result<Vec<(RowId, RowId)>, Memory>
    requires name { blank.name ≡ L.name }
    requires parts { blank.parts ≡ L.parts }
    requires one { blank.parts ≡ 1 }
    requires ready { IsReady arrays.now ops.now [] }
    ensures { IfOk result (λ pairs. pairs.items ≡ of_plan arrays.now ops.now) }
{
    let mut steps = Steps::<L>::open(blank);
    all_pairs(alloc, ops, arrays, &mut steps)
}

// The pairs of an outer loop and of what follows it.
fn spread<L: Ledger>(
    rt: &(impl Threads + Sync),
    alloc: Global,
    outer: OuterLoop<'_>,
    arrays: &Arrays,
    blank: Blank,
) -> Result<Vec<(RowId, RowId)>, Memory>
    requires name { blank.name ≡ L.name }
    requires parts { blank.parts ≡ L.parts }
    requires one { blank.parts ≡ 1 }
    requires ready { IsReady arrays.now (InspOp.Loop outer.var outer.lo.now outer.hi.now ∷ outer.after.now) [] }
    ensures { IfOk result (λ pairs. pairs.items ≡ of_plan arrays.now (InspOp.Loop outer.entry.var outer.entry.lo.now outer.entry.hi.now ∷ outer.entry.after.now)) }
{
    let mut steps = Steps::<L>::open(blank);
    let whole = whole(outer.lo, outer.hi, arrays, &mut steps);
    let inverses = invert(alloc, outer.after, arrays, &mut steps)?;
    along(rt, alloc, whole, outer, arrays, inverses.as_slice())
}

// The pieces of an outer loop, and their pairs one after another.
fn along(
    rt: &(impl Threads + Sync),
    alloc: Global,
    whole: Piece,
    outer: OuterLoop<'_>,
    arrays: &Arrays,
    inverses: &[Inverse],
) -> Result<Vec<(RowId, RowId)>, Memory>
    requires held { IsHeld whole }
    requires run { MayRun arrays.now inverses.now outer.after.now outer.var whole }
    ensures { IfOk result (λ pairs. pairs.items ≡ piece_pairs arrays.now outer.entry.after.now outer.entry.var whole) }
{
    let pieces = pieces(alloc, whole)?;
    let lists = lists_of(
        rt,
        alloc,
        outer.var,
        pieces.as_slice(),
        outer.after,
        arrays,
        inverses,
    )?;
    joined(alloc, lists.as_slice())
}

// The pairs of each piece.
fn lists_of(
    rt: &(impl Threads + Sync),
    alloc: Global,
    var: VarId,
    pieces: &[Piece],
    after: &[InspOp],
    arrays: &Arrays,
    inverses: &[Inverse],
) -> Result<Vec<Vec<(RowId, RowId)>>, Memory>
    requires { All (MayRun arrays.now inverses.now after.now var) pieces.now }
    ensures { IfOk result (λ lists. flat_map vec_items lists.items ≡ flat_map (piece_pairs arrays.now after.now var) pieces.now) }
{
    pieces
        .par_iter()
        .with_min_len(1)
        .map(
            |piece: &Piece| -> Result<Vec<(RowId, RowId)>, Memory>
                requires { MayRun arrays.now inverses.now after.now var piece.now }
                ensures { IfOk result (λ pairs. pairs.items ≡ piece_pairs arrays.entry.now after.entry.now var piece.now) }
            { pairs_of(alloc, var, *piece, after, arrays, inverses) },
        )
        .collect::<Result<Vec<Vec<(RowId, RowId)>>, Memory>>(rt, alloc)?
}

// The pairs of a piece.
fn pairs_of(
    alloc: Global,
    var: VarId,
    piece: Piece,
    after: &[InspOp],
    arrays: &Arrays,
    inverses: &[Inverse],
) -> Result<Vec<(RowId, RowId)>, Memory>
    requires { MayRun arrays.now inverses.now after.now var piece }
    ensures { IfOk result (λ pairs. pairs.items ≡ piece_pairs arrays.now after.now var piece) }
{
    counted::<Brand>(alloc, var, piece, after, arrays, inverses, Blank::new(1))
}

fn counted<L: Ledger>(
    alloc: Global,
    var: VarId,
    piece: Piece,
    after: &[InspOp],
    arrays: &Arrays,
    inverses: &[Inverse],
    blank: Blank,
) -> Result<Vec<(RowId, RowId)>, Memory>
    requires name { blank.name ≡ L.name }
    requires parts { blank.parts ≡ L.parts }
    requires one { blank.parts ≡ 1 }
    requires run { MayRun arrays.now inverses.now after.now var piece }
    ensures { IfOk result (λ pairs. pairs.items ≡ piece_pairs arrays.now after.now var piece) }
{
    let mut steps = Steps::<L>::open(blank);
    let mut pairs = Vec::new(alloc);
    run_along(
        var,
        tries_in(piece),
        after,
        &Env::Empty,
        arrays,
        inverses,
        &mut pairs,
        &mut steps,
    )?;
    Ok(pairs)
}

fn tries_in(piece: Piece) -> Tries<'static>
    ensures { left result ≡ values_in piece }
{
    Tries::Between {
        next: piece.next,
        end: piece.end,
    }
}
