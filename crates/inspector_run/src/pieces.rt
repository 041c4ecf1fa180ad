// The numbers of an outer loop, in pieces.
ghost use Rattle.std.specs.Prelude.{◌≡◌, ◌∷◌, [], ◌++◌, ◌^◌, ◌≤◌, ◌<◌, pos, ◌+ℤ◌, ◌≤ℤ◌, unsigned_abs, flat_map, IfOk};
ghost use Rattle.loop_core.specs.Terms.{term_value};
ghost use Rattle.loop_core.specs.Instances.{trips};
ghost use Rattle.inspector_run.specs.Tries.{numbers_between};
ghost use Rattle.inspector_run.specs.Ready.{AreNear};
ghost use Rattle.inspector_run.specs.Pieces.{values_in, IsHeld};

use crate::value::value_of;
use loop_core::arrays::Arrays;
use loop_core::env::Env;
use loop_core::nest::Term;
use std::alloc::Global;
use std::sync::ledger::Ledger;
use wave_base::steps::Steps;
use wave_base::types::Memory;

/// The numbers from `next` up to but not including `end`.
#[derive(Clone, Copy)]
pub struct Piece {
    pub next: i128,
    pub end: i128,
}

// A piece of fewer rows isn't worth a thread's while.
const LEAST_ROWS: i128 = 1024;

// More pieces than processors, for pieces differ in work.
const MOST_PIECES: i128 = 64;

/// The numbers of an outer loop.
pub fn whole<L: Ledger>(lo: &Term, hi: &Term, arrays: &Arrays, steps: &mut Steps<L>) -> Piece
    requires low { unsigned_abs lo.now.plus ≤ 2 ^ 31 }
    requires high { unsigned_abs hi.now.plus ≤ 2 ^ 31 }
    ensures values { values_in result ≡ numbers_between (term_value arrays.now [] lo.now) (term_value arrays.now [] hi.now) }
    ensures near { AreNear 0 (values_in result) }
    ensures held { IsHeld result }
{
    let next = value_of(lo, &Env::Empty, arrays, steps);
    let end = value_of(hi, &Env::Empty, arrays, steps);
    up_to(next, end)
}

fn up_to(next: i128, end: i128) -> Piece
    ensures { result ≡ record { next = next; end = end } }
{
    Piece { next, end }
}

/// Numbers in pieces, one after another. Each has at least 1,024, unless there are fewer in all.
pub fn pieces(alloc: Global, whole: Piece) -> Result<Vec<Piece>, Memory>
    requires { IsHeld whole }
    ensures { IfOk result (λ pieces. flat_map values_in pieces.items ≡ values_in whole) }
{
    let rows = rows_of_each(whole);
    let mut pieces = Vec::new(alloc);
    let mut rest = whole;
    while rest.end - rest.next >= 2 * rows {
        let (first, after) = cut(rest, rows);
        pieces.push(first)?;
        rest = after;
    }
    pieces.push(rest)?;
    Ok(pieces)
}

// How many numbers a piece has, the last one apart.
fn rows_of_each(whole: Piece) -> i128
    requires { IsHeld whole }
    ensures some { pos 1 ≤ℤ result }
    ensures few { result ≤ℤ pos (2 ^ 67) }
{
    let even = (whole.end - whole.next) / MOST_PIECES;
    even.max(LEAST_ROWS)
}

// So many numbers, and those after them.
fn cut(whole: Piece, rows: i128) -> (Piece, Piece)
    requires held { IsHeld whole }
    requires some { pos 1 ≤ℤ rows }
    requires enough { (whole.next +ℤ rows) ≤ℤ whole.end }
    ensures parts { values_in whole ≡ values_in result.0 ++ values_in result.1 }
    ensures held { IsHeld result.1 }
    ensures fewer { trips result.1.next result.1.end < trips whole.next whole.end }
{
    cut_at(whole, whole.next + rows)
}

fn cut_at(whole: Piece, middle: i128) -> (Piece, Piece)
    requires held { IsHeld whole }
    requires some { (whole.next +ℤ pos 1) ≤ℤ middle }
    requires enough { middle ≤ℤ whole.end }
    ensures parts { values_in whole ≡ values_in result.0 ++ values_in result.1 }
    ensures held { IsHeld result.1 }
    ensures fewer { trips result.1.next result.1.end < trips whole.next whole.end }
{
    let first = up_to(whole.next, middle);
    let after = up_to(middle, whole.end);
    (first, after)
}
