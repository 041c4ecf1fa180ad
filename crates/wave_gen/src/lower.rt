// A lower triangular matrix that is drawn.
ghost use Rattle.std.specs.Prelude.{◌≡◌, ◌<◌, ◌≤◌, ◌^◌, ◌++◌, ◌∷◌, [], IfOk, OnOk};
ghost use Rattle.wave_gen.specs.Texts.{entry_text, entries_text};
ghost use Rattle.wave_gen.specs.Draws.{next, twice};
ghost use Rattle.wave_gen.specs.Lower.{left, three, lefts, after_lefts, diagonal, row, after_row, rows_from, lower_text};

use crate::draws::draw;
use crate::text::{put_entry, put_head};
use std::alloc::Global;
use wave_base::types::Memory;

/// The text of a lower triangular matrix of `n` rows that is drawn from a seed: each row but the first
/// has three entries left of the diagonal, with values from -9 to 9, and then its diagonal, from 1 to 9.
/// A column may be drawn twice in a row, and columns stand in the order in which they are drawn. It
/// fails out of memory alone. The work is linear in the text.
pub fn lower(alloc: Global, n: u32, seed: u64) -> Result<Vec<u8>, Memory>
    requires some { 1 ≤ n }
    requires few { n ≤ 2 ^ 20 }
    ensures { IfOk result (λ text. text.items ≡ lower_text n seed) }
{
    let mut text = Vec::new(alloc);
    put_head(&mut text, u64::from(n), u64::from(n + 3 * (n - 1)))?;
    put_rows(&mut text, n, seed)?;
    Ok(text)
}

fn put_rows(text: &mut Vec<u8>, n: u32, seed: u64) -> Result<(), Memory>
    ensures { OnOk result (text.new.items ≡ text.old.items ++ entries_text (rows_from n 0 seed)) }
{
    let mut state = seed;
    for i in 0..n {
        put_lefts(text, i, &mut state)?;
        put_diagonal(text, i, &mut state)?;
    }
    Ok(())
}

/// Puts the entries left of the diagonal of a row.
fn put_lefts(text: &mut Vec<u8>, i: u32, state: &mut u64) -> Result<(), Memory>
    ensures text { OnOk result (text.new.items ≡ text.old.items ++ entries_text (lefts i state.old)) }
    ensures state { OnOk result (state.new ≡ after_lefts i state.old) }
{
    if i == 0 {
        return Ok(());
    }
    put_three(text, i, state)
}

fn put_three(text: &mut Vec<u8>, i: u32, state: &mut u64) -> Result<(), Memory>
    requires { 0 < i }
    ensures text { OnOk result (text.new.items ≡ text.old.items ++ entries_text (three i state.old)) }
    ensures state { OnOk result (state.new ≡ twice (twice (twice state.old))) }
{
    put_left(text, i, state)?;
    put_left(text, i, state)?;
    put_left(text, i, state)?;
    Ok(())
}

/// Puts one entry left of the diagonal.
fn put_left(text: &mut Vec<u8>, i: u32, state: &mut u64) -> Result<(), Memory>
    requires { 0 < i }
    ensures text { OnOk result (text.new.items ≡ text.old.items ++ entry_text (left i state.old)) }
    ensures state { OnOk result (state.new ≡ twice state.old) }
{
    let column = draw(state) % i;
    let value = i64::from(draw(state) % 19) - 9;
    put_entry(text, i, column, value)
}

/// Puts the diagonal of a row.
fn put_diagonal(text: &mut Vec<u8>, i: u32, state: &mut u64) -> Result<(), Memory>
    ensures text { OnOk result (text.new.items ≡ text.old.items ++ entry_text (diagonal i state.old)) }
    ensures state { OnOk result (state.new ≡ next state.old) }
{
    let value = 1 + i64::from(draw(state) % 9);
    put_entry(text, i, i, value)
}
