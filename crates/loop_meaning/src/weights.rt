// How much work each row is.
ghost use Rattle.std.specs.Prelude.{◌≡◌, ◌+◌, ◌≤◌, [], length, IfOk, if◌then◌else◌};
ghost use Rattle.loop_core.specs.Variables.{bindings};
ghost use Rattle.loop_core.specs.Terms.{AreBounded, IsWithin, term_value};
ghost use Rattle.loop_core.specs.Depth.{depth, body_depth};
ghost use Rattle.loop_core.specs.Instances.{item_instances, body_instances, turns, trips, bound};
ghost use Rattle.loop_meaning.specs.Weights.{counted, weight, row_weights};

use crate::exprs::is_met;
use crate::tally::{add_all, add_one, are_statements};
use loop_core::arrays::Arrays;
use loop_core::env::{Env, bind};
use loop_core::nest::{Item, Nest, Term};
use loop_core::terms::value as value_of_term;
use std::alloc::Global;
use wave_base::types::{Memory, RowId};

/// The weight of each row: 1 plus the number of its instances, of which at most 4,294,967,295 count.
///
/// A row is walked no further than that, and a loop of statements alone is counted by its length. Out of
/// memory is the only refusal.
pub fn weights(alloc: Global, nest: &Nest, arrays: &Arrays) -> Result<Vec<u64>, Memory>
    requires { body_depth nest.now.body ≤ 5 }
    ensures { IfOk result (λ weights. weights.items ≡ row_weights arrays.now nest.now) }
{
    let mut weights = Vec::new(alloc);
    for row in 0..arrays.n() {
        weights.push(weight_of(nest, arrays, RowId(row)))?;
    }
    Ok(weights)
}

fn weight_of(nest: &Nest, arrays: &Arrays, row: RowId) -> u64
    requires { body_depth nest.now.body ≤ 5 }
    ensures { result ≡ weight arrays.now nest.now row.0 }
{
    let outside = Env::Empty;
    let env = bind(nest.line, row.0 as i128, &outside);
    count_body(nest.body.as_slice(), &env, arrays, 0) as u64 + 1
}

// The number before, and the instances of these items.
#[cycle(count)]
fn count_body(items: &[Item], env: &Env<'_>, arrays: &Arrays, before: u32) -> u32
    requires bounded { AreBounded (bindings env.now) }
    requires shallow { length (bindings env.now) + body_depth items.now ≤ 64 }
    ensures { result ≡ counted (before + length (body_instances arrays.now items.now (bindings env.now))) }
{
    let mut count = before;
    for item in items {
        count = count_item(item, env, arrays, count);
    }
    count
}

#[cycle(count)]
fn count_item(item: &Item, env: &Env<'_>, arrays: &Arrays, before: u32) -> u32
    requires bounded { AreBounded (bindings env.now) }
    requires shallow { length (bindings env.now) + depth item.now ≤ 64 }
    ensures { result ≡ counted (before + length (item_instances arrays.now item.now (bindings env.now))) }
{
    match item {
        Item::For {
            line,
            name: _,
            lo,
            hi,
            body,
        } => count_loop(body.as_slice(), *line, lo, hi, env, arrays, before),
        Item::When {
            line: _,
            rel,
            left,
            right,
            body,
        } => {
            let met = is_met(*rel, left, right, env, arrays);
            count_where(met, body.as_slice(), env, arrays, before)
        }
        Item::Set { .. } => add_one(before),
        Item::Keep { .. } => add_one(before),
    }
}

// The body for each number from the value of `lo` up to but not including that of `hi`.
#[cycle(count)]
fn count_loop(
    body: &[Item],
    line: u16,
    lo: &Term,
    hi: &Term,
    env: &Env<'_>,
    arrays: &Arrays,
    before: u32,
) -> u32
    requires bounded { AreBounded (bindings env.now) }
    requires shallow { length (bindings env.now) + body_depth body.now + 1 ≤ 64 }
    ensures { result ≡ counted (before + length (turns (trips (term_value arrays.now (bindings env.now) lo.now) (term_value arrays.now (bindings env.now) hi.now)) (term_value arrays.now (bindings env.now) lo.now) (λ i. body_instances arrays.now body.now (bound line i (bindings env.now))))) }
{
    let lo = value_of_term(lo, env, arrays);
    let hi = value_of_term(hi, env, arrays);
    if are_statements(body) {
        add_all(before, lo, hi, body.len())
    } else {
        count_turns(lo, hi, line, body, env, arrays, before)
    }
}

// The body where its guard is met.
#[cycle(count)]
fn count_where(met: bool, body: &[Item], env: &Env<'_>, arrays: &Arrays, before: u32) -> u32
    requires bounded { AreBounded (bindings env.now) }
    requires shallow { length (bindings env.now) + body_depth body.now ≤ 64 }
    ensures { result ≡ counted (before + length (if met then body_instances arrays.now body.now (bindings env.now) else [])) }
{
    if met {
        count_body(body, env, arrays, before)
    } else {
        before
    }
}

// The body for each number from `lo` up to but not including `hi`, or fewer where no more count.
#[cycle(count)]
fn count_turns(
    lo: i128,
    hi: i128,
    line: u16,
    body: &[Item],
    env: &Env<'_>,
    arrays: &Arrays,
    before: u32,
) -> u32
    requires bounded { AreBounded (bindings env.now) }
    requires shallow { length (bindings env.now) + body_depth body.now + 1 ≤ 64 }
    requires low { IsWithin (length (bindings env.now) + 1) lo }
    requires high { IsWithin (length (bindings env.now) + 1) hi }
    ensures { result ≡ counted (before + length (turns (trips lo hi) lo (λ i. body_instances arrays.now body.now (bound line i (bindings env.now))))) }
{
    let mut count = before;
    for i in lo..hi {
        if count == u32::MAX {
            return count;
        }
        count = count_body(body, &bind(line, i, &*env), arrays, count);
    }
    count
}
