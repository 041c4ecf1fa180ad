// The lines of a nest's body with what stands round them and the brackets on them.
ghost use Rattle.std.specs.Prelude.{◌≡◌, [], ◌∷◌, ◌++◌, IfOk, OnOk};
ghost use Rattle.uf_constraints.specs.declared.reach.Around.TheVariants.{Loop, Guard};
ghost use Rattle.uf_constraints.specs.declared.reach.Usage.TheVariants.{Sets};
ghost use Rattle.uf_constraints.specs.Brackets.{term_accesses, bracket_accesses, expr_accesses, spot, item_spots, body_spots, spots as spots_of};

use crate::accesses::{numbered, push_bracket, push_expr, push_term};
use loop_core::copies::copy_term;
use loop_core::nest::{Expr, Item, Nest, Rel, Term};
use sqlite_items::Items;
use std::alloc::Global;
use uf_constraints::reach::{Around, Spot, Usage};
use wave_base::types::{ArrayId, Memory};

/// The lines of the body in the order of the text, each with what stands round it, from the outside
/// in, and the brackets on it, from left to right.
pub fn spots(alloc: Global, nest: &Nest) -> Result<Items<Spot>, Memory>
    ensures { IfOk result (λ s. s ≡ spots_of nest.now) }
{
    let mut into = Items::new(alloc);
    let around = Items::new(alloc);
    push_items(alloc, nest.body.as_slice(), around.as_slice(), &mut into)?;
    Ok(into)
}

#[cycle(walk)]
fn push_items(
    alloc: Global,
    items: &[Item],
    around: &[Around],
    into: &mut Items<Spot>,
) -> Result<(), Memory>
    ensures { OnOk result (into.new ≡ into.old ++ body_spots items.now around.now) }
{
    for item in items {
        push_item(alloc, item, around, into)?;
    }
    Ok(())
}

#[cycle(walk)]
fn push_item(
    alloc: Global,
    item: &Item,
    around: &[Around],
    into: &mut Items<Spot>,
) -> Result<(), Memory>
    ensures { OnOk result (into.new ≡ into.old ++ item_spots item.now around.now) }
{
    match item {
        Item::For {
            line,
            name: _,
            lo,
            hi,
            body,
        } => {
            push_pair(alloc, *line, around, lo, hi, into)?;
            let inside = inside_loop(alloc, around, *line, lo, hi)?;
            push_items(alloc, body.as_slice(), inside.as_slice(), into)
        }
        Item::When {
            line,
            rel,
            left,
            right,
            body,
        } => {
            push_pair(alloc, *line, around, left, right, into)?;
            let inside = inside_guard(alloc, around, *rel, left, right)?;
            push_items(alloc, body.as_slice(), inside.as_slice(), into)
        }
        Item::Set {
            line,
            array,
            at,
            value,
        } => push_statement(alloc, *line, around, *array, at, value, into),
        Item::Keep {
            line,
            local: _,
            value,
        } => push_keep(alloc, *line, around, value, into),
    }
}

// The line of a loop's bounds or of a guard's terms.
fn push_pair(
    alloc: Global,
    line: u16,
    around: &[Around],
    left: &Term,
    right: &Term,
    into: &mut Items<Spot>,
) -> Result<(), Memory>
    ensures { OnOk result (into.new
        ≡ into.old ++ spot line around.now (term_accesses left.now ++ term_accesses right.now) ∷ []) }
{
    let mut accesses = Items::new(alloc);
    push_term(alloc, left, &mut accesses)?;
    push_term(alloc, right, &mut accesses)?;
    into.push(Spot {
        line,
        around: copy_around(alloc, around)?,
        brackets: numbered(alloc, accesses.as_slice())?,
    })?;
    Ok(())
}

fn push_statement(
    alloc: Global,
    line: u16,
    around: &[Around],
    array: ArrayId,
    at: &Term,
    value: &Expr,
    into: &mut Items<Spot>,
) -> Result<(), Memory>
    ensures { OnOk result (into.new
        ≡ into.old ++ spot line around.now (bracket_accesses Sets array at.now ++ expr_accesses value.now) ∷ []) }
{
    let mut accesses = Items::new(alloc);
    push_bracket(alloc, Usage::Sets, array, at, &mut accesses)?;
    push_expr(alloc, value, &mut accesses)?;
    into.push(Spot {
        line,
        around: copy_around(alloc, around)?,
        brackets: numbered(alloc, accesses.as_slice())?,
    })?;
    Ok(())
}

fn push_keep(
    alloc: Global,
    line: u16,
    around: &[Around],
    value: &Expr,
    into: &mut Items<Spot>,
) -> Result<(), Memory>
    ensures { OnOk result (into.new ≡ into.old ++ spot line around.now (expr_accesses value.now) ∷ []) }
{
    let mut accesses = Items::new(alloc);
    push_expr(alloc, value, &mut accesses)?;
    into.push(Spot {
        line,
        around: copy_around(alloc, around)?,
        brackets: numbered(alloc, accesses.as_slice())?,
    })?;
    Ok(())
}

fn inside_loop(
    alloc: Global,
    around: &[Around],
    line: u16,
    lo: &Term,
    hi: &Term,
) -> Result<Items<Around>, Memory>
    ensures { IfOk result (λ inside. inside ≡ around.now ++ Loop line lo.now hi.now ∷ []) }
{
    let mut inside = copy_around(alloc, around)?;
    let lo = copy_term(alloc, lo)?;
    let hi = copy_term(alloc, hi)?;
    inside.push(Around::Loop { line, lo, hi })?;
    Ok(inside)
}

fn inside_guard(
    alloc: Global,
    around: &[Around],
    rel: Rel,
    left: &Term,
    right: &Term,
) -> Result<Items<Around>, Memory>
    ensures { IfOk result (λ inside. inside ≡ around.now ++ Guard rel left.now right.now ∷ []) }
{
    let mut inside = copy_around(alloc, around)?;
    let left = copy_term(alloc, left)?;
    let right = copy_term(alloc, right)?;
    inside.push(Around::Guard { rel, left, right })?;
    Ok(inside)
}

/// An equal list of what stands round a line.
pub fn copy_around(alloc: Global, around: &[Around]) -> Result<Items<Around>, Memory>
    ensures { IfOk result (λ copy. copy ≡ around.now) }
{
    let mut copy = Items::new(alloc);
    for one in around {
        copy.push(copy_one(alloc, one)?)?;
    }
    Ok(copy)
}

fn copy_one(alloc: Global, around: &Around) -> Result<Around, Memory>
    ensures { IfOk result (λ copy. copy ≡ around.now) }
{
    match around {
        Around::Loop { line, lo, hi } => {
            let lo = copy_term(alloc, lo)?;
            let hi = copy_term(alloc, hi)?;
            Ok(Around::Loop {
                line: *line,
                lo,
                hi,
            })
        }
        Around::Guard { rel, left, right } => {
            let left = copy_term(alloc, left)?;
            let right = copy_term(alloc, right)?;
            Ok(Around::Guard {
                rel: *rel,
                left,
                right,
            })
        }
    }
}
