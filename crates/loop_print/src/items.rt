// The lines of loops, guards and statements.
ghost use Rattle.std.specs.Prelude.{◌≡◌, ◌++◌, ◌∷◌, [], codes, OnOk};
ghost use Rattle.loop_print.specs.PrintNames.{Repeated, local_name};
ghost use Rattle.loop_print.specs.PrintBlocks.{open_blocks};
ghost use Rattle.loop_print.specs.PrintTerms.{term_text, entry_text};
ghost use Rattle.loop_print.specs.PrintExprs.{expr_text};
ghost use Rattle.loop_print.specs.PrintItems.{rel_text, span_text, indent, line_text, item_text, body_text};

use crate::exprs::put_expr;
use crate::names::{Blocks, outer_loop, outside, put_local};
use crate::terms::{put_entry, put_term};
use loop_core::name::Name;
use loop_core::nest::{Expr, Item, Nest, Rel, Term};
use wave_base::types::{ArrayId, Memory};

fn put_rel(text: &mut Vec<u8>, rel: Rel) -> Result<(), Memory>
    ensures { OnOk result (text.new.items ≡ text.old.items ++ rel_text rel) }
{
    match rel {
        Rel::Equal => text.extend_from_slice(b" == ")?,
        Rel::Less => text.extend_from_slice(b" < ")?,
        Rel::LessEqual => text.extend_from_slice(b" <= ")?,
    }
    Ok(())
}

/// Puts two spaces for each open block.
fn put_indent(text: &mut Vec<u8>, blocks: &Blocks<'_>) -> Result<(), Memory>
    ensures { OnOk result (text.new.items ≡ text.old.items ++ indent (open_blocks blocks.now)) }
{
    match blocks {
        Blocks::Outside => Ok(()),
        Blocks::Loop(_, _, outer) => {
            text.extend_from_slice(b"  ")?;
            put_indent(text, outer)
        }
        Blocks::Guard(outer) => {
            text.extend_from_slice(b"  ")?;
            put_indent(text, outer)
        }
    }
}

fn put_span(
    text: &mut Vec<u8>,
    nest: &Nest,
    blocks: &Blocks<'_>,
    lo: &Term,
    hi: &Term,
) -> Result<(), Memory>
    ensures { OnOk result (text.new.items ≡ text.old.items ++ span_text nest.now.decls (open_blocks blocks.now) lo.now hi.now) }
{
    put_term(text, nest.decls.as_slice(), blocks, lo)?;
    text.extend_from_slice(b"..")?;
    put_term(text, nest.decls.as_slice(), blocks, hi)
}

fn put_for(
    text: &mut Vec<u8>,
    nest: &Nest,
    blocks: &Blocks<'_>,
    name: &Name,
    lo: &Term,
    hi: &Term,
) -> Result<(), Memory>
    ensures { OnOk result (text.new.items ≡ text.old.items ++ line_text (open_blocks blocks.now)
        (codes "for " ++ name.now ++ codes " in " ++ span_text nest.now.decls (open_blocks blocks.now) lo.now hi.now)) }
{
    put_indent(text, blocks)?;
    text.extend_from_slice(b"for ")?;
    text.extend_from_slice(name.as_slice())?;
    text.extend_from_slice(b" in ")?;
    put_span(text, nest, blocks, lo, hi)?;
    text.push(b'\n')?;
    Ok(())
}

fn put_when(
    text: &mut Vec<u8>,
    nest: &Nest,
    blocks: &Blocks<'_>,
    left: &Term,
    rel: Rel,
    right: &Term,
) -> Result<(), Memory>
    ensures { OnOk result (text.new.items ≡ text.old.items ++ line_text (open_blocks blocks.now)
        (codes "when " ++ term_text nest.now.decls (open_blocks blocks.now) left.now ++ rel_text rel ++ term_text nest.now.decls (open_blocks blocks.now) right.now)) }
{
    put_indent(text, blocks)?;
    text.extend_from_slice(b"when ")?;
    put_term(text, nest.decls.as_slice(), blocks, left)?;
    put_rel(text, rel)?;
    put_term(text, nest.decls.as_slice(), blocks, right)?;
    text.push(b'\n')?;
    Ok(())
}

fn put_set(
    text: &mut Vec<u8>,
    nest: &Nest,
    blocks: &Blocks<'_>,
    array: ArrayId,
    at: &Term,
    value: &Expr,
) -> Result<(), Memory>
    ensures { OnOk result (text.new.items ≡ text.old.items ++ line_text (open_blocks blocks.now)
        (codes "set " ++ entry_text nest.now.decls array (term_text nest.now.decls (open_blocks blocks.now) at.now) ++ codes " = " ++ expr_text nest.now.decls nest.now.locals (open_blocks blocks.now) value.now 0)) }
{
    put_indent(text, blocks)?;
    text.extend_from_slice(b"set ")?;
    put_entry(text, nest.decls.as_slice(), blocks, array, at)?;
    text.extend_from_slice(b" = ")?;
    put_expr(text, nest, blocks, value, 0)?;
    text.push(b'\n')?;
    Ok(())
}

fn put_keep(
    text: &mut Vec<u8>,
    nest: &Nest,
    blocks: &Blocks<'_>,
    local: u8,
    value: &Expr,
) -> Result<(), Memory>
    ensures { OnOk result (text.new.items ≡ text.old.items ++ line_text (open_blocks blocks.now)
        (codes "set " ++ local_name nest.now.locals local ++ codes " = " ++ expr_text nest.now.decls nest.now.locals (open_blocks blocks.now) value.now 0)) }
{
    put_indent(text, blocks)?;
    text.extend_from_slice(b"set ")?;
    put_local(text, nest.locals.as_slice(), local)?;
    text.extend_from_slice(b" = ")?;
    put_expr(text, nest, blocks, value, 0)?;
    text.push(b'\n')?;
    Ok(())
}

fn put_end(text: &mut Vec<u8>, blocks: &Blocks<'_>) -> Result<(), Memory>
    ensures { OnOk result (text.new.items ≡ text.old.items ++ line_text (open_blocks blocks.now) (codes "end")) }
{
    put_indent(text, blocks)?;
    text.extend_from_slice(b"end\n")?;
    Ok(())
}

#[cycle(items)]
fn put_items(
    text: &mut Vec<u8>,
    nest: &Nest,
    blocks: &Blocks<'_>,
    items: &[Item],
) -> Result<(), Memory>
    ensures { OnOk result (text.new.items ≡ text.old.items ++ body_text nest.now.decls nest.now.locals items.now (open_blocks blocks.now)) }
{
    for item in items {
        put_item(text, nest, blocks, item)?;
    }
    Ok(())
}

#[cycle(items)]
fn put_item(text: &mut Vec<u8>, nest: &Nest, blocks: &Blocks<'_>, item: &Item) -> Result<(), Memory>
    ensures { OnOk result (text.new.items ≡ text.old.items ++ item_text nest.now.decls nest.now.locals item.now (open_blocks blocks.now)) }
{
    match item {
        Item::For {
            line,
            name,
            lo,
            hi,
            body,
        } => {
            put_for(text, nest, blocks, name, lo, hi)?;
            let inner = Blocks::Loop(*line, name, &*blocks);
            put_items(text, nest, &inner, body.as_slice())?;
            put_end(text, blocks)
        }
        Item::When {
            line: _,
            rel,
            left,
            right,
            body,
        } => {
            put_when(text, nest, blocks, left, *rel, right)?;
            let inner = Blocks::Guard(&*blocks);
            put_items(text, nest, &inner, body.as_slice())?;
            put_end(text, blocks)
        }
        Item::Set {
            line: _,
            array,
            at,
            value,
        } => put_set(text, nest, blocks, *array, at, value),
        Item::Keep {
            line: _,
            local,
            value,
        } => put_keep(text, nest, blocks, *local, value),
    }
}

/// Puts the body of the outer loop.
fn put_body(text: &mut Vec<u8>, nest: &Nest) -> Result<(), Memory>
    ensures { OnOk result (text.new.items ≡ text.old.items
        ++ body_text nest.now.decls nest.now.locals nest.now.body (Repeated nest.now.line nest.now.name ∷ [])) }
{
    let outside = outside();
    let blocks = outer_loop(nest.line, &nest.name, &outside);
    put_items(text, nest, &blocks, nest.body.as_slice())
}

/// Puts the outer loop.
pub fn put_loop(text: &mut Vec<u8>, nest: &Nest) -> Result<(), Memory>
    ensures { OnOk result (text.new.items ≡ text.old.items
        ++ codes "loop " ++ nest.now.name ++ codes "\n"
        ++ body_text nest.now.decls nest.now.locals nest.now.body (Repeated nest.now.line nest.now.name ∷ [])
        ++ codes "end\n") }
{
    text.extend_from_slice(b"loop ")?;
    text.extend_from_slice(nest.name.as_slice())?;
    text.push(b'\n')?;
    put_body(text, nest)?;
    text.extend_from_slice(b"end\n")?;
    Ok(())
}
