// The text of expressions.
ghost use Rattle.std.specs.Prelude.{◌≡◌, ◌++◌, OnOk};
ghost use Rattle.loop_print.specs.PrintBlocks.{open_blocks};
ghost use Rattle.loop_print.specs.PrintExprs.{expr_text};
ghost use Rattle.loop_print.specs.PrintOps.{left_rank, right_rank, op_start, op_sign, op_end};

use crate::names::{Blocks, put_local};
use crate::terms::{put_entry, put_signed};
use loop_core::nest::{Expr, Nest, Op};
use wave_base::types::Memory;

fn left_rank(op: Op) -> u8
    ensures { result ≡ left_rank op }
{
    match op {
        Op::Add | Op::Sub | Op::Min | Op::Max => 0,
        Op::Mul | Op::Quot => 1,
    }
}

fn right_rank(op: Op) -> u8
    ensures { result ≡ right_rank op }
{
    match op {
        Op::Min | Op::Max => 0,
        Op::Add | Op::Sub => 1,
        Op::Mul | Op::Quot => 2,
    }
}

/// Puts what stands before the operands.
fn put_start(text: &mut Vec<u8>, op: Op, least: u8) -> Result<(), Memory>
    ensures { OnOk result (text.new.items ≡ text.old.items ++ op_start op least) }
{
    match op {
        Op::Min => text.extend_from_slice(b"min(")?,
        Op::Max => text.extend_from_slice(b"max(")?,
        Op::Add | Op::Sub | Op::Mul | Op::Quot => {
            if left_rank(op) < least {
                text.push(b'(')?;
            }
        }
    }
    Ok(())
}

/// Puts what stands between the operands.
fn put_sign(text: &mut Vec<u8>, op: Op) -> Result<(), Memory>
    ensures { OnOk result (text.new.items ≡ text.old.items ++ op_sign op) }
{
    match op {
        Op::Add => text.extend_from_slice(b" + ")?,
        Op::Sub => text.extend_from_slice(b" - ")?,
        Op::Mul => text.extend_from_slice(b" * ")?,
        Op::Quot => text.extend_from_slice(b" / ")?,
        Op::Min | Op::Max => text.extend_from_slice(b", ")?,
    }
    Ok(())
}

/// Puts what stands after the operands.
fn put_end(text: &mut Vec<u8>, op: Op, least: u8) -> Result<(), Memory>
    ensures { OnOk result (text.new.items ≡ text.old.items ++ op_end op least) }
{
    match op {
        Op::Min | Op::Max => text.push(b')')?,
        Op::Add | Op::Sub | Op::Mul | Op::Quot => {
            if left_rank(op) < least {
                text.push(b')')?;
            }
        }
    }
    Ok(())
}

/// Puts an expression, in parentheses where its rank is below the least one.
#[tactic(auto, using(crate::proofs::PrintOpsLaws::op_parts))]
pub fn put_expr(
    text: &mut Vec<u8>,
    nest: &Nest,
    blocks: &Blocks<'_>,
    expr: &Expr,
    least: u8,
) -> Result<(), Memory>
    ensures { OnOk result (text.new.items ≡ text.old.items ++ expr_text nest.now.decls nest.now.locals (open_blocks blocks.now) expr.now least) }
{
    match expr {
        Expr::Lit(value) => put_signed(text, *value),
        Expr::Read(array, at) => put_entry(text, nest.decls.as_slice(), blocks, *array, at),
        Expr::Local(local) => put_local(text, nest.locals.as_slice(), *local),
        Expr::Op(op, left, right) => {
            put_start(text, *op, least)?;
            put_expr(text, nest, blocks, left.get(), left_rank(*op))?;
            put_sign(text, *op)?;
            put_expr(text, nest, blocks, right.get(), right_rank(*op))?;
            put_end(text, *op, least)
        }
    }
}
