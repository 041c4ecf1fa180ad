// The statements of a nest, put down at their first instances.
ghost use Rattle.std.specs.Prelude.{◌≡◌, ◌↔◌, ◌++◌, ◌∷◌, [], ◌<◌, IsTrue, IfOk, OnOk, length};
ghost use Rattle.core_book.specs.declared.book.Statement.{Statement};
ghost use Rattle.core_unroll.specs.Moves.{IsStatement, GrewTo};

use core_book::book::Statement;
use loop_core::copies::copy_expr;
use loop_core::equal::same_term;
use loop_core::nest::Expr;
use wave_base::types::Memory;

/// The number of the statement on a line, which has this expression and so many reads of written arrays. It is
/// put down where none was; the last one that was found on the line is tried first.
pub fn find_statement(
    statements: &mut Vec<Statement>,
    slots: &mut Vec<u16>,
    line: u16,
    value: &Expr,
    reads: usize,
) -> Result<u16, Memory>
    ensures grew { OnOk result (GrewTo statements.old.items statements.new.items) }
    ensures found { IfOk result (λ at. IsStatement statements.new.items at value.now reads) }
{
    let slot = slot_of(slots.as_slice(), line);
    if is_there(statements.as_slice(), slot, value, reads) {
        Ok(slot)
    } else {
        let slot = add_statement(statements, value, reads)?;
        set_slot(slots, line, slot)?;
        Ok(slot)
    }
}

fn slot_of(slots: &[u16], line: u16) -> u16 {
    match slots.get(line as usize) {
        Some(slot) => *slot,
        None => 0,
    }
}

fn set_slot(slots: &mut Vec<u16>, line: u16, slot: u16) -> Result<(), Memory> {
    let at = line as usize;
    if slots.len() <= at {
        slots.resize(at + 1, 0)?;
    }
    if at < slots.len() {
        slots[at] = slot;
    }
    Ok(())
}

fn is_there(statements: &[Statement], at: u16, value: &Expr, reads: usize) -> bool
    ensures { IsTrue result → IsStatement statements.now at value.now reads }
{
    match statements.get(at as usize) {
        Some(statement) => is_statement(statement, value, reads),
        None => false,
    }
}

fn is_statement(statement: &Statement, value: &Expr, reads: usize) -> bool
    ensures { IsTrue result → statement.now ≡ record { value = value.now; reads = reads } }
{
    statement.reads == reads && same_expr(&statement.value, value)
}

fn add_statement(statements: &mut Vec<Statement>, value: &Expr, reads: usize) -> Result<u16, Memory>
    ensures grew { OnOk result (GrewTo statements.old.items statements.new.items) }
    ensures found { IfOk result (λ at. IsStatement statements.new.items at value.now reads) }
{
    let at = statements.len();
    if 65535 < at {
        return Err(Memory);
    }
    let value = copy_expr(*statements.allocator(), value)?;
    statements.push(Statement { value, reads })?;
    Ok(at as u16)
}

// Whether two expressions are equal.
fn same_expr(a: &Expr, b: &Expr) -> bool
    ensures { IsTrue result → a.now ≡ b.now }
{
    match (a, b) {
        (Expr::Lit(v), Expr::Lit(w)) => *v == *w,
        (Expr::Read(f, x), Expr::Read(g, y)) => *f == *g && same_term(x, y),
        (Expr::Local(k), Expr::Local(l)) => *k == *l,
        (Expr::Op(p, u, v), Expr::Op(q, x, y)) => {
            *p == *q && same_expr(u.get(), x.get()) && same_expr(v.get(), y.get())
        }
        _ => false,
    }
}
