// Atoms, constraints and instances as text. A variable is named by the line of its loop, with `'` on
// the first side of a relation and `"` on the second; an array by its number.
use index_props::rule::RuleInst;
use loop_core::nest::{Atom, Side, Term, VarId};
use std::alloc::{AllocError, Global};
use uf_constraints::system::Diff;

/// The text of an atom.
pub fn atom_text(alloc: Global, atom: &Atom) -> Result<String, AllocError> {
    let mut text = String::new(alloc);
    push_atom(alloc, &mut text, atom)?;
    Ok(text)
}

/// The text of a constraint.
pub fn diff_text(alloc: Global, diff: &Diff) -> Result<String, AllocError> {
    let mut text = String::new(alloc);
    push_diff(alloc, &mut text, diff)?;
    Ok(text)
}

/// The text of an instance: `if` premises `then` results.
pub fn rule_text(alloc: Global, rule: &RuleInst) -> Result<String, AllocError> {
    let mut text = String::new(alloc);
    text.push_str("if")?;
    push_diffs(alloc, &mut text, rule.premises.as_slice())?;
    text.push_str(" then")?;
    push_diffs(alloc, &mut text, rule.results.as_slice())?;
    Ok(text)
}

fn push_diffs(alloc: Global, text: &mut String, diffs: &[Diff]) -> Result<(), AllocError> {
    for diff in diffs {
        text.push_str(" ")?;
        push_diff(alloc, text, diff)?;
    }
    Ok(())
}

fn push_diff(alloc: Global, text: &mut String, diff: &Diff) -> Result<(), AllocError> {
    push_atom(alloc, text, &diff.a)?;
    text.push_str("-")?;
    push_atom(alloc, text, &diff.b)?;
    text.push_str(format!(in alloc; "<={}", diff.c)?.as_str())
}

fn push_variable(alloc: Global, text: &mut String, var: VarId) -> Result<(), AllocError> {
    let side = match var.side {
        Side::Own => "",
        Side::First => "'",
        Side::Second => "\"",
    };
    text.push_str(format!(in alloc; "v{}{}", var.line, side)?.as_str())
}

#[cycle(push)]
fn push_atom(alloc: Global, text: &mut String, atom: &Atom) -> Result<(), AllocError> {
    match atom {
        Atom::Zero => text.push_str("0"),
        Atom::N => text.push_str("n"),
        Atom::Nnz => text.push_str("nnz"),
        Atom::Var(var) => push_variable(alloc, text, *var),
        Atom::At(array, index) => {
            text.push_str(format!(in alloc; "f{}[", array.0)?.as_str())?;
            push_term(alloc, text, index.get())?;
            text.push_str("]")
        }
    }
}

#[cycle(push)]
fn push_term(alloc: Global, text: &mut String, term: &Term) -> Result<(), AllocError> {
    push_atom(alloc, text, &term.atom)?;
    if term.plus == 0 {
        return Ok(());
    }
    text.push_str(format!(in alloc; "+{}", term.plus)?.as_str())
}
