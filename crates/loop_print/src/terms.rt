// The text of index terms.
ghost use Rattle.std.specs.Prelude.{◌≡◌, ◌++◌, OnOk};
ghost use Rattle.std.specs.Fmt.{signed_decimal};
ghost use Rattle.loop_print.specs.PrintBlocks.{open_blocks};
ghost use Rattle.loop_print.specs.PrintTerms.{number_text, offset_text, entry_text, term_text, atom_text};

use crate::names::{Blocks, put_array, put_variable};
use itoa::Buffer;
use loop_core::decl::Decl;
use loop_core::nest::{Atom, Term};
use wave_base::types::{ArrayId, Memory};

/// Puts a number, in digits after a minus sign where it is negative.
pub fn put_signed(text: &mut Vec<u8>, number: i64) -> Result<(), Memory>
    ensures { OnOk result (text.new.items ≡ text.old.items ++ signed_decimal number) }
{
    let mut buffer = Buffer::new();
    text.extend_from_slice(buffer.format(number).as_bytes())?;
    Ok(())
}

fn put_number(text: &mut Vec<u8>, number: i64) -> Result<(), Memory>
    ensures { OnOk result (text.new.items ≡ text.old.items ++ number_text number) }
{
    if number < 0 {
        text.push(b'0')?;
    }
    put_signed(text, number)
}

fn put_offset(text: &mut Vec<u8>, plus: i64) -> Result<(), Memory>
    ensures { OnOk result (text.new.items ≡ text.old.items ++ offset_text plus) }
{
    if plus == 0 {
        return Ok(());
    }
    if plus > 0 {
        text.push(b'+')?;
    }
    put_signed(text, plus)
}

/// Puts a term.
#[cycle(term)]
pub fn put_term(
    text: &mut Vec<u8>,
    decls: &[Decl],
    blocks: &Blocks<'_>,
    term: &Term,
) -> Result<(), Memory>
    ensures { OnOk result (text.new.items ≡ text.old.items ++ term_text decls.now (open_blocks blocks.now) term.now) }
{
    put_atom(text, decls, blocks, &term.atom, term.plus)
}

#[cycle(term)]
fn put_atom(
    text: &mut Vec<u8>,
    decls: &[Decl],
    blocks: &Blocks<'_>,
    atom: &Atom,
    plus: i64,
) -> Result<(), Memory>
    ensures { OnOk result (text.new.items ≡ text.old.items ++ atom_text decls.now (open_blocks blocks.now) atom.now plus) }
{
    match atom {
        Atom::Zero => return put_number(text, plus),
        Atom::N => text.extend_from_slice(b"n")?,
        Atom::Nnz => text.extend_from_slice(b"nnz")?,
        Atom::Var(var) => put_variable(text, blocks, var.line)?,
        Atom::At(array, inner) => put_entry(text, decls, blocks, *array, inner.get())?,
    }
    put_offset(text, plus)
}

/// Puts `ARR[TERM]`.
#[cycle(term)]
pub fn put_entry(
    text: &mut Vec<u8>,
    decls: &[Decl],
    blocks: &Blocks<'_>,
    array: ArrayId,
    at: &Term,
) -> Result<(), Memory>
    ensures { OnOk result (text.new.items ≡ text.old.items ++ entry_text decls.now array (term_text decls.now (open_blocks blocks.now) at.now)) }
{
    put_array(text, decls, array)?;
    text.push(b'[')?;
    put_term(text, decls, blocks, at)?;
    text.push(b']')?;
    Ok(())
}
