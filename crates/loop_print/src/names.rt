// The names of arrays, locals and variables in a text.
ghost use Rattle.std.specs.Prelude.{◌≡◌, ◌++◌, OnOk, slice_index_or, [], ◌∷◌};
ghost use Rattle.loop_core.specs.declared.decl.DeclKind.TheVariants.{Matrix};
ghost use Rattle.loop_print.specs.PrintNames.{Repeated, names_of, array_name, local_name, variable_name};
ghost use Rattle.loop_print.specs.PrintBlocks.{open_blocks};

use loop_core::decl::{Decl, DeclKind, Form, LocalDecl};
use loop_core::name::Name;
use wave_base::types::{ArrayId, Memory};

/// The open blocks round a line, the innermost first: a loop with its line and its variable's
/// name, or a guard.
#[derive(Clone, Copy)]
pub enum Blocks<'a> {
    Outside,
    Loop(u16, &'a Name, &'a Blocks<'a>),
    Guard(&'a Blocks<'a>),
}

/// No open block.
pub fn outside() -> Blocks<'static>
    ensures { open_blocks result ≡ [] }
{
    Blocks::Outside
}

/// The block of the outer loop.
pub fn outer_loop<'a>(line: u16, name: &'a Name, outside: &'a Blocks<'a>) -> Blocks<'a>
    requires { open_blocks outside.now ≡ [] }
    ensures { open_blocks result ≡ Repeated line name.now ∷ [] }
{
    Blocks::Loop(line, name, &*outside)
}

fn put_part(text: &mut Vec<u8>, name: &[u8], part: &[u8]) -> Result<(), Memory>
    ensures { OnOk result (text.new.items ≡ text.old.items ++ name.now ++ part.now) }
{
    text.extend_from_slice(name)?;
    text.extend_from_slice(part)?;
    Ok(())
}

fn put_inner(text: &mut Vec<u8>, name: &[u8], form: Form) -> Result<(), Memory>
    ensures { OnOk result (text.new.items ≡ text.old.items ++ slice_index_or (names_of name.now (Matrix form)) 1 []) }
{
    match form {
        Form::Csr => put_part(text, name, b".col"),
        Form::Csc => put_part(text, name, b".row"),
    }
}

/// Puts the name of an array, and nothing where no declaration has its number.
pub fn put_array(text: &mut Vec<u8>, decls: &[Decl], array: ArrayId) -> Result<(), Memory>
    ensures { OnOk result (text.new.items ≡ text.old.items ++ array_name decls.now array) }
{
    let mut left = array.0;
    for decl in decls {
        let name = decl.name.as_slice();
        match decl.kind {
            DeclKind::Matrix(form) => match left {
                0 => return put_part(text, name, b".ptr"),
                1 => return put_inner(text, name, form),
                2 => return put_part(text, name, b".diag"),
                3 => return put_part(text, name, b".val"),
                _ => left -= 4,
            },
            DeclKind::Index(_) | DeclKind::Vector(_, _) => {
                if left == 0 {
                    return put_part(text, name, b"");
                }
                left -= 1;
            }
        }
    }
    Ok(())
}

/// Puts the name of a local, and nothing where no declaration has its number.
pub fn put_local(text: &mut Vec<u8>, locals: &[LocalDecl], local: u8) -> Result<(), Memory>
    ensures { OnOk result (text.new.items ≡ text.old.items ++ local_name locals.now local) }
{
    match locals.get(local as usize) {
        Some(declared) => put_part(text, declared.name.as_slice(), b""),
        None => Ok(()),
    }
}

/// Puts the name of the variable of the innermost loop at a line, and nothing where there is none.
pub fn put_variable(text: &mut Vec<u8>, blocks: &Blocks<'_>, at: u16) -> Result<(), Memory>
    ensures { OnOk result (text.new.items ≡ text.old.items ++ variable_name (open_blocks blocks.now) at) }
{
    match blocks {
        Blocks::Outside => Ok(()),
        Blocks::Loop(line, name, outer) => {
            if *line == at {
                put_part(text, name.as_slice(), b"")
            } else {
                put_variable(text, outer, at)
            }
        }
        Blocks::Guard(outer) => put_variable(text, outer, at),
    }
}
