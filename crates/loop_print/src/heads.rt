// The lines of declarations, locals and properties.
ghost use Rattle.std.specs.Prelude.{◌≡◌, ◌++◌, [], codes, OnOk};
ghost use Rattle.loop_print.specs.PrintNames.{array_name};
ghost use Rattle.loop_print.specs.PrintTerms.{term_text};
ghost use Rattle.loop_print.specs.PrintHeads.{size_text, source_text, decl_text, prop_text, local_line, heads_text};
ghost use Rattle.loop_print.specs.PrintOrder.{line_of, lines_left};

use crate::names::{outside, put_array};
use crate::order::{Head, Heads};
use crate::terms::put_term;
use loop_core::decl::{Decl, DeclKind, Form, LocalDecl, PropKind, Size, Source};
use loop_core::nest::Term;
use wave_base::types::{ArrayId, Memory};

fn put_size(text: &mut Vec<u8>, size: Size) -> Result<(), Memory>
    ensures { OnOk result (text.new.items ≡ text.old.items ++ size_text size) }
{
    match size {
        Size::N => text.extend_from_slice(b"n")?,
        Size::NPlusOne => text.extend_from_slice(b"n+1")?,
        Size::Nnz => text.extend_from_slice(b"nnz")?,
    }
    Ok(())
}

fn put_source(text: &mut Vec<u8>, source: Source) -> Result<(), Memory>
    ensures { OnOk result (text.new.items ≡ text.old.items ++ source_text source) }
{
    match source {
        Source::File => text.extend_from_slice(b"file")?,
        Source::Zeros => text.extend_from_slice(b"zero")?,
    }
    Ok(())
}

fn put_matrix(text: &mut Vec<u8>, name: &[u8], form: &[u8]) -> Result<(), Memory>
    ensures { OnOk result (text.new.items ≡ text.old.items ++ codes "matrix " ++ name.now ++ form.now) }
{
    text.extend_from_slice(b"matrix ")?;
    text.extend_from_slice(name)?;
    text.extend_from_slice(form)?;
    Ok(())
}

fn put_index(text: &mut Vec<u8>, name: &[u8], size: Size) -> Result<(), Memory>
    ensures { OnOk result (text.new.items ≡ text.old.items ++ codes "index " ++ name.now ++ codes " " ++ size_text size ++ codes "\n") }
{
    text.extend_from_slice(b"index ")?;
    text.extend_from_slice(name)?;
    text.push(b' ')?;
    put_size(text, size)?;
    text.push(b'\n')?;
    Ok(())
}

fn put_vector(text: &mut Vec<u8>, name: &[u8], size: Size, source: Source) -> Result<(), Memory>
    ensures { OnOk result (text.new.items ≡ text.old.items ++ codes "vector " ++ name.now ++ codes " " ++ size_text size ++ codes " " ++ source_text source ++ codes "\n") }
{
    text.extend_from_slice(b"vector ")?;
    text.extend_from_slice(name)?;
    text.push(b' ')?;
    put_size(text, size)?;
    text.push(b' ')?;
    put_source(text, source)?;
    text.push(b'\n')?;
    Ok(())
}

fn put_decl(text: &mut Vec<u8>, decl: &Decl) -> Result<(), Memory>
    ensures { OnOk result (text.new.items ≡ text.old.items ++ decl_text decl.now.name decl.now.kind) }
{
    let name = decl.name.as_slice();
    match decl.kind {
        DeclKind::Matrix(Form::Csr) => put_matrix(text, name, b" csr\n"),
        DeclKind::Matrix(Form::Csc) => put_matrix(text, name, b" csc\n"),
        DeclKind::Index(size) => put_index(text, name, size),
        DeclKind::Vector(size, source) => put_vector(text, name, size, source),
    }
}

/// Puts words and the name of an array after them.
fn put_named(text: &mut Vec<u8>, decls: &[Decl], words: &[u8], array: ArrayId) -> Result<(), Memory>
    ensures { OnOk result (text.new.items ≡ text.old.items ++ words.now ++ array_name decls.now array) }
{
    text.extend_from_slice(words)?;
    put_array(text, decls, array)
}

fn put_bound(text: &mut Vec<u8>, decls: &[Decl], bound: &Term) -> Result<(), Memory>
    ensures { OnOk result (text.new.items ≡ text.old.items ++ codes " " ++ term_text decls.now [] bound.now) }
{
    let outside = outside();
    text.push(b' ')?;
    put_term(text, decls, &outside, bound)
}

fn put_one(text: &mut Vec<u8>, decls: &[Decl], words: &[u8], array: ArrayId) -> Result<(), Memory>
    ensures { OnOk result (text.new.items ≡ text.old.items ++ words.now ++ array_name decls.now array ++ codes "\n") }
{
    put_named(text, decls, words, array)?;
    text.push(b'\n')?;
    Ok(())
}

fn put_two(
    text: &mut Vec<u8>,
    decls: &[Decl],
    words: &[u8],
    first: ArrayId,
    between: &[u8],
    second: ArrayId,
) -> Result<(), Memory>
    ensures { OnOk result (text.new.items ≡ text.old.items ++ words.now ++ array_name decls.now first ++ between.now ++ array_name decls.now second ++ codes "\n") }
{
    put_named(text, decls, words, first)?;
    put_one(text, decls, between, second)
}

fn put_range(
    text: &mut Vec<u8>,
    decls: &[Decl],
    array: ArrayId,
    lo: &Term,
    hi: &Term,
) -> Result<(), Memory>
    ensures { OnOk result (text.new.items ≡ text.old.items ++ codes "range " ++ array_name decls.now array ++ codes " " ++ term_text decls.now [] lo.now ++ codes " " ++ term_text decls.now [] hi.now ++ codes "\n") }
{
    put_named(text, decls, b"range ", array)?;
    put_bound(text, decls, lo)?;
    put_bound(text, decls, hi)?;
    text.push(b'\n')?;
    Ok(())
}

fn put_prop(text: &mut Vec<u8>, decls: &[Decl], kind: &PropKind) -> Result<(), Memory>
    ensures { OnOk result (text.new.items ≡ text.old.items ++ prop_text decls.now kind.now) }
{
    match kind {
        PropKind::Range(array, lo, hi) => put_range(text, decls, *array, lo, hi),
        PropKind::Rising(array) => put_one(text, decls, b"rising ", *array),
        PropKind::Strict(array) => put_one(text, decls, b"strict ", *array),
        PropKind::Injective(array) => put_one(text, decls, b"injective ", *array),
        PropKind::Sorted(array, by) => put_two(text, decls, b"sorted ", *array, b" by ", *by),
        PropKind::Below(array, by) => put_two(text, decls, b"below ", *array, b" by ", *by),
        PropKind::Upto(array, by) => put_two(text, decls, b"upto ", *array, b" by ", *by),
        PropKind::Diagonal(array, of, by) => {
            put_named(text, decls, b"diagonal ", *array)?;
            put_two(text, decls, b" of ", *of, b" by ", *by)
        }
        PropKind::Before(first, second) => {
            put_two(text, decls, b"before ", *first, b" ", *second)
        }
    }
}

fn put_local(text: &mut Vec<u8>, local: &LocalDecl) -> Result<(), Memory>
    ensures { OnOk result (text.new.items ≡ text.old.items ++ (local_line local.now).text) }
{
    text.extend_from_slice(b"local ")?;
    text.extend_from_slice(local.name.as_slice())?;
    text.push(b'\n')?;
    Ok(())
}

fn put_head(text: &mut Vec<u8>, decls: &[Decl], head: Head<'_>) -> Result<(), Memory>
    ensures { OnOk result (text.new.items ≡ text.old.items ++ (line_of decls.now head.entry).text) }
{
    match head {
        Head::Declares(decl) => put_decl(text, decl),
        Head::Keeps(local) => put_local(text, local),
        Head::States(prop) => put_prop(text, decls, &prop.kind),
    }
}

/// Puts the declarations, the locals and the properties, in the order of their lines.
pub fn put_heads(text: &mut Vec<u8>, decls: &[Decl], heads: Heads<'_>) -> Result<(), Memory>
    ensures { OnOk result (text.new.items ≡ text.old.items ++ heads_text (lines_left decls.now heads.entry)) }
{
    let mut rest = heads;
    while let Some((head, after)) = rest.next() {
        put_head(text, decls, head)?;
        rest = after;
    }
    Ok(())
}
