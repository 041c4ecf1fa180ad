// The printed text of the arrays that a nest writes.
ghost use Rattle.std.specs.Prelude.{◌≡◌, ◌≤◌, ◌+◌, ◌++◌, List, length, codes, decimal, IfOk, OnOk, IsTrue};
ghost use Rattle.std.specs.List.{flat_map, list_all};
ghost use Rattle.std.specs.Fmt.{signed_decimal};
ghost use Rattle.std.specs.String.{string_bytes};
ghost use Rattle.loop_core.specs.Names.{is_name_byte};
ghost use Rattle.loop_core.specs.Sizes.{sizes, sizes_of};
ghost use Rattle.wave_report.specs.Line.{line};
ghost use Rattle.wave_report.specs.ArrayText.{array_text, arrays_text, data_of, written_text, AreNamed, IsPlain};

use itoa::Buffer;
use loop_core::decl::{Decl, DeclKind};
use loop_core::nest::Nest;
use loop_core::values::Values;
use std::alloc::Global;
use wave_base::types::{ArrayId, Memory};

/// The text of the arrays that the nest writes, in order of number: a line `array NAME LENGTH`, and
/// then one value a line. The names consist of letters, digits and `_`, as those of a nest do. It fails
/// out of memory alone. One text, linear in its length.
pub fn arrays(alloc: Global, nest: &Nest, values: &Values) -> Result<String, Memory>
    requires few { length (sizes nest.now.decls) ≤ 64 }
    requires names { AreNamed nest.now.decls }
    ensures { IfOk result (λ text. string_bytes text ≡ arrays_text nest.now values.now) }
{
    let mut text = String::new(alloc);
    let mut first = 0u8;
    for decl in nest.decls.as_slice() {
        put_declared(&mut text, nest, values, decl, first)?;
        first += array_count(decl.kind);
    }
    Ok(text)
}

// Puts the data arrays of one declaration whose first array has the number `first`.
fn put_declared(
    text: &mut String,
    nest: &Nest,
    values: &Values,
    decl: &Decl,
    first: u8,
) -> Result<(), Memory>
    requires few { first + length (sizes_of decl.now.kind) ≤ 64 }
    requires name { IsPlain decl.now.name }
    ensures { OnOk result (string_bytes text.new
        ≡ string_bytes text.old ++ flat_map (written_text nest.now values.now) (data_of first decl.now.name decl.now.kind)) }
{
    let name = name_text(decl.name.as_slice());
    match decl.kind {
        DeclKind::Matrix(_) => put_array(text, nest, values, ArrayId(first + 3), name, ".val"),
        DeclKind::Index(_) => Ok(()),
        DeclKind::Vector(_, _) => put_array(text, nest, values, ArrayId(first), name, ""),
    }
}

#[tactic(auto, using(crate::proofs::Plain::plain_utf8))]
fn name_text(name: &[u8]) -> &str
    requires { IsPlain name.now }
    ensures { result.now ≡ name.now }
{
    match str::from_utf8(name) {
        Ok(text) => text,
        Err(_) => unreachable!(),
    }
}

fn array_count(kind: DeclKind) -> u8
    ensures { result ≡ length (sizes_of kind) }
{
    match kind {
        DeclKind::Matrix(_) => 4,
        DeclKind::Index(_) => 1,
        DeclKind::Vector(_, _) => 1,
    }
}

// Puts one array, if the nest writes it.
fn put_array(
    text: &mut String,
    nest: &Nest,
    values: &Values,
    array: ArrayId,
    name: &str,
    suffix: &str,
) -> Result<(), Memory>
    ensures { OnOk result (string_bytes text.new
        ≡ string_bytes text.old ++ written_text nest.now values.now (record { array = array; name = name.now ++ suffix.now })) }
{
    if !nest.writes(array) {
        return Ok(());
    }
    let list = values.words(array);
    put_head(text, name, suffix, list.len())?;
    put_values(text, list)
}

fn put_head(text: &mut String, name: &str, suffix: &str, len: usize) -> Result<(), Memory>
    ensures { OnOk result (string_bytes text.new
        ≡ string_bytes text.old ++ line (codes "array " ++ (name.now ++ suffix.now) ++ codes " " ++ decimal len)) }
{
    let mut buffer = Buffer::new();
    text.push_str("array ")?;
    text.push_str(name)?;
    text.push_str(suffix)?;
    text.push_str(" ")?;
    text.push_str(buffer.format(len))?;
    text.push_str("\n")?;
    Ok(())
}

fn put_values(text: &mut String, values: &[i64]) -> Result<(), Memory>
    ensures { OnOk result (string_bytes text.new
        ≡ string_bytes text.old ++ flat_map (λ value. line (signed_decimal value)) values.now) }
{
    for value in values {
        put_value(text, *value)?;
    }
    Ok(())
}

fn put_value(text: &mut String, value: i64) -> Result<(), Memory>
    ensures { OnOk result (string_bytes text.new ≡ string_bytes text.old ++ line (signed_decimal value)) }
{
    let mut buffer = Buffer::new();
    text.push_str(buffer.format(value))?;
    text.push_str("\n")?;
    Ok(())
}
