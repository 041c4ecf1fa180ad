// The first line.
ghost use Rattle.std.specs.Prelude.{◌≡◌, None};
ghost use Rattle.std.specs.Option.{option_map};
ghost use Rattle.text_base.specs.Lines.{trimmed};
ghost use Rattle.text_base.specs.Words.{words};
ghost use Rattle.mtx_read.specs.Header.{is_word, banner, field_of, symmetry_of, format_of, matrix_header, array_of, vector_header};

use crate::refusal::MtxRefusal;
use text_base::lines::trim_line;
use text_base::words::next_word;

/// What stands at a stored place.
#[derive(Clone, Copy, Debug, PartialEq, Eq)]
pub enum Field {
    Integer,
    Pattern,
}

/// Whether entries have mirrors.
#[derive(Clone, Copy, Debug, PartialEq, Eq)]
pub enum Symmetry {
    General,
    Symmetric,
    Skew,
}

/// What the first line of a matrix file says.
#[derive(Clone, Copy, Debug, PartialEq, Eq)]
pub struct Format {
    pub field: Field,
    pub symmetry: Symmetry,
}

fn is_word(word: &[u8], text: &[u8]) -> bool
    ensures { result ≡ is_word word.now text.now }
{
    word.eq_ignore_ascii_case(text)
}

/// The last three words of a first line that has five, of which the first two are the mark and the
/// object.
fn banner(line: &[u8]) -> Option<(&[u8], &[u8], &[u8])>
    ensures { option_map (λ k. (k.0.now, k.1.now, k.2.now)) result ≡ banner (words (trimmed line.now)) }
{
    let Some((mark, rest)) = next_word(trim_line(line)) else {
        return None;
    };
    let Some((object, rest)) = next_word(rest) else {
        return None;
    };
    let Some((form, rest)) = next_word(rest) else {
        return None;
    };
    let Some((field, rest)) = next_word(rest) else {
        return None;
    };
    let Some((symmetry, rest)) = next_word(rest) else {
        return None;
    };
    if next_word(rest).is_some() {
        return None;
    }
    if is_word(mark, b"%%MatrixMarket") && is_word(object, b"matrix") {
        Some((form, field, symmetry))
    } else {
        None
    }
}

fn field_of(word: &[u8]) -> Option<Field>
    ensures { result ≡ field_of word.now }
{
    if is_word(word, b"integer") {
        Some(Field::Integer)
    } else if is_word(word, b"pattern") {
        Some(Field::Pattern)
    } else {
        None
    }
}

fn symmetry_of(field: Field, word: &[u8]) -> Option<Symmetry>
    ensures { result ≡ symmetry_of field word.now }
{
    if is_word(word, b"general") {
        Some(Symmetry::General)
    } else if is_word(word, b"symmetric") {
        Some(Symmetry::Symmetric)
    } else if is_word(word, b"skew-symmetric") {
        match field {
            Field::Integer => Some(Symmetry::Skew),
            Field::Pattern => None,
        }
    } else {
        None
    }
}

fn format_of(form: &[u8], field: &[u8], symmetry: &[u8]) -> Result<Format, MtxRefusal>
    ensures { result ≡ format_of form.now field.now symmetry.now }
{
    if !is_word(form, b"coordinate") {
        return Err(MtxRefusal::Field { word: 3 });
    }
    let Some(field) = field_of(field) else {
        return Err(MtxRefusal::Field { word: 4 });
    };
    let Some(symmetry) = symmetry_of(field, symmetry) else {
        return Err(MtxRefusal::Field { word: 5 });
    };
    Ok(Format { field, symmetry })
}

fn array_of(form: &[u8], field: &[u8], symmetry: &[u8]) -> Result<(), MtxRefusal>
    ensures { result ≡ array_of form.now field.now symmetry.now }
{
    if !is_word(form, b"array") {
        return Err(MtxRefusal::Field { word: 3 });
    }
    if !is_word(field, b"integer") {
        return Err(MtxRefusal::Field { word: 4 });
    }
    if !is_word(symmetry, b"general") {
        return Err(MtxRefusal::Field { word: 5 });
    }
    Ok(())
}

/// The field and the symmetry that the first line of a matrix file names.
pub fn matrix_header(line: &[u8]) -> Result<Format, MtxRefusal>
    ensures { result ≡ matrix_header (words (trimmed line.now)) }
{
    match banner(line) {
        Some((form, field, symmetry)) => format_of(form, field, symmetry),
        None => Err(MtxRefusal::Header),
    }
}

/// Whether the first line is that of a vector file.
pub fn vector_header(line: &[u8]) -> Result<(), MtxRefusal>
    ensures { result ≡ vector_header (words (trimmed line.now)) }
{
    match banner(line) {
        Some((form, field, symmetry)) => array_of(form, field, symmetry),
        None => Err(MtxRefusal::Header),
    }
}
