// The text of a matrix: its head, and an entry.
ghost use Rattle.std.specs.Prelude.{◌≡◌, ◌++◌, decimal, OnOk};
ghost use Rattle.std.specs.Fmt.{signed_decimal};
ghost use Rattle.wave_gen.specs.Texts.{banner, size_text, entry_text};

use itoa::Buffer;
use wave_base::types::Memory;

fn put_number(text: &mut Vec<u8>, number: u64) -> Result<(), Memory>
    ensures { OnOk result (text.new.items ≡ text.old.items ++ decimal number) }
{
    let mut buffer = Buffer::new();
    text.extend_from_slice(buffer.format(number).as_bytes())?;
    Ok(())
}

fn put_signed(text: &mut Vec<u8>, number: i64) -> Result<(), Memory>
    ensures { OnOk result (text.new.items ≡ text.old.items ++ signed_decimal number) }
{
    let mut buffer = Buffer::new();
    text.extend_from_slice(buffer.format(number).as_bytes())?;
    Ok(())
}

/// Puts the first line, and the size line of a square matrix.
pub fn put_head(text: &mut Vec<u8>, rows: u64, stored: u64) -> Result<(), Memory>
    ensures { OnOk result (text.new.items ≡ text.old.items ++ banner ++ size_text rows stored) }
{
    put_banner(text)?;
    put_size(text, rows, stored)
}

#[tactic(auto, unfolding(crate::specs::Texts::banner))]
fn put_banner(text: &mut Vec<u8>) -> Result<(), Memory>
    ensures { OnOk result (text.new.items ≡ text.old.items ++ banner) }
{
    text.extend_from_slice(b"%%MatrixMarket matrix coordinate integer general\n")?;
    Ok(())
}

fn put_size(text: &mut Vec<u8>, rows: u64, stored: u64) -> Result<(), Memory>
    ensures { OnOk result (text.new.items ≡ text.old.items ++ size_text rows stored) }
{
    put_number(text, rows)?;
    text.push(b' ')?;
    put_number(text, rows)?;
    text.push(b' ')?;
    put_number(text, stored)?;
    text.push(b'\n')?;
    Ok(())
}

/// Puts the line of an entry, whose row and column count from 0 here and from 1 in the text.
pub fn put_entry(text: &mut Vec<u8>, row: u32, column: u32, value: i64) -> Result<(), Memory>
    ensures { OnOk result (text.new.items ≡ text.old.items ++ entry_text (row, column, value)) }
{
    put_number(text, u64::from(row) + 1)?;
    text.push(b' ')?;
    put_number(text, u64::from(column) + 1)?;
    text.push(b' ')?;
    put_signed(text, value)?;
    text.push(b'\n')?;
    Ok(())
}
