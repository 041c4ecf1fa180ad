// Values as words.
ghost use Rattle.std.specs.Prelude.{◌≡◌, ◌++◌, OnOk, map};
ghost use Rattle.std.specs.Int.{w64, cast_unsigned};

use wave_base::types::Memory;

/// The words of these values, at the end of others.
pub fn push_words(onto: &mut Vec<u64>, values: &[i64]) -> Result<(), Memory>
    ensures { OnOk result (onto.new.items ≡ onto.old.items ++ map (λ z. cast_unsigned w64 z) values.now) }
{
    for value in values {
        onto.push(value.cast_unsigned())?;
    }
    Ok(())
}
