// Stamps: a number for each row, written at many rows at once.
ghost use Rattle.std.specs.Prelude.{◌≡◌, ◌<◌, All, length, vec_len};
ghost use Rattle.wave_base.specs.declared.types.RowId.{RowId};
ghost use Rattle.wait_sparsify.specs.Survivors.{is_stamped};
ghost use Rattle.wait_sparsify.specs.Written.{written};

use wave_base::types::RowId;

/// Writes a number at each of some rows.
pub fn stamp(numbers: &mut Vec<u32>, value: u32, rows: &[RowId])
    requires { All (λ (r : RowId). r.0 < vec_len numbers.old) rows.now }
    ensures stamped { numbers.new.items ≡ written value rows.now numbers.old.items }
    ensures len { vec_len numbers.new ≡ vec_len numbers.old }
{
    for row in rows {
        numbers[row.0 as usize] = value;
    }
}

/// Whether a number stands at one of some rows.
pub fn is_stamped(numbers: &[u32], value: u32, rows: &[RowId]) -> bool
    requires { All (λ (r : RowId). r.0 < length numbers.now) rows.now }
    ensures { result ≡ is_stamped numbers.now value rows.now }
{
    for row in rows {
        if numbers[row.0 as usize] == value {
            return true;
        }
    }
    false
}
