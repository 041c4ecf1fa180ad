// Places of arrays.
use wave_base::types::ArrayId;

/// A place of an array, inside its list or not.
#[derive(Clone, Copy, Debug, PartialEq, Eq)]
pub struct Place {
    pub array: ArrayId,
    pub at: i128,
}
