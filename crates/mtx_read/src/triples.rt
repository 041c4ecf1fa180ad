// What a matrix file holds.
ghost use Rattle.std.specs.Prelude.{◌≡◌};

use std::marker::Model;

/// Triples of row, column and value in the file's order, which contracts see as a list.
#[derive(Debug, Drop)]
pub struct Entries {
    items: Vec<(u32, u32, i64)>,
}

impl Model for Entries {
    ghost use Rattle.std.specs.Prelude.{List, ℕ, ℤ};

    ghost Value = { List (ℕ × ℕ × ℤ) };

    ghost view = { λ e. e.items.items };
}

impl Entries {
    /// These triples, in this order. It takes no memory.
    pub fn from_vec(items: Vec<(u32, u32, i64)>) -> Entries
        ensures { result ≡ items.items }
    {
        Entries { items }
    }

    /// The triples as a slice.
    pub fn as_slice(&self) -> &[(u32, u32, i64)]
        ensures { result.now ≡ self.now }
    {
        self.items.as_slice()
    }

    /// The triples as a vector. It takes no memory.
    pub fn into_vec(self) -> Vec<(u32, u32, i64)>
        ensures { result.items ≡ self }
    {
        self.items
    }
}

/// The numbers of rows and columns, and the triples. Rows and columns count from 0, and a mirrored
/// triple stands after its own.
#[derive(Debug, Drop)]
pub struct Triples {
    pub rows: u32,
    pub columns: u32,
    pub entries: Entries,
}
