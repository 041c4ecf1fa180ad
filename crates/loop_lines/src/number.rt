// Numbers of the text.
ghost use Rattle.std.specs.Prelude.{◌≡◌, ◌<◌, ◌^◌, pos, neg_ℤ, MatchOption, ◌≤◌};

use std::marker::Model;

/// A number of at most 9223372036854775807, which contracts see as a natural number.
#[derive(Debug, Drop)]
pub struct Natural {
    value: u64,
}

impl Model for Natural {
    ghost use Rattle.std.specs.Prelude.{ℕ, ◌<◌, ◌^◌};

    ghost Value = { ℕ };

    ghost view = { λ n. n.value };

    ghost invariant = { λ n. n.value < 2 ^ 63 };
}

impl Natural {
    /// The number, and `None` exactly where it is greater.
    pub fn of(value: u64) -> Option<Natural>
        ensures { MatchOption result (2 ^ 63 ≤ value) (λ n. (n ≡ value) × (value < 2 ^ 63)) }
    {
        if value < 1 << 63 {
            Some(Natural { value })
        } else {
            None
        }
    }

    /// The number itself.
    pub fn word(&self) -> i64
        ensures { result ≡ pos self.now }
    {
        self.value as i64
    }

    /// The number taken from 0.
    pub fn negated(&self) -> i64
        ensures { result ≡ neg_ℤ (pos self.now) }
    {
        -(self.value as i64)
    }
}
