// The two places of a failure.
ghost use Rattle.std.specs.Prelude.{◌≡◌, ◌+◌, ◌<◌, ◌^◌};

/// The two places that show that a property fails.
#[derive(Clone, Copy, Drop)]
pub struct Places {
    pub first: u64,
    pub second: u64,
}

impl Places {
    /// One place, twice.
    pub fn one(place: u64) -> Places
        ensures { result ≡ record { first = place; second = place } }
    {
        Places {
            first: place,
            second: place,
        }
    }

    /// A place and the next one.
    pub fn neighbours(place: u64) -> Places
        requires { place + 1 < 2 ^ 64 }
        ensures { result ≡ record { first = place; second = place + 1 } }
    {
        Places {
            first: place,
            second: place + 1,
        }
    }
}
