// Bounds between places.
ghost use Rattle.std.specs.Prelude.{◌≡◌, ◌≤ℤ◌, true, false};
ghost use Rattle.std.specs.Int.Signed.{◌<ℤ◌};

/// A bound between two places.
#[derive(Clone, Copy, Debug)]
pub struct Between {
    pub x: usize,
    pub y: usize,
    pub bound: i64,
}

impl Between {
    /// Whether the bound is above a right side.
    pub fn is_above(&self, c: i64) -> bool
        ensures yes { result ≡ true → c <ℤ self.now.bound }
        ensures no { result ≡ false → self.now.bound ≤ℤ c }
    {
        self.bound > c
    }
}
