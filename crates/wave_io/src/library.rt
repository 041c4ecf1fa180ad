// Named files.
ghost use Rattle.std.specs.Prelude.{◌≡◌, ◌<◌, ◌≤◌, ℕ, List, Option, length, IfOk, IfSome, OnErr};
ghost use Rattle.wave_io.specs.Faults.{Rose};
ghost use Rattle.wave_io.specs.Files.{StandsAt, EndsExactly};

use crate::failed::Failed;

/// Files that are read by name.
pub trait Library {
    /// The bytes of the file of that name, where the library tells them.
    ghost held: { Self → List ℕ → Option (List ℕ) };

    /// How many faults were met at that name. It never falls.
    ghost faults: { Self → List ℕ → ℕ };

    /// Reads bytes of the file `name` from the place `at` on into the front of `into`, and answers
    /// how many. It answers 0 exactly at the end of the file. A name without a file is a fault.
    /// After a failure `into` may hold any bytes.
    fn fetch(&mut self, name: &str, at: u64, into: &mut [u8]) -> Result<usize, Failed>
        requires { 0 < length into.old }
        ensures count { IfOk result (λ k. k ≤ length into.new) }
        ensures bytes { IfOk result (λ k.
            IfSome (held self.old name.now) (λ all. StandsAt all at into.new k)) }
        ensures end { IfOk result (λ k.
            IfSome (held self.old name.now) (λ all. EndsExactly all at k)) }
        ensures failed { OnErr result (Rose (faults self.old name.now) (faults self.new name.now)) }
        ensures never_fall { (other : List ℕ) → faults self.old other ≤ faults self.new other }
        ensures stays { (other : List ℕ) → held self.new other ≡ held self.old other };
}
