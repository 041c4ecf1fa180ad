// A stream to write to.
ghost use Rattle.std.specs.Prelude.{◌≡◌, ◌<◌, ◌≤◌, ℕ, List, Option, Ok, length, take, IfOk, OnErr};
ghost use Rattle.wave_io.specs.Faults.{Rose};
ghost use Rattle.wave_io.specs.Written.{grown};

use crate::failed::Failed;

/// Takes bytes, one piece after another.
pub trait Sink {
    /// All bytes that were taken so far, where the sink tells them.
    ghost written: { Self → Option (List ℕ) };

    /// How many faults were met. It never falls.
    ghost faults: { Self → ℕ };

    /// Takes the first bytes of a piece, at least one of a nonempty piece, and answers how many.
    fn put(&mut self, bytes: &[u8]) -> Result<usize, Failed>
        ensures count { IfOk result (λ k. k ≤ length bytes.now) }
        ensures some { 0 < length bytes.now → IfOk result (λ k. 0 < k) }
        ensures none { length bytes.now ≡ 0 → result ≡ Ok 0 }
        ensures takes { IfOk result (λ k. written self.new ≡ grown (written self.old) (take k bytes.now)) }
        ensures keeps { OnErr result (written self.new ≡ written self.old) }
        ensures failed { OnErr result (Rose (faults self.old) (faults self.new)) }
        ensures never_falls { faults self.old ≤ faults self.new };
}
