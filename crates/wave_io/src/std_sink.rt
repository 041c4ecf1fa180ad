// Standard output and standard error.
ghost use Rattle.std.specs.Prelude.{◌≡◌, None};

use crate::failed::Failed;
use crate::sink::Sink;
use std::io::Write;
use std::marker::Model;

/// A sink over a stream of the process. In `main(rt: HostRuntime)`:
///
/// ```text
/// let mut out = StdSink::new(rt.stdout());
/// let mut err = StdSink::new(rt.stderr());
/// ```
///
/// It doesn't tell what it has taken.
#[derive(Drop)]
pub struct StdSink<W> {
    stream: W,
    faults: u64,
}

// It is seen as its count of faults.
impl<W> Model for StdSink<W> {
    ghost use Rattle.std.specs.Prelude.{ℕ};

    ghost Value = { ℕ };

    ghost view = { λ s. s.faults };
}

impl<W: Write> StdSink<W> {
    /// A sink that has met no fault.
    pub fn new(stream: W) -> StdSink<W>
        ensures { result ≡ 0 }
    {
        StdSink { stream, faults: 0 }
    }

    /// How many puts have failed.
    pub fn faults_seen(&self) -> u64
        ensures { result ≡ self.now }
    {
        self.faults
    }
}

impl<W: Write> Sink for StdSink<W> {
    ghost written = { λ _. None };

    ghost faults = { λ faults. faults };

    // A write that takes nothing of a nonempty piece is a fault too.
    fn put(&mut self, bytes: &[u8]) -> Result<usize, Failed> {
        if bytes.is_empty() {
            return Ok(0);
        }
        match self.stream.write(bytes) {
            Ok(count) if count > 0 => Ok(count),
            _ => {
                self.faults = self.faults.saturating_add(1);
                Err(Failed)
            }
        }
    }
}
