// A whole text into a sink.
ghost use Rattle.std.specs.Prelude.{◌≡◌, ◌≤◌, OnOk, OnErr};
ghost use Rattle.wave_io.specs.Faults.{Rose};
ghost use Rattle.wave_io.specs.Written.{grown, TookPart};

use crate::failed::Failed;
use crate::sink::Sink;

/// Puts all the bytes, piece after piece. A failure ends it: the sink then has a first part of them.
pub fn put_all<S: Sink>(sink: &mut S, bytes: &[u8]) -> Result<(), Failed>
    ensures whole { OnOk result (S.written sink.new ≡ grown (S.written sink.old) bytes.now) }
    ensures part { OnErr result (TookPart (S.written sink.old) (S.written sink.new) bytes.now) }
    ensures failed { OnErr result (Rose (S.faults sink.old) (S.faults sink.new)) }
    ensures never_falls { S.faults sink.old ≤ S.faults sink.new }
{
    let mut rest = bytes;
    while !rest.is_empty() {
        let count = sink.put(rest)?;
        rest = &rest[count..];
    }
    Ok(())
}
