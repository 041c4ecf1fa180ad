// The fault line on standard error.
ghost use Rattle.std.specs.Prelude.{◌≡◌, ◌≤◌};
ghost use Rattle.wave_main.specs.Answers.{SaysWhy};

use crate::fault::fault_line;
use crate::status::Status;
use wave_io::put_all::put_all;
use wave_io::sink::Sink;

/// Says in one line why a call ended, and nothing after `Done`. It puts the line in one piece, where
/// the stream takes it so, and takes no memory. That the stream fails changes nothing.
pub fn report<E: Sink>(err: &mut E, status: Status)
    ensures says { SaysWhy status (E.written err.old) (E.written err.new) (E.faults err.old) (E.faults err.new) }
    ensures silent { status ≡ Status.Done → E.written err.new ≡ E.written err.old }
    ensures never_falls { E.faults err.old ≤ E.faults err.new }
{
    if status == Status::Done {
        return;
    }
    let _ = put_all(err, fault_line(status).as_str().as_bytes());
}
