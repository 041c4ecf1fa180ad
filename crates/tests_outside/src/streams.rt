// Texts into sinks, in memory and over streams.
use std::io::Write;
use std::test::Fail;
use std::{fs, io};
use wave_io::failed::Failed;
use wave_io::mem_sink::MemSink;
use wave_io::put_all::put_all;
use wave_io::sink::Sink;
use wave_io::std_sink::StdSink;

#[test]
fn a_small_sink_keeps_a_first_part(rt: HostRuntime) -> Result<(), Fail> {
    let mut sink = MemSink::new(rt.alloc(), 7, 1, vec![in rt.alloc()]?)?;
    let put = put_all(&mut sink, b"relations 12");
    assert!(rt; put == Err(Failed) && sink.faults() == 1);
    assert_eq!(rt; sink.bytes(), b"relatio".as_slice());
    Ok(())
}

#[test]
fn the_second_put_fails(rt: HostRuntime) -> Result<(), Fail> {
    let mut sink = MemSink::new(rt.alloc(), 100, 4, vec![in rt.alloc(); 2]?)?;
    let first = sink.put(b"array x");
    let second = sink.put(b"y x");
    let rest = put_all(&mut sink, b"y x 3");
    assert!(rt; first == Ok(4) && second == Err(Failed) && rest == Ok(()));
    assert_eq!(rt; sink.bytes(), b"array x 3".as_slice());
    Ok(())
}

#[test]
fn streams_take_bytes(rt: HostRuntime) -> Result<(), Fail> {
    let mut out = StdSink::new(rt.stdout());
    let mut err = StdSink::new(rt.stderr());
    let first = put_all(&mut out, b"to standard output\n");
    let second = put_all(&mut err, b"to standard error\n");
    assert!(rt; first == Ok(()) && second == Ok(()));
    Ok(())
}

// A file that was opened for reading takes nothing.
#[test]
fn a_refused_write_is_counted(rt: HostRuntime) -> Result<(), Fail> {
    let mut closed = StdSink::new(fs::open(&rt, "/dev/null")?);
    let put = put_all(&mut closed, b"lost");
    assert!(rt; put == Err(Failed) && closed.faults_seen() == 1);
    Ok(())
}

// Takes one byte at a call.
#[derive(Drop)]
struct OneByte;

impl Write for OneByte {
    fn write(&mut self, bytes: &[u8]) -> io::Result<usize> {
        Ok(bytes.len().min(1))
    }

    fn flush(&mut self) -> io::Result<()> {
        Ok(())
    }
}

#[test]
fn a_short_write_is_answered_as_such(rt: HostRuntime) {
    let mut sink = StdSink::new(OneByte);
    let put = sink.put(b"array");
    let none = sink.put(b"");
    assert!(rt; put == Ok(1) && none == Ok(0) && sink.faults_seen() == 0);
}
