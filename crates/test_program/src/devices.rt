//! A device that fails in mid-stream, call by call.
use pybuf_cli::{Failed, PutFault, ReaderSource, Sink, Source, WriterSink};
use std::io::{Error, ErrorKind, Read, Write};

/// Gives 22 bytes at its first call, and fails at the calls after; or takes two bytes at its first call, nothing at its
/// second, and fails after.
#[derive(Drop)]
struct Tired {
    calls: u8,
}

impl Read for Tired {
    fn read(&mut self, buf: &mut [u8]) -> std::io::Result<usize> {
        self.calls = self.calls.saturating_add(1);
        if self.calls > 1 {
            return Err(Error::from(ErrorKind::Other));
        }
        Ok(buf.len().min(22))
    }
}

impl Write for Tired {
    fn write(&mut self, buf: &[u8]) -> std::io::Result<usize> {
        self.calls = self.calls.saturating_add(1);
        if self.calls > 2 {
            return Err(Error::from(ErrorKind::Other));
        }
        if self.calls > 1 {
            return Ok(0);
        }
        Ok(buf.len().min(2))
    }

    fn flush(&mut self) -> std::io::Result<()> {
        Ok(())
    }
}

// Each call that fails is counted, and so is a call that takes nothing of a piece.
#[test]
fn calls_that_fail_are_counted(rt: HostRuntime) {
    let mut source = ReaderSource::new(Tired { calls: 0 });
    let mut room = [0u8; 30];
    assert!(rt; source.take(room.as_mut_slice()) == Ok(22));
    assert!(rt; source.take(room.as_mut_slice()) == Err(Failed));
    assert!(rt; source.faults() == 1);
    assert!(rt; source.take(room.as_mut_slice()) == Err(Failed));
    assert!(rt; source.faults() == 2);
    let mut sink = WriterSink::new(Tired { calls: 0 });
    assert!(rt; sink.put(b"abc") == Ok(2));
    assert!(rt; sink.put(b"c") == Err(PutFault::Failed));
    assert!(rt; sink.faults() == 1);
    assert!(rt; sink.put(b"c") == Err(PutFault::Failed));
    assert!(rt; sink.faults() == 2);
}
