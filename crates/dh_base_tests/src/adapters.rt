//! The adapters over readers and writers, where a call fails and where one takes less than it is
//! given.

use dh_base::{Failed, ReaderSource, Sink, Source, WriterSink};
use std::io;

/// A reader that gives one byte at a call, and fails the call with one number, from 0.
#[derive(Drop)]
struct ByteReader<'b> {
    bytes: &'b [u8],
    calls: u32,
    fails: u32,
}

impl io::Read for ByteReader<'_> {
    fn read(&mut self, buf: &mut [u8]) -> io::Result<usize> {
        let call = self.calls;
        self.calls = call.saturating_add(1);
        if call == self.fails {
            return Err(io::Error::from(io::ErrorKind::BrokenPipe));
        }
        if self.bytes.is_empty() || buf.is_empty() {
            return Ok(0);
        }
        buf[0] = self.bytes[0];
        self.bytes = &self.bytes[1..];
        Ok(1)
    }
}

/// A writer that takes at most two bytes at a call, fails the second call and takes nothing at the
/// third.
#[derive(Drop)]
struct ShortWriter {
    calls: u32,
}

impl io::Write for ShortWriter {
    fn write(&mut self, buf: &[u8]) -> io::Result<usize> {
        let call = self.calls;
        self.calls = call.saturating_add(1);
        match call {
            1 => Err(io::Error::from(io::ErrorKind::BrokenPipe)),
            2 => Ok(0),
            _ => Ok(buf.len().min(2)),
        }
    }

    fn flush(&mut self) -> io::Result<()> {
        Ok(())
    }
}

#[test]
fn a_failing_read_is_no_end(rt: HostRuntime) {
    let reader = ByteReader {
        bytes: b"ab",
        calls: 0,
        fails: 1,
    };
    let mut source = ReaderSource::new(reader);
    let mut buffer = [0; 4];
    assert_eq!(rt; source.read(&mut buffer), Ok(1));
    assert_eq!(rt; source.read(&mut buffer), Err(Failed));
    assert_eq!(rt; source.faults(), 1);
    assert_eq!(rt; source.read(&mut buffer), Ok(1));
    assert_eq!(rt; buffer[0], b'b');
    assert_eq!(rt; source.read(&mut buffer), Ok(0));
    assert_eq!(rt; source.faults(), 1);
}

#[test]
fn a_short_write_is_told_as_short(rt: HostRuntime) {
    let mut sink = WriterSink::new(ShortWriter { calls: 0 });
    assert_eq!(rt; sink.write(b"abc"), Ok(2));
    assert_eq!(rt; sink.write(b"c"), Err(Failed));
    assert_eq!(rt; sink.faults(), 1);
    assert_eq!(rt; sink.write(b"c"), Err(Failed));
    assert_eq!(rt; sink.faults(), 2);
    assert_eq!(rt; sink.write(b"c"), Ok(1));
    assert_eq!(rt; sink.write(b""), Ok(0));
    assert_eq!(rt; sink.faults(), 2);
}
