//! Sources and sinks over standard input and output, or any reader and writer of the system. They
//! tell the bytes that the reader and the writer tell, and count each error.

ghost use Rattle.std.specs.Prelude.{◌≡◌, None};

use crate::failure::{Failed, count_fault};
use crate::outside::Outside;
use crate::sink::Sink;
use crate::source::Source;
use std::io;

/// A source over a reader, such as standard input.
#[derive(Drop)]
pub struct ReaderSource<R> {
    reader: R,
    faults: u64,
}

impl<R: io::Read> ReaderSource<R> {
    /// No faults yet.
    pub fn new(reader: R) -> ReaderSource<R>
        ensures { result.faults ≡ 0 }
    {
        ReaderSource { reader, faults: 0 }
    }

    /// How many calls have failed.
    pub fn faults(&self) -> u64
        ensures { result ≡ self.now.faults }
    {
        self.faults
    }
}

impl<R: io::Read> Outside for ReaderSource<R> {
    ghost seen = { λ s. record { left = R.remaining s.reader; written = None; faults = s.faults } };
}

impl<R: io::Read> Source for ReaderSource<R> {
    fn read(&mut self, buffer: &mut [u8]) -> Result<usize, Failed> {
        match self.reader.read(buffer) {
            Ok(n) => Ok(n),
            Err(_) => Err(count_fault(&mut self.faults)),
        }
    }
}

/// A sink over a writer, such as standard output. A writer that takes nothing of a piece counts as
/// failed.
#[derive(Drop)]
pub struct WriterSink<W> {
    writer: W,
    faults: u64,
}

impl<W: io::Write> WriterSink<W> {
    /// No faults yet.
    pub fn new(writer: W) -> WriterSink<W>
        ensures { result.faults ≡ 0 }
    {
        WriterSink { writer, faults: 0 }
    }

    /// How many calls have failed.
    pub fn faults(&self) -> u64
        ensures { result ≡ self.now.faults }
    {
        self.faults
    }
}

impl<W: io::Write> Outside for WriterSink<W> {
    ghost seen = { λ s. record { left = None; written = W.contents s.writer; faults = s.faults } };
}

impl<W: io::Write> Sink for WriterSink<W> {
    fn write(&mut self, piece: &[u8]) -> Result<usize, Failed> {
        match self.writer.write(piece) {
            Ok(n) if 0 < n || piece.is_empty() => Ok(n),
            _ => Err(count_fault(&mut self.faults)),
        }
    }
}
