//! The standard library's readers and writers as sources and sinks.
ghost use Rattle.std.specs.Prelude.{◌≡◌, ◌≤◌, ℕ, None};
ghost use Rattle.pybuf_cli.specs.Devices.{Rose};

use crate::devices::{Failed, PutFault, Sink, Source};
use std::io::{Read, Write};
use std::marker::Model;

/// A count of faults after one more, which stands still at its end.
fn one_more(faults: u64) -> u64
    ensures later { faults ≤ result }
    ensures rose { Rose faults result }
{
    faults.saturating_add(1)
}

/// A reader as a source. It tells no bytes. A clause sees the count of its faults.
///
/// Example: that of the standard input gives what the program reads.
#[derive(Drop)]
pub struct ReaderSource<R: Read> {
    reader: R,
    faults: u64,
}

impl<R: Read> Model for ReaderSource<R> {
    ghost Value = { ℕ };

    ghost view = { λ source. source.faults };
}

impl<R: Read> ReaderSource<R> {
    /// A source of what the reader reads, with no fault so far. Takes no memory.
    ///
    /// Example: the source of a reader that was never read has failed 0 times.
    pub fn new(reader: R) -> ReaderSource<R>
        ensures { result ≡ 0 }
    {
        ReaderSource { reader, faults: 0 }
    }

    /// How often the reader failed so far. The count stands still at `u64::MAX`.
    ///
    /// Example: of a source whose reader failed twice it is 2.
    pub fn faults(&self) -> u64
        ensures { result ≡ self.now }
    {
        self.faults
    }
}

impl<R: Read> Source for ReaderSource<R> {
    ghost bytes_left = { λ _. None };

    ghost faults = { λ source. source };

    /// Moves what one read of the reader gives.
    fn take(&mut self, room: &mut [u8]) -> Result<usize, Failed> {
        let faults = self.faults;
        match self.reader.read(room) {
            Ok(count) => Ok(count),
            Err(_) => {
                self.faults = one_more(faults);
                Err(Failed)
            }
        }
    }
}

/// A writer as a sink. It tells no bytes. A clause sees the count of its faults.
///
/// Example: that of the standard output takes what the program writes.
#[derive(Drop)]
pub struct WriterSink<W: Write> {
    writer: W,
    faults: u64,
}

impl<W: Write> Model for WriterSink<W> {
    ghost Value = { ℕ };

    ghost view = { λ sink. sink.faults };
}

impl<W: Write> WriterSink<W> {
    /// A sink into the writer, with no fault so far. Takes no memory.
    ///
    /// Example: the sink into a writer to which nothing was written has failed 0 times.
    pub fn new(writer: W) -> WriterSink<W>
        ensures { result ≡ 0 }
    {
        WriterSink { writer, faults: 0 }
    }

    /// How often the writer failed so far. The count stands still at `u64::MAX`.
    ///
    /// Example: of a sink whose writer failed twice it is 2.
    pub fn faults(&self) -> u64
        ensures { result ≡ self.now }
    {
        self.faults
    }
}

impl<W: Write> Sink for WriterSink<W> {
    ghost bytes_held = { λ _. None };

    ghost faults = { λ sink. sink };

    /// Puts what one write of the writer takes. A write that takes nothing of a piece counts as a
    /// fault.
    fn put(&mut self, piece: &[u8]) -> Result<usize, PutFault> {
        let faults = self.faults;
        if piece.is_empty() {
            return Ok(0);
        }
        match self.writer.write(piece) {
            Ok(0) => {
                self.faults = one_more(faults);
                Err(PutFault::Failed)
            }
            Ok(count) => Ok(count),
            Err(_) => {
                self.faults = one_more(faults);
                Err(PutFault::Failed)
            }
        }
    }
}
