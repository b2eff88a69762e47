//! The outside world as a source and as sinks. What it reads and takes is not told.
ghost use Rattle.std.specs.Prelude.{◌≡◌};

use crate::failed::Failed;
use crate::sink::Sink;
use crate::source::Source;
use std::io::{Read, Write};

/// A reader as a source. It counts the reads that failed, up to the last value of the counter.
#[derive(Drop)]
pub struct ReaderSource<R> {
    from: R,
    faults: u64,
}

impl<R: Read> ReaderSource<R> {
    /// The source of a reader, with no faults.
    pub fn new(from: R) -> ReaderSource<R>
        ensures { ⟦<ReaderSource<R> as Source>⟧.faults result ≡ 0 }
    {
        ReaderSource { from, faults: 0 }
    }
}

impl<R: Read> Source for ReaderSource<R> {
    ghost use Rattle.std.specs.Prelude.{None};

    ghost left = { λ s. None };

    ghost faults = { λ s. s.faults };

    fn read(&mut self, buf: &mut [u8]) -> Result<usize, Failed> {
        match self.from.read(buf) {
            Ok(n) => Ok(n),
            Err(_) => {
                self.faults = self.faults.saturating_add(1);
                Err(Failed)
            }
        }
    }
}

/// A writer as a sink, which is flushed after each write. It counts the writes that failed, up to
/// the last value of the counter.
#[derive(Drop)]
pub struct WriterSink<W> {
    to: W,
    faults: u64,
}

impl<W: Write> WriterSink<W> {
    /// The sink of a writer, with no faults.
    pub fn new(to: W) -> WriterSink<W>
        ensures { ⟦<WriterSink<W> as Sink>⟧.faults result ≡ 0 }
    {
        WriterSink { to, faults: 0 }
    }
}

impl<W: Write> Sink for WriterSink<W> {
    ghost use Rattle.std.specs.Prelude.{None};

    ghost taken = { λ s. None };

    ghost faults = { λ s. s.faults };

    fn write(&mut self, piece: &[u8]) -> Result<usize, Failed> {
        let written = self.to.write(piece);
        let flushed = self.to.flush();
        match (written, flushed) {
            (Ok(n), Ok(())) if n > 0 => Ok(n),
            _ => {
                self.faults = self.faults.saturating_add(1);
                Err(Failed)
            }
        }
    }
}
