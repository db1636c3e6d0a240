// A reader of std as a source, and a writer of std as a sink: standard input and output, or any other.
ghost use Rattle.std.specs.Prelude.{◌≡◌};

use crate::ends::{Failed, Sink, Source};
use std::io::{Read, Write};

/// A reader as a source: its bytes are those that the reader tells, which standard input doesn't.
#[derive(Drop)]
pub struct StdSource<R: Read> {
    stream: R,
    faults: u64,
}

impl<R: Read> StdSource<R> {
    /// A reader as a source, with no fault so far.
    pub fn new(stream: R) -> StdSource<R>
        ensures bytes { ⟦<StdSource<R> as Source>⟧.remaining result ≡ R.remaining stream }
        ensures faults { ⟦<StdSource<R> as Source>⟧.faults result ≡ 0 }
    {
        StdSource { stream, faults: 0 }
    }
}

impl<R: Read> Source for StdSource<R> {
    ghost remaining = { λ s. R.remaining s.stream };

    ghost faults = { λ s. s.faults };

    fn read(&mut self, buf: &mut [u8]) -> Result<usize, Failed> {
        match self.stream.read(buf) {
            Ok(n) => Ok(n),
            Err(_) => {
                self.faults = self.faults.saturating_add(1);
                Err(Failed)
            }
        }
    }
}

/// A writer as a sink: what it took is what the writer tells, which standard output doesn't.
#[derive(Drop)]
pub struct StdSink<W: Write> {
    stream: W,
    faults: u64,
}

impl<W: Write> StdSink<W> {
    /// A writer as a sink, with no fault so far.
    pub fn new(stream: W) -> StdSink<W>
        ensures bytes { ⟦<StdSink<W> as Sink>⟧.taken result ≡ W.contents stream }
        ensures faults { ⟦<StdSink<W> as Sink>⟧.faults result ≡ 0 }
    {
        StdSink { stream, faults: 0 }
    }
}

impl<W: Write> Sink for StdSink<W> {
    ghost taken = { λ s. W.contents s.stream };

    ghost faults = { λ s. s.faults };

    // A write that takes nothing of a piece would be tried for ever: it is a fault.
    fn write(&mut self, bytes: &[u8]) -> Result<usize, Failed> {
        match self.stream.write(bytes) {
            Ok(n) if n > 0 || bytes.is_empty() => Ok(n),
            _ => {
                self.faults = self.faults.saturating_add(1);
                Err(Failed)
            }
        }
    }

    fn flush(&mut self) -> Result<(), Failed> {
        match self.stream.flush() {
            Ok(()) => Ok(()),
            Err(_) => {
                self.faults = self.faults.saturating_add(1);
                Err(Failed)
            }
        }
    }
}
