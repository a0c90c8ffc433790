//! A sink over a writer of std. Over the process's own standard error it is the sink of the program's notes.
ghost use Rattle.std.specs.Prelude.{◌≡◌};
ghost use Rattle.sc_outside.specs.StreamSink.{sink_told};

use super::error::Failed;
use super::sink::Sink;
use super::stream::write_some;
use std::io::Write;
use std::rt::Stderr;

#[cfg(test)]
mod tests;

/// A writer as a sink. It tells the bytes that the writer holds, as far as that tells them. Its calls are tried again
/// and fail as those of a `StreamPort` do, and the writer has to hold nothing back.
#[derive(Drop)]
pub struct StreamSink<W> {
    output: W,
    faults: u64,
}

/// Standard error as a sink. No contract can say which bytes it holds, so it tells none.
pub type StdSink = StreamSink<Stderr>;

impl<W: Write> StreamSink<W> {
    /// The sink over a writer. Its count starts at 0.
    pub fn new(output: W) -> StreamSink<W>
        ensures { sink_told W.contents result ≡ record { given = W.contents output; faults = 0 } }
    {
        StreamSink { output, faults: 0 }
    }
}

impl<W: Write> Sink for StreamSink<W> {
    ghost told = { sink_told W.contents };

    fn write(&mut self, piece: &[u8]) -> Result<usize, Failed> {
        let moved = write_some(&mut self.output, piece);
        if moved.is_err() {
            self.faults = self.faults.saturating_add(1);
        }
        moved
    }
}
