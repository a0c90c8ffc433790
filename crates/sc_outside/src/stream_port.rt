//! A port over a reader and a writer of std. Over the process's own standard streams it is the port of the program.
ghost use Rattle.std.specs.Prelude.{◌≡◌, None, IfOk};
ghost use Rattle.std.specs.Io.Buffered.{reader_remaining};
ghost use Rattle.sc_outside.specs.StreamPort.{port_told};

use super::error::{Failed, NoMemory};
use super::port::Port;
use super::stream::{read_some, write_some};
use std::alloc::Global;
use std::io::{BufReader, Read, Write};
use std::rt::{Stdin, Stdout};

#[cfg(test)]
mod tests;

/// How many bytes are read from the reader at a time.
const READ_AHEAD: usize = 1 << 18;

/// A reader and a writer as one port. It tells the bytes that the reader has left and those that the writer holds, as
/// far as these tell them, and no journal. Reads go through a buffer.
///
/// A call that is interrupted is made again, 1,000 times at most; then, and at any other error, it fails. So does a
/// write that takes no byte. The writer has to hold nothing back, since nothing flushes it: std's own standard streams
/// hand each write to the system at once.
#[derive(Drop)]
pub struct StreamPort<R, W> {
    input: BufReader<R>,
    output: W,
    read_faults: u64,
    write_faults: u64,
}

/// Standard input and standard output as one port. No contract can say which bytes they hold, so it tells none.
pub type StdPort = StreamPort<Stdin, Stdout>;

impl<R: Read + Drop, W: Write + Drop> StreamPort<R, W> {
    /// The port over a reader and a writer. Its counts start at 0. The buffer takes 262,144 bytes. Where there is no memory
    /// for it, both are dropped.
    pub fn new(alloc: Global, input: R, output: W) -> Result<StreamPort<R, W>, NoMemory>
        ensures { IfOk result (λ port. port_told R.remaining W.contents port ≡ record {
          left = R.remaining input;
          given = W.contents output;
          journal = None;
          read_faults = 0;
          write_faults = 0;
        }) }
    {
        match BufReader::with_capacity(alloc, READ_AHEAD, input) {
            Ok(input) => Ok(StreamPort {
                input,
                output,
                read_faults: 0,
                write_faults: 0,
            }),
            Err(_) => Err(NoMemory),
        }
    }
}

impl<R: Read, W: Write> Port for StreamPort<R, W> {
    ghost told = { port_told R.remaining W.contents };

    fn read(&mut self, buf: &mut [u8]) -> Result<usize, Failed> {
        let moved = read_some(&mut self.input, buf);
        if moved.is_err() {
            self.read_faults = self.read_faults.saturating_add(1);
        }
        moved
    }

    fn write(&mut self, piece: &[u8]) -> Result<usize, Failed> {
        let moved = write_some(&mut self.output, piece);
        if moved.is_err() {
            self.write_faults = self.write_faults.saturating_add(1);
        }
        moved
    }

    /// What the buffer of reads holds.
    fn ready(&self) -> usize {
        self.input.buffer().len()
    }
}
