//! A stream that is interrupted, fails or moves few bytes, as the tests of the adapters ask it to.
ghost use Rattle.std.specs.Prelude.{◌≤◌, length, IfOk};

use std::alloc::Global;
use std::io;
use std::io::{ErrorKind, Read, Write};

// It has bytes to be read, and keeps those that are written. Its first calls are interrupted. Each call after them
// moves `moved` bytes at most, and fails where that is `None`.
#[derive(Drop)]
pub(crate) struct Script {
    left: &'static [u8],
    pub(crate) given: Vec<u8>,
    interrupts: u32,
    moved: Option<usize>,
    pub(crate) calls: u32,
}

impl Script {
    pub(crate) fn new(alloc: Global, interrupts: u32, moved: Option<usize>) -> Script {
        Script {
            left: b"abcdefgh",
            given: Vec::new(alloc),
            interrupts,
            moved,
            calls: 0,
        }
    }

    // How many of so many bytes the call at hand moves.
    fn call(&mut self, most: usize) -> io::Result<usize>
        ensures { IfOk result (λ n. n ≤ most) }
    {
        self.calls = self.calls.saturating_add(1);
        if self.calls <= self.interrupts {
            return Err(io::Error::from(ErrorKind::Interrupted));
        }
        match self.moved {
            Some(n) => Ok(n.min(most)),
            None => Err(io::Error::from(ErrorKind::BrokenPipe)),
        }
    }
}

impl Read for Script {
    fn read(&mut self, buf: &mut [u8]) -> io::Result<usize> {
        let left = self.left;
        let n = self.call(buf.len().min(left.len()))?;
        buf[..n].copy_from_slice(&left[..n]);
        self.left = &left[n..];
        Ok(n)
    }
}

impl Write for Script {
    fn write(&mut self, piece: &[u8]) -> io::Result<usize> {
        let n = self.call(piece.len())?;
        if self.given.extend_from_slice(&piece[..n]).is_err() {
            return Err(io::Error::from(ErrorKind::OutOfMemory));
        }
        Ok(n)
    }

    fn flush(&mut self) -> io::Result<()> {
        Ok(())
    }
}
