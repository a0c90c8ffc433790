//! Bytes that wait to be written, so that one write hands on many records.
ghost use Rattle.std.specs.Prelude.{◌≡◌, ◌+◌, ◌≤◌, [], ◌++◌, length, take, IfOk};
ghost use Rattle.sc_outside.specs.Pending.{TakesIn, Flushes, MakesWay};
ghost use Rattle.sc_outside.specs.declared.pending.TheConstants.Pending.{ROOM};

use super::error::{Failed, NoMemory};
use super::port::Port;
use super::whole::{read_exact_or_end, write_whole};
use std::alloc::Global;
use std::marker::Model;

#[cfg(test)]
mod tests;

/// Bytes that wait to be written to a port, in order. At most `Pending::ROOM` bytes wait.
///
/// The calls but `new` take no memory.
#[derive(Debug, Drop)]
pub struct Pending {
    block: Vec<u8>,
    len: usize,
}

impl Model for Pending {
    ghost use Rattle.std.specs.Prelude.{◌≡◌, ◌≤◌, List, ℕ, take, vec_len};
    ghost use Rattle.sc_outside.specs.declared.pending.TheConstants.Pending.{ROOM};

    ghost Value = { List ℕ };

    ghost view = { λ p. take p.len p.block.items };

    ghost invariant = { λ p. (p.len ≤ ROOM) × (vec_len p.block ≡ ROOM) };
}

impl Pending {
    /// How many bytes may wait: room for three of the longest records of a capture, which have 65,535 bytes.
    pub const ROOM: usize = 196_608;

    /// No bytes. It reserves all the memory that the other calls need.
    pub fn new(alloc: Global) -> Result<Pending, NoMemory>
        ensures { IfOk result (λ pending. pending ≡ []) }
    {
        let block = vec![in alloc; 0; Pending::ROOM]?;
        Ok(Pending { block, len: 0 })
    }

    /// How many bytes wait.
    pub fn len(&self) -> usize
        ensures value { result ≡ length self.now }
        ensures bound { result ≤ ROOM }
    {
        self.len
    }

    /// The bytes that wait.
    pub fn bytes(&self) -> &[u8]
        ensures { result.now ≡ self.now }
    {
        &self.block[..self.len]
    }

    /// Puts a piece behind the bytes that wait.
    pub fn push(&mut self, piece: &[u8])
        requires { length self.old + length piece.now ≤ ROOM }
        ensures { self.new ≡ self.old ++ piece.now }
    {
        let end = self.len + piece.len();
        self.block[self.len..end].copy_from_slice(piece);
        self.len = end;
    }

    /// Keeps the first `len` bytes that wait, and forgets the others.
    pub fn truncate(&mut self, len: usize)
        requires { len ≤ length self.old }
        ensures { self.new ≡ take len self.old }
    {
        self.len = len;
    }

    /// Reads the next `n` bytes of a port, and puts them behind the bytes that wait. It answers false where the port
    /// ended before: then the bytes that it had left were taken, and what waits is as it was, as after `Failed`.
    pub fn take_in<P: Port>(&mut self, port: &mut P, n: usize) -> Result<bool, Failed>
        requires { length self.old + n ≤ ROOM }
        ensures { TakesIn self.old self.new (P.told port.old) (P.told port.new) n result }
    {
        let end = self.len + n;
        let taken = read_exact_or_end(port, &mut self.block[self.len..end])?;
        if taken < n {
            return Ok(false);
        }
        self.len = end;
        Ok(true)
    }

    /// Writes all bytes that wait; then none wait. It makes no call where none wait. After `Failed` a prefix of them
    /// that isn't the whole was written, and all of them wait still.
    pub fn flush<P: Port>(&mut self, port: &mut P) -> Result<(), Failed>
        ensures { Flushes self.old self.new (P.told port.old) (P.told port.new) result }
    {
        write_whole(port, self.bytes())?;
        self.len = 0;
        Ok(())
    }

    /// Makes way for the next bytes of a port: what waits is written where `room` more bytes don't fit, and where the
    /// port hasn't `ready` bytes at hand, so that no byte waits while a read does.
    pub fn make_way<P: Port>(
        &mut self,
        port: &mut P,
        room: usize,
        ready: usize,
    ) -> Result<(), Failed>
        requires { room ≤ ROOM }
        ensures { MakesWay self.old self.new (P.told port.old) (P.told port.new) room ROOM result }
    {
        if room <= Pending::ROOM - self.len() && ready <= port.ready() {
            return Ok(());
        }
        self.flush(port)
    }
}
