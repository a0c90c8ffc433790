//! A port over bytes in memory, whose calls can be made to fail.
ghost use Rattle.std.specs.Prelude.{◌≡◌, ◌≤◌, ◌<◌, ◌++◌, [], length, take, drop, IfOk};
ghost use Rattle.sc_outside.specs.Port.{ReadGives, WriteGives};
ghost use Rattle.sc_outside.specs.MemoryPort.{ReadsAs, WritesAs, IsMemory};

use super::error::{Failed, NoMemory};
use super::journal::Move;
use super::plan::FailPlan;
use super::port::Port;
use std::alloc::Global;
use std::marker::Model;

/// An input, an output and a journal in memory. It tells all of them.
///
/// Each call moves at most `piece` bytes. Call i, counted from 0 over reads and writes, fails where i is among the
/// calls that are to fail; a write with no room left fails, and so does each call after so many `moves`. No other call
/// fails. Each failure raises the count of its kind by one. A call that fails stands in no journal.
#[derive(Debug, Drop)]
pub struct MemoryPort {
    input: Vec<u8>,
    at: usize,
    output: Vec<u8>,
    room: usize,
    journal: Vec<Move>,
    moves: usize,
    piece: usize,
    plan: FailPlan,
    read_faults: u64,
    write_faults: u64,
}

impl Model for MemoryPort {
    ghost use Rattle.std.specs.Prelude.{◌≤◌, drop, vec_len, vec_capacity};
    ghost use Rattle.sc_outside.specs.MemoryPort.{MemoryState};

    ghost Value = { MemoryState };

    ghost view = { λ p. record {
      left = drop p.at p.input.items;
      given = p.output.items;
      journal = p.journal.items;
      room = p.room;
      moves = p.moves;
      piece = p.piece;
      fails = p.plan.fails.items;
      calls = p.plan.calls;
      read_faults = p.read_faults;
      write_faults = p.write_faults;
    } };

    ghost invariant = { λ p.
        (p.at ≤ vec_len p.input) × (vec_len p.output ≤ p.room) × (p.room ≤ vec_capacity p.output)
        × (vec_len p.journal ≤ p.plan.calls) × (p.moves ≤ vec_capacity p.journal) × (1 ≤ p.piece) };
}

impl MemoryPort {
    /// A port whose input is `input`. It reserves `room` bytes for its output, and a journal of `moves` entries.
    pub fn new(
        alloc: Global,
        input: Vec<u8>,
        room: usize,
        moves: usize,
        piece: usize,
        fails: Vec<u32>,
    ) -> Result<MemoryPort, NoMemory>
        requires { 1 ≤ piece }
        ensures { IfOk result (λ port. port ≡ record {
          left = input.items;
          given = [];
          journal = [];
          room = room;
          moves = moves;
          piece = piece;
          fails = fails.items;
          calls = 0;
          read_faults = 0;
          write_faults = 0;
        }) }
    {
        let output = Vec::with_capacity(alloc, room)?;
        let journal = Vec::with_capacity(alloc, moves)?;
        Ok(MemoryPort {
            input,
            at: 0,
            output,
            room,
            journal,
            moves,
            piece,
            plan: FailPlan::new(fails),
            read_faults: 0,
            write_faults: 0,
        })
    }

    /// The bytes that were written.
    pub fn given(&self) -> &[u8]
        ensures { result.now ≡ self.now.given }
    {
        self.output.as_slice()
    }

    /// The calls that succeeded, in order.
    pub fn journal(&self) -> &[Move]
        ensures { result.now ≡ self.now.journal }
    {
        self.journal.as_slice()
    }
}

/// Copies the first `n` bytes of `from` over the first `n` of `buf`.
fn copy_first(from: &[u8], buf: &mut [u8], n: usize)
    requires source { n ≤ length from.now }
    requires target { n ≤ length buf.old }
    ensures { buf.new ≡ take n from.now ++ drop n buf.old }
{
    buf[..n].copy_from_slice(&from[..n]);
}

impl MemoryPort {
    /// A read, as the port's state decides it.
    fn read_once(&mut self, buf: &mut [u8]) -> Result<usize, Failed>
        ensures exact { ReadsAs self.old self.new (length buf.old) result }
        ensures prefix { IfOk result (λ n. take n buf.new ≡ take n self.old.left) }
        ensures known { IsMemory self.old }
    {
        let refused = self.plan.is_due() || self.plan.calls >= self.moves;
        self.plan.count();
        if refused {
            self.read_faults = self.read_faults.saturating_add(1);
            return Err(Failed);
        }
        let left = &self.input[self.at..];
        let n = self.piece.min(buf.len().min(left.len()));
        copy_first(left, buf, n);
        self.at += n;
        self.journal.push(Move::Read(n)).unwrap();
        Ok(n)
    }

    /// A write, as the port's state decides it.
    fn write_once(&mut self, piece: &[u8]) -> Result<usize, Failed>
        ensures exact { WritesAs self.old self.new piece.now result }
        ensures known { IsMemory self.old }
    {
        let refused = self.plan.is_due() || self.plan.calls >= self.moves;
        self.plan.count();
        if refused || self.output.len() >= self.room {
            self.write_faults = self.write_faults.saturating_add(1);
            return Err(Failed);
        }
        let n = self
            .piece
            .min(piece.len().min(self.room - self.output.len()));
        self.output.extend_from_slice(&piece[..n]).unwrap();
        self.journal.push(Move::Written(n)).unwrap();
        Ok(n)
    }
}

impl Port for MemoryPort {
    ghost use Rattle.sc_outside.specs.MemoryPort.{told_by};

    ghost told = { told_by };

    #[tactic(auto, using(crate::proofs::MemoryPortSteps::memory_reads))]
    fn read(&mut self, buf: &mut [u8]) -> Result<usize, Failed>
        requires { 0 < length buf.old }
        ensures gives { ReadGives (told_by self.old) (told_by self.new) buf.new result }
        ensures exact { ReadsAs self.old self.new (length buf.old) result }
    {
        self.read_once(buf)
    }

    #[tactic(auto, using(crate::proofs::MemoryPortSteps::memory_writes))]
    fn write(&mut self, piece: &[u8]) -> Result<usize, Failed>
        requires { 0 < length piece.now }
        ensures gives { WriteGives (told_by self.old) (told_by self.new) piece.now result }
        ensures exact { WritesAs self.old self.new piece.now result }
    {
        self.write_once(piece)
    }

    /// What is left.
    fn ready(&self) -> usize {
        self.input.len() - self.at
    }
}
