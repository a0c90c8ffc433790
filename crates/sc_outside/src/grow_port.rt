//! A port over bytes in memory that grows where it must.
ghost use Rattle.std.specs.Prelude.{◌≡◌, ◌≤◌, ◌<◌, ◌++◌, ◌-◌, ◌^◌, [], length, take, IfOk};
ghost use Rattle.sc_outside.specs.Port.{ReadGives, WriteGives};
ghost use Rattle.sc_outside.specs.GrowPort.{GrowReads, GrowWrites};

use super::error::{Failed, NoMemory};
use super::port::Port;
use std::alloc::Global;
use std::marker::Model;

/// An input and an output in memory. It tells both, and keeps no journal.
///
/// A read moves as many bytes as fit and never fails. A write gives its whole piece, and fails only for want of memory;
/// that raises the count of write faults by one.
#[derive(Debug, Drop)]
pub struct GrowPort {
    input: Vec<u8>,
    at: usize,
    output: Vec<u8>,
    write_faults: u64,
}

impl Model for GrowPort {
    ghost use Rattle.std.specs.Prelude.{◌≤◌, drop, vec_len};
    ghost use Rattle.sc_outside.specs.GrowPort.{GrowState};

    ghost Value = { GrowState };

    ghost view = { λ p. record { left = drop p.at p.input.items; given = p.output.items; write_faults = p.write_faults } };

    ghost invariant = { λ p. p.at ≤ vec_len p.input };
}

impl GrowPort {
    /// A port whose input is `input` and that was given nothing. It reserves `reserve` bytes for its output.
    pub fn new(alloc: Global, input: Vec<u8>, reserve: usize) -> Result<GrowPort, NoMemory>
        ensures { IfOk result (λ port. port ≡ record { left = input.items; given = []; write_faults = 0 }) }
    {
        let output = Vec::with_capacity(alloc, reserve)?;
        Ok(GrowPort {
            input,
            at: 0,
            output,
            write_faults: 0,
        })
    }

    /// Hands out the bytes that were written, without a copy.
    pub fn into_given(self) -> Vec<u8>
        ensures { result.items ≡ self.given }
    {
        self.output
    }

    /// A read, as the port's state decides it.
    fn read_once(&mut self, buf: &mut [u8]) -> Result<usize, Failed>
        ensures exact { GrowReads self.old self.new (length buf.old) result }
        ensures prefix { IfOk result (λ n. take n buf.new ≡ take n self.old.left) }
    {
        let left = &self.input[self.at..];
        let n = buf.len().min(left.len());
        buf[..n].copy_from_slice(&left[..n]);
        self.at += n;
        Ok(n)
    }

    /// A write, as the memory at hand decides it.
    fn write_once(&mut self, piece: &[u8]) -> Result<usize, Failed>
        ensures exact { GrowWrites self.old self.new piece.now result }
        ensures known { self.old.write_faults ≤ 2 ^ 64 - 1 }
    {
        if self.output.extend_from_slice(piece).is_err() {
            self.write_faults = self.write_faults.saturating_add(1);
            return Err(Failed);
        }
        Ok(piece.len())
    }
}

impl Port for GrowPort {
    ghost use Rattle.sc_outside.specs.GrowPort.{told_by_grow};

    ghost told = { told_by_grow };

    #[tactic(auto, using(crate::proofs::GrowPortSteps::grow_reads))]
    fn read(&mut self, buf: &mut [u8]) -> Result<usize, Failed>
        requires { 0 < length buf.old }
        ensures gives { ReadGives (told_by_grow self.old) (told_by_grow self.new) buf.new result }
        ensures exact { GrowReads self.old self.new (length buf.old) result }
    {
        self.read_once(buf)
    }

    #[tactic(auto, using(crate::proofs::GrowPortSteps::grow_writes))]
    fn write(&mut self, piece: &[u8]) -> Result<usize, Failed>
        requires { 0 < length piece.now }
        ensures gives { WriteGives (told_by_grow self.old) (told_by_grow self.new) piece.now result }
        ensures exact { GrowWrites self.old self.new piece.now result }
    {
        self.write_once(piece)
    }

    /// What is left.
    fn ready(&self) -> usize {
        self.input.len() - self.at
    }
}
