//! A sink over bytes in memory, whose calls can be made to fail.
ghost use Rattle.std.specs.Prelude.{◌≡◌, ◌<◌, [], length, IfOk};
ghost use Rattle.sc_outside.specs.Sink.{SinkGives};
ghost use Rattle.sc_outside.specs.MemorySink.{SinksAs, IsMemorySink};

use super::error::{Failed, NoMemory};
use super::plan::FailPlan;
use super::sink::Sink;
use std::alloc::Global;
use std::marker::Model;

/// An output in memory, with room for so many bytes. It tells what was given.
///
/// Write i, counted from 0, fails where i is among the calls that are to fail, and a write with no room left fails.
/// No other call fails. Each failure raises the count of faults by one.
#[derive(Debug, Drop)]
pub struct MemorySink {
    output: Vec<u8>,
    room: usize,
    plan: FailPlan,
    faults: u64,
}

impl Model for MemorySink {
    ghost use Rattle.std.specs.Prelude.{◌≤◌, vec_len, vec_capacity};
    ghost use Rattle.sc_outside.specs.MemorySink.{SinkState};

    ghost Value = { SinkState };

    ghost view = { λ s. record {
      given = s.output.items;
      room = s.room;
      fails = s.plan.fails.items;
      calls = s.plan.calls;
      faults = s.faults;
    } };

    ghost invariant = { λ s. (vec_len s.output ≤ s.room) × (s.room ≤ vec_capacity s.output) };
}

impl MemorySink {
    /// A sink that was given nothing. It reserves `room` bytes.
    pub fn new(alloc: Global, room: usize, fails: Vec<u32>) -> Result<MemorySink, NoMemory>
        ensures { IfOk result (λ sink. sink ≡ record {
          given = [];
          room = room;
          fails = fails.items;
          calls = 0;
          faults = 0;
        }) }
    {
        let output = Vec::with_capacity(alloc, room)?;
        Ok(MemorySink {
            output,
            room,
            plan: FailPlan::new(fails),
            faults: 0,
        })
    }

    /// The bytes that were written.
    pub fn given(&self) -> &[u8]
        ensures { result.now ≡ self.now.given }
    {
        self.output.as_slice()
    }

    /// A write, as the sink's state decides it.
    fn write_once(&mut self, piece: &[u8]) -> Result<usize, Failed>
        ensures exact { SinksAs self.old self.new piece.now result }
        ensures known { IsMemorySink self.old }
    {
        let refused = self.plan.is_due();
        self.plan.count();
        if refused || self.output.len() >= self.room {
            self.faults = self.faults.saturating_add(1);
            return Err(Failed);
        }
        let n = piece.len().min(self.room - self.output.len());
        self.output.extend_from_slice(&piece[..n]).unwrap();
        Ok(n)
    }
}

impl Sink for MemorySink {
    ghost use Rattle.sc_outside.specs.MemorySink.{told_by_sink};

    ghost told = { told_by_sink };

    #[tactic(auto, using(crate::proofs::MemorySinkSteps::memory_sinks))]
    fn write(&mut self, piece: &[u8]) -> Result<usize, Failed>
        requires { 0 < length piece.now }
        ensures gives { SinkGives (told_by_sink self.old) (told_by_sink self.new) piece.now result }
        ensures exact { SinksAs self.old self.new piece.now result }
    {
        self.write_once(piece)
    }
}
