//! A cabinet of files in memory, whose fetches can be made to fail.
ghost use Rattle.std.specs.Prelude.{◌≡◌, ◌≤◌, ◌-◌, ◌^◌, map, take, option_map};
ghost use Rattle.sc_outside.specs.Cabinet.{FetchGives, file_named};
ghost use Rattle.sc_outside.specs.MemoryCabinet.{FetchesAs, file_entry, told_by_cabinet};

use super::cabinet::{Cabinet, FetchFault};
use super::plan::FailPlan;
use std::alloc::Global;
use std::marker::Model;

/// Files in memory. It tells them.
///
/// Fetch i, counted from 0, fails where i is among the calls that are to fail, and raises the count of faults by one.
/// A fetch of a name that isn't there fails and leaves the count. No other fetch answers `Failed`.
#[derive(Debug, Drop)]
pub struct MemoryCabinet {
    files: Vec<(String, Vec<u8>)>,
    plan: FailPlan,
    faults: u64,
}

impl Model for MemoryCabinet {
    ghost use Rattle.std.specs.Prelude.{map, ◌≤◌, ◌-◌, ◌^◌};
    ghost use Rattle.sc_outside.specs.MemoryCabinet.{CabinetState, file_entry};

    ghost Value = { CabinetState };

    ghost view = { λ c. record {
      files = map file_entry c.files.items;
      fails = c.plan.fails.items;
      calls = c.plan.calls;
      faults = c.faults;
    } };

    ghost invariant = { λ c. c.faults ≤ 2 ^ 64 - 1 };
}

impl MemoryCabinet {
    /// A cabinet with these files, each a name and its bytes. Of files with one name the first counts.
    pub fn new(files: Vec<(String, Vec<u8>)>, fails: Vec<u32>) -> MemoryCabinet
        ensures { result ≡ record {
          files = map file_entry files.items;
          fails = fails.items;
          calls = 0;
          faults = 0;
        } }
    {
        MemoryCabinet {
            files,
            plan: FailPlan::new(fails),
            faults: 0,
        }
    }

    /// The bytes of the file of this name.
    fn find(&self, name: &str) -> Option<&[u8]>
        ensures { option_map (λ bytes. bytes.now) result ≡ file_named name.now self.now.files }
    {
        for file in self.files.iter() {
            if name == file.0.as_str() {
                return Some(file.1.as_slice());
            }
        }
        None
    }

    /// A fetch, as the cabinet's state decides it.
    fn fetch_once(&mut self, alloc: Global, name: &str, limit: usize) -> Result<Vec<u8>, FetchFault>
        ensures exact { FetchesAs self.old self.new name.now limit result }
        ensures known { self.old.faults ≤ 2 ^ 64 - 1 }
    {
        let refused = self.plan.is_due();
        self.plan.count();
        if refused {
            self.faults = self.faults.saturating_add(1);
            return Err(FetchFault::Failed);
        }
        let Some(file) = self.find(name) else {
            return Err(FetchFault::Failed);
        };
        match Vec::from_slice(alloc, first(file, limit)) {
            Ok(bytes) => Ok(bytes),
            Err(_) => Err(FetchFault::Memory),
        }
    }
}

/// The first `limit` bytes, or all where they are fewer.
fn first(bytes: &[u8], limit: usize) -> &[u8]
    ensures { result.now ≡ take limit bytes.now }
{
    if limit < bytes.len() {
        &bytes[..limit]
    } else {
        bytes
    }
}

impl Cabinet for MemoryCabinet {
    ghost use Rattle.sc_outside.specs.MemoryCabinet.{told_by_cabinet};

    ghost told = { told_by_cabinet };

    #[tactic(auto, using(crate::proofs::MemoryCabinetSteps::memory_cabinets))]
    fn fetch(&mut self, alloc: Global, name: &str, limit: usize) -> Result<Vec<u8>, FetchFault>
        ensures gives { FetchGives (told_by_cabinet self.old) (told_by_cabinet self.new) name.now limit result }
        ensures exact { FetchesAs self.old self.new name.now limit result }
    {
        self.fetch_once(alloc, name, limit)
    }
}
