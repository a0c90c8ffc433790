//! Cabinets: the files that a command's words name.
ghost use Rattle.std.specs.Prelude.{◌≡◌};
ghost use Rattle.sc_outside.specs.Cabinet.{CabinetTold, FetchGives};

use super::error::Failed;
use std::alloc::{AllocError, Global};

/// Why a fetch gave no file.
#[derive(Clone, Copy, Debug, PartialEq, Eq)]
pub enum FetchFault {
    /// The file isn't there, or a call to the outside failed.
    Failed,
    /// Memory ran out.
    Memory,
}

impl From<Failed> for FetchFault {
    fn from(_error: Failed) -> FetchFault
        ensures { result ≡ FetchFault.Failed }
    {
        FetchFault::Failed
    }
}

impl From<AllocError> for FetchFault {
    fn from(_error: AllocError) -> FetchFault
        ensures { result ≡ FetchFault.Memory }
    {
        FetchFault::Memory
    }
}

/// Files by their names. Of this project. What the files hold is optional: a cabinet in memory tells it, and one over
/// the machine doesn't.
pub trait Cabinet {
    /// What it tells: the files, and its count of faults, which never falls.
    ghost told: { Self → CabinetTold };

    /// The first `limit` bytes of the file of this name, or all of it where it is shorter. It answers `Failed` only
    /// where the count of faults rose, or where the files are told and none has the name. No file is changed.
    fn fetch(&mut self, alloc: Global, name: &str, limit: usize) -> Result<Vec<u8>, FetchFault>
        ensures { FetchGives (told self.old) (told self.new) name.now limit result };
}
