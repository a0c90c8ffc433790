//! What a trial comes to.
use std::error::Error;
use std::fmt;

/// What a trial came to.
#[derive(Clone, Copy, Debug, PartialEq, Eq)]
pub struct Trial {
    /// The slots of the protected capture: one a packet, and those of the deadline.
    pub slots: u32,
    /// The slots that the channel lost.
    pub lost: u32,
    /// The packets whose records came back byte for byte.
    pub equal: u32,
    /// The other packets.
    pub missed: u32,
}

/// Why a trial wasn't made.
#[derive(Clone, Copy, Debug, PartialEq, Eq)]
pub enum TrialFault {
    /// A protected packet would have so many bytes, which are more than a record holds.
    TooWide(u32),
    /// Memory ran out.
    Memory,
}

impl fmt::Display for TrialFault {
    fn fmt<W: fmt::Write>(&self, f: &mut fmt::Formatter<W>) -> fmt::Result {
        match self {
            TrialFault::TooWide(bytes) => write!(f, "a protected packet has {bytes} bytes"),
            TrialFault::Memory => write!(f, "no memory"),
        }
    }
}

impl Error for TrialFault {}
