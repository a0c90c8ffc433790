//! Why a capture isn't read.

use std::error::Error;
use std::fmt;

/// What ended the reading of a capture. Records are counted from 0.
#[derive(Clone, Copy, Debug, PartialEq, Eq)]
pub enum DumpFault {
    /// The input doesn't begin with a preamble.
    Preamble,
    /// One to seven bytes are left where this record would begin.
    RecordHead(u32),
    /// This record has a length below 8.
    RecordLength(u32),
    /// The input ends inside the body of this record.
    Truncated(u32),
    /// A read failed.
    Read,
    /// Memory ran out.
    Memory,
}

impl fmt::Display for DumpFault {
    fn fmt<W: fmt::Write>(&self, f: &mut fmt::Formatter<W>) -> fmt::Result {
        match self {
            DumpFault::Preamble => write!(f, "preamble"),
            DumpFault::RecordHead(i) => write!(f, "record {i} head"),
            DumpFault::RecordLength(i) => write!(f, "record {i} length"),
            DumpFault::Truncated(i) => write!(f, "record {i} cut"),
            DumpFault::Read => write!(f, "read fault"),
            DumpFault::Memory => write!(f, "no memory"),
        }
    }
}

impl Error for DumpFault {}
