//! Why bytes are no file of a form.

use sc_outside::NoMemory;
use std::error::Error;
use std::fmt;

/// Where a file's fault is: at a key, or in its value as a whole.
#[derive(Clone, Copy, Debug, PartialEq, Eq)]
pub enum Key {
    /// The value isn't an object.
    Whole,
    /// A key that the form doesn't have.
    Other,
    /// The numbers W, B, N and T of a code file's channel.
    Channel,
    /// The number of symbols in a block, of a code file.
    K,
    /// The matrices of a code file.
    Lags,
    /// The number of symbols in a parity, of a code file.
    R,
    /// The lost residues of a certificate.
    Lost,
    /// The period of a certificate.
    Period,
    /// The flags of a loss.
    Loss,
}

/// Why bytes are no file of a form. The shapes of all keys are tested before their ranges.
#[derive(Clone, Copy, Debug, PartialEq, Eq)]
pub enum FileFault {
    /// `serde_json` reads no value from the bytes.
    NotJson,
    /// What the value has there is of another shape, or missing.
    Shape(Key),
    /// What the value has there is of its shape and out of its range.
    Range(Key),
    /// Memory ran out.
    Memory,
}

impl fmt::Display for Key {
    fn fmt<W: fmt::Write>(&self, f: &mut fmt::Formatter<W>) -> fmt::Result {
        match self {
            Key::Whole => write!(f, "whole"),
            Key::Other => write!(f, "other"),
            Key::Channel => write!(f, "channel"),
            Key::K => write!(f, "k"),
            Key::Lags => write!(f, "lags"),
            Key::R => write!(f, "r"),
            Key::Lost => write!(f, "lost"),
            Key::Period => write!(f, "period"),
            Key::Loss => write!(f, "loss"),
        }
    }
}

impl fmt::Display for FileFault {
    fn fmt<W: fmt::Write>(&self, f: &mut fmt::Formatter<W>) -> fmt::Result {
        match self {
            FileFault::NotJson => write!(f, "not json"),
            FileFault::Shape(key) => write!(f, "shape {key}"),
            FileFault::Range(key) => write!(f, "range {key}"),
            FileFault::Memory => write!(f, "no memory"),
        }
    }
}

impl Error for FileFault {}

impl From<NoMemory> for FileFault {
    ghost use Rattle.sc_codefile.specs.declared.fault.FileFault.TheVariants.{Memory};
    ghost use Rattle.std.specs.Prelude.{◌≡◌};

    ghost from_gives = { λ _ fault. fault ≡ Memory };

    fn from(_error: NoMemory) -> FileFault {
        FileFault::Memory
    }
}
