//! The kinds of makers, and why there is no design.

use sc_outside::NoMemory;
use std::error::Error;
use std::fmt;

/// A kind of maker.
#[derive(Copy, Clone, Debug, PartialEq, Eq)]
pub enum MakerKind {
    /// The burst code alone.
    Ms,
    /// 16 layered candidates.
    Layered,
    /// 256 rate-optimal candidates.
    Optimal,
}

/// Why there is no design. They are tested in this order.
#[derive(Copy, Clone, Debug, PartialEq, Eq)]
pub enum DesignFault {
    /// The kind is `Ms`, and the channel has more than one erasure anywhere in a window.
    NotBurst,
    /// The number of symbols in a block and its parity, which is above 64.
    TooWide(u32),
    /// The number of the channel's classes, which is above 1,000,000.
    TooManyClasses(u64),
    /// No candidate meets the channel.
    NoCode,
    /// Memory ran out.
    Memory,
}

impl fmt::Display for DesignFault {
    fn fmt<W: fmt::Write>(&self, f: &mut fmt::Formatter<W>) -> fmt::Result {
        match self {
            DesignFault::NotBurst => write!(f, "no code for more than one loss in a window"),
            DesignFault::TooWide(symbols) => write!(f, "{symbols} symbols, which is above 64"),
            DesignFault::TooManyClasses(count) => {
                write!(f, "{count} classes, which is above 1000000")
            }
            DesignFault::NoCode => write!(f, "no candidate meets the channel"),
            DesignFault::Memory => write!(f, "no memory"),
        }
    }
}

impl Error for DesignFault {}

impl From<NoMemory> for DesignFault {
    ghost use Rattle.sc_optimal.specs.declared.kind.DesignFault.TheVariants.{Memory};
    ghost use Rattle.std.specs.Prelude.{◌≡◌};

    ghost from_gives = { λ _ fault. fault ≡ Memory };

    fn from(_error: NoMemory) -> DesignFault {
        DesignFault::Memory
    }
}
