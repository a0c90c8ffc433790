//! The burst code of a channel that has at most one erasure anywhere in a window.

ghost use Rattle.std.specs.Prelude.{◌≡◌, ◌≢◌, ℕ, ◌+◌, ◌<◌, ◌≤◌, ◌↔◌, bit_xor, Err, IfOk};
ghost use Rattle.sc_field.specs.Gf256.{gf256_inverse};
ghost use Rattle.sc_channel.specs.Channel.{IsChannel};
ghost use Rattle.sc_ms.specs.Burst.{burst_code, burst_matrix, burst_width};

use sc_channel::Channel;
use sc_code::ByteCode;
use sc_diag::{Entries, interleave, matrix_of};
use sc_field::{Field, Gf256};
use sc_matrix::Matrix;
use sc_outside::NoMemory;
use std::alloc::Global;
use std::error::Error;
use std::fmt;

/// The greatest number of symbols in a block and its parity together.
const MAX_SYMBOLS: u32 = 64;

/// Why there is no burst code.
#[derive(Copy, Clone, Debug, PartialEq, Eq)]
pub enum MakeFault {
    /// The channel has more than one erasure anywhere in a window.
    NotBurst,
    /// The number of symbols in a block and its parity, which is above 64.
    TooWide(u32),
    /// Memory ran out.
    Memory,
}

impl fmt::Display for MakeFault {
    fn fmt<W: fmt::Write>(&self, f: &mut fmt::Formatter<W>) -> fmt::Result {
        match self {
            MakeFault::NotBurst => write!(f, "no code for more than one loss in a window"),
            MakeFault::TooWide(symbols) => write!(f, "{symbols} symbols, which is above 64"),
            MakeFault::Memory => write!(f, "no memory"),
        }
    }
}

impl Error for MakeFault {}

impl From<NoMemory> for MakeFault {
    ghost use Rattle.sc_ms.specs.declared.burst.MakeFault.TheVariants.{Memory};
    ghost use Rattle.std.specs.Prelude.{◌≡◌};

    ghost from_gives = { λ _ fault. fault ≡ Memory };

    fn from(_error: NoMemory) -> MakeFault {
        MakeFault::Memory
    }
}

/// The burst code of a channel, after Martinian and Sundberg: `t` symbols in a block and `b` in a parity, whose diagonals are
/// words of a block code with the identity in its first `b` rows and a Cauchy matrix below.
///
/// `NotBurst` where the channel's `n` is above 1, and else `TooWide` where `t + b` is above 64, with that number.
pub fn ms_code(alloc: Global, channel: &Channel) -> Result<ByteCode, MakeFault>
    ensures code { IfOk result (λ code. code ≡ burst_code channel.now) }
    ensures not_burst { (result ≡ Err MakeFault.NotBurst) ↔ (1 < channel.now.n) }
    ensures too_wide { (symbols : ℕ) → (result ≡ Err (MakeFault.TooWide symbols)) ↔ ((channel.now.n ≡ 1) × ((64 < symbols) × (symbols ≡ burst_width channel.now))) }
{
    if channel.n() > 1 {
        return Err(MakeFault::NotBurst);
    }
    let symbols = channel.t() + channel.b();
    if symbols > MAX_SYMBOLS {
        return Err(MakeFault::TooWide(symbols));
    }
    Ok(burst_code(alloc, channel)?)
}

/// The burst code of a channel that has one.
fn burst_code(alloc: Global, channel: &Channel) -> Result<ByteCode, NoMemory>
    requires { burst_width channel.now ≤ 64 }
    ensures { IfOk result (λ code. code ≡ burst_code channel.now) }
{
    let p = burst_matrix(alloc, channel)?;
    interleave(alloc, &p)
}

/// Its parity matrix.
fn burst_matrix(alloc: Global, channel: &Channel) -> Result<Matrix<Gf256>, NoMemory>
    requires { burst_width channel.now ≤ 64 }
    ensures matrix { IfOk result (λ p. p ≡ burst_matrix channel.now) }
    ensures limits { IsChannel channel.now }
{
    let burst = Burst {
        t: channel.t() as usize,
        b: channel.b() as usize,
    };
    matrix_of(alloc, &burst, 0)
}

/// The parity matrix of a burst code, which is the same at any lag.
#[derive(Drop)]
struct Burst {
    t: usize,
    b: usize,
}

impl Entries for Burst {
    ghost use Rattle.sc_ms.specs.Burst.{burst_entry};

    ghost rows = { λ burst. burst.t };

    ghost cols = { λ burst. burst.b };

    ghost entry = { λ burst _. burst_entry burst.b };

    fn rows(&self) -> usize {
        self.t
    }

    fn cols(&self) -> usize {
        self.b
    }

    fn at(&self, _lag: usize, i: usize, j: usize) -> Gf256 {
        if i < self.b {
            if i == j { Gf256::one() } else { Gf256::zero() }
        } else {
            cauchy(i, j)
        }
    }
}

/// The entry of the Cauchy matrix at a row and a column, which are different bytes: the inverse of their difference.
fn cauchy(i: usize, j: usize) -> Gf256
    requires row { i < 64 }
    requires column { j < 64 }
    requires differ { i ≢ j }
    ensures { result ≡ gf256_inverse (bit_xor i j) }
{
    Gf256::from((i ^ j) as u8).inv()
}
