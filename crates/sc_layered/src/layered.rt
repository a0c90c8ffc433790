//! Layered candidates, told coefficient by coefficient over the list of their draws.

ghost use Rattle.std.specs.Prelude.{◌≡◌, ℕ, ◌+◌, ◌*◌, ◌-◌, ◌<◌, ◌≤◌, ◌↔◌, Err, IfOk};
ghost use Rattle.sc_channel.specs.Channel.{IsChannel};
ghost use Rattle.sc_layered.specs.Draw.{generator, nonzero_at};
ghost use Rattle.sc_layered.specs.Layered.{second_layer, layered_parity, layered_width, second_word, first_coefficient, layered_code};

use crate::draw::Draws;
use sc_channel::Channel;
use sc_code::ByteCode;
use sc_diag::{Entries, code_of};
use sc_field::{Field, Gf256};
use sc_outside::NoMemory;
use std::alloc::Global;
use std::error::Error;
use std::fmt;

/// The greatest number of symbols in a block and its parity together.
const MAX_SYMBOLS: u32 = 64;

/// Why there is no candidate.
#[derive(Copy, Clone, Debug, PartialEq, Eq)]
pub enum WideFault {
    /// The number of symbols in a block and its parity, which is above 64.
    TooWide(u32),
    /// Memory ran out.
    Memory,
}

impl fmt::Display for WideFault {
    fn fmt<W: fmt::Write>(&self, f: &mut fmt::Formatter<W>) -> fmt::Result {
        match self {
            WideFault::TooWide(symbols) => write!(f, "{symbols} symbols, which is above 64"),
            WideFault::Memory => write!(f, "no memory"),
        }
    }
}

impl Error for WideFault {}

impl From<NoMemory> for WideFault {
    ghost use Rattle.sc_layered.specs.declared.layered.WideFault.TheVariants.{Memory};
    ghost use Rattle.std.specs.Prelude.{◌≡◌};

    ghost from_gives = { λ _ fault. fault ≡ Memory };

    fn from(_error: NoMemory) -> WideFault {
        WideFault::Memory
    }
}

/// Layered candidate `c` of a channel, after the MIDAS codes of Badr and others: `t` symbols in a block, and `b + q` in a parity,
/// where `q` is `b * n / (t - n + 1)` rounded up.
///
/// Parity symbol `j` below `b` is symbol `j` of the block `t` slots before, and drawn multiples of the symbols from `b` on at
/// each lag below `t`. Each of the other `q` parity symbols has drawn multiples of the symbols below `b` at each lag up to `t`.
/// The draws are nonzero, of the generator of `c`; they go through the parity symbols, for each through the lags, and for each
/// of these through the symbols.
///
/// `TooWide` where `t + b + q` is above 64, with that number.
pub fn layered_candidate(alloc: Global, channel: &Channel, c: u32) -> Result<ByteCode, WideFault>
    ensures code { IfOk result (λ code. code ≡ layered_code channel.now c) }
    ensures too_wide { (symbols : ℕ) → (result ≡ Err (WideFault.TooWide symbols)) ↔ ((64 < symbols) × (symbols ≡ layered_width channel.now)) }
{
    let symbols = channel.t() + parity(channel);
    if symbols > MAX_SYMBOLS {
        return Err(WideFault::TooWide(symbols));
    }
    Ok(layered_code(alloc, channel, c)?)
}

/// The number of parity symbols of the second layer.
fn second_layer(channel: &Channel) -> u32
    ensures value { result ≡ second_layer channel.now.b channel.now.n channel.now.t }
    ensures bound { result ≤ 1640 }
    ensures limits { IsChannel channel.now }
{
    let places = channel.t() - channel.n() + 1;
    (channel.b() * channel.n() + (places - 1)) / places
}

/// The number of parity symbols.
fn parity(channel: &Channel) -> u32
    ensures value { result ≡ layered_parity channel.now }
    ensures bound { result ≤ 1680 }
    ensures limits { IsChannel channel.now }
{
    channel.b() + second_layer(channel)
}

/// The candidate of a channel that has one.
fn layered_code(alloc: Global, channel: &Channel, c: u32) -> Result<ByteCode, NoMemory>
    requires { layered_width channel.now ≤ 64 }
    ensures { IfOk result (λ code. code ≡ layered_code channel.now c) }
{
    let layers = make_layers(alloc, channel, c)?;
    code_of(alloc, &layers, layers.t + 1)
}

/// The sizes of a candidate, with its draws.
fn make_layers(alloc: Global, channel: &Channel, c: u32) -> Result<Layers, NoMemory>
    requires { layered_width channel.now ≤ 64 }
    ensures b { IfOk result (λ layers. layers.b ≡ channel.now.b) }
    ensures t { IfOk result (λ layers. layers.t ≡ channel.now.t) }
    ensures q { IfOk result (λ layers. layers.q ≡ second_layer channel.now.b channel.now.n channel.now.t) }
    ensures seed { IfOk result (λ layers. layers.draws.seed ≡ c) }
    ensures limits { IsChannel channel.now }
{
    let b = channel.b() as usize;
    let t = channel.t() as usize;
    let q = second_layer(channel) as usize;
    let first = b * t * (t - b);
    let second = q * (t + 1) * b;
    let draws = Draws::new(alloc, u64::from(c), first + second)?;
    Ok(Layers {
        b,
        t,
        q,
        first,
        draws,
    })
}

/// The matrices of a candidate, by its sizes and its draws.
#[derive(Drop)]
struct Layers {
    b: usize,
    t: usize,
    q: usize,
    // how many words the first layer draws
    first: usize,
    draws: Draws,
    ghost within: { b ≤ t },
    ghost small: { t + (b + q) ≤ 64 },
    ghost first_words: { first ≡ b * t * (t - b) },
    ghost all_words: { draws.count ≡ first + q * (t + 1) * b },
}

impl Entries for Layers {
    ghost use Rattle.std.specs.Prelude.{◌+◌};
    ghost use Rattle.sc_layered.specs.Draw.{generator};
    ghost use Rattle.sc_layered.specs.Layered.{layered_coefficient};

    ghost rows = { λ layers. layers.t };

    ghost cols = { λ layers. layers.b + layers.q };

    ghost entry = { λ layers. layered_coefficient (generator layers.draws.seed) layers.b layers.t };

    fn rows(&self) -> usize {
        self.t
    }

    fn cols(&self) -> usize {
        self.b + self.q
    }

    fn at(&self, lag: usize, i: usize, j: usize) -> Gf256 {
        if j < self.b {
            self.first_at(lag, i, j)
        } else if i < self.b && lag <= self.t {
            self.second_at(lag, i, j - self.b)
        } else {
            Gf256::zero()
        }
    }
}

impl Layers {
    /// What symbol `i` gives to parity symbol `j` of the first layer.
    fn first_at(&self, lag: usize, i: usize, j: usize) -> Gf256
        requires row { i < self.now.t }
        requires column { j < self.now.b }
        ensures { result ≡ first_coefficient (generator self.now.draws.seed) self.now.b self.now.t lag i j }
    {
        if i < self.b {
            if lag == self.t && i == j {
                Gf256::one()
            } else {
                Gf256::zero()
            }
        } else if lag < self.t {
            self.draw((j * self.t + lag) * (self.t - self.b) + (i - self.b))
        } else {
            Gf256::zero()
        }
    }

    /// What symbol `i` gives to parity symbol `q` of the second layer.
    fn second_at(&self, lag: usize, i: usize, q: usize) -> Gf256
        requires lag { lag ≤ self.now.t }
        requires row { i < self.now.b }
        requires column { q < self.now.q }
        ensures { result ≡ nonzero_at (generator self.now.draws.seed) (second_word self.now.b self.now.t lag i q) }
    {
        self.draw(self.first + ((q * (self.t + 1) + lag) * self.b + i))
    }

    /// The draw of a word.
    fn draw(&self, place: usize) -> Gf256
        requires { place < self.now.draws.count }
        ensures { result ≡ nonzero_at (generator self.now.draws.seed) place }
    {
        Gf256::from(self.draws.get(place))
    }
}
