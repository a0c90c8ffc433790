//! The candidates of each kind of maker.

ghost use Rattle.std.specs.Prelude.{◌≡◌, IfOk, IfErr};
ghost use Rattle.sc_channel.specs.Channel.{IsChannel};
ghost use Rattle.sc_optimal.specs.Candidates.{candidate, candidate_count, HasCandidates, IsMakeFault, burst_fault, wide_fault};

use crate::kind::{DesignFault, MakerKind};
use crate::optimal::optimal_candidate;
use sc_channel::Channel;
use sc_code::ByteCode;
use sc_layered::{WideFault, layered_candidate};
use sc_ms::{MakeFault, ms_code};
use std::alloc::Global;

/// How many candidates a kind has.
pub(crate) fn candidate_count(kind: MakerKind) -> u32
    ensures { result ≡ candidate_count kind }
{
    match kind {
        MakerKind::Ms => 1,
        MakerKind::Layered => 16,
        MakerKind::Optimal => 256,
    }
}

/// Candidate `c` of a kind for a channel.
pub(crate) fn candidate(
    alloc: Global,
    kind: MakerKind,
    channel: &Channel,
    c: u32,
) -> Result<ByteCode, DesignFault>
    ensures code { IfOk result (λ code. code ≡ candidate kind channel.now c) }
    ensures made { IfOk result (λ _. HasCandidates kind channel.now) }
    ensures fault { IfErr result (IsMakeFault kind channel.now) }
{
    match kind {
        MakerKind::Ms => burst(alloc, channel),
        MakerKind::Layered => layered(alloc, channel, c),
        MakerKind::Optimal => optimal(alloc, channel, c),
    }
}

/// The burst code.
fn burst(alloc: Global, channel: &Channel) -> Result<ByteCode, DesignFault>
    ensures code { IfOk result (λ code. code ≡ candidate MakerKind.Ms channel.now 0) }
    ensures made { IfOk result (λ _. HasCandidates MakerKind.Ms channel.now) }
    ensures fault { IfErr result (IsMakeFault MakerKind.Ms channel.now) }
{
    keep_limits(channel);
    match ms_code(alloc, channel) {
        Ok(code) => Ok(code),
        Err(fault) => Err(of_burst(fault)),
    }
}

/// A channel is within its limits.
fn keep_limits(channel: &Channel)
    ensures { IsChannel channel.now }
{
    let _n = channel.n();
}

/// A layered candidate.
fn layered(alloc: Global, channel: &Channel, c: u32) -> Result<ByteCode, DesignFault>
    ensures code { IfOk result (λ code. code ≡ candidate MakerKind.Layered channel.now c) }
    ensures made { IfOk result (λ _. HasCandidates MakerKind.Layered channel.now) }
    ensures fault { IfErr result (IsMakeFault MakerKind.Layered channel.now) }
{
    match layered_candidate(alloc, channel, c) {
        Ok(code) => Ok(code),
        Err(fault) => Err(of_width(fault)),
    }
}

/// A rate-optimal candidate.
fn optimal(alloc: Global, channel: &Channel, c: u32) -> Result<ByteCode, DesignFault>
    ensures code { IfOk result (λ code. code ≡ candidate MakerKind.Optimal channel.now c) }
    ensures made { IfOk result (λ _. HasCandidates MakerKind.Optimal channel.now) }
    ensures fault { IfErr result (IsMakeFault MakerKind.Optimal channel.now) }
{
    match optimal_candidate(alloc, channel, c) {
        Ok(code) => Ok(code),
        Err(fault) => Err(of_width(fault)),
    }
}

/// A fault of the burst code as one of a design.
fn of_burst(fault: MakeFault) -> DesignFault
    ensures { result ≡ burst_fault fault }
{
    match fault {
        MakeFault::NotBurst => DesignFault::NotBurst,
        MakeFault::TooWide(symbols) => DesignFault::TooWide(symbols),
        MakeFault::Memory => DesignFault::Memory,
    }
}

/// A fault of a candidate as one of a design.
fn of_width(fault: WideFault) -> DesignFault
    ensures { result ≡ wide_fault fault }
{
    match fault {
        WideFault::TooWide(symbols) => DesignFault::TooWide(symbols),
        WideFault::Memory => DesignFault::Memory,
    }
}
