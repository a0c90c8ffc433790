//! The first candidate of a kind that meets a channel.

ghost use Rattle.std.specs.Prelude.{◌≡◌, ◌⊎◌, ◌<◌, Err, IfOk, IfErr};
ghost use Rattle.sc_channel.specs.Channel.{IsChannel};
ghost use Rattle.sc_optimal.specs.Candidates.{candidate, candidate_count, HasCandidates};
ghost use Rattle.sc_optimal.specs.Design.{IsDesigned, IsRefusedFor, IsTried, IsSearched, first_from, design_of};

use crate::candidates::{candidate, candidate_count};
use crate::kind::{DesignFault, MakerKind};
use sc_channel::{Channel, Classes, loss_classes};
use sc_check::{Gate, Verdict, check};
use sc_code::{ByteCode, CodeFile};
use std::alloc::Global;
use std::thread::Threads;

/// How many workers check a candidate.
const WORKERS: u32 = 4;

/// A candidate that meets its channel.
#[derive(Drop)]
pub struct Found {
    /// Its number, counted from 0.
    pub candidate: u32,
    /// Its code.
    pub code: ByteCode,
}

/// The first candidate of a kind that meets the channel. Candidates are made and checked in order, each by 4 workers; for the
/// gate see [`check`].
///
/// In this order `NotBurst` where the kind is `Ms` and the channel's `n` is above 1, `TooWide` where the candidates have more
/// than 64 symbols, `TooManyClasses` where the channel has more than 1,000,000 classes, and `NoCode` where every candidate
/// fails.
pub fn first_good<R: Threads + Sync, G: Gate + Sync>(
    rt: &R,
    alloc: Global,
    kind: MakerKind,
    channel: &Channel,
    gate: &G,
) -> Result<Found, DesignFault>
    ensures found { IfOk result (IsDesigned kind channel.now) }
    ensures refused { IfErr result (IsRefusedFor kind channel.now) }
    ensures answer { (result ≡ Err DesignFault.Memory) ⊎ (result ≡ design_of kind channel.now) }
{
    match candidate(alloc, kind, channel, 0) {
        Ok(_first) => first_made(rt, alloc, kind, channel, gate),
        Err(fault) => Err(fault),
    }
}

/// The same where the kind has candidates for the channel.
fn first_made<R: Threads + Sync, G: Gate + Sync>(
    rt: &R,
    alloc: Global,
    kind: MakerKind,
    channel: &Channel,
    gate: &G,
) -> Result<Found, DesignFault>
    requires { HasCandidates kind channel.now }
    ensures found { IfOk result (IsDesigned kind channel.now) }
    ensures refused { IfErr result (IsRefusedFor kind channel.now) }
    ensures answer { (result ≡ Err DesignFault.Memory) ⊎ (result ≡ design_of kind channel.now) }
{
    match loss_classes(channel) {
        Ok(classes) => first_of(rt, alloc, kind, channel, &classes, gate),
        Err(many) => Err(DesignFault::TooManyClasses(many.count)),
    }
}

/// The same where the candidates can be checked.
fn first_of<R: Threads + Sync, G: Gate + Sync>(
    rt: &R,
    alloc: Global,
    kind: MakerKind,
    channel: &Channel,
    classes: &Classes,
    gate: &G,
) -> Result<Found, DesignFault>
    requires candidates { HasCandidates kind channel.now }
    requires classes { classes.now ≡ channel.now }
    ensures { IsSearched kind channel.now result }
{
    for c in 0..candidate_count(kind) {
        if let Some(code) = good_candidate(rt, alloc, kind, channel, classes, c, gate)? {
            return Ok(Found { candidate: c, code });
        }
    }
    Err(DesignFault::NoCode)
}

/// Candidate `c`, if it meets the channel.
fn good_candidate<R: Threads + Sync, G: Gate + Sync>(
    rt: &R,
    alloc: Global,
    kind: MakerKind,
    channel: &Channel,
    classes: &Classes,
    c: u32,
    gate: &G,
) -> Result<Option<ByteCode>, DesignFault>
    requires candidates { HasCandidates kind channel.now }
    requires classes { classes.now ≡ channel.now }
    ensures tried { IfOk result (IsTried kind channel.now c) }
    ensures fault { IfErr result (λ fault. fault ≡ DesignFault.Memory) }
{
    let code = candidate(alloc, kind, channel, c)?;
    let file = CodeFile {
        channel: *channel,
        code,
    };
    match check(rt, alloc, &file, classes, WORKERS, gate)? {
        Verdict::Meets => Ok(Some(file.code)),
        Verdict::Fails { .. } => Ok(None),
    }
}
