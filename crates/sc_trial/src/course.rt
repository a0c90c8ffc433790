//! A trial: a generated capture is protected, loses the generated loss, and is repaired, all in memory.
ghost use Rattle.std.specs.Prelude.{◌≡◌, ◌+◌, ◌*◌, ◌≤◌, drop, length, Ok, IfOk};
ghost use Rattle.sc_channel.specs.declared.flags.TheConstants.{MAX_FLAGS};
ghost use Rattle.sc_channel.specs.Channel.{IsChannel};
ghost use Rattle.sc_code.specs.Code.{IsCode};
ghost use Rattle.sc_matrix.specs.Layout.{cut};
ghost use Rattle.sc_matrix.specs.Module.{IsByte};
ghost use Rattle.sc_rtp.specs.Reading.{AreBytes};
ghost use Rattle.sc_slots.specs.Protected.{packet_len, protection_of};
ghost use Rattle.sc_trial.specs.Generated.{generated};
ghost use Rattle.sc_trial.specs.Trial.{IsTrial, TrialGives, trial_of};
ghost use Rattle.sc_trial.specs.TrialSteps.{ProtectsAs, ThinsAs, RepairsAs, back_count};

use super::capture::{MAX_SIZE, MIN_SIZE, gen_capture};
use super::loss::gen_loss;
use super::outcome::{Trial, TrialFault};
use sc_channel::Flags;
use sc_code::CodeFile;
use sc_outside::{GrowPort, NoMemory};
use sc_repair::repair_all;
use sc_rtpdump::{Dropped, drop_records};
use sc_slots::{protect_all, width};
use std::alloc::Global;

/// The most packets of a trial.
pub const MAX_TRIAL: u32 = 10_000;

/// The bytes of the standard preamble, of the head of a record, of the head of a protected packet, and the most of one.
const PREAMBLE_LEN: usize = 44;

const RECORD_HEAD: usize = 8;

const PACKET_HEAD: usize = 24;

const MAX_PACKET: usize = 65_527;

/// The generated capture of a seed, as bytes.
fn generate(alloc: Global, seed: u64, count: u32, size: u16) -> Result<Vec<u8>, NoMemory>
    requires count { count ≤ MAX_TRIAL }
    requires least { MIN_SIZE ≤ size }
    requires greatest { size ≤ MAX_SIZE }
    ensures { IfOk result (λ capture. capture.items ≡ generated seed count size) }
{
    let room = PREAMBLE_LEN + count as usize * (RECORD_HEAD + usize::from(size));
    let mut port = GrowPort::new(alloc, Vec::new(alloc), room)?;
    match gen_capture(alloc, seed, count, size, &mut port) {
        Ok(()) => Ok(port.into_given()),
        Err(_) => Err(NoMemory),
    }
}

/// The bytes of a protected packet.
fn packet_len(file: &CodeFile, size: u16) -> usize
    requires { size ≤ MAX_SIZE }
    ensures value { result ≡ packet_len (protection_of file.now size) }
    ensures bound { result ≤ 100000 }
{
    PACKET_HEAD + (file.code.k() + file.code.r()) * width(size, file.code.k())
}

/// The protected capture of a capture of so many records, as bytes, where a protected packet isn't too wide.
fn protect(
    alloc: Global,
    file: &CodeFile,
    count: u32,
    size: u16,
    capture: Vec<u8>,
) -> Result<Vec<u8>, NoMemory>
    requires count { count ≤ MAX_TRIAL }
    requires least { MIN_SIZE ≤ size }
    requires greatest { size ≤ MAX_SIZE }
    ensures { IfOk result (λ sent. ProtectsAs file.now size capture.items sent.items) }
{
    let slots = (count + file.channel.t()) as usize;
    let room = PREAMBLE_LEN + slots * (RECORD_HEAD + packet_len(file, size));
    let mut port = GrowPort::new(alloc, capture, room)?;
    match protect_all(alloc, file, size, &mut port) {
        Ok(_) => Ok(port.into_given()),
        Err(_) => Err(NoMemory),
    }
}

/// What a loss leaves of a protected capture, as bytes, and how many slots it lost.
fn lose(alloc: Global, flags: &Flags, sent: Vec<u8>) -> Result<(Vec<u8>, Dropped), NoMemory>
    requires { length flags.now ≤ MAX_FLAGS }
    ensures { IfOk result (λ left. ThinsAs flags.now sent.items left.0.items left.1) }
{
    let room = sent.len();
    let mut port = GrowPort::new(alloc, sent, room)?;
    match drop_records(alloc, &mut port, flags) {
        Ok(dropped) => Ok((port.into_given(), dropped)),
        Err(_) => Err(NoMemory),
    }
}

/// What repairing gives of what arrived, as bytes: at most so many.
fn repair(
    alloc: Global,
    file: &CodeFile,
    arrived: Vec<u8>,
    room: usize,
) -> Result<Vec<u8>, NoMemory>
    ensures { IfOk result (λ back. RepairsAs file.now arrived.items back.items) }
{
    let mut port = GrowPort::new(alloc, arrived, room)?;
    match repair_all(alloc, file, &mut port) {
        Ok(_) => Ok(port.into_given()),
        Err(_) => Err(NoMemory),
    }
}

/// How many of the `count` records of `len` bytes behind the preamble of a capture come back in another, in their order.
fn count_back(capture: &[u8], back: &[u8], count: u32, len: usize) -> u32
    requires room { PREAMBLE_LEN + count * len ≤ length capture.now }
    requires preamble { PREAMBLE_LEN ≤ length back.now }
    ensures value { result ≡ back_count (cut count len (drop PREAMBLE_LEN capture.now)) (drop PREAMBLE_LEN back.now) }
    ensures bound { result ≤ count }
{
    let mut left = &capture[PREAMBLE_LEN..];
    let mut rest = &back[PREAMBLE_LEN..];
    let mut equal = 0;
    for _ in 0..count {
        let (record, behind) = left.split_at(len);
        left = behind;
        if rest.starts_with(record) {
            rest = &rest[len..];
            equal += 1;
        }
    }
    equal
}

/// What is known of each code file and of each slice of bytes.
fn known(file: &CodeFile, bytes: &[u8])
    ensures code { IsCode IsByte file.now.code }
    ensures channel { IsChannel file.now.channel }
    ensures bytes { AreBytes bytes.now }
{
    file.code.k();
    file.channel.t();
}

/// The numbers of a trial whose protected packets aren't too wide.
fn try_code(
    alloc: Global,
    file: &CodeFile,
    seed: u64,
    count: u32,
    size: u16,
) -> Result<Trial, NoMemory>
    requires count { count ≤ MAX_TRIAL }
    requires least { MIN_SIZE ≤ size }
    requires greatest { size ≤ MAX_SIZE }
    requires narrow { packet_len (protection_of file.now size) ≤ MAX_PACKET }
    ensures { IfOk result (λ trial. trial_of file.now seed count size ≡ Ok trial) }
{
    let capture = generate(alloc, seed, count, size)?;
    let original = capture.to_vec(alloc)?;
    known(file, original.as_slice());
    let sent = protect(alloc, file, count, size, capture)?;
    let flags = gen_loss(alloc, seed, &file.channel, count + file.channel.t())?;
    let (arrived, dropped) = lose(alloc, &flags, sent)?;
    let back = repair(alloc, file, arrived, original.len())?;
    let len = RECORD_HEAD + usize::from(size);
    let equal = count_back(original.as_slice(), back.as_slice(), count, len);
    Ok(Trial {
        slots: dropped.records,
        lost: dropped.lost,
        equal,
        missed: count - equal,
    })
}

/// A trial of a code: the generated capture of a seed, with `count` packets of `size` bytes, is protected, the channel loses the
/// generated loss of the same seed, and what is left is repaired and compared with the capture, record by record. All is in
/// memory: about four captures and twice the protected one at most.
///
/// `TooWide` comes exactly where a protected packet would have more than 65,527 bytes.
pub fn trial(
    alloc: Global,
    file: &CodeFile,
    seed: u64,
    count: u32,
    size: u16,
) -> Result<Trial, TrialFault>
    requires count { count ≤ MAX_TRIAL }
    requires least { MIN_SIZE ≤ size }
    requires greatest { size ≤ MAX_SIZE }
    ensures gives { TrialGives file.now seed count size result }
    ensures recovered { IfOk result (IsTrial file.now seed count size) }
{
    let packet = packet_len(file, size);
    if packet > MAX_PACKET {
        return Err(TrialFault::TooWide(packet as u32));
    }
    match try_code(alloc, file, seed, count, size) {
        Ok(trial) => Ok(trial),
        Err(NoMemory) => Err(TrialFault::Memory),
    }
}
