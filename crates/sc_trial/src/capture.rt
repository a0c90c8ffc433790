//! The generated capture.
ghost use Rattle.std.specs.Prelude.{◌≡◌, ◌+◌, ◌-◌, ◌<◌, ◌≤◌, ◌++◌, length, IfOk, OnOk, OnErr};
ghost use Rattle.rand_pcg.specs.Lcg.{advance};
ghost use Rattle.rand_pcg.specs.Pcg.{multiplier_64};
ghost use Rattle.sc_outside.specs.declared.pending.TheConstants.Pending.{ROOM};
ghost use Rattle.sc_outside.specs.Ends.{Ends};
ghost use Rattle.sc_outside.specs.Whole.{WriteFailed};
ghost use Rattle.sc_rtpdump.specs.Record.{record_bytes};
ghost use Rattle.sc_rtpdump.specs.Capture.{records_bytes};
ghost use Rattle.sc_trial.specs.Generated.{generated_record, generated_records, generating, GivesOrHolds, IsUnread};
ghost use Rattle.sc_trial.specs.declared.capture.TheConstants.{MAX_COUNT, MIN_SIZE, MAX_SIZE};

use super::draw::{SEQUENCE, draw};
use rand_pcg::Pcg32;
use sc_outside::{Failed, NoMemory, Pending, Port};
use sc_rtp::write_head;
use sc_rtpdump::Head;
use std::alloc::Global;
use std::error::Error;
use std::fmt;

/// The most records of a generated capture.
pub const MAX_COUNT: u32 = 3_999_960;

/// The least size of a generated packet, in bytes: that of the fixed head.
pub const MIN_SIZE: u16 = 12;

/// The greatest size of a generated packet, in bytes.
pub const MAX_SIZE: u16 = 1472;

/// The standard preamble: the line of port 5004 of 127.0.0.1, and 16 bytes with that address and port again.
const PREAMBLE: [u8; 44] =
    *b"#!rtpplay1.0 127.0.0.1/5004\n\x00\x00\x00\x00\x00\x00\x00\x00\x7f\x00\x00\x01\x13\x8c\x00\x00";

/// The synchronization source of each packet.
const SSRC: u32 = 0x1234_5678;

/// Milliseconds, and units of the timestamp at 8,000 a second, from one packet to the next.
const MILLISECONDS: u32 = 20;

const UNITS: u32 = 160;

/// Why a capture wasn't generated whole.
#[derive(Clone, Copy, Debug, PartialEq, Eq)]
pub enum GenFault {
    /// A write failed.
    Write,
    /// Memory ran out.
    Memory,
}

impl fmt::Display for GenFault {
    fn fmt<W: fmt::Write>(&self, f: &mut fmt::Formatter<W>) -> fmt::Result {
        match self {
            GenFault::Write => write!(f, "write fault"),
            GenFault::Memory => write!(f, "no memory"),
        }
    }
}

impl Error for GenFault {}

/// Puts the record of this number behind the bytes that wait. `drawn` is a buffer for its drawn bytes.
fn put_record(words: &mut Pcg32, index: u32, size: u16, drawn: &mut [u8], pending: &mut Pending)
    requires index { index < MAX_COUNT }
    requires least { MIN_SIZE ≤ size }
    requires greatest { size ≤ MAX_SIZE }
    requires drawn { length drawn.old ≡ size - 12 }
    requires room { length pending.old + (8 + size) ≤ ROOM }
    ensures waits { pending.new ≡ pending.old ++ record_bytes (generated_record words.old 0 size index) }
    ensures steps { words.new ≡ advance 64 multiplier_64 (size - 12) words.old }
{
    let head = Head {
        len: size + 8,
        plen: size,
        offset: MILLISECONDS * index,
    };
    let mut packet = [0; 12];
    write_head(&mut packet, 0, (index % 65_536) as u16, UNITS * index, SSRC);
    draw(words, drawn);
    pending.push(&head.to_bytes());
    pending.push(&packet);
    pending.push(drawn);
}

/// Puts the first `count` records behind the bytes that wait. What waits is written where there is no room for a further
/// record; `Failed` where that write failed. `drawn` is a buffer for the drawn bytes of a record.
fn put_records<P: Port>(
    words: &mut Pcg32,
    count: u32,
    size: u16,
    drawn: &mut [u8],
    pending: &mut Pending,
    port: &mut P,
) -> Result<(), Failed>
    requires count { count ≤ MAX_COUNT }
    requires least { MIN_SIZE ≤ size }
    requires greatest { size ≤ MAX_SIZE }
    requires drawn { length drawn.old ≡ size - 12 }
    ensures ok { OnOk result (GivesOrHolds (P.told port.old) (P.told port.new)
        (pending.old ++ records_bytes (generated_records words.old count size)) pending.new) }
    ensures err { OnErr result (WriteFailed (P.told port.old) (P.told port.new)
        (pending.old ++ records_bytes (generated_records words.old count size))) }
{
    for i in 0..count {
        pending.make_way(port, usize::from(size) + 8, 0)?;
        put_record(words, i, size, drawn, pending);
    }
    Ok(())
}

/// Writes the generated capture of a seed: the standard preamble, and `count` records of RTP packets of `size` bytes. It
/// reads nothing. It takes its memory, for the bytes that wait and those of one packet, before it writes, and answers
/// `Memory` then.
///
/// `Write` comes only where a write failed; then a prefix of the capture that isn't the whole was written.
pub fn gen_capture<P: Port>(
    alloc: Global,
    seed: u64,
    count: u32,
    size: u16,
    port: &mut P,
) -> Result<(), GenFault>
    requires count { count ≤ MAX_COUNT }
    requires least { MIN_SIZE ≤ size }
    requires greatest { size ≤ MAX_SIZE }
    ensures ends { Ends (generating seed count size) (P.told port.old) (P.told port.new) result }
    ensures unread { IsUnread (P.told port.old) (P.told port.new) }
{
    let Ok(mut pending) = Pending::new(alloc) else {
        return Err(GenFault::Memory);
    };
    let Ok(mut drawn) = zeros(alloc, usize::from(size - MIN_SIZE)) else {
        return Err(GenFault::Memory);
    };
    pending.push(&PREAMBLE);
    let mut words = Pcg32::new(seed, SEQUENCE);
    match put_records(&mut words, count, size, &mut drawn, &mut pending, port) {
        Ok(()) => {}
        Err(Failed) => return Err(GenFault::Write),
    }
    match pending.flush(port) {
        Ok(()) => Ok(()),
        Err(Failed) => Err(GenFault::Write),
    }
}

/// A buffer of so many bytes.
fn zeros(alloc: Global, len: usize) -> Result<Vec<u8>, NoMemory>
    ensures { IfOk result (λ bytes. length bytes.items ≡ len) }
{
    Ok(vec![in alloc; 0; len]?)
}
