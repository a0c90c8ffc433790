//! Protecting a capture: its RTP records as the source slots of a stream, with a parity for each, and slots that flush the
//! last blocks out.
ghost use Rattle.std.specs.Prelude.{◌≡◌, ◌+◌, ◌-◌, ◌*◌, ◌<◌, ◌≤◌, ℕ, List, false, [], length, IfOk};
ghost use Rattle.sc_outside.specs.declared.pending.TheConstants.Pending.{ROOM};
ghost use Rattle.sc_outside.specs.Ends.{IsJob, Ends};
ghost use Rattle.sc_code.specs.declared.code.CodeFile.{CodeFile as CodeFileOf};
ghost use Rattle.sc_code.specs.Encoder.{StandsFor};
ghost use Rattle.sc_rtp.specs.Head.{head_of};
ghost use Rattle.sc_rtpdump.specs.Record.{IsRecord};
ghost use Rattle.sc_rtpdump.specs.Kind.{kind};
ghost use Rattle.sc_slots.specs.Protected.{IsOfInput, Protection, protecting, protecting_by, protection_of};
ghost use Rattle.sc_slots.specs.ProtectedLaws.{ProtectedAreCaptures, ProtectedAreCounted, ProtectedAreRtp, SlotsAreWellShaped};
ghost use Rattle.sc_slots.specs.ProtectSteps.{AreFew, Counts, FlushesGive, IsOf, Knows, LastGives, RecordsGive, RestGives, StepGives, fault_of, taken_of};

use super::framing::width;
use super::maker::{Label, SlotMaker};
use sc_code::{ByteCode, CodeFile};
use sc_outside::{Failed, NoMemory, Pending, Port, write_whole};
use sc_rtpdump::{DumpFault, DumpRecord, Kind, kind_of, next_record_behind, read_preamble};
use std::alloc::Global;
use std::error::Error;
use std::fmt;

#[cfg(test)]
mod tests;

/// The least size of a packet to protect, in bytes: that of the fixed head (RFC 3550, 5.1).
pub const MIN_SIZE: u16 = 12;

/// The greatest size of a packet to protect, in bytes.
pub const MAX_SIZE: u16 = 1472;

/// The most records of a capture.
const MAX_RECORDS: u32 = 8_000_000;

/// The most slots of a protected capture.
const MAX_SLOTS: u32 = 4_000_000;

/// The most bytes of a protected packet: the longest body of a record.
const MAX_PACKET: usize = 65_527;

/// The bytes of a protected packet before its block.
const PACKET_HEAD: usize = 24;

/// What protecting did: the number of slots that were written, those that flush the last blocks out among them, and how many
/// records of each other kind than RTP the capture has.
#[derive(Clone, Copy, Debug, PartialEq, Eq)]
pub struct Protected {
    pub slots: u32,
    pub rtcp: u32,
    pub cut: u32,
    pub strange: u32,
}

/// Why protecting ended early. Records are counted from 0.
#[derive(Clone, Copy, Debug, PartialEq, Eq)]
pub enum ProtectFault {
    /// A protected packet would have so many bytes, which are more than 65,527.
    TooWide(u32),
    /// The capture wasn't read on.
    Dump(DumpFault),
    /// A whole record follows 8,000,000 others.
    TooManyRecords,
    /// The packet of this record is longer than the greatest size.
    TooLong {
        /// The record's number among all records.
        index: u32,
        /// The packet's length in bytes.
        length: u32,
    },
    /// An RTP record more than there are slots for.
    TooManySlots,
    /// A write failed.
    Write,
    /// Memory ran out.
    Memory,
}

impl fmt::Display for ProtectFault {
    fn fmt<W: fmt::Write>(&self, f: &mut fmt::Formatter<W>) -> fmt::Result {
        match self {
            ProtectFault::TooWide(bytes) => write!(f, "packet {bytes}"),
            ProtectFault::Dump(fault) => write!(f, "{fault}"),
            ProtectFault::TooManyRecords => write!(f, "more than {MAX_RECORDS} records"),
            ProtectFault::TooLong { index, length } => write!(f, "record {index} packet {length}"),
            ProtectFault::TooManySlots => write!(f, "more than {MAX_SLOTS} slots"),
            ProtectFault::Write => write!(f, "write fault"),
            ProtectFault::Memory => write!(f, "no memory"),
        }
    }
}

impl Error for ProtectFault {}

impl ProtectFault {
    /// Why protecting ended where reading did.
    fn of(fault: DumpFault) -> ProtectFault
        ensures { result ≡ fault_of fault }
    {
        match fault {
            DumpFault::Memory => ProtectFault::Memory,
            _ => ProtectFault::Dump(fault),
        }
    }
}

/// How many records of each kind were taken, and the offset and RTP timestamp of the last RTP record, or 0.
#[derive(Clone, Copy, Debug, PartialEq, Eq)]
struct Taken {
    rtp: u32,
    rtcp: u32,
    cut: u32,
    strange: u32,
    offset: u32,
    timestamp: u32,
}

impl Taken {
    /// None.
    const NONE: Taken = Taken {
        rtp: 0,
        rtcp: 0,
        cut: 0,
        strange: 0,
        offset: 0,
        timestamp: 0,
    };
}

/// What protecting keeps from one record to the next.
#[derive(Drop)]
struct Protector {
    record: DumpRecord,
    taken: Taken,
    maker: SlotMaker,
    pending: Pending,
}

impl Protector {
    /// With no record taken. It takes the memory for a record, for the encoder and one slot, and for the bytes that wait.
    fn start(alloc: Global, code: &ByteCode, m: u16) -> Result<Protector, NoMemory>
        requires some { 1 ≤ m }
        requires limit { 24 + (code.now.k + code.now.r) * m ≤ 65527 }
        ensures empty { IfOk result (λ s. s.pending ≡ []) }
        ensures code { IfOk result (λ s. s.maker.code ≡ code.now) }
        ensures width { IfOk result (λ s. s.maker.width ≡ m) }
        ensures stands { IfOk result (λ s. StandsFor s.maker []) }
        ensures none { IfOk result (λ s. s.taken ≡ taken_of []) }
    {
        let pending = Pending::new(alloc)?;
        let record = DumpRecord::start(alloc)?;
        let maker = SlotMaker::start(alloc, code, m)?;
        Ok(Protector {
            record,
            taken: Taken::NONE,
            maker,
            pending,
        })
    }
}

/// The RTP timestamp of a packet: its bytes 4 to 7 (RFC 3550, 5.1).
#[tactic(auto, unfolding(sc_rtp::specs::Head::head_of))]
fn timestamp_of(packet: &[u8]) -> u32
    requires { 12 ≤ length packet.now }
    ensures { result ≡ (head_of packet.now).timestamp }
{
    u32::from_be_bytes([packet[4], packet[5], packet[6], packet[7]])
}

/// Puts the slot of an RTP record behind the bytes that wait, unless the record is refused.
#[tactic(auto, unfolding(crate::specs::Protected::refusal))]
fn put_source(
    file: &CodeFile,
    size: u16,
    index: u32,
    rec: &DumpRecord,
    taken: &mut Taken,
    maker: &mut SlotMaker,
    pending: &mut Pending,
) -> Result<(), ProtectFault>
    requires index { index < MAX_RECORDS }
    requires spelled { IsRecord rec.now }
    requires kind { kind rec.now ≡ Kind.Rtp }
    requires head { 12 ≤ length rec.now.body }
    requires few { AreFew index taken.old }
    requires of { IsOf (protection_of file.now size) maker.old }
    requires fits { size + 6 ≤ maker.old.code.k * maker.old.width }
    requires room { length pending.old + (32 + (maker.old.code.k + maker.old.code.r) * maker.old.width) ≤ ROOM }
    ensures { Counts (protection_of file.now size) index rec.now taken.old taken.new maker.old maker.new pending.old pending.new result }
{
    let packet = rec.body();
    if packet.len() > usize::from(size) {
        let length = packet.len() as u32;
        return Err(ProtectFault::TooLong { index, length });
    }
    if taken.rtp >= MAX_SLOTS - file.channel.t() {
        return Err(ProtectFault::TooManySlots);
    }
    let label = Label {
        number: taken.rtp,
        end: 0,
        timestamp: timestamp_of(packet),
        offset: rec.offset(),
    };
    maker.put_frame(&file.code, label, packet, pending);
    taken.rtp += 1;
    taken.timestamp = label.timestamp;
    taken.offset = label.offset;
    Ok(())
}

/// Counts a record, and puts its slot behind the bytes that wait where it is an RTP record, unless it is refused.
fn count_record(
    file: &CodeFile,
    size: u16,
    index: u32,
    rec: &DumpRecord,
    taken: &mut Taken,
    maker: &mut SlotMaker,
    pending: &mut Pending,
) -> Result<(), ProtectFault>
    requires index { index < MAX_RECORDS }
    requires spelled { IsRecord rec.now }
    requires few { AreFew index taken.old }
    requires of { IsOf (protection_of file.now size) maker.old }
    requires fits { size + 6 ≤ maker.old.code.k * maker.old.width }
    requires room { length pending.old + (32 + (maker.old.code.k + maker.old.code.r) * maker.old.width) ≤ ROOM }
    ensures { Counts (protection_of file.now size) index rec.now taken.old taken.new maker.old maker.new pending.old pending.new result }
{
    match kind_of(rec) {
        Kind::Rtcp => {
            taken.rtcp += 1;
            Ok(())
        }
        Kind::Cut => {
            taken.cut += 1;
            Ok(())
        }
        Kind::Strange => {
            taken.strange += 1;
            Ok(())
        }
        Kind::Rtp => put_source(file, size, index, rec, taken, maker, pending),
    }
}

/// Takes the record of this number. False at the end of the input; `Failed` where a write failed before a read.
fn take_one<P: Port>(
    port: &mut P,
    file: &CodeFile,
    size: u16,
    index: u32,
    state: &mut Protector,
) -> Result<Result<bool, ProtectFault>, Failed>
    requires index { index < MAX_RECORDS }
    requires few { AreFew index state.old.taken }
    requires of { IsOf (protection_of file.now size) state.old.maker }
    requires fits { size + 6 ≤ state.old.maker.code.k * state.old.maker.width }
    ensures { StepGives (protection_of file.now size) index (P.told port.old) (P.told port.new) state.old.taken state.new.taken
        state.old.maker state.new.maker state.old.pending state.new.pending result }
{
    let room = state.maker.slot_len();
    match next_record_behind(port, index, &mut state.record, &mut state.pending, room)? {
        Ok(true) => {}
        Ok(false) => return Ok(Ok(false)),
        Err(fault) => return Ok(Err(ProtectFault::Dump(fault))),
    }
    match count_record(
        file,
        size,
        index,
        &state.record,
        &mut state.taken,
        &mut state.maker,
        &mut state.pending,
    ) {
        Ok(()) => Ok(Ok(true)),
        Err(fault) => Ok(Err(fault)),
    }
}

/// Takes the records behind a preamble, to the end of the input. Their slots are written, but for those that still wait
/// then; `Failed` where a write failed.
fn take_records<P: Port>(
    port: &mut P,
    file: &CodeFile,
    size: u16,
    state: &mut Protector,
) -> Result<Result<(), ProtectFault>, Failed>
    requires empty { state.old.pending ≡ [] }
    requires none { Knows (protection_of file.now size) [] state.old.taken state.old.maker }
    requires of { IsOf (protection_of file.now size) state.old.maker }
    requires fits { size + 6 ≤ state.old.maker.code.k * state.old.maker.width }
    ensures { RecordsGive (protection_of file.now size) (P.told port.old) (P.told port.new) state.new.taken state.new.maker state.new.pending result }
{
    for index in 0..MAX_RECORDS {
        match take_one(port, file, size, index, state)? {
            Ok(true) => {}
            Ok(false) => return Ok(Ok(())),
            Err(fault) => return Ok(Err(fault)),
        }
    }
    let room = state.maker.slot_len();
    match next_record_behind(
        port,
        MAX_RECORDS,
        &mut state.record,
        &mut state.pending,
        room,
    )? {
        Ok(true) => Ok(Err(ProtectFault::TooManyRecords)),
        Ok(false) => Ok(Ok(())),
        Err(fault) => Ok(Err(ProtectFault::Dump(fault))),
    }
}

/// Puts the slots that flush the last blocks out behind the bytes that wait. What waits is written where there is no room
/// for a further one; `Failed` where that write failed.
fn put_flush<P: Port>(
    port: &mut P,
    file: &CodeFile,
    taken: &Taken,
    maker: &mut SlotMaker,
    pending: &mut Pending,
) -> Result<(), Failed>
    requires few { taken.now.rtp ≤ MAX_RECORDS }
    requires code { maker.old.code ≡ file.now.code }
    ensures { (p : Protection) → IsOf p maker.old → p.deadline ≡ file.now.channel.t
        → FlushesGive p (P.told port.old) (P.told port.new) taken.now maker.old pending.old pending.new result }
{
    let room = maker.slot_len();
    for j in 0..file.channel.t() {
        pending.make_way(port, room, 0)?;
        let label = Label {
            number: taken.rtp + j,
            end: (j + 1) as u8,
            timestamp: taken.timestamp,
            offset: taken.offset,
        };
        maker.put_blank(&file.code, label, pending);
    }
    Ok(())
}

/// Gives all that is left, once all records were taken.
fn put_last<P: Port>(
    port: &mut P,
    file: &CodeFile,
    state: &mut Protector,
) -> Result<Protected, ProtectFault>
    requires few { AreFew MAX_RECORDS state.old.taken }
    requires code { state.old.maker.code ≡ file.now.code }
    ensures { (p : Protection) → IsOf p state.old.maker → p.deadline ≡ file.now.channel.t
        → LastGives p (P.told port.old) (P.told port.new) state.old.taken state.old.maker state.old.pending result }
{
    let Ok(()) = put_flush(
        port,
        file,
        &state.taken,
        &mut state.maker,
        &mut state.pending,
    ) else {
        return Err(ProtectFault::Write);
    };
    let Ok(()) = state.pending.flush(port) else {
        return Err(ProtectFault::Write);
    };
    Ok(Protected {
        slots: state.taken.rtp + file.channel.t(),
        rtcp: state.taken.rtcp,
        cut: state.taken.cut,
        strange: state.taken.strange,
    })
}

/// Protects the records behind a preamble.
fn protect_rest<P: Port>(
    port: &mut P,
    file: &CodeFile,
    size: u16,
    state: &mut Protector,
) -> Result<Protected, ProtectFault>
    requires empty { state.old.pending ≡ [] }
    requires none { Knows (protection_of file.now size) [] state.old.taken state.old.maker }
    requires of { IsOf (protection_of file.now size) state.old.maker }
    requires fits { size + 6 ≤ state.old.maker.code.k * state.old.maker.width }
    ensures { RestGives (protection_of file.now size) (P.told port.old) (P.told port.new) result }
{
    let Ok(end) = take_records(port, file, size, state) else {
        return Err(ProtectFault::Write);
    };
    match end {
        Ok(()) => put_last(port, file, state),
        Err(fault) => match state.pending.flush(port) {
            Ok(()) => Err(fault),
            Err(Failed) => Err(ProtectFault::Write),
        },
    }
}

/// Protects a capture, with all that it takes to do so but the preamble.
fn protect_capture<P: Port>(
    alloc: Global,
    port: &mut P,
    file: &CodeFile,
    size: u16,
    state: &mut Protector,
) -> Result<Protected, ProtectFault>
    requires empty { state.old.pending ≡ [] }
    requires none { Knows (protection_of file.now size) [] state.old.taken state.old.maker }
    requires of { IsOf (protection_of file.now size) state.old.maker }
    requires fits { size + 6 ≤ state.old.maker.code.k * state.old.maker.width }
    ensures { Ends (protecting_by (protection_of file.now size)) (P.told port.old) (P.told port.new) result }
{
    let preamble = match read_preamble(alloc, port) {
        Ok(preamble) => preamble,
        Err(fault) => return Err(ProtectFault::of(fault)),
    };
    let Ok(()) = write_whole(port, preamble.bytes()) else {
        return Err(ProtectFault::Write);
    };
    protect_rest(port, file, size, state)
}

/// Protects a capture: writes its preamble, a source slot for each of its RTP records, and as many slots as the deadline of
/// the channel has, which flush the last blocks out. `size` is the greatest size of an RTP packet in bytes; it decides the
/// bytes of a symbol ([`width`]). It takes memory for a preamble, a record, the encoder and one slot, and for the bytes that
/// wait, before it reads, and answers `Memory` then.
///
/// Records that were read wait as slots, and are written many at once: where no further slot fits, before a read that the
/// port doesn't have at hand, and before the call ends.
///
/// `TooWide` comes exactly where a protected packet would have more than 65,527 bytes, before anything is read. The other
/// refusals come in the order of bytes: the faults of `Dump` as in [`read_preamble`] and [`sc_rtpdump::next_record`];
/// `TooManyRecords` exactly at a whole record behind 8,000,000 others, `TooLong` exactly at the first RTP record whose packet
/// is longer than `size`, and `TooManySlots` exactly at the RTP record with which there would be more than 4,000,000 slots,
/// those that flush among them. `Write` comes only where a write failed. After a refusal that the input decides, and after a
/// failed read, the preamble and the slots of the RTP records before it were written; after a failed write less.
pub fn protect_all<P: Port>(
    alloc: Global,
    file: &CodeFile,
    size: u16,
    port: &mut P,
) -> Result<Protected, ProtectFault>
    requires least { MIN_SIZE ≤ size }
    requires greatest { size ≤ MAX_SIZE }
    ensures ends { Ends (protecting file.now size) (P.told port.old) (P.told port.new) result }
    ensures untouched { (protecting file.now size).reads ≡ false → port.new ≡ port.old }
{
    let m = width(size, file.code.k());
    let packet = PACKET_HEAD + (file.code.k() + file.code.r()) * m;
    if packet > MAX_PACKET {
        return Err(ProtectFault::TooWide(packet as u32));
    }
    let Ok(mut state) = Protector::start(alloc, &file.code, m as u16) else {
        return Err(ProtectFault::Memory);
    };
    protect_capture(alloc, port, file, size, &mut state)
}

/// What protecting gives grows with what it has read: what is due for some bytes is a prefix of what is due for all that go
/// on with them. What the input decides is none of the answers of the outside. It does nothing; its contract is the law.
pub fn protecting_is_a_job()
    ensures grows { (file : CodeFileOf) (size : ℕ) → IsJob (protecting file size) }
    ensures decided { (file : CodeFileOf) (size : ℕ) (input : List ℕ) → IsOfInput ((protecting file size).whole input).answer }
{}

/// The protected capture of a capture none of whose records is refused is a capture: its preamble, and a record for each RTP
/// record and for each slot of the deadline, each of them an RTP packet and a well shaped slot. It does nothing; its
/// contract is the law.
pub fn protected_is_a_capture()
    ensures capture { ProtectedAreCaptures }
    ensures count { ProtectedAreCounted }
    ensures kind { ProtectedAreRtp }
    ensures shape { SlotsAreWellShaped }
{}
