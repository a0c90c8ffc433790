//! Repair of a capture of protected packets.
ghost use Rattle.std.specs.Prelude.{◌≡◌, ◌+◌, ◌*◌, ◌<◌, ◌≤◌, ◌∷◌, ◌++◌, [], ℕ, List, false, length, None, IfOk, IsErr};
ghost use Rattle.sc_outside.specs.Ends.{Ends};
ghost use Rattle.sc_rtpdump.specs.Record.{Record};
ghost use Rattle.sc_code.specs.declared.code.CodeFile.{CodeFile as CodeFileOf};
ghost use Rattle.sc_rtp.specs.Reading.{AreBytes};
ghost use Rattle.sc_slots.specs.Answers.{reading, slot_in};
ghost use Rattle.sc_slots.specs.Slot.{IsSlot, Slot as SlotOf, SlotIsWellShaped};
ghost use Rattle.sc_slots.specs.Taken.{Taken, taken_slot};
ghost use Rattle.sc_repair.specs.Prompt.{IsPrompt};
ghost use Rattle.sc_repair.specs.Repairer.{FitsEnd};
ghost use Rattle.sc_repair.specs.Repairing.{read_as, repairing, width_in};
ghost use Rattle.sc_repair.specs.RepairSteps.{AreFew, ComesCounts, ComesIn, IsGoing, IsFewOf, IsReady, IsSet, Keeps, Knows, LastGives, LeftGives, PassCounts, PassGives, PlaceCounts, PlaceGives, RecordCounts, RecordGives, RecordsGive, RestGives, Rests, Resumes, SlotCounts, SlotGives, TakeCounts, TakeGives, fault_of, no_counts};

use super::put::put_all;
use super::repairer::{MAX_SLOTS, Repairer, Unfit};
use sc_code::CodeFile;
use sc_outside::{Failed, NoMemory, Pending, Port, write_whole};
use sc_rtpdump::{DumpFault, DumpRecord, next_record, read_preamble};
use sc_slots::{Slot, SlotReading, read_slot};
use std::alloc::Global;
use std::error::Error;
use std::fmt;

#[cfg(test)]
mod tests;

/// The most records of a protected capture.
pub const MAX_RECORDS: u32 = 8_000_000;

/// What a whole capture of protected packets came to.
#[derive(Clone, Copy, Debug, PartialEq, Eq)]
pub struct Repaired {
    /// The known end: how many source slots there are, as far as what arrived says.
    pub end: u32,
    /// The slots below the known end that aren't recovered.
    pub missed: u32,
    /// The records that are no protected packets.
    pub strangers: u32,
    /// The slots that came behind one of their number or a greater one.
    pub repeats: u32,
}

/// Why repairing a capture ends before it is whole.
#[derive(Clone, Copy, Debug, PartialEq, Eq)]
pub enum RepairEnd {
    /// The capture isn't one, or it couldn't be read.
    Dump(DumpFault),
    /// It has more than [`MAX_RECORDS`] records.
    TooManyRecords,
    /// This record is a protected packet of another code.
    WrongCode(u32),
    /// This record is a protected packet whose numbers or length can't be.
    BadShape(u32),
    /// A slot has this number, which is beyond the limit.
    TooManySlots(u32),
    /// A slot doesn't fit those before it.
    Unfit(Unfit),
    /// No stream has this slot and all taken ones.
    Clash(u32),
    /// The block of this slot is neither zero nor a frame.
    BadBlock(u32),
    /// The output couldn't be written.
    Write,
    /// There is no memory for the repairer.
    Memory,
}

impl fmt::Display for RepairEnd {
    fn fmt<W: fmt::Write>(&self, f: &mut fmt::Formatter<W>) -> fmt::Result {
        match self {
            RepairEnd::Dump(fault) => fault.fmt(f),
            RepairEnd::TooManyRecords => write!(f, "there are more than {MAX_RECORDS} records"),
            RepairEnd::WrongCode(index) => write!(f, "record {index} is of another code"),
            RepairEnd::BadShape(index) => write!(f, "record {index} is not well shaped"),
            RepairEnd::TooManySlots(slot) => write!(f, "slot {slot} is beyond the limit"),
            RepairEnd::Unfit(Unfit::OtherWidth { slot, .. }) => {
                write!(f, "slot {slot} has symbols of another width")
            }
            RepairEnd::Unfit(Unfit::OtherEnd { slot, .. }) => {
                write!(f, "slot {slot} claims another end")
            }
            RepairEnd::Clash(slot) => write!(f, "slot {slot} contradicts the slots before it"),
            RepairEnd::BadBlock(slot) => write!(f, "slot {slot} holds no packet"),
            RepairEnd::Write => write!(f, "the output could not be written"),
            RepairEnd::Memory => write!(f, "there is no memory"),
        }
    }
}

impl Error for RepairEnd {}

impl RepairEnd {
    /// Why repairing ended where reading a preamble did.
    fn of(fault: DumpFault) -> RepairEnd
        ensures { result ≡ fault_of fault }
    {
        match fault {
            DumpFault::Memory => RepairEnd::Memory,
            _ => RepairEnd::Dump(fault),
        }
    }
}

/// What is counted from one record to the next.
#[derive(Clone, Copy, Debug, PartialEq, Eq)]
struct Counts {
    missed: u32,
    strangers: u32,
    repeats: u32,
}

impl Counts {
    /// With the known end.
    fn with_end(self, end: u32) -> Repaired
        ensures { result ≡ record { end = end; missed = self.missed; strangers = self.strangers; repeats = self.repeats } }
    {
        Repaired {
            end,
            missed: self.missed,
            strangers: self.strangers,
            repeats: self.repeats,
        }
    }
}

/// Passes the lost slots before this number, and puts out what can be then. It answers the slot of the first block that is
/// neither zero nor a frame.
fn pass_to<P: Port>(
    repairer: &mut Repairer,
    number: u32,
    port: &mut P,
    pending: &mut Pending,
    missed: &mut u32,
) -> Result<Option<u32>, Failed>
    requires goes_on { repairer.old.finished ≡ false }
    requires near { repairer.old.passed ≤ repairer.old.next + repairer.old.deadline }
    requires few { missed.old ≤ repairer.old.next }
    requires order { repairer.old.passed ≤ number }
    requires limit { number < MAX_SLOTS }
    ensures gives { (taken : List (Taken ℕ)) (text : List ℕ) → IsReady repairer.old taken missed.old text
        → PassGives number (P.told port.old) (P.told port.new) pending.old pending.new repairer.old repairer.new taken missed.new text result }
    ensures counts { PassCounts number repairer.old repairer.new missed.new result }
{
    for _slot in repairer.passed()..number {
        repairer.pass_lost();
        match put_all(repairer, port, pending, missed)? {
            None => {}
            Some(bad) => return Ok(Some(bad)),
        }
    }
    Ok(None)
}

/// Takes a slot that fits, behind the lost ones before it, and puts out what can be then.
fn take_slot<P: Port>(
    file: &CodeFile,
    repairer: &mut Repairer,
    slot: &Slot<'_>,
    port: &mut P,
    pending: &mut Pending,
    missed: &mut u32,
) -> Result<Result<(), RepairEnd>, Failed>
    requires set { IsSet file.now repairer.old missed.old }
    requires order { repairer.old.passed ≤ slot.now.number }
    requires limit { slot.now.number < MAX_SLOTS }
    requires end { slot.now.end ≤ slot.now.number + 1 }
    requires fits { FitsEnd repairer.old.is_claimed repairer.old.end slot.now.number slot.now.end }
    requires width { slot.now.m ≡ repairer.old.m }
    requires block { length slot.now.block.now ≡ file.now.code.k * slot.now.m }
    requires parity { length slot.now.parity.now ≡ file.now.code.r * slot.now.m }
    ensures gives { (taken : List (Taken ℕ)) (text : List ℕ) → IsReady repairer.old taken missed.old text
        → SlotGives file.now repairer.old repairer.new taken (taken_slot file.now.code (slot_in slot.now)) (P.told port.old) (P.told port.new) pending.old pending.new missed.new text result }
    ensures counts { SlotCounts file.now slot.now.number repairer.old repairer.new missed.new result }
{
    match pass_to(repairer, slot.number, port, pending, missed)? {
        None => {}
        Some(bad) => return Ok(Err(RepairEnd::BadBlock(bad))),
    }
    match repairer.take_own(&file.code, slot) {
        Ok(()) => {}
        Err(_) => return Ok(Err(RepairEnd::Clash(slot.number))),
    }
    match put_all(repairer, port, pending, missed)? {
        None => Ok(Ok(())),
        Some(bad) => Ok(Err(RepairEnd::BadBlock(bad))),
    }
}

/// Takes a slot behind those before it, or counts it where it repeats.
fn place_slot<P: Port>(
    file: &CodeFile,
    repairer: &mut Repairer,
    slot: &Slot<'_>,
    port: &mut P,
    pending: &mut Pending,
    counts: &mut Counts,
) -> Result<Result<(), RepairEnd>, Failed>
    requires set { IsSet file.now repairer.old counts.old.missed }
    requires few { counts.old.repeats < MAX_RECORDS }
    requires limit { slot.now.number < MAX_SLOTS }
    requires slot { IsSlot file.now.code.k file.now.code.r file.now.channel.t (slot_in slot.now) }
    ensures gives { (slots : List SlotOf) (text : List ℕ) → Rests file.now slots repairer.old counts.old.missed text
        → width_in (slots ++ slot_in slot.now ∷ []) ≡ repairer.old.m
        → PlaceGives file.now repairer.old repairer.new slots (slot_in slot.now) (P.told port.old) (P.told port.new) pending.old pending.new counts.new.missed text result }
    ensures counts { PlaceCounts file.now repairer.old repairer.new (slot_in slot.now) counts.old counts.new result }
{
    if slot.number < repairer.passed() {
        counts.repeats += 1;
        return Ok(Ok(()));
    }
    match repairer.fits(slot) {
        Ok(()) => take_slot(file, repairer, slot, port, pending, &mut counts.missed),
        Err(unfit) => Ok(Err(RepairEnd::Unfit(unfit))),
    }
}

/// The repairer that is kept, or a new one, whose symbols have `m` bytes.
fn resume(
    alloc: Global,
    file: &CodeFile,
    m: u16,
    kept: Option<Repairer>,
    counts: &Counts,
) -> Result<Repairer, NoMemory>
    requires going { IsGoing file.now kept counts.now }
    requires some { 1 ≤ m }
    requires small { file.now.code.k * m ≤ 65503 }
    ensures set { IfOk result (λ s. IsSet file.now s counts.now.missed) }
    ensures resumes { IfOk result (λ s. Resumes file.now kept counts.now.missed m s) }
    ensures none { IsErr result → kept ≡ None }
{
    match kept {
        Some(repairer) => Ok(repairer),
        None => Repairer::start_by(alloc, &file.code, file.channel.t(), m),
    }
}

/// Takes a slot. The first one starts the repairer, whose symbols have as many bytes as its own.
fn come_in<P: Port>(
    alloc: Global,
    file: &CodeFile,
    kept: &mut Option<Repairer>,
    slot: &Slot<'_>,
    port: &mut P,
    pending: &mut Pending,
    counts: &mut Counts,
) -> Result<Result<(), RepairEnd>, Failed>
    requires going { IsGoing file.now kept.old counts.old }
    requires few { counts.old.repeats < MAX_RECORDS }
    requires slot { IsSlot file.now.code.k file.now.code.r file.now.channel.t (slot_in slot.now) }
    ensures gives { (slots : List SlotOf) (text : List ℕ) → Keeps file.now slots kept.old counts.old.missed text
        → ComesIn file.now slots (slot_in slot.now) kept.new (P.told port.old) (P.told port.new) pending.old pending.new counts.new.missed text result }
    ensures counts { ComesCounts file.now (slot_in slot.now) kept.old kept.new counts.old counts.new result }
{
    if slot.number >= MAX_SLOTS {
        return Ok(Err(RepairEnd::TooManySlots(slot.number)));
    }
    let Ok(mut repairer) = resume(alloc, file, slot.m, kept.take(), counts) else {
        return Ok(Err(RepairEnd::Memory));
    };
    let end = place_slot(file, &mut repairer, slot, port, pending, counts)?;
    *kept = Some(repairer);
    Ok(end)
}

/// Bytes are below 256. It does nothing.
fn are_bytes(bytes: &[u8])
    ensures { AreBytes bytes.now }
{}

/// Reads a record.
fn read<'a>(file: &CodeFile, rec: &'a DumpRecord) -> SlotReading<'a>
    ensures reads { read_as file.now rec.now ≡ reading result }
    ensures slot { SlotIsWellShaped file.now.code.k file.now.code.r file.now.channel.t rec.now (reading result) }
{
    are_bytes(rec.body());
    read_slot(rec, file.code.k(), file.code.r(), file.channel.t())
}

/// Takes a record: what it is read as, and what follows from that.
fn take_record<P: Port>(
    alloc: Global,
    file: &CodeFile,
    index: u32,
    rec: &DumpRecord,
    kept: &mut Option<Repairer>,
    port: &mut P,
    pending: &mut Pending,
    counts: &mut Counts,
) -> Result<Result<(), RepairEnd>, Failed>
    requires index { index < MAX_RECORDS }
    requires going { IsGoing file.now kept.old counts.old }
    requires few { AreFew index counts.old }
    ensures gives { (records : List Record) → length records ≡ index → Knows file.now records kept.old counts.old
        → RecordGives file.now records rec.now (P.told port.old) (P.told port.new) pending.old pending.new kept.new counts.new result }
    ensures counts { RecordCounts file.now index kept.new counts.new result }
{
    match read(file, rec) {
        SlotReading::Stranger => {
            counts.strangers += 1;
            Ok(Ok(()))
        }
        SlotReading::WrongCode => Ok(Err(RepairEnd::WrongCode(index))),
        SlotReading::BadShape => Ok(Err(RepairEnd::BadShape(index))),
        SlotReading::Slot(slot) => come_in(alloc, file, kept, &slot, port, pending, counts),
    }
}

/// What repairing keeps from one record to the next.
#[derive(Drop)]
struct Repair {
    record: DumpRecord,
    pending: Pending,
    kept: Option<Repairer>,
    counts: Counts,
}

impl Repair {
    /// With no record taken. It takes the memory for a record and for the bytes that wait.
    fn start(alloc: Global) -> Result<Repair, NoMemory>
        ensures empty { IfOk result (λ s. s.pending ≡ []) }
        ensures none { IfOk result (λ s. s.kept ≡ None) }
        ensures zero { IfOk result (λ s. s.counts ≡ no_counts) }
    {
        let pending = Pending::new(alloc)?;
        let record = DumpRecord::start(alloc)?;
        Ok(Repair {
            record,
            pending,
            kept: None,
            counts: Counts {
                missed: 0,
                strangers: 0,
                repeats: 0,
            },
        })
    }
}

/// Reads the record of this number and takes it: all that is due then is written before the call ends. False at the end of
/// the input.
fn take_one<P: Port>(
    alloc: Global,
    port: &mut P,
    file: &CodeFile,
    index: u32,
    state: &mut Repair,
) -> Result<bool, RepairEnd>
    requires index { index < MAX_RECORDS }
    requires empty { state.old.pending ≡ [] }
    requires going { IsGoing file.now state.old.kept state.old.counts }
    requires few { AreFew index state.old.counts }
    ensures empty { IfOk result (λ _. state.new.pending ≡ []) }
    ensures gives { (records : List Record) → length records ≡ index → Knows file.now records state.old.kept state.old.counts
        → TakeGives file.now records (P.told port.old) (P.told port.new) state.old.kept state.new.kept state.old.counts state.new.counts result }
    ensures counts { TakeCounts file.now index state.new.kept state.new.counts result }
{
    match next_record(port, index, &mut state.record) {
        Ok(true) => {}
        Ok(false) => return Ok(false),
        Err(fault) => return Err(RepairEnd::Dump(fault)),
    }
    let Ok(end) = take_record(
        alloc,
        file,
        index,
        &state.record,
        &mut state.kept,
        port,
        &mut state.pending,
        &mut state.counts,
    ) else {
        return Err(RepairEnd::Write);
    };
    let Ok(()) = state.pending.flush(port) else {
        return Err(RepairEnd::Write);
    };
    match end {
        Ok(()) => Ok(true),
        Err(fault) => Err(fault),
    }
}

/// Takes the records behind a preamble, to the end of the input.
fn take_records<P: Port>(
    alloc: Global,
    port: &mut P,
    file: &CodeFile,
    state: &mut Repair,
) -> Result<(), RepairEnd>
    requires empty { state.old.pending ≡ [] }
    requires none { state.old.kept ≡ None }
    requires zero { state.old.counts ≡ no_counts }
    ensures empty { IfOk result (λ _. state.new.pending ≡ []) }
    ensures gives { RecordsGive file.now (P.told port.old) (P.told port.new) state.new.kept state.new.counts result }
    ensures going { IfOk result (λ _. IsGoing file.now state.new.kept state.new.counts) }
{
    for index in 0..MAX_RECORDS {
        if !take_one(alloc, port, file, index, state)? {
            return Ok(());
        }
    }
    match next_record(port, MAX_RECORDS, &mut state.record) {
        Ok(true) => Err(RepairEnd::TooManyRecords),
        Ok(false) => Ok(()),
        Err(fault) => Err(RepairEnd::Dump(fault)),
    }
}

/// Puts out the last slots of a repairer, and answers the known end.
fn put_left<P: Port>(
    repairer: &mut Repairer,
    port: &mut P,
    pending: &mut Pending,
    missed: &mut u32,
) -> Result<u32, RepairEnd>
    requires empty { pending.old ≡ [] }
    requires few { missed.old ≤ repairer.old.next }
    ensures { (file : CodeFileOf) (slots : List SlotOf) (text : List ℕ) → IsSet file repairer.old missed.old → Rests file slots repairer.old missed.old text → width_in slots ≡ repairer.old.m
        → LeftGives file slots (P.told port.old) (P.told port.new) text missed.new result }
{
    let end = repairer.finish();
    let Ok(all) = put_all(repairer, port, pending, missed) else {
        return Err(RepairEnd::Write);
    };
    let Ok(()) = pending.flush(port) else {
        return Err(RepairEnd::Write);
    };
    match all {
        None => Ok(end),
        Some(slot) => Err(RepairEnd::BadBlock(slot)),
    }
}

/// Puts out the last slots, once all records were taken.
fn put_last<P: Port>(port: &mut P, state: &mut Repair) -> Result<Repaired, RepairEnd>
    requires empty { state.old.pending ≡ [] }
    requires few { IsFewOf state.old.kept state.old.counts.missed }
    ensures { (file : CodeFileOf) (records : List Record) → IsGoing file state.old.kept state.old.counts → Knows file records state.old.kept state.old.counts
        → LastGives file records (P.told port.old) (P.told port.new) result }
{
    match &mut state.kept {
        None => Ok(state.counts.with_end(0)),
        Some(repairer) => {
            let end = put_left(repairer, port, &mut state.pending, &mut state.counts.missed)?;
            Ok(state.counts.with_end(end))
        }
    }
}

/// Repairs a capture, with what it takes to do so but the preamble and the repairer.
fn repair_capture<P: Port>(
    alloc: Global,
    port: &mut P,
    file: &CodeFile,
    state: &mut Repair,
) -> Result<Repaired, RepairEnd>
    requires empty { state.old.pending ≡ [] }
    requires none { state.old.kept ≡ None }
    requires zero { state.old.counts ≡ no_counts }
    ensures ends { Ends (repairing file.now) (P.told port.old) (P.told port.new) result }
    ensures prompt { IsPrompt (repairing file.now) (P.told port.old) (P.told port.new) }
{
    let preamble = match read_preamble(alloc, port) {
        Ok(preamble) => preamble,
        Err(fault) => return Err(RepairEnd::of(fault)),
    };
    let Ok(()) = write_whole(port, preamble.bytes()) else {
        return Err(RepairEnd::Write);
    };
    repair_rest(alloc, port, file, state)
}

/// Repairs the records behind a preamble.
fn repair_rest<P: Port>(
    alloc: Global,
    port: &mut P,
    file: &CodeFile,
    state: &mut Repair,
) -> Result<Repaired, RepairEnd>
    requires empty { state.old.pending ≡ [] }
    requires none { state.old.kept ≡ None }
    requires zero { state.old.counts ≡ no_counts }
    ensures { RestGives file.now (P.told port.old) (P.told port.new) result }
{
    take_records(alloc, port, file, state)?;
    put_last(port, state)
}

/// Repairs a capture of protected packets: writes its preamble, and the packets of the blocks that what arrives determines,
/// each as soon as it is determined and before any byte of a later record is read.
///
/// It takes memory for a preamble, a record and the bytes that wait before it reads, and for the [`Repairer`] at the first
/// slot; `Memory` comes only where that isn't there, and then no more than the preamble was written.
///
/// The refusals come in the order of records, and within a record in this order: `Dump` as in [`read_preamble`] and
/// [`sc_rtpdump::next_record`]; `TooManyRecords` exactly at a record behind 8,000,000 others; `WrongCode` and `BadShape` as in
/// [`sc_slots::read_slot`]; `TooManySlots` exactly at a slot numbered 4,000,000 or more; `Unfit` as in [`Repairer::fits`];
/// `BadBlock` exactly where the next slot to be put out is neither zero nor a frame; `Clash` exactly where no stream has this
/// slot and all taken ones. A slot with the number of one passed before it is counted as a repeat, whatever it says. `Write`
/// comes only where a write failed. After a refusal all that was put out before it was written; after a failed write less.
pub fn repair_all<P: Port>(
    alloc: Global,
    file: &CodeFile,
    port: &mut P,
) -> Result<Repaired, RepairEnd>
    ensures ends { Ends (repairing file.now) (P.told port.old) (P.told port.new) result }
    ensures prompt { IsPrompt (repairing file.now) (P.told port.old) (P.told port.new) }
{
    let Ok(mut state) = Repair::start(alloc) else {
        return Err(RepairEnd::Memory);
    };
    repair_capture(alloc, port, file, &mut state)
}
