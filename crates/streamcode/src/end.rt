//! How a run ends: its status, its note, and the ends of the layers' faults.
ghost use Rattle.std.specs.Prelude.{◌≡◌, Err};
ghost use Rattle.streamcode.specs.End.{status_of, end_of_dump, end_of_drop, end_of_file, end_of_protect, end_of_repair, end_of_design};

use sc_codefile::FileFault;
use sc_optimal::DesignFault;
use sc_repair::{MAX_SLOTS, RepairEnd, Repaired, Unfit};
use sc_rtpdump::{DropFault, Dropped, DumpFault};
use sc_slots::{ProtectFault, Protected};
use sc_trial::Trial;

/// What a file is for.
#[derive(Clone, Copy, Debug, PartialEq, Eq)]
pub enum Role {
    /// A code, with its channel.
    Code,
    /// A certificate.
    Certificate,
    /// A loss.
    Loss,
}

/// How a run ends, by its cause. Commands share the ends that they have in common.
#[derive(Clone, Copy, Debug, PartialEq, Eq)]
pub enum End {
    /// The capture was thinned.
    Thinned(Dropped),
    /// A capture of so many records was generated.
    Generated(u32),
    /// The capture was protected.
    Protected(Protected),
    /// The protected capture was repaired, but for the slots that are missed.
    Repaired(Repaired),
    /// The standard certificate was given, whose bound is this number of kept slots over this period.
    Bound(u32, u32),
    /// The code file of the candidate of this number was given, whose code has blocks of so many symbols, and so many symbols with
    /// those of a parity.
    Designed(u32, u32, u32),
    /// A code was tried, but for packets that are missed.
    Tried(Trial),
    /// The code meets its channel, or the channel accepts the certificate.
    Accepted,
    /// The code doesn't meet its channel.
    Refused,
    /// The channel doesn't accept the certificate: this is the first residue from which its loss isn't admissible.
    CertificateRefused(u32),
    /// The loss isn't admissible: this window of it is the first that isn't fine.
    LossRefused(usize),
    /// The words have no form.
    Usage,
    /// The input isn't a capture.
    Capture(DumpFault),
    /// The loss has so many flags, and the capture more records than that.
    MoreRecords(u32),
    /// The loss has so many flags, and the capture so many records, which are fewer.
    FewerRecords(u32, u32),
    /// A file isn't of its form.
    FileRefused(Role, FileFault),
    /// A file has more bytes than the limit.
    FileTooLong(Role),
    /// A protected packet would have so many bytes, which are too many.
    PacketTooWide(u32),
    /// The RTP packet of the record with this index has so many bytes, which are more than the size.
    PacketTooLong(u32, u32),
    /// The capture has more records than the limit.
    TooManyRecords,
    /// A protected capture has more slots than the limit: it would have so many, or has a slot with this number.
    TooManySlots(u32),
    /// The codes of the kind would have so many symbols in a block and its parity, which are too many.
    TooManySymbols(u32),
    /// The record with this index is a protected packet of another code.
    WrongCode(u32),
    /// The record with this index is a protected packet whose numbers or length can't be.
    BadShape(u32),
    /// The symbols of the slot with this number have another width than those before it.
    OtherWidth(u32),
    /// The slot with this number doesn't fit the end that slots before it say.
    OtherEnd(u32),
    /// The block of the slot with this number is neither zero nor a frame.
    BadBlock(u32),
    /// No stream has the slot with this number and those that were taken before it.
    Clash(u32),
    /// No code of the kind was found: none of its candidates meets the channel, or it has none for it.
    NoCode,
    /// The channel has so many classes of losses, which are more than a check takes.
    TooManyClasses(u64),
    /// A read of the input failed, or a file wasn't fetched.
    ReadFault,
    /// A write of the output failed.
    WriteFault,
    /// Memory ran out.
    NoMemory,
}

impl End {
    /// The status with which the program ends: 0 done, 1 a code, a certificate or a loss was judged and refused, 2 no form of words, 3
    /// refused by a file or the input, 4 beyond a limit, 5 slots or packets are missed, 6 a slot contradicts those before it, 7 a read or a
    /// fetch failed, 8 a write failed, 9 no memory, 10 no code, 11 too many classes.
    pub fn status(&self) -> u8
        ensures { result ≡ status_of self.now }
    {
        match self {
            End::Thinned(_) | End::Generated(_) | End::Protected(_) => 0,
            End::Repaired(totals) => if totals.missed == 0 { 0 } else { 5 },
            End::Tried(tried) => if tried.missed == 0 { 0 } else { 5 },
            End::Bound(_, _) | End::Designed(_, _, _) | End::Accepted => 0,
            End::Refused | End::CertificateRefused(_) | End::LossRefused(_) => 1,
            End::Usage => 2,
            End::Capture(_) | End::MoreRecords(_) | End::FewerRecords(_, _) => 3,
            End::FileRefused(_, _) | End::WrongCode(_) | End::BadShape(_) => 3,
            End::OtherWidth(_) | End::OtherEnd(_) | End::BadBlock(_) => 3,
            End::FileTooLong(_) | End::PacketTooWide(_) | End::PacketTooLong(_, _) => 4,
            End::TooManyRecords | End::TooManySlots(_) | End::TooManySymbols(_) => 4,
            End::Clash(_) => 6,
            End::NoCode => 10,
            End::TooManyClasses(_) => 11,
            End::ReadFault => 7,
            End::WriteFault => 8,
            End::NoMemory => 9,
        }
    }

    /// The end of thinning a capture by so many flags.
    pub fn of_drop(outcome: Result<Dropped, DropFault>, flags: u32) -> End
        ensures { result ≡ end_of_drop flags outcome }
    {
        match outcome {
            Ok(dropped) => End::Thinned(dropped),
            Err(DropFault::Dump(fault)) => End::from(fault),
            Err(DropFault::More) => End::MoreRecords(flags),
            Err(DropFault::Fewer(records)) => End::FewerRecords(flags, records),
            Err(DropFault::Write) => End::WriteFault,
        }
    }

    /// The end at a fault of a file.
    pub fn of_file(role: Role, fault: FileFault) -> End
        ensures { result ≡ end_of_file role fault }
    {
        match fault {
            FileFault::Memory => End::NoMemory,
            other => End::FileRefused(role, other),
        }
    }

    /// The end at a fault of a design.
    pub fn of_design(fault: DesignFault) -> End
        ensures { result ≡ end_of_design fault }
    {
        match fault {
            DesignFault::NotBurst | DesignFault::NoCode => End::NoCode,
            DesignFault::TooWide(symbols) => End::TooManySymbols(symbols),
            DesignFault::TooManyClasses(count) => End::TooManyClasses(count),
            DesignFault::Memory => End::NoMemory,
        }
    }

    /// The end of protecting a capture.
    pub fn of_protect(outcome: Result<Protected, ProtectFault>) -> End
        ensures { result ≡ end_of_protect outcome }
    {
        match outcome {
            Ok(done) => End::Protected(done),
            Err(ProtectFault::TooWide(bytes)) => End::PacketTooWide(bytes),
            Err(ProtectFault::Dump(fault)) => End::from(fault),
            Err(ProtectFault::TooManyRecords) => End::TooManyRecords,
            Err(ProtectFault::TooLong { index, length }) => End::PacketTooLong(index, length),
            Err(ProtectFault::TooManySlots) => End::TooManySlots(MAX_SLOTS + 1),
            Err(ProtectFault::Write) => End::WriteFault,
            Err(ProtectFault::Memory) => End::NoMemory,
        }
    }

    /// The end of repairing a capture.
    pub fn of_repair(outcome: Result<Repaired, RepairEnd>) -> End
        ensures { result ≡ end_of_repair outcome }
    {
        match outcome {
            Ok(totals) => End::Repaired(totals),
            Err(RepairEnd::Dump(fault)) => End::from(fault),
            Err(RepairEnd::TooManyRecords) => End::TooManyRecords,
            Err(RepairEnd::WrongCode(index)) => End::WrongCode(index),
            Err(RepairEnd::BadShape(index)) => End::BadShape(index),
            Err(RepairEnd::TooManySlots(slot)) => End::TooManySlots(slot),
            Err(RepairEnd::Unfit(unfit)) => End::of_unfit(unfit),
            Err(RepairEnd::Clash(slot)) => End::Clash(slot),
            Err(RepairEnd::BadBlock(slot)) => End::BadBlock(slot),
            Err(RepairEnd::Write) => End::WriteFault,
            Err(RepairEnd::Memory) => End::NoMemory,
        }
    }

    /// The end at a slot that doesn't fit those before it.
    fn of_unfit(unfit: Unfit) -> End
        ensures { result ≡ end_of_repair (Err (RepairEnd.Unfit unfit)) }
    {
        match unfit {
            Unfit::OtherWidth { slot, .. } => End::OtherWidth(slot),
            Unfit::OtherEnd { slot, .. } => End::OtherEnd(slot),
        }
    }
}

impl From<DumpFault> for End {
    ghost from_gives = { λ fault end. end ≡ end_of_dump fault };

    fn from(fault: DumpFault) -> End {
        match fault {
            DumpFault::Read => End::ReadFault,
            DumpFault::Memory => End::NoMemory,
            other => End::Capture(other),
        }
    }
}
