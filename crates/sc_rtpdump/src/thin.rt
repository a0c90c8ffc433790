//! Thinning: a capture without the records that are lost.
ghost use Rattle.std.specs.Prelude.{◌≡◌, ◌+◌, ◌≤◌, Bool, List, [], length};
ghost use Rattle.sc_outside.specs.declared.pending.TheConstants.Pending.{ROOM};
ghost use Rattle.sc_outside.specs.Ends.{IsJob, Ends};
ghost use Rattle.sc_rtpdump.specs.Head.{IsHead};
ghost use Rattle.sc_rtpdump.specs.Record.{head_bytes};
ghost use Rattle.sc_rtpdump.specs.Thin.{BodyTaken, StepGives, RestGives, thinning};

use super::fault::DumpFault;
use super::head::{HEAD, Head, read_head};
use super::preamble::read_preamble;
use super::record::LONGEST;
use sc_channel::{Flags, MAX_FLAGS};
use sc_outside::{Failed, Pending, Port, write_whole};
use std::alloc::Global;
use std::error::Error;
use std::fmt;

/// What thinning did: the number of records, and how many of them are lost.
#[derive(Clone, Copy, Debug, PartialEq, Eq)]
pub struct Dropped {
    pub records: u32,
    pub lost: u32,
}

/// Why thinning ended early.
#[derive(Clone, Copy, Debug, PartialEq, Eq)]
pub enum DropFault {
    /// The capture wasn't read on.
    Dump(DumpFault),
    /// A whole record follows that of the last flag.
    More,
    /// The input ends after so many records, of which there are fewer than flags.
    Fewer(u32),
    /// A write failed.
    Write,
}

impl fmt::Display for DropFault {
    fn fmt<W: fmt::Write>(&self, f: &mut fmt::Formatter<W>) -> fmt::Result {
        match self {
            DropFault::Dump(fault) => write!(f, "{fault}"),
            DropFault::More => write!(f, "more records"),
            DropFault::Fewer(n) => write!(f, "records {n}"),
            DropFault::Write => write!(f, "write fault"),
        }
    }
}

impl Error for DropFault {}

/// Reads the body of a record whose head was read, and puts the record behind the bytes that wait unless it is lost.
fn take_body<P: Port>(
    port: &mut P,
    index: u32,
    lost: bool,
    head: Head,
    pending: &mut Pending,
) -> Result<bool, DumpFault>
    requires length { 8 ≤ head.len }
    requires fits { IsHead head }
    requires room { length pending.old + head.len ≤ ROOM }
    ensures { BodyTaken index lost head (P.told port.old) (P.told port.new) pending.old pending.new result }
{
    let kept = pending.len();
    pending.push(&head.to_bytes());
    match pending.take_in(port, usize::from(head.len) - HEAD) {
        Ok(true) => {
            if lost {
                pending.truncate(kept);
            }
            Ok(true)
        }
        Ok(false) => {
            pending.truncate(kept);
            Err(DumpFault::Truncated(index))
        }
        Err(Failed) => {
            pending.truncate(kept);
            Err(DumpFault::Read)
        }
    }
}

/// Takes the record of this number, and puts it behind the bytes that wait unless it is lost. False at the end of the
/// input. What waits is written where there is no more room, and before a read that would wait; `Failed` where that write
/// failed.
fn take_one<P: Port>(
    port: &mut P,
    index: u32,
    lost: bool,
    pending: &mut Pending,
) -> Result<Result<bool, DumpFault>, Failed>
    ensures { StepGives index lost (P.told port.old) (P.told port.new) pending.old pending.new result }
{
    pending.make_way(port, LONGEST, HEAD)?;
    let head = match read_head(port, index) {
        Ok(Some(head)) => head,
        Ok(None) => return Ok(Ok(false)),
        Err(fault) => return Ok(Err(fault)),
    };
    let len = usize::from(head.len);
    pending.make_way(port, len, len - HEAD)?;
    Ok(take_body(port, index, lost, head, pending))
}

/// Takes the records behind a preamble, to the end of the input. Those whose flag isn't set are written, but for those
/// that still wait then; `Failed` where a write failed.
fn take_rest<P: Port>(
    port: &mut P,
    flags: &[bool],
    pending: &mut Pending,
) -> Result<Result<Dropped, DropFault>, Failed>
    requires flags { length flags.now ≤ MAX_FLAGS }
    requires empty { pending.old ≡ [] }
    ensures { RestGives flags.now (P.told port.old) (P.told port.new) pending.new result }
{
    let mut lost = 0;
    for (i, flag) in flags.iter().enumerate() {
        match take_one(port, i as u32, *flag, pending)? {
            Ok(true) => {}
            Ok(false) => return Ok(Err(DropFault::Fewer(i as u32))),
            Err(fault) => return Ok(Err(DropFault::Dump(fault))),
        }
        if *flag {
            lost += 1;
        }
    }
    let records = flags.len() as u32;
    match take_one(port, records, true, pending)? {
        Ok(false) => Ok(Ok(Dropped { records, lost })),
        Ok(true) => Ok(Err(DropFault::More)),
        Err(fault) => Ok(Err(DropFault::Dump(fault))),
    }
}

/// Writes the preamble of a capture, and its records whose flag isn't set. It takes memory for a preamble and the bytes
/// that wait before it reads, and answers `Dump(Memory)` then.
///
/// Records that were read wait, and are written many at once: where no further one fits, before a read that the port
/// doesn't have at hand, and before the call ends.
///
/// `More` comes exactly where a whole record follows that of the last flag, and `Fewer`, with the number of records,
/// exactly where the input ends before; the faults of `Dump` as in [`read_preamble`] and [`crate::next_record`], and
/// `Write` only where a write failed. After a refusal that the input decides, and after a failed read, the preamble and the
/// records before it whose flag isn't set were written; after a failed write less.
pub fn drop_records<P: Port>(
    alloc: Global,
    port: &mut P,
    flags: &Flags,
) -> Result<Dropped, DropFault>
    requires { length flags.now ≤ MAX_FLAGS }
    ensures { Ends (thinning flags.now) (P.told port.old) (P.told port.new) result }
{
    let Ok(mut pending) = Pending::new(alloc) else {
        return Err(DropFault::Dump(DumpFault::Memory));
    };
    let preamble = match read_preamble(alloc, port) {
        Ok(preamble) => preamble,
        Err(fault) => return Err(DropFault::Dump(fault)),
    };
    let Ok(()) = write_whole(port, preamble.bytes()) else {
        return Err(DropFault::Write);
    };
    let Ok(end) = take_rest(port, flags.as_slice(), &mut pending) else {
        return Err(DropFault::Write);
    };
    match pending.flush(port) {
        Ok(()) => end,
        Err(Failed) => Err(DropFault::Write),
    }
}

/// What thinning gives grows with what it has read: what is due for some bytes is a prefix of what is due for all that go
/// on with them. It does nothing; its contract is the law.
pub fn thinning_is_a_job()
    ensures { (flags : List Bool) → IsJob (thinning flags) }
{}
