//! Reading the next record of a capture, and writing a record.
ghost use Rattle.std.specs.Prelude.{◌≤◌, length, OnOk, OnErr};
ghost use Rattle.sc_outside.specs.declared.pending.TheConstants.Pending.{ROOM};
ghost use Rattle.sc_outside.specs.Whole.{PutsAll, WriteFailed};
ghost use Rattle.sc_rtpdump.specs.Record.{record_bytes};
ghost use Rattle.sc_rtpdump.specs.Next.{NextBehind, NextGives};

use super::fault::DumpFault;
use super::head::{HEAD, Head, read_head};
use super::record::{DumpRecord, MAX_BODY};
use sc_outside::{Failed, Pending, Port, write_whole};

/// Reads the next record into `rec`, and takes exactly its bytes; false at the end of the input. `index` is the record's
/// number, which a fault carries. After false or a fault `rec` is an empty record. It takes no memory.
///
/// `RecordHead` comes exactly where one to seven bytes are left, `RecordLength` exactly where the length is below 8, and
/// `Truncated` exactly where the input ends inside the body. `Read` comes only where a read failed, and then less than a
/// whole record was taken.
pub fn next_record<P: Port>(
    port: &mut P,
    index: u32,
    rec: &mut DumpRecord,
) -> Result<bool, DumpFault>
    ensures { NextGives index (P.told port.old) (P.told port.new) result rec.new }
{
    rec.clear();
    let Some(head) = read_head(port, index)? else {
        return Ok(false);
    };
    match rec.fill(port, head) {
        Ok(true) => Ok(true),
        Ok(false) => Err(DumpFault::Truncated(index)),
        Err(Failed) => Err(DumpFault::Read),
    }
}

/// Reads the next record as [`next_record`] does, while bytes wait to be written to the same port. What waits is written
/// where `room` more bytes don't fit behind it, and before a read that the port doesn't have at hand; `Failed` where that
/// write failed.
pub fn next_record_behind<P: Port>(
    port: &mut P,
    index: u32,
    rec: &mut DumpRecord,
    pending: &mut Pending,
    room: usize,
) -> Result<Result<bool, DumpFault>, Failed>
    requires { room ≤ ROOM }
    ensures { NextBehind index (P.told port.old) (P.told port.new) pending.old pending.new room result rec.new }
{
    rec.clear();
    pending.make_way(port, room, HEAD)?;
    let head = match read_head(port, index) {
        Ok(Some(head)) => head,
        Ok(None) => return Ok(Ok(false)),
        Err(fault) => return Ok(Err(fault)),
    };
    pending.make_way(port, room, usize::from(head.len) - HEAD)?;
    match rec.fill(port, head) {
        Ok(true) => Ok(Ok(true)),
        Ok(false) => Ok(Err(DumpFault::Truncated(index))),
        Err(Failed) => Ok(Err(DumpFault::Read)),
    }
}

/// Writes a record: its offset in milliseconds, the packet's true length, and the packet or its front. After `Failed` a
/// prefix of the record's bytes that isn't the whole was written.
pub fn write_record<P: Port>(
    port: &mut P,
    offset: u32,
    plen: u16,
    body: &[u8],
) -> Result<(), Failed>
    requires { length body.now ≤ MAX_BODY }
    ensures ok { OnOk result (PutsAll (P.told port.old) (P.told port.new)
        (record_bytes (record { plen = plen; offset = offset; body = body.now }))) }
    ensures err { OnErr result (WriteFailed (P.told port.old) (P.told port.new)
        (record_bytes (record { plen = plen; offset = offset; body = body.now }))) }
{
    let len = (HEAD + body.len()) as u16;
    let head = Head { len, plen, offset };
    write_whole(port, &head.to_bytes())?;
    write_whole(port, body)
}
