//! A record of a capture, in a buffer with room for every record.
ghost use Rattle.std.specs.Prelude.{◌≡◌, ◌≤◌, ◌<◌, ◌+◌, ◌-◌, ◌++◌, length, vec_len, take, drop, IfOk};
ghost use Rattle.sc_rtpdump.specs.Record.{IsRecord, empty_record, record_bytes, head_bytes};
ghost use Rattle.sc_rtpdump.specs.DumpRecord.{BodyGives, FillGives};
ghost use Rattle.sc_rtpdump.specs.Head.{IsHead};

use super::head::{HEAD, Head};
use sc_outside::{Failed, NoMemory, Port, read_exact_or_end};
use std::alloc::Global;
use std::marker::Model;

/// The longest record, in bytes: its length is a number of 16 bits.
pub(crate) const LONGEST: usize = 65_535;

/// The longest body of a record, in bytes: that of the longest record, without the eight bytes before it.
pub const MAX_BODY: usize = LONGEST - HEAD;

/// A record of a capture, with room for the longest body, of 65,527 bytes.
///
/// It has the packet's true length, which is 0 for RTCP, the offset in milliseconds since the start, and the body: the
/// packet, or its front.
#[derive(Debug, Drop)]
pub struct DumpRecord {
    plen: u16,
    offset: u32,
    len: usize,
    bytes: Vec<u8>,
}

impl Model for DumpRecord {
    ghost use Rattle.sc_rtpdump.specs.Record.{Record};

    ghost Value = { Record };

    ghost use Rattle.sc_rtpdump.specs.DumpRecord.{record_in, HoldsRecord};

    ghost view = { λ r. record_in r.plen r.offset r.len r.bytes.items };

    ghost invariant = { λ r. HoldsRecord r.plen r.offset r.len r.bytes.items };
}

/// A buffer of so many bytes.
pub(crate) fn zeros(alloc: Global, len: usize) -> Result<Vec<u8>, NoMemory>
    ensures { IfOk result (λ bytes. length bytes.items ≡ len) }
{
    Ok(vec![in alloc; 0; len]?)
}

/// Writes eight bytes over the front of a slice.
fn write_front(bytes: &mut [u8], front: &[u8; HEAD])
    requires { 8 ≤ length bytes.old }
    ensures { bytes.new ≡ front.now ++ drop 8 bytes.old }
{
    bytes[..HEAD].copy_from_slice(front);
}

/// Writes the head of a record over the front of a buffer.
fn set_head(bytes: &mut Vec<u8>, head: Head)
    requires { 8 ≤ vec_len bytes.old }
    ensures { bytes.new.items ≡ head_bytes head.len head.plen head.offset ++ drop 8 bytes.old.items }
{
    write_front(bytes, &head.to_bytes());
}

/// Reads the body of a record of `len` bytes into its place in a buffer. False where the input ends before it does.
fn read_body<P: Port>(port: &mut P, bytes: &mut Vec<u8>, len: usize) -> Result<bool, Failed>
    requires head { 8 ≤ len }
    requires room { len ≤ vec_len bytes.old }
    ensures size { vec_len bytes.new ≡ vec_len bytes.old }
    ensures front { take 8 bytes.new.items ≡ take 8 bytes.old.items }
    ensures gives { BodyGives (P.told port.old) (P.told port.new) (take (len - 8) (drop 8 bytes.new.items)) result }
{
    let n = read_exact_or_end(port, &mut bytes[HEAD..len])?;
    Ok(n == len - HEAD)
}

impl DumpRecord {
    /// An empty record. It reserves the room for every record.
    pub fn start(alloc: Global) -> Result<DumpRecord, NoMemory>
        ensures { IfOk result (λ rec. rec ≡ empty_record) }
    {
        let mut bytes = zeros(alloc, LONGEST)?;
        set_head(&mut bytes, Head::EMPTY);
        Ok(DumpRecord {
            plen: 0,
            offset: 0,
            len: HEAD,
            bytes,
        })
    }

    /// Makes the record empty.
    pub(crate) fn clear(&mut self)
        ensures { self.new ≡ empty_record }
    {
        set_head(&mut self.bytes, Head::EMPTY);
        self.plen = 0;
        self.offset = 0;
        self.len = HEAD;
    }

    /// Reads the body of an empty record whose head is known. False where the input ends before the body does; after
    /// that, and after `Failed`, the record is empty still.
    pub(crate) fn fill<P: Port>(&mut self, port: &mut P, head: Head) -> Result<bool, Failed>
        requires empty { self.old ≡ empty_record }
        requires length { 8 ≤ head.len }
        requires fits { IsHead head }
        ensures { FillGives (P.told port.old) (P.told port.new) head self.new result }
    {
        let len = usize::from(head.len);
        if !read_body(port, &mut self.bytes, len)? {
            return Ok(false);
        }
        set_head(&mut self.bytes, head);
        self.plen = head.plen;
        self.offset = head.offset;
        self.len = len;
        Ok(true)
    }

    /// Milliseconds since the capture's start.
    pub fn offset(&self) -> u32
        ensures { result ≡ self.now.offset }
    {
        self.offset
    }

    /// The packet's true length in bytes; 0 for RTCP.
    pub fn plen(&self) -> u16
        ensures { result ≡ self.now.plen }
    {
        self.plen
    }

    /// The packet, or its front.
    pub fn body(&self) -> &[u8]
        ensures { result.now ≡ self.now.body }
    {
        &self.bytes[HEAD..self.len]
    }

    /// The whole record as it stands in a capture.
    pub fn bytes(&self) -> &[u8]
        ensures bytes { result.now ≡ record_bytes self.now }
        ensures fits { IsRecord self.now }
    {
        &self.bytes[..self.len]
    }
}
