//! Protected packets: how a slot stands in an RTP packet and in a record of a capture.
ghost use Rattle.std.specs.Prelude.{◌≡◌, ◌+◌, ◌*◌, ◌<◌, ◌≤◌, ◌++◌, List, ℕ, length, IfSome, IfNone, OnOk, OnErr};
ghost use Rattle.sc_outside.specs.Whole.{PutsAll, WriteFailed};
ghost use Rattle.sc_slots.specs.Slot.{FitsPacket, IsProtected, ReadsAs, SlotHead as Meaning, SlotIsWellShaped, slot_behind, slot_bytes};
ghost use Rattle.sc_slots.specs.Answers.{head_in, reading, slot_in};

use super::head::{HEAD, SlotHead};
use sc_outside::{Failed, Port, write_whole};
use sc_rtpdump::{DumpRecord, Head, Kind, kind_of};

/// A slot of a protected capture: a block of `k` symbols and its parity of `r` symbols, of `m` bytes each, symbol after
/// symbol.
#[derive(Clone, Copy, Debug, PartialEq, Eq)]
pub struct Slot<'a> {
    /// The slot's number, from 0.
    pub number: u32,
    /// 0 for a source slot; for the slots that flush the last blocks out, from 1 on.
    pub end: u8,
    /// The bytes of a symbol.
    pub m: u16,
    /// The RTP timestamp.
    pub timestamp: u32,
    /// The block, of `k * m` bytes.
    pub block: &'a [u8],
    /// The parity, of `r * m` bytes.
    pub parity: &'a [u8],
}

/// What a record is for a code: the first of `Stranger`, `WrongCode` and `BadShape` that holds, and else a slot.
#[derive(Clone, Copy, Debug, PartialEq, Eq)]
pub enum SlotReading<'a> {
    /// The record of a slot.
    Slot(Slot<'a>),
    /// No protected packet: the record isn't of kind `Rtp`, or the packet has fewer than 24 bytes, or a byte of the first
    /// two, the SSRC, the magic or the version is another.
    Stranger,
    /// A protected packet of a code with another `k` or `r`.
    WrongCode,
    /// A protected packet with `m` of 0, of another length than 24 bytes and `k + r` symbols, with a sequence number that
    /// isn't the slot's number in 16 bits, with an end above the deadline or above the slot's number plus 1, or with an
    /// end that isn't 0 and a block that isn't zero.
    BadShape,
}

/// The first 32 bytes of the record of a slot: the record's eight bytes before the packet, and the packet's first 24. The
/// block and the parity follow them. `offset` is the record's, in milliseconds. It takes no memory.
pub fn slot_head(offset: u32, slot: &Slot<'_>, k: usize, r: usize) -> [u8; 32]
    requires symbols { k + r ≤ 64 }
    requires packet { FitsPacket k r (slot_in slot.now) }
    ensures { result ++ (slot.now.block.now ++ slot.now.parity.now) ≡ slot_bytes k r offset (slot_in slot.now) }
{
    let len = HEAD + (k + r) * usize::from(slot.m);
    let record = Head {
        len: (len + 8) as u16,
        plen: len as u16,
        offset,
    };
    let packet = SlotHead {
        sequence: (slot.number % 65_536) as u16,
        timestamp: slot.timestamp,
        k: k as u8,
        r: r as u8,
        end: slot.end,
        m: slot.m,
        number: slot.number,
    };
    let record = record.to_bytes();
    let packet = packet.to_bytes();
    let mut bytes = [0; 32];
    let (front, back) = bytes.split_at_mut(8);
    front.copy_from_slice(&record);
    back.copy_from_slice(&packet);
    bytes
}

/// Writes the record of a slot, whose packet is whole. `offset` is the record's, in milliseconds. After `Failed` a prefix of
/// the record that isn't the whole was written. It takes no memory.
pub fn write_slot<P: Port>(
    port: &mut P,
    offset: u32,
    slot: &Slot<'_>,
    k: usize,
    r: usize,
) -> Result<(), Failed>
    requires symbols { k + r ≤ 64 }
    requires packet { FitsPacket k r (slot_in slot.now) }
    ensures ok { OnOk result (PutsAll (P.told port.old) (P.told port.new) (slot_bytes k r offset (slot_in slot.now))) }
    ensures err { OnErr result (WriteFailed (P.told port.old) (P.told port.new) (slot_bytes k r offset (slot_in slot.now))) }
{
    let head = slot_head(offset, slot, k, r);
    write_whole(port, &head)?;
    write_whole(port, slot.block)?;
    write_whole(port, slot.parity)
}

/// The slot of a head and what is behind it.
fn slot_of<'a>(head: SlotHead, rest: &'a [u8], k: usize) -> Slot<'a>
    requires symbols { k < 256 }
    requires size { k * head.m ≤ length rest.now }
    ensures { slot_in result ≡ slot_behind k (head_in head) rest.now }
{
    let size = k * usize::from(head.m);
    Slot {
        number: head.number,
        end: head.end,
        m: head.m,
        timestamp: head.timestamp,
        block: &rest[..size],
        parity: &rest[size..],
    }
}

/// The head of a protected packet and what is behind it; `None` exactly where the record is a stranger.
fn protected(rec: &DumpRecord) -> Option<(SlotHead, &[u8])>
    ensures some { IfSome result (λ p. IsProtected rec.now (head_in p.0) p.1.now) }
    ensures none { IfNone result ((h : Meaning) (rest : List ℕ) → IsProtected rec.now h rest → ⊥) }
{
    match kind_of(rec) {
        Kind::Rtp => SlotHead::split_from(rec.body()),
        Kind::Rtcp | Kind::Cut | Kind::Strange => None,
    }
}

/// Reads a record as a slot of a code with `k` and `r` and of a channel with this deadline. The RTP timestamp isn't tested.
/// It takes no memory.
pub fn read_slot<'a>(rec: &'a DumpRecord, k: usize, r: usize, deadline: u32) -> SlotReading<'a>
    ensures reads { ReadsAs k r deadline rec.now (reading result) }
    ensures slot { SlotIsWellShaped k r deadline rec.now (reading result) }
{
    let Some((head, rest)) = protected(rec) else {
        return SlotReading::Stranger;
    };
    if usize::from(head.k) != k {
        return SlotReading::WrongCode;
    }
    if usize::from(head.r) != r {
        return SlotReading::WrongCode;
    }
    if head.has_bad_shape(rest, k, r, deadline) {
        return SlotReading::BadShape;
    }
    // that the record fits, and so the packet, is what this call says
    let _whole = rec.bytes();
    SlotReading::Slot(slot_of(head, rest, k))
}
