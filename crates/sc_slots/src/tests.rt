//! Worked frames and protected packets, and what is refused.

ghost use Rattle.std.specs.Prelude.{◌+◌, ◌≤◌};
ghost use Rattle.sc_slots.specs.Answers.{slot_in};
ghost use Rattle.sc_slots.specs.Slot.{FitsPacket};

use super::*;
use sc_outside::{MemoryPort, NoMemory};
use sc_rtpdump::{DumpRecord, next_record};
use std::alloc::Global;
use std::test::Fail;

// An RTP packet of 12 bytes, and its frame of 18.
const PACKET: &[u8] = b"\x80\x00\x00\x01\x00\x00\x00\xa0\x12\x34\x56\x78";

const FRAME: &[u8; 18] =
    b"\x00\x0c\x00\x00\x00\x14\x80\x00\x00\x01\x00\x00\x00\xa0\x12\x34\x56\x78";

const ZERO_BLOCK: &[u8; 18] = b"\0\0\0\0\0\0\0\0\0\0\0\0\0\0\0\0\0\0";

const ZEROS: &[u8; 36] =
    b"\0\0\0\0\0\0\0\0\0\0\0\0\0\0\0\0\0\0\0\0\0\0\0\0\0\0\0\0\0\0\0\0\0\0\0\0";

// The first flush slot of a capture with no packet, for a code of one symbol and one parity symbol of 18 bytes: the 32
// bytes before the block and the parity, which are zero.
const FLUSH: &[u8; 32] =
    b"\x00\x44\x00\x3c\x00\x00\x00\x00\x80\x60\x00\x00\x00\x00\x00\x00SCD1SC\x01\x01\x01\x01\x00\x12\x00\x00\x00\x00";

// The size of a packet, the symbols of a block, and the bytes of a symbol.
const WIDTHS: &[(u16, usize, usize)] = &[
    (12, 1, 18),
    (12, 2, 9),
    (12, 5, 4),
    (12, 18, 1),
    (12, 19, 1),
    (172, 9, 20),
    (1472, 63, 24),
    (1472, 1, 1478),
    (0, 1, 6),
    (65_535, 1, 65_541),
];

#[test]
fn widths(rt: HostRuntime) {
    for row in WIDTHS {
        let (size, k, want) = *row;
        assert!(rt; k > 0 && width(size, k) == want, "{size} {k}");
    }
}

// Whether the frame of a packet, written over the block, is as wanted.
fn is_framed(offset: u32, packet: &[u8], block: &mut [u8], want: &[u8]) -> bool {
    let len = packet.len();
    if len == 0 || len > 1472 || block.len() < 6 + len {
        return false;
    }
    frame(offset, packet, block);
    *block == *want
}

#[test]
fn frames(rt: HostRuntime) {
    assert!(rt; is_framed(20, PACKET, &mut [0x55; 18], FRAME));
    let short = b"\x00\x01\x01\x02\x03\x04\x80\0\0";
    assert!(rt; is_framed(0x0102_0304, b"\x80", &mut [0x55; 9], short));
    one_frame();
}

const BLOCKS: &[(&[u8], Result<Frame<'static>, BadBlock>)] = &[
    (b"\0", Ok(Frame::Blank)),
    (ZEROS, Ok(Frame::Blank)),
    (
        FRAME,
        Ok(Frame::Packet {
            offset: 20,
            packet: PACKET,
        }),
    ),
    (
        b"\0\x01\xff\xff\xff\xff\x07",
        Ok(Frame::Packet {
            offset: u32::MAX,
            packet: b"\x07",
        }),
    ),
    // a packet that ends in zeros, and zeros behind one
    (
        b"\0\x03\0\0\0\x01\0\0\0\0\0",
        Ok(Frame::Packet {
            offset: 1,
            packet: b"\0\0\0",
        }),
    ),
    // fewer than seven bytes, no packet with an offset, a packet that is too long by one byte, and a byte behind one
    (b"\x01", Err(BadBlock)),
    (b"\0\x01\0\0\0\x01", Err(BadBlock)),
    (b"\0\0\0\0\0\x01\0", Err(BadBlock)),
    (b"\0\0\0\0\0\0\0\x01", Err(BadBlock)),
    (b"\0\x02\0\0\0\0\x01", Err(BadBlock)),
    (b"\0\x01\0\0\0\0\x01\0\0\x01", Err(BadBlock)),
];

#[test]
fn unframes(rt: HostRuntime) {
    for row in BLOCKS {
        let (block, want) = *row;
        assert!(rt; unframe(block) == want, "at {block:?}");
    }
}

#[test]
fn tells_a_bad_block(rt: HostRuntime) -> Result<(), Fail> {
    let text = format!(in rt.alloc(); "{BadBlock}")?;
    assert_eq!(rt; text.as_str(), "bad block");
    Ok(())
}

// The record that is read of these bytes.
fn record_of(alloc: Global, bytes: &[u8]) -> Result<DumpRecord, NoMemory> {
    let mut input = Vec::new(alloc);
    input.extend_from_slice(bytes)?;
    let mut port = MemoryPort::new(alloc, input, 0, 10, 65_536, Vec::new(alloc))?;
    let mut rec = DumpRecord::start(alloc)?;
    let _whole = next_record(&mut port, 0, &mut rec);
    Ok(rec)
}

// Offsets, slots of one symbol and one parity symbol of 18 bytes, and the 32 bytes before the block and the parity.
const SLOTS: &[(u32, Slot<'static>, &[u8])] = &[
    (
        0,
        Slot {
            number: 0,
            end: 1,
            m: 18,
            timestamp: 0,
            block: ZERO_BLOCK,
            parity: ZERO_BLOCK,
        },
        FLUSH,
    ),
    (
        20,
        Slot {
            number: 0,
            end: 0,
            m: 18,
            timestamp: 160,
            block: FRAME,
            parity: ZERO_BLOCK,
        },
        b"\x00\x44\x00\x3c\x00\x00\x00\x14\x80\x60\x00\x00\x00\x00\x00\xa0SCD1SC\x01\x01\x01\x00\x00\x12\x00\x00\x00\x00",
    ),
    (
        20,
        Slot {
            number: 2,
            end: 2,
            m: 18,
            timestamp: 160,
            block: ZERO_BLOCK,
            parity: FRAME,
        },
        b"\x00\x44\x00\x3c\x00\x00\x00\x14\x80\x60\x00\x02\x00\x00\x00\xa0SCD1SC\x01\x01\x01\x02\x00\x12\x00\x00\x00\x02",
    ),
    // a number above 16 bits
    (
        u32::MAX,
        Slot {
            number: 3_999_999,
            end: 0,
            m: 18,
            timestamp: u32::MAX,
            block: FRAME,
            parity: FRAME,
        },
        b"\x00\x44\x00\x3c\xff\xff\xff\xff\x80\x60\x08\xff\xff\xff\xff\xffSCD1SC\x01\x01\x01\x00\x00\x12\x00\x3d\x08\xff",
    ),
];

// The record of such a slot, where it is written whole and its head is made alike.
fn record_of_slot(
    alloc: Global,
    offset: u32,
    slot: &Slot<'_>,
    head: &[u8],
) -> Result<Option<Vec<u8>>, NoMemory> {
    if slot.m != 18 || slot.block.len() != 18 || slot.parity.len() != 18 {
        return Ok(None);
    }
    if &slot_head(offset, slot, 1, 1)[..] != head {
        return Ok(None);
    }
    let (whole, given) = written(alloc, offset, slot, 1, 1, 68)?;
    Ok(if whole { Some(given) } else { None })
}

// Whether the record of such a slot is this head, the block and the parity.
fn is_record(alloc: Global, record: &[u8], slot: &Slot<'_>, head: &[u8]) -> Result<bool, NoMemory> {
    let mut want = Vec::new(alloc);
    want.extend_from_slice(head)?;
    want.extend_from_slice(slot.block)?;
    want.extend_from_slice(slot.parity)?;
    Ok(record == want.as_slice())
}

fn is_read_back(alloc: Global, record: &[u8], slot: &Slot<'_>) -> Result<bool, NoMemory> {
    let rec = record_of(alloc, record)?;
    Ok(read_slot(&rec, 1, 1, 2) == SlotReading::Slot(*slot))
}

// Whether the slot is written as this head, the block and the parity, and read back.
fn writes(alloc: Global, offset: u32, slot: &Slot<'_>, head: &[u8]) -> Result<bool, NoMemory> {
    match record_of_slot(alloc, offset, slot, head)? {
        Some(record) => {
            Ok(is_record(alloc, &record, slot, head)? && is_read_back(alloc, &record, slot)?)
        }
        None => Ok(false),
    }
}

#[test]
fn writes_slots(rt: HostRuntime) -> Result<(), Fail> {
    for row in SLOTS {
        let (offset, slot, head) = row;
        assert!(rt; writes(rt.alloc(), *offset, slot, head)?, "at {offset}");
    }
    one_slot();
    Ok(())
}

// Which reading it is.
#[derive(Clone, Copy, Debug, PartialEq, Eq)]
enum Case {
    Slot,
    Stranger,
    WrongCode,
    BadShape,
}

fn case_of(reading: SlotReading<'_>) -> Case {
    match reading {
        SlotReading::Slot(_) => Case::Slot,
        SlotReading::Stranger => Case::Stranger,
        SlotReading::WrongCode => Case::WrongCode,
        SlotReading::BadShape => Case::BadShape,
    }
}

// The reading of a record with one byte of it changed, for a code of one symbol and one parity symbol, and a deadline of 2.
fn changed(alloc: Global, record: &[u8; 68], place: usize, byte: u8) -> Result<Case, NoMemory> {
    let mut bytes = *record;
    if place < 68 {
        bytes[place] = byte;
    }
    let rec = record_of(alloc, &bytes)?;
    Ok(case_of(read_slot(&rec, 1, 1, 2)))
}

// Slot 1 of a capture of one packet: the first flush slot.
const SECOND: &[u8; 68] =
    b"\x00\x44\x00\x3c\x00\x00\x00\x14\x80\x60\x00\x01\x00\x00\x00\xa0SCD1SC\x01\x01\x01\x01\x00\x12\x00\x00\x00\x01\0\0\0\0\0\0\0\0\0\0\0\0\0\0\0\0\0\0\0\0\0\0\0\0\0\0\0\0\0\0\0\0\0\0\0\0";

// A place in the record above, a byte for it, and the reading.
const CHANGES: &[(usize, u8, Case)] = &[
    (68, 0, Case::Slot),
    // the timestamp and the parity aren't tested
    (12, 0xff, Case::Slot),
    (15, 0xff, Case::Slot),
    (67, 0xff, Case::Slot),
    // RTCP, a packet that isn't whole or is too long, and no RTP
    (3, 0x00, Case::Stranger),
    (3, 0x3d, Case::Stranger),
    (3, 0x3b, Case::Stranger),
    (8, 0x40, Case::Stranger),
    // another first byte with which it is RTP still, a marker, another payload type
    (8, 0x81, Case::Stranger),
    (8, 0x90, Case::Stranger),
    (9, 0xe0, Case::Stranger),
    (9, 0x61, Case::Stranger),
    // each byte of the SSRC and of the magic, and the version
    (16, 0, Case::Stranger),
    (17, 0, Case::Stranger),
    (18, 0, Case::Stranger),
    (19, 0, Case::Stranger),
    (20, 0, Case::Stranger),
    (21, 0, Case::Stranger),
    (22, 2, Case::Stranger),
    // k and r
    (23, 2, Case::WrongCode),
    (24, 2, Case::WrongCode),
    // the width is 0, or another than the length says
    (27, 0, Case::BadShape),
    (27, 0x11, Case::BadShape),
    // the sequence, the slot's number, an end above the deadline, and one above the number plus 1
    (10, 1, Case::BadShape),
    (11, 0, Case::BadShape),
    (31, 2, Case::BadShape),
    (25, 3, Case::BadShape),
    (25, 2, Case::Slot),
    // a number of more than 16 bits has the sequence of its last 16
    (29, 1, Case::Slot),
    // a block that isn't zero, at both ends, in a flush slot and in a source slot
    (32, 1, Case::BadShape),
    (49, 1, Case::BadShape),
    (50, 1, Case::Slot),
    (25, 0, Case::Slot),
];

#[test]
fn reads_by_the_first_case(rt: HostRuntime) -> Result<(), Fail> {
    for row in CHANGES {
        let (place, byte, want) = *row;
        assert!(rt;
            changed(rt.alloc(), SECOND, place, byte)? == want,
            "byte {place} is {byte}"
        );
    }
    Ok(())
}

// A record, the code's k and r, the deadline, and the reading.
const OTHERS: &[(&[u8], usize, usize, u32, Case)] = &[
    // 23 bytes of a protected packet, and its 24 with nothing behind them: m isn't 0, or is
    (
        b"\x00\x1f\x00\x17\0\0\0\0\x80\x60\0\0\0\0\0\0SCD1SC\x01\x01\x01\0\0\x12\0\0\0",
        1,
        1,
        2,
        Case::Stranger,
    ),
    (
        b"\x00\x20\x00\x18\0\0\0\0\x80\x60\0\0\0\0\0\0SCD1SC\x01\x01\x01\0\0\x12\0\0\0\0",
        1,
        1,
        2,
        Case::BadShape,
    ),
    (
        b"\x00\x20\x00\x18\0\0\0\0\x80\x60\0\0\0\0\0\0SCD1SC\x01\x01\x01\0\0\0\0\0\0\0",
        1,
        1,
        2,
        Case::BadShape,
    ),
    // another code comes before another shape, and a stranger before both
    (
        b"\x00\x20\x00\x18\0\0\0\0\x80\x60\0\0\0\0\0\0SCD1SC\x01\x01\x01\0\0\0\0\0\0\0",
        2,
        1,
        2,
        Case::WrongCode,
    ),
    (
        b"\x00\x20\x00\x18\0\0\0\0\x80\x60\0\0\0\0\0\0SCD1SC\x02\x01\x01\0\0\0\0\0\0\0",
        2,
        1,
        2,
        Case::Stranger,
    ),
    // an end of 2 in slot 0 claims that there are fewer than no slots
    (
        b"\x00\x22\x00\x1a\0\0\0\0\x80\x60\0\0\0\0\0\0SCD1SC\x01\x01\x01\x02\0\x01\0\0\0\0\0\0",
        1,
        1,
        40,
        Case::BadShape,
    ),
    (
        b"\x00\x22\x00\x1a\0\0\0\0\x80\x60\0\0\0\0\0\0SCD1SC\x01\x01\x01\x01\0\x01\0\0\0\0\0\0",
        1,
        1,
        40,
        Case::Slot,
    ),
    // a deadline below the end
    (
        b"\x00\x22\x00\x1a\0\0\0\0\x80\x60\0\0\0\0\0\0SCD1SC\x01\x01\x01\x01\0\x01\0\0\0\0\0\0",
        1,
        1,
        0,
        Case::BadShape,
    ),
    // the block is as long as k symbols: the first byte alone, or the first two
    (
        b"\x00\x23\x00\x1b\0\0\0\0\x80\x60\0\0\0\0\0\0SCD1SC\x01\x01\x02\x01\0\x01\0\0\0\0\0\x01\0",
        1,
        2,
        40,
        Case::Slot,
    ),
    (
        b"\x00\x23\x00\x1b\0\0\0\0\x80\x60\0\0\0\0\0\0SCD1SC\x01\x02\x01\x01\0\x01\0\0\0\0\0\x01\0",
        2,
        1,
        40,
        Case::BadShape,
    ),
];

fn case_for(
    alloc: Global,
    bytes: &[u8],
    k: usize,
    r: usize,
    deadline: u32,
) -> Result<Case, NoMemory> {
    let rec = record_of(alloc, bytes)?;
    Ok(case_of(read_slot(&rec, k, r, deadline)))
}

#[test]
fn reads_other_records(rt: HostRuntime) -> Result<(), Fail> {
    for row in OTHERS {
        let (bytes, k, r, deadline, want) = *row;
        assert!(rt;
            case_for(rt.alloc(), bytes, k, r, deadline)? == want,
            "{k} {r} {deadline} {bytes:?}"
        );
    }
    Ok(())
}

// Writes a slot to a port with room for so many bytes. It answers whether it was written and what the port was given.
fn written(
    alloc: Global,
    offset: u32,
    slot: &Slot<'_>,
    k: usize,
    r: usize,
    room: usize,
) -> Result<(bool, Vec<u8>), NoMemory>
    requires symbols { k + r ≤ 64 }
    requires packet { FitsPacket k r (slot_in slot.now) }
{
    let mut port = MemoryPort::new(alloc, Vec::new(alloc), room, 10, 65_536, Vec::new(alloc))?;
    let whole = write_slot(&mut port, offset, slot, k, r).is_ok();
    let mut given = Vec::new(alloc);
    given.extend_from_slice(port.given())?;
    Ok((whole, given))
}

// Writes the widest packet: 63 symbols and one of parity, of 1,023 bytes each.
fn written_widest(alloc: Global, room: usize) -> Result<(bool, Vec<u8>), NoMemory> {
    let block = vec![in alloc; 7; 64_449]?;
    let parity = vec![in alloc; 9; 1023]?;
    let slot = Slot {
        number: u32::MAX,
        end: 0,
        m: 1023,
        timestamp: 1,
        block: block.as_slice(),
        parity: parity.as_slice(),
    };
    written(alloc, 3, &slot, 63, 1, room)
}

// Whether the record has the length of the widest packet, and is a slot.
fn is_widest(alloc: Global, record: &[u8]) -> Result<bool, NoMemory> {
    let rec = record_of(alloc, record)?;
    Ok(rec.plen() == 65_496 && case_of(read_slot(&rec, 63, 1, 40)) == Case::Slot)
}

// The widest packet. All but its last byte is no record.
#[test]
fn widest(rt: HostRuntime) -> Result<(), Fail> {
    let (whole, given) = written_widest(rt.alloc(), 65_504)?;
    assert!(rt; whole && is_widest(rt.alloc(), &given)?);
    let (whole, given) = written_widest(rt.alloc(), 65_503)?;
    assert!(rt; !whole && given.len() == 65_503);
    Ok(())
}
