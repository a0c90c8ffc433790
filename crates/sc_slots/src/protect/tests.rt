//! Worked captures, in memory.

ghost use Rattle.std.specs.Prelude.{◌<◌, ◌≤◌};

use super::*;
use sc_channel::Channel;
use sc_code::Code;
use sc_field::{Field, Gf256};
use sc_matrix::Matrix;
use sc_outside::{MemoryPort, Move};
use std::test::Fail;

// The line `#!rtpplay1.0 127.0.0.1/5004` with its newline, and 16 bytes.
const PREAMBLE: [u8; 44] =
    *b"#!rtpplay1.0 127.0.0.1/5004\n\0\0\0\0\0\0\0\0\x7f\0\0\x01\x13\x8c\0\0";

// An RTP packet of 12 bytes, 20 milliseconds after the capture's start.
const FIRST: &[u8] =
    b"\x00\x14\x00\x0c\x00\x00\x00\x14\x80\x00\x00\x01\x00\x00\x00\xa0\x12\x34\x56\x78";

// The next one.
const SECOND: &[u8] =
    b"\x00\x14\x00\x0c\x00\x00\x00\x28\x80\x00\x00\x02\x00\x00\x01\x40\x12\x34\x56\x78";

// The frames of both.
const FIRST_FRAME: &[u8] =
    b"\x00\x0c\x00\x00\x00\x14\x80\x00\x00\x01\x00\x00\x00\xa0\x12\x34\x56\x78";

const SECOND_FRAME: &[u8] =
    b"\x00\x0c\x00\x00\x00\x28\x80\x00\x00\x02\x00\x00\x01\x40\x12\x34\x56\x78";

const ZEROS: &[u8] = &[0; 18];

// A record of RTCP, one that is cut, and one whose packet has version 1.
const OTHERS: &[u8] = b"\x00\x0c\x00\x00\x00\x00\x00\x00\x80\xc9\x00\x00\
    \x00\x14\x00\x14\x00\x00\x00\x00\x80\x00\x00\x01\x00\x00\x00\xa0\x12\x34\x56\x78\
    \x00\x14\x00\x0c\x00\x00\x00\x00\x40\x00\x00\x01\x00\x00\x00\xa0\x12\x34\x56\x78";

// A packet of 13 bytes.
const LONGER: &[u8] =
    b"\x00\x15\x00\x0d\x00\x00\x00\x14\x80\x00\x00\x01\x00\x00\x00\xa0\x12\x34\x56\x78\xff";

// The code of one symbol with `r` parities, of which the first is the block two slots before, for the channel of windows of 3
// slots, spans of 2, one loss anywhere and the deadline 2.
fn delayed(alloc: Global, r: usize) -> Result<CodeFile, Fail>
    requires { (1 ≤ r) × (r < 64) }
{
    let mut lags = Vec::with_capacity(alloc, 3)?;
    for lag in 0..3 {
        let mut parities = Matrix::zeros(alloc, 1, r)?;
        if lag == 2 {
            parities.set(0, 0, Gf256::one());
        }
        lags.push(parities)?;
    }
    Ok(CodeFile {
        channel: Channel::new(3, 2, 1, 2)?,
        code: Code::new(1, r, lags)?,
    })
}

// A port whose input is a preamble and these records.
fn port_of(
    alloc: Global,
    records: &[u8],
    room: usize,
    piece: usize,
    fail: u32,
) -> Result<MemoryPort, NoMemory>
    requires { 1 ≤ piece }
{
    let mut input = PREAMBLE.to_vec(alloc)?;
    input.extend_from_slice(records)?;
    let fails = vec![in alloc; fail]?;
    MemoryPort::new(alloc, input, room, 100_000, piece, fails)
}

// A slot of 18 bytes a symbol: its offset, number, end, timestamp, block and parity.
type Put = (u8, u8, u8, u16, &'static [u8], &'static [u8]);

// Puts the record of a slot behind others.
fn push_slot(bytes: &mut Vec<u8>, slot: &Put) -> Result<(), NoMemory> {
    let (offset, number, end, timestamp, block, parity) = *slot;
    let [high, low] = timestamp.to_be_bytes();
    let head = [
        0, 0x44, 0, 0x3c, 0, 0, 0, offset, 0x80, 0x60, 0, number, 0, 0, high, low,
    ];
    bytes.extend_from_slice(&head)?;
    bytes.extend_from_slice(b"SCD1SC\x01\x01\x01")?;
    bytes.extend_from_slice(&[end, 0, 18, 0, 0, 0, number])?;
    bytes.extend_from_slice(block)?;
    bytes.extend_from_slice(parity)?;
    Ok(())
}

// A preamble and the records of these slots.
fn given_of(alloc: Global, slots: &[Put]) -> Result<Vec<u8>, NoMemory> {
    let mut due = PREAMBLE.to_vec(alloc)?;
    for slot in slots {
        push_slot(&mut due, slot)?;
    }
    Ok(due)
}

// The bytes of these parts, one behind another.
fn joined(alloc: Global, parts: &[&[u8]]) -> Result<Vec<u8>, NoMemory> {
    let mut bytes = Vec::new(alloc);
    for part in parts {
        bytes.extend_from_slice(part)?;
    }
    Ok(bytes)
}

// Protects by a code with packets of 12 bytes. Whether the answer is this one, and as many bytes were given.
fn ends(
    alloc: Global,
    file: &CodeFile,
    port: &mut MemoryPort,
    want: Result<Protected, ProtectFault>,
    given: usize,
) -> bool {
    protect_all(alloc, file, 12, port) == want && port.given().len() == given
}

// Protects a preamble and these records by a code. Whether the answer is this one, and what was given.
fn protects_by(
    alloc: Global,
    file: &CodeFile,
    records: &[u8],
    piece: usize,
    want: Result<Protected, ProtectFault>,
    due: &[u8],
) -> Result<bool, NoMemory> {
    let mut port = port_of(alloc, records, 1000, piece.max(1), 100_000)?;
    Ok(ends(alloc, file, &mut port, want, due.len()) && port.given() == due)
}

// The same by reads and writes of one byte, of seven, and of as many as there are.
fn protects(
    alloc: Global,
    file: &CodeFile,
    parts: &[&[u8]],
    want: Result<Protected, ProtectFault>,
    slots: &[Put],
) -> Result<bool, NoMemory> {
    let records = joined(alloc, parts)?;
    let due = given_of(alloc, slots)?;
    for piece in [1, 7, 65_536] {
        if !protects_by(alloc, file, &records, piece, want, &due)? {
            return Ok(false);
        }
    }
    Ok(true)
}

fn done(slots: u32, rtcp: u32, cut: u32, strange: u32) -> Result<Protected, ProtectFault> {
    Ok(Protected {
        slots,
        rtcp,
        cut,
        strange,
    })
}

// The records, the number of slots and of the records of each other kind, and what is given.
const CAPTURES: &[(&[&[u8]], [u32; 4], &[Put])] = &[
    (
        &[],
        [2, 0, 0, 0],
        &[(0, 0, 1, 0, ZEROS, ZEROS), (0, 1, 2, 0, ZEROS, ZEROS)],
    ),
    (
        &[FIRST],
        [3, 0, 0, 0],
        &[
            (0x14, 0, 0, 0xa0, FIRST_FRAME, ZEROS),
            (0x14, 1, 1, 0xa0, ZEROS, ZEROS),
            (0x14, 2, 2, 0xa0, ZEROS, FIRST_FRAME),
        ],
    ),
    (
        &[OTHERS, FIRST],
        [3, 1, 1, 1],
        &[
            (0x14, 0, 0, 0xa0, FIRST_FRAME, ZEROS),
            (0x14, 1, 1, 0xa0, ZEROS, ZEROS),
            (0x14, 2, 2, 0xa0, ZEROS, FIRST_FRAME),
        ],
    ),
    (
        &[FIRST, SECOND, OTHERS],
        [4, 1, 1, 1],
        &[
            (0x14, 0, 0, 0xa0, FIRST_FRAME, ZEROS),
            (0x28, 1, 0, 0x140, SECOND_FRAME, ZEROS),
            (0x28, 2, 1, 0x140, ZEROS, FIRST_FRAME),
            (0x28, 3, 2, 0x140, ZEROS, SECOND_FRAME),
        ],
    ),
];

#[test]
fn protects_captures(rt: HostRuntime) -> Result<(), Fail> {
    let file = delayed(rt.alloc(), 1)?;
    for row in CAPTURES {
        let (records, [slots, rtcp, cut, strange], given) = *row;
        let want = done(slots, rtcp, cut, strange);
        assert!(rt;
            protects(rt.alloc(), &file, records, want, given)?,
            "{slots} {rtcp}"
        );
    }
    Ok(())
}

const SOURCE: &[Put] = &[(0x14, 0, 0, 0xa0, FIRST_FRAME, ZEROS)];

// The records, the refusal, and the slots before it.
const REFUSALS: &[(&[&[u8]], ProtectFault, &[Put])] = &[
    (
        &[LONGER],
        ProtectFault::TooLong {
            index: 0,
            length: 13,
        },
        &[],
    ),
    (
        &[FIRST, OTHERS, LONGER],
        ProtectFault::TooLong {
            index: 4,
            length: 13,
        },
        SOURCE,
    ),
    (
        &[FIRST, b"\x00\x14\x00\x0c\x00\x00\x00"],
        ProtectFault::Dump(DumpFault::RecordHead(1)),
        SOURCE,
    ),
    (
        &[FIRST, b"\x00\x07\x00\x00\x00\x00\x00\x00"],
        ProtectFault::Dump(DumpFault::RecordLength(1)),
        SOURCE,
    ),
    (
        &[
            FIRST,
            b"\x00\x14\x00\x0c\x00\x00\x00\x28\x80\x00\x00\x02\x00\x00\x01\x40\x12\x34\x56",
        ],
        ProtectFault::Dump(DumpFault::Truncated(1)),
        SOURCE,
    ),
];

#[test]
fn refuses_captures(rt: HostRuntime) -> Result<(), Fail> {
    let file = delayed(rt.alloc(), 1)?;
    for row in REFUSALS {
        let (records, fault, given) = *row;
        assert!(rt;
            protects(rt.alloc(), &file, records, Err(fault), given)?,
            "{fault}"
        );
    }
    Ok(())
}

const READ: ProtectFault = ProtectFault::Dump(DumpFault::Read);

// The room of the port, the call that fails, by its number over reads and writes, where it stops, and how many bytes were
// given. The preamble is read by 17 calls, and written by the next; then come the head and the body of the record, the slot,
// the end of the input, and the two slots that flush.
const FAILED: &[(usize, u32, ProtectFault, usize)] = &[
    (1000, 0, READ, 0),
    (1000, 16, READ, 0),
    (1000, 17, ProtectFault::Write, 0),
    (1000, 18, READ, 44),
    (1000, 19, READ, 44),
    (1000, 20, ProtectFault::Write, 44),
    (1000, 21, READ, 112),
    (1000, 22, ProtectFault::Write, 112),
    // no room is left in the first of the two slots that flush
    (150, 100_000, ProtectFault::Write, 150),
];

// Whether protecting one record ends so.
fn stops(
    alloc: Global,
    room: usize,
    fail: u32,
    fault: ProtectFault,
    given: usize,
) -> Result<bool, Fail> {
    let file = delayed(alloc, 1)?;
    let mut port = port_of(alloc, FIRST, room, 65_536, fail)?;
    Ok(ends(alloc, &file, &mut port, Err(fault), given))
}

#[test]
fn stops_at_failed_calls(rt: HostRuntime) -> Result<(), Fail> {
    for row in FAILED {
        let (room, fail, fault, given) = *row;
        assert!(rt; stops(rt.alloc(), room, fail, fault, given)?, "call {fail}");
    }
    Ok(())
}

// The first record 10,500 times, each with a timestamp of its own.
fn many_records(alloc: Global) -> Result<Vec<u8>, NoMemory> {
    let mut records = Vec::new(alloc);
    for i in 0..10_500u16 {
        records.extend_from_slice(&FIRST[..10])?;
        records.extend_from_slice(&i.to_be_bytes())?;
        records.extend_from_slice(&FIRST[12..])?;
    }
    Ok(records)
}

fn port_of_many(alloc: Global) -> Result<MemoryPort, NoMemory> {
    let records = many_records(alloc)?;
    port_of(alloc, &records, 1 << 20, 1 << 20, 100_000)
}

fn protects_many(alloc: Global, port: &mut MemoryPort) -> Result<bool, Fail> {
    let file = delayed(alloc, 1)?;
    let want = done(10_502, 0, 0, 0);
    Ok(ends(alloc, &file, port, want, 44 + 10_502 * 68))
}

// A slot, and the numbers of the records in its block and its parity.
const MANY: &[(usize, u16, u16)] = &[
    (0, 0, 0),
    (2, 2, 0),
    (9_999, 9_999, 9_997),
    (10_501, 0, 10_499),
];

// Whether a slot of 68 bytes in what was given has these numbers of records in its block and its parity.
fn has_numbers(given: &[u8], slot: usize, block: u16, parity: u16) -> bool {
    match given.chunks(68).nth(slot) {
        Some(record) => {
            record.len() == 68
                && record[40..42] == block.to_be_bytes()[..]
                && record[58..60] == parity.to_be_bytes()[..]
        }
        None => false,
    }
}

// Whether the slots behind a preamble have the numbers above.
fn have_numbers(given: &[u8]) -> bool {
    if given.len() < 44 {
        return false;
    }
    for row in MANY {
        let (slot, block, parity) = *row;
        if !has_numbers(&given[44..], slot, block, parity) {
            return false;
        }
    }
    true
}

// Whether the port was written so many bytes at a time.
fn is_written_by(alloc: Global, journal: &[Move], counts: &[usize]) -> Result<bool, NoMemory> {
    let mut written = Vec::new(alloc);
    for step in journal {
        if let Move::Written(n) = step {
            written.push(*n)?;
        }
    }
    Ok(written.as_slice() == counts)
}

const WRITES: &[usize] = &[44, 196_588, 196_588, 196_588, 124_236, 136];

// Each slot has the frame of its own record, and the parity of the slot two before. Many go by one write.
#[test]
fn protects_many_records(rt: HostRuntime) -> Result<(), Fail> {
    let alloc = rt.alloc();
    let mut port = port_of_many(alloc)?;
    assert!(rt; protects_many(alloc, &mut port)?);
    assert!(rt; have_numbers(port.given()));
    assert!(rt; is_written_by(alloc, port.journal(), WRITES)?);
    Ok(())
}

// A port with a record of the greatest size.
fn port_of_greatest(alloc: Global) -> Result<MemoryPort, NoMemory> {
    let mut record = b"\x05\xc8\x05\xc0\x00\x00\x00\x00\x80\x00".to_vec(alloc)?;
    record.resize(1480, 0)?;
    port_of(alloc, &record, 1 << 18, 65_536, 100_000)
}

// Protects packets of the greatest size by the code above with so many parities.
fn protects_greatest(
    alloc: Global,
    r: usize,
    port: &mut MemoryPort,
) -> Result<Result<Protected, ProtectFault>, Fail>
    requires { (1 ≤ r) × (r < 64) }
{
    let file = delayed(alloc, r)?;
    Ok(protect_all(alloc, &file, 1472, port))
}

// The greatest size: with 43 parities of a symbol a protected packet has 65,056 bytes, and with 63 it would have 94,616.
#[test]
fn refuses_wide_packets(rt: HostRuntime) -> Result<(), Fail> {
    let mut port = port_of_greatest(rt.alloc())?;
    let wide = protects_greatest(rt.alloc(), 63, &mut port)?;
    assert!(rt; wide == Err(ProtectFault::TooWide(94_616)) && port.journal().is_empty());
    let greatest = protects_greatest(rt.alloc(), 43, &mut port)?;
    assert!(rt; greatest == done(3, 0, 0, 0) && port.given().len() == 44 + 3 * 65_064);
    protecting_is_a_job();
    protected_is_a_capture();
    Ok(())
}

const PRINTED: &[(ProtectFault, &str)] = &[
    (ProtectFault::TooWide(65_528), "packet 65528"),
    (ProtectFault::Dump(DumpFault::Preamble), "preamble"),
    (ProtectFault::TooManyRecords, "more than 8000000 records"),
    (
        ProtectFault::TooLong {
            index: 3,
            length: 13,
        },
        "record 3 packet 13",
    ),
    (ProtectFault::TooManySlots, "more than 4000000 slots"),
    (ProtectFault::Write, "write fault"),
    (ProtectFault::Memory, "no memory"),
];

#[test]
fn prints_faults(rt: HostRuntime) -> Result<(), Fail> {
    for row in PRINTED {
        let (fault, want) = *row;
        let printed = format!(in rt.alloc(); "{fault}")?;
        assert!(rt; printed.as_str() == want, "{want}");
    }
    Ok(())
}
