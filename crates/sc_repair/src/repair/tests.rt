//! Worked captures, in memory.

ghost use Rattle.std.specs.Prelude.{◌≤◌};

use super::super::laws::{
    each_record_comes_back_or_is_missed, protected_captures_come_back, repairing_is_a_job,
};
use super::super::repairer::EndState;
use super::*;
use sc_channel::Channel;
use sc_code::Code;
use sc_field::{Field, Gf256};
use sc_matrix::Matrix;
use sc_outside::{MemoryPort, Move};
use std::process::Abort;
use std::test::Fail;

// The line `#!rtpplay1.0 127.0.0.1/5004` with its newline, and 16 bytes.
const PREAMBLE: [u8; 44] =
    *b"#!rtpplay1.0 127.0.0.1/5004\n\0\0\0\0\0\0\0\0\x7f\0\0\x01\x13\x8c\0\0";

// The record of an RTP packet of 12 bytes, 20 milliseconds after the capture's start, and its frame.
const FIRST: &[u8] =
    b"\x00\x14\x00\x0c\x00\x00\x00\x14\x80\x00\x00\x01\x00\x00\x00\xa0\x12\x34\x56\x78";

const A: &[u8; 18] = b"\x00\x0c\x00\x00\x00\x14\x80\x00\x00\x01\x00\x00\x00\xa0\x12\x34\x56\x78";

// The next one.
const SECOND: &[u8] =
    b"\x00\x14\x00\x0c\x00\x00\x00\x28\x80\x00\x00\x02\x00\x00\x01\x40\x12\x34\x56\x78";

const B: &[u8; 18] = b"\x00\x0c\x00\x00\x00\x28\x80\x00\x00\x02\x00\x00\x01\x40\x12\x34\x56\x78";

const ZEROS: &[u8; 18] = &[0; 18];

// No frame: the length is greater than the block.
const BAD: &[u8; 18] = b"\x00\x0d\x00\x00\x00\x14\x80\x00\x00\x01\x00\x00\x00\xa0\x12\x34\x56\x78";

// The code of one symbol and one parity, which is the block two slots before, for the channel of windows of 3 slots, spans of
// 2, one loss anywhere and the deadline 2.
fn delayed(alloc: Global) -> Result<CodeFile, Fail> {
    let mut lags = Vec::new(alloc);
    lags.push(Matrix::zeros(alloc, 1, 1)?)?;
    lags.push(Matrix::zeros(alloc, 1, 1)?)?;
    let mut last = Matrix::zeros(alloc, 1, 1)?;
    last.set(0, 0, Gf256::one());
    lags.push(last)?;
    Ok(CodeFile {
        channel: Channel::new(3, 2, 1, 2)?,
        code: Code::new(1, 1, lags)?,
    })
}

// A slot: its number, its end, its block and its parity.
type Sent = (u32, u8, &'static [u8; 18], &'static [u8; 18]);

// Puts the record of a slot behind others, 60 milliseconds after the capture's start.
fn push_slot(bytes: &mut Vec<u8>, slot: &Sent) -> Result<(), Fail> {
    let (number, end, block, parity) = *slot;
    let [_, _, high, low] = number.to_be_bytes();
    bytes.extend_from_slice(&[0, 0x44, 0, 0x3c, 0, 0, 0, 60])?;
    bytes.extend_from_slice(&[0x80, 0x60, high, low, 0, 0, 0, 0])?;
    bytes.extend_from_slice(b"SCD1SC\x01\x01\x01")?;
    bytes.extend_from_slice(&[end, 0, 18])?;
    bytes.extend_from_slice(&number.to_be_bytes())?;
    bytes.extend_from_slice(block)?;
    bytes.extend_from_slice(parity)?;
    Ok(())
}

// A port whose input is a preamble, these slots and these bytes.
fn port_of(
    alloc: Global,
    slots: &[Sent],
    last: &[u8],
    room: usize,
    piece: usize,
    fail: u32,
) -> Result<MemoryPort, Fail>
    requires { 1 ≤ piece }
{
    let mut input = PREAMBLE.to_vec(alloc)?;
    for slot in slots {
        push_slot(&mut input, slot)?;
    }
    input.extend_from_slice(last)?;
    let fails = vec![in alloc; fail]?;
    Ok(MemoryPort::new(alloc, input, room, 100_000, piece, fails)?)
}

// The answer of a run to the end: the end, and how many were missed, strangers and repeats.
type Counts = (u32, u32, u32, u32);

fn done(counts: Counts) -> Result<Repaired, RepairEnd> {
    let (end, missed, strangers, repeats) = counts;
    Ok(Repaired {
        end,
        missed,
        strangers,
        repeats,
    })
}

// Repairs a preamble, these slots and these bytes: the answer, and what was given.
fn repaired(
    alloc: Global,
    slots: &[Sent],
    last: &[u8],
    room: usize,
    piece: usize,
    fail: u32,
) -> Result<(Result<Repaired, RepairEnd>, Vec<u8>), Fail>
    requires { 1 ≤ piece }
{
    let file = delayed(alloc)?;
    let mut port = port_of(alloc, slots, last, room, piece, fail)?;
    let answer = repair_all(alloc, &file, &mut port);
    let given = port.given().to_vec(alloc)?;
    Ok((answer, given))
}

// The same, and compares the answer and what stands behind the preamble then.
fn repairs(
    rt: &impl Abort,
    alloc: Global,
    slots: &[Sent],
    last: &[u8],
    want: Result<Repaired, RepairEnd>,
    given: &[u8],
) -> Result<(), Fail> {
    let mut due = PREAMBLE.to_vec(alloc)?;
    due.extend_from_slice(given)?;
    for piece in [1, 7, 65_536] {
        let (answer, out) = repaired(alloc, slots, last, 1000, piece, 100_000)?;
        assert_eq!(rt; answer, want);
        assert_eq!(rt; out.as_slice(), due.as_slice());
    }
    Ok(())
}

// The slot of one packet, and the two that flush behind it.
const A0: Sent = (0, 0, A, ZEROS);

const F1: Sent = (1, 1, ZEROS, ZEROS);

const F2: Sent = (2, 2, ZEROS, A);

// One packet and its two slots that flush, with one slot or another lost.
const CAPTURES: &[(&[Sent], &[u8], Counts, &[u8])] = &[
    (&[], &[], (0, 0, 0, 0), &[]),
    (
        &[(0, 1, ZEROS, ZEROS), (1, 2, ZEROS, ZEROS)],
        &[],
        (0, 0, 0, 0),
        &[],
    ),
    (&[A0, F1, F2], &[], (1, 0, 0, 0), FIRST),
    (&[F1, F2], &[], (1, 0, 0, 0), FIRST),
    (&[F2], &[], (1, 0, 0, 0), FIRST),
    (&[A0], &[], (1, 0, 0, 0), FIRST),
    (&[F1], &[], (1, 1, 0, 0), &[]),
    // a slot that comes again, whatever it says, and records that are no slots
    (&[A0, A0, (0, 0, B, B), F1, F2], &[], (1, 0, 0, 2), FIRST),
    (&[A0, F1, F2], FIRST, (1, 0, 1, 0), FIRST),
];

#[test]
fn repairs_captures(rt: HostRuntime) -> Result<(), Fail> {
    for row in CAPTURES {
        let (slots, last, counts, given) = *row;
        repairs(&rt, rt.alloc(), slots, last, done(counts), given)?;
    }
    Ok(())
}

// The records of both packets.
fn both(alloc: Global) -> Result<Vec<u8>, Fail> {
    let mut both = FIRST.to_vec(alloc)?;
    both.extend_from_slice(SECOND)?;
    Ok(both)
}

// Two packets; the second begins with the fourth slot, and is put out once the slots before it are missed.
const GAPS: &[(&[Sent], Counts)] = &[
    (&[A0, (1, 0, B, ZEROS), (3, 2, ZEROS, B)], (2, 0, 0, 0)),
    (&[(2, 1, ZEROS, A), (3, 2, ZEROS, B)], (2, 0, 0, 0)),
    (&[A0, (4, 0, B, ZEROS)], (5, 2, 0, 0)),
    (&[A0, (1_000, 0, B, ZEROS)], (1_001, 998, 0, 0)),
];

#[test]
fn passes_gaps(rt: HostRuntime) -> Result<(), Fail> {
    let both = both(rt.alloc())?;
    for row in GAPS {
        let (slots, counts) = *row;
        repairs(&rt, rt.alloc(), slots, &[], done(counts), &both)?;
    }
    Ok(())
}

const LONGEST: &[Sent] = &[A0, (3_999_999, 0, B, ZEROS)];

// The longest gap of all.
#[test]
fn passes_the_longest_gap(rt: HostRuntime) -> Result<(), Fail> {
    let (answer, given) = repaired(rt.alloc(), LONGEST, &[], 1000, 65_536, 100_000)?;
    assert_eq!(rt; answer, done((4_000_000, 3_999_997, 0, 0)));
    assert_eq!(rt; given.len(), 84);
    Ok(())
}

// The order of refusals, and how many packets were given by each.
const REFUSED: &[(&[Sent], RepairEnd, usize)] = &[
    // no stream has the changed parity of a known block
    (
        &[A0, (1, 0, B, ZEROS), (2, 1, ZEROS, B)],
        RepairEnd::Clash(2),
        2,
    ),
    (&[(0, 0, A, A)], RepairEnd::Clash(0), 0),
    // a bad block: it was taken, or comes back by a later parity, and then no clash is looked for
    (&[A0, (1, 0, BAD, ZEROS)], RepairEnd::BadBlock(1), 1),
    (
        &[(1, 0, B, ZEROS), (2, 0, ZEROS, BAD)],
        RepairEnd::BadBlock(0),
        0,
    ),
    (
        &[A0, (1, 0, BAD, ZEROS), (2, 0, B, B)],
        RepairEnd::BadBlock(1),
        1,
    ),
    // beyond the limit, also behind a slot that it comes before in other ways
    (
        &[A0, (4_000_000, 0, B, B)],
        RepairEnd::TooManySlots(4_000_000),
        1,
    ),
    // a source slot after a claim
    (
        &[A0, F1, (2, 0, B, A)],
        RepairEnd::Unfit(Unfit::OtherEnd {
            slot: 2,
            was: EndState::Known(1),
            now: 0,
        }),
        1,
    ),
    // a claim below a source slot, before what is put out behind it
    (
        &[
            A0,
            (1, 0, B, ZEROS),
            (5, 2, ZEROS, ZEROS),
            (6, 2, ZEROS, ZEROS),
        ],
        RepairEnd::Unfit(Unfit::OtherEnd {
            slot: 6,
            was: EndState::Known(4),
            now: 2,
        }),
        2,
    ),
    (
        &[(1, 0, B, ZEROS), (2, 2, ZEROS, ZEROS)],
        RepairEnd::Unfit(Unfit::OtherEnd {
            slot: 2,
            was: EndState::Least(2),
            now: 2,
        }),
        0,
    ),
];

// The first bytes, so many of them.
fn first(bytes: &[u8], count: usize) -> &[u8] {
    match bytes.get(..count) {
        Some(first) => first,
        None => b"",
    }
}

#[test]
fn refuses_slots(rt: HostRuntime) -> Result<(), Fail> {
    let both = both(rt.alloc())?;
    for row in REFUSED {
        let (slots, want, packets) = *row;
        let given = first(&both, packets.saturating_mul(20));
        repairs(&rt, rt.alloc(), slots, &[], Err(want), given)?;
    }
    Ok(())
}

// A record of symbols of one byte, one of another code, and one that isn't well shaped.
const WIDE: &[u8] =
    b"\x00\x22\x00\x1a\x00\x00\x00\x3c\x80\x60\x00\x01\x00\x00\x00\x00SCD1SC\x01\x01\x01\x00\x00\x01\x00\x00\x00\x01\x00\x00";

const OTHER: &[u8] =
    b"\x00\x22\x00\x1a\x00\x00\x00\x3c\x80\x60\x00\x01\x00\x00\x00\x00SCD1SC\x01\x02\x01\x00\x00\x01\x00\x00\x00\x01\x00\x00";

const SHAPE: &[u8] =
    b"\x00\x22\x00\x1a\x00\x00\x00\x3c\x80\x60\x00\x02\x00\x00\x00\x00SCD1SC\x01\x01\x01\x00\x00\x01\x00\x00\x00\x01\x00\x00";

const WIDTH: Unfit = Unfit::OtherWidth {
    slot: 1,
    was: 18,
    now: 1,
};

// So many bytes of one, behind the record of a slot.
const RECORDS: &[(&[u8], usize, RepairEnd)] = &[
    (WIDE, 34, RepairEnd::Unfit(WIDTH)),
    (OTHER, 34, RepairEnd::WrongCode(1)),
    (SHAPE, 34, RepairEnd::BadShape(1)),
    (WIDE, 33, RepairEnd::Dump(DumpFault::Truncated(1))),
    (WIDE, 7, RepairEnd::Dump(DumpFault::RecordHead(1))),
    (ZEROS, 8, RepairEnd::Dump(DumpFault::RecordLength(1))),
];

// A record of another code, one that isn't well shaped, one of another width, and a capture that is cut.
#[test]
fn refuses_records(rt: HostRuntime) -> Result<(), Fail> {
    let alloc = rt.alloc();
    for row in RECORDS {
        let (bytes, count, want) = *row;
        repairs(&rt, alloc, &[A0], first(bytes, count), Err(want), FIRST)?;
    }
    let mut port = MemoryPort::new(alloc, FIRST.to_vec(alloc)?, 10, 100, 7, Vec::new(alloc))?;
    assert_eq!(rt;
        repair_all(alloc, &delayed(alloc)?, &mut port),
        Err(RepairEnd::Dump(DumpFault::Preamble))
    );
    assert!(rt; port.given().is_empty());
    Ok(())
}

const READ: RepairEnd = RepairEnd::Dump(DumpFault::Read);

const LOST_0: &[Sent] = &[(1, 0, B, ZEROS), (2, 1, ZEROS, A)];

// The call that fails, by its number over reads and writes: where it stops, and how many bytes were given. The preamble is
// read by 17 calls, and written by the next; then come the head and the body of each record, and a write where it puts
// something out. In the last row no room is left in the second record.
const FAILED: &[(usize, u32, RepairEnd, usize)] = &[
    (1000, 0, READ, 0),
    (1000, 16, READ, 0),
    (1000, 17, RepairEnd::Write, 0),
    (1000, 18, READ, 44),
    (1000, 19, READ, 44),
    (1000, 20, READ, 44),
    (1000, 21, READ, 44),
    (1000, 22, RepairEnd::Write, 44),
    (1000, 23, READ, 84),
    (70, 100_000, RepairEnd::Write, 70),
];

#[test]
fn stops_at_failed_calls(rt: HostRuntime) -> Result<(), Fail> {
    for row in FAILED {
        let (room, fail, fault, length) = *row;
        let (answer, given) = repaired(rt.alloc(), LOST_0, &[], room, 65_536, fail)?;
        assert_eq!(rt; (answer, given.len()), (Err(fault), length), "call {fail}");
    }
    Ok(())
}

// Many slots, of which every third is lost.
fn many_slots(alloc: Global) -> Result<Vec<Sent>, Fail> {
    let mut slots = Vec::new(alloc);
    for number in 0..9_001u32 {
        let before = if number < 2 { ZEROS } else { A };
        if number % 3 != 1 {
            slots.push((number, 0, A, before))?;
        }
    }
    Ok(slots)
}

// How many bytes each write took.
fn written(alloc: Global, port: &MemoryPort) -> Result<Vec<usize>, Fail> {
    let mut written = Vec::new(alloc);
    for step in port.journal() {
        if let Move::Written(n) = step {
            written.push(*n)?;
        }
    }
    Ok(written)
}

// Each block comes back with the slot two behind it, and is written before the next record is read.
#[test]
fn repairs_many_slots(rt: HostRuntime) -> Result<(), Fail> {
    let alloc = rt.alloc();
    let file = delayed(alloc)?;
    let slots = many_slots(alloc)?;
    let mut port = port_of(alloc, &slots, &[], 1 << 20, 65_536, 100_000)?;
    assert_eq!(rt; repair_all(alloc, &file, &mut port), done((9_001, 0, 0, 0)));
    assert_eq!(rt; port.given().len(), 44 + 9_001 * 20);
    assert!(rt; port.given().ends_with(FIRST));
    let written = written(alloc, &port)?;
    assert_eq!(rt; written.len(), 3_002);
    assert!(rt; written.starts_with(&[44, 20, 60, 60]));
    repairing_is_a_job();
    each_record_comes_back_or_is_missed();
    protected_captures_come_back();
    Ok(())
}
