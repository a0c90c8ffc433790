//! Whole runs of `repair`. What is wanted is written out by hand from the format.
use super::{
    Answer, CODE, EMPTY_0, EMPTY_1, FRAME, OTHERS, PACKET, PREAMBLE, SLOT_0, SLOT_1, SLOT_2, ZEROS,
    answer_in_pieces, answer_with, assert_answer, assert_cut, concluded, joined, judges, spaces,
    two_files,
};
use crate::{End, repair_is_repairing};
use sc_outside::MemoryCabinet;
use sc_repair::{EndState, RepairEnd, Unfit};
use sc_rtpdump::DumpFault;
use std::alloc::{AllocError, Global};
use std::test::Fail;
use std::thread::Threads;

/// Packet `id` in its record, the first of which is `PACKET`.
fn packet(id: u8) -> [u8; 20] {
    [
        0, 20, 0, 12, 0, 0, 0, 20, 0x80, 0, 0, id, 0, 0, 0, 0xa0, 0x12, 0x34, 0x56, 0x78,
    ]
}

/// Its frame, and zeros for the number 0.
fn frame(id: u8) -> [u8; 18] {
    match id {
        0 => [0; 18],
        _ => [
            0, 12, 0, 0, 0, 20, 0x80, 0, 0, id, 0, 0, 0, 0xa0, 0x12, 0x34, 0x56, 0x78,
        ],
    }
}

/// A capture of slots: of each its number, its end byte, and whose frames its block and its parity are.
fn slots(alloc: Global, came: &[(u32, u8, u8, u8)]) -> Result<Vec<u8>, AllocError> {
    let mut bytes = joined(alloc, &[PREAMBLE])?;
    for (number, end, block, parity) in came.iter().copied() {
        let [a, b, c, d] = number.to_be_bytes();
        bytes.extend_from_slice(b"\x00\x44\x00\x3c\x00\x00\x00\x14\x80\x60")?;
        bytes.extend_from_slice(&[c, d])?;
        bytes.extend_from_slice(b"\x00\x00\x00\xa0SCD1SC\x01\x01\x01")?;
        bytes.extend_from_slice(&[end, 0, 18, a, b, c, d])?;
        bytes.extend_from_slice(&frame(block))?;
        bytes.extend_from_slice(&frame(parity))?;
    }
    Ok(bytes)
}

/// A capture of these packets.
fn packets(alloc: Global, ids: &[u8]) -> Result<Vec<u8>, AllocError> {
    let mut bytes = joined(alloc, &[PREAMBLE])?;
    for id in ids.iter().copied() {
        bytes.extend_from_slice(&packet(id))?;
    }
    Ok(bytes)
}

/// Runs `repair` over an input, with room for so many bytes, where call `fail` of the port fails.
fn repair_of<R: Threads + Sync>(
    rt: &R,
    alloc: Global,
    input: &[&[u8]],
    room: usize,
    fail: u32,
) -> Result<Answer, Fail> {
    answer_with(rt, alloc, "repair c", CODE, input, room, fail)
}

// The code repeats each block two slots later. Slots of a capture are numbered from 0, with packet 1 in slot 0.
const RUNS: &[(&[(u32, u8, u8, u8)], u8, &[u8], &str)] = &[
    (
        &[(0, 0, 1, 0), (1, 1, 0, 0), (2, 2, 0, 1)],
        0,
        &[1],
        "slots 1 missed 0 strangers 0 repeats 0\n",
    ),
    // Slot 0 is lost; slots 0 and 1; and slots 0 and 2, which the channel doesn't admit.
    (
        &[(1, 1, 0, 0), (2, 2, 0, 1)],
        0,
        &[1],
        "slots 1 missed 0 strangers 0 repeats 0\n",
    ),
    (
        &[(2, 2, 0, 1)],
        0,
        &[1],
        "slots 1 missed 0 strangers 0 repeats 0\n",
    ),
    (
        &[(1, 1, 0, 0)],
        5,
        &[],
        "slots 1 missed 1 strangers 0 repeats 0\n",
    ),
    // Both slots that flush are lost.
    (
        &[(0, 0, 1, 0), (1, 0, 2, 0)],
        0,
        &[1, 2],
        "slots 2 missed 0 strangers 0 repeats 0\n",
    ),
    // Of five packets the first four slots are taken out.
    (
        &[(4, 0, 5, 3), (5, 1, 0, 4), (6, 2, 0, 5)],
        5,
        &[3, 4, 5],
        "slots 5 missed 2 strangers 0 repeats 0\n",
    ),
    // A slot comes twice, and once more behind the last.
    (
        &[
            (0, 0, 1, 0),
            (0, 0, 1, 0),
            (1, 1, 0, 0),
            (2, 2, 0, 1),
            (0, 0, 1, 0),
        ],
        0,
        &[1],
        "slots 1 missed 0 strangers 0 repeats 2\n",
    ),
    // A gap of a thousand slots.
    (
        &[(0, 0, 1, 0), (1000, 0, 3, 2)],
        5,
        &[1, 2, 3],
        "slots 1001 missed 998 strangers 0 repeats 0\n",
    ),
    (&[(4_000_000, 0, 1, 0)], 4, &[], "limit slots 4000000\n"),
    (
        &[(3_999_999, 2, 0, 1)],
        5,
        &[1],
        "slots 3999998 missed 3999997 strangers 0 repeats 0\n",
    ),
    // A source slot behind those that flush; and a claim that is another &[1].
    (
        &[(0, 0, 1, 0), (1, 1, 0, 0), (2, 2, 0, 1), (3, 0, 0, 0)],
        3,
        &[1],
        "slot 3 other end\n",
    ),
    (
        &[(0, 0, 1, 0), (1, 1, 0, 0), (2, 1, 0, 1)],
        3,
        &[1],
        "slot 2 other end\n",
    ),
    (&[(0, 0, 1, 2)], 6, &[], "slot 0 clash\n"),
    (&[(0, 0, 1, 0), (2, 0, 3, 2)], 6, &[1], "slot 2 clash\n"),
    (&[], 0, &[], "slots 0 missed 0 strangers 0 repeats 0\n"),
];

#[test]
fn repairs_what_came(rt: HostRuntime) -> Result<(), Fail> {
    for row in RUNS {
        let (came, status, ids, note) = *row;
        let input = slots(rt.alloc(), came)?;
        let given = packets(rt.alloc(), ids)?;
        let answer = repair_of(&rt, rt.alloc(), &[&input], 1000, 1000)?;
        assert_answer(&rt, "repair", &answer, status, &given, note);
    }
    repair_is_repairing();
    Ok(())
}

// The protected capture of one packet, in its pieces, and what else stands among them.
const RECORDS: &[(&[&[u8]], u8, &[&[u8]], &str)] = &[
    (
        &[PREAMBLE, EMPTY_0, ZEROS, ZEROS, EMPTY_1, ZEROS, ZEROS],
        0,
        &[PREAMBLE],
        "slots 0 missed 0 strangers 0 repeats 0\n",
    ),
    (
        &[
            PREAMBLE, SLOT_0, FRAME, ZEROS, PACKET, SLOT_1, ZEROS, ZEROS, OTHERS, SLOT_2, ZEROS,
            FRAME,
        ],
        0,
        &[PREAMBLE, PACKET],
        "slots 1 missed 0 strangers 4 repeats 0\n",
    ),
    // Symbols of 19 bytes, and a frame that is one byte shorter than what stands behind it.
    (
        &[
            PREAMBLE,
            SLOT_0,
            FRAME,
            ZEROS,
            b"\x00\x46\x00\x3e\x00\x00\x00\x14\x80\x60\x00\x01\x00\x00\x00\xa0SCD1SC\x01\x01\x01\x01\x00\x13\x00\x00\x00\x01",
            &[0; 38],
        ],
        3,
        &[PREAMBLE, PACKET],
        "slot 1 other width\n",
    ),
    (
        &[
            PREAMBLE,
            SLOT_1,
            ZEROS,
            ZEROS,
            SLOT_2,
            ZEROS,
            b"\x00\x0b\x00\x00\x00\x14\x80\x00\x00\x01\x00\x00\x00\xa0\x12\x34\x56\x78",
        ],
        3,
        &[PREAMBLE],
        "slot 0 bad block\n",
    ),
    (
        &[
            PREAMBLE,
            SLOT_0,
            FRAME,
            ZEROS,
            SLOT_1,
            ZEROS,
            ZEROS,
            SLOT_2,
            ZEROS,
            b"\x00\x0c\x00\x00\x00\x14\x80\x00\x00\x01\x00\x00\x00\xa0\x12\x34\x56",
        ],
        3,
        &[PREAMBLE, PACKET],
        "record 2 cut\n",
    ),
    (
        &[PREAMBLE, SLOT_0, FRAME, ZEROS, b"\x00\x44"],
        3,
        &[PREAMBLE, PACKET],
        "record 1 head\n",
    ),
    (
        &[PREAMBLE, b"\x00\x07\x00\x00\x00\x00\x00\x00"],
        3,
        &[PREAMBLE],
        "record 0 length\n",
    ),
    (&[b"#!rtpplay1.0 127.0.0.1/5004"], 3, &[], "preamble\n"),
];

#[test]
fn repairs_and_refuses_records(rt: HostRuntime) -> Result<(), Fail> {
    for row in RECORDS {
        let (input, status, given, note) = *row;
        let given = joined(rt.alloc(), given)?;
        let answer = repair_of(&rt, rt.alloc(), input, 1000, 1000)?;
        assert_answer(&rt, "repair", &answer, status, &given, note);
    }
    Ok(())
}

// One byte of that capture is another one. It has 44 bytes before slot 0, and 68 a slot.
const CHANGES: &[(usize, u8, u8, &[u8], &str)] = &[
    // Of slot 0 the version, the sequence, k, r, the end byte, m, and the last byte of its parity.
    (66, 2, 0, &[1], "slots 1 missed 0 strangers 1 repeats 0\n"),
    (55, 1, 3, &[], "record 0 bad shape\n"),
    (67, 2, 3, &[], "record 0 wrong code\n"),
    (68, 2, 3, &[], "record 0 wrong code\n"),
    (69, 1, 3, &[], "record 0 bad shape\n"),
    (71, 19, 3, &[], "record 0 bad shape\n"),
    (111, 1, 6, &[], "slot 0 clash\n"),
    // The length of its frame.
    (77, 11, 3, &[], "slot 0 bad block\n"),
    // The end bytes of the slots 1 and 2, and the last byte of slot 2's parity.
    (137, 2, 3, &[1], "slot 1 other end\n"),
    (205, 1, 3, &[1], "slot 2 other end\n"),
    (205, 3, 3, &[1], "record 2 bad shape\n"),
    (247, 0x79, 6, &[1], "slot 2 clash\n"),
];

/// The capture with this byte at this place.
fn changed(alloc: Global, place: usize, byte: u8) -> Result<Vec<u8>, Fail> {
    let mut bytes = slots(alloc, &[(0, 0, 1, 0), (1, 1, 0, 0), (2, 2, 0, 1)])?;
    match bytes.get_mut(place) {
        Some(there) => *there = byte,
        None => Err("no byte")?,
    }
    Ok(bytes)
}

#[test]
fn repair_refuses_changed_bytes(rt: HostRuntime) -> Result<(), Fail> {
    for row in CHANGES {
        let (place, byte, status, ids, note) = *row;
        let input = changed(rt.alloc(), place, byte)?;
        let given = packets(rt.alloc(), ids)?;
        let answer = repair_of(&rt, rt.alloc(), &[&input], 1000, 1000)?;
        assert_answer(&rt, "repair", &answer, status, &given, note);
    }
    Ok(())
}

const JUDGED: &[(&str, &[u8], u8, &str)] = &[
    ("repair", CODE, 2, "usage\n"),
    ("repair c 12", CODE, 2, "usage\n"),
    ("repair d", CODE, 7, "read fault\n"),
    ("repair c", b"{", 3, "code not json\n"),
    ("repair c", b"[]", 3, "code shape whole\n"),
];

// What the words and the file decide: nothing is read or given.
#[test]
fn repair_judges_its_file(rt: HostRuntime) -> Result<(), Fail> {
    let alloc = rt.alloc();
    for row in JUDGED {
        let (line, text, status, note) = *row;
        judges(&rt, alloc, line, "c", text, status, note)?;
    }
    let long = spaces(alloc, 4_194_305)?;
    judges(
        &rt,
        alloc,
        "repair c",
        "c",
        &long,
        4,
        "code limit 4194305\n",
    )
}

// Slot 0 is lost, so its packet is known once slot 2 was read, and it is written before the next read. In pieces of 7 bytes, 20
// calls read the preamble, 7 write it, 11 read each slot, 3 write the packet, and the last one finds the end.
const FAULTS: &[(usize, u32, u8, &str, usize)] = &[
    (1000, 0, 7, "read fault\n", 0),
    (1000, 19, 7, "read fault\n", 0),
    (1000, 20, 8, "write fault\n", 0),
    (1000, 26, 8, "write fault\n", 42),
    (1000, 27, 7, "read fault\n", 44),
    (1000, 48, 7, "read fault\n", 44),
    (1000, 49, 8, "write fault\n", 44),
    (1000, 51, 8, "write fault\n", 58),
    (1000, 52, 7, "read fault\n", 64),
    (1000, 53, 0, "slots 1 missed 0 strangers 0 repeats 0\n", 64),
    (50, 1000, 8, "write fault\n", 50),
    (0, 1000, 8, "write fault\n", 0),
];

#[test]
fn faults_of_repair_are_told(rt: HostRuntime) -> Result<(), Fail> {
    let input = slots(rt.alloc(), &[(1, 1, 0, 0), (2, 2, 0, 1)])?;
    let whole = packets(rt.alloc(), &[1])?;
    for row in FAULTS {
        let (room, fail, status, note, given) = *row;
        let answer = repair_of(&rt, rt.alloc(), &[&input], room, fail)?;
        assert_cut(&rt, &answer, status, note, &whole, given);
    }
    Ok(())
}

const WIDTH: Unfit = Unfit::OtherWidth {
    slot: 3_999_999,
    was: 18,
    now: 19,
};

const END: Unfit = Unfit::OtherEnd {
    slot: 7,
    was: EndState::Known(6),
    now: 0,
};

// Each end of repairing with its status and its note.
const REFUSALS: &[(RepairEnd, u8, &str)] = &[
    (
        RepairEnd::Dump(DumpFault::Truncated(2)),
        3,
        "record 2 cut\n",
    ),
    (RepairEnd::Dump(DumpFault::Read), 7, "read fault\n"),
    (RepairEnd::Dump(DumpFault::Memory), 9, "no memory\n"),
    (RepairEnd::TooManyRecords, 4, "limit records 8000001\n"),
    (
        RepairEnd::WrongCode(7_999_999),
        3,
        "record 7999999 wrong code\n",
    ),
    (RepairEnd::BadShape(0), 3, "record 0 bad shape\n"),
    (
        RepairEnd::TooManySlots(4_294_967_295),
        4,
        "limit slots 4294967295\n",
    ),
    (RepairEnd::Unfit(WIDTH), 3, "slot 3999999 other width\n"),
    (RepairEnd::Unfit(END), 3, "slot 7 other end\n"),
    (RepairEnd::Clash(17), 6, "slot 17 clash\n"),
    (RepairEnd::BadBlock(17), 3, "slot 17 bad block\n"),
    (RepairEnd::Write, 8, "write fault\n"),
    (RepairEnd::Memory, 9, "no memory\n"),
];

#[test]
fn every_fault_of_repair_has_its_note(rt: HostRuntime) -> Result<(), Fail> {
    for row in REFUSALS {
        let (fault, status, note) = *row;
        let (ended, told) = concluded(rt.alloc(), End::of_repair(Err(fault)), 128)?;
        assert_eq!(rt; ended, status);
        assert_eq!(rt; told.as_slice(), note.as_bytes());
    }
    Ok(())
}

/// Runs the words of a line over an input in large pieces.
fn given_by<R: Threads + Sync>(
    rt: &R,
    alloc: Global,
    line: &str,
    cabinet: &mut MemoryCabinet,
    input: &[u8],
) -> Result<Answer, Fail> {
    answer_in_pieces(rt, alloc, line, cabinet, input, 4096, 10_000)
}

/// A loss of 202 flags, two of every four set.
fn half_lost(alloc: Global) -> Result<Vec<u8>, AllocError> {
    let mut loss = joined(alloc, &[b"{\"loss\":\""])?;
    for _ in 0..50u32 {
        loss.extend_from_slice(b"1100")?;
    }
    loss.extend_from_slice(b"11\"}")?;
    Ok(loss)
}

/// Protects a capture and thins that: how many bytes the protected one has, and what is left of it.
fn thinned<R: Threads + Sync>(
    rt: &R,
    alloc: Global,
    cabinet: &mut MemoryCabinet,
    made: &[u8],
) -> Result<(usize, Vec<u8>), Fail> {
    let sent = given_by(rt, alloc, "protect c 30", cabinet, made)?;
    let came = given_by(rt, alloc, "lose c d", cabinet, &sent.given)?;
    Ok((sent.given.len(), came.given))
}

// A generated capture is protected and thinned, and comes back byte for byte. Half of its slots are lost, the last two among
// them, as the channel admits.
#[test]
fn what_was_lost_comes_back(rt: HostRuntime) -> Result<(), Fail> {
    let loss = half_lost(rt.alloc())?;
    let mut cabinet = two_files(rt.alloc(), CODE, &loss)?;
    let made = given_by(&rt, rt.alloc(), "gen 5 200 30", &mut cabinet, b"")?;
    let (sent, came) = thinned(&rt, rt.alloc(), &mut cabinet, &made.given)?;
    let lengths = [made.given.len(), sent, came.len()];
    assert_eq!(rt; lengths, [44 + 200 * 38, 44 + 202 * 104, 44 + 100 * 104]);
    let line = "repair c";
    let back = given_by(&rt, rt.alloc(), line, &mut cabinet, &came)?;
    let note = "slots 200 missed 0 strangers 0 repeats 0\n";
    assert_answer(&rt, line, &back, 0, &made.given, note);
    Ok(())
}
