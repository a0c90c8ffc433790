//! Whole runs over objects in memory. What is wanted is written out by hand from the format.
ghost use Rattle.std.specs.Prelude.{◌<◌, ◌≤◌};

mod checking;
mod designing;
mod losing;
mod repairing;
mod trying;

use super::{End, Role, conclude, run};
use sc_check::{Gate, NoGate};
use sc_codefile::{FileFault, Key};
use sc_outside::{MemoryCabinet, MemoryPort, MemorySink};
use sc_repair::Repaired;
use sc_rtpdump::{Dropped, DumpFault};
use sc_slots::Protected;
use sc_trial::Trial;
use std::alloc::{AllocError, Global};
use std::process::Abort;
use std::test::Fail;
use std::thread::Threads;

/// The preamble of the captures: a line of 28 bytes, and 16 bytes.
const PREAMBLE: &[u8] =
    b"#!rtpplay1.0 127.0.0.1/5004\n\x00\x00\x00\x00\x00\x00\x00\x00\x7f\x00\x00\x01\x13\x8c\x00\x00";

/// The head of a record of one byte.
const HEAD: &[u8] = b"\x00\x09\x00\x01\x00\x00\x00\x14";

/// The preamble without its last byte.
const SHORT: &[u8] =
    b"#!rtpplay1.0 127.0.0.1/5004\n\x00\x00\x00\x00\x00\x00\x00\x00\x7f\x00\x00\x01\x13\x8c\x00";

fn joined(alloc: Global, parts: &[&[u8]]) -> Result<Vec<u8>, AllocError> {
    let mut bytes = Vec::new(alloc);
    for part in parts {
        bytes.extend_from_slice(part)?;
    }
    Ok(bytes)
}

fn words_of(alloc: Global, line: &str) -> Result<Vec<String>, AllocError> {
    let mut words = Vec::new(alloc);
    for word in line.split(' ') {
        words.push(String::from_str(alloc, word)?)?;
    }
    Ok(words)
}

/// A cabinet without files.
fn no_files(alloc: Global) -> MemoryCabinet {
    MemoryCabinet::new(Vec::new(alloc), Vec::new(alloc))
}

/// A cabinet with one file.
fn one_file(alloc: Global, name: &str, text: &[u8]) -> Result<MemoryCabinet, AllocError> {
    let mut files = Vec::new(alloc);
    files.push((
        String::from_str(alloc, name)?,
        Vec::from_slice(alloc, text)?,
    ))?;
    Ok(MemoryCabinet::new(files, Vec::new(alloc)))
}

/// A cabinet with two files, `c` and `d`.
fn two_files(alloc: Global, first: &[u8], second: &[u8]) -> Result<MemoryCabinet, AllocError> {
    failing_files(alloc, first, second, Vec::new(alloc))
}

/// The same, of which these fetches fail.
fn failing_files(
    alloc: Global,
    first: &[u8],
    second: &[u8],
    fails: Vec<u32>,
) -> Result<MemoryCabinet, AllocError> {
    let mut files = Vec::new(alloc);
    files.push((
        String::from_str(alloc, "c")?,
        Vec::from_slice(alloc, first)?,
    ))?;
    files.push((
        String::from_str(alloc, "d")?,
        Vec::from_slice(alloc, second)?,
    ))?;
    Ok(MemoryCabinet::new(files, fails))
}

/// What a run answered, gave and told, and how many of its reads and writes succeeded.
#[derive(Drop)]
struct Answer {
    status: u8,
    given: Vec<u8>,
    note: Vec<u8>,
    moves: usize,
}

/// Runs the words of a line over a port, with files and a gate.
fn answer_over<R: Threads + Sync, G: Gate + Sync>(
    rt: &R,
    alloc: Global,
    line: &str,
    cabinet: &mut MemoryCabinet,
    mut port: MemoryPort,
    gate: &G,
) -> Result<Answer, Fail> {
    let words = words_of(alloc, line)?;
    let mut notes = MemorySink::new(alloc, 128, Vec::new(alloc))?;
    let status = run(rt, alloc, &words, cabinet, &mut port, &mut notes, gate);
    Ok(Answer {
        status,
        given: joined(alloc, &[port.given()])?,
        note: joined(alloc, &[notes.given()])?,
        moves: port.journal().len(),
    })
}

/// The same over an input in pieces of 7 bytes, with room for so many bytes, where call `fail` of the port fails.
fn answer_by<R: Threads + Sync>(
    rt: &R,
    alloc: Global,
    line: &str,
    cabinet: &mut MemoryCabinet,
    input: &[&[u8]],
    room: usize,
    fail: u32,
) -> Result<Answer, Fail> {
    let input = joined(alloc, input)?;
    let fails = vec![in alloc; fail]?;
    let port = MemoryPort::new(alloc, input, room, 1000, 7, fails)?;
    answer_over(rt, alloc, line, cabinet, port, &NoGate)
}

/// The same without files.
fn answer_of<R: Threads + Sync>(
    rt: &R,
    alloc: Global,
    line: &str,
    input: &[&[u8]],
    room: usize,
    fail: u32,
) -> Result<Answer, Fail> {
    let mut cabinet = no_files(alloc);
    answer_by(rt, alloc, line, &mut cabinet, input, room, fail)
}

/// The same with this text in the file `c`.
fn answer_with<R: Threads + Sync>(
    rt: &R,
    alloc: Global,
    line: &str,
    text: &[u8],
    input: &[&[u8]],
    room: usize,
    fail: u32,
) -> Result<Answer, Fail> {
    let mut cabinet = one_file(alloc, "c", text)?;
    answer_by(rt, alloc, line, &mut cabinet, input, room, fail)
}

/// The same with these texts in the files `c` and `d`, with room for a thousand bytes, where no call fails.
fn answer_with_both<R: Threads + Sync>(
    rt: &R,
    alloc: Global,
    line: &str,
    first: &[u8],
    second: &[u8],
    input: &[&[u8]],
) -> Result<Answer, Fail> {
    let mut cabinet = two_files(alloc, first, second)?;
    answer_by(rt, alloc, line, &mut cabinet, input, 1000, 1000)
}

/// Runs the words of a line over an input in pieces of this length, with files and room for two million bytes.
fn answer_in_pieces<R: Threads + Sync>(
    rt: &R,
    alloc: Global,
    line: &str,
    cabinet: &mut MemoryCabinet,
    input: &[u8],
    piece: usize,
    fail: u32,
) -> Result<Answer, Fail>
    requires { 1 ≤ piece }
{
    let input = joined(alloc, &[input])?;
    let fails = vec![in alloc; fail]?;
    let port = MemoryPort::new(alloc, input, 2_000_000, 10_000, piece, fails)?;
    answer_over(rt, alloc, line, cabinet, port, &NoGate)
}

/// A run ended with this status, and told this note.
fn assert_told(rt: &impl Abort, line: &str, answer: &Answer, status: u8, note: &str) {
    assert_eq!(rt; answer.status, status, "{line} {note}");
    assert_eq!(rt; answer.note.as_slice(), note.as_bytes(), "{line}");
}

/// The same, and it gave these bytes.
fn assert_answer(
    rt: &impl Abort,
    line: &str,
    answer: &Answer,
    status: u8,
    given: &[u8],
    note: &str,
) {
    assert_told(rt, line, answer, status, note);
    assert_eq!(rt; answer.given.as_slice(), given, "{line} {note}");
}

/// A run ended with this status and this note, and neither read nor gave anything.
fn assert_untouched(rt: &impl Abort, line: &str, answer: &Answer, status: u8, note: &str) {
    assert_answer(rt, line, answer, status, b"", note);
    assert_eq!(rt; answer.moves, 0, "{line} {note}");
}

/// A run ended with this status and this note, and gave so many of the bytes that are due.
fn assert_cut(
    rt: &impl Abort,
    answer: &Answer,
    status: u8,
    note: &str,
    whole: &[u8],
    given: usize,
) {
    assert_told(rt, "", answer, status, note);
    assert!(rt;
        whole.starts_with(answer.given.as_slice()),
        "{given} {note}"
    );
    assert_eq!(rt; answer.given.len(), given, "{note}");
}

/// The status of an end, and its note in a sink with this room.
fn concluded(alloc: Global, end: End, room: usize) -> Result<(u8, Vec<u8>), Fail> {
    let mut notes = MemorySink::new(alloc, room, Vec::new(alloc))?;
    let status = conclude(&mut notes, end);
    let note = joined(alloc, &[notes.given()])?;
    Ok((status, note))
}

/// The fault of a capture prints its note.
fn assert_prints(rt: &impl Abort, alloc: Global, fault: DumpFault, note: &str) -> Result<(), Fail> {
    let printed = format!(in alloc; "{fault}\n")?;
    assert_eq!(rt; printed.as_str(), note);
    Ok(())
}

/// An end has this status and this note. A sink with less room gets the beginning, and the status stays.
fn assert_ends(
    rt: &impl Abort,
    alloc: Global,
    end: End,
    status: u8,
    note: &str,
) -> Result<(), Fail> {
    let due = note.as_bytes();
    for (room, length) in [(128, due.len()), (3, 3)] {
        let (ended, given) = concluded(alloc, end, room)?;
        assert_eq!(rt; ended, status, "{note}");
        assert_eq!(rt; given.as_slice(), part(due, 0, length), "{note}");
    }
    if let End::Capture(fault) = end {
        assert_prints(rt, alloc, fault, note)?;
    }
    Ok(())
}

const DONE: Dropped = Dropped {
    records: 4_000_000,
    lost: 0,
};

const REPAIRED: Repaired = Repaired {
    end: 4_000_000,
    missed: 0,
    strangers: 8_000_000,
    repeats: 17,
};

const MISSING: Repaired = Repaired {
    end: 4_294_967_295,
    missed: 4_294_967_295,
    strangers: 4_294_967_295,
    repeats: 4_294_967_295,
};

const PROTECTED: Protected = Protected {
    slots: 4_000_000,
    rtcp: 4_294_967_295,
    cut: 0,
    strange: 17,
};

const TRIED: Trial = Trial {
    slots: 10_040,
    lost: 4_294_967_295,
    equal: 10_000,
    missed: 0,
};

const OPEN: Trial = Trial {
    slots: 10_040,
    lost: 4_294_967_295,
    equal: 10_000,
    missed: 1,
};

// Each end with its status and its note, as the program's page has them.
const ENDS: &[(End, u8, &str)] = &[
    (End::Thinned(DONE), 0, "records 4000000 lost 0\n"),
    (End::Tried(TRIED), 0, "trial done\n"),
    (End::Tried(OPEN), 5, "trial done\n"),
    (
        End::Protected(PROTECTED),
        0,
        "slots 4000000 rtcp 4294967295 cut 0 strange 17\n",
    ),
    (
        End::FileRefused(Role::Code, FileFault::NotJson),
        3,
        "code not json\n",
    ),
    (
        End::FileRefused(Role::Code, FileFault::Shape(Key::Whole)),
        3,
        "code shape whole\n",
    ),
    (
        End::FileRefused(Role::Code, FileFault::Range(Key::Channel)),
        3,
        "code range channel\n",
    ),
    (
        End::FileRefused(Role::Loss, FileFault::Range(Key::Loss)),
        3,
        "loss range loss\n",
    ),
    (End::FileTooLong(Role::Code), 4, "code limit 4194305\n"),
    (End::FileTooLong(Role::Loss), 4, "loss limit 4194305\n"),
    (End::PacketTooWide(94_616), 4, "limit packet 94616\n"),
    (End::PacketTooLong(7, 1473), 4, "limit size 7 1473\n"),
    (
        End::FileTooLong(Role::Certificate),
        4,
        "certificate limit 4194305\n",
    ),
    (End::Accepted, 0, "accepted\n"),
    (End::Refused, 1, "refused\n"),
    (End::Bound(2, 4), 0, "bound 2/4\n"),
    (
        End::CertificateRefused(4095),
        1,
        "certificate refused at residue 4095\n",
    ),
    (
        End::TooManyClasses(137_846_528_821),
        11,
        "classes 137846528821\n",
    ),
    (End::TooManyRecords, 4, "limit records 8000001\n"),
    (End::TooManySlots(4_000_001), 4, "limit slots 4000001\n"),
    (
        End::Repaired(REPAIRED),
        0,
        "slots 4000000 missed 0 strangers 8000000 repeats 17\n",
    ),
    (
        End::Repaired(MISSING),
        5,
        "slots 4294967295 missed 4294967295 strangers 4294967295 repeats 4294967295\n",
    ),
    (End::WrongCode(0), 3, "record 0 wrong code\n"),
    (End::BadShape(7), 3, "record 7 bad shape\n"),
    (End::OtherWidth(1), 3, "slot 1 other width\n"),
    (End::OtherEnd(2), 3, "slot 2 other end\n"),
    (End::BadBlock(3), 3, "slot 3 bad block\n"),
    (End::Clash(4_000_000), 6, "slot 4000000 clash\n"),
    (End::Generated(0), 0, "records 0\n"),
    (End::Generated(3_999_960), 0, "records 3999960\n"),
    (End::LossRefused(17), 1, "loss refused at window 17\n"),
    (End::Usage, 2, "usage\n"),
    (End::Capture(DumpFault::Preamble), 3, "preamble\n"),
    (End::Capture(DumpFault::RecordHead(0)), 3, "record 0 head\n"),
    (
        End::Capture(DumpFault::RecordLength(10)),
        3,
        "record 10 length\n",
    ),
    (
        End::Capture(DumpFault::Truncated(4_294_967_295)),
        3,
        "record 4294967295 cut\n",
    ),
    (End::MoreRecords(2), 3, "flags 2 more records\n"),
    (End::FewerRecords(2, 1), 3, "flags 2 records 1\n"),
    (End::ReadFault, 7, "read fault\n"),
    (End::WriteFault, 8, "write fault\n"),
    (End::NoMemory, 9, "no memory\n"),
];

#[test]
fn every_end_has_its_note(rt: HostRuntime) -> Result<(), Fail> {
    for row in ENDS {
        let (end, status, note) = *row;
        assert_ends(&rt, rt.alloc(), end, status, note)?;
    }
    Ok(())
}

// Generated records, whose bytes a Python script drew: one of seed 42, and two of each of three seeds.
const DRAWN_42: &[u8] =
    b"\x00\x18\x00\x10\x00\x00\x00\x00\x80\x00\x00\x00\x00\x00\x00\x00\x12\x34\x56\x78\xb7\x09\x30\x93";

const DRAWN_2: &[u8] =
    b"\x00\x16\x00\x0e\x00\x00\x00\x00\x80\x00\x00\x00\x00\x00\x00\x00\x12\x34\x56\x78\xd4\x11\x00\x16\x00\x0e\x00\x00\x00\x14\x80\x00\x00\x01\x00\x00\x00\xa0\x12\x34\x56\x78\x54\x7b";

const DRAWN_WIDE: &[u8] =
    b"\x00\x16\x00\x0e\x00\x00\x00\x00\x80\x00\x00\x00\x00\x00\x00\x00\x12\x34\x56\x78\x79\xf7\x00\x16\x00\x0e\x00\x00\x00\x14\x80\x00\x00\x01\x00\x00\x00\xa0\x12\x34\x56\x78\x94\x7f";

const DRAWN_WIDEST: &[u8] =
    b"\x00\x16\x00\x0e\x00\x00\x00\x00\x80\x00\x00\x00\x00\x00\x00\x00\x12\x34\x56\x78\x77\x72\x00\x16\x00\x0e\x00\x00\x00\x14\x80\x00\x00\x01\x00\x00\x00\xa0\x12\x34\x56\x78\xba\x21";

const GENERATED: &[(&str, u8, &[&[u8]], &str)] = &[
    ("gen 42 1 16", 0, &[PREAMBLE, DRAWN_42], "records 1\n"),
    ("gen 42 0 12", 0, &[PREAMBLE], "records 0\n"),
    ("gen 2 2 14", 0, &[PREAMBLE, DRAWN_2], "records 2\n"),
    (
        "gen 4294967298 2 14",
        0,
        &[PREAMBLE, DRAWN_WIDE],
        "records 2\n",
    ),
    (
        "gen 18446744073709551615 2 14",
        0,
        &[PREAMBLE, DRAWN_WIDEST],
        "records 2\n",
    ),
    ("gen 18446744073709551616 2 14", 2, &[], "usage\n"),
    ("gen 42 1 11", 2, &[], "usage\n"),
    ("gen 042 1 16", 2, &[], "usage\n"),
];

#[test]
fn gen_generates_and_refuses(rt: HostRuntime) -> Result<(), Fail> {
    for row in GENERATED {
        let (line, status, given, note) = *row;
        // The input isn't read.
        let answer = answer_of(&rt, rt.alloc(), line, &[SHORT], 1000, 1000)?;
        let given = joined(rt.alloc(), given)?;
        assert_answer(&rt, line, &answer, status, &given, note);
    }
    Ok(())
}

// In pieces of 7 bytes, each call writes one.
const FAILED_WRITES: &[(usize, u32, usize)] = &[
    (1000, 0, 0),
    (1000, 3, 21),
    (1000, 9, 63),
    (50, 1000, 50),
    (0, 1000, 0),
];

#[test]
fn gen_stops_at_a_failed_write(rt: HostRuntime) -> Result<(), Fail> {
    let whole = joined(rt.alloc(), &[PREAMBLE, DRAWN_42])?;
    for row in FAILED_WRITES {
        let (room, fail, given) = *row;
        let answer = answer_of(&rt, rt.alloc(), "gen 42 1 16", &[], room, fail)?;
        assert_cut(&rt, &answer, 8, "write fault\n", &whole, given);
    }
    Ok(())
}

const LAST_THREE: &[u8] =
    b"\x00\x14\x00\x0c\x00\x13\xff\xec\x80\x00\xff\xff\x00\x9f\xff\x60\x12\x34\x56\x78\x00\x14\x00\x0c\x00\x14\x00\x00\x80\x00\x00\x00\x00\xa0\x00\x00\x12\x34\x56\x78\x00\x14\x00\x0c\x00\x14\x00\x14\x80\x00\x00\x01\x00\xa0\x00\xa0\x12\x34\x56\x78";

const MANY: &[(u32, u8, usize, &str)] = &[
    (1000, 0, 1_310_804, "records 65538\n"),
    // Three pieces are the first block, of 44 bytes and 9,828 records.
    (4, 8, 196_604 + 65_536, "write fault\n"),
];

// The sequence number has 16 bits. What waits is written in blocks of at most 196,608 bytes.
#[test]
fn generates_many_records(rt: HostRuntime) -> Result<(), Fail> {
    for row in MANY {
        let (fail, status, length, note) = *row;
        let mut cabinet = no_files(rt.alloc());
        let line = "gen 1 65538 12";
        let answer = answer_in_pieces(&rt, rt.alloc(), line, &mut cabinet, b"", 65_536, fail)?;
        assert_told(&rt, line, &answer, status, note);
        let given = answer.given.as_slice();
        assert_eq!(rt; given.len(), length);
        let ends = (given.starts_with(PREAMBLE), given.ends_with(LAST_THREE));
        assert_eq!(rt; ends, (true, status == 0));
    }
    Ok(())
}

// The code whose parity is the block two slots before, for windows of 3 slots, spans of 2, one loss anywhere and the deadline 2.
const CODE: &[u8] = b"{\"channel\":[3,2,1,2],\"k\":1,\"lags\":[[[0]],[[0]],[[1]]],\"r\":1}";

// A packet of 12 bytes in its record, and its frame. In pieces of 7 bytes, 20 calls read the preamble and 7 write it.
const PACKET: &[u8] =
    b"\x00\x14\x00\x0c\x00\x00\x00\x14\x80\x00\x00\x01\x00\x00\x00\xa0\x12\x34\x56\x78";

const FRAME: &[u8] = b"\x00\x0c\x00\x00\x00\x14\x80\x00\x00\x01\x00\x00\x00\xa0\x12\x34\x56\x78";

const ZEROS: &[u8] = &[0; 18];

// The record of a slot without its block and parity: where there is no packet, and where this one is the last.
const EMPTY_0: &[u8] =
    b"\x00\x44\x00\x3c\x00\x00\x00\x00\x80\x60\x00\x00\x00\x00\x00\x00SCD1SC\x01\x01\x01\x01\x00\x12\x00\x00\x00\x00";

const EMPTY_1: &[u8] =
    b"\x00\x44\x00\x3c\x00\x00\x00\x00\x80\x60\x00\x01\x00\x00\x00\x00SCD1SC\x01\x01\x01\x02\x00\x12\x00\x00\x00\x01";

const SLOT_0: &[u8] =
    b"\x00\x44\x00\x3c\x00\x00\x00\x14\x80\x60\x00\x00\x00\x00\x00\xa0SCD1SC\x01\x01\x01\x00\x00\x12\x00\x00\x00\x00";

const SLOT_1: &[u8] =
    b"\x00\x44\x00\x3c\x00\x00\x00\x14\x80\x60\x00\x01\x00\x00\x00\xa0SCD1SC\x01\x01\x01\x01\x00\x12\x00\x00\x00\x01";

const SLOT_2: &[u8] =
    b"\x00\x44\x00\x3c\x00\x00\x00\x14\x80\x60\x00\x02\x00\x00\x00\xa0SCD1SC\x01\x01\x01\x02\x00\x12\x00\x00\x00\x02";

// A record of RTCP, one that is cut, and one whose packet has version 1.
const OTHERS: &[u8] = b"\x00\x0c\x00\x00\x00\x00\x00\x00\x80\xc9\x00\x00\
    \x00\x14\x00\x14\x00\x00\x00\x00\x80\x00\x00\x01\x00\x00\x00\xa0\x12\x34\x56\x78\
    \x00\x14\x00\x0c\x00\x00\x00\x00\x40\x00\x00\x01\x00\x00\x00\xa0\x12\x34\x56\x78";

const LONGER: &[u8] =
    b"\x00\x15\x00\x0d\x00\x00\x00\x14\x80\x00\x00\x01\x00\x00\x00\xa0\x12\x34\x56\x78\xff";

// The protected packet.
const ALL: &[&[u8]] = &[
    PREAMBLE, SLOT_0, FRAME, ZEROS, SLOT_1, ZEROS, ZEROS, SLOT_2, ZEROS, FRAME,
];

const PROTECTS: &[(&[&[u8]], u8, &[&[u8]], &str)] = &[
    (
        &[PREAMBLE],
        0,
        &[PREAMBLE, EMPTY_0, ZEROS, ZEROS, EMPTY_1, ZEROS, ZEROS],
        "slots 2 rtcp 0 cut 0 strange 0\n",
    ),
    (
        &[PREAMBLE, PACKET],
        0,
        ALL,
        "slots 3 rtcp 0 cut 0 strange 0\n",
    ),
    (
        &[PREAMBLE, OTHERS, PACKET],
        0,
        ALL,
        "slots 3 rtcp 1 cut 1 strange 1\n",
    ),
    (&[PREAMBLE, LONGER], 4, &[PREAMBLE], "limit size 0 13\n"),
    (
        &[PREAMBLE, OTHERS, PACKET, LONGER],
        4,
        &[PREAMBLE, SLOT_0, FRAME, ZEROS],
        "limit size 4 13\n",
    ),
    (
        &[PREAMBLE, PACKET, HEAD],
        3,
        &[PREAMBLE, SLOT_0, FRAME, ZEROS],
        "record 1 cut\n",
    ),
    (&[SHORT], 3, &[], "preamble\n"),
];

#[test]
fn protect_protects_and_refuses(rt: HostRuntime) -> Result<(), Fail> {
    for row in PROTECTS {
        let (input, status, given, note) = *row;
        let line = "protect c 12";
        let answer = answer_with(&rt, rt.alloc(), line, CODE, input, 1000, 1000)?;
        let given = joined(rt.alloc(), given)?;
        assert_answer(&rt, line, &answer, status, &given, note);
    }
    Ok(())
}

/// A code file whose code has 63 symbols of parity.
fn wide_code(alloc: Global) -> Result<Vec<u8>, AllocError> {
    let mut text = joined(alloc, &[b"{\"channel\":[2,1,1,1],\"k\":1,\"lags\":[[[0"])?;
    for _ in 1..63 {
        text.extend_from_slice(b",0")?;
    }
    text.extend_from_slice(b"]]],\"r\":63}")?;
    Ok(text)
}

/// With a file of this name and text a line ends with this status and note, and nothing is read or given.
fn judges<R: Threads + Sync + Abort>(
    rt: &R,
    alloc: Global,
    line: &str,
    name: &str,
    text: &[u8],
    status: u8,
    note: &str,
) -> Result<(), Fail> {
    let mut cabinet = one_file(alloc, name, text)?;
    let answer = answer_by(
        rt,
        alloc,
        line,
        &mut cabinet,
        &[PREAMBLE, PACKET],
        1000,
        1000,
    )?;
    assert_untouched(rt, line, &answer, status, note);
    Ok(())
}

fn spaces(alloc: Global, count: usize) -> Result<Vec<u8>, AllocError> {
    vec![in alloc; b' '; count]
}

const JUDGED: &[(&str, &[u8], u8, &str)] = &[
    ("protect code.json 1473", CODE, 2, "usage\n"),
    ("protect code.json 11", CODE, 2, "usage\n"),
    ("protect other.json 12", CODE, 7, "read fault\n"),
    ("protect code.json 12", b"{", 3, "code not json\n"),
    (
        "protect code.json 12",
        b"{\"k\":1}",
        3,
        "code shape channel\n",
    ),
    ("protect code.json 12", b"[]", 3, "code shape whole\n"),
];

// What the words and the file decide: nothing is read or given.
#[test]
fn protect_judges_its_file(rt: HostRuntime) -> Result<(), Fail> {
    let alloc = rt.alloc();
    for row in JUDGED {
        let (line, text, status, note) = *row;
        judges(&rt, alloc, line, "code.json", text, status, note)?;
    }
    let line = "protect code.json 12";
    let full = spaces(alloc, 4_194_304)?;
    judges(&rt, alloc, line, "code.json", &full, 3, "code not json\n")?;
    let long = spaces(alloc, 4_194_305)?;
    judges(
        &rt,
        alloc,
        line,
        "code.json",
        &long,
        4,
        "code limit 4194305\n",
    )?;
    let line = "protect code.json 1472";
    let wide = wide_code(alloc)?;
    judges(
        &rt,
        alloc,
        line,
        "code.json",
        &wide,
        4,
        "limit packet 94616\n",
    )
}

/// Where the fetch of `c` fails, a line ends with a read fault, and nothing is read or given.
fn stops_at_a_failed_fetch<R: Threads + Sync + Abort>(
    rt: &R,
    alloc: Global,
    line: &str,
    input: &[&[u8]],
) -> Result<(), Fail> {
    let fails = vec![in alloc; 0]?;
    let mut failing = failing_files(alloc, CODE, b"", fails)?;
    let answer = answer_by(rt, alloc, line, &mut failing, input, 1000, 1000)?;
    assert_untouched(rt, line, &answer, 7, "read fault\n");
    Ok(())
}

// 27 calls copy the preamble, 4 read the packet, and one finds the end; the slots are written last.
const PROTECT_FAULTS: &[(usize, u32, u8, &str, usize)] = &[
    (1000, 0, 7, "read fault\n", 0),
    (1000, 20, 8, "write fault\n", 0),
    (1000, 26, 8, "write fault\n", 42),
    (1000, 27, 7, "read fault\n", 44),
    (1000, 30, 7, "read fault\n", 44),
    (44 + 100, 1000, 8, "write fault\n", 144),
    (0, 1000, 8, "write fault\n", 0),
];

#[test]
fn faults_of_protect_are_told(rt: HostRuntime) -> Result<(), Fail> {
    let whole = joined(rt.alloc(), ALL)?;
    let line = "protect c 12";
    let input: &[&[u8]] = &[PREAMBLE, PACKET];
    for row in PROTECT_FAULTS {
        let (room, fail, status, note, given) = *row;
        let answer = answer_with(&rt, rt.alloc(), line, CODE, input, room, fail)?;
        assert_cut(&rt, &answer, status, note, &whole, given);
    }
    stops_at_a_failed_fetch(&rt, rt.alloc(), line, input)
}

// The bytes from one place up to another, or none where these aren't there.
fn part(bytes: &[u8], from: usize, end: usize) -> &[u8] {
    match bytes.get(from..end) {
        Some(part) => part,
        None => b"",
    }
}

// Each packet comes in a slot, and its frame again two slots later.
#[test]
fn protects_what_it_generates(rt: HostRuntime) -> Result<(), Fail> {
    let alloc = rt.alloc();
    let mut cabinet = one_file(alloc, "c", CODE)?;
    let line = "gen 5 3000 30";
    let made = answer_in_pieces(&rt, alloc, line, &mut cabinet, b"", 65_536, 10_000)?;
    assert_eq!(rt; made.status, 0);
    let line = "protect c 30";
    let sent = answer_in_pieces(&rt, alloc, line, &mut cabinet, &made.given, 65_536, 10_000)?;
    assert_eq!(rt; sent.status, 0);
    assert_slots(&rt, &made.given, &sent.given);
    Ok(())
}

/// The packet of this number stands in its slot, and two slots later again.
fn stands(made: &[u8], sent: &[u8], slot: usize) -> bool
    requires { slot < 3000 }
{
    let at = 44 + 104 * slot;
    let record = part(made, 46 + 38 * slot, 82 + 38 * slot);
    record.len() == 36
        && part(sent, at + 32, at + 68) == record
        && part(sent, at + 276, at + 312) == record
}

/// Of 3000 packets of 30 bytes each stands in its slot, and two slots later again.
fn assert_slots(rt: &impl Abort, made: &[u8], sent: &[u8]) {
    assert_eq!(rt; sent.len(), 44 + 3002 * 104);
    for slot in 0..3000 {
        assert!(rt; stands(made, sent, slot), "{slot}");
    }
}
