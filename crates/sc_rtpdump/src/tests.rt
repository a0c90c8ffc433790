//! Worked captures, in memory, and each public call once.

ghost use Rattle.std.specs.Prelude.{◌≤◌, ◌≡◌, IfOk, length};

use super::*;
use sc_channel::Flags;
use sc_outside::{MemoryPort, Move, NoMemory};
use std::alloc::Global;
use std::process::Abort;
use std::test::Fail;

// The line `#!rtpplay1.0 127.0.0.1/5004` with its newline, and 16 bytes.
const PREAMBLE: [u8; 44] =
    *b"#!rtpplay1.0 127.0.0.1/5004\n\0\0\0\0\0\0\0\0\x7f\0\0\x01\x13\x8c\0\0";

// A port whose input is a preamble and `records`.
fn port_of(alloc: Global, records: &[u8], room: usize, piece: usize) -> Result<MemoryPort, NoMemory>
    requires { 1 ≤ piece }
{
    let mut input = Vec::new(alloc);
    input.extend_from_slice(&PREAMBLE)?;
    input.extend_from_slice(records)?;
    MemoryPort::new(alloc, input, room, 1000, piece, Vec::new(alloc))
}

// The loss of the second of three slots.
fn second_of_three(alloc: Global) -> Result<Flags, NoMemory>
    ensures { IfOk result (λ flags. length flags ≡ 3) }
{
    let mut flags = Flags::new(alloc);
    flags.push(false)?;
    flags.push(true)?;
    flags.push(false)?;
    Ok(flags)
}

#[test]
fn reads_preambles_in_pieces(rt: HostRuntime) -> Result<(), Fail> {
    for piece in [1, 7] {
        let mut port = port_of(rt.alloc(), b"\x0a", 0, piece)?;
        let preamble = read_preamble(rt.alloc(), &mut port)?;
        assert_eq!(rt; preamble.bytes(), PREAMBLE.as_slice());
        let mut record = DumpRecord::start(rt.alloc())?;
        let next = next_record(&mut port, 5, &mut record);
        assert_eq!(rt; next, Err(DumpFault::RecordHead(5)));
    }
    Ok(())
}

const PREAMBLES: &[(&str, usize, DumpFault)] = &[
    ("", 1000, DumpFault::Preamble),
    ("#!rtpplay1.0", 1000, DumpFault::Preamble),
    (
        "#!rtpplay1.1 a\n0123456789abcdef",
        1000,
        DumpFault::Preamble,
    ),
    ("#!rtpplay1.0 a0123456789abcdef", 1000, DumpFault::Preamble),
    ("#!rtpplay1.0 a\n0123456789abcde", 1000, DumpFault::Preamble),
    ("#!rtpplay1.0 a\n0123456789abcdef", 30, DumpFault::Read),
];

#[test]
fn refuses_other_preambles(rt: HostRuntime) -> Result<(), Fail> {
    // the last of them is a preamble of 31 bytes, of which 30 are read before a read fails
    for row in PREAMBLES {
        let (input, moves, want) = *row;
        let bytes = input.as_bytes().to_vec(rt.alloc())?;
        let mut port = MemoryPort::new(rt.alloc(), bytes, 0, moves, 1, Vec::new(rt.alloc()))?;
        assert_eq!(rt;
            read_preamble(rt.alloc(), &mut port).err(),
            Some(want),
            "at {input}"
        );
    }
    Ok(())
}

#[test]
fn reads_records(rt: HostRuntime) -> Result<(), Fail> {
    let input =
        b"\x00\x0b\x01\x02\x00\x00\x01\x05\x80\x60\xff\x00\x08\x00\x00\xff\xff\xff\xff".to_vec(
            rt.alloc(),
        )?;
    let mut port = MemoryPort::new(rt.alloc(), input, 0, 1000, 7, Vec::new(rt.alloc()))?;
    let mut record = DumpRecord::start(rt.alloc())?;
    assert_eq!(rt; record.bytes(), [0, 8, 0, 0, 0, 0, 0, 0].as_slice());
    for (offset, plen, body) in [
        (261, 258, b"\x80\x60\xff".as_slice()),
        (4294967295, 0, b"".as_slice()),
    ] {
        assert_eq!(rt; next_record(&mut port, 0, &mut record), Ok(true));
        assert_eq!(rt; record.offset(), offset);
        assert_eq!(rt; record.plen(), plen);
        assert_eq!(rt; record.body(), body);
    }
    assert_eq!(rt;
        record.bytes(),
        b"\x00\x08\x00\x00\xff\xff\xff\xff".as_slice()
    );
    assert_eq!(rt; next_record(&mut port, 2, &mut record), Ok(false));
    assert_eq!(rt; record.offset(), 0);
    Ok(())
}

#[test]
fn writes_records(rt: HostRuntime) -> Result<(), Fail> {
    let none = Vec::new(rt.alloc());
    let mut port = MemoryPort::new(rt.alloc(), none, 20, 1000, 7, Vec::new(rt.alloc()))?;
    assert!(rt; write_record(&mut port, 261, 258, b"\x80\x60\xff").is_ok());
    assert!(rt; write_record(&mut port, 1, 2, b"").is_ok());
    assert!(rt; write_record(&mut port, 3, 4, b"").is_err());
    assert_eq!(rt;
        port.given(),
        b"\x00\x0b\x01\x02\x00\x00\x01\x05\x80\x60\xff\x00\x08\x00\x02\x00\x00\x00\x01\x00".as_slice()
    );
    Ok(())
}

// Writes a record, reads it back, and gives its kind.
fn kind_of_written(alloc: Global, plen: u16, body: &[u8]) -> Result<Option<Kind>, NoMemory>
    requires { length body.now ≤ MAX_BODY }
{
    let none = Vec::new(alloc);
    let mut port = MemoryPort::new(alloc, none, 100, 1000, 100, Vec::new(alloc))?;
    if write_record(&mut port, 5, plen, body).is_err() {
        return Ok(None);
    }
    let written = port.given().to_vec(alloc)?;
    let mut port = MemoryPort::new(alloc, written, 0, 1000, 7, Vec::new(alloc))?;
    let mut record = DumpRecord::start(alloc)?;
    match next_record(&mut port, 0, &mut record) {
        Ok(true) => Ok(Some(kind_of(&record))),
        _ => Ok(None),
    }
}

const KINDS: &[(u16, &[u8], Kind)] = &[
    (0, b"", Kind::Rtcp),
    // true length 0 and a packet of RTP
    (0, b"\x80\0\0\0\0\0\0\0\0\0\0\0", Kind::Rtcp),
    (1, b"", Kind::Cut),
    // a byte less than there was, of a packet and of what is none
    (13, b"\x80\0\0\0\0\0\0\0\0\0\0\0", Kind::Cut),
    (13, b"\x40\0\0\0\0\0\0\0\0\0\0\0", Kind::Cut),
    // a byte more
    (11, b"\x80\0\0\0\0\0\0\0\0\0\0\0", Kind::Strange),
    // version 1, and a head that isn't whole
    (12, b"\x40\0\0\0\0\0\0\0\0\0\0\0", Kind::Strange),
    (11, b"\x80\0\0\0\0\0\0\0\0\0\0", Kind::Strange),
    (12, b"\x80\0\0\0\0\0\0\0\0\0\0\0", Kind::Rtp),
    (14, b"\xa0\0\0\0\0\0\0\0\0\0\0\0\xaa\x01", Kind::Rtp),
];

#[test]
fn tells_kinds(rt: HostRuntime) -> Result<(), Fail> {
    for row in KINDS {
        let (plen, body, want) = *row;
        let kind = kind_of_written(rt.alloc(), plen, body)?;
        assert_eq!(rt; kind, Some(want), "true length {plen}, {body:?}");
    }
    Ok(())
}

// Thins the preamble and `records` without the second of three records, and compares the answer and what stands behind the
// preamble then.
fn thins(
    rt: &impl Abort,
    alloc: Global,
    records: &[u8],
    room: usize,
    want: Result<Dropped, DropFault>,
    given: &[u8],
) -> Result<(), Fail> {
    let flags = second_of_three(alloc)?;
    let mut port = port_of(alloc, records, room, 7)?;
    assert_eq!(rt; drop_records(alloc, &mut port, &flags), want);
    let mut due = PREAMBLE.to_vec(alloc)?;
    due.extend_from_slice(given)?;
    assert_eq!(rt; port.given(), due.as_slice());
    Ok(())
}

#[test]
fn thins_captures(rt: HostRuntime) -> Result<(), Fail> {
    // three records: of 2 body bytes, of 1 and of none
    let a = b"\x00\x0a\x00\x0c\x00\x00\x00\x01\xaa\xbb".as_slice();
    let ab =
        b"\x00\x0a\x00\x0c\x00\x00\x00\x01\xaa\xbb\x00\x09\x00\x01\x00\x00\x01\x00\xcc".as_slice();
    let abc =
        b"\x00\x0a\x00\x0c\x00\x00\x00\x01\xaa\xbb\x00\x09\x00\x01\x00\x00\x01\x00\xcc\x00\x08\x00\x00\xff\xff\xff\xff".as_slice();
    let ac = b"\x00\x0a\x00\x0c\x00\x00\x00\x01\xaa\xbb\x00\x08\x00\x00\xff\xff\xff\xff".as_slice();
    let done = Ok(Dropped {
        records: 3,
        lost: 1,
    });
    for (records, more, room, want, given) in [
        (abc, b"".as_slice(), 100, done, ac),
        (
            abc,
            b"\x00\x08\x00\x00\x00\x00\x00\x00".as_slice(),
            100,
            Err(DropFault::More),
            ac,
        ),
        (
            abc,
            b"\x00".as_slice(),
            100,
            Err(DropFault::Dump(DumpFault::RecordHead(3))),
            ac,
        ),
        (abc, b"".as_slice(), 60, Err(DropFault::Write), &ac[..16]),
        (ab, b"".as_slice(), 100, Err(DropFault::Fewer(2)), a),
        (
            b"".as_slice(),
            b"".as_slice(),
            100,
            Err(DropFault::Fewer(0)),
            b"".as_slice(),
        ),
        (
            ab,
            b"\x00\x08\x00".as_slice(),
            100,
            Err(DropFault::Dump(DumpFault::RecordHead(2))),
            a,
        ),
        (
            ab,
            b"\x00\x07\x00\x00\x00\x00\x00\x00".as_slice(),
            100,
            Err(DropFault::Dump(DumpFault::RecordLength(2))),
            a,
        ),
        (
            a,
            b"\x00\x09\x00\x01\x00\x00\x01\x00".as_slice(),
            100,
            Err(DropFault::Dump(DumpFault::Truncated(1))),
            a,
        ),
    ] {
        let mut bytes = records.to_vec(rt.alloc())?;
        bytes.extend_from_slice(more)?;
        thins(&rt, rt.alloc(), &bytes, room, want, given)?;
    }
    Ok(())
}

// The loss of none of four slots.
fn none_of_four(alloc: Global) -> Result<Flags, NoMemory>
    ensures { IfOk result (λ flags. length flags ≡ 4) }
{
    let mut flags = Flags::new(alloc);
    flags.push(false)?;
    flags.push(false)?;
    flags.push(false)?;
    flags.push(false)?;
    Ok(flags)
}

#[test]
fn writes_many_records_at_once(rt: HostRuntime) -> Result<(), Fail> {
    // The longest record. Three of them wait together, and are written when the fourth comes.
    let mut record = b"\xff\xff\xff\xf7\x00\x00\x00\x02"
        .as_slice()
        .to_vec(rt.alloc())?;
    record.resize(65535, 0x5a)?;
    let mut records = Vec::new(rt.alloc());
    for _ in 0..4 {
        records.extend_from_slice(&record)?;
    }
    let flags = none_of_four(rt.alloc())?;
    let mut port = port_of(rt.alloc(), &records, 1 << 20, 1 << 20)?;
    let done = Ok(Dropped {
        records: 4,
        lost: 0,
    });
    assert_eq!(rt; drop_records(rt.alloc(), &mut port, &flags), done);
    let mut due = PREAMBLE.to_vec(rt.alloc())?;
    due.extend_from_slice(&records)?;
    assert!(rt; port.given() == due.as_slice());
    let mut written = Vec::new(rt.alloc());
    for step in port.journal() {
        if let Move::Written(n) = step {
            written.push(*n)?;
        }
    }
    assert_eq!(rt; written.as_slice(), [44, 196605, 65535].as_slice());
    Ok(())
}

const FAULTS: &[(DropFault, &str)] = &[
    (DropFault::Dump(DumpFault::Preamble), "preamble"),
    (DropFault::Dump(DumpFault::RecordHead(0)), "record 0 head"),
    (
        DropFault::Dump(DumpFault::RecordLength(7)),
        "record 7 length",
    ),
    (DropFault::Dump(DumpFault::Truncated(12)), "record 12 cut"),
    (DropFault::Dump(DumpFault::Read), "read fault"),
    (DropFault::Dump(DumpFault::Memory), "no memory"),
    (DropFault::More, "more records"),
    (DropFault::Fewer(3), "records 3"),
    (DropFault::Write, "write fault"),
];

#[test]
fn prints_faults(rt: HostRuntime) -> Result<(), Fail> {
    for row in FAULTS {
        let (fault, want) = *row;
        let text = format!(in rt.alloc(); "{fault}")?;
        assert_eq!(rt; text.as_str(), want);
    }
    one_reading();
    thinning_is_a_job();
    Ok(())
}
