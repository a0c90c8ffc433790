//! The adapter over streams that are interrupted, fail or move few bytes: its answers, its bytes and its counts.
use super::*;
use crate::stream::tests::Script;
use std::test::Fail;

fn port_over(
    alloc: Global,
    interrupts: u32,
    moved: Option<usize>,
    faults: u64,
) -> Result<StreamPort<Script, Script>, Fail> {
    let input = Script::new(alloc, interrupts, moved);
    let output = Script::new(alloc, interrupts, moved);
    let mut port = StreamPort::new(alloc, input, output)?;
    port.read_faults = faults;
    port.write_faults = faults;
    Ok(port)
}

// Interrupted calls, bytes a call, the count of faults before; what two reads answer, the bytes that they read, the
// count of faults after them, and the calls of the stream.
type Row = (
    u32,
    Option<usize>,
    u64,
    [Result<usize, Failed>; 2],
    &'static [u8],
    u64,
    u32,
);

// What two calls answered, the bytes that they moved, the counts after them, and the calls of the stream.
#[derive(Drop)]
struct Seen {
    answers: [Result<usize, Failed>; 2],
    bytes: Vec<u8>,
    read_faults: u64,
    write_faults: u64,
    calls: u32,
}

impl Seen {
    fn is(
        &self,
        answers: [Result<usize, Failed>; 2],
        bytes: &[u8],
        read_faults: u64,
        write_faults: u64,
        calls: u32,
    ) -> bool {
        self.answers == answers
            && self.bytes.as_slice() == bytes
            && self.read_faults == read_faults
            && self.write_faults == write_faults
            && self.calls == calls
    }
}

// One read into four bytes; those that it read are put behind `taken`.
fn read_once(
    port: &mut StreamPort<Script, Script>,
    taken: &mut Vec<u8>,
) -> Result<Result<usize, Failed>, Fail> {
    let mut buf = [0; 4];
    let got = port.read(&mut buf);
    if let Ok(n) = got {
        taken.extend_from_slice(&buf[..n])?;
    }
    Ok(got)
}

fn reads_of(
    alloc: Global,
    interrupts: u32,
    moved: Option<usize>,
    faults: u64,
) -> Result<Seen, Fail> {
    let mut port = port_over(alloc, interrupts, moved, faults)?;
    let mut bytes = Vec::new(alloc);
    let first = read_once(&mut port, &mut bytes)?;
    let second = read_once(&mut port, &mut bytes)?;
    Ok(Seen {
        answers: [first, second],
        bytes,
        read_faults: port.read_faults,
        write_faults: port.write_faults,
        calls: port.input.get_ref().calls,
    })
}

fn write_once(port: &mut StreamPort<Script, Script>) -> Result<usize, Failed> {
    port.write(b"wxyz")
}

fn writes_of(
    alloc: Global,
    interrupts: u32,
    moved: Option<usize>,
    faults: u64,
) -> Result<Seen, Fail> {
    let mut port = port_over(alloc, interrupts, moved, faults)?;
    let first = write_once(&mut port);
    let second = write_once(&mut port);
    Ok(Seen {
        answers: [first, second],
        bytes: Vec::from_slice(alloc, port.output.given.as_slice())?,
        read_faults: port.read_faults,
        write_faults: port.write_faults,
        calls: port.output.calls,
    })
}

#[test]
fn reads(rt: HostRuntime) -> Result<(), Fail> {
    let table: [Row; 9] = [
        (0, Some(3), 0, [Ok(3), Ok(3)], b"abcdef", 0, 2),
        (2, Some(3), 7, [Ok(3), Ok(3)], b"abcdef", 7, 4),
        (0, Some(9), 0, [Ok(4), Ok(4)], b"abcdefgh", 0, 1),
        (
            1000,
            Some(4),
            u64::MAX,
            [Ok(4), Ok(4)],
            b"abcdefgh",
            u64::MAX,
            1002,
        ),
        (1001, Some(3), 0, [Err(Failed), Ok(3)], b"abc", 1, 1002),
        (2002, Some(3), 7, [Err(Failed), Err(Failed)], b"", 9, 2002),
        (4, None, 0, [Err(Failed), Err(Failed)], b"", 2, 6),
        (
            0,
            None,
            u64::MAX - 1,
            [Err(Failed), Err(Failed)],
            b"",
            u64::MAX,
            2,
        ),
        (0, Some(0), 5, [Ok(0), Ok(0)], b"", 5, 2),
    ];
    for (interrupts, moved, faults, answers, bytes, faults_after, calls) in table {
        let seen = reads_of(rt.alloc(), interrupts, moved, faults)?;
        assert!(rt;
            seen.is(answers, bytes, faults_after, faults, calls),
            "{interrupts}, {moved:?}"
        );
    }
    Ok(())
}

#[test]
fn writes(rt: HostRuntime) -> Result<(), Fail> {
    let table: [Row; 9] = [
        (0, Some(3), 0, [Ok(3), Ok(3)], b"wxywxy", 0, 2),
        (2, Some(3), 7, [Ok(3), Ok(3)], b"wxywxy", 7, 4),
        (0, Some(9), 0, [Ok(4), Ok(4)], b"wxyzwxyz", 0, 2),
        (
            1000,
            Some(4),
            u64::MAX,
            [Ok(4), Ok(4)],
            b"wxyzwxyz",
            u64::MAX,
            1002,
        ),
        (1001, Some(3), 0, [Err(Failed), Ok(3)], b"wxy", 1, 1002),
        (2002, Some(3), 7, [Err(Failed), Err(Failed)], b"", 9, 2002),
        (4, None, 0, [Err(Failed), Err(Failed)], b"", 2, 6),
        (
            0,
            None,
            u64::MAX - 1,
            [Err(Failed), Err(Failed)],
            b"",
            u64::MAX,
            2,
        ),
        (0, Some(0), 5, [Err(Failed), Err(Failed)], b"", 7, 2),
    ];
    for (interrupts, moved, faults, answers, bytes, faults_after, calls) in table {
        let seen = writes_of(rt.alloc(), interrupts, moved, faults)?;
        assert!(rt;
            seen.is(answers, bytes, faults, faults_after, calls),
            "{interrupts}, {moved:?}"
        );
    }
    Ok(())
}

#[test]
fn what_is_at_hand(rt: HostRuntime) -> Result<(), Fail> {
    let mut port = port_over(rt.alloc(), 0, Some(5), 0)?;
    let mut buf = [0; 2];
    assert_eq!(rt; port.ready(), 0);
    for ready in [3, 1, 0, 1] {
        assert!(rt; port.read(&mut buf).is_ok());
        assert_eq!(rt; port.ready(), ready);
    }
    Ok(())
}

// Over std's own streams in memory, which tell their bytes.
#[test]
fn streams_that_tell(rt: HostRuntime) -> Result<(), Fail> {
    let output = Vec::new(rt.alloc());
    let mut port = StreamPort::new(rt.alloc(), b"abc".as_slice(), output)?;
    let mut buf = [0; 4];
    assert_eq!(rt; port.read(&mut buf), Ok(3));
    assert_eq!(rt; buf, *b"abc\0");
    assert_eq!(rt; port.read(&mut buf), Ok(0));
    assert_eq!(rt; port.write(&buf), Ok(4));
    assert_eq!(rt; port.output.as_slice(), b"abc\0".as_slice());
    Ok(())
}
