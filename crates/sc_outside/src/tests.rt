//! Ports and sinks in memory and over the machine's streams, each call once. Expected values were written out by hand.
ghost use Rattle.std.specs.Prelude.{◌<◌, length};

use super::Move::{Read, Written};
use super::*;
use std::alloc::Global;
use std::test::Fail;

// By the bound alone.
fn put<S: Sink>(sink: &mut S, piece: &[u8]) -> Result<usize, Failed>
    requires { 0 < length piece.now }
{
    sink.write(piece)
}

#[test]
fn moves_in_pieces(rt: HostRuntime) -> Result<(), Fail> {
    let by_one = [
        Read(1),
        Read(1),
        Read(1),
        Read(1),
        Read(1),
        Read(0),
        Written(1),
        Written(1),
        Written(1),
    ];
    let by_two = [Read(2), Read(1), Read(2), Read(0), Written(2), Written(1)];
    let at_once = [Read(3), Read(2), Read(0), Written(3)];
    let table: [(usize, &[Move]); 3] = [(1, &by_one), (2, &by_two), (100, &at_once)];
    for (piece, journal) in table {
        assert!(rt; piece >= 1);
        let input = Vec::from_slice(rt.alloc(), &[1, 2, 3, 4, 5])?;
        let mut port = MemoryPort::new(rt.alloc(), input, 3, 9, piece, Vec::new(rt.alloc()))?;
        let steps = [
            (Step::Fill, Ok(3), [1, 2, 3]),
            (Step::Fill, Ok(2), [4, 5, 3]),
            (Step::Put(b"abc"), Ok(0), [4, 5, 3]),
        ];
        assert!(rt; takes_steps(&mut port, &steps), "pieces of {piece}");
        assert!(rt;
            port.given() == b"abc".as_slice() && port.journal() == journal,
            "pieces of {piece}"
        );
    }
    Ok(())
}

// A call on a port with a buffer of three bytes.
#[derive(Copy, Clone)]
enum Step {
    Fill,
    Take,
    Put(&'static [u8]),
}

// What it answers: the number of bytes, and 0 for a whole piece.
fn take_step(port: &mut MemoryPort, buf: &mut [u8; 3], step: Step) -> Result<usize, Failed> {
    match step {
        Step::Fill => read_exact_or_end(port, buf),
        Step::Take => port.read(buf),
        Step::Put(piece) => match write_whole(port, piece) {
            Ok(()) => Ok(0),
            Err(fault) => Err(fault),
        },
    }
}

// A step, what it answers, and the buffer after it.
type Taken = (Step, Result<usize, Failed>, [u8; 3]);

// Whether a port takes these steps so, one after the other.
fn takes_steps(port: &mut MemoryPort, steps: &[Taken]) -> bool {
    let mut buf = [0; 3];
    for (step, answer, bytes) in steps {
        if take_step(port, &mut buf, *step) != *answer || buf != *bytes {
            return false;
        }
    }
    true
}

#[test]
fn calls_that_fail(rt: HostRuntime) -> Result<(), Fail> {
    let input = Vec::from_slice(rt.alloc(), &[1, 2, 3, 4, 5, 6])?;
    let fails = Vec::from_slice(rt.alloc(), &[0, 2, 5])?;
    let mut port = MemoryPort::new(rt.alloc(), input, 4, 11, 2, fails)?;
    let table: [Taken; 8] = [
        // call 0
        (Step::Fill, Err(Failed), [0, 0, 0]),
        // calls 1 and 2
        (Step::Fill, Err(Failed), [1, 2, 0]),
        // calls 3 and 4
        (Step::Fill, Ok(3), [3, 4, 5]),
        // call 5, and then calls 6 and 7
        (Step::Put(b"abc"), Err(Failed), [3, 4, 5]),
        (Step::Put(b"abc"), Ok(0), [3, 4, 5]),
        // call 8 fills the room, and call 9 finds none
        (Step::Put(b"def"), Err(Failed), [3, 4, 5]),
        // call 10, the last one that may move a byte
        (Step::Take, Ok(1), [6, 4, 5]),
        (Step::Take, Err(Failed), [6, 4, 5]),
    ];
    assert!(rt; takes_steps(&mut port, &table));
    assert_eq!(rt; port.given(), b"abcd".as_slice());
    let journal = [
        Read(2),
        Read(2),
        Read(1),
        Written(2),
        Written(1),
        Written(1),
        Read(1),
    ];
    assert_eq!(rt; port.journal(), journal.as_slice());
    Ok(())
}

#[test]
fn a_sink_in_memory(rt: HostRuntime) -> Result<(), Fail> {
    let fails = Vec::from_slice(rt.alloc(), &[1])?;
    let mut sink = MemorySink::new(rt.alloc(), 4, fails)?;
    assert_eq!(rt; put(&mut sink, b"ab"), Ok(2));
    assert_eq!(rt; put(&mut sink, b"c"), Err(Failed));
    assert_eq!(rt; put(&mut sink, b"cde"), Ok(2));
    assert_eq!(rt; put(&mut sink, b"e"), Err(Failed));
    assert_eq!(rt; sink.given(), b"abcd".as_slice());
    let mut notes = MemorySink::new(rt.alloc(), 4, Vec::new(rt.alloc()))?;
    assert_eq!(rt; tell_whole(&mut notes, b"abc"), Ok(()));
    assert_eq!(rt; tell_whole(&mut notes, b"de"), Err(Failed));
    assert_eq!(rt; notes.given(), b"abcd".as_slice());
    let mut full = MemorySink::new(rt.alloc(), 0, Vec::new(rt.alloc()))?;
    assert_eq!(rt; put(&mut full, b"a"), Err(Failed));
    assert!(rt; full.given().is_empty());
    Ok(())
}

// 65,536 bytes in 1,000 calls.
#[test]
fn a_port_of_real_size(rt: HostRuntime) -> Result<(), Fail> {
    let input = vec![in rt.alloc(); 7; 65_536]?;
    let none = Vec::new(rt.alloc());
    let mut port = MemoryPort::new(rt.alloc(), input, 65_536, 1_000, 132, none)?;
    let mut buf = vec![in rt.alloc(); 0; 65_536]?;
    // 497 reads and as many writes
    assert_eq!(rt; read_exact_or_end(&mut port, &mut buf), Ok(65_536));
    assert_eq!(rt; write_whole(&mut port, &buf), Ok(()));
    for _ in 0..6 {
        assert_eq!(rt; port.read(&mut [0]), Ok(0));
    }
    assert_eq!(rt; port.read(&mut [0]), Err(Failed));
    assert_eq!(rt; port.journal().len(), 1_000);
    assert_eq!(rt; port.given().len(), 65_536);
    assert!(rt; port.given().iter().all(|byte| *byte == 7));
    Ok(())
}

// What a read of a buffer of this size answers, and the buffer after it.
fn read_of(port: &mut GrowPort, buf: &mut [u8; 4], size: usize) -> Result<usize, Failed> {
    match size {
        0 => read_exact_or_end(port, buf),
        _ => port.read(&mut buf[..size.min(4)]),
    }
}

#[test]
fn a_port_that_grows(rt: HostRuntime) -> Result<(), Fail> {
    let input = Vec::from_slice(rt.alloc(), &[1, 2, 3, 4, 5, 6])?;
    let mut port = GrowPort::new(rt.alloc(), input, 2)?;
    let mut buf = [0; 4];
    // A read of so many bytes, what it answers, the buffer after it, and what is left; 0 reads until the buffer is full.
    let table: [(usize, usize, [u8; 4], usize); 5] = [
        (3, 3, [1, 2, 3, 0], 3),
        (1, 1, [4, 2, 3, 0], 2),
        (4, 2, [5, 6, 3, 0], 0),
        (4, 0, [5, 6, 3, 0], 0),
        (0, 0, [5, 6, 3, 0], 0),
    ];
    for (size, answer, bytes, left) in table {
        assert_eq!(rt; read_of(&mut port, &mut buf, size), Ok(answer), "{size}");
        assert!(rt; buf == bytes && port.ready() == left, "{size}");
    }
    // the third write is the first that finds no room
    for (piece, len) in [(b"a".as_slice(), 1), (b"b", 1), (b"cdefg", 5), (b"h", 1)] {
        assert_eq!(rt; port.write(piece), Ok(len));
    }
    assert_eq!(rt; port.into_given().as_slice(), b"abcdefgh".as_slice());
    Ok(())
}

// A million bytes through a port that reserved too few, and through one that reserved all.
#[test]
fn a_growing_port_of_real_size(rt: HostRuntime) -> Result<(), Fail> {
    for reserve in [0, 1_000_000] {
        let input = vec![in rt.alloc(); 7; 1_000_000]?;
        let mut port = GrowPort::new(rt.alloc(), input, reserve)?;
        let mut buf = [0; 1_000];
        for _ in 0..1_000 {
            assert_eq!(rt; read_exact_or_end(&mut port, &mut buf), Ok(1_000));
            assert_eq!(rt; write_whole(&mut port, &buf), Ok(()));
        }
        assert_eq!(rt; port.ready(), 0);
        let given = port.into_given();
        assert_eq!(rt; given.len(), 1_000_000);
        assert!(rt; given.iter().all(|byte| *byte == 7));
    }
    Ok(())
}

#[test]
fn a_sink_of_real_size(rt: HostRuntime) -> Result<(), Fail> {
    let mut sink = MemorySink::new(rt.alloc(), 65_536, Vec::new(rt.alloc()))?;
    for _ in 0..1_000 {
        assert_eq!(rt; tell_whole(&mut sink, &[7; 65]), Ok(()));
    }
    assert_eq!(rt; tell_whole(&mut sink, &[7; 536]), Ok(()));
    assert_eq!(rt; tell_whole(&mut sink, b"."), Err(Failed));
    assert_eq!(rt; sink.given().len(), 65_536);
    Ok(())
}

#[test]
fn the_machines_streams(rt: HostRuntime) -> Result<(), Fail> {
    let mut port = StdPort::new(rt.alloc(), rt.stdin(), rt.stdout())?;
    assert_eq!(rt; write_whole(&mut port, b"to standard output\n"), Ok(()));
    // a test's standard input is mostly empty
    let mut buf = [0; 16];
    assert!(rt; read_exact_or_end(&mut port, &mut buf)? <= 16);
    let mut notes = StdSink::new(rt.stderr());
    assert_eq!(rt; put(&mut notes, b"to standard error\n"), Ok(18));
    Ok(())
}

// By the bound alone.
fn get<C: Cabinet>(
    alloc: Global,
    cabinet: &mut C,
    name: &str,
    limit: usize,
) -> Result<Vec<u8>, FetchFault> {
    cabinet.fetch(alloc, name, limit)
}

#[test]
fn fetches(rt: HostRuntime) -> Result<(), Fail> {
    let mut files = Vec::new(rt.alloc());
    for (name, text) in [("code", "abcd"), ("loss", ""), ("codes", "xy")] {
        let bytes = Vec::from_slice(rt.alloc(), text.as_bytes())?;
        files.push((String::from_str(rt.alloc(), name)?, bytes))?;
    }
    let fails = Vec::from_slice(rt.alloc(), &[2, 7])?;
    let mut cabinet = MemoryCabinet::new(files, fails);
    // The name and the limit of each fetch, and what it answers; the third and the eighth fail.
    let table: [(&str, usize, Result<&[u8], FetchFault>); 9] = [
        ("code", 4, Ok(b"abcd")),
        ("code", 3, Ok(b"abc")),
        ("code", 4, Err(FetchFault::Failed)),
        ("codes", 4_194_305, Ok(b"xy")),
        ("loss", 1, Ok(b"")),
        ("cod", 9, Err(FetchFault::Failed)),
        ("code", 0, Ok(b"")),
        ("cod", 9, Err(FetchFault::Failed)),
        ("code", 5, Ok(b"abcd")),
    ];
    for (name, limit, answer) in table {
        match get(rt.alloc(), &mut cabinet, name, limit) {
            Ok(bytes) => assert_eq!(rt; Ok(bytes.as_slice()), answer, "{name}, {limit}"),
            Err(fault) => assert_eq!(rt; Err(fault), answer, "{name}, {limit}"),
        }
    }
    Ok(())
}
