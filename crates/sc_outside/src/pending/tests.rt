//! Bytes that wait, over a port in memory: what each call answers, what waits then, and what the port took and gave.
ghost use Rattle.std.specs.Prelude.{◌≤◌};

use super::*;
use crate::Move::{Read, Written};
use crate::{MemoryPort, Move};
use std::test::Fail;

// A port with nine bytes of input and room for eight, which moves three bytes a call at most. The calls of these numbers fail.
fn small_port(alloc: Global, fails: &[u32]) -> Result<MemoryPort, Fail> {
    let input = Vec::from_slice(alloc, b"abcdefghi")?;
    let fails = Vec::from_slice(alloc, fails)?;
    Ok(MemoryPort::new(alloc, input, 8, 20, 3, fails)?)
}

// One byte waits, n are taken in, and all are written.
type Row<'a> = (
    &'a [u32],
    usize,
    Result<bool, Failed>,
    Result<(), Failed>,
    &'a [u8],
    &'a [u8],
);

// What taking in and flushing answered, what waits then, and what the port was given.
#[derive(Drop)]
struct Seen {
    taken: Result<bool, Failed>,
    flushed: Result<(), Failed>,
    waiting: Vec<u8>,
    given: Vec<u8>,
}

fn seen_of(alloc: Global, fails: &[u32], n: usize) -> Result<Seen, Fail>
    requires { n ≤ 10 }
{
    let mut pending = Pending::new(alloc)?;
    let mut port = small_port(alloc, fails)?;
    pending.push(b"x");
    let taken = pending.take_in(&mut port, n);
    let flushed = pending.flush(&mut port);
    Ok(Seen {
        taken,
        flushed,
        waiting: Vec::from_slice(alloc, pending.bytes())?,
        given: Vec::from_slice(alloc, port.given())?,
    })
}

#[test]
fn takes_in_and_flushes(rt: HostRuntime) -> Result<(), Fail> {
    // calls that fail, n, what taking in answers, what the flush answers, what waits, what was given
    let table: [Row; 7] = [
        (&[], 4, Ok(true), Ok(()), b"", b"xabcd"),
        (&[], 0, Ok(true), Ok(()), b"", b"x"),
        (&[], 10, Ok(false), Ok(()), b"", b"x"),
        (&[1], 4, Err(Failed), Ok(()), b"", b"x"),
        (&[2], 4, Ok(true), Err(Failed), b"xabcd", b""),
        (&[3], 4, Ok(true), Err(Failed), b"xabcd", b"xab"),
        (&[], 9, Ok(true), Err(Failed), b"xabcdefghi", b"xabcdefg"),
    ];
    for (fails, n, taken, flushed, waiting, given) in table {
        assert!(rt; n <= 10);
        let seen = seen_of(rt.alloc(), fails, n)?;
        let right = seen.taken == taken
            && seen.flushed == flushed
            && seen.waiting.as_slice() == waiting
            && seen.given.as_slice() == given;
        assert!(rt; right, "{n}, {fails:?}");
    }
    Ok(())
}

#[test]
fn makes_way(rt: HostRuntime) -> Result<(), Fail> {
    // calls that fail, n, what making way answers, what waits, what the port did
    let table: [(&[u32], usize, Result<(), Failed>, &[u8], &[Move]); 5] = [
        (&[], 0, Ok(()), b"xyz", &[]),
        (&[], 9, Ok(()), b"xyz", &[]),
        (&[], 10, Ok(()), b"", &[Written(3)]),
        (&[], Pending::ROOM, Ok(()), b"", &[Written(3)]),
        (&[0], 10, Err(Failed), b"xyz", &[]),
    ];
    for (fails, n, answer, waiting, journal) in table {
        assert!(rt; n <= Pending::ROOM);
        let mut pending = Pending::new(rt.alloc())?;
        let mut port = small_port(rt.alloc(), fails)?;
        pending.push(b"xyzuvw");
        pending.truncate(3);
        assert_eq!(rt; pending.make_way(&mut port, n, n), answer, "{n}, {fails:?}");
        assert_eq!(rt; pending.bytes(), waiting, "{n}, {fails:?}");
        assert_eq!(rt; port.journal(), journal, "{n}, {fails:?}");
    }
    Ok(())
}

// As many bytes wait as may. No more fit, though the port has them at hand.
#[test]
fn fills_the_room(rt: HostRuntime) -> Result<(), Fail> {
    let input = vec![in rt.alloc(); 7; Pending::ROOM + 1]?;
    let none = Vec::new(rt.alloc());
    let mut port = MemoryPort::new(rt.alloc(), input, Pending::ROOM, 9, usize::MAX, none)?;
    let mut pending = Pending::new(rt.alloc())?;
    assert_eq!(rt; pending.take_in(&mut port, Pending::ROOM), Ok(true));
    assert_eq!(rt; pending.make_way(&mut port, 0, 0), Ok(()));
    assert_eq!(rt; pending.len(), Pending::ROOM);
    assert_eq!(rt; pending.make_way(&mut port, 1, 1), Ok(()));
    assert_eq!(rt; pending.len(), 0);
    let journal = [Read(Pending::ROOM), Written(Pending::ROOM)];
    assert_eq!(rt; port.journal(), journal.as_slice());
    Ok(())
}
