//! The adapter over a stream that is interrupted, fails or moves few bytes: its answers, its bytes and its count.
use super::*;
use crate::stream::tests::Script;
use std::alloc::Global;
use std::test::Fail;

// Interrupted calls, bytes a call, the count of faults before; what a write answers, the bytes given, the count after
// it, and the calls of the stream.
type Row = (
    u32,
    Option<usize>,
    u64,
    Result<usize, Failed>,
    &'static [u8],
    u64,
    u32,
);

// What a write answered, the bytes that were given, the count after it, and the calls of the stream.
#[derive(Drop)]
struct Seen {
    answer: Result<usize, Failed>,
    bytes: Vec<u8>,
    faults: u64,
    calls: u32,
}

fn writes_of(
    alloc: Global,
    interrupts: u32,
    moved: Option<usize>,
    faults: u64,
) -> Result<Seen, Fail> {
    let mut sink = StreamSink::new(Script::new(alloc, interrupts, moved));
    sink.faults = faults;
    let answer = sink.write(b"wxyz");
    Ok(Seen {
        answer,
        bytes: Vec::from_slice(alloc, sink.output.given.as_slice())?,
        faults: sink.faults,
        calls: sink.output.calls,
    })
}

#[test]
fn writes(rt: HostRuntime) -> Result<(), Fail> {
    let table: [Row; 6] = [
        (0, Some(3), 7, Ok(3), b"wxy", 7, 1),
        (1000, Some(9), 0, Ok(4), b"wxyz", 0, 1001),
        (1001, Some(3), 0, Err(Failed), b"", 1, 1001),
        (4, None, 5, Err(Failed), b"", 6, 5),
        (0, None, u64::MAX, Err(Failed), b"", u64::MAX, 1),
        (0, Some(0), 0, Err(Failed), b"", 1, 1),
    ];
    for (interrupts, moved, faults, answer, bytes, faults_after, calls) in table {
        let seen = writes_of(rt.alloc(), interrupts, moved, faults)?;
        let right = seen.answer == answer
            && seen.bytes.as_slice() == bytes
            && seen.faults == faults_after
            && seen.calls == calls;
        assert!(rt; right, "{interrupts}, {moved:?}");
    }
    Ok(())
}
