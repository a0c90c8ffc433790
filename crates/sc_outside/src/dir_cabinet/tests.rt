//! The cabinet over the machine: readers that are interrupted, fail or give few bytes, and a file that the test writes.
use super::*;
use crate::stream::tests::Script;
use std::test::Fail;
use std::time::SystemTime;
use std::{env, process};

// Interrupted calls, bytes a call, the limit; what is answered, and the calls of the reader.
type Row = (
    u32,
    Option<usize>,
    usize,
    Result<&'static [u8], FetchFault>,
    u32,
);

#[test]
fn starts(rt: HostRuntime) -> Result<(), Fail> {
    let table: [Row; 8] = [
        (0, Some(9), 9, Ok(b"abcdefgh"), 2),
        (0, Some(3), 9, Ok(b"abcdefgh"), 4),
        (0, Some(3), 8, Ok(b"abcdefgh"), 3),
        (0, Some(3), 7, Ok(b"abcdefg"), 3),
        (0, Some(3), 0, Ok(b""), 0),
        (1000, Some(9), 9, Ok(b"abcdefgh"), 1002),
        (1001, Some(9), 9, Err(FetchFault::Failed), 1001),
        (0, None, 9, Err(FetchFault::Failed), 1),
    ];
    for (interrupts, moved, limit, answer, calls) in table {
        let mut input = Script::new(rt.alloc(), interrupts, moved);
        let start = start_of(rt.alloc(), &mut input, limit);
        match start {
            Ok(bytes) => {
                assert_eq!(rt;
                    Ok(bytes.as_slice()),
                    answer,
                    "{interrupts}, {moved:?}, {limit}"
                )
            }
            Err(fault) => assert_eq!(rt; Err(fault), answer, "{interrupts}, {moved:?}, {limit}"),
        }
        assert_eq!(rt; input.calls, calls, "{interrupts}, {moved:?}, {limit}");
    }
    Ok(())
}

#[test]
fn files(rt: HostRuntime) -> Result<(), Fail> {
    let now = SystemTime::now(&rt)?.duration_since(SystemTime::UNIX_EPOCH)?;
    let name = format!(in rt.alloc(); "streamcode-{}", now.as_nanos())?;
    let path = env::temp_dir(&rt)?.join(rt.alloc(), name.as_str())?;
    let mut text = Vec::new(rt.alloc());
    for i in 0..200_000_u32 {
        text.push((i % 251) as u8)?;
    }
    fs::write(&rt, path.as_path(), text.as_slice())?;
    let mut cabinet = DirCabinet::new(&rt);
    let whole = cabinet.fetch(rt.alloc(), path.as_path().as_str(), 4_194_305);
    let start = cabinet.fetch(rt.alloc(), path.as_path().as_str(), 70_001);
    fs::remove_file(&rt, path.as_path())?;
    let gone = cabinet.fetch(rt.alloc(), path.as_path().as_str(), 10);
    assert!(rt; whole.is_ok_and(|bytes| bytes.as_slice() == text.as_slice()));
    assert!(rt;
        start.is_ok_and(|bytes| bytes.len() == 70_001 && text.starts_with(bytes.as_slice()))
    );
    assert!(rt; gone.is_err_and(|fault| fault == FetchFault::Failed));
    assert_eq!(rt; cabinet.faults, 1);
    Ok(())
}
