//! Whole runs of `trial`. The numbers come from a Python program: it draws the words of PCG32 and the loss by their definitions, and
//! eliminates over GF(256) what is known by each lost packet's deadline.
use super::{
    Answer, CODE, answer_with, assert_answer, assert_cut, assert_untouched,
    stops_at_a_failed_fetch, wide_code,
};
use crate::trial_is_counting;
use std::alloc::Global;
use std::test::Fail;
use std::thread::Threads;

/// The code of `CODE` for a channel with two losses anywhere, which it doesn't meet.
const OPEN: &[u8] = b"{\"channel\":[3,2,2,2],\"k\":1,\"lags\":[[[0]],[[0]],[[1]]],\"r\":1}";

/// A code of two symbols and three parities for bursts of 3, which doesn't repair any 3 losses.
const PAIR: &[u8] = b"{\"channel\":[4,3,3,3],\"k\":2,\"lags\":[[[0,0,0],[0,0,0]],[[0,0,0],[1,0,0]],\
    [[1,0,0],[0,0,0]],[[0,1,0],[0,0,1]],[[0,0,0],[0,0,0]]],\"r\":3}";

/// Runs a line over an input that nothing reads, with a code file.
fn tried<R: Threads + Sync>(
    rt: &R,
    alloc: Global,
    line: &str,
    code: &[u8],
) -> Result<Answer, Fail> {
    answer_with(rt, alloc, line, code, &[b"input"], 1000, 1000)
}

const TRIALS: &[(&str, &[u8], u8, &str)] = &[
    (
        "trial c 42 4 12",
        CODE,
        0,
        "slots 6 lost 2 equal 4 missed 0\n",
    ),
    (
        "trial c 42 60 200",
        CODE,
        0,
        "slots 62 lost 24 equal 60 missed 0\n",
    ),
    (
        "trial c 42 0 1472",
        CODE,
        0,
        "slots 2 lost 2 equal 0 missed 0\n",
    ),
    (
        "trial c 18446744073709551615 30 13",
        CODE,
        0,
        "slots 32 lost 6 equal 30 missed 0\n",
    ),
    (
        "trial c 42 4 12",
        OPEN,
        0,
        "slots 6 lost 2 equal 4 missed 0\n",
    ),
    (
        "trial c 2 9 12",
        OPEN,
        5,
        "slots 11 lost 4 equal 8 missed 1\n",
    ),
    (
        "trial c 42 60 20",
        OPEN,
        5,
        "slots 62 lost 28 equal 54 missed 6\n",
    ),
    (
        "trial c 1 40 30",
        PAIR,
        0,
        "slots 43 lost 11 equal 40 missed 0\n",
    ),
    (
        "trial c 7 40 30",
        PAIR,
        5,
        "slots 43 lost 16 equal 38 missed 2\n",
    ),
];

#[test]
fn trial_counts_what_comes_back(rt: HostRuntime) -> Result<(), Fail> {
    for row in TRIALS {
        let (line, code, status, given) = *row;
        let answer = tried(&rt, rt.alloc(), line, code)?;
        assert_answer(&rt, line, &answer, status, given.as_bytes(), "trial done\n");
    }
    trial_is_counting();
    Ok(())
}

const REFUSED: &[(&str, &[u8], u8, &str)] = &[
    ("trial c 42 10001 12", CODE, 2, "usage\n"),
    ("trial c 42 4 11", CODE, 2, "usage\n"),
    ("trial c 42 4", CODE, 2, "usage\n"),
    ("trial d 42 4 12", CODE, 7, "read fault\n"),
    ("trial c 42 4 12", b"{", 3, "code not json\n"),
    ("trial c 42 4 12", b"[]", 3, "code shape whole\n"),
];

// What the words and the file decide: nothing is read or given.
#[test]
fn trial_refuses(rt: HostRuntime) -> Result<(), Fail> {
    for row in REFUSED {
        let (line, code, status, note) = *row;
        let answer = tried(&rt, rt.alloc(), line, code)?;
        assert_untouched(&rt, line, &answer, status, note);
    }
    let line = "trial c 42 4 1472";
    let answer = tried(&rt, rt.alloc(), line, &wide_code(rt.alloc())?)?;
    assert_untouched(&rt, line, &answer, 4, "limit packet 94616\n");
    stops_at_a_failed_fetch(&rt, rt.alloc(), "trial c 42 4 12", &[])
}

const FAULTS: &[(usize, u32, u8, &str, usize)] = &[
    (1000, 0, 8, "write fault\n", 0),
    (1000, 4, 8, "write fault\n", 28),
    (31, 1000, 8, "write fault\n", 31),
    (32, 1000, 0, "trial done\n", 32),
];

#[test]
fn trial_stops_at_a_failed_write(rt: HostRuntime) -> Result<(), Fail> {
    let due = b"slots 6 lost 2 equal 4 missed 0\n".as_slice();
    let line = "trial c 42 4 12";
    for row in FAULTS {
        let (room, fail, status, note, given) = *row;
        let answer = answer_with(&rt, rt.alloc(), line, CODE, &[], room, fail)?;
        assert_cut(&rt, &answer, status, note, due, given);
    }
    Ok(())
}
