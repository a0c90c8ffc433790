//! Whole runs of `design`. The codes were worked out by hand from the draws, or are told apart by their beginning and end.
use super::{Answer, answer_of, assert_answer, assert_told, assert_untouched};
use crate::design_is_first_good;
use std::alloc::Global;
use std::test::Fail;
use std::thread::Threads;

/// Runs a line over an input that nothing reads.
fn designed<R: Threads + Sync>(rt: &R, alloc: Global, line: &str) -> Result<Answer, Fail> {
    answer_of(rt, alloc, line, &[b"input"], 2000, 1000)
}

// The entry of the least optimal code is the first draw for 0, which is 1 + 0x47c28b93 mod 255. In the second code of bursts it is
// the inverse of 2, and in the layered one both draws for 0 stand.
const DESIGNS: &[(&str, &str, &str)] = &[
    (
        "design optimal 2 1 1 1",
        "{\"channel\":[2,1,1,1],\"k\":1,\"lags\":[[[0]],[[42]]],\"r\":1}\n",
        "candidate 0 rate 1/2\n",
    ),
    (
        "design ms 3 2 1 2",
        "{\"channel\":[3,2,1,2],\"k\":2,\"lags\":[[[0,0],[0,0]],[[0,0],[0,0]],[[1,0],[0,1]],[[0,0],[0,0]]],\"r\":2}\n",
        "candidate 0 rate 2/4\n",
    ),
    (
        "design ms 4 1 1 3",
        "{\"channel\":[4,1,1,3],\"k\":3,\"lags\":[[[0],[0],[0]],[[0],[0],[142]],[[0],[1],[0]],[[1],[0],[0]]],\"r\":1}\n",
        "candidate 0 rate 3/4\n",
    ),
    (
        "design layered 2 1 1 1",
        "{\"channel\":[2,1,1,1],\"k\":1,\"lags\":[[[0,42]],[[1,219]]],\"r\":2}\n",
        "candidate 0 rate 1/3\n",
    ),
];

#[test]
fn design_gives_the_code_file(rt: HostRuntime) -> Result<(), Fail> {
    for row in DESIGNS {
        let (line, given, note) = *row;
        let answer = designed(&rt, rt.alloc(), line)?;
        assert_answer(&rt, line, &answer, 0, given.as_bytes(), note);
    }
    design_is_first_good();
    Ok(())
}

// The first candidate for the second channel fails, and so the next one is given.
const GOOD: &[(&str, &str, &str, &str)] = &[
    (
        "design optimal 11 4 2 10",
        "{\"channel\":[11,4,2,10],\"k\":9,",
        "\"r\":4}\n",
        "candidate 0 rate 9/13\n",
    ),
    (
        "design optimal 9 5 5 8",
        "{\"channel\":[9,5,5,8],\"k\":4,",
        "\"r\":5}\n",
        "candidate 1 rate 4/9\n",
    ),
];

#[test]
fn design_gives_the_first_good(rt: HostRuntime) -> Result<(), Fail> {
    for row in GOOD {
        let (line, start, end, note) = *row;
        let answer = designed(&rt, rt.alloc(), line)?;
        assert_told(&rt, line, &answer, 0, note);
        let given = answer.given.as_slice();
        let starts = given.starts_with(start.as_bytes());
        assert!(rt; starts && given.ends_with(end.as_bytes()), "{line}");
    }
    Ok(())
}

// Two losses anywhere are tested before the symbols, and these before the classes.
const REFUSED: &[(&str, u8, &str)] = &[
    ("design ms 3 2 2 2", 10, "no code\n"),
    ("design ms 41 25 2 40", 10, "no code\n"),
    ("design ms 41 25 1 40", 4, "limit symbols 65\n"),
    ("design layered 41 24 1 40", 4, "limit symbols 65\n"),
    ("design optimal 41 40 9 40", 4, "limit symbols 72\n"),
    ("design optimal 41 7 7 40", 11, "classes 3838381\n"),
    ("design ms 3 2 1 3", 2, "usage\n"),
    ("design code 3 2 1 2", 2, "usage\n"),
];

#[test]
fn design_refuses(rt: HostRuntime) -> Result<(), Fail> {
    for row in REFUSED {
        let (line, status, note) = *row;
        let answer = designed(&rt, rt.alloc(), line)?;
        assert_untouched(&rt, line, &answer, status, note);
    }
    Ok(())
}
