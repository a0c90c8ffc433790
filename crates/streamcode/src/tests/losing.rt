//! Whole runs of `lose`. What is wanted is written out by hand from the format.
use super::{
    Answer, CODE, HEAD, PREAMBLE, SHORT, answer_by, answer_in_pieces, answer_with_both,
    assert_answer, assert_cut, assert_told, assert_untouched, failing_files, joined, spaces,
    two_files,
};
use crate::lose_is_thinning;
use std::alloc::{AllocError, Global};
use std::process::Abort;
use std::test::Fail;
use std::thread::Threads;

/// Three records of one byte each.
const FIRST: &[u8] = b"\x00\x09\x00\x01\x00\x00\x00\x00\xaa";

const SECOND: &[u8] = b"\x00\x09\x00\x01\x00\x00\x00\x14\xbb";

const THIRD: &[u8] = b"\x00\x09\x00\x01\x00\x00\x00\x28\xcc";

/// Runs `lose` over an input, where this is the loss's file.
fn lose_by<R: Threads + Sync>(
    rt: &R,
    alloc: Global,
    loss: &[u8],
    input: &[&[u8]],
    room: usize,
    fail: u32,
) -> Result<Answer, Fail> {
    let mut cabinet = two_files(alloc, CODE, loss)?;
    answer_by(rt, alloc, "lose c d", &mut cabinet, input, room, fail)
}

const THINNED: &[(&[u8], &[&[u8]], u8, &[&[u8]], &str)] = &[
    (
        b"{\"loss\":\"010\"}",
        &[PREAMBLE, FIRST, SECOND, THIRD],
        0,
        &[PREAMBLE, FIRST, THIRD],
        "records 3 lost 1\n",
    ),
    (
        b"{\"loss\":\"101\"}",
        &[PREAMBLE, FIRST, SECOND, THIRD],
        1,
        &[],
        "loss refused at window 0\n",
    ),
    (
        b"{\"loss\":\"11\"}",
        &[PREAMBLE, FIRST, SECOND],
        0,
        &[PREAMBLE],
        "records 2 lost 2\n",
    ),
    (
        b"{\"loss\":\"01\"}",
        &[PREAMBLE, FIRST, SECOND, THIRD],
        3,
        &[PREAMBLE, FIRST],
        "flags 2 more records\n",
    ),
    (
        b"{\"loss\":\"01\"}",
        &[PREAMBLE, FIRST],
        3,
        &[PREAMBLE, FIRST],
        "flags 2 records 1\n",
    ),
    (
        b"{\"loss\":\"00\"}",
        &[PREAMBLE, FIRST, HEAD],
        3,
        &[PREAMBLE, FIRST],
        "record 1 cut\n",
    ),
    (b"{\"loss\":\"00\"}", &[SHORT], 3, &[], "preamble\n"),
    (
        b"{\"loss\":\"\"}",
        &[PREAMBLE],
        0,
        &[PREAMBLE],
        "records 0 lost 0\n",
    ),
];

#[test]
fn lose_thins_and_refuses(rt: HostRuntime) -> Result<(), Fail> {
    for row in THINNED {
        let (loss, input, status, given, note) = *row;
        let answer = lose_by(&rt, rt.alloc(), loss, input, 1000, 1000)?;
        let given = joined(rt.alloc(), given)?;
        assert_answer(&rt, "lose", &answer, status, &given, note);
    }
    lose_is_thinning();
    Ok(())
}

const GOOD: &[u8] = b"{\"loss\":\"010\"}";

const JUDGED: &[(&str, &[u8], &[u8], u8, &str)] = &[
    ("lose 3 2 1 2 010", CODE, GOOD, 2, "usage\n"),
    ("lose c", CODE, GOOD, 2, "usage\n"),
    ("lose c d d", CODE, GOOD, 2, "usage\n"),
    ("lose c e", CODE, GOOD, 7, "read fault\n"),
    ("lose e d", CODE, GOOD, 7, "read fault\n"),
    ("lose c e", b"{", GOOD, 3, "code not json\n"),
    ("lose c d", b"{", b"{", 3, "code not json\n"),
    ("lose d c", CODE, GOOD, 3, "code shape other\n"),
    ("lose c c", CODE, GOOD, 3, "loss shape other\n"),
    ("lose c d", CODE, b"010", 3, "loss not json\n"),
    ("lose c d", CODE, b"\"010\"", 3, "loss shape whole\n"),
    ("lose c d", CODE, b"{}", 3, "loss shape loss\n"),
    ("lose c d", CODE, b"{\"loss\":10}", 3, "loss shape loss\n"),
    (
        "lose c d",
        CODE,
        b"{\"loss\":\"012\"}",
        3,
        "loss range loss\n",
    ),
];

/// With files of these texts a line ends with this status and note, and nothing is read or given.
fn judges_both<R: Threads + Sync + Abort>(
    rt: &R,
    alloc: Global,
    line: &str,
    code: &[u8],
    loss: &[u8],
    status: u8,
    note: &str,
) -> Result<(), Fail> {
    let input: &[&[u8]] = &[PREAMBLE, FIRST, SECOND, THIRD];
    let answer = answer_with_both(rt, alloc, line, code, loss, input)?;
    assert_untouched(rt, line, &answer, status, note);
    Ok(())
}

// What the words and the files decide: nothing is read or given. The code's file is judged before the loss's is fetched, and
// the form of both before the loss itself.
#[test]
fn lose_judges_its_files(rt: HostRuntime) -> Result<(), Fail> {
    let alloc = rt.alloc();
    for row in JUDGED {
        let (line, code, loss, status, note) = *row;
        judges_both(&rt, alloc, line, code, loss, status, note)?;
    }
    let full = spaces(alloc, 4_194_304)?;
    judges_both(&rt, alloc, "lose c d", CODE, &full, 3, "loss not json\n")?;
    let long = spaces(alloc, 4_194_305)?;
    judges_both(
        &rt,
        alloc,
        "lose c d",
        CODE,
        &long,
        4,
        "loss limit 4194305\n",
    )?;
    judges_both(
        &rt,
        alloc,
        "lose c e",
        &long,
        GOOD,
        4,
        "code limit 4194305\n",
    )
}

const FETCHES: &[(u32, u8, &str)] = &[
    (0, 7, "read fault\n"),
    (1, 7, "read fault\n"),
    (2, 0, "records 1 lost 0\n"),
];

// The code's file is fetched first, and the loss's next. Where one fails, nothing is read.
#[test]
fn lose_stops_at_a_failed_fetch(rt: HostRuntime) -> Result<(), Fail> {
    for row in FETCHES {
        let (fail, status, note) = *row;
        let fails = vec![in rt.alloc(); fail]?;
        let mut cabinet = failing_files(rt.alloc(), CODE, b"{\"loss\":\"0\"}", fails)?;
        let line = "lose c d";
        let input: &[&[u8]] = &[PREAMBLE, FIRST];
        let answer = answer_by(&rt, rt.alloc(), line, &mut cabinet, input, 1000, 1000)?;
        assert_told(&rt, line, &answer, status, note);
        assert_eq!(rt; answer.moves == 0, status == 7, "{fail}");
    }
    Ok(())
}

const CHANNELS: &[(&[u8], u8, &str)] = &[
    (CODE, 1, "loss refused at window 0\n"),
    (
        b"{\"channel\":[3,2,2,2],\"k\":1,\"lags\":[[[0]]],\"r\":1}",
        0,
        "records 3 lost 2\n",
    ),
    (
        b"{\"channel\":[2,1,1,1],\"k\":1,\"lags\":[[[0]]],\"r\":1}",
        0,
        "records 3 lost 2\n",
    ),
];

// The channel is the code file's: two losses at both ends of three slots are refused for one loss anywhere, and not for two.
#[test]
fn lose_takes_the_channel_of_its_code(rt: HostRuntime) -> Result<(), Fail> {
    for row in CHANNELS {
        let (code, status, note) = *row;
        let line = "lose c d";
        let input: &[&[u8]] = &[PREAMBLE, FIRST, SECOND, THIRD];
        let loss = b"{\"loss\":\"101\"}";
        let answer = answer_with_both(&rt, rt.alloc(), line, code, loss, input)?;
        assert_told(&rt, line, &answer, status, note);
    }
    Ok(())
}

// One record of no body with this offset.
fn empty_record(offset: u32) -> [u8; 8] {
    let [a, b, c, d] = offset.to_be_bytes();
    [0, 8, 0, 0, a, b, c, d]
}

/// Three thousand records, or those of them that bursts of ten every hundred leave.
fn records(alloc: Global, all: bool) -> Result<Vec<u8>, AllocError> {
    let mut bytes = joined(alloc, &[PREAMBLE])?;
    for i in 0..3000u32 {
        if all || i % 100 >= 10 {
            bytes.extend_from_slice(&empty_record(i))?;
        }
    }
    Ok(bytes)
}

/// The loss of these bursts.
fn bursts(alloc: Global) -> Result<Vec<u8>, AllocError> {
    let mut loss = joined(alloc, &[b"{\"loss\":\""])?;
    for i in 0..3000u32 {
        loss.push(if i % 100 < 10 { b'1' } else { b'0' })?;
    }
    loss.extend_from_slice(b"\"}")?;
    Ok(loss)
}

#[test]
fn thins_three_thousand_records(rt: HostRuntime) -> Result<(), Fail> {
    let input = records(rt.alloc(), true)?;
    let kept = records(rt.alloc(), false)?;
    let code = b"{\"channel\":[40,10,4,20],\"k\":1,\"lags\":[[[0]]],\"r\":1}";
    let mut cabinet = two_files(rt.alloc(), code, &bursts(rt.alloc())?)?;
    let line = "lose c d";
    let answer = answer_in_pieces(&rt, rt.alloc(), line, &mut cabinet, &input, 65_536, 10_000)?;
    assert_answer(&rt, line, &answer, 0, &kept, "records 3000 lost 300\n");
    Ok(())
}

const FAULTS: &[(usize, u32, u8, &str, usize)] = &[
    (1000, 0, 7, "read fault\n", 0),
    (1000, 19, 7, "read fault\n", 0),
    (1000, 20, 8, "write fault\n", 0),
    (1000, 22, 8, "write fault\n", 14),
    (1000, 27, 7, "read fault\n", 44),
    (1000, 29, 7, "read fault\n", 44),
    (1000, 30, 7, "read fault\n", 53),
    (1000, 35, 7, "read fault\n", 53),
    (50, 1000, 8, "write fault\n", 50),
];

#[test]
fn faults_of_the_port_are_told(rt: HostRuntime) -> Result<(), Fail> {
    let all: &[&[u8]] = &[PREAMBLE, FIRST, SECOND, THIRD];
    let whole = joined(rt.alloc(), &[PREAMBLE, FIRST, THIRD])?;
    // In pieces of 7 bytes, 20 calls read the preamble, byte by byte within its line, and the next 7 write it. Then 3 read
    // each record, and what waits is written last. Of the bytes due so many are given.
    for row in FAULTS {
        let (room, fail, status, note, given) = *row;
        let answer = lose_by(&rt, rt.alloc(), GOOD, all, room, fail)?;
        assert_cut(&rt, &answer, status, note, &whole, given);
    }
    Ok(())
}
