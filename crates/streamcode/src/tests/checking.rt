//! Whole runs of `check`. What is wanted is written out by hand from the definitions.
use super::{answer_over, answer_with, answer_with_both, assert_answer, assert_cut, one_file};
use crate::{certify_is_bounding, check_is_meeting};
use sc_check::Gate;
use sc_outside::MemoryPort;
use std::sync::atomic::{AtomicU64, Ordering};
use std::test::Fail;

/// A code with one symbol, whose parity is the symbol of two slots before, for the channel 3 2 1 2.
const REPEAT: &[u8] = b"{\"channel\":[3,2,1,2],\"k\":1,\"lags\":[[[0]],[[0]],[[1]]],\"r\":1}";

/// The same for the channel 3 2 2 2.
const REPEAT_TWO: &[u8] = b"{\"channel\":[3,2,2,2],\"k\":1,\"lags\":[[[0]],[[0]],[[1]]],\"r\":1}";

/// A code with one symbol, whose parity is the symbol of three slots before, for the channel 4 3 3 3.
const LATE: &[u8] = b"{\"channel\":[4,3,3,3],\"k\":1,\"lags\":[[[0]],[[0]],[[0]],[[1]]],\"r\":1}";

/// A code of two symbols and three parities, s0[t-2] + s1[t-1], s0[t-3] and s1[t-3], for the channel 4 3 2 3.
const PAIR: &[u8] = b"{\"channel\":[4,3,2,3],\"k\":2,\"lags\":[[[0,0,0],[0,0,0]],[[0,0,0],[1,0,0]],\
    [[1,0,0],[0,0,0]],[[0,1,0],[0,0,1]],[[0,0,0],[0,0,0]]],\"r\":3}";

/// The same for the channel 4 3 3 3.
const PAIR_THREE: &[u8] =
    b"{\"channel\":[4,3,3,3],\"k\":2,\"lags\":[[[0,0,0],[0,0,0]],[[0,0,0],[1,0,0]],\
    [[1,0,0],[0,0,0]],[[0,1,0],[0,0,1]],[[0,0,0],[0,0,0]]],\"r\":3}";

/// The smallest channel.
const SMALLEST: &[u8] = b"{\"channel\":[2,1,1,1],\"k\":1,\"lags\":[[[0]],[[1]]],\"r\":1}";

/// A channel with too many classes.
const MANY: &[u8] = b"{\"channel\":[41,7,7,40],\"k\":1,\"lags\":[[[0]]],\"r\":1}";

/// What it prints of the code that is late.
const LATE_FAILS: &str = "fails class 2\nloss 1101\nstream 1 0 0 0\nother 0 0 0 0\n";

const CHECKS: &[(&str, &[u8], u8, &str, &str)] = &[
    (
        "check c 1",
        REPEAT,
        0,
        "meets 3 2 1 2 rate 1/2 classes 2\n",
        "accepted\n",
    ),
    (
        "check c 1",
        REPEAT_TWO,
        1,
        "fails class 2\nloss 101\nstream 1 0 0\nother 0 0 0\n",
        "refused\n",
    ),
    (
        "check c 4",
        PAIR,
        0,
        "meets 4 3 2 3 rate 2/5 classes 4\n",
        "accepted\n",
    ),
    (
        "check c 1",
        PAIR_THREE,
        1,
        "fails class 2\nloss 1101\nstream 0,1 0,0 0,0 0,0\nother 0,0 0,0 0,0 0,0\n",
        "refused\n",
    ),
    (
        "check c 1",
        SMALLEST,
        0,
        "meets 2 1 1 1 rate 1/2 classes 2\n",
        "accepted\n",
    ),
    ("check c 1", LATE, 1, LATE_FAILS, "refused\n"),
    ("check c 2", LATE, 1, LATE_FAILS, "refused\n"),
    ("check c 64", LATE, 1, LATE_FAILS, "refused\n"),
    ("check c 1", MANY, 11, "", "classes 3838381\n"),
    ("check c 0", REPEAT, 2, "", "usage\n"),
    ("check c 65", REPEAT, 2, "", "usage\n"),
    ("check d 1", REPEAT, 7, "", "read fault\n"),
    ("check c 1", b"[]", 3, "", "code shape whole\n"),
];

#[test]
fn check_judges_codes(rt: HostRuntime) -> Result<(), Fail> {
    for row in CHECKS {
        let (line, text, status, given, note) = *row;
        let answer = answer_with(&rt, rt.alloc(), line, text, &[], 1000, 1000)?;
        assert_answer(&rt, line, &answer, status, given.as_bytes(), note);
    }
    Ok(())
}

const FAULTS: &[(usize, u32, u8, &str, usize)] = &[
    (1000, 0, 8, "write fault\n", 0),
    (1000, 2, 8, "write fault\n", 14),
    (20, 1000, 8, "write fault\n", 20),
    (33, 1000, 0, "accepted\n", 33),
];

#[test]
fn check_stops_at_a_failed_write(rt: HostRuntime) -> Result<(), Fail> {
    let line = "meets 3 2 1 2 rate 1/2 classes 2\n";
    for row in FAULTS {
        let (room, fail, status, note, given) = *row;
        let answer = answer_with(&rt, rt.alloc(), "check c 1", REPEAT, &[], room, fail)?;
        assert_cut(&rt, &answer, status, note, line.as_bytes(), given);
    }
    Ok(())
}

const CERTIFICATES: &[(&str, &[u8], u8, &str, &str)] = &[
    (
        "certify c d",
        b"{\"lost\":[0,1],\"period\":4}",
        0,
        "bound 2/4 code 1/2 equal\n",
        "accepted\n",
    ),
    (
        "certify c d",
        b"{\"lost\":[0,1],\"period\":3}",
        1,
        "",
        "certificate refused at residue 1\n",
    ),
    (
        "certify c d",
        b"{\"lost\":[],\"period\":1}",
        0,
        "bound 1/1 code 1/2 below\n",
        "accepted\n",
    ),
    (
        "certify c d",
        b"{\"lost\":[0,2],\"period\":9}",
        1,
        "",
        "certificate refused at residue 0\n",
    ),
    ("certify c d", b"{", 3, "", "certificate not json\n"),
    (
        "certify c d",
        b"{\"lost\":[1,0],\"period\":4}",
        3,
        "",
        "certificate range lost\n",
    ),
    (
        "certify c d",
        b"{\"lost\":[]}",
        3,
        "",
        "certificate shape period\n",
    ),
    (
        "certify c e",
        b"{\"lost\":[0,1],\"period\":4}",
        7,
        "",
        "read fault\n",
    ),
    (
        "certify e d",
        b"{\"lost\":[0,1],\"period\":4}",
        7,
        "",
        "read fault\n",
    ),
    (
        "certify c",
        b"{\"lost\":[0,1],\"period\":4}",
        2,
        "",
        "usage\n",
    ),
    (
        "bound 3 2 1 2",
        b"{\"lost\":[0,1],\"period\":4}",
        0,
        "{\"lost\":[0,1],\"period\":4}\n",
        "bound 2/4\n",
    ),
    (
        "bound 2 1 1 1",
        b"{\"lost\":[0,1],\"period\":4}",
        0,
        "{\"lost\":[0],\"period\":2}\n",
        "bound 1/2\n",
    ),
    (
        "bound 3 2 1 3",
        b"{\"lost\":[0,1],\"period\":4}",
        2,
        "",
        "usage\n",
    ),
];

#[test]
fn certify_judges_certificates(rt: HostRuntime) -> Result<(), Fail> {
    for row in CERTIFICATES {
        let (line, cert, status, given, note) = *row;
        let answer = answer_with_both(&rt, rt.alloc(), line, REPEAT, cert, &[])?;
        assert_answer(&rt, line, &answer, status, given.as_bytes(), note);
    }
    check_is_meeting();
    certify_is_bounding();
    Ok(())
}

/// How often a job looks for the other one before it gives up.
const TURNS: u32 = 50_000_000;

/// Jobs 0 and 1 each wait for a while until the other one has entered too.
#[derive(Drop)]
struct Meeting {
    first: AtomicU64,
    second: AtomicU64,
    alone: AtomicU64,
}

impl Gate for Meeting {
    fn enter(&self, job: u32) {
        let (mine, other) = match job {
            0 => (&self.first, &self.second),
            1 => (&self.second, &self.first),
            _ => return,
        };
        mine.store(1, Ordering::SeqCst);
        for _ in 0..TURNS {
            if other.load(Ordering::SeqCst) == 1 {
                return;
            }
        }
        self.alone.store(1, Ordering::SeqCst);
    }
}

#[test]
fn workers_of_a_run_meet(rt: HostRuntime) -> Result<(), Fail> {
    let gate = Meeting {
        first: AtomicU64::new(0),
        second: AtomicU64::new(0),
        alone: AtomicU64::new(0),
    };
    let alloc = rt.alloc();
    let mut cabinet = one_file(alloc, "c", PAIR)?;
    let port = MemoryPort::new(alloc, Vec::new(alloc), 100, 100, 7, Vec::new(alloc))?;
    let line = "check c 2";
    let answer = answer_over(&rt, alloc, line, &mut cabinet, port, &gate)?;
    let given = b"meets 4 3 2 3 rate 2/5 classes 4\n";
    assert_answer(&rt, line, &answer, 0, given, "accepted\n");
    let first = gate.first.load(Ordering::SeqCst);
    let second = gate.second.load(Ordering::SeqCst);
    let alone = gate.alone.load(Ordering::SeqCst);
    assert_eq!(rt; [first, second, alone], [1, 1, 0]);
    Ok(())
}
