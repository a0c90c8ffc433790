//! Verdicts beside those worked by hand, with one worker and with many, and workers that run side by side.
ghost use Rattle.std.specs.Prelude.{◌≡◌, ◌<◌, ◌≤◌, IfOk};

use super::*;
use sc_channel::{Channel, Classes, Flags, loss_classes};
use sc_code::{Code, CodeFile};
use sc_field::{Field, Gf256};
use sc_matrix::Matrix;
use std::alloc::Global;
use std::process::Abort;
use std::sync::atomic::{AtomicU64, Ordering};
use std::test::Fail;
use std::thread::Threads;

// The matrix of these numbers, row after row. What is missing is zero.
fn matrix(alloc: Global, k: usize, r: usize, numbers: &[u8]) -> Result<Matrix<Gf256>, Fail>
    requires { (k < 65) × (1 ≤ r) × (r < 65) }
{
    let mut m = Matrix::zeros(alloc, k, r)?;
    for (at, n) in numbers.iter().enumerate() {
        let (i, j) = (at / r, at % r);
        if i < m.rows() && j < m.cols() {
            m.set(i, j, Gf256::from_number(*n).ok_or("no element")?);
        }
    }
    Ok(m)
}

// The code file of these numbers: the channel's, `k` and `r`, and those of each matrix.
fn code_file(
    alloc: Global,
    numbers: (u32, u32, u32, u32),
    k: usize,
    r: usize,
    lags: &[&[u8]],
) -> Result<CodeFile, Fail>
    requires { (k < 65) × (1 ≤ r) × (r < 65) }
{
    let (w, b, n, t) = numbers;
    let mut matrices = Vec::new(alloc);
    for entries in lags {
        matrices.push(matrix(alloc, k, r, entries)?)?;
    }
    Ok(CodeFile {
        channel: Channel::new(w, b, n, t)?,
        code: Code::new(k, r, matrices)?,
    })
}

// The classes of a file's channel.
fn classes_of(file: &CodeFile) -> Result<Classes, Fail>
    ensures { IfOk result (λ classes. classes ≡ file.now.channel) }
{
    match loss_classes(&file.channel) {
        Ok(classes) => Ok(classes),
        Err(_) => Err("too many classes")?,
    }
}

// A loss by its word.
fn flags_of(alloc: Global, word: &str) -> Result<Flags, Fail> {
    let mut flags = Flags::new(alloc);
    for byte in word.as_bytes() {
        flags.push(*byte == b'1')?;
    }
    Ok(flags)
}

// Checks a file with so many workers: it meets.
fn assert_meets<R: Threads + Abort + Sync>(
    rt: &R,
    alloc: Global,
    file: &CodeFile,
    workers: u32,
) -> Result<(), Fail>
    requires { (1 ≤ workers) × (workers ≤ 64) }
{
    let classes = classes_of(file)?;
    let verdict = check(rt, alloc, file, &classes, workers, &NoGate)?;
    assert!(rt; matches!(&verdict, Verdict::Meets), "it fails");
    Ok(())
}

// The same where it fails: the class and its loss, and the stream as its `Debug` text.
fn assert_fails<R: Threads + Abort + Sync>(
    rt: &R,
    alloc: Global,
    file: &CodeFile,
    workers: u32,
    want: (u32, &str, &str),
) -> Result<(), Fail>
    requires { (1 ≤ workers) × (workers ≤ 64) }
{
    let classes = classes_of(file)?;
    match check(rt, alloc, file, &classes, workers, &NoGate)? {
        Verdict::Meets => assert!(rt; false, "it meets"),
        Verdict::Fails {
            class,
            loss,
            stream,
        } => {
            assert_eq!(rt; class, want.0);
            let flags = flags_of(alloc, want.1)?;
            assert_eq!(rt; loss.as_slice(), flags.as_slice());
            let text = format!(in alloc; "{stream:?}")?;
            assert_eq!(rt; text.as_str(), want.2);
        }
    }
    Ok(())
}

// The matrices of two codes: a symbol again two slots later; and two symbols of which three parities protect each twice.
const AGAIN: [&[u8]; 3] = [&[0], &[0], &[1]];

const TWO_OF_FIVE: [&[u8]; 5] = [
    &[0, 0, 0, 0, 0, 0],
    &[0, 0, 0, 1, 0, 0],
    &[1, 0, 0, 0, 0, 0],
    &[0, 1, 0, 0, 0, 1],
    &[0, 0, 0, 0, 0, 0],
];

#[test]
fn tells_the_least_refutation(rt: HostRuntime) -> Result<(), Fail> {
    let alloc = rt.alloc();
    let again = code_file(alloc, (3, 2, 1, 2), 1, 1, &AGAIN)?;
    assert_meets(&rt, alloc, &again, 1)?;
    let again = code_file(alloc, (3, 2, 2, 2), 1, 1, &AGAIN)?;
    let want = (2, "101", "Stream { k: 1, symbols: [1, 0, 0] }");
    assert_fails(&rt, alloc, &again, 1, want)?;
    let two = code_file(alloc, (4, 3, 2, 3), 2, 3, &TWO_OF_FIVE)?;
    assert_meets(&rt, alloc, &two, 2)?;
    let two = code_file(alloc, (4, 3, 3, 3), 2, 3, &TWO_OF_FIVE)?;
    let want = (
        2,
        "1101",
        "Stream { k: 2, symbols: [0, 1, 0, 0, 0, 0, 0, 0] }",
    );
    assert_fails(&rt, alloc, &two, 1, want)?;
    let late = code_file(alloc, (4, 3, 3, 3), 1, 1, &[&[0], &[0], &[0], &[1]])?;
    let want = (2, "1101", "Stream { k: 1, symbols: [1, 0, 0, 0] }");
    for workers in [1, 2, 3, 64] {
        assert_fails(&rt, alloc, &late, workers, want)?;
    }
    Ok(())
}

// A symbol that comes again 38, 39 and 40 slots later is lost for good in the last class alone, which has slot 0 and these three
// slots. One that comes a fourth time is lost in none.
#[test]
fn walks_over_thousands_of_classes(rt: HostRuntime) -> Result<(), Fail> {
    let alloc = rt.alloc();
    let mut lags: [&[u8]; 41] = [&[0, 0, 0, 0]; 41];
    lags[38] = &[0, 1, 0, 0];
    lags[39] = &[0, 0, 1, 0];
    lags[40] = &[0, 0, 0, 1];
    let thrice = code_file(alloc, (41, 4, 4, 40), 1, 4, &lags)?;
    let classes = classes_of(&thrice)?;
    assert_eq!(rt;
        first_failing(&rt, alloc, &thrice.code, &classes, 7, &NoGate),
        Ok(Some(9880))
    );
    lags[37] = &[1, 0, 0, 0];
    let four_times = code_file(alloc, (41, 4, 4, 40), 1, 4, &lags)?;
    assert_eq!(rt;
        first_failing(&rt, alloc, &four_times.code, &classes, 4, &NoGate),
        Ok(None)
    );
    Ok(())
}

// A gate at which two jobs wait for each other. A job that waits too long says so.
#[derive(Drop)]
struct Both {
    first: AtomicU64,
    second: AtomicU64,
    gave_up: AtomicU64,
}

impl Gate for Both {
    fn enter(&self, job: u32) {
        let (mine, other) = if job == 0 {
            (&self.first, &self.second)
        } else {
            (&self.second, &self.first)
        };
        mine.store(1, Ordering::SeqCst);
        for _ in 0..50_000_000u32 {
            if other.load(Ordering::SeqCst) == 1 {
                return;
            }
        }
        self.gave_up.store(1, Ordering::SeqCst);
    }
}

#[test]
fn works_parts_side_by_side(rt: HostRuntime) -> Result<(), Fail> {
    let two = code_file(rt.alloc(), (4, 3, 2, 3), 2, 3, &TWO_OF_FIVE)?;
    let classes = classes_of(&two)?;
    let gate = Both {
        first: AtomicU64::new(0),
        second: AtomicU64::new(0),
        gave_up: AtomicU64::new(0),
    };
    assert_eq!(rt;
        first_failing(&rt, rt.alloc(), &two.code, &classes, 2, &gate),
        Ok(None)
    );
    assert_eq!(rt; gate.gave_up.load(Ordering::SeqCst), 0);
    assert_eq!(rt; gate.first.load(Ordering::SeqCst), 1);
    assert_eq!(rt; gate.second.load(Ordering::SeqCst), 1);
    Ok(())
}

// A gate that counts the jobs, and adds up a power of two for each.
#[derive(Drop)]
struct Count {
    jobs: AtomicU64,
    powers: AtomicU64,
}

impl Gate for Count {
    fn enter(&self, job: u32) {
        self.jobs.fetch_add(1, Ordering::SeqCst);
        self.powers.fetch_add(1 << (job % 64), Ordering::SeqCst);
    }
}

#[test]
fn begins_each_part_once(rt: HostRuntime) -> Result<(), Fail> {
    let two = code_file(rt.alloc(), (4, 3, 2, 3), 2, 3, &TWO_OF_FIVE)?;
    let lost = code_file(rt.alloc(), (4, 3, 2, 3), 1, 1, &AGAIN)?;
    for (file, want, workers, jobs) in [
        (&two, None, 1, 1),
        (&two, None, 3, 3),
        (&two, None, 4, 4),
        (&two, None, 64, 4),
        (&lost, Some(0), 3, 3),
    ] {
        let classes = classes_of(file)?;
        let gate = Count {
            jobs: AtomicU64::new(0),
            powers: AtomicU64::new(0),
        };
        let found = first_failing(&rt, rt.alloc(), &file.code, &classes, workers, &gate);
        assert_eq!(rt; found, Ok(want));
        assert_eq!(rt; gate.jobs.load(Ordering::SeqCst), jobs, "{workers} workers");
        assert_eq!(rt;
            gate.powers.load(Ordering::SeqCst),
            (1 << jobs) - 1,
            "{workers} workers"
        );
    }
    Ok(())
}
