//! Parities beside those of a script in another language that adds up the products slot by slot, refusals, and readers.
ghost use Rattle.std.specs.Prelude.{◌≡◌, ◌*◌, ◌<◌, ◌≤◌, length};

use super::*;
use sc_channel::Channel;
use sc_field::{Field, Gf2, Gf256};
use sc_matrix::Matrix;
use std::alloc::Global;
use std::process::Abort;
use std::test::Fail;

// The number drawn after `x`, by a linear congruence.
fn next_draw(x: u64) -> u64 {
    (x % 2_147_483_648 * 1_103_515_245 + 12_345) % 2_147_483_648
}

// A byte of a drawn number.
fn byte_of(x: u64) -> u8 {
    (x / 65_536 % 256) as u8
}

// Draws the bytes, and gives the last number drawn.
fn draw_bytes(bytes: &mut [u8], seed: u64) -> u64 {
    let mut x = seed;
    for i in 0..bytes.len() {
        x = next_draw(x);
        bytes[i] = byte_of(x);
    }
    x
}

// A checksum of the bytes so far and these.
fn checksum(bytes: &[u8], so_far: u64) -> u64 {
    let mut sum = so_far;
    for b in bytes {
        sum = (sum % 2_147_483_648 * 31 + *b as u64) % 2_147_483_648;
    }
    sum
}

// The matrix of these numbers, row after row. What is missing is zero.
fn matrix<F: Field>(
    alloc: Global,
    rows: usize,
    cols: usize,
    numbers: &[u8],
) -> Result<Matrix<F>, Fail>
    requires { (rows < 65) × (1 ≤ cols) × (cols < 65) }
{
    let mut m = Matrix::zeros(alloc, rows, cols)?;
    for (at, n) in numbers.iter().enumerate() {
        let (i, j) = (at / cols, at % cols);
        if i < m.rows() && j < m.cols() {
            m.set(i, j, F::from_number(*n).ok_or("no element")?);
        }
    }
    Ok(m)
}

// The code of these numbers, matrix after matrix and row after row.
fn code_of<F: Field>(
    alloc: Global,
    k: usize,
    r: usize,
    count: usize,
    numbers: &[u8],
) -> Result<Code<F>, Fail>
    requires { (k < 65) × (1 ≤ r) × (r < 65) × (count < 66) }
{
    let mut lags = Vec::new(alloc);
    for lag in 0..count {
        let start = (lag * k * r).min(numbers.len());
        lags.push(matrix(alloc, k, r, &numbers[start..])?)?;
    }
    Ok(Code::new(k, r, lags)?)
}

// A code with drawn coefficients, of which those from `keep` on are zero instead.
fn drawn_code(alloc: Global, k: usize, r: usize, count: usize, keep: u8) -> Result<ByteCode, Fail>
    requires { (k < 65) × (1 ≤ r) × (r < 65) × (count < 66) }
{
    let mut numbers = vec![in alloc; 0; count * k * r]?;
    draw_bytes(&mut numbers, 7);
    for i in 0..numbers.len() {
        if numbers[i] >= keep {
            numbers[i] = 0;
        }
    }
    code_of(alloc, k, r, count, &numbers)
}

// The checksum of the parities of so many slots with drawn blocks.
fn encoded<F: Field>(alloc: Global, code: &Code<F>, m: usize, slots: u32) -> Result<u64, Fail>
    requires some { 1 ≤ m }
    requires width { m ≤ 1000 }
{
    let (k, r) = (code.k(), code.r());
    let mut encoder = Encoder::start(alloc, code, m)?;
    let mut block = vec![in alloc; 0; k * m]?;
    let mut parity = vec![in alloc; 0; r * m]?;
    let mut seed = 1;
    let mut sum = 0;
    for _t in 0..slots {
        seed = draw_bytes(&mut block, seed);
        encoder.next(code, &block, &mut parity);
        sum = checksum(&parity, sum);
    }
    Ok(sum)
}

// `p[t] = s[t-2]`.
const DELAYED: [u8; 3] = [0, 0, 1];

// `p_0[t] = s_0[t-2] + s_1[t-1]`, `p_1[t] = s_0[t-3]`, `p_2[t] = s_1[t-3]`, and a matrix of zeros.
const THREE_PARITIES: [u8; 30] = [
    0, 0, 0, 0, 0, 0, 0, 0, 0, 1, 0, 0, 1, 0, 0, 0, 0, 0, 0, 1, 0, 0, 0, 1, 0, 0, 0, 0, 0, 0,
];

// Both worked codes at widths 1, 5 and 20 over a field.
fn worked_codes<F: Field>(rt: &impl Abort, alloc: Global) -> Result<(), Fail> {
    let delayed = code_of::<F>(alloc, 1, 1, 3, &DELAYED)?;
    assert_eq!(rt; encoded(alloc, &delayed, 1, 300)?, 1_135_578_655);
    assert_eq!(rt; encoded(alloc, &delayed, 5, 300)?, 1_888_541_991);
    assert_eq!(rt; encoded(alloc, &delayed, 20, 300)?, 688_110_601);
    let three = code_of::<F>(alloc, 2, 3, 5, &THREE_PARITIES)?;
    assert_eq!(rt; encoded(alloc, &three, 1, 300)?, 817_574_096);
    assert_eq!(rt; encoded(alloc, &three, 5, 300)?, 462_307_621);
    assert_eq!(rt; encoded(alloc, &three, 20, 300)?, 1_085_429_586);
    Ok(())
}

#[test]
fn worked_codes_over_bits(rt: HostRuntime) -> Result<(), Fail> {
    worked_codes::<Gf2>(&rt, rt.alloc())
}

#[test]
fn worked_codes_over_bytes(rt: HostRuntime) -> Result<(), Fail> {
    worked_codes::<Gf256>(&rt, rt.alloc())
}

// A full code, a sparse one with many lags, one without memory, and one at the limits.
#[test]
fn drawn_codes(rt: HostRuntime) -> Result<(), Fail> {
    let alloc = rt.alloc();
    let full = drawn_code(alloc, 9, 4, 11, 255)?;
    assert_eq!(rt; encoded(alloc, &full, 20, 300)?, 942_755_318);
    let sparse = drawn_code(alloc, 30, 10, 40, 16)?;
    assert_eq!(rt; encoded(alloc, &sparse, 148, 60)?, 1_103_877_328);
    let widest = drawn_code(alloc, 32, 32, 65, 2)?;
    assert_eq!(rt; encoded(alloc, &widest, 3, 100)?, 1_760_880_630);
    let at_once = code_of::<Gf256>(alloc, 2, 2, 1, &[3, 0, 7, 5])?;
    assert_eq!(rt; encoded(alloc, &at_once, 20, 40)?, 332_691_409);
    Ok(())
}

// Six slots, by hand: the blocks, and then the parities.
const BLOCKS: [u8; 12] = [198, 126, 129, 107, 75, 251, 226, 251, 84, 246, 189, 223];

const PARITIES: [u8; 18] = [
    0, 0, 0, 126, 0, 0, 173, 0, 0, 122, 198, 126, 176, 129, 107, 20, 75, 251,
];

// The parities of the blocks by the code with three of them.
fn assert_parities(rt: &impl Abort, alloc: Global, code: &ByteCode) -> Result<(), Fail>
    requires symbols { code.now.k ≡ 2 }
    requires parities { code.now.r ≡ 3 }
{
    let mut encoder = Encoder::start(alloc, code, 1)?;
    let mut parity = [0; 3];
    for t in 0..6 {
        encoder.next(code, &BLOCKS[2 * t..2 * t + 2], &mut parity);
        assert!(rt;
            parity.as_slice() == &PARITIES[3 * t..3 * t + 3],
            "slot {t}"
        );
    }
    Ok(())
}

#[test]
fn parities_by_hand(rt: HostRuntime) -> Result<(), Fail> {
    let code = code_of::<Gf256>(rt.alloc(), 2, 3, 5, &THREE_PARITIES)?;
    assert!(rt; code.k() == 2 && code.r() == 3);
    assert_parities(&rt, rt.alloc(), &code)
}

// Why this many matrices of these sizes are no code for k and r.
fn fault(
    alloc: Global,
    k: usize,
    r: usize,
    count: usize,
    rows: usize,
    cols: usize,
) -> Result<Option<CodeFault>, Fail>
    requires { (rows < 65) × (cols < 65) }
{
    let mut lags = Vec::new(alloc);
    for _lag in 0..count {
        lags.push(Matrix::<Gf256>::zeros(alloc, rows, cols)?)?;
    }
    match Code::new(k, r, lags) {
        Ok(_code) => Ok(None),
        Err(fault) => Ok(Some(fault)),
    }
}

#[test]
fn faults(rt: HostRuntime) -> Result<(), Fail> {
    let alloc = rt.alloc();
    let table = [
        (0, 1, 1, 0, 1, Some(CodeFault::Range)),
        (1, 0, 1, 1, 0, Some(CodeFault::Range)),
        (33, 32, 1, 33, 32, Some(CodeFault::Range)),
        (usize::MAX, 1, 1, 1, 1, Some(CodeFault::Range)),
        (1, 1, 0, 1, 1, Some(CodeFault::Range)),
        (1, 1, 66, 1, 1, Some(CodeFault::Range)),
        (0, 1, 1, 1, 1, Some(CodeFault::Range)),
        (2, 3, 2, 3, 2, Some(CodeFault::Shape)),
        (2, 3, 2, 2, 2, Some(CodeFault::Shape)),
        (63, 1, 1, 63, 1, None),
        (1, 63, 65, 1, 63, None),
    ];
    for (k, r, count, rows, cols, expected) in table {
        if rows < 65 && cols < 65 {
            let found = fault(alloc, k, r, count, rows, cols)?;
            assert!(rt; found == expected, "{k} {r} {count} {rows} {cols}");
        }
    }
    Ok(())
}

#[test]
fn says_why(rt: HostRuntime) -> Result<(), Fail> {
    let range = format!(in rt.alloc(); "{}", CodeFault::Range)?;
    assert_eq!(rt;
        range.as_str(),
        "not 1 <= k, 1 <= r, k + r <= 64 and 1 to 65 matrices"
    );
    let shape = format!(in rt.alloc(); "{}", CodeFault::Shape)?;
    assert_eq!(rt; shape.as_str(), "a matrix without k rows and r columns");
    Ok(())
}

#[test]
fn coefficients_as_given(rt: HostRuntime) -> Result<(), Fail> {
    let code = code_of::<Gf256>(rt.alloc(), 2, 3, 5, &THREE_PARITIES)?;
    let file = CodeFile {
        channel: Channel::new(4, 3, 2, 3)?,
        code,
    };
    let code = file.code.copy(rt.alloc())?;
    assert!(rt; file.channel.t() == 3 && code.k() == 2 && code.r() == 3 && code.memory() == 4);
    for at in 0..30 {
        let (lag, i, j) = (at / 6, at / 3 % 2, at % 3);
        assert!(rt;
            code.coefficient(lag, i, j).number() == THREE_PARITIES[at],
            "{lag} {i} {j}"
        );
    }
    Ok(())
}

#[test]
fn symbols_as_given(rt: HostRuntime) -> Result<(), Fail> {
    let mut symbols = vec![in rt.alloc(); 0; 6]?;
    symbols.copy_from_slice(&[1, 2, 3, 4, 5, 6]);
    let stream = Stream::new(2, symbols);
    assert!(rt; stream.blocks() == 3);
    assert!(rt; stream.symbol(0, 0) == 1 && stream.symbol(2, 0) == 5 && stream.symbol(1, 1) == 4);
    Ok(())
}
