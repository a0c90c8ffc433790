//! Losses of small codes beside a search through all streams, and windows of a size of real use.
ghost use Rattle.std.specs.Prelude.{◌≡◌, ◌<◌, ◌≤◌, All, length};
ghost use Rattle.sc_channel.specs.Flags.{IsSet};

use super::*;
use sc_code::{Code, Stream};
use sc_field::{Field, Gf2, Gf256};
use sc_matrix::Matrix;
use std::alloc::Global;
use std::process::Abort;
use std::test::Fail;

// The matrix of these numbers, row after row. What is missing is zero.
fn matrix<F: Field>(
    alloc: Global,
    rows: usize,
    cols: usize,
    numbers: &[u8],
) -> Result<Matrix<F>, Fail>
    requires { (rows < 65) × (1 ≤ cols) × (cols < 65) }
{
    let mut m = Matrix::zeros(alloc, rows, cols)?;
    for (at, n) in numbers.iter().enumerate() {
        let (i, j) = (at / cols, at % cols);
        if i < m.rows() && j < m.cols() {
            m.set(i, j, F::from_number(*n).ok_or("no element")?);
        }
    }
    Ok(m)
}

// The code of these numbers, matrix after matrix and row after row.
fn code_of<F: Field>(
    alloc: Global,
    k: usize,
    r: usize,
    count: usize,
    numbers: &[u8],
) -> Result<Code<F>, Fail>
    requires { (k < 65) × (1 ≤ r) × (r < 65) × (count < 66) }
{
    let mut lags = Vec::new(alloc);
    for lag in 0..count {
        let start = (lag * k * r).min(numbers.len());
        lags.push(matrix(alloc, k, r, &numbers[start..])?)?;
    }
    Ok(Code::new(k, r, lags)?)
}

// The symbols of a stream, block after block.
fn symbols(alloc: Global, k: usize, stream: &Stream) -> Result<Vec<u8>, Fail>
    requires { All (λ block. length block ≡ k) stream.now }
{
    let mut list = Vec::new(alloc);
    for t in 0..stream.blocks() {
        for i in 0..k {
            list.push(stream.symbol(t, i))?;
        }
    }
    Ok(list)
}

// The symbols of the least difference, and none where the class is decided, by both calls.
fn difference<F: Field>(
    rt: &impl Abort,
    alloc: Global,
    code: &Code<F>,
    class: &[bool],
) -> Result<Vec<u8>, Fail>
    requires few { length class.now ≤ 41 }
    requires first_lost { IsSet class.now 0 }
{
    let decided = decides(alloc, code, class)?;
    match least_difference(alloc, code, class)? {
        None => {
            assert!(rt; decided);
            Ok(Vec::new(alloc))
        }
        Some(stream) => {
            assert!(rt; !decided);
            symbols(alloc, code.k(), &stream)
        }
    }
}

// The last bits of a number, as many as asked for.
fn bits(alloc: Global, count: usize, number: u64) -> Result<Vec<u8>, Fail> {
    let mut list = vec![in alloc; 0; count]?;
    let mut left = number;
    for i in 0..count {
        list[count - 1 - i] = (left % 2) as u8;
        left /= 2;
    }
    Ok(list)
}

// The flags that are 1.
fn flags(alloc: Global, numbers: &[u8]) -> Result<Vec<bool>, Fail> {
    let mut list = Vec::new(alloc);
    for n in numbers {
        list.push(*n == 1)?;
    }
    Ok(list)
}

// That the symbols of the least difference are these, none where the class is decided.
fn assert_difference<F: Field>(
    rt: &impl Abort,
    alloc: Global,
    code: &Code<F>,
    class: &[u8],
    expected: &[u8],
) -> Result<(), Fail> {
    let class = flags(alloc, class)?;
    let flags = class.as_slice();
    assert!(rt; 0 < flags.len() && flags.len() <= 41 && flags[0]);
    let found = difference(rt, alloc, code, flags)?;
    assert_eq!(rt; found.as_slice(), expected);
    Ok(())
}

// Codes over GF(2) and classes. A row has k, r, the number of matrices, the bits of these, the number of flags, their bits, and
// the bits of the least difference, which a script found by a search through all streams. It is 0 where the class is decided.
// The first nine rows are worked by hand: `p[t] = s[t-2]`, `p[t] = s[t-3]`, and `p_0[t] = s_0[t-2] + s_1[t-1]`,
// `p_1[t] = s_0[t-3]`, `p_2[t] = s_1[t-3]`.
const CLASSES: [[u64; 7]; 41] = [
    [1, 1, 3, 1, 3, 6, 0],
    [1, 1, 3, 1, 3, 5, 4],
    [1, 1, 4, 1, 4, 13, 8],
    [1, 1, 4, 1, 4, 11, 8],
    [2, 3, 5, 1180736, 4, 14, 0],
    [2, 3, 5, 1180736, 4, 12, 0],
    [2, 3, 5, 1180736, 4, 10, 0],
    [2, 3, 5, 1180736, 4, 9, 0],
    [2, 3, 5, 1180736, 4, 13, 64],
    [2, 2, 4, 2652, 4, 9, 192],
    [3, 3, 6, 12190309222409322, 5, 26, 9728],
    [1, 1, 2, 3, 3, 5, 0],
    [1, 1, 4, 13, 6, 40, 0],
    [1, 3, 4, 2045, 3, 5, 0],
    [2, 3, 3, 26030, 4, 9, 0],
    [1, 1, 4, 13, 6, 57, 40],
    [1, 2, 6, 23, 6, 48, 0],
    [3, 1, 4, 1002, 3, 4, 320],
    [1, 1, 5, 31, 5, 22, 0],
    [1, 1, 4, 6, 6, 37, 0],
    [3, 1, 6, 101117, 8, 148, 10485760],
    [3, 3, 4, 8232348196, 4, 14, 568],
    [1, 2, 5, 254, 6, 38, 0],
    [2, 1, 4, 57, 2, 2, 12],
    [1, 1, 5, 9, 3, 5, 0],
    [1, 2, 3, 10, 7, 84, 0],
    [1, 3, 4, 200, 6, 51, 0],
    [1, 1, 6, 63, 6, 42, 0],
    [3, 1, 3, 503, 3, 6, 80],
    [3, 3, 2, 24852, 4, 10, 2560],
    [1, 1, 5, 21, 7, 75, 0],
    [1, 2, 6, 1775, 5, 17, 0],
    [2, 1, 6, 609, 8, 194, 36864],
    [1, 2, 5, 580, 7, 81, 0],
    [1, 1, 3, 7, 7, 89, 0],
    [3, 1, 4, 767, 6, 42, 98304],
    [2, 1, 6, 4063, 7, 124, 4224],
    [3, 2, 5, 1068479921, 4, 10, 3072],
    [3, 1, 5, 9983, 4, 14, 520],
    [3, 1, 6, 127715, 5, 23, 12288],
    [2, 2, 6, 12526987, 7, 95, 12288],
];

// One row of the table.
fn assert_class<F: Field>(rt: &impl Abort, alloc: Global, row: [u64; 7]) -> Result<(), Fail> {
    let [k, r, count, coefficients, slots, class, least] = row;
    assert!(rt; k < 65 && 1 <= r && r < 65 && count < 66 && slots < 42);
    let (k, r, count, slots) = (k as usize, r as usize, count as usize, slots as usize);
    let code = code_of::<F>(
        alloc,
        k,
        r,
        count,
        &bits(alloc, count * k * r, coefficients)?,
    )?;
    let length = if least == 0 { 0 } else { slots * k };
    let expected = bits(alloc, length, least)?;
    assert_difference(rt, alloc, &code, &bits(alloc, slots, class)?, &expected)
}

#[test]
fn classes_over_bits(rt: HostRuntime) -> Result<(), Fail> {
    for row in CLASSES {
        assert_class::<Gf2>(&rt, rt.alloc(), row)?;
    }
    Ok(())
}

#[test]
fn classes_over_bytes(rt: HostRuntime) -> Result<(), Fail> {
    for row in CLASSES {
        assert_class::<Gf256>(&rt, rt.alloc(), row)?;
    }
    Ok(())
}

// Two symbols a block and one parity over GF(256). Where one slot is lost, a script tried all 65,536 streams.
#[test]
fn symbols_of_a_byte(rt: HostRuntime) -> Result<(), Fail> {
    let alloc = rt.alloc();
    let code = code_of::<Gf256>(alloc, 2, 1, 2, &[158, 245, 7, 239])?;
    assert_difference(&rt, alloc, &code, &[1, 0, 0], &[1, 11, 0, 0, 0, 0])?;
    let code = code_of::<Gf256>(alloc, 2, 1, 3, &[231, 223, 23, 192, 58, 7])?;
    assert_difference(&rt, alloc, &code, &[1, 0, 0], &[])?;
    assert_difference(&rt, alloc, &code, &[1, 1], &[0, 1, 0, 0])?;
    let code = code_of::<Gf256>(alloc, 2, 1, 4, &[78, 112, 30, 98, 40, 180, 202, 239])?;
    assert_difference(&rt, alloc, &code, &[1, 0], &[1, 164, 0, 0])
}

// The number drawn after `x`, by a linear congruence.
fn next_draw(x: u64) -> u64 {
    (x % 2_147_483_648 * 1_103_515_245 + 12_345) % 2_147_483_648
}

// A code whose coefficients are drawn.
fn drawn_code(alloc: Global, k: usize, r: usize, count: usize) -> Result<Code<Gf256>, Fail>
    requires { (k < 65) × (1 ≤ r) × (r < 65) × (count < 66) }
{
    let mut numbers = vec![in alloc; 0; count * k * r]?;
    let mut x = 7;
    for i in 0..numbers.len() {
        x = next_draw(x);
        numbers[i] = (x / 65_536 % 256) as u8;
    }
    code_of(alloc, k, r, count, &numbers)
}

// A checksum of the bytes so far and these.
fn checksum(bytes: &[u8], so_far: u64) -> u64 {
    let mut sum = so_far;
    for b in bytes {
        sum = (sum % 2_147_483_648 * 31 + *b as u64) % 2_147_483_648;
    }
    sum
}

// The rows and columns of the window of the first `lost` of 41 slots, a checksum of its entries, and one of the least
// difference, which is 0 where the class is decided.
fn window_sums(
    rt: &impl Abort,
    alloc: Global,
    code: &Code<Gf256>,
    lost: usize,
) -> Result<[u64; 4], Fail> {
    let mut class = Vec::new(alloc);
    for t in 0..41 {
        class.push(t < lost)?;
    }
    let flags = class.as_slice();
    assert!(rt; 0 < flags.len() && flags.len() <= 41 && flags[0]);
    let matrix = window_matrix(alloc, code, flags)?;
    let mut entries = 0;
    for i in 0..matrix.rows() {
        entries = checksum(matrix.row(i), entries);
    }
    let least = difference(rt, alloc, code, flags)?;
    Ok([
        matrix.rows() as u64,
        matrix.cols() as u64,
        entries,
        checksum(least.as_slice(), 0),
    ])
}

// The expectations are from a script that eliminates in another language.
#[test]
fn windows_of_real_use(rt: HostRuntime) -> Result<(), Fail> {
    let alloc = rt.alloc();
    let code = drawn_code(alloc, 30, 10, 41)?;
    let sums = window_sums(&rt, alloc, &code, 10)?;
    assert_eq!(rt; sums, [310, 300, 576_937_312, 0]);
    let sums = window_sums(&rt, alloc, &code, 11)?;
    assert_eq!(rt; sums, [300, 330, 1_724_909_865, 1_431_813_631]);
    let sums = window_sums(&rt, alloc, &code, 41)?;
    assert_eq!(rt; sums, [0, 1230, 0, 1_419_774_465]);
    Ok(())
}
