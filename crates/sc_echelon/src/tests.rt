//! The worked case, small systems whose answers were listed by brute force, and windows of a receiver's size.
ghost use Rattle.std.specs.Prelude.{◌*◌, ◌<◌, ◌≤◌};

use super::*;
use sc_field::{Field, Gf2, Gf256};
use sc_matrix::Matrix;
use std::alloc::Global;
use std::process::Abort;
use std::test::Fail;

// The element with this number.
fn element<F: Field>(n: u8) -> Result<F, Fail> {
    Ok(F::from_number(n).ok_or("no element has this number")?)
}

// The elements with these numbers.
fn elements<F: Field>(alloc: Global, numbers: &[u8]) -> Result<Vec<F>, Fail> {
    let mut row = Vec::new(alloc);
    for n in numbers {
        row.push(element(*n)?)?;
    }
    Ok(row)
}

// What adding the row of these numbers says.
fn add<F: Field>(
    rt: &impl Abort,
    alloc: Global,
    k: &mut Knowledge<F>,
    numbers: &[u8],
    rhs: &[u8],
) -> Result<Added, Fail> {
    let coeffs = elements(alloc, numbers)?;
    assert!(rt; coeffs.len() == k.cols());
    assert!(rt; rhs.len() == k.width());
    Ok(k.add_row(coeffs.as_slice(), rhs))
}

fn forget<F: Field>(rt: &impl Abort, k: &mut Knowledge<F>, count: usize) {
    assert!(rt; count <= k.cols());
    k.forget_front(count);
}

fn assert_value<F: Field>(rt: &impl Abort, k: &Knowledge<F>, col: usize, value: Option<&[u8]>) {
    assert!(rt; col < k.cols());
    assert_eq!(rt; k.value_of(col), value, "column {col}");
}

// Two columns of one byte: what two rows say of them, a row that contradicts, one that follows, and the first column
// forgotten.
fn worked_case<F: Field>(rt: &impl Abort, alloc: Global) -> Result<(), Fail> {
    let mut k = Knowledge::<F>::start(alloc, 2, 1)?;
    assert_eq!(rt; (k.cols(), k.width()), (2, 1));
    assert_eq!(rt; add(rt, alloc, &mut k, &[1, 1], &[5])?, Added::New);
    assert_value(rt, &k, 0, None);
    assert_eq!(rt; add(rt, alloc, &mut k, &[1, 0], &[3])?, Added::New);
    assert_value(rt, &k, 1, Some(&[6]));
    assert_eq!(rt; add(rt, alloc, &mut k, &[0, 1], &[7])?, Added::Clash);
    assert_eq!(rt; add(rt, alloc, &mut k, &[0, 1], &[6])?, Added::Known);
    forget(rt, &mut k, 1);
    assert_value(rt, &k, 0, Some(&[6]));
    assert_value(rt, &k, 1, None);
    Ok(())
}

#[test]
fn worked_case_over_both_fields(rt: HostRuntime) -> Result<(), Fail> {
    worked_case::<Gf2>(&rt, rt.alloc())?;
    worked_case::<Gf256>(&rt, rt.alloc())
}

// Steps over GF(2) on four columns of one byte, and what is known after each of them, as a script lists it that goes
// through all values of two bits. A step has the four coefficients and the right side of a row, and its answer: 0 is new,
// 1 known, 2 a clash. Where the answer is 3, the fifth entry is the number of columns that are forgotten instead. Then
// come the values of the four columns, 255 where two solutions differ.
const STEPS: [[u8; 10]; 100] = [
    [0, 0, 0, 0, 4, 3, 255, 255, 255, 255],
    [0, 0, 0, 0, 0, 1, 255, 255, 255, 255],
    [0, 0, 0, 1, 0, 0, 255, 255, 255, 0],
    [0, 0, 1, 0, 2, 0, 255, 255, 2, 0],
    [1, 1, 1, 0, 0, 0, 255, 255, 2, 0],
    [0, 0, 0, 0, 1, 3, 255, 2, 0, 255],
    [0, 1, 0, 1, 1, 0, 255, 2, 0, 3],
    [0, 1, 1, 1, 1, 1, 255, 2, 0, 3],
    [0, 0, 0, 0, 3, 3, 3, 255, 255, 255],
    [1, 1, 1, 0, 1, 0, 3, 255, 255, 255],
    [0, 0, 0, 0, 4, 3, 255, 255, 255, 255],
    [1, 1, 0, 0, 0, 0, 255, 255, 255, 255],
    [1, 0, 1, 0, 3, 0, 255, 255, 255, 255],
    [1, 0, 1, 1, 0, 0, 255, 255, 255, 3],
    [0, 0, 0, 1, 1, 2, 255, 255, 255, 3],
    [0, 0, 1, 1, 1, 0, 1, 1, 2, 3],
    [0, 0, 0, 0, 0, 1, 1, 1, 2, 3],
    [0, 0, 0, 0, 4, 3, 255, 255, 255, 255],
    [1, 1, 0, 1, 1, 0, 255, 255, 255, 255],
    [1, 0, 1, 0, 0, 0, 255, 255, 255, 255],
    [0, 0, 0, 0, 4, 3, 255, 255, 255, 255],
    [1, 0, 1, 1, 3, 0, 255, 255, 255, 255],
    [1, 0, 0, 0, 0, 0, 0, 255, 255, 255],
    [1, 1, 1, 1, 3, 0, 0, 0, 255, 255],
    [1, 1, 1, 1, 3, 1, 0, 0, 255, 255],
    [0, 0, 0, 0, 1, 3, 0, 255, 255, 255],
    [0, 0, 0, 0, 2, 2, 0, 255, 255, 255],
    [0, 1, 1, 1, 0, 0, 0, 255, 255, 3],
    [0, 0, 0, 0, 1, 3, 255, 255, 3, 255],
    [0, 0, 0, 0, 2, 2, 255, 255, 3, 255],
    [0, 0, 0, 0, 4, 3, 255, 255, 255, 255],
    [1, 1, 1, 0, 2, 0, 255, 255, 255, 255],
    [1, 1, 1, 1, 0, 0, 255, 255, 255, 2],
    [1, 0, 0, 0, 3, 0, 3, 255, 255, 2],
    [0, 0, 0, 1, 1, 2, 3, 255, 255, 2],
    [0, 0, 1, 0, 1, 0, 3, 0, 1, 2],
    [0, 0, 0, 0, 0, 1, 3, 0, 1, 2],
    [0, 0, 0, 0, 1, 3, 0, 1, 2, 255],
    [1, 0, 1, 1, 1, 0, 0, 1, 2, 3],
    [0, 0, 0, 0, 0, 1, 0, 1, 2, 3],
    [0, 0, 0, 0, 4, 3, 255, 255, 255, 255],
    [1, 1, 1, 0, 3, 0, 255, 255, 255, 255],
    [1, 1, 1, 1, 0, 0, 255, 255, 255, 3],
    [1, 1, 1, 1, 0, 1, 255, 255, 255, 3],
    [1, 0, 1, 0, 2, 0, 255, 1, 255, 3],
    [0, 0, 0, 0, 0, 3, 255, 1, 255, 3],
    [1, 1, 0, 0, 0, 0, 1, 1, 3, 3],
    [1, 1, 0, 1, 3, 1, 1, 1, 3, 3],
    [0, 0, 0, 0, 1, 3, 1, 3, 3, 255],
    [0, 0, 0, 0, 3, 2, 1, 3, 3, 255],
    [0, 0, 0, 0, 4, 3, 255, 255, 255, 255],
    [0, 0, 0, 0, 0, 1, 255, 255, 255, 255],
    [1, 0, 0, 0, 2, 0, 2, 255, 255, 255],
    [0, 0, 0, 0, 0, 1, 2, 255, 255, 255],
    [0, 0, 0, 0, 0, 1, 2, 255, 255, 255],
    [0, 1, 0, 1, 0, 0, 2, 255, 255, 255],
    [0, 0, 1, 0, 2, 0, 2, 255, 2, 255],
    [0, 0, 0, 0, 4, 3, 255, 255, 255, 255],
    [0, 1, 0, 0, 1, 0, 255, 1, 255, 255],
    [1, 1, 0, 0, 2, 0, 3, 1, 255, 255],
    [0, 0, 0, 0, 4, 3, 255, 255, 255, 255],
    [1, 1, 1, 0, 2, 0, 255, 255, 255, 255],
    [1, 0, 0, 0, 3, 0, 3, 255, 255, 255],
    [1, 0, 0, 1, 3, 0, 3, 255, 255, 0],
    [1, 1, 1, 0, 2, 1, 3, 255, 255, 0],
    [0, 0, 0, 0, 1, 3, 255, 255, 0, 255],
    [1, 1, 1, 0, 2, 2, 255, 255, 0, 255],
    [0, 0, 1, 0, 0, 1, 255, 255, 0, 255],
    [0, 0, 0, 0, 1, 3, 255, 0, 255, 255],
    [1, 0, 1, 0, 0, 0, 255, 0, 255, 255],
    [0, 0, 0, 0, 4, 3, 255, 255, 255, 255],
    [0, 0, 0, 0, 3, 2, 255, 255, 255, 255],
    [1, 0, 1, 1, 3, 0, 255, 255, 255, 255],
    [0, 1, 1, 1, 3, 0, 255, 255, 255, 255],
    [1, 0, 1, 1, 0, 2, 255, 255, 255, 255],
    [1, 1, 0, 0, 0, 1, 255, 255, 255, 255],
    [1, 0, 0, 0, 1, 0, 1, 1, 255, 255],
    [0, 0, 0, 0, 3, 3, 255, 255, 255, 255],
    [1, 1, 0, 1, 2, 0, 255, 255, 255, 255],
    [1, 0, 0, 0, 1, 0, 1, 255, 255, 255],
    [0, 0, 0, 0, 4, 3, 255, 255, 255, 255],
    [0, 1, 0, 1, 2, 0, 255, 255, 255, 255],
    [0, 0, 1, 0, 3, 0, 255, 255, 3, 255],
    [1, 1, 0, 1, 0, 0, 2, 255, 3, 255],
    [0, 1, 1, 0, 0, 0, 2, 3, 3, 1],
    [0, 0, 0, 0, 2, 3, 3, 1, 255, 255],
    [0, 0, 1, 1, 1, 0, 3, 1, 255, 255],
    [0, 0, 1, 0, 0, 0, 3, 1, 0, 1],
    [0, 0, 0, 0, 2, 3, 0, 1, 255, 255],
    [0, 1, 1, 1, 2, 0, 0, 1, 255, 255],
    [0, 0, 0, 0, 4, 3, 255, 255, 255, 255],
    [0, 1, 0, 1, 2, 0, 255, 255, 255, 255],
    [1, 1, 0, 0, 1, 0, 255, 255, 255, 255],
    [1, 0, 1, 0, 3, 0, 255, 255, 255, 255],
    [0, 1, 0, 0, 2, 0, 3, 2, 0, 0],
    [0, 1, 0, 0, 2, 1, 3, 2, 0, 0],
    [0, 1, 1, 0, 0, 2, 3, 2, 0, 0],
    [0, 0, 0, 0, 1, 3, 2, 0, 0, 255],
    [0, 0, 0, 0, 0, 1, 2, 0, 0, 255],
    [0, 0, 0, 0, 0, 1, 2, 0, 0, 255],
];

// Does a step of the table.
fn take_step(
    rt: &impl Abort,
    alloc: Global,
    k: &mut Knowledge<Gf2>,
    step: &[u8; 10],
) -> Result<(), Fail> {
    let what = step[5];
    if what == 3 {
        forget(rt, k, step[4] as usize);
        return Ok(());
    }
    let answer = add(rt, alloc, k, &step[..4], &step[4..5])?;
    assert_eq!(rt; answer == Added::New, what == 0);
    assert_eq!(rt; answer == Added::Known, what == 1);
    assert_eq!(rt; answer == Added::Clash, what == 2);
    Ok(())
}

fn assert_values(rt: &impl Abort, k: &Knowledge<Gf2>, values: &[u8]) {
    for (col, value) in values.iter().enumerate() {
        if *value == 255 {
            assert_value(rt, k, col, None);
        } else {
            assert_value(rt, k, col, Some(&[*value]));
        }
    }
}

#[test]
fn listed_systems(rt: HostRuntime) -> Result<(), Fail> {
    let alloc = rt.alloc();
    let mut k = Knowledge::<Gf2>::start(alloc, 4, 1)?;
    for step in &STEPS {
        take_step(&rt, alloc, &mut k, step)?;
        assert_values(&rt, &k, &step[6..]);
    }
    Ok(())
}

// A number that depends on both places.
fn mixed(i: usize, j: usize) -> u8 {
    let i = (i % 8192) as u32;
    let j = (j % 8192) as u32;
    let mut n = (i * 8192 + j).wrapping_mul(0x2c1b_3c6d);
    n ^= n >> 15;
    n = n.wrapping_mul(0x297a_2d39);
    (n >> 24) as u8
}

// The coefficients of row `i`, which are numbers below the order.
fn coefficients(alloc: Global, i: usize, cols: usize, order: u32) -> Result<Vec<u8>, Fail>
    requires { (0 < order) × (order ≤ 256) }
{
    let mut numbers = Vec::new(alloc);
    for j in 0..cols {
        numbers.push((mixed(i, j) as u32 % order) as u8)?;
    }
    Ok(numbers)
}

// Byte `x` of the sum of the columns' bytes, each times its coefficient.
fn sum_at<F: Field>(numbers: &[u8], x: usize) -> Result<u8, Fail> {
    let mut total = 0;
    for (j, n) in numbers.iter().enumerate() {
        total ^= element::<F>(*n)?.act(mixed(x % 4096 + 4096, j));
    }
    Ok(total)
}

fn sum<F: Field>(alloc: Global, numbers: &[u8], width: usize) -> Result<Vec<u8>, Fail> {
    let mut bytes = Vec::new(alloc);
    for x in 0..width {
        bytes.push(sum_at::<F>(numbers, x)?)?;
    }
    Ok(bytes)
}

// Asserts that the column has the bytes of column `from`.
fn assert_block<F: Field>(
    rt: &impl Abort,
    alloc: Global,
    k: &Knowledge<F>,
    col: usize,
    from: usize,
) -> Result<(), Fail> {
    let mut bytes = Vec::new(alloc);
    for x in 0..k.width() {
        bytes.push(mixed(x % 4096 + 4096, from))?;
    }
    assert_value(rt, k, col, Some(bytes.as_slice()));
    Ok(())
}

// Adds so many rows of sums, and gives the number of the rows that said something new.
fn add_sums<F: Field>(
    rt: &impl Abort,
    alloc: Global,
    k: &mut Knowledge<F>,
    rows: usize,
    order: u32,
) -> Result<usize, Fail>
    requires { (0 < order) × (order ≤ 256) }
{
    let mut new = 0;
    for i in 0..rows {
        let numbers = coefficients(alloc, i, k.cols(), order)?;
        let rhs = sum::<F>(alloc, numbers.as_slice(), k.width())?;
        let answer = add(rt, alloc, k, numbers.as_slice(), rhs.as_slice())?;
        assert!(rt; answer != Added::Clash);
        if answer == Added::New {
            assert!(rt; new < rows);
            new += 1;
        }
    }
    Ok(new)
}

// As many rows as it takes to know all columns, and the first `count` of them forgotten.
fn window<F: Field>(
    rt: &impl Abort,
    alloc: Global,
    k: &mut Knowledge<F>,
    rows: usize,
    order: u32,
    count: usize,
) -> Result<(), Fail>
    requires { (0 < order) × (order ≤ 256) }
{
    let cols = k.cols();
    assert_eq!(rt; add_sums(rt, alloc, k, rows, order)?, cols);
    for col in 0..cols {
        assert_block(rt, alloc, k, col, col)?;
    }
    forget(rt, k, count);
    assert!(rt; count <= cols);
    for col in 0..cols {
        if col < cols - count {
            assert_block(rt, alloc, k, col, col + count)?;
        } else {
            assert_value(rt, k, col, None);
        }
    }
    Ok(())
}

#[test]
fn window_over_both_fields(rt: HostRuntime) -> Result<(), Fail> {
    let mut bytes = Knowledge::<Gf256>::start(rt.alloc(), 360, 20)?;
    window(&rt, rt.alloc(), &mut bytes, 362, 256, 9)?;
    let mut bits = Knowledge::<Gf2>::start(rt.alloc(), 40, 20)?;
    window(&rt, rt.alloc(), &mut bits, 60, 2, 9)
}

// A row of zeros but for a one at each of two columns.
fn pair(alloc: Global, cols: usize, a: usize, b: usize) -> Result<Vec<u8>, Fail> {
    let mut numbers = Vec::new(alloc);
    for j in 0..cols {
        numbers.push((j == a || j == b) as u8)?;
    }
    Ok(numbers)
}

#[test]
fn largest_size(rt: HostRuntime) -> Result<(), Fail> {
    let alloc = rt.alloc();
    let mut k = Knowledge::<Gf256>::start(alloc, 6_615, 10_144)?;
    let rhs = vec![in alloc; 7; 10_144]?;
    let zero = vec![in alloc; 0; 10_144]?;
    let ends = pair(alloc, 6_615, 0, 6_614)?;
    let last = pair(alloc, 6_615, 6_614, 6_614)?;
    assert_eq!(rt;
        add(&rt, alloc, &mut k, ends.as_slice(), rhs.as_slice())?,
        Added::New
    );
    assert_value(&rt, &k, 6_614, None);
    assert_eq!(rt;
        add(&rt, alloc, &mut k, last.as_slice(), rhs.as_slice())?,
        Added::New
    );
    assert_value(&rt, &k, 6_614, Some(rhs.as_slice()));
    assert_value(&rt, &k, 0, Some(zero.as_slice()));
    forget(&rt, &mut k, 6_614);
    assert_value(&rt, &k, 0, Some(rhs.as_slice()));
    assert_value(&rt, &k, 1, None);
    Ok(())
}

fn put<F: Field>(
    rt: &impl Abort,
    m: &mut Matrix<F>,
    i: usize,
    j: usize,
    number: u8,
) -> Result<(), Fail> {
    let x = element(number)?;
    assert!(rt; i < m.rows());
    assert!(rt; j < m.cols());
    m.set(i, j, x);
    Ok(())
}

// Writes these numbers over the matrix, row by row.
fn fill<F: Field>(
    rt: &impl Abort,
    m: &mut Matrix<F>,
    cols: usize,
    numbers: &[u8],
) -> Result<(), Fail>
    requires { 0 < cols }
{
    for (k, n) in numbers.iter().enumerate() {
        put(rt, m, k / cols, k % cols, *n)?;
    }
    Ok(())
}

// Asserts the rank of the matrix, and for each column whether it is free.
fn assert_free<F: Field>(rt: &impl Abort, r: &Reduced<F>, free: &[u8], rank: usize) {
    assert_eq!(rt; r.rank(), rank);
    for (col, f) in free.iter().enumerate() {
        assert!(rt; col < r.cols());
        assert_eq!(rt; r.is_free(col), *f == 1, "column {col}");
    }
}

// Asserts that the least vector of the kernel that is not zero below the bound has these numbers. All zeros stand for none.
fn assert_least<F: Field>(
    rt: &impl Abort,
    alloc: Global,
    r: &Reduced<F>,
    below: usize,
    numbers: &[u8],
) -> Result<(), Fail> {
    match r.least_kernel(alloc, below)? {
        Some(vector) => {
            assert_eq!(rt; vector.len(), numbers.len());
            for (x, n) in vector.iter().zip(numbers) {
                assert_eq!(rt; x.number(), *n, "below {below}");
            }
            assert!(rt; numbers.iter().any(|n| *n != 0));
        }
        None => assert!(rt; numbers.iter().all(|n| *n == 0)),
    }
    Ok(())
}

// A row of `cols` numbers, zeros but for ones at these places.
fn ones_at(alloc: Global, cols: usize, places: &[usize]) -> Result<Vec<u8>, Fail> {
    let mut row = vec![in alloc; 0; cols]?;
    for place in places {
        *row.get_mut(*place).ok_or("no such column")? = 1;
    }
    Ok(row)
}

// Rows with a single coefficient, or with two that lie far apart, at the ends of vectors and beside them.
fn lonely_columns(rt: &impl Abort, alloc: Global, cols: usize) -> Result<(), Fail> {
    assert!(rt; 34 < cols && cols <= 360);
    let last = cols - 1;
    for col in [0, 15, 16, 31, 32, 33, last] {
        let mut k = Knowledge::<Gf256>::start(alloc, cols, 1)?;
        let row = ones_at(alloc, cols, &[col])?;
        assert_eq!(rt; add(rt, alloc, &mut k, row.as_slice(), &[7])?, Added::New);
        assert_value(rt, &k, col, Some(&[7]));
        assert_eq!(rt; add(rt, alloc, &mut k, row.as_slice(), &[7])?, Added::Known);
        assert_eq!(rt; add(rt, alloc, &mut k, row.as_slice(), &[8])?, Added::Clash);
        forget(rt, &mut k, col);
        assert_value(rt, &k, 0, Some(&[7]));
    }
    for col in [0, 15, 16, 31, 32, 33] {
        let mut k = Knowledge::<Gf256>::start(alloc, cols, 1)?;
        let both = ones_at(alloc, cols, &[col, last])?;
        let behind = ones_at(alloc, cols, &[last])?;
        assert_eq!(rt; add(rt, alloc, &mut k, both.as_slice(), &[5])?, Added::New);
        assert_value(rt, &k, col, None);
        assert_eq!(rt;
            add(rt, alloc, &mut k, behind.as_slice(), &[3])?,
            Added::New
        );
        assert_value(rt, &k, col, Some(&[6]));
    }
    Ok(())
}

#[test]
fn columns_at_the_ends_of_vectors(rt: HostRuntime) -> Result<(), Fail> {
    lonely_columns(&rt, rt.alloc(), 40)?;
    lonely_columns(&rt, rt.alloc(), 360)
}

// A byte other than zero is seen wherever it stands.
#[test]
fn one_byte_among_zeros(rt: HostRuntime) -> Result<(), Fail> {
    for count in [0, 1, 15, 16, 17, 20, 32, 33, 48, 134] {
        let zeros = vec![in rt.alloc(); 0; count]?;
        assert!(&rt; is_zero(zeros.as_slice()), "{count} zeros");
        for place in 0..count {
            let bytes = ones_at(rt.alloc(), count, &[place])?;
            assert!(&rt; !is_zero(bytes.as_slice()), "place {place} of {count}");
        }
    }
    Ok(())
}

// One row that is not zero at its first and its last column: the last is its pivot.
fn worked_matrix<F: Field>(rt: &impl Abort, alloc: Global) -> Result<(), Fail> {
    let mut m = Matrix::<F>::zeros(alloc, 1, 4)?;
    fill(rt, &mut m, 4, &[1, 0, 0, 1])?;
    let r = Reduced::of(alloc, &m)?;
    assert_free(rt, &r, &[1, 1, 1, 0], 1);
    assert_least(rt, alloc, &r, 2, &[0, 1, 0, 0])?;
    assert_least(rt, alloc, &r, 1, &[1, 0, 0, 1])?;
    assert_least(rt, alloc, &r, 9, &[0, 0, 1, 0])?;
    assert_least(rt, alloc, &r, 0, &[0, 0, 0, 0])
}

#[test]
fn worked_matrix_over_both_fields(rt: HostRuntime) -> Result<(), Fail> {
    worked_matrix::<Gf2>(&rt, rt.alloc())?;
    worked_matrix::<Gf256>(&rt, rt.alloc())
}

// Matrices of three rows and five columns over GF(2), the columns that are free, the rank, and for each bound from 1 to 5 the
// least vector of the kernel that is not zero below it, all zeros where there is none. A script lists them that goes through
// all vectors.
const MATRICES: [[u8; 46]; 12] = [
    [
        1, 0, 0, 1, 0, 0, 0, 0, 1, 0, 1, 1, 1, 0, 0, 0, 1, 0, 0, 1, 3, 0, 0, 0, 0, 0, 0, 1, 1, 0,
        0, 0, 1, 1, 0, 0, 0, 1, 1, 0, 0, 0, 0, 0, 0, 1,
    ],
    [
        0, 1, 0, 0, 0, 1, 0, 0, 0, 0, 0, 0, 1, 0, 1, 0, 0, 1, 1, 0, 3, 0, 0, 0, 0, 0, 0, 0, 0, 0,
        0, 0, 0, 1, 0, 1, 0, 0, 0, 1, 0, 0, 0, 0, 1, 0,
    ],
    [
        0, 1, 0, 0, 1, 1, 1, 0, 0, 0, 1, 0, 0, 0, 1, 1, 0, 1, 1, 0, 2, 1, 1, 0, 0, 1, 1, 1, 0, 0,
        1, 0, 0, 1, 0, 0, 0, 0, 0, 1, 0, 0, 0, 0, 1, 0,
    ],
    [
        0, 0, 1, 1, 0, 0, 0, 0, 0, 0, 1, 0, 1, 1, 0, 0, 1, 1, 0, 1, 2, 0, 0, 0, 0, 0, 0, 1, 0, 0,
        0, 0, 0, 1, 1, 0, 0, 0, 1, 1, 0, 0, 0, 0, 0, 1,
    ],
    [
        1, 1, 0, 1, 0, 0, 0, 0, 0, 1, 1, 1, 1, 0, 0, 1, 1, 0, 0, 0, 3, 1, 0, 1, 1, 0, 0, 1, 1, 1,
        0, 0, 1, 1, 1, 0, 0, 1, 1, 1, 0, 0, 1, 1, 1, 0,
    ],
    [
        0, 0, 1, 1, 0, 1, 1, 0, 1, 0, 0, 1, 0, 0, 0, 1, 0, 0, 0, 1, 3, 1, 0, 1, 1, 0, 1, 0, 1, 1,
        0, 1, 0, 1, 1, 0, 1, 0, 1, 1, 0, 0, 0, 0, 0, 1,
    ],
    [
        0, 0, 0, 0, 1, 1, 1, 1, 0, 0, 0, 0, 0, 1, 0, 1, 1, 0, 0, 0, 3, 1, 0, 1, 0, 0, 0, 1, 1, 0,
        0, 0, 1, 1, 0, 0, 0, 1, 1, 0, 0, 0, 1, 1, 0, 0,
    ],
    [
        0, 0, 0, 1, 0, 1, 1, 0, 1, 0, 0, 0, 1, 1, 1, 1, 0, 1, 0, 0, 3, 1, 1, 0, 0, 0, 1, 1, 0, 0,
        0, 0, 0, 1, 0, 1, 0, 0, 1, 0, 1, 0, 0, 1, 0, 1,
    ],
    [
        1, 0, 0, 0, 0, 0, 1, 1, 0, 0, 0, 0, 0, 1, 1, 0, 1, 0, 1, 0, 3, 0, 0, 0, 0, 0, 0, 1, 1, 0,
        0, 0, 1, 1, 0, 0, 0, 0, 0, 1, 1, 0, 0, 0, 1, 1,
    ],
    [
        0, 1, 1, 0, 1, 1, 1, 0, 1, 0, 1, 1, 0, 0, 0, 1, 0, 1, 0, 0, 3, 1, 1, 0, 0, 1, 1, 1, 0, 0,
        1, 0, 0, 1, 0, 1, 0, 0, 1, 0, 1, 0, 0, 1, 0, 1,
    ],
    [
        1, 1, 0, 0, 0, 1, 1, 1, 0, 0, 0, 1, 0, 0, 1, 1, 0, 0, 1, 0, 3, 1, 1, 0, 0, 1, 1, 1, 0, 0,
        1, 1, 1, 0, 0, 1, 0, 0, 0, 1, 0, 0, 0, 0, 1, 0,
    ],
    [
        1, 0, 0, 0, 0, 0, 1, 0, 1, 1, 0, 1, 1, 1, 0, 0, 1, 1, 0, 0, 3, 0, 0, 0, 0, 0, 0, 1, 0, 1,
        0, 0, 0, 1, 1, 1, 0, 0, 1, 1, 1, 0, 0, 1, 1, 1,
    ],
];

#[test]
fn listed_matrices(rt: HostRuntime) -> Result<(), Fail> {
    let alloc = rt.alloc();
    let mut m = Matrix::<Gf2>::zeros(alloc, 3, 5)?;
    for line in &MATRICES {
        fill(&rt, &mut m, 5, &line[..15])?;
        let r = Reduced::of(alloc, &m)?;
        assert_free(&rt, &r, &line[15..20], line[20] as usize);
        for below in 1..6 {
            assert_least(&rt, alloc, &r, below, &line[5 * below + 16..5 * below + 21])?;
        }
    }
    Ok(())
}

// The last column is the sum of columns 3 and 100, so the kernel is what a one at these three makes.
#[test]
fn matrix_of_real_size(rt: HostRuntime) -> Result<(), Fail> {
    let alloc = rt.alloc();
    let mut m = Matrix::<Gf256>::zeros(alloc, 1000, 144)?;
    for i in 0..1000 {
        for j in 0..143 {
            put(&rt, &mut m, i, j, mixed(i, j))?;
        }
        put(&rt, &mut m, i, 143, mixed(i, 3) ^ mixed(i, 100))?;
    }
    let r = Reduced::of(alloc, &m)?;
    let mut free = [0; 144];
    free[3] = 1;
    assert_free(&rt, &r, &free, 143);
    let mut least = [0; 144];
    assert_least(&rt, alloc, &r, 3, &least)?;
    least[3] = 1;
    least[100] = 1;
    least[143] = 1;
    assert_least(&rt, alloc, &r, 4, &least)
}
