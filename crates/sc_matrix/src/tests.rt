//! The worked matrix over both fields, each public call once at each of them, and the sizes of real use.
//!
//! The helpers have no contract, so that a test is short to prove. Where a place isn't there, one that tells answers
//! `false`, and one that writes writes nothing, which then misses.
ghost use Rattle.std.specs.Prelude.{◌*◌, ◌≤◌};

use super::*;
use sc_field::{Field, Gf2, Gf256};
use sc_outside::NoMemory;
use std::alloc::Global;
use std::test::Fail;

// The element with this number.
fn element<F: Field>(n: u8) -> Result<F, Fail> {
    Ok(F::from_number(n).ok_or("no element has this number")?)
}

// Whether the entry at this place has this number.
fn is_at<F: Field>(m: &Matrix<F>, i: usize, j: usize, n: u8) -> bool {
    i < m.rows() && j < m.cols() && m.get(i, j).number() == n
}

// Whether the matrix has these sizes, and its entries these numbers, row by row.
fn is_matrix<F: Field>(m: &Matrix<F>, rows: usize, cols: usize, numbers: &[u8]) -> bool {
    if m.rows() != rows || m.cols() != cols {
        return false;
    }
    for (k, n) in numbers.iter().enumerate() {
        if cols == 0 || !is_at(m, k / cols, k % cols, *n) {
            return false;
        }
    }
    true
}

fn put<F: Field>(m: &mut Matrix<F>, i: usize, j: usize, number: u8) -> Result<(), Fail> {
    let x = element(number)?;
    if i < m.rows() && j < m.cols() {
        m.set(i, j, x);
    }
    Ok(())
}

// Writes the numbers row by row.
fn put_all<F: Field>(m: &mut Matrix<F>, numbers: &[u8]) -> Result<(), Fail> {
    let cols = m.cols();
    for (k, n) in numbers.iter().enumerate() {
        if cols > 0 {
            put(m, k / cols, k % cols, *n)?;
        }
    }
    Ok(())
}

// The matrix of two rows and two columns with these numbers, row by row.
fn square<F: Field>(alloc: Global, numbers: [u8; 4]) -> Result<Matrix<F>, Fail> {
    let mut m = Matrix::zeros(alloc, 2, 2)?;
    put_all(&mut m, &numbers)?;
    Ok(m)
}

// The matrix of two rows and one column with these numbers.
fn standing<F: Field>(alloc: Global, numbers: [u8; 2]) -> Result<Matrix<F>, Fail> {
    let mut m = Matrix::zeros(alloc, 2, 1)?;
    put_all(&mut m, &numbers)?;
    Ok(m)
}

// Whether the square times the column as a matrix is the image.
fn is_image<F: Field>(
    alloc: Global,
    m: &Matrix<F>,
    column: [u8; 2],
    image: [u8; 2],
) -> Result<bool, Fail> {
    let v = standing(alloc, column)?;
    if m.rows() != 2 || m.cols() != v.rows() || v.cols() != 1 {
        return Ok(false);
    }
    Ok(is_matrix(&m.mul(alloc, &v)?, 2, 1, &image))
}

fn vector<F: Field>(alloc: Global, numbers: [u8; 2]) -> Result<Vec<F>, Fail> {
    let mut v = Vec::new(alloc);
    for n in numbers {
        v.push(element(n)?)?;
    }
    Ok(v)
}

// Whether the square times the column as a vector is the image.
fn is_image_of_vector<F: Field>(
    alloc: Global,
    m: &Matrix<F>,
    column: [u8; 2],
    image: [u8; 2],
) -> Result<bool, Fail> {
    let v = vector(alloc, column)?;
    if m.cols() != v.len() {
        return Ok(false);
    }
    let w = m.mul_vec(alloc, &v)?;
    Ok(w.len() == 2 && w[0].number() == image[0] && w[1].number() == image[1])
}

fn copies<F: Field>(alloc: Global, m: &Matrix<F>, numbers: [u8; 4]) -> Result<bool, NoMemory> {
    Ok(is_matrix(&m.copy(alloc)?, 2, 2, &numbers))
}

fn turns<F: Field>(alloc: Global, m: &Matrix<F>, numbers: [u8; 4]) -> Result<bool, NoMemory> {
    let [a, b, c, d] = numbers;
    Ok(is_matrix(&m.transpose(alloc)?, 2, 2, &[a, c, b, d]))
}

// The submatrix of one entry.
fn cuts<F: Field>(alloc: Global, m: &Matrix<F>, numbers: [u8; 4]) -> Result<bool, NoMemory> {
    if m.rows() != 2 || m.cols() != 2 {
        return Ok(false);
    }
    Ok(is_matrix(&m.submatrix(alloc, &[1], &[0])?, 1, 1, &[numbers[2]]))
}

// One row of zeros, and no row, which turned is no column.
fn zero_shapes<F: Field>(alloc: Global) -> Result<bool, NoMemory> {
    let row = Matrix::<F>::zeros(alloc, 1, 2)?;
    let none = Matrix::<F>::zeros(alloc, 0, 2)?;
    let flat = none.transpose(alloc)?;
    Ok(is_matrix(&row, 1, 2, &[0, 0]) && is_matrix(&none, 0, 2, &[]) && is_matrix(&flat, 2, 0, &[]))
}

fn swap<F: Field>(m: &mut Matrix<F>, a: usize, b: usize) {
    if a < m.rows() && b < m.rows() {
        m.row_swap(a, b);
    }
}

fn scale<F: Field>(m: &mut Matrix<F>, a: usize, c: F) {
    c.known();
    F::zero().known();
    if a < m.rows() && c != F::zero() {
        m.row_scale(a, c);
    }
}

fn add<F: Field>(m: &mut Matrix<F>, a: usize, c: F, b: usize) {
    if a < m.rows() && b < m.rows() && a != b {
        m.row_add(a, c, b);
    }
}

fn add_from<F: Field>(m: &mut Matrix<F>, a: usize, c: F, b: usize, start: usize) {
    if a < m.rows() && b < m.rows() && a != b && start <= m.cols() {
        m.row_add_from(a, c, b, start);
    }
}

// The row operations one after another: the rows exchanged, row 0 times the factor, and the factor times row 1
// added to row 0.
fn operates<F: Field>(m: &mut Matrix<F>, factor: u8, ends: [[u8; 4]; 3]) -> Result<bool, Fail> {
    let c = element::<F>(factor)?;
    swap(m, 0, 1);
    let swapped = is_matrix(m, 2, 2, &ends[0]);
    scale(m, 0, c);
    let scaled = is_matrix(m, 2, 2, &ends[1]);
    add(m, 0, c, 1);
    Ok(swapped && scaled && is_matrix(m, 2, 2, &ends[2]))
}

// Appends a row of another matrix of two columns to one with room.
fn push<F: Field>(out: &mut Matrix<F>, m: &Matrix<F>, i: usize) -> Result<(), NoMemory> {
    if i < m.rows() && m.cols() == 2 && out.cols() == 2 && out.rows() < 3 {
        out.push_row(m.row(i))?;
    }
    Ok(())
}

fn write<F: Field>(out: &mut Matrix<F>, at: usize, m: &Matrix<F>, i: usize) {
    if i < m.rows() && at < out.rows() && m.cols() == out.cols() {
        out.write_row(at, m.row(i));
    }
}

fn copy_from<F: Field>(out: &mut Matrix<F>, m: &Matrix<F>) {
    if m.rows() == out.rows() && m.cols() == out.cols() {
        out.copy_from(m);
    }
}

fn has_row<F: Field>(m: &Matrix<F>, i: usize, numbers: &[u8]) -> bool {
    i < m.rows() && m.row(i) == numbers
}

// The rows of the square the other way round, pushed.
fn pushes<F: Field>(alloc: Global, m: &Matrix<F>) -> Result<Matrix<F>, NoMemory> {
    let mut rows = Matrix::with_capacity(alloc, 3, 2)?;
    push(&mut rows, m, 1)?;
    push(&mut rows, m, 0)?;
    Ok(rows)
}

// Whether the calls that write and drop whole rows do so, on those of the square the other way round.
fn writes<F: Field>(rows: &mut Matrix<F>, m: &Matrix<F>, numbers: [u8; 4]) -> bool {
    let [a, b, c, d] = numbers;
    let pushed = is_matrix(rows, 2, 2, &[c, d, a, b]);
    write(rows, 0, m, 0);
    let written = is_matrix(rows, 2, 2, &[a, b, a, b]) && *rows != *m;
    copy_from(rows, m);
    pushed && written && is_matrix(rows, 2, 2, &numbers) && *rows == *m
}

fn drops<F: Field>(rows: &mut Matrix<F>, numbers: [u8; 4]) -> bool {
    rows.truncate(1);
    let cut = is_matrix(rows, 1, 2, &[numbers[0], numbers[1]]);
    rows.clear();
    cut && is_matrix(rows, 0, 2, &[])
}

// Whether this is the first entry of the row that is not zero.
fn is_first<F: Field>(m: &Matrix<F>, i: usize, first: Option<usize>) -> bool {
    i < m.rows() && m.first_nonzero(i) == first
}

fn is_zero<F: Field>(m: &Matrix<F>, i: usize) -> bool {
    i < m.rows() && m.is_zero_row(i)
}

// The identity of three rows whose rows 0 and 1 are made zero and row 2 one throughout, and a sum from a column on.
fn zeros_in_rows<F: Field>(m: &mut Matrix<F>) -> Result<bool, Fail> {
    let identity = is_matrix(m, 3, 3, &[1, 0, 0, 0, 1, 0, 0, 0, 1]) && is_first(m, 1, Some(1));
    put_all(m, &[0, 0, 0, 0, 0, 0, 1, 1])?;
    let zero = is_first(m, 1, None) && is_zero(m, 1) && !is_zero(m, 2);
    add_from(m, 0, F::one(), 2, 1);
    Ok(identity && zero && is_matrix(m, 3, 3, &[0, 1, 1, 0, 0, 0, 1, 1, 1]))
}

// A number that depends on both places.
fn mixed(i: usize, j: usize) -> u8 {
    let i = (i % 1009) as u32;
    let j = (j % 1013) as u32;
    ((i * 31 + j * 17 + i * j) % 256) as u8
}

// The matrix of these sizes whose entries have those bits of the mixed numbers that the mask has.
fn filled<F: Field>(alloc: Global, rows: usize, cols: usize, mask: u8) -> Result<Matrix<F>, Fail>
    requires { rows * cols ≤ MAX_ENTRIES }
{
    let mut m = Matrix::zeros(alloc, rows, cols)?;
    for i in 0..rows {
        for j in 0..cols {
            put(&mut m, i, j, mixed(i, j) & mask)?;
        }
    }
    Ok(m)
}

// The number of the entry of the product by the definition.
fn entry_of_product<F: Field>(a: &Matrix<F>, b: &Matrix<F>, i: usize, j: usize) -> u8 {
    let mut total = F::zero();
    if a.cols() == b.rows() && i < a.rows() && j < b.cols() {
        for k in 0..a.cols() {
            total = total.add(a.get(i, k).mul(b.get(k, j)));
        }
    }
    total.number()
}

// Whether each entry of a matrix of `n` rows and columns is that of the product by the definition.
fn is_product<F: Field>(p: &Matrix<F>, a: &Matrix<F>, b: &Matrix<F>, n: usize) -> bool {
    for i in 0..n {
        for j in 0..n {
            if !is_at(p, i, j, entry_of_product(a, b, i, j)) {
                return false;
            }
        }
    }
    p.rows() == n && p.cols() == n
}

// Whether the product of a matrix with `n` rows and one with `n` columns is right.
fn multiplies<F: Field>(
    alloc: Global,
    a: &Matrix<F>,
    b: &Matrix<F>,
    n: usize,
) -> Result<bool, NoMemory>
    requires { n * n ≤ MAX_ENTRIES }
{
    if a.cols() != b.rows() || a.rows() != n || b.cols() != n {
        return Ok(false);
    }
    Ok(is_product(&a.mul(alloc, b)?, a, b, n))
}

// The matrix times its transpose, entry by entry beside the definition.
fn product_of_size<F: Field>(alloc: Global, n: usize, inner: usize, mask: u8) -> Result<bool, Fail>
    requires size { n * inner ≤ MAX_ENTRIES }
    requires square { n * n ≤ MAX_ENTRIES }
{
    let a = filled::<F>(alloc, n, inner, mask)?;
    let b = a.transpose(alloc)?;
    Ok(multiplies(alloc, &a, &b, n)?)
}

#[test]
fn products_of_real_size(rt: HostRuntime) -> Result<(), Fail> {
    assert!(rt; product_of_size::<Gf256>(rt.alloc(), 300, 600, 255)?);
    assert!(rt; product_of_size::<Gf2>(rt.alloc(), 70, 130, 1)?);
    Ok(())
}

// Whether the matrix, or its transpose, has 300 rows and 600 columns of mixed numbers.
fn is_mixed(m: &Matrix<Gf256>, turned: bool) -> bool {
    for i in 0..300 {
        for j in 0..600 {
            let (a, b) = if turned { (j, i) } else { (i, j) };
            if !is_at(m, a, b, mixed(i, j)) {
                return false;
            }
        }
    }
    true
}

// The rows of the matrix pushed one after another, where there is room for all. Whether there was, and they are there.
fn pushed(alloc: Global, m: &Matrix<Gf256>) -> Result<bool, NoMemory> {
    let mut out = Matrix::with_capacity(alloc, 300, 600)?;
    let room = room_of(&out);
    for i in 0..300 {
        push_wide(&mut out, m, i)?;
    }
    Ok(room_of(&out) == room && is_mixed(&out, false))
}

fn push_wide(out: &mut Matrix<Gf256>, m: &Matrix<Gf256>, i: usize) -> Result<(), NoMemory> {
    if i < m.rows() && m.cols() == 600 && out.cols() == 600 && out.rows() < 300 {
        out.push_row(m.row(i))?;
    }
    Ok(())
}

// Four corners, in another order.
fn corners(alloc: Global, m: &Matrix<Gf256>) -> Result<bool, NoMemory> {
    if m.rows() != 300 || m.cols() != 600 {
        return Ok(false);
    }
    let part = m.submatrix(alloc, &[299, 0], &[0, 599])?;
    let numbers = [mixed(299, 0), mixed(299, 599), mixed(0, 0), mixed(0, 599)];
    Ok(is_matrix(&part, 2, 2, &numbers))
}

// The copies and cuts of a matrix of real size, entry by entry.
#[test]
fn shapes_of_real_size(rt: HostRuntime) -> Result<(), Fail> {
    let alloc = rt.alloc();
    let m = filled::<Gf256>(alloc, 300, 600, 255)?;
    assert!(rt; is_mixed(&m.copy(alloc)?, false));
    assert!(rt; is_mixed(&m.transpose(alloc)?, true));
    assert!(rt; pushed(alloc, &m)?);
    assert!(rt; corners(alloc, &m)?);
    Ok(())
}

fn room_of(m: &Matrix<Gf256>) -> usize {
    m.numbers.bytes.capacity()
}

fn room(made: Result<Matrix<Gf256>, NoMemory>) -> Result<usize, NoMemory> {
    Ok(room_of(&made?))
}

// Each call reserves about what its entries take.
#[test]
fn memory_of_real_size(rt: HostRuntime) -> Result<(), Fail> {
    let alloc = rt.alloc();
    let m = Matrix::<Gf256>::zeros(alloc, 300, 600)?;
    let zeros = room_of(&m);
    let copy = room(m.copy(alloc))?;
    let turned = room(m.transpose(alloc))?;
    let empty = room(Matrix::with_capacity(alloc, 300, 600))?;
    let one = room(Matrix::identity(alloc, 300))?;
    let most = zeros.max(copy).max(turned).max(empty);
    assert!(rt; most <= 200_000 && one <= 100_000);
    Ok(())
}

// The largest matrix.
#[test]
fn matrix_of_most_entries(rt: HostRuntime) -> Result<(), Fail> {
    let alloc = rt.alloc();
    let mut m = Matrix::<Gf256>::zeros(alloc, 8192, 8192)?;
    put(&mut m, 8191, 8191, 7)?;
    add_from(&mut m, 0, Gf256::from(2), 8191, 0);
    let m = m.copy(alloc)?;
    assert!(rt; is_at(&m, 0, 8191, 14) && is_at(&m, 8191, 8191, 7));
    assert!(rt; is_first(&m, 0, Some(8191)) && is_first(&m, 4000, None));
    Ok(())
}

// The number of a sum of one number and `c` times another.
fn sum(a: u8, c: Gf256, b: u8) -> u8 {
    Gf256::from(a).add(c.mul(Gf256::from(b))).number()
}

// The entry at row `i` and column `j` after the operations below: row 1 added to row 3 from column 37 on, row 2
// multiplied, and the rows 4 and 0 exchanged.
fn operated(i: usize, j: usize, c: Gf256) -> u8 {
    match i {
        0 => mixed(4, j),
        2 => sum(0, c, mixed(2, j)),
        3 => sum(mixed(3, j), c, if j < 37 { 0 } else { mixed(1, j) }),
        4 => mixed(0, j),
        _ => mixed(i, j),
    }
}

fn is_operated(m: &Matrix<Gf256>, c: Gf256) -> bool {
    for i in 0..5 {
        for j in 0..600 {
            if !is_at(m, i, j, operated(i, j, c)) {
                return false;
            }
        }
    }
    true
}

// The row operations on long rows, entry by entry.
#[test]
fn row_operations_of_real_size(rt: HostRuntime) -> Result<(), Fail> {
    let mut m = filled::<Gf256>(rt.alloc(), 5, 600, 255)?;
    let c = Gf256::from(29);
    add_from(&mut m, 3, c, 1, 37);
    scale(&mut m, 2, c);
    swap(&mut m, 4, 0);
    assert!(rt; is_operated(&m, c));
    Ok(())
}

// A square, its image of a column, a factor, and the squares after each row operation by it.
struct Worked {
    numbers: [u8; 4],
    column: [u8; 2],
    image: [u8; 2],
    factor: u8,
    ends: [[u8; 4]; 3],
}

const BYTES: &Worked = &Worked {
    numbers: [1, 2, 3, 1],
    column: [1, 2],
    image: [5, 1],
    factor: 2,
    ends: [[3, 1, 1, 2], [6, 2, 1, 2], [4, 6, 1, 2]],
};

const BITS: &Worked = &Worked {
    numbers: [1, 0, 1, 1],
    column: [1, 1],
    image: [1, 0],
    factor: 1,
    ends: [[1, 1, 1, 0], [1, 1, 1, 0], [0, 1, 1, 0]],
};

// Whether the square has its image and its shapes.
fn reads<F: Field>(alloc: Global, case: &Worked) -> Result<bool, Fail> {
    let m = square::<F>(alloc, case.numbers)?;
    Ok(
        is_matrix(&m, 2, 2, &case.numbers)
            && has_row(&m, 1, &[case.numbers[2], case.numbers[3]])
            && is_image(alloc, &m, case.column, case.image)?
            && is_image_of_vector(alloc, &m, case.column, case.image)?
            && copies(alloc, &m, case.numbers)?
            && turns(alloc, &m, case.numbers)?
            && cuts(alloc, &m, case.numbers)?,
    )
}

// Whether the calls that write to a matrix do so.
fn changes<F: Field>(alloc: Global, case: &Worked) -> Result<bool, Fail> {
    let mut m = square::<F>(alloc, case.numbers)?;
    let mut rows = pushes(alloc, &m)?;
    let written = writes(&mut rows, &m, case.numbers) && drops(&mut rows, case.numbers);
    Ok(operates(&mut m, case.factor, case.ends)? && written)
}

// Each public call.
fn over<F: Field>(alloc: Global, case: &Worked) -> Result<bool, Fail> {
    let mut one = Matrix::<F>::identity(alloc, 3)?;
    Ok(
        zeros_in_rows(&mut one)?
            && zero_shapes::<F>(alloc)?
            && reads::<F>(alloc, case)?
            && changes::<F>(alloc, case)?,
    )
}

#[test]
fn over_both_fields(rt: HostRuntime) -> Result<(), Fail> {
    assert!(rt; over::<Gf256>(rt.alloc(), BYTES)?);
    assert!(rt; over::<Gf2>(rt.alloc(), BITS)?);
    Ok(())
}
