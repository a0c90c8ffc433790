//! Matrices that are made entry by entry, and codes of such matrices.

ghost use Rattle.std.specs.Prelude.{◌≡◌, ℕ, ◌*◌, ◌+◌, ◌<◌, ◌≤◌, map, length, IfOk, OnOk};
ghost use Rattle.std.specs.List.{range_with_len};
ghost use Rattle.sc_matrix.specs.Matrix.{row_count, with_last_row};
ghost use Rattle.sc_code.specs.Code.{IsInRange};
ghost use Rattle.sc_diag.specs.Made.{matrix_with, code_with};

use sc_code::{ByteCode, Code};
use sc_field::{Field, Gf256};
use sc_matrix::Matrix;
use sc_outside::NoMemory;
use std::alloc::Global;

/// A matrix over GF(256) for each lag, told entry by entry.
pub trait Entries {
    // The numbers of rows and columns of each matrix.
    ghost rows: { Self → ℕ };

    ghost cols: { Self → ℕ };

    // The entry of the matrix of a lag, at a row and a column.
    ghost entry: { Self → ℕ → ℕ → ℕ → ℕ };

    /// The number of rows of each matrix.
    fn rows(&self) -> usize
        ensures { result ≡ rows self.now };

    /// The number of columns of each matrix.
    fn cols(&self) -> usize
        ensures { result ≡ cols self.now };

    /// The entry of the matrix of a lag at row `i` and column `j`.
    fn at(&self, lag: usize, i: usize, j: usize) -> Gf256
        requires lag { lag ≤ 64 }
        requires small { rows self.now + cols self.now ≤ 64 }
        requires row { i < rows self.now }
        requires column { j < cols self.now }
        ensures { result ≡ entry self.now lag i j };
}

/// The matrix of a lag.
pub fn matrix_of<E: Entries>(
    alloc: Global,
    entries: &E,
    lag: usize,
) -> Result<Matrix<Gf256>, NoMemory>
    requires lag { lag ≤ 64 }
    requires small { E.rows entries.now + E.cols entries.now ≤ 64 }
    ensures { IfOk result (λ m. m ≡ matrix_with (E.rows entries.now) (E.cols entries.now) (E.entry entries.now lag)) }
{
    let mut m = Matrix::with_capacity(alloc, entries.rows(), entries.cols())?;
    for i in 0..entries.rows() {
        let row = row_of(alloc, entries, lag, i)?;
        push_bytes(&mut m, row.as_slice())?;
    }
    Ok(m)
}

/// Appends the row of these bytes.
fn push_bytes(m: &mut Matrix<Gf256>, row: &[u8]) -> Result<(), NoMemory>
    requires width { length row.now ≡ m.old.cols }
    requires count { row_count m.old < 64 }
    requires cols { m.old.cols ≤ 64 }
    ensures { OnOk result (m.new ≡ with_last_row m.old row.now) }
{
    m.push_row(row)
}

/// The numbers of a row of the matrix of a lag.
fn row_of<E: Entries>(alloc: Global, entries: &E, lag: usize, i: usize) -> Result<Vec<u8>, NoMemory>
    requires lag { lag ≤ 64 }
    requires small { E.rows entries.now + E.cols entries.now ≤ 64 }
    requires row { i < E.rows entries.now }
    ensures { IfOk result (λ row. row.items ≡ map (E.entry entries.now lag i) (range_with_len 0 (E.cols entries.now))) }
{
    let mut row = Vec::with_capacity(alloc, entries.cols())?;
    for j in 0..entries.cols() {
        row.push(entries.at(lag, i, j).number())?;
    }
    Ok(row)
}

/// The code that has these matrices, at `count` lags from 0 on.
pub fn code_of<E: Entries>(alloc: Global, entries: &E, count: usize) -> Result<ByteCode, NoMemory>
    requires { IsInRange (E.rows entries.now) (E.cols entries.now) count }
    ensures { IfOk result (λ code. code ≡ code_with (E.rows entries.now) (E.cols entries.now) count (E.entry entries.now)) }
{
    let lags = matrices_of(alloc, entries, count)?;
    Ok(Code::new(entries.rows(), entries.cols(), lags).unwrap())
}

/// The matrices of the lags from 0 to `count` - 1.
fn matrices_of<E: Entries>(
    alloc: Global,
    entries: &E,
    count: usize,
) -> Result<Vec<Matrix<Gf256>>, NoMemory>
    requires count { count ≤ 65 }
    requires small { E.rows entries.now + E.cols entries.now ≤ 64 }
    ensures { IfOk result (λ lags. lags.items ≡ map (λ lag. matrix_with (E.rows entries.now) (E.cols entries.now) (E.entry entries.now lag)) (range_with_len 0 count)) }
{
    let mut lags = Vec::with_capacity(alloc, count)?;
    for lag in 0..count {
        lags.push(matrix_of(alloc, entries, lag)?)?;
    }
    Ok(lags)
}
