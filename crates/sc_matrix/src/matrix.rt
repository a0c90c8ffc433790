//! The matrix over a field, whose entries are kept as their numbers.
ghost use Rattle.std.specs.Prelude.{◌≡◌, ◌≢◌, ◌+◌, ◌*◌, ◌<◌, ◌≤◌, ◌↔◌, ℕ, IsTrue, IfOk, OnOk, OnErr, MatchOption, All, length, map, replicate, bytes_eq};
ghost use Rattle.std.specs.Cmp.{on_equiv, on_per, partial_equiv_from_equiv};
ghost use Rattle.std.specs.Cmp.Lexicographic.{nat_list_eq_equiv};
ghost use Rattle.sc_field.specs.Field.{IsNumber};
ghost use Rattle.sc_matrix.specs.Matrix.{IsMatrix, IsFirstNonzero, all_numbers, row_count, row, entry, with_row, with_entry, with_last_row, first_rows, zero_matrix, identity, transpose, submatrix, swap_rows, scale_row, add_row, add_row_from, apply, product};

use crate::bytes::dot_product;
use crate::rows::Rows;
use sc_field::{Field, element_of};
use sc_outside::NoMemory;
use std::alloc::Global;
use std::marker::{Model, PhantomData};

/// The most entries that a matrix has.
pub const MAX_ENTRIES: usize = 67_108_864;

/// A matrix of `rows` rows and `cols` columns over the field `F`.
///
/// It keeps the numbers of its entries, one byte each, row after row.
#[derive(Debug, Drop)]
pub struct Matrix<F: Field> {
    pub(crate) numbers: Rows,
    field: PhantomData<F>,
}

impl<F: Field> Model for Matrix<F> {
    ghost use Rattle.sc_matrix.specs.Matrix.{Matrix as MatrixOf, matrix_code};
    ghost use Rattle.sc_matrix.specs.Numbers.{elements_of, AreNumbers};

    ghost Value = { MatrixOf F };

    ghost coded = { matrix_code F.code };

    ghost view = { λ m. elements_of F.element m.numbers };

    ghost invariant = { λ m. AreNumbers F.IsElement F.number F.element m.numbers };
}

#[tactic(auto, using(crate::proofs::MatrixLaws::matrix_steps))]
impl<F: Field> Matrix<F> {
    /// The zero matrix of `rows` rows and `cols` columns.
    pub fn zeros(alloc: Global, rows: usize, cols: usize) -> Result<Matrix<F>, NoMemory>
        requires { rows * cols ≤ MAX_ENTRIES }
        ensures { IfOk result (λ m. m ≡ zero_matrix F.zero rows cols) }
    {
        let numbers = Rows::zeros(alloc, rows, cols)?;
        Ok(Matrix {
            numbers,
            field: PhantomData,
        })
    }

    /// A matrix of `cols` columns that has no row yet, with room for `rows` of them.
    pub fn with_capacity(alloc: Global, rows: usize, cols: usize) -> Result<Matrix<F>, NoMemory>
        requires { rows * cols ≤ MAX_ENTRIES }
        ensures { IfOk result (λ m. m ≡ zero_matrix F.zero 0 cols) }
    {
        let numbers = Rows::with_capacity(alloc, rows, cols)?;
        Ok(Matrix {
            numbers,
            field: PhantomData,
        })
    }

    /// The identity matrix of `n` rows and `n` columns.
    pub fn identity(alloc: Global, n: usize) -> Result<Matrix<F>, NoMemory>
        requires { n * n ≤ MAX_ENTRIES }
        ensures { IfOk result (λ m. m ≡ identity F.zero F.one n) }
    {
        let mut m = Matrix::zeros(alloc, n, n)?;
        for i in 0..n {
            m.set(i, i, F::one());
        }
        Ok(m)
    }

    /// A matrix with the same rows and columns.
    pub fn copy(&self, alloc: Global) -> Result<Matrix<F>, NoMemory>
        ensures { IfOk result (λ m. m ≡ self.now) }
    {
        let numbers = self.numbers.copy(alloc)?;
        Ok(Matrix {
            numbers,
            field: PhantomData,
        })
    }

    /// Makes this matrix equal to `other`, which has as many rows and columns. It takes no memory.
    pub fn copy_from(&mut self, other: &Matrix<F>)
        requires rows { row_count self.old ≡ row_count other.now }
        requires cols { self.old.cols ≡ other.now.cols }
        ensures { self.new ≡ other.now }
    {
        self.numbers.copy_from(&other.numbers);
    }

    /// Does nothing. Its contract tells a proof what holds of a matrix in hand.
    pub fn known(&self)
        ensures shape { IsMatrix F.IsElement self.now }
        ensures small { row_count self.now * self.now.cols ≤ MAX_ENTRIES }
    {
        let _numbers = &self.numbers;
    }

    /// The number of rows.
    pub fn rows(&self) -> usize
        ensures count { result ≡ row_count self.now }
        ensures shape { IsMatrix F.IsElement self.now }
        ensures small { row_count self.now * self.now.cols ≤ MAX_ENTRIES }
    {
        self.known();
        self.numbers.count
    }

    /// The number of columns.
    pub fn cols(&self) -> usize
        ensures count { result ≡ self.now.cols }
        ensures shape { IsMatrix F.IsElement self.now }
        ensures small { row_count self.now * self.now.cols ≤ MAX_ENTRIES }
    {
        self.known();
        self.numbers.width
    }

    /// The entry at row `i` and column `j`, both counted from 0.
    pub fn get(&self, i: usize, j: usize) -> F
        requires row { i < row_count self.now }
        requires column { j < self.now.cols }
        ensures value { result ≡ entry F.zero self.now i j }
        ensures element { F.IsElement result }
    {
        element_of(self.numbers.get(i, j))
    }

    /// Writes `value` at row `i` and column `j`.
    pub fn set(&mut self, i: usize, j: usize, value: F)
        requires row { i < row_count self.old }
        requires column { j < self.old.cols }
        ensures { self.new ≡ with_entry self.old i j value }
    {
        value.known();
        self.numbers.set(i, j, value.number());
    }

    /// Row `i`, as the numbers of its entries.
    pub fn row(&self, i: usize) -> &[u8]
        requires { i < row_count self.now }
        ensures value { map F.element result.now ≡ row self.now i }
        ensures numbers { All (IsNumber F.IsElement F.number F.element) result.now }
        ensures width { length result.now ≡ self.now.cols }
    {
        self.numbers.row(i)
    }

    /// Writes over row `i` the row whose entries have these numbers.
    pub fn write_row(&mut self, i: usize, numbers: &[u8])
        requires row { i < row_count self.old }
        requires width { length numbers.now ≡ self.old.cols }
        requires numbers { All (IsNumber F.IsElement F.number F.element) numbers.now }
        ensures { self.new ≡ with_row self.old i (map F.element numbers.now) }
    {
        self.numbers.write_row(i, numbers);
    }

    /// Appends the row whose entries have these numbers.
    ///
    /// It takes memory only where no room is left, as [`Matrix::with_capacity`] reserves it. An error leaves the
    /// matrix as it was.
    pub fn push_row(&mut self, numbers: &[u8]) -> Result<(), NoMemory>
        requires width { length numbers.now ≡ self.old.cols }
        requires numbers { All (IsNumber F.IsElement F.number F.element) numbers.now }
        requires small { (row_count self.old + 1) * self.old.cols ≤ MAX_ENTRIES }
        requires counts { row_count self.old < usize.MAX }
        ensures pushed { OnOk result (self.new ≡ with_last_row self.old (map F.element numbers.now)) }
        ensures kept { OnErr result (self.new ≡ self.old) }
    {
        self.numbers.push_row(numbers)?;
        Ok(())
    }

    /// Keeps the first `rows` rows and drops those behind. The memory stays reserved.
    pub fn truncate(&mut self, rows: usize)
        ensures { self.new ≡ first_rows rows self.old }
    {
        self.numbers.truncate(rows);
    }

    /// Drops all rows. The memory stays reserved, and so do the columns.
    pub fn clear(&mut self)
        ensures { self.new ≡ zero_matrix F.zero 0 self.old.cols }
    {
        self.truncate(0);
    }

    /// The first column at which row `i` is not zero.
    pub fn first_nonzero(&self, i: usize) -> Option<usize>
        requires { i < row_count self.now }
        ensures { MatchOption result (row self.now i ≡ replicate self.now.cols F.zero) (IsFirstNonzero F.zero (row self.now i)) }
    {
        self.numbers.first_nonzero(i)
    }

    /// Whether row `i` is zero.
    pub fn is_zero_row(&self, i: usize) -> bool
        requires { i < row_count self.now }
        ensures { IsTrue result ↔ (row self.now i ≡ replicate self.now.cols F.zero) }
    {
        self.first_nonzero(i).is_none()
    }

    /// Exchanges the rows `a` and `b`.
    pub fn row_swap(&mut self, a: usize, b: usize)
        requires first { a < row_count self.old }
        requires second { b < row_count self.old }
        ensures { self.new ≡ swap_rows self.old a b }
    {
        self.numbers.row_swap(a, b);
    }

    /// Multiplies row `a` by `c`, which is not zero.
    pub fn row_scale(&mut self, a: usize, c: F)
        requires row { a < row_count self.old }
        requires factor { c ≢ F.zero }
        ensures { self.new ≡ scale_row F.mul self.old a c }
    {
        c.known();
        self.numbers.row_scale(a, c);
    }

    /// Adds `c` times row `b` to row `a`, which is another row.
    pub fn row_add(&mut self, a: usize, c: F, b: usize)
        requires target { a < row_count self.old }
        requires source { b < row_count self.old }
        requires apart { a ≢ b }
        ensures { self.new ≡ add_row F.add F.mul self.old a c b }
    {
        self.row_add_from(a, c, b, 0);
    }

    /// Adds `c` times row `b` to row `a`, which is another row, in the columns from `start` on.
    ///
    /// Where row `b` is zero before `start`, this is [`Matrix::row_add`] in less time.
    pub fn row_add_from(&mut self, a: usize, c: F, b: usize, start: usize)
        requires target { a < row_count self.old }
        requires source { b < row_count self.old }
        requires apart { a ≢ b }
        requires start { start ≤ self.old.cols }
        ensures { self.new ≡ add_row_from F.add F.mul self.old a c b start }
    {
        c.known();
        self.numbers.row_add(a, c, b, start);
    }

    /// The transpose: its rows are the columns of this matrix.
    pub fn transpose(&self, alloc: Global) -> Result<Matrix<F>, NoMemory>
        ensures { IfOk result (λ m. m ≡ transpose F.zero self.now) }
    {
        let numbers = self.numbers.transpose(alloc)?;
        Ok(Matrix {
            numbers,
            field: PhantomData,
        })
    }

    /// The entries at the rows `rows` and the columns `cols`, in the order in which these name them.
    pub fn submatrix(
        &self,
        alloc: Global,
        rows: &[usize],
        cols: &[usize],
    ) -> Result<Matrix<F>, NoMemory>
        requires rows { All (λ i. i < row_count self.now) rows.now }
        requires cols { All (λ j. j < self.now.cols) cols.now }
        requires small { length rows.now * length cols.now ≤ MAX_ENTRIES }
        ensures { IfOk result (λ m. m ≡ submatrix F.zero self.now rows.now cols.now) }
    {
        let numbers = self.numbers.submatrix(alloc, rows, cols)?;
        Ok(Matrix {
            numbers,
            field: PhantomData,
        })
    }

    /// The product of this matrix and `other`, which has a row for each column of this one.
    ///
    /// It has the rows of this matrix and the columns of `other`.
    pub fn mul(&self, alloc: Global, other: &Matrix<F>) -> Result<Matrix<F>, NoMemory>
        requires inner { self.now.cols ≡ row_count other.now }
        requires small { row_count self.now * other.now.cols ≤ MAX_ENTRIES }
        ensures { IfOk result (λ m. m ≡ product F.zero F.add F.mul self.now other.now) }
    {
        let numbers = Rows::product::<F>(alloc, &self.numbers, &other.numbers)?;
        Ok(Matrix {
            numbers,
            field: PhantomData,
        })
    }

    /// The product of this matrix and the vector `v`, which has an entry for each column.
    pub fn mul_vec(&self, alloc: Global, v: &[F]) -> Result<Vec<F>, NoMemory>
        requires { length v.now ≡ self.now.cols }
        ensures value { IfOk result (λ w. w.items ≡ apply F.zero F.add F.mul self.now v.now) }
        ensures elements { IfOk result (λ w. All F.IsElement w.items) }
    {
        let mut out = Vec::with_capacity(alloc, self.rows())?;
        for i in 0..self.rows() {
            out.push(dot_product(self.row(i), v))?;
        }
        Ok(out)
    }
}

/// Two matrices are equal where they have the same sizes and entries.
impl<F: Field> PartialEq for Matrix<F> {
    ghost eq = { λ a b. bytes_eq (all_numbers F.number a) (all_numbers F.number b) };

    ghost laws = { on_per (all_numbers F.number) (partial_equiv_from_equiv nat_list_eq_equiv) };

    fn eq(&self, other: &Matrix<F>) -> bool {
        if self.numbers.width != other.numbers.width {
            return false;
        }
        if self.numbers.count != other.numbers.count {
            return false;
        }
        self.numbers.bytes.as_slice() == other.numbers.bytes.as_slice()
    }
}

impl<F: Field> Eq for Matrix<F> {
    ghost laws = { on_equiv (all_numbers F.number) nat_list_eq_equiv };
}
