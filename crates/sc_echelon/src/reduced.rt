//! Reduced forms of matrices, and what they tell of the kernel.
ghost use Rattle.std.specs.Prelude.{◌≡◌, ◌≢◌, ◌↔◌, ◌++◌, ◌∷◌, [], ◌<◌, ◌≤◌, ℕ, List, IfOk, IsTrue, MatchOption, All, true, false, length, slice_index_or};
ghost use Rattle.sc_matrix.specs.Matrix.{row_count};
ghost use Rattle.sc_echelon.specs.Echelon.{IsEchelonStored, HasKernelOf, IsLastOff, IsLeadingEntry, coeffs_of, on_below};
ghost use Rattle.sc_echelon.specs.Storage.{table_of};
ghost use Rattle.sc_echelon.specs.Kernel.{IsKernelVector, IsFree, IsRank, IsNonzeroBelow, IsLeastBelow};

use crate::equation::Equation;
use crate::table::{blank_rows, clear_at_pivots, insert_row};
use crate::tables::Tables;
use sc_field::Field;
use sc_matrix::Matrix;
use sc_outside::NoMemory;
use std::alloc::Global;
use std::marker::Model;

/// A matrix in reduced form: each row has a one at its pivot, its last column that is not zero, and every other row has
/// a zero there. It is seen as the matrix of its rows.
#[derive(Drop)]
pub struct Reduced<F: Field> {
    used: Vec<bool>,
    rows: Vec<Equation<F>>,
}

impl<F: Field> Model for Reduced<F> {
    ghost use Rattle.std.specs.Prelude.{length};
    ghost use Rattle.sc_matrix.specs.Matrix.{Matrix as MatrixOf, matrix_code};
    ghost use Rattle.sc_echelon.specs.Echelon.{IsEchelonStored, coeffs_of, matrix_by};
    ghost use Rattle.sc_echelon.specs.Storage.{table_of};

    ghost Value = { MatrixOf F };

    ghost coded = { matrix_code F.code };

    ghost view = { λ r. matrix_by (length r.used.items) (coeffs_of (table_of r.used.items r.rows.items)) };

    ghost invariant = { λ r. IsEchelonStored F.IsElement F.zero F.one r.used.items r.rows.items };
}

impl<F: Field> Reduced<F> {
    /// A reduced form of `m`, which has the same kernel. Pivots are taken from the last column first.
    ///
    /// It costs a pass over at most `cols` coefficients for each row of `m` and each pivot that the row touches, and keeps
    /// room for `cols` rows of `cols` coefficients.
    pub fn of(alloc: Global, m: &Matrix<F>) -> Result<Reduced<F>, NoMemory>
        ensures cols { IfOk result (λ r. r.cols ≡ m.now.cols) }
        ensures kernel { IfOk result (λ r. (v : List F) → IsKernelVector F.IsElement F.zero F.add F.mul r.cols r.rows v
            ↔ IsKernelVector F.IsElement F.zero F.add F.mul m.now.cols m.now.rows v) }
    {
        let cols = m.cols();
        let mut used = vec![in alloc; false; cols]?;
        let mut rows = blank_rows(alloc, cols, 0, 0)?;
        let mut work = Equation::zeros(alloc, cols, 0, 0)?;
        let mut tables = Tables::none(alloc)?;
        reduce_rows(
            rows.as_mut_slice(),
            used.as_mut_slice(),
            &mut work,
            m,
            &mut tables,
        );
        Ok(Reduced { used, rows })
    }

    /// The number of columns.
    pub fn cols(&self) -> usize
        ensures { result ≡ self.now.cols }
    {
        self.used.len()
    }

    /// The rank: the number of columns that are not free.
    pub fn rank(&self) -> usize
        ensures { IsRank F.zero (IsKernelVector F.IsElement F.zero F.add F.mul self.now.cols self.now.rows) self.now.cols result }
    {
        count_on(self.used.as_slice())
    }

    /// Whether some vector of the kernel is not zero at column `col` and zero before it.
    pub fn is_free(&self, col: usize) -> bool
        requires { col < self.now.cols }
        ensures { IsTrue result ↔ IsFree F.zero (IsKernelVector F.IsElement F.zero F.add F.mul self.now.cols self.now.rows) col }
    {
        if self.used[col] {
            return false;
        }
        true
    }

    /// The least vector of the kernel, in the lexicographic order of its elements' numbers, that is not zero on the columns
    /// below `below`. None exactly where no vector of the kernel is nonzero there.
    ///
    /// It has a one at the last free column below the bound, and zeros before it. It costs a look at one coefficient of
    /// each row.
    pub fn least_kernel(&self, alloc: Global, below: usize) -> Result<Option<Vec<F>>, NoMemory>
        ensures { IfOk result (λ least. MatchOption least
            ((v : List F) → IsKernelVector F.IsElement F.zero F.add F.mul self.now.cols self.now.rows v → IsNonzeroBelow F.zero below v → ⊥)
            (λ u. IsLeastBelow F.zero F.number (IsKernelVector F.IsElement F.zero F.add F.mul self.now.cols self.now.rows) below u.items)) }
    {
        let used = self.used.as_slice();
        let end = below.min(used.len());
        match last_off(used, end) {
            None => Ok(None),
            Some(col) => {
                let vector = leading_vector(alloc, used, self.rows.as_slice(), col)?;
                Ok(Some(vector))
            }
        }
    }
}

// How many flags are on.
fn count_on(flags: &[bool]) -> usize
    ensures { result ≡ on_below flags.now (length flags.now) }
{
    let mut count = 0;
    for k in 0..flags.len() {
        if flags[k] {
            count += 1;
        }
    }
    count
}

// The last of the first `end` flags that is off.
fn last_off(flags: &[bool], end: usize) -> Option<usize>
    requires { end ≤ length flags.now }
    ensures { MatchOption result ((i : ℕ) → i < end → slice_index_or flags.now i false ≡ true) (IsLastOff flags.now end) }
{
    let mut last = None;
    for i in 0..end {
        if !flags[i] {
            last = Some(i);
        }
    }
    last
}

// The kernel vector with a one at the free column `col` and zeros at the other free columns.
fn leading_vector<F: Field>(
    alloc: Global,
    used: &[bool],
    rows: &[Equation<F>],
    col: usize,
) -> Result<Vec<F>, NoMemory>
    requires count { length rows.now ≡ length used.now }
    requires col_in { col < length used.now }
    requires widths { All (λ r. length r.coeffs ≡ length used.now) rows.now }
    ensures count { IfOk result (λ u. length u.items ≡ length used.now) }
    ensures entries { IfOk result (λ u. (i : ℕ) → i < length used.now
        → IsLeadingEntry F.zero F.one F.sub used.now rows.now col i (slice_index_or u.items i F.zero)) }
{
    let mut vector = Vec::with_capacity(alloc, used.len())?;
    for i in 0..used.len() {
        let entry = leading_entry(used, rows, col, i);
        vector.push(entry)?;
    }
    Ok(vector)
}

// Its entry at column `i`.
fn leading_entry<F: Field>(used: &[bool], rows: &[Equation<F>], col: usize, i: usize) -> F
    requires count { length rows.now ≡ length used.now }
    requires i_in { i < length used.now }
    requires col_in { col < length used.now }
    requires widths { All (λ r. length r.coeffs ≡ length used.now) rows.now }
    ensures { IsLeadingEntry F.zero F.one F.sub used.now rows.now col i result }
{
    if used[i] {
        F::zero().sub(rows[i].coeff(col))
    } else if i == col {
        F::one()
    } else {
        F::zero()
    }
}

// Takes the rows of the matrix in, one after another.
fn reduce_rows<F: Field>(
    rows: &mut [Equation<F>],
    used: &mut [bool],
    work: &mut Equation<F>,
    m: &Matrix<F>,
    tables: &mut Tables<F>,
)
    requires stored { IsEchelonStored F.IsElement F.zero F.one used.old rows.old }
    requires start { HasKernelOf F.IsElement F.zero F.add F.mul (length used.old) (coeffs_of (table_of used.old rows.old)) [] }
    requires cols { m.now.cols ≡ length used.old }
    requires width { length work.old.coeffs ≡ length used.old }
    requires right { length work.old.right ≡ 0 }
    ensures stored { IsEchelonStored F.IsElement F.zero F.one used.new rows.new }
    ensures flags { length used.new ≡ length used.old }
    ensures kernel { HasKernelOf F.IsElement F.zero F.add F.mul (length used.new) (coeffs_of (table_of used.new rows.new)) m.now.rows }
{
    for i in 0..m.rows() {
        work.load_numbers(m.row(i));
        take_in(rows, used, work, tables);
    }
}

// Takes in the row of coefficients in the work row.
fn take_in<F: Field>(
    rows: &mut [Equation<F>],
    used: &mut [bool],
    work: &mut Equation<F>,
    tables: &mut Tables<F>,
)
    requires stored { IsEchelonStored F.IsElement F.zero F.one used.old rows.old }
    requires width { length work.old.coeffs ≡ length used.old }
    requires right { length work.old.right ≡ 0 }
    requires elements { All F.IsElement work.old.coeffs }
    ensures stored { IsEchelonStored F.IsElement F.zero F.one used.new rows.new }
    ensures flags { length used.new ≡ length used.old }
    ensures width { length work.new.coeffs ≡ length used.old }
    ensures right { length work.new.right ≡ 0 }
    ensures kernel { (rs : List (List F)) → HasKernelOf F.IsElement F.zero F.add F.mul (length used.old) (coeffs_of (table_of used.old rows.old)) rs
        → HasKernelOf F.IsElement F.zero F.add F.mul (length used.new) (coeffs_of (table_of used.new rows.new)) (rs ++ work.old.coeffs ∷ []) }
{
    clear_at_pivots(work, used, rows, tables);
    match work.last_nonzero() {
        Some(p) => insert_row(rows, used, work, p, p + 1, used.len(), tables),
        None => {}
    }
}
