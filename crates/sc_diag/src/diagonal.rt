//! Diagonal interleaving.

ghost use Rattle.std.specs.Prelude.{◌≡◌, ℕ, ◌+◌, ◌≤◌, IfOk};
ghost use Rattle.sc_matrix.specs.Matrix.{row_count};
ghost use Rattle.sc_diag.specs.Diagonal.{interleaved};

use crate::made::{Entries, code_of};
use sc_code::ByteCode;
use sc_field::{Field, Gf256};
use sc_matrix::Matrix;
use sc_outside::NoMemory;
use std::alloc::Global;

/// The code whose diagonals are words of a block code, after Martinian and Sundberg.
///
/// `p` is the block code's parity matrix, of `k` rows and `r` columns. Symbol `i` of a block gives `p[i][j]` to parity symbol
/// `j` of the slot `k + j - i` slots later, and nothing to others. So there are `k + r` lags.
pub fn interleave(alloc: Global, p: &Matrix<Gf256>) -> Result<ByteCode, NoMemory>
    requires row { 1 ≤ row_count p.now }
    requires column { 1 ≤ p.now.cols }
    requires limit { row_count p.now + p.now.cols ≤ 64 }
    ensures { IfOk result (λ code. code ≡ interleaved 0 p.now) }
{
    code_of(alloc, &Diagonals { p }, p.rows() + p.cols())
}

/// The matrices of the lags of an interleaved code.
#[derive(Drop)]
struct Diagonals<'a> {
    p: &'a Matrix<Gf256>,
}

impl<'a> Entries for Diagonals<'a> {
    ghost use Rattle.sc_matrix.specs.Matrix.{row_count};
    ghost use Rattle.sc_diag.specs.Diagonal.{diagonal_coefficient};

    ghost rows = { λ d. row_count d.p.now };

    ghost cols = { λ d. d.p.now.cols };

    ghost entry = { λ d. diagonal_coefficient 0 d.p.now };

    fn rows(&self) -> usize {
        self.p.rows()
    }

    fn cols(&self) -> usize {
        self.p.cols()
    }

    fn at(&self, lag: usize, i: usize, j: usize) -> Gf256 {
        if lag + i == self.p.rows() + j {
            self.p.get(i, j)
        } else {
            Gf256::zero()
        }
    }
}
