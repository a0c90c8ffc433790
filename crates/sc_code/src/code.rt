//! A code: its numbers and its matrices, within this project's limits.

ghost use Rattle.std.specs.Prelude.{◌≡◌, ◌<◌, ◌+◌, ◌-◌, ◌↔◌, IsTrue, IsOk, IfOk, Err, All, length};
ghost use Rattle.sc_matrix.specs.Matrix.{IsMatrix};
ghost use Rattle.sc_code.specs.Code.{IsInRange, HasShape, IsCode, coefficient};

use sc_channel::Channel;
use sc_field::{Field, Gf256};
use sc_matrix::Matrix;
use sc_outside::NoMemory;
use std::alloc::Global;
use std::error::Error;
use std::fmt;
use std::marker::Model;

/// A systematic convolutional code, after Lin and Costello: blocks of `k` symbols, parities of `r` symbols, and a matrix of
/// `k` rows and `r` columns for each lag from 0 on, by which a block counts in the parity of the slot that many slots later.
///
/// Always `k >= 1`, `r >= 1`, `k + r <= 64`, and there are 1 to 65 matrices; these limits are this project's own. The last
/// matrix may be zero.
#[derive(Drop)]
pub struct Code<F: Field> {
    k: usize,
    r: usize,
    lags: Vec<Matrix<F>>,
}

/// A code over GF(256).
pub type ByteCode = Code<Gf256>;

/// What a code file has: a code, and the channel that it is for.
#[derive(Drop)]
pub struct CodeFile {
    /// The channel.
    pub channel: Channel,
    /// The code. Nothing says that it meets the channel.
    pub code: ByteCode,
}

impl<F: Field> Model for Code<F> {
    ghost use Rattle.sc_code.specs.Code.{Code as Numbers, code_code, IsCode};

    ghost Value = { Numbers F };

    ghost coded = { code_code F.code };

    ghost view = { λ c. record { k = c.k; r = c.r; lags = c.lags.items } };

    ghost invariant = { λ c. IsCode F.IsElement (record { k = c.k; r = c.r; lags = c.lags.items }) };
}

/// The greatest number of symbols in a block and its parity together.
const MAX_SYMBOLS: usize = 64;

/// The greatest number of matrices.
const MAX_LAGS: usize = 65;

/// Why numbers and matrices are no code.
#[derive(Copy, Clone, Debug, PartialEq, Eq)]
pub enum CodeFault {
    /// `k` or `r` is 0, `k + r` is above 64, or there is no matrix or more than 65 of them.
    Range,
    /// In range, but a matrix doesn't have `k` rows and `r` columns.
    Shape,
}

impl fmt::Display for CodeFault {
    fn fmt<W: fmt::Write>(&self, f: &mut fmt::Formatter<W>) -> fmt::Result {
        match self {
            CodeFault::Range => write!(f, "not 1 <= k, 1 <= r, k + r <= 64 and 1 to 65 matrices"),
            CodeFault::Shape => write!(f, "a matrix without k rows and r columns"),
        }
    }
}

impl Error for CodeFault {}

impl<F: Field> Code<F> {
    /// The code of these numbers and matrices, which it takes over. It takes no memory.
    pub fn new(k: usize, r: usize, lags: Vec<Matrix<F>>) -> Result<Code<F>, CodeFault>
        ensures accepted { IfOk result (λ code. code ≡ record { k = k; r = r; lags = lags.items }) }
        ensures range { (result ≡ Err CodeFault.Range) ↔ ¬ IsInRange k r (length lags.items) }
        ensures shape { (result ≡ Err CodeFault.Shape) ↔ (IsInRange k r (length lags.items) × ¬ All (HasShape k r) lags.items) }
    {
        if !is_in_range(k, r, lags.len()) {
            return Err(CodeFault::Range);
        }
        if !have_shape(lags.as_slice(), k, r) {
            return Err(CodeFault::Shape);
        }
        Ok(Code { k, r, lags })
    }

    /// An equal code.
    pub fn copy(&self, alloc: Global) -> Result<Code<F>, NoMemory>
        ensures { IfOk result (λ code. code ≡ self.now) }
    {
        let mut lags = Vec::with_capacity(alloc, self.lags.len())?;
        for m in &self.lags {
            lags.push(m.copy(alloc)?)?;
        }
        Ok(Code {
            k: self.k,
            r: self.r,
            lags,
        })
    }

    /// The number of symbols in a block.
    pub fn k(&self) -> usize
        ensures number { result ≡ self.now.k }
        ensures limits { IsCode F.IsElement self.now }
    {
        self.k
    }

    /// The number of symbols in a parity.
    pub fn r(&self) -> usize
        ensures number { result ≡ self.now.r }
        ensures limits { IsCode F.IsElement self.now }
    {
        self.r
    }

    /// The greatest lag: how many slots back a block still counts.
    pub fn memory(&self) -> usize
        ensures number { result + 1 ≡ length self.now.lags }
        ensures limits { IsCode F.IsElement self.now }
    {
        self.lags.len() - 1
    }

    /// What symbol `i` gives to parity symbol `j` of the slot `lag` slots later.
    pub fn coefficient(&self, lag: usize, i: usize, j: usize) -> F
        requires lag { lag < length self.now.lags }
        requires symbol { i < self.now.k }
        requires parity { j < self.now.r }
        ensures value { result ≡ coefficient F.zero self.now lag i j }
        ensures element { F.IsElement result }
    {
        self.lags[lag].get(i, j)
    }
}

/// Whether the numbers are those of a code with `count` matrices.
fn is_in_range(k: usize, r: usize, count: usize) -> bool
    ensures { IsTrue result ↔ IsInRange k r count }
{
    1 <= k && 1 <= r && k <= MAX_SYMBOLS && r <= MAX_SYMBOLS - k && 1 <= count && count <= MAX_LAGS
}

/// Whether each matrix has `k` rows and `r` columns.
fn have_shape<F: Field>(lags: &[Matrix<F>], k: usize, r: usize) -> bool
    ensures shapes { IsTrue result ↔ All (HasShape k r) lags.now }
    ensures matrices { IsTrue result → All (IsMatrix F.IsElement) lags.now }
{
    for m in lags {
        if m.rows() != k || m.cols() != r {
            return false;
        }
    }
    true
}
