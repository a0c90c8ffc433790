//! The ranges of a code file: whether its numbers are those of a channel and a code, and which.

ghost use Rattle.std.specs.Prelude.{◌≡◌, ◌⊎◌, ◌*◌, ◌<◌, ◌≤◌, true, false, Some, IfOk, IfErr, MatchOption, map, nat_le};
ghost use Rattle.std.specs.List.{list_all};
ghost use Rattle.sc_channel.specs.Channel.{IsChannel, is_channel};
ghost use Rattle.sc_code.specs.Code.{IsCode};
ghost use Rattle.sc_codefile.specs.Fault.{first_of};
ghost use Rattle.sc_codefile.specs.CodeFile.{is_k, is_row, is_matrix, are_lags, is_r};
ghost use Rattle.sc_codefile.specs.Numbers.{range_faults, with_cols, HasFile};

use crate::fault::{FileFault, Key};
use crate::lists::ListOf;
use crate::numbers::{CodeNumbers, FourNumbers};
use sc_channel::Channel;
use sc_code::{ByteCode, Code, CodeFile};
use sc_field::Gf256;
use sc_matrix::Matrix;
use sc_outside::NoMemory;
use std::alloc::Global;

/// The greatest number of symbols in a block and its parity together.
const MAX_SYMBOLS: u64 = 64;

/// The greatest number of matrices.
const MAX_LAGS: usize = 65;

/// The code file of these numbers, or the first fault of a range.
pub(crate) fn code_file(alloc: Global, numbers: &CodeNumbers) -> Result<CodeFile, FileFault>
    ensures file { IfOk result (HasFile numbers.now) }
    ensures fault { IfErr result (λ fault. (fault ≡ FileFault.Memory) ⊎ (first_of (range_faults numbers.now) ≡ Some fault)) }
{
    let Some(channel) = channel_of(&numbers.channel) else {
        return Err(FileFault::Range(Key::Channel));
    };
    if !is_k(numbers.k) {
        return Err(FileFault::Range(Key::K));
    }
    if !are_lags(numbers.lags.as_slice(), numbers.k, numbers.r) {
        return Err(FileFault::Range(Key::Lags));
    }
    if !is_r(numbers.k, numbers.r) {
        return Err(FileFault::Range(Key::R));
    }
    let code = code_of(alloc, numbers)?;
    Ok(CodeFile { channel, code })
}

/// The channel of four numbers, where they are one.
#[tactic(auto, unfolding(sc_channel::specs::Channel::is_channel))]
fn channel_of(numbers: &FourNumbers) -> Option<Channel>
    ensures { MatchOption result (is_channel numbers.now ≡ false) (λ channel. (channel ≡ numbers.now) × (is_channel numbers.now ≡ true)) }
{
    let most = u64::from(u32::MAX);
    if numbers.w > most || numbers.b > most || numbers.n > most || numbers.t > most {
        return None;
    }
    let (w, b) = (numbers.w as u32, numbers.b as u32);
    let (n, t) = (numbers.n as u32, numbers.t as u32);
    Channel::new(w, b, n, t).ok()
}

/// Whether this may be the number of symbols in a block.
fn is_k(k: u64) -> bool
    ensures { result ≡ is_k k }
{
    1 <= k && k < MAX_SYMBOLS
}

/// Whether this may be the number of symbols in a parity, beside `k` in a block.
fn is_r(k: u64, r: u64) -> bool
    requires { k ≤ 63 }
    ensures { result ≡ is_r k r }
{
    1 <= r && r <= MAX_SYMBOLS - k
}

/// Whether there are 1 to 65 matrices of `k` rows of `r` numbers below 256.
#[tactic(auto, unfolding(crate::specs::CodeFile::are_lags))]
fn are_lags(lags: &[ListOf<ListOf<u64>>], k: u64, r: u64) -> bool
    ensures { result ≡ are_lags k r lags.now }
{
    if lags.is_empty() || lags.len() > MAX_LAGS {
        return false;
    }
    for rows in lags {
        if !is_matrix(rows.as_slice(), k, r) {
            return false;
        }
    }
    true
}

/// Whether there are `k` rows of `r` numbers below 256.
fn is_matrix(rows: &[ListOf<u64>], k: u64, r: u64) -> bool
    ensures { result ≡ is_matrix k r rows.now }
{
    if rows.len() as u64 != k {
        return false;
    }
    for row in rows {
        if !is_row(row.as_slice(), r) {
            return false;
        }
    }
    true
}

/// Whether there are `r` numbers below 256.
fn is_row(row: &[u64], r: u64) -> bool
    ensures { result ≡ is_row r row.now }
{
    if row.len() as u64 != r {
        return false;
    }
    for number in row {
        if *number > 255 {
            return false;
        }
    }
    true
}

/// The code of numbers in range.
fn code_of(alloc: Global, numbers: &CodeNumbers) -> Result<ByteCode, NoMemory>
    requires k { is_k numbers.now.k ≡ true }
    requires lags { are_lags numbers.now.k numbers.now.r numbers.now.lags ≡ true }
    requires r { is_r numbers.now.k numbers.now.r ≡ true }
    ensures numbers { IfOk result (λ code. code ≡ record {
      k = numbers.now.k;
      r = numbers.now.r;
      lags = map (with_cols numbers.now.r) numbers.now.lags;
    }) }
    ensures limits { IfOk result (IsCode (λ x. x < 256)) }
{
    let (k, r) = (numbers.k as usize, numbers.r as usize);
    let lags = matrices_of(alloc, numbers.lags.as_slice(), k, r)?;
    Ok(Code::new(k, r, lags).unwrap())
}

/// The matrices of these rows.
fn matrices_of(
    alloc: Global,
    lags: &[ListOf<ListOf<u64>>],
    k: usize,
    r: usize,
) -> Result<Vec<Matrix<Gf256>>, NoMemory>
    requires small { k * r ≤ 67108864 }
    requires rows { list_all (is_matrix k r) lags.now ≡ true }
    ensures { IfOk result (λ matrices. matrices.items ≡ map (with_cols r) lags.now) }
{
    let mut matrices = Vec::with_capacity(alloc, lags.len())?;
    for rows in lags {
        matrices.push(matrix_of(alloc, rows.as_slice(), k, r)?)?;
    }
    Ok(matrices)
}

/// The matrix of these rows.
fn matrix_of(
    alloc: Global,
    rows: &[ListOf<u64>],
    k: usize,
    r: usize,
) -> Result<Matrix<Gf256>, NoMemory>
    requires small { k * r ≤ 67108864 }
    requires rows { is_matrix k r rows.now ≡ true }
    ensures { IfOk result (λ matrix. matrix ≡ with_cols r rows.now) }
{
    let mut matrix = Matrix::with_capacity(alloc, k, r)?;
    for row in rows {
        let bytes = bytes_of(alloc, row.as_slice())?;
        matrix.push_row(bytes.as_slice())?;
    }
    Ok(matrix)
}

/// The numbers as bytes.
fn bytes_of(alloc: Global, numbers: &[u64]) -> Result<Vec<u8>, NoMemory>
    requires { list_all (λ x. nat_le x 255) numbers.now ≡ true }
    ensures { IfOk result (λ bytes. bytes.items ≡ numbers.now) }
{
    let mut bytes = Vec::with_capacity(alloc, numbers.len())?;
    for number in numbers {
        bytes.push(*number as u8)?;
    }
    Ok(bytes)
}
