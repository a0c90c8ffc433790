//! The rate-optimal candidates of a channel.

ghost use Rattle.std.specs.Prelude.{◌≡◌, ℕ, ◌<◌, ◌≤◌, ◌↔◌, Err, IfOk};
ghost use Rattle.sc_channel.specs.Channel.{IsChannel};
ghost use Rattle.sc_optimal.specs.Optimal.{optimal_width, optimal_matrix, optimal_code};

use crate::parity::Parity;
use crate::sizes::Sizes;
use sc_channel::Channel;
use sc_code::ByteCode;
use sc_diag::{interleave, matrix_of};
use sc_field::Gf256;
use sc_layered::WideFault;
use sc_matrix::Matrix;
use sc_outside::NoMemory;
use std::alloc::Global;

/// The greatest number of symbols in a block and its parity together.
const MAX_SYMBOLS: u32 = 64;

/// Rate-optimal candidate `c` of a channel, after Domanovitz, Fong and Khisti: `k = t - n + 1` symbols in a block and `b` in a
/// parity, interleaved diagonally.
///
/// The first `g = max(0, b - k)` columns of the parity matrix are drawn. In the other columns the first `min(k, b)` rows are a
/// product of two drawn matrices over `h = n - 1 - g` columns and rows, to which a draw is added on the diagonal that begins at
/// column `n - 1`; the rows behind are drawn. All draws are nonzero, of the generator of `c`: first the `g` columns, one after
/// the other, then the left factor, the right factor, the diagonal and the last rows, each matrix row by row.
///
/// `TooWide` where `k + b` is above 64, with that number.
pub fn optimal_candidate(alloc: Global, channel: &Channel, c: u32) -> Result<ByteCode, WideFault>
    ensures code { IfOk result (λ code. code ≡ optimal_code channel.now c) }
    ensures too_wide { (symbols : ℕ) → (result ≡ Err (WideFault.TooWide symbols)) ↔ ((64 < symbols) × (symbols ≡ optimal_width channel.now)) }
{
    let symbols = channel.t() + 1 - channel.n() + channel.b();
    if symbols > MAX_SYMBOLS {
        return Err(WideFault::TooWide(symbols));
    }
    Ok(optimal_code(alloc, channel, c)?)
}

/// The candidate of a channel that has one.
fn optimal_code(alloc: Global, channel: &Channel, c: u32) -> Result<ByteCode, NoMemory>
    requires { optimal_width channel.now ≤ 64 }
    ensures { IfOk result (λ code. code ≡ optimal_code channel.now c) }
{
    let p = optimal_matrix(alloc, channel, c)?;
    interleave(alloc, &p)
}

/// Its parity matrix.
fn optimal_matrix(alloc: Global, channel: &Channel, c: u32) -> Result<Matrix<Gf256>, NoMemory>
    requires { optimal_width channel.now ≤ 64 }
    ensures matrix { IfOk result (λ p. p ≡ optimal_matrix channel.now c) }
    ensures limits { IsChannel channel.now }
{
    let sizes = Sizes::of(channel);
    let parity = Parity::new(alloc, sizes, channel.n() as usize, c)?;
    matrix_of(alloc, &parity, 0)
}
