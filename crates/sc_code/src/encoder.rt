//! The encoder: the parity of each next slot, from the last blocks.

ghost use Rattle.std.specs.Prelude.{◌≡◌, ℕ, ◌+◌, ◌*◌, ◌≤◌, ◌<◌, List, [], ◌∷◌, ◌++◌, IfOk, All, length, slice_index, slice_index_or};
ghost use Rattle.sc_matrix.specs.Layout.{cut};
ghost use Rattle.sc_code.specs.Stream.{byte_at};
ghost use Rattle.sc_code.specs.Parity.{parity as parity_at};
ghost use Rattle.sc_code.specs.Ring.{place_of};
ghost use Rattle.sc_code.specs.Sum.{Sum as SumOf, sum_of, AreSums};
ghost use Rattle.sc_code.specs.Encoder.{StandsFor};

use crate::code::Code;
use crate::ring::Ring;
use crate::sum::Sum;
use sc_field::Field;
use sc_outside::NoMemory;
use std::alloc::Global;
use std::marker::Model;

/// Gives the parity of each slot of a stream from its block and the last blocks before it.
///
/// It keeps the code, and works out what its coefficients need once. Coefficients that are zero cost nothing.
#[derive(Drop)]
pub struct Encoder<F: Field> {
    code: Code<F>,
    width: usize,
    ring: Ring,
    // One for each parity symbol.
    sums: Vec<Sum<F>>,
}

impl<F: Field> Model for Encoder<F> {
    ghost use Rattle.sc_code.specs.Encoder.{Encoder as EncoderOf, encoder_code, kept_in, IsPrepared};

    ghost Value = { EncoderOf F };

    ghost coded = { encoder_code F.code };

    ghost view = { λ e. record { code = e.code; width = e.width; kept = kept_in e.code.k e.width e.ring } };

    ghost invariant = { λ e. IsPrepared F.IsElement F.zero F.act e.code e.width e.ring e.sums.items };
}

impl<F: Field> Encoder<F> {
    /// An encoder for this code, whose symbols have `m` bytes each. No block is given yet. It takes memory for a copy of the
    /// code, for one block more than the greatest lag, and for the products of each coefficient.
    pub fn start(alloc: Global, code: &Code<F>, m: usize) -> Result<Encoder<F>, NoMemory>
        requires some { 1 ≤ m }
        requires width { m ≤ 65503 }
        requires block { code.now.k * m ≤ 65503 }
        ensures code { IfOk result (λ e. e.code ≡ code.now) }
        ensures width { IfOk result (λ e. e.width ≡ m) }
        ensures stands { IfOk result (λ e. StandsFor e []) }
    {
        let kept_code = code.copy(alloc)?;
        let size = code.k() * m;
        let ring = Ring::zeros(alloc, code.memory() + 1, size)?;
        let sums = sums_of(alloc, code, m)?;
        Ok(Encoder {
            code: kept_code,
            width: m,
            ring,
            sums,
        })
    }

    /// Takes the next block and writes its parity, by the code that the encoder was started with. Symbol `i` of the block is
    /// the bytes from `i * m` on, and parity symbol `j` those from `j * m` on. It takes no memory.
    pub fn next(&mut self, code: &Code<F>, block: &[u8], parity: &mut [u8])
        requires symbols { code.now.k ≡ self.old.code.k }
        requires parities { code.now.r ≡ self.old.code.r }
        requires memory { length code.now.lags ≡ length self.old.code.lags }
        requires block { length block.now ≡ self.old.code.k * self.old.width }
        requires parity { length parity.old ≡ self.old.code.r * self.old.width }
        ensures parity { (stream : List (List (List ℕ))) → StandsFor self.old stream
            → cut self.old.code.r self.old.width parity.new
            ≡ parity_at F.zero F.act self.old.code self.old.width (stream ++ cut self.old.code.k self.old.width block.now ∷ []) (length stream) }
        ensures stands { (stream : List (List (List ℕ))) → StandsFor self.old stream
            → StandsFor self.new (stream ++ cut self.old.code.k self.old.width block.now ∷ []) }
        ensures code { self.new.code ≡ self.old.code }
        ensures width { self.new.width ≡ self.old.width }
    {
        let _symbols = code.k();
        self.ring.push(block);
        write_parity(self.sums.as_mut_slice(), &self.ring, self.width, parity);
    }
}

// The terms of each parity symbol of a code.
fn sums_of<F: Field>(alloc: Global, code: &Code<F>, width: usize) -> Result<Vec<Sum<F>>, NoMemory>
    requires { code.now.k * width ≤ 65503 }
    ensures { IfOk result (λ sums. AreSums F.zero F.act code.now width sums.items) }
{
    let mut sums = Vec::with_capacity(alloc, code.r())?;
    for j in 0..code.r() {
        let sum = Sum::of(alloc, code, width, j)?;
        sums.push(sum)?;
    }
    Ok(sums)
}

// Writes each sum over the blocks in the ring to its own bytes of `parity`.
fn write_parity<F: Field>(sums: &mut [Sum<F>], ring: &Ring, width: usize, parity: &mut [u8])
    requires paired { All (λ s. length s.coefficients ≡ length s.spots) sums.old }
    requires within { All (λ s. All (λ spot. (spot.0 < length ring.now.places) × (spot.1 + width ≤ ring.now.size)) s.spots) sums.old }
    requires room { length parity.old ≡ length sums.old * width }
    ensures sums { (j c : ℕ) (d : SumOf F) → j < length sums.old → c < width
        → byte_at (cut (length sums.old) width parity.new) j c ≡ sum_of F.act (slice_index_or sums.old j d) (λ lag at. slice_index ring.now.bytes (place_of ring.now lag + at + c)) }
    ensures same { sums.new ≡ sums.old }
{
    for j in 0..sums.len() {
        let start = j * width;
        sums[j].write(ring, &mut parity[start..start + width]);
    }
}
