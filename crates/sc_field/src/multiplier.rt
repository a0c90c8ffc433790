//! A coefficient with the products by which those with all bytes are looked up.
//!
//! A byte is the xor of its low half and its high half, so its product is the xor of two entries of tables with 16 entries
//! each, as in the vector kernels of Reed-Solomon libraries.
ghost use Rattle.std.specs.Prelude.{◌≡◌, ⊤, ◌≤◌, map, bit_xor};
ghost use Rattle.std.specs.Simd.Lanes.{zip2};
ghost use Rattle.sc_field.specs.Scale.{IsTableOf, IsByHalves, IsRepeated};

use crate::field::Field;
use std::alloc::AllocError;
use std::simd::prelude::*;

/// A coefficient with the products that [`Multiplier::scale_add`] looks up, which are worked out once.
#[derive(Copy)]
pub struct Multiplier<F: Field> {
    low: [u8; 16],
    high: [u8; 16],
    /// The coefficient that it multiplies by.
    pub coefficient: F,
    ghost products: { IsByHalves (F.act coefficient) low high },
}

impl<F: Field> Clone for Multiplier<F> {
    ghost is_clone = { λ x y. y ≡ x };

    ghost is_infallible = { λ _. ⊤ };

    fn clone(&self) -> Result<Multiplier<F>, AllocError> {
        Ok(*self)
    }
}

impl<F: Field> Multiplier<F> {
    /// The multiplier of this coefficient. It takes no memory.
    pub fn new(coefficient: F) -> Self
        ensures { result.coefficient ≡ coefficient }
    {
        coefficient.known();
        let low = products(coefficient, 1);
        let high = products(coefficient, 16);
        Multiplier {
            low,
            high,
            coefficient,
        }
    }

    // The products of a vector's bytes.
    #[inline(always)]
    pub(crate) fn times(&self, src: u8x32) -> u8x32
        ensures { result ≡ map (F.act self.now.coefficient) src }
    {
        let lows = twice(&self.low);
        let highs = twice(&self.high);
        let low = lows.swizzle_dyn_within::<16>(src & u8x32::splat(15));
        let high = highs.swizzle_dyn_within::<16>(src >> u8x32::splat(4));
        low ^ high
    }

    #[inline(always)]
    pub(crate) fn times_short(&self, src: u8x16) -> u8x16
        ensures { result ≡ map (F.act self.now.coefficient) src }
    {
        let low = u8x16::from_array(self.low).swizzle_dyn(src & u8x16::splat(15));
        let high = u8x16::from_array(self.high).swizzle_dyn(src >> u8x16::splat(4));
        low ^ high
    }

    // One vector of `sum` with the products of `src` added.
    #[inline(always)]
    pub(crate) fn add(&self, sum: u8x32, src: u8x32) -> u8x32
        ensures { result ≡ zip2 bit_xor sum (map (F.act self.now.coefficient) src) }
    {
        sum ^ self.times(src)
    }

    #[inline(always)]
    pub(crate) fn add_short(&self, sum: u8x16, src: u8x16) -> u8x16
        ensures { result ≡ zip2 bit_xor sum (map (F.act self.now.coefficient) src) }
    {
        sum ^ self.times_short(src)
    }
}

// The products of `c` with 0, `step`, 2 * `step` and so on.
fn products<F: Field>(c: F, step: u8) -> [u8; 16]
    requires { step ≤ 16 }
    ensures { IsTableOf (F.act c) step result }
{
    let mut table = [0; 16];
    for k in 0..16 {
        table[k as usize] = c.act(step * k);
    }
    table
}

// The table twice, one after the other.
#[inline(always)]
fn twice(table: &[u8; 16]) -> u8x32
    ensures { IsRepeated 32 table.now result }
{
    u8x16::from_slice(table).swizzle([
        0, 1, 2, 3, 4, 5, 6, 7, 8, 9, 10, 11, 12, 13, 14, 15, 0, 1, 2, 3, 4, 5, 6, 7, 8, 9, 10, 11,
        12, 13, 14, 15,
    ])
}
