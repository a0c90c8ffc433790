//! A parity symbol as a sum of terms, prepared once and worked out slot after slot.

ghost use Rattle.std.specs.Prelude.{◌≡◌, ℕ, ◌+◌, ◌*◌, ◌<◌, ◌≤◌, IfOk, OnOk, All, length, map, slice_index};
ghost use Rattle.sc_code.specs.Ring.{place_of};
ghost use Rattle.sc_code.specs.Sum.{with_term, sum_of, HasTerms};

use crate::code::Code;
use crate::ring::Ring;
use sc_field::{Field, Multiplier, Term, combine};
use sc_outside::NoMemory;
use std::alloc::Global;
use std::marker::Model;

// The symbol of a term: the lag of its block, and where it begins in the block.
#[derive(Drop)]
pub(crate) struct Spot {
    lag: usize,
    at: usize,
}

// The terms of a parity symbol, with the symbol of each. Coefficients that are zero have none.
#[derive(Drop)]
pub(crate) struct Sum<F: Field> {
    terms: Vec<Term<F>>,
    spots: Vec<Spot>,
}

impl<F: Field> Model for Sum<F> {
    ghost use Rattle.std.specs.Prelude.{map};
    ghost use Rattle.sc_code.specs.Sum.{Sum as SumOf, sum_code};

    ghost Value = { SumOf F };

    ghost coded = { sum_code F.code };

    ghost view = { λ s. record { coefficients = map (λ t. t.multiplier.coefficient) s.terms.items; spots = map (λ p. (p.lag, p.at)) s.spots.items } };
}

impl<F: Field> Sum<F> {
    // The terms of parity symbol `j` of a code, for symbols of `width` bytes.
    pub(crate) fn of(
        alloc: Global,
        code: &Code<F>,
        width: usize,
        j: usize,
    ) -> Result<Sum<F>, NoMemory>
        requires parity { j < code.now.r }
        requires small { code.now.k * width ≤ 65503 }
        ensures { IfOk result (HasTerms F.zero F.act code.now width j (length code.now.lags) 0) }
    {
        let mut sum = Sum {
            terms: Vec::new(alloc),
            spots: Vec::new(alloc),
        };
        for lag in 0..code.memory() + 1 {
            sum.add_lag(code, width, j, lag)?;
        }
        Ok(sum)
    }

    // Adds the terms of a lag.
    fn add_lag(
        &mut self,
        code: &Code<F>,
        width: usize,
        j: usize,
        lag: usize,
    ) -> Result<(), NoMemory>
        requires parity { j < code.now.r }
        requires lag { lag < length code.now.lags }
        requires small { code.now.k * width ≤ 65503 }
        requires terms { HasTerms F.zero F.act code.now width j lag 0 self.old }
        ensures { OnOk result (HasTerms F.zero F.act code.now width j (lag + 1) 0 self.new) }
    {
        for i in 0..code.k() {
            self.add_symbol(code, width, j, lag, i)?;
        }
        Ok(())
    }

    // Adds the term of a symbol, unless its coefficient is zero.
    fn add_symbol(
        &mut self,
        code: &Code<F>,
        width: usize,
        j: usize,
        lag: usize,
        i: usize,
    ) -> Result<(), NoMemory>
        requires parity { j < code.now.r }
        requires lag { lag < length code.now.lags }
        requires symbol { i < code.now.k }
        requires small { code.now.k * width ≤ 65503 }
        requires terms { HasTerms F.zero F.act code.now width j lag i self.old }
        ensures { OnOk result (HasTerms F.zero F.act code.now width j lag (i + 1) self.new) }
    {
        let c = code.coefficient(lag, i, j);
        if c == F::zero() {
            Ok(())
        } else {
            self.push(c, lag, i * width)?;
            Ok(())
        }
    }

    // Adds a term.
    fn push(&mut self, coefficient: F, lag: usize, at: usize) -> Result<(), NoMemory>
        ensures { OnOk result (self.new ≡ with_term self.old coefficient lag at) }
    {
        let multiplier = Multiplier::new(coefficient);
        self.terms.push(Term { multiplier, at: 0 })?;
        self.spots.push(Spot { lag, at })?;
        Ok(())
    }

    // Writes the sum over the blocks in the ring to `dst`.
    pub(crate) fn write(&mut self, ring: &Ring, dst: &mut [u8])
        requires paired { length self.old.coefficients ≡ length self.old.spots }
        requires within { All (λ spot. (spot.0 < length ring.now.places) × (spot.1 + length dst.old ≤ ring.now.size)) self.old.spots }
        ensures sum { (c : ℕ) → c < length dst.old → slice_index dst.new c ≡ sum_of F.act self.old (λ lag at. slice_index ring.now.bytes (place_of ring.now lag + at + c)) }
        ensures same { self.new ≡ self.old }
    {
        place_terms(self.terms.as_mut_slice(), self.spots.as_slice(), ring);
        combine(dst, self.terms.as_slice(), ring.bytes());
    }
}

// Tells each term where its symbol lies in the ring.
fn place_terms<F: Field>(terms: &mut [Term<F>], spots: &[Spot], ring: &Ring)
    requires paired { length terms.old ≡ length spots.now }
    requires lags { All (λ spot. spot.lag < length ring.now.places) spots.now }
    requires within { All (λ spot. spot.at ≤ ring.now.size) spots.now }
    ensures coefficients { map (λ t. t.multiplier.coefficient) terms.new ≡ map (λ t. t.multiplier.coefficient) terms.old }
    ensures places { map (λ t. t.at) terms.new ≡ map (λ spot. place_of ring.now spot.lag + spot.at) spots.now }
{
    let _bytes = ring.bytes().len();
    for x in 0..spots.len() {
        let spot = &spots[x];
        terms[x].at = ring.place(spot.lag) + spot.at;
    }
}
