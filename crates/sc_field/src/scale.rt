//! Products of a field's element with many bytes at once.
ghost use Rattle.std.specs.Prelude.{◌≡◌, ℕ, ◌+◌, ◌<◌, ◌≤◌, map, length, replicate, slice_index, if◌then◌else◌};
ghost use Rattle.sc_field.specs.Scale.{scaled_sum};

use crate::field::Field;
use crate::lanes::{load, load_halves, load_short, piece_of, store, store_halves, store_short};
use crate::multiplier::Multiplier;
use crate::terms::{Term, write_sum};

/// Adds `src` to `dst`: each `dst[x]` becomes `dst[x]` xor `src[x]`.
pub fn add_bytes(dst: &mut [u8], src: &[u8])
    requires { length src.now ≡ length dst.old }
    ensures { dst.new ≡ scaled_sum (λ b. b) dst.old src.now }
{
    for i in 0..dst.len() {
        dst[i] ^= src[i];
    }
}

/// Adds `c` times `src` to `dst`: each `dst[x]` becomes `dst[x]` xor `act(c, src[x])`.
///
/// For many slices with one coefficient, make a [`Multiplier`] once. For the coefficient 0 nothing is read, and for 1 nothing is
/// looked up.
pub fn scale_add<F: Field>(dst: &mut [u8], c: F, src: &[u8])
    requires { length src.now ≡ length dst.old }
    ensures { dst.new ≡ scaled_sum (F.act c) dst.old src.now }
{
    if add_unscaled(dst, c, src) {
        return;
    }
    if dst.len() < 32 {
        add_by_bytes(dst, c, src);
    } else {
        Multiplier::new(c).add_scaled(dst, src);
    }
}

// Where `c` is zero or one there is nothing to look up. Of any other coefficient it says so, and leaves `dst` as it is.
#[inline(always)]
fn add_unscaled<F: Field>(dst: &mut [u8], c: F, src: &[u8]) -> bool
    requires { length src.now ≡ length dst.old }
    ensures { dst.new ≡ (if result then scaled_sum (F.act c) dst.old src.now else dst.old) }
{
    c.known();
    if c == F::zero() {
        return true;
    }
    if c == F::one() {
        add_bytes(dst, src);
        return true;
    }
    false
}

// Whether `c` is zero or one.
#[inline(always)]
fn is_unscaled<F: Field>(c: F) -> bool {
    c == F::zero() || c == F::one()
}

// Apart from its callers, as `copy` is, so that these stay short.
#[inline(never)]
fn clear(dst: &mut [u8])
    ensures { dst.new ≡ replicate (length dst.old) 0 }
{
    dst.fill(0);
}

#[inline(never)]
fn copy(dst: &mut [u8], src: &[u8])
    requires { length src.now ≡ length dst.old }
    ensures { dst.new ≡ src.now }
{
    dst.copy_from_slice(src);
}

// Does nothing. Its contract tells a proof that what a slice holds are bytes.
#[inline(always)]
fn are_bytes(s: &[u8])
    ensures { (k : ℕ) → slice_index s.now k < 256 }
{}

fn add_by_bytes<F: Field>(dst: &mut [u8], c: F, src: &[u8])
    requires { length src.now ≡ length dst.old }
    ensures { dst.new ≡ scaled_sum (F.act c) dst.old src.now }
{
    for i in 0..dst.len() {
        dst[i] ^= c.act(src[i]);
    }
}

impl<F: Field> Multiplier<F> {
    /// Adds the coefficient times `src` to `dst`: each `dst[x]` becomes `dst[x]` xor
    /// `act(coefficient, src[x])`.
    ///
    /// It is one pass over the bytes, 32 at a time. For the coefficient 0 nothing is read, and for 1 nothing is looked up.
    pub fn scale_add(&self, dst: &mut [u8], src: &[u8])
        requires { length src.now ≡ length dst.old }
        ensures { dst.new ≡ scaled_sum (F.act self.now.coefficient) dst.old src.now }
    {
        if !add_unscaled(dst, self.coefficient, src) {
            self.add_scaled(dst, src);
        }
    }

    /// Adds the coefficient times `one` to `first`, and the coefficient times `other` to `second`.
    ///
    /// It does what [`Multiplier::scale_add`] would with each, and looks the products up in tables that are read once.
    pub fn scale_add_both(&self, first: &mut [u8], one: &[u8], second: &mut [u8], other: &[u8])
        requires first { length one.now ≡ length first.old }
        requires second { length other.now ≡ length second.old }
        ensures first { first.new ≡ scaled_sum (F.act self.now.coefficient) first.old one.now }
        ensures second { second.new ≡ scaled_sum (F.act self.now.coefficient) second.old other.now }
    {
        if is_unscaled(self.coefficient) {
            self.add_each(first, one, second, other);
        } else {
            self.add_scaled_both(first, one, second, other);
        }
    }

    // The same, one after the other. It stands apart, so that the way of most coefficients is short.
    #[inline(never)]
    fn add_each(&self, first: &mut [u8], one: &[u8], second: &mut [u8], other: &[u8])
        requires first { length one.now ≡ length first.old }
        requires second { length other.now ≡ length second.old }
        ensures first { first.new ≡ scaled_sum (F.act self.now.coefficient) first.old one.now }
        ensures second { second.new ≡ scaled_sum (F.act self.now.coefficient) second.old other.now }
    {
        self.scale_add(first, one);
        self.scale_add(second, other);
    }

    #[inline(always)]
    fn add_scaled_both(&self, first: &mut [u8], one: &[u8], second: &mut [u8], other: &[u8])
        requires first { length one.now ≡ length first.old }
        requires second { length other.now ≡ length second.old }
        ensures first { first.new ≡ scaled_sum (F.act self.now.coefficient) first.old one.now }
        ensures second { second.new ≡ scaled_sum (F.act self.now.coefficient) second.old other.now }
    {
        let term = Term {
            multiplier: *self,
            at: 0,
        };
        let rest = [];
        write_sum(first, &term, &rest, one, false);
        write_sum(second, &term, &rest, other, false);
    }

    #[inline(always)]
    fn add_scaled(&self, dst: &mut [u8], src: &[u8])
        requires { length src.now ≡ length dst.old }
        ensures { dst.new ≡ scaled_sum (F.act self.now.coefficient) dst.old src.now }
    {
        let term = Term {
            multiplier: *self,
            at: 0,
        };
        let rest = [];
        write_sum(dst, &term, &rest, src, false);
    }

    /// Writes the coefficient times `src` to `dst`: each `dst[x]` becomes `act(coefficient, src[x])`.
    ///
    /// For the coefficient 0 it writes zeros and reads nothing, and for 1 it copies `src`.
    pub fn set(&self, dst: &mut [u8], src: &[u8])
        requires { length src.now ≡ length dst.old }
        ensures { dst.new ≡ map (F.act self.now.coefficient) src.now }
    {
        self.coefficient.known();
        if self.coefficient == F::zero() {
            clear(dst);
        } else if self.coefficient == F::one() {
            copy(dst, src);
        } else {
            self.set_scaled(dst, src);
        }
    }

    #[inline(always)]
    fn set_scaled(&self, dst: &mut [u8], src: &[u8])
        requires { length src.now ≡ length dst.old }
        ensures { dst.new ≡ map (F.act self.now.coefficient) src.now }
    {
        let term = Term {
            multiplier: *self,
            at: 0,
        };
        let rest = [];
        write_sum(dst, &term, &rest, src, true);
    }

    /// Multiplies all of `dst` by the coefficient, in place.
    ///
    /// For the coefficient 0 it writes zeros and reads nothing, and for 1 it leaves `dst` as it is.
    pub fn scale(&self, dst: &mut [u8])
        ensures { dst.new ≡ map (F.act self.now.coefficient) dst.old }
    {
        self.coefficient.known();
        if self.coefficient == F::zero() {
            are_bytes(dst);
            clear(dst);
        } else if self.coefficient != F::one() {
            self.scale_by_tables(dst);
        }
    }

    #[inline(always)]
    fn scale_by_tables(&self, dst: &mut [u8])
        ensures { dst.new ≡ map (F.act self.now.coefficient) dst.old }
    {
        if dst.len() >= 32 {
            self.scale_long(dst);
        } else if dst.len() >= 16 {
            let product = self.times(load_halves(dst, 0, dst.len()));
            store_halves(dst, product);
        } else if dst.len() > 0 {
            self.scale_short(dst);
        }
    }

    fn scale_short(&self, dst: &mut [u8])
        requires { (1 ≤ length dst.old) × (length dst.old < 16) }
        ensures { dst.new ≡ map (F.act self.now.coefficient) dst.old }
    {
        let n = dst.len();
        let width = piece_of(n);
        let product = self.times_short(load_short(dst, 0, n, width));
        store_short(dst, product);
    }

    // The last vector ends with the slice and may lie over the one before. So it is worked out from the bytes as they were.
    fn scale_long(&self, dst: &mut [u8])
        requires { 32 ≤ length dst.old }
        ensures { dst.new ≡ map (F.act self.now.coefficient) dst.old }
    {
        let tables = *self;
        let end = dst.len() - 32;
        let last = tables.times(load(dst, end));
        let mut at = 0;
        while at < end {
            let next = tables.times(load(dst, at));
            store(dst, at, next);
            at += 32;
        }
        store(dst, end, last);
    }
}
