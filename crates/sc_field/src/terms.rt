//! One row of bytes made of many: a multiple of each of several pieces of a source, added up.
ghost use Rattle.std.specs.Prelude.{◌≡◌, ◌↔◌, ◌∷◌, ◌+◌, ◌-◌, ◌<◌, ◌≤◌, ⊤, All, replicate, length, true, false, slice_index};
ghost use Rattle.std.specs.Simd.Lanes.{chunk, put_chunk};
ghost use Rattle.sc_field.specs.Terms.{combined, sum_at, sum_from, IsWithin, Lanes, two_ends, piece};

use crate::field::Field;
use crate::lanes::{load, load_halves, load_short, store, store_halves, store_short};
use crate::multiplier::Multiplier;
use std::alloc::AllocError;
use std::simd::prelude::*;

/// A multiple of one piece of a source, as a term of a sum.
#[derive(Copy)]
pub struct Term<F: Field> {
    /// What the piece is multiplied by.
    pub multiplier: Multiplier<F>,
    /// The place in the source at which the piece begins.
    pub at: usize,
}

impl<F: Field> Clone for Term<F> {
    ghost is_clone = { λ x y. y ≡ x };

    ghost is_infallible = { λ _. ⊤ };

    fn clone(&self) -> Result<Term<F>, AllocError> {
        Ok(*self)
    }
}

/// Whether each term has `width` bytes of the source from its place on, as [`combine`] asks.
pub fn all_within<F: Field>(terms: &[Term<F>], width: usize, src: &[u8]) -> bool
    ensures { (result ≡ true) ↔ All (λ t. IsWithin width src.now t.at) terms.now }
{
    for term in terms {
        if src.len() < width || src.len() - width < term.at {
            return false;
        }
    }
    true
}

/// Writes to `dst` the sum of the terms: each `dst[x]` becomes the xor of `act(c, src[at + x])` over the terms' coefficients
/// `c` and places `at`, and 0 if there are none. What `dst` held is lost.
///
/// For each term products are looked up, whatever its coefficient.
pub fn combine<F: Field>(dst: &mut [u8], terms: &[Term<F>], src: &[u8])
    requires { All (λ t. IsWithin (length dst.old) src.now t.at) terms.now }
    ensures { dst.new ≡ combined (λ t. F.act t.multiplier.coefficient) (λ t. t.at) terms.now (replicate (length dst.old) 0) src.now }
{
    write_sums(dst, terms, src, true);
}

/// Adds the sum of the terms to `dst`, as [`Multiplier::scale_add`] would with each in turn. It looks products up as [`combine`]
/// does.
pub fn combine_add<F: Field>(dst: &mut [u8], terms: &[Term<F>], src: &[u8])
    requires { All (λ t. IsWithin (length dst.old) src.now t.at) terms.now }
    ensures { dst.new ≡ combined (λ t. F.act t.multiplier.coefficient) (λ t. t.at) terms.now dst.old src.now }
{
    write_sums(dst, terms, src, false);
}

// Writes the sum of the terms, added to what `dst` held if it isn't `fresh`.
#[inline(always)]
fn write_sums<F: Field>(dst: &mut [u8], terms: &[Term<F>], src: &[u8], fresh: bool)
    requires { All (λ t. IsWithin (length dst.old) src.now t.at) terms.now }
    ensures { dst.new ≡ combined (λ t. F.act t.multiplier.coefficient) (λ t. t.at) terms.now (sum_from fresh dst.old) src.now }
{
    if terms.len() > 0 {
        write_sum(dst, &terms[0], &terms[1..], src, fresh);
    } else if fresh {
        dst.fill(0);
    }
}

// The same, of a first term and the rest.
#[inline(always)]
pub(crate) fn write_sum<F: Field>(
    dst: &mut [u8],
    first: &Term<F>,
    rest: &[Term<F>],
    src: &[u8],
    fresh: bool,
)
    requires { IsWithin (length dst.old) src.now first.now.at × All (λ t. IsWithin (length dst.old) src.now t.at) rest.now }
    ensures { dst.new ≡ combined (λ t. F.act t.multiplier.coefficient) (λ t. t.at) (first.now ∷ rest.now) (sum_from fresh dst.old) src.now }
{
    if dst.len() > 64 {
        write_long(dst, first, rest, src, fresh);
    } else if dst.len() > 32 {
        write_pair(dst, first, rest, src, fresh);
    } else if dst.len() >= 16 {
        write_halves(dst, first, rest, src, fresh);
    } else if dst.len() >= 8 {
        write_short(dst, first, rest, src, fresh, 8);
    } else if dst.len() >= 4 {
        write_short(dst, first, rest, src, fresh, 4);
    } else if dst.len() > 0 {
        // A copy of the term, so that the term of `scale_add` itself needs no place in memory.
        let few = *first;
        write_few(dst, &few, rest, src, fresh);
    }
}

// The last vector ends with the slice and may lie over the one before. So it is worked out from the bytes as they were.
#[inline(always)]
fn write_long<F: Field>(dst: &mut [u8], first: &Term<F>, rest: &[Term<F>], src: &[u8], fresh: bool)
    requires within { IsWithin (length dst.old) src.now first.now.at × All (λ t. IsWithin (length dst.old) src.now t.at) rest.now }
    requires long { 64 < length dst.old }
    ensures { dst.new ≡ combined (λ t. F.act t.multiplier.coefficient) (λ t. t.at) (first.now ∷ rest.now) (sum_from fresh dst.old) src.now }
{
    let end = dst.len() - 32;
    let last = sum(dst, first, rest, src, end, fresh);
    let mut at = 0;
    while at < end - 32 {
        let (front, back) = sum_pair(dst, first, rest, src, at, at + 32, fresh);
        store(dst, at, front);
        store(dst, at + 32, back);
        at += 64;
    }
    if at < end {
        let next = sum(dst, first, rest, src, at, fresh);
        store(dst, at, next);
    }
    store(dst, end, last);
}

#[inline(always)]
fn write_pair<F: Field>(dst: &mut [u8], first: &Term<F>, rest: &[Term<F>], src: &[u8], fresh: bool)
    requires within { IsWithin (length dst.old) src.now first.now.at × All (λ t. IsWithin (length dst.old) src.now t.at) rest.now }
    requires long { (32 ≤ length dst.old) × (length dst.old ≤ 64) }
    ensures { dst.new ≡ combined (λ t. F.act t.multiplier.coefficient) (λ t. t.at) (first.now ∷ rest.now) (sum_from fresh dst.old) src.now }
{
    let end = dst.len() - 32;
    let (front, back) = sum_pair(dst, first, rest, src, 0, end, fresh);
    store(dst, 0, front);
    store(dst, end, back);
}

#[inline(always)]
fn write_halves<F: Field>(
    dst: &mut [u8],
    first: &Term<F>,
    rest: &[Term<F>],
    src: &[u8],
    fresh: bool,
)
    requires within { IsWithin (length dst.old) src.now first.now.at × All (λ t. IsWithin (length dst.old) src.now t.at) rest.now }
    requires long { (16 ≤ length dst.old) × (length dst.old ≤ 32) }
    ensures { dst.new ≡ combined (λ t. F.act t.multiplier.coefficient) (λ t. t.at) (first.now ∷ rest.now) (sum_from fresh dst.old) src.now }
{
    let sum = sum_halves(dst, first, rest, src, fresh);
    store_halves(dst, sum);
}

// Apart from the others, so that these can stand where they are called.
#[inline(never)]
fn write_few<F: Field>(dst: &mut [u8], first: &Term<F>, rest: &[Term<F>], src: &[u8], fresh: bool)
    requires within { IsWithin (length dst.old) src.now first.now.at × All (λ t. IsWithin (length dst.old) src.now t.at) rest.now }
    requires few { (1 ≤ length dst.old) × (length dst.old < 4) }
    ensures { dst.new ≡ combined (λ t. F.act t.multiplier.coefficient) (λ t. t.at) (first.now ∷ rest.now) (sum_from fresh dst.old) src.now }
{
    if dst.len() >= 2 {
        write_short(dst, first, rest, src, fresh, 2);
    } else {
        write_short(dst, first, rest, src, fresh, 1);
    }
}

#[inline(always)]
fn write_short<F: Field>(
    dst: &mut [u8],
    first: &Term<F>,
    rest: &[Term<F>],
    src: &[u8],
    fresh: bool,
    width: usize,
)
    requires within { IsWithin (length dst.old) src.now first.now.at × All (λ t. IsWithin (length dst.old) src.now t.at) rest.now }
    requires long { (1 ≤ length dst.old) × (length dst.old < 16) }
    requires width { width ≡ piece (length dst.old) }
    ensures { dst.new ≡ combined (λ t. F.act t.multiplier.coefficient) (λ t. t.at) (first.now ∷ rest.now) (sum_from fresh dst.old) src.now }
{
    let sum = sum_short(dst, first, rest, src, fresh, width);
    store_short(dst, sum);
}

// The 32 bytes of the sum from `at` on.
#[inline(always)]
fn sum<F: Field>(
    dst: &[u8],
    first: &Term<F>,
    rest: &[Term<F>],
    src: &[u8],
    at: usize,
    fresh: bool,
) -> u8x32
    requires within { IsWithin (length dst.now) src.now first.now.at × All (λ t. IsWithin (length dst.now) src.now t.at) rest.now }
    requires room { at + 32 ≤ length dst.now }
    ensures { Lanes result 32 32 (λ j. sum_at (λ t. F.act t.multiplier.coefficient) (λ t. t.at) (first.now ∷ rest.now) src.now (at + j) (slice_index (sum_from fresh dst.now) (at + j))) }
{
    let mut sum = first
        .multiplier
        .add(begin(dst, at, fresh), load(src, first.at + at));
    for i in 0..rest.len() {
        let term = &rest[i];
        sum = term.multiplier.add(sum, load(src, term.at + at));
    }
    sum
}

// The 32 bytes of the sum from `at` on, and the 32 from `end` on.
#[inline(always)]
fn sum_pair<F: Field>(
    dst: &[u8],
    first: &Term<F>,
    rest: &[Term<F>],
    src: &[u8],
    at: usize,
    end: usize,
    fresh: bool,
) -> (u8x32, u8x32)
    requires within { IsWithin (length dst.now) src.now first.now.at × All (λ t. IsWithin (length dst.now) src.now t.at) rest.now }
    requires room { (at + 32 ≤ length dst.now) × (end + 32 ≤ length dst.now) }
    ensures front { Lanes result.0 32 32 (λ j. sum_at (λ t. F.act t.multiplier.coefficient) (λ t. t.at) (first.now ∷ rest.now) src.now (at + j) (slice_index (sum_from fresh dst.now) (at + j))) }
    ensures back { Lanes result.1 32 32 (λ j. sum_at (λ t. F.act t.multiplier.coefficient) (λ t. t.at) (first.now ∷ rest.now) src.now (end + j) (slice_index (sum_from fresh dst.now) (end + j))) }
{
    let mut front = first
        .multiplier
        .add(begin(dst, at, fresh), load(src, first.at + at));
    let mut back = first
        .multiplier
        .add(begin(dst, end, fresh), load(src, first.at + end));
    for i in 0..rest.len() {
        let term = &rest[i];
        front = term.multiplier.add(front, load(src, term.at + at));
        back = term.multiplier.add(back, load(src, term.at + end));
    }
    (front, back)
}

// The first and the last 16 bytes of the sum.
#[inline(always)]
fn sum_halves<F: Field>(
    dst: &[u8],
    first: &Term<F>,
    rest: &[Term<F>],
    src: &[u8],
    fresh: bool,
) -> u8x32
    requires within { IsWithin (length dst.now) src.now first.now.at × All (λ t. IsWithin (length dst.now) src.now t.at) rest.now }
    requires long { 16 ≤ length dst.now }
    ensures { Lanes result 32 32 (λ j. sum_at (λ t. F.act t.multiplier.coefficient) (λ t. t.at) (first.now ∷ rest.now) src.now (two_ends 16 (length dst.now) j) (slice_index (sum_from fresh dst.now) (two_ends 16 (length dst.now) j))) }
{
    let n = dst.len();
    let mut sum = first
        .multiplier
        .add(begin_halves(dst, fresh), load_halves(src, first.at, n));
    for i in 0..rest.len() {
        let term = &rest[i];
        sum = term.multiplier.add(sum, load_halves(src, term.at, n));
    }
    sum
}

// The bytes of the sum, as `load_short` takes them.
#[inline(always)]
fn sum_short<F: Field>(
    dst: &[u8],
    first: &Term<F>,
    rest: &[Term<F>],
    src: &[u8],
    fresh: bool,
    width: usize,
) -> u8x16
    requires within { IsWithin (length dst.now) src.now first.now.at × All (λ t. IsWithin (length dst.now) src.now t.at) rest.now }
    requires long { (1 ≤ length dst.now) × (length dst.now < 16) }
    requires width { width ≡ piece (length dst.now) }
    ensures { Lanes result 16 (piece (length dst.now) + piece (length dst.now)) (λ j. sum_at (λ t. F.act t.multiplier.coefficient) (λ t. t.at) (first.now ∷ rest.now) src.now (two_ends (piece (length dst.now)) (length dst.now) j) (slice_index (sum_from fresh dst.now) (two_ends (piece (length dst.now)) (length dst.now) j))) }
{
    let n = dst.len();
    let mut sum = first.multiplier.add_short(
        begin_short(dst, fresh, width),
        load_short(src, first.at, n, width),
    );
    for i in 0..rest.len() {
        let term = &rest[i];
        sum = term
            .multiplier
            .add_short(sum, load_short(src, term.at, n, width));
    }
    sum
}

#[inline(always)]
fn begin(dst: &[u8], at: usize, fresh: bool) -> u8x32
    requires { at + 32 ≤ length dst.now }
    ensures { Lanes result 32 32 (λ j. slice_index (sum_from fresh dst.now) (at + j)) }
{
    if fresh {
        u8x32::splat(0)
    } else {
        load(dst, at)
    }
}

#[inline(always)]
fn begin_halves(dst: &[u8], fresh: bool) -> u8x32
    requires { 16 ≤ length dst.now }
    ensures { Lanes result 32 32 (λ j. slice_index (sum_from fresh dst.now) (two_ends 16 (length dst.now) j)) }
{
    if fresh {
        u8x32::splat(0)
    } else {
        load_halves(dst, 0, dst.len())
    }
}

#[inline(always)]
fn begin_short(dst: &[u8], fresh: bool, width: usize) -> u8x16
    requires short { (1 ≤ length dst.now) × (length dst.now < 16) }
    requires width { width ≡ piece (length dst.now) }
    ensures { Lanes result 16 (piece (length dst.now) + piece (length dst.now)) (λ j. slice_index (sum_from fresh dst.now) (two_ends (piece (length dst.now)) (length dst.now) j)) }
{
    if fresh {
        u8x16::splat(0)
    } else {
        load_short(dst, 0, dst.len(), width)
    }
}
