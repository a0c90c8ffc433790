//! One equation: a coefficient for each column, kept as its number, and the bytes on the right side.
ghost use Rattle.std.specs.Prelude.{◌≡◌, ◌≢◌, ◌+◌, ◌<◌, ◌≤◌, ◌++◌, ℕ, IfOk, MatchOption, All, true, false, length, map, take, drop, replicate, slice_index, slice_index_or};
ghost use Rattle.sc_field.specs.Field.{IsNumber};
ghost use Rattle.sc_field.specs.Scale.{scaled_sum};
ghost use Rattle.sc_matrix.specs.Module.{IsByte};
ghost use Rattle.sc_echelon.specs.Knowledge.{zero_bytes, xor_bytes, act_bytes};
ghost use Rattle.sc_echelon.specs.Steps.{plus_row, times_row, shift_row, cleared};
ghost use Rattle.sc_echelon.specs.Echelon.{IsLastNonzero};
ghost use Rattle.sc_echelon.specs.Touched.{IsTouched, IsZeroBut};

use crate::tables::Tables;
use crate::window::Window;
use sc_field::{Field, Multiplier, element_of};
use sc_outside::NoMemory;
use std::alloc::Global;
use std::marker::{Model, PhantomData};
use std::simd::prelude::*;

// An equation. Its coefficients are kept as their numbers, so that a multiple of it is added by the vector kernel. They are
// zero before the column `from`, and from the column `end` on.
#[derive(Drop)]
pub(crate) struct Equation<F: Field> {
    numbers: Window,
    from: usize,
    end: usize,
    right: Vec<u8>,
    field: PhantomData<F>,
}

impl<F: Field> Model for Equation<F> {
    ghost use Rattle.std.specs.Prelude.{ℕ, List, All, map};
    ghost use Rattle.sc_field.specs.Field.{IsNumber};
    ghost use Rattle.sc_echelon.specs.Equation.{Row};
    ghost use Rattle.sc_echelon.specs.Kept.{row_code};
    ghost use Rattle.sc_echelon.specs.Touched.{IsTouchedRow};

    ghost Value = { Row F (List ℕ) };

    ghost coded = { row_code F.code };

    ghost view = { λ e. record { coeffs = map F.element e.numbers; right = e.right.items } };

    ghost invariant = { λ e. IsTouchedRow (IsNumber F.IsElement F.number F.element) e.from e.end e.numbers };
}

impl<F: Field> Equation<F> {
    // The equation of `cols` coefficients and `width` bytes that are all zero, with so much room that `room` coefficients can be
    // forgotten before the others are moved.
    pub(crate) fn zeros(
        alloc: Global,
        cols: usize,
        room: usize,
        width: usize,
    ) -> Result<Equation<F>, NoMemory>
        requires { cols + room < 18446744073709551616 }
        ensures cols { IfOk result (λ e. length e.coeffs ≡ cols) }
        ensures width { IfOk result (λ e. length e.right ≡ width) }
    {
        let numbers = Window::zeros(alloc, cols, room)?;
        let right = vec![in alloc; 0; width]?;
        Ok(Equation {
            numbers,
            from: 0,
            end: 0,
            right,
            field: PhantomData,
        })
    }

    // The coefficient at column `i`.
    pub(crate) fn coeff(&self, i: usize) -> F
        requires { i < length self.now.coeffs }
        ensures value { result ≡ slice_index_or self.now.coeffs i F.zero }
        ensures element { F.IsElement result }
    {
        if i < self.from || self.end <= i {
            return F::zero();
        }
        element_of(self.numbers.as_slice()[i])
    }

    // Does nothing. Its contract tells a proof that the coefficients are elements, and the right side bytes.
    pub(crate) fn known(&self)
        ensures elements { All F.IsElement self.now.coeffs }
        ensures bytes { All IsByte self.now.right }
    {
        known_bytes(self.right.as_slice());
    }

    // A column before which all coefficients are zero.
    pub(crate) fn from(&self) -> usize
        ensures within { result ≤ length self.now.coeffs }
        ensures zeros { (j : ℕ) → j < result → slice_index_or self.now.coeffs j F.zero ≡ F.zero }
    {
        self.from
    }

    // A column from which on all coefficients are zero.
    pub(crate) fn end(&self) -> usize
        ensures within { result ≤ length self.now.coeffs }
        ensures zeros { (j : ℕ) → result ≤ j → slice_index_or self.now.coeffs j F.zero ≡ F.zero }
    {
        self.end
    }

    // The bytes on the right side.
    pub(crate) fn right(&self) -> &[u8]
        ensures { result.now ≡ self.now.right }
    {
        self.right.as_slice()
    }

    // Whether the right side is zero.
    pub(crate) fn is_zero_right(&self) -> bool
        ensures yes { result ≡ true → self.now.right ≡ zero_bytes (length self.now.right) }
        ensures no { result ≡ false → self.now.right ≢ zero_bytes (length self.now.right) }
    {
        is_zero(self.right.as_slice())
    }

    // The first column whose coefficient is not zero.
    pub(crate) fn first_nonzero(&self) -> Option<usize>
        ensures { MatchOption result ((j : ℕ) → j < length self.now.coeffs → slice_index_or self.now.coeffs j F.zero ≡ F.zero)
            (λ p. (p < length self.now.coeffs) × (slice_index_or self.now.coeffs p F.zero ≢ F.zero)
            × ((j : ℕ) → j < p → slice_index_or self.now.coeffs j F.zero ≡ F.zero)) }
    {
        first_nonzero(self.numbers.as_slice(), self.from, self.end)
    }

    // The last column whose coefficient is not zero.
    pub(crate) fn last_nonzero(&self) -> Option<usize>
        ensures { MatchOption result ((j : ℕ) → j < length self.now.coeffs → slice_index_or self.now.coeffs j F.zero ≡ F.zero)
            (λ p. (p < length self.now.coeffs) × (slice_index_or self.now.coeffs p F.zero ≢ F.zero)
            × ((j : ℕ) → p < j → slice_index_or self.now.coeffs j F.zero ≡ F.zero)) }
    {
        last_nonzero(self.numbers.as_slice(), self.from, self.end)
    }

    // A column other than `col` whose coefficient is not zero.
    pub(crate) fn another_nonzero(&self, col: usize) -> Option<usize>
        ensures { MatchOption result ((j : ℕ) → j < length self.now.coeffs → j ≢ col → slice_index_or self.now.coeffs j F.zero ≡ F.zero)
            (λ j. (j < length self.now.coeffs) × (j ≢ col) × (slice_index_or self.now.coeffs j F.zero ≢ F.zero)) }
    {
        another_nonzero(self.numbers.as_slice(), self.from, self.end, col)
    }

    // Writes an equation of the same sizes over this one.
    pub(crate) fn load(&mut self, coeffs: &[F], right: &[u8])
        requires coeffs { length self.old.coeffs ≡ length coeffs.now }
        requires right { length self.old.right ≡ length right.now }
        ensures value { self.new ≡ record { coeffs = coeffs.now; right = right.now } }
        ensures elements { All F.IsElement coeffs.now }
    {
        self.numbers.write_numbers(coeffs);
        self.from = zeros_before(self.numbers.as_slice());
        self.end = zeros_behind(self.numbers.as_slice(), self.from);
        self.right.as_mut_slice().copy_from_slice(right);
    }

    // Writes the coefficients of these numbers over as many.
    pub(crate) fn load_numbers(&mut self, numbers: &[u8])
        requires width { length self.old.coeffs ≡ length numbers.now }
        requires numbers { All (IsNumber F.IsElement F.number F.element) numbers.now }
        ensures { self.new ≡ record { coeffs = map F.element numbers.now; right = self.old.right } }
    {
        self.numbers.write_at(0, numbers);
        self.from = zeros_before(self.numbers.as_slice());
        self.end = zeros_behind(self.numbers.as_slice(), self.from);
    }

    // Adds `c` times `other`. Where `c` is zero nothing is done, and no further column is touched.
    #[inline(always)]
    pub(crate) fn add_multiple(&mut self, c: F, other: &Equation<F>, tables: &mut Tables<F>)
        requires coeffs { length self.old.coeffs ≡ length other.now.coeffs }
        requires right { length self.old.right ≡ length other.now.right }
        ensures { self.new ≡ plus_row F.add F.mul xor_bytes (act_bytes F.act) self.old c other.now }
    {
        c.known();
        if adds_nothing(
            c,
            self.numbers.as_slice(),
            other.numbers.as_slice(),
            self.right.as_slice(),
            other.right.as_slice(),
        ) {
            return;
        }
        self.add_scaled(c, other, tables);
    }

    // The same, whatever `c` is. It stands apart, so that the kernel is called at one place and can stand there.
    #[inline(never)]
    fn add_scaled(&mut self, c: F, other: &Equation<F>, tables: &mut Tables<F>)
        requires coeffs { length self.old.coeffs ≡ length other.now.coeffs }
        requires right { length self.old.right ≡ length other.now.right }
        ensures { self.new ≡ plus_row F.add F.mul xor_bytes (act_bytes F.act) self.old c other.now }
    {
        c.known();
        self.from = self.from.min(other.from);
        self.end = self.end.max(other.end);
        self.numbers.add_between(
            tables.get(c),
            other.numbers.as_slice(),
            other.from,
            other.end,
            self.right.as_mut_slice(),
            other.right.as_slice(),
        );
    }

    // Whether all coefficients but that of column `col` are known to be zero.
    #[inline(always)]
    pub(crate) fn is_lone(&self, col: usize) -> bool
        requires { col < length self.now.coeffs }
        ensures { result ≡ true → IsZeroBut F.zero col self.now.coeffs }
    {
        if self.from < col || self.end.saturating_sub(col) > 1 {
            return false;
        }
        true
    }

    // Clears the coefficient of column `col` by an equation that has a one there and zeros elsewhere: it tells the bytes of that
    // column alone.
    #[inline(always)]
    pub(crate) fn substitute(&mut self, col: usize, value: &Equation<F>, tables: &mut Tables<F>)
        requires col { col < length self.old.coeffs }
        requires coeffs { length self.old.coeffs ≡ length value.now.coeffs }
        requires right { length self.old.right ≡ length value.now.right }
        requires one { slice_index_or value.now.coeffs col F.zero ≡ F.one }
        requires zeros { IsZeroBut F.zero col value.now.coeffs }
        ensures { self.new ≡ cleared F.zero F.add F.sub F.mul xor_bytes (act_bytes F.act) self.old col value.now }
    {
        self.put_in(col, value, tables);
        if self.end.saturating_sub(col) == 1 {
            self.trim();
        }
    }

    #[inline(always)]
    fn put_in(&mut self, col: usize, value: &Equation<F>, tables: &mut Tables<F>)
        requires col { col < length self.old.coeffs }
        requires coeffs { length self.old.coeffs ≡ length value.now.coeffs }
        requires right { length self.old.right ≡ length value.now.right }
        requires one { slice_index_or value.now.coeffs col F.zero ≡ F.one }
        requires zeros { IsZeroBut F.zero col value.now.coeffs }
        ensures { self.new ≡ cleared F.zero F.add F.sub F.mul xor_bytes (act_bytes F.act) self.old col value.now }
    {
        self.known();
        value.known();
        let factor = F::zero().sub(self.coeff(col));
        factor.known();
        self.numbers.clear(col);
        tables
            .get(factor)
            .scale_add(self.right.as_mut_slice(), value.right.as_slice());
    }

    // Looks anew for the columns between which the coefficients lie that aren't zero.
    fn trim(&mut self)
        ensures { self.new ≡ self.old }
    {
        let numbers = self.numbers.as_slice();
        let from = pass_zeros(numbers, self.from, self.end);
        let end = end_of_others(numbers, from, self.end);
        self.from = from;
        self.end = end;
    }

    // Multiplies the equation by `c`. The zeros around its coefficients are left out from now on.
    pub(crate) fn multiply(&mut self, c: F, tables: &mut Tables<F>)
        ensures { self.new ≡ times_row F.mul (act_bytes F.act) c self.old }
    {
        self.trim();
        self.known();
        c.known();
        if c == F::one() {
            return;
        }
        self.multiply_by(tables.get(c));
    }

    // The same, by a multiplier.
    fn multiply_by(&mut self, by: &Multiplier<F>)
        ensures { self.new ≡ times_row F.mul (act_bytes F.act) by.now.coefficient self.old }
    {
        by.coefficient.known();
        self.numbers.scale_between(by, self.from, self.end);
        by.scale(self.right.as_mut_slice());
    }

    // Forgets the first `count` coefficients, and has as many zeros behind.
    pub(crate) fn shift(&mut self, count: usize)
        requires { count ≤ length self.old.coeffs }
        ensures { self.new ≡ shift_row F.zero count self.old }
    {
        self.numbers.shift(count);
        self.from = self.from.saturating_sub(count);
        self.end = self.end.saturating_sub(count);
    }
}

// Does nothing. Its contract tells a proof that bytes are bytes.
fn known_bytes(bytes: &[u8])
    ensures { All IsByte bytes.now }
{
    let _count = bytes.len();
}

// Whether the 32 bytes from `at` on are zero.
#[inline(always)]
fn is_zero_chunk(xs: &[u8], at: usize) -> bool
    requires { at + 32 ≤ length xs.now }
    ensures { result ≡ true → (j : ℕ) → at ≤ j → j < at + 32 → slice_index xs.now j ≡ 0 }
{
    u8x32::from_slice(&xs[at..]) == u8x32::splat(0)
}

// A place from `from` on that has zeros alone before it: as many vectors of zeros are passed over as there are.
#[inline(always)]
fn skip_zeros(xs: &[u8], from: usize, end: usize) -> usize
    requires order { from ≤ end }
    requires within { end ≤ length xs.now }
    ensures order { from ≤ result }
    ensures within { result ≤ end }
    ensures zeros { (j : ℕ) → from ≤ j → j < result → slice_index xs.now j ≡ 0 }
{
    let mut at = from;
    while end - at >= 32 && is_zero_chunk(xs, at) {
        at += 32;
    }
    at
}

// Whether the 16 bytes from `at` on are zero.
#[inline(always)]
fn is_zero_half(xs: &[u8], at: usize) -> bool
    requires { at + 16 ≤ length xs.now }
    ensures { result ≡ true → (j : ℕ) → at ≤ j → j < at + 16 → slice_index xs.now j ≡ 0 }
{
    u8x16::from_slice(&xs[at..]) == u8x16::splat(0)
}

// The place behind the next 16 bytes where these are zero, and else the place itself.
#[inline(always)]
fn skip_half(xs: &[u8], at: usize) -> usize
    requires { at ≤ length xs.now }
    ensures order { at ≤ result }
    ensures within { result ≤ length xs.now }
    ensures zeros { (j : ℕ) → at ≤ j → j < result → slice_index xs.now j ≡ 0 }
{
    if xs.len() - at >= 16 && is_zero_half(xs, at) {
        at + 16
    } else {
        at
    }
}

// As `skip_zeros`, from the end on.
#[inline(always)]
fn drop_zeros(xs: &[u8], from: usize, end: usize) -> usize
    requires order { from ≤ end }
    requires within { end ≤ length xs.now }
    ensures order { from ≤ result }
    ensures within { result ≤ end }
    ensures zeros { (j : ℕ) → result ≤ j → j < end → slice_index xs.now j ≡ 0 }
{
    let mut at = end;
    while at - from >= 32 && is_zero_chunk(xs, at - 32) {
        at -= 32;
    }
    at
}

// The first place from `from` on that has another byte than zero, or `end` where there is none before it.
fn pass_zeros(xs: &[u8], from: usize, end: usize) -> usize
    requires order { from ≤ end }
    requires within { end ≤ length xs.now }
    ensures order { from ≤ result }
    ensures within { result ≤ end }
    ensures zeros { (j : ℕ) → from ≤ j → j < result → slice_index xs.now j ≡ 0 }
{
    let mut at = skip_zeros(xs, from, end);
    while at < end && xs[at] == 0 {
        at += 1;
    }
    at
}

// The end of the bytes from `from` up to `end`, without the zeros behind them.
fn end_of_others(xs: &[u8], from: usize, end: usize) -> usize
    requires order { from ≤ end }
    requires within { end ≤ length xs.now }
    ensures order { from ≤ result }
    ensures within { result ≤ end }
    ensures zeros { (j : ℕ) → result ≤ j → j < end → slice_index xs.now j ≡ 0 }
{
    let mut at = drop_zeros(xs, from, end);
    while from < at && xs[at - 1] == 0 {
        at -= 1;
    }
    at
}

// How many zeros the bytes begin with.
fn zeros_before(xs: &[u8]) -> usize
    ensures within { result ≤ length xs.now }
    ensures zeros { (j : ℕ) → j < result → slice_index xs.now j ≡ 0 }
{
    pass_zeros(xs, 0, xs.len())
}

// The end of the bytes from `from` on, without the zeros behind them.
fn zeros_behind(xs: &[u8], from: usize) -> usize
    requires { from ≤ length xs.now }
    ensures order { from ≤ result }
    ensures within { result ≤ length xs.now }
    ensures zeros { (j : ℕ) → result ≤ j → slice_index xs.now j ≡ 0 }
{
    end_of_others(xs, from, xs.len())
}

// Whether `c` is zero. Then adding it so many times changes neither of two pairs of bytes.
#[inline(always)]
fn adds_nothing<F: Field>(c: F, first: &[u8], one: &[u8], second: &[u8], other: &[u8]) -> bool
    requires first { length one.now ≡ length first.now }
    requires second { length other.now ≡ length second.now }
    ensures first { result ≡ true → first.now ≡ scaled_sum (F.act c) first.now one.now }
    ensures second { result ≡ true → second.now ≡ scaled_sum (F.act c) second.now other.now }
{
    c.known();
    c == F::zero()
}

// The first place with a byte other than 0.
fn first_nonzero(xs: &[u8], from: usize, end: usize) -> Option<usize>
    requires { IsTouched from end xs.now }
    ensures { MatchOption result ((j : ℕ) → j < length xs.now → slice_index_or xs.now j 0 ≡ 0)
        (λ p. (p < length xs.now) × (slice_index_or xs.now p 0 ≢ 0) × ((j : ℕ) → j < p → slice_index_or xs.now j 0 ≡ 0)) }
{
    let first = skip_zeros(xs, from, end);
    for i in first..end {
        if xs[i] != 0 {
            return Some(i);
        }
    }
    None
}

// The last place with a byte other than 0.
fn last_nonzero(xs: &[u8], from: usize, end: usize) -> Option<usize>
    requires { IsTouched from end xs.now }
    ensures { IsLastNonzero xs.now (length xs.now) result }
{
    let mut last = None;
    for i in from..end {
        if xs[i] != 0 {
            last = Some(i);
        }
    }
    last
}

// A place other than `place` with a byte other than 0.
fn another_nonzero(xs: &[u8], from: usize, end: usize, place: usize) -> Option<usize>
    requires { IsTouched from end xs.now }
    ensures { MatchOption result ((j : ℕ) → j < length xs.now → j ≢ place → slice_index_or xs.now j 0 ≡ 0)
        (λ j. (j < length xs.now) × (j ≢ place) × (slice_index_or xs.now j 0 ≢ 0)) }
{
    for i in from..end {
        if i != place && xs[i] != 0 {
            return Some(i);
        }
    }
    None
}

/// Whether all bytes are zero.
///
/// It looks at 32 at a time, and at fewer at the end and where one of them is another.
pub fn is_zero(bytes: &[u8]) -> bool
    ensures yes { result ≡ true → bytes.now ≡ zero_bytes (length bytes.now) }
    ensures no { result ≡ false → bytes.now ≢ zero_bytes (length bytes.now) }
{
    let first = skip_half(bytes, skip_zeros(bytes, 0, bytes.len()));
    for i in first..bytes.len() {
        if bytes[i] != 0 {
            return false;
        }
    }
    true
}
