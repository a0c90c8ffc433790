//! The equation of a parity symbol over the last blocks, prepared once: what is known of them is summed in one pass.
ghost use Rattle.std.specs.Prelude.{◌≡◌, ◌≢◌, ◌+◌, ◌*◌, ◌<◌, ◌≤◌, ℕ, List, IfOk, All, true, false, length, bit_xor, slice_index_or};
ghost use Rattle.sc_field.specs.Gf256.{gf256_product};
ghost use Rattle.sc_matrix.specs.Module.{IsByte};
ghost use Rattle.sc_matrix.specs.Vector.{add_vectors, combination};
ghost use Rattle.sc_matrix.specs.Layout.{cut};
ghost use Rattle.sc_repair.specs.Sum.{AreColumns, AreTerms, open_at};

use super::equations::clear_row;
use sc_field::{Field, Gf256, Multiplier, Term, combine_add};
use sc_outside::NoMemory;
use std::alloc::Global;
use std::marker::Model;

// A coefficient for each of some columns of byte strings of `width` bytes.
#[derive(Drop)]
pub(crate) struct ParitySum {
    width: usize,
    row: Vec<Gf256>,
    // The columns whose coefficient isn't zero.
    cols: Vec<usize>,
    // The multiple of each of these.
    terms: Vec<Term<Gf256>>,
}

impl Model for ParitySum {
    ghost use Rattle.sc_repair.specs.Sum.{RowSum, row_sum_code, IsPrepared};

    ghost Value = { RowSum };

    ghost coded = { row_sum_code };

    ghost view = { λ s. record { row = s.row.items; width = s.width } };

    ghost invariant = { λ s. IsPrepared (λ t. t.multiplier.coefficient) (λ t. t.at) s.width s.row.items s.cols.items s.terms.items };
}

impl ParitySum {
    // The sum with these coefficients.
    pub(crate) fn of(alloc: Global, row: Vec<Gf256>, width: usize) -> Result<ParitySum, NoMemory>
        requires { length row.items * width ≤ 67108864 }
        ensures { IfOk result (λ s. s ≡ record { row = row.items; width = width }) }
    {
        let cols = cols_of(alloc, row.as_slice())?;
        let terms = terms_of(alloc, row.as_slice(), width)?;
        Ok(ParitySum {
            width,
            row,
            cols,
            terms,
        })
    }

    // The number of columns.
    pub(crate) fn cols(&self) -> usize
        ensures { result ≡ length self.now.row }
    {
        self.row.len()
    }

    // Adds to `sum` what the byte strings side by side in `bytes` come to.
    pub(crate) fn add_to(&self, sum: &mut [u8], bytes: &[u8])
        requires sum { length sum.old ≡ self.now.width }
        requires bytes { length bytes.now ≡ length self.now.row * self.now.width }
        ensures sum { sum.new ≡ add_vectors bit_xor sum.old (combination 0 bit_xor gf256_product self.now.width self.now.row (cut (length self.now.row) self.now.width bytes.now)) }
        ensures elements { All IsByte self.now.row }
    {
        are_known(sum);
        combine_add(sum, self.terms.as_slice(), bytes);
    }

    // Whether the flag of each column is set whose coefficient isn't zero.
    pub(crate) fn is_within(&self, flags: &[bool]) -> bool
        requires { length flags.now ≡ length self.now.row }
        ensures { result ≡ true → (c : ℕ) → c < length self.now.row → slice_index_or flags.now c false ≡ false → slice_index_or self.now.row c 0 ≡ 0 }
    {
        all_set(self.cols.as_slice(), flags)
    }

    // Writes the coefficients from column `first` on where no flag is set, and zeros elsewhere.
    pub(crate) fn write_open(&self, row: &mut [Gf256], first: usize, flags: &[bool])
        requires room { first + length self.now.row ≤ length row.old }
        requires flags { length flags.now ≡ length row.old }
        ensures row { length row.new ≡ length row.old }
        ensures open { (c : ℕ) → c < length row.old → slice_index_or row.new c 0 ≡ open_at (length row.old) first self.now.row flags.now c }
    {
        write_rest(self.cols.as_slice(), self.row.as_slice(), row, first, flags);
    }

    // Turns off what stands at the columns of these coefficients.
    pub(crate) fn touch_open(&self, free: &mut [bool], first: usize, flags: &[bool])
        requires room { first + length self.now.row ≤ length free.old }
        requires flags { length flags.now ≡ length free.old }
        ensures count { length free.new ≡ length free.old }
        ensures less { (c : ℕ) → slice_index_or free.new c false ≡ true → slice_index_or free.old c false ≡ true }
        ensures touched { (c : ℕ) → slice_index_or free.new c false ≡ true → open_at (length free.old) first self.now.row flags.now c ≡ 0 }
        ensures kept { (c : ℕ) → slice_index_or flags.now c false ≡ true → slice_index_or free.old c false ≡ true → slice_index_or free.new c false ≡ true }
    {
        touch_rest(
            self.cols.as_slice(),
            self.row.as_slice(),
            free,
            first,
            flags,
        );
    }
}

// Does nothing. Its contract says what the type does: a byte is below 256.
fn are_known(bytes: &[u8])
    ensures { All IsByte bytes.now }
{}

// Whether the flag of each column is set.
fn all_set(cols: &[usize], flags: &[bool]) -> bool
    requires { (x : ℕ) → x < length cols.now → slice_index_or cols.now x 0 < length flags.now }
    ensures { result ≡ true → (x : ℕ) → x < length cols.now → slice_index_or flags.now (slice_index_or cols.now x 0) false ≡ true }
{
    for i in 0..cols.len() {
        if !flags[cols[i]] {
            return false;
        }
    }
    true
}

// Writes the coefficients from column `first` on where no flag is set, and zeros elsewhere.
fn write_rest(cols: &[usize], own: &[Gf256], row: &mut [Gf256], first: usize, flags: &[bool])
    requires columns { AreColumns own.now (length own.now) cols.now }
    requires room { first + length own.now ≤ length row.old }
    requires flags { length flags.now ≡ length row.old }
    ensures row { length row.new ≡ length row.old }
    ensures open { (c : ℕ) → c < length row.old → slice_index_or row.new c 0 ≡ open_at (length row.old) first own.now flags.now c }
{
    clear_row(row);
    for i in 0..cols.len() {
        let c = cols[i];
        if !flags[first + c] {
            row[first + c] = own[c];
        }
    }
}

// Turns off what stands at these columns, from `first` on, where no flag is set.
fn touch_rest(cols: &[usize], own: &[Gf256], free: &mut [bool], first: usize, flags: &[bool])
    requires columns { AreColumns own.now (length own.now) cols.now }
    requires room { first + length own.now ≤ length free.old }
    requires flags { length flags.now ≡ length free.old }
    ensures count { length free.new ≡ length free.old }
    ensures less { (c : ℕ) → slice_index_or free.new c false ≡ true → slice_index_or free.old c false ≡ true }
    ensures touched { (c : ℕ) → slice_index_or free.new c false ≡ true → open_at (length free.old) first own.now flags.now c ≡ 0 }
    ensures kept { (c : ℕ) → slice_index_or flags.now c false ≡ true → slice_index_or free.old c false ≡ true → slice_index_or free.new c false ≡ true }
{
    for i in 0..cols.len() {
        let c = first + cols[i];
        if !flags[c] {
            free[c] = false;
        }
    }
}

// The columns whose coefficient isn't zero.
fn cols_of(alloc: Global, row: &[Gf256]) -> Result<Vec<usize>, NoMemory>
    ensures { IfOk result (λ v. AreColumns row.now (length row.now) v.items) }
{
    let mut cols = Vec::new(alloc);
    for c in 0..row.len() {
        if row[c] != Gf256::zero() {
            cols.push(c)?;
        }
    }
    Ok(cols)
}

// The multiple of each of these, of byte strings of `width` bytes.
fn terms_of(alloc: Global, row: &[Gf256], width: usize) -> Result<Vec<Term<Gf256>>, NoMemory>
    requires { length row.now * width ≤ 67108864 }
    ensures { IfOk result (λ v. AreTerms (λ t. t.multiplier.coefficient) (λ t. t.at) width row.now (length row.now) v.items) }
{
    let mut terms = Vec::new(alloc);
    for c in 0..row.len() {
        let x = row[c];
        x.known();
        if x != Gf256::zero() {
            let multiplier = Multiplier::new(x);
            let at = c * width;
            terms.push(Term { multiplier, at })?;
        }
    }
    Ok(terms)
}
