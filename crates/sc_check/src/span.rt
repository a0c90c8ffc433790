//! What the streams that the losses so far leave open can still give: the rows of a matrix span it. A row has the parities of a
//! stream in all slots, and its block 0 last.

ghost use Rattle.std.specs.Prelude.{◌≡◌, ◌≢◌, ◌↔◌, ◌<◌, ◌≤◌, ◌+◌, ◌*◌, ◌/◌, ◌%◌, ◌++◌, ℕ, map, bit_xor, IsTrue, IfOk, OnOk, MatchOption};
ghost use Rattle.std.specs.List.{range_with_len};
ghost use Rattle.sc_field.specs.Gf256.{gf256_product};
ghost use Rattle.sc_matrix.specs.Module.{IsByte};
ghost use Rattle.sc_matrix.specs.Matrix.{IsMatrix, entry, row, row_count};
ghost use Rattle.sc_matrix.specs.RowSpace.{HaveOneRowSpace};
ghost use Rattle.sc_check.specs.Span.{image_width, image_entry, image, unit_stream, unit_image, parity_at, IsCleared};

use sc_code::ByteCode;
use sc_field::{Field, Gf256};
use sc_matrix::Matrix;
use sc_outside::NoMemory;
use std::alloc::Global;

// The images of the streams that have a one in one place: row `s * k + i` is that of symbol `i` of slot `s`.
pub(crate) fn unit_images(
    alloc: Global,
    code: &ByteCode,
    slots: usize,
) -> Result<Matrix<Gf256>, NoMemory>
    requires { slots ≤ 41 }
    ensures cols { IfOk result (λ m. m.cols ≡ image_width code.now slots) }
    ensures rows { IfOk result (λ m. m.rows ≡ map (unit_image code.now slots) (range_with_len 0 (slots * code.now.k))) }
{
    let cols = slots * code.r() + code.k();
    let mut images = Matrix::with_capacity(alloc, slots * code.k(), cols)?;
    let mut image = Vec::with_capacity(alloc, cols)?;
    for n in 0..slots * code.k() {
        write_unit(&mut image, code, slots, n)?;
        images.push_row(image.as_slice())?;
    }
    Ok(images)
}

// Writes image `n`.
fn write_unit(bytes: &mut Vec<u8>, code: &ByteCode, slots: usize, n: usize) -> Result<(), NoMemory>
    requires few { slots ≤ 41 }
    requires unit { n < slots * code.now.k }
    ensures { OnOk result (bytes.new.items ≡ unit_image code.now slots n) }
{
    let (s, i) = (n / code.k(), n % code.k());
    bytes.clear();
    for t in 0..slots {
        push_parities(bytes, code, slots, s, i, t)?;
    }
    push_block(bytes, code, slots, s, i)
}

// Appends the parities of slot `t` to those of the slots before it, of the image of symbol `i` of slot `s`.
fn push_parities(
    bytes: &mut Vec<u8>,
    code: &ByteCode,
    slots: usize,
    s: usize,
    i: usize,
    t: usize,
) -> Result<(), NoMemory>
    requires symbol { i < code.now.k }
    requires within { t < slots }
    requires before { bytes.old.items ≡ map (image_entry code.now slots (unit_stream s i)) (range_with_len 0 (t * code.now.r)) }
    ensures { OnOk result (bytes.new.items ≡ map (image_entry code.now slots (unit_stream s i)) (range_with_len 0 ((t + 1) * code.now.r))) }
{
    for j in 0..code.r() {
        bytes.push(unit_parity(code, s, i, t, j))?;
    }
    Ok(())
}

// Appends block 0 to the parities of all slots, of the image of symbol `i` of slot `s`.
fn push_block(
    bytes: &mut Vec<u8>,
    code: &ByteCode,
    slots: usize,
    s: usize,
    i: usize,
) -> Result<(), NoMemory>
    requires before { bytes.old.items ≡ map (image_entry code.now slots (unit_stream s i)) (range_with_len 0 (slots * code.now.r)) }
    ensures { OnOk result (bytes.new.items ≡ image code.now slots (unit_stream s i)) }
{
    for u in 0..code.k() {
        bytes.push(unit_symbol(s, i, u))?;
    }
    Ok(())
}

// Symbol `u` of block 0 where symbol `i` of slot `s` is one and all else is zero.
fn unit_symbol(s: usize, i: usize, u: usize) -> u8
    ensures { result ≡ unit_stream s i 0 u }
{
    if s == 0 && u == i { 1 } else { 0 }
}

// Parity symbol `j` of slot `t` where symbol `i` of slot `s` is one and all else is zero.
fn unit_parity(code: &ByteCode, s: usize, i: usize, t: usize, j: usize) -> u8
    requires symbol { i < code.now.k }
    requires parity { j < code.now.r }
    ensures { result ≡ parity_at code.now (unit_stream s i) t j }
{
    let memory = code.memory();
    if t < s {
        return 0;
    }
    if memory < t - s {
        return 0;
    }
    code.coefficient(t - s, i, j).number()
}

// Makes the rows of `to` those of `from`, which has as many columns. It takes memory only where `to` has no room for them.
pub(crate) fn copy_rows(to: &mut Matrix<Gf256>, from: &Matrix<Gf256>) -> Result<(), NoMemory>
    requires { to.old.cols ≡ from.now.cols }
    ensures { OnOk result (to.new ≡ from.now) }
{
    from.known();
    to.clear();
    for i in 0..from.rows() {
        to.push_row(from.row(i))?;
    }
    Ok(())
}

// Appends the images of the unit streams of slot `s`. It takes memory only where there is no room for them.
pub(crate) fn push_units(
    rows: &mut Matrix<Gf256>,
    images: &Matrix<Gf256>,
    k: usize,
    s: usize,
) -> Result<(), NoMemory>
    requires cols { images.now.cols ≡ rows.old.cols }
    requires slot { s * k + k ≤ row_count images.now }
    requires slots { s ≤ 41 }
    requires few { row_count rows.old ≤ 2624 }
    requires small { k ≤ 64 }
    requires narrow { rows.old.cols ≤ 2688 }
    ensures cols { OnOk result (rows.new.cols ≡ rows.old.cols) }
    ensures rows { OnOk result (rows.new.rows ≡ rows.old.rows ++ map (λ p. row images.now (s * k + p)) (range_with_len 0 k)) }
{
    for p in 0..k {
        rows.push_row(images.row(s * k + p))?;
    }
    Ok(())
}

// Keeps what the rows span of vectors that are zero in the columns from `from` to `from` + `count` - 1.
pub(crate) fn clear_columns(m: &mut Matrix<Gf256>, from: usize, count: usize)
    requires within { from + count ≤ m.old.cols }
    requires narrow { m.old.cols ≤ 2688 }
    ensures cleared { IsCleared m.old m.new from (from + count) }
    ensures matrix { IsMatrix IsByte m.new }
    ensures fewer { row_count m.new ≤ row_count m.old }
{
    for j in 0..count {
        clear_column(m, from + j);
    }
    m.known();
}

// The same for one column.
fn clear_column(m: &mut Matrix<Gf256>, c: usize)
    requires { c < m.old.cols }
    ensures cleared { IsCleared m.old m.new c (c + 1) }
    ensures fewer { row_count m.new ≤ row_count m.old }
{
    m.known();
    match pivot_row(m, c) {
        None => {}
        Some(p) => {
            let last = m.rows() - 1;
            m.row_swap(p, last);
            clear_rows(m, c, last);
            m.truncate(last);
            m.known();
        }
    }
}

// A row that isn't zero in column `c`.
fn pivot_row(m: &Matrix<Gf256>, c: usize) -> Option<usize>
    requires { c < m.now.cols }
    ensures { MatchOption result ((k : ℕ) → k < row_count m.now → entry 0 m.now k c ≡ 0) (λ p. (p < row_count m.now) × (entry 0 m.now p c ≢ 0)) }
{
    for i in 0..m.rows() {
        if m.get(i, c) != Gf256::zero() {
            return Some(i);
        }
    }
    None
}

// Adds multiples of row `last` to the rows before it, so that they are zero in column `c`.
fn clear_rows(m: &mut Matrix<Gf256>, c: usize, last: usize)
    requires column { c < m.old.cols }
    requires last { last < row_count m.old }
    requires pivot { entry 0 m.old last c ≢ 0 }
    ensures one_space { HaveOneRowSpace IsByte 0 bit_xor gf256_product m.new m.old }
    ensures count { row_count m.new ≡ row_count m.old }
    ensures pivot { entry 0 m.new last c ≢ 0 }
    ensures zeros { (k : ℕ) → k < last → entry 0 m.new k c ≡ 0 }
    ensures matrix { IsMatrix IsByte m.new }
{
    m.known();
    for i in 0..last {
        clear_row(m, i, c, last);
    }
}

// Adds a multiple of row `last` to row `i`, so that it is zero in column `c`.
fn clear_row(m: &mut Matrix<Gf256>, i: usize, c: usize, last: usize)
    requires column { c < m.old.cols }
    requires last { last < row_count m.old }
    requires earlier { i < last }
    requires pivot { entry 0 m.old last c ≢ 0 }
    ensures one_space { HaveOneRowSpace IsByte 0 bit_xor gf256_product m.new m.old }
    ensures count { row_count m.new ≡ row_count m.old }
    ensures zero { entry 0 m.new i c ≡ 0 }
    ensures others { (k : ℕ) → k ≢ i → row m.new k ≡ row m.old k }
    ensures matrix { IsMatrix IsByte m.new }
{
    m.known();
    let number = m.get(i, c);
    if number == Gf256::zero() {
        return;
    }
    let factor = number.mul(m.get(last, c).inv());
    m.row_add(i, factor, last);
    m.known();
}

// Whether each row is zero from column `from` on.
pub(crate) fn are_zero_from(m: &Matrix<Gf256>, from: usize) -> bool
    requires { from ≤ m.now.cols }
    ensures { IsTrue result ↔ ((k c : ℕ) → k < row_count m.now → from ≤ c → c < m.now.cols → entry 0 m.now k c ≡ 0) }
{
    for i in 0..m.rows() {
        if !is_zero_from(m, i, from) {
            return false;
        }
    }
    true
}

// Whether row `i` is zero from column `from` on.
fn is_zero_from(m: &Matrix<Gf256>, i: usize, from: usize) -> bool
    requires row { i < row_count m.now }
    requires column { from ≤ m.now.cols }
    ensures { IsTrue result ↔ ((c : ℕ) → from ≤ c → c < m.now.cols → entry 0 m.now i c ≡ 0) }
{
    for c in from..m.cols() {
        if m.get(i, c) != Gf256::zero() {
            return false;
        }
    }
    true
}
