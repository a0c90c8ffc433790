//! The equations of a taken slot: the symbols of its block, and its parity as sums over the kept blocks.
ghost use Rattle.std.specs.Prelude.{◌≡◌, ◌+◌, ◌-◌, ◌*◌, ◌<◌, ◌≤◌, ℕ, List, [], IfOk, true, false, length, replicate, map, slice_index_or, slice_set, nat_le, if◌then◌else◌};
ghost use Rattle.std.specs.List.{range_with_len};
ghost use Rattle.sc_field.specs.Gf256.{gf256_product};
ghost use Rattle.sc_matrix.specs.Layout.{cut};
ghost use Rattle.sc_code.specs.Code.{Code as CodeOf, IsCode, coefficient};
ghost use Rattle.sc_echelon.specs.Knowledge.{IsSolution};
ghost use Rattle.sc_slots.specs.Rows.{symbol_row, parity_row};
ghost use Rattle.sc_repair.specs.Sum.{AreSums, own_sum};
ghost use Rattle.sc_repair.specs.Equations.{AreOpenFrom, FindsLeft, Gives, HasParities, HasSymbols, IsBlockAt, IsOpenPlace, Learns, LearnsSlot, Refuses, RefusesSlot};

use super::columns::Columns;
use super::sum::ParitySum;
use sc_code::ByteCode;
use sc_field::{Field, Gf256};
use sc_outside::NoMemory;
use std::alloc::Global;

// Makes all coefficients zero.
pub(crate) fn clear_row(row: &mut [Gf256])
    ensures { row.new ≡ replicate (length row.old) 0 }
{
    for c in 0..row.len() {
        row[c] = Gf256::zero();
    }
}

// Adds that a column has these bytes. False exactly where no solution has them.
fn learn_symbol(known: &mut Columns, row: &mut [Gf256], col: usize, bytes: &[u8]) -> bool
    requires col { col < known.old.cols }
    requires row { length row.old ≡ known.old.cols }
    requires bytes { length bytes.now ≡ known.old.width }
    ensures row { length row.new ≡ length row.old }
    ensures cols { known.new.cols ≡ known.old.cols }
    ensures width { known.new.width ≡ known.old.width }
    ensures learns { result ≡ true → Learns known.old known.new (Gives known.old.width (slice_set (replicate known.old.cols 0) col 1) bytes.now) }
    ensures refuses { result ≡ false → Refuses known.old (Gives known.old.width (slice_set (replicate known.old.cols 0) col 1) bytes.now) }
{
    if known.store(col, bytes) {
        return true;
    }
    clear_row(row);
    row[col] = Gf256::one();
    known.add_row(row, bytes)
}

// Adds the symbols of the block at a place of `places`. False where some symbol contradicts what is known.
pub(crate) fn learn_block(
    known: &mut Columns,
    row: &mut [Gf256],
    k: usize,
    m: usize,
    places: usize,
    place: usize,
    block: &[u8],
) -> bool
    requires symbols { k ≤ 64 }
    requires small { places ≤ 105 }
    requires place { place < places }
    requires cols { known.old.cols ≡ places * k }
    requires width { known.old.width ≡ m }
    requires row { length row.old ≡ places * k }
    requires block { length block.now ≡ k * m }
    requires bytes { k * m ≤ 65503 }
    ensures cols { known.new.cols ≡ known.old.cols }
    ensures width { known.new.width ≡ known.old.width }
    ensures row { length row.new ≡ length row.old }
    ensures learns { result ≡ true → Learns known.old known.new (HasSymbols k m places place k block.now) }
    ensures refuses { result ≡ false → Refuses known.old (HasSymbols k m places place k block.now) }
{
    if known.store_all(place * k, k, block) {
        return true;
    }
    for i in 0..k {
        if !learn_symbol(known, row, place * k + i, &block[i * m..i * m + m]) {
            return false;
        }
    }
    true
}

// What symbol `s` of the block at place `p` gives to parity symbol `j` of the slot at a place.
fn entry_at(code: &ByteCode, place: usize, j: usize, p: usize, s: usize) -> Gf256
    requires parity { j < code.now.r }
    requires symbol { s < code.now.k }
    ensures { result ≡ (if nat_le p place then coefficient 0 code.now (place - p) s j else 0) }
{
    if p > place || place - p > code.memory() {
        return Gf256::zero();
    }
    code.coefficient(place - p, s, j)
}

// Writes what the block at place `p` gives to parity symbol `j` of the slot at a place. The coefficients before it stay.
fn write_place(row: &mut [Gf256], code: &ByteCode, place: usize, j: usize, p: usize)
    requires parity { j < code.now.r }
    requires room { p * code.now.k + code.now.k ≤ length row.old }
    ensures row { length row.new ≡ length row.old }
    ensures before { (c : ℕ) → c < p * code.now.k → slice_index_or row.new c 0 ≡ slice_index_or row.old c 0 }
    ensures here { (s : ℕ) → s < code.now.k → slice_index_or row.new (p * code.now.k + s) 0 ≡ (if nat_le p place then coefficient 0 code.now (place - p) s j else 0) }
{
    let first = p * code.k();
    for s in 0..code.k() {
        row[first + s] = entry_at(code, place, j, p, s);
    }
}

// Writes the coefficients of parity symbol `j` of the slot at a place of `places`.
fn write_parity_row(row: &mut [Gf256], code: &ByteCode, places: usize, place: usize, j: usize)
    requires parity { j < code.now.r }
    requires row { length row.old ≡ places * code.now.k }
    ensures { row.new ≡ parity_row 0 1 code.now places place j }
{
    for p in 0..places {
        write_place(row, code, place, j, p);
    }
}

// Adds the parity of the slot at a place of `places`. False where some symbol of it contradicts what is known.
pub(crate) fn learn_parity(
    known: &mut Columns,
    row: &mut [Gf256],
    code: &ByteCode,
    m: usize,
    places: usize,
    place: usize,
    parity: &[u8],
) -> bool
    requires place { place < places }
    requires cols { known.old.cols ≡ places * code.now.k }
    requires width { known.old.width ≡ m }
    requires row { length row.old ≡ places * code.now.k }
    requires parity { length parity.now ≡ code.now.r * m }
    ensures cols { known.new.cols ≡ known.old.cols }
    ensures width { known.new.width ≡ known.old.width }
    ensures row { length row.new ≡ length row.old }
    ensures learns { result ≡ true → Learns known.old known.new (HasParities code.now m places place code.now.r parity.now) }
    ensures refuses { result ≡ false → Refuses known.old (HasParities code.now m places place code.now.r parity.now) }
{
    for j in 0..code.r() {
        write_parity_row(row, code, places, place, j);
        if !known.add_row(row, &parity[j * m..j * m + m]) {
            return false;
        }
    }
    true
}

// The sum of parity symbol `j` of a code.
fn sum_of(alloc: Global, code: &ByteCode, m: usize, j: usize) -> Result<ParitySum, NoMemory>
    requires parity { j < code.now.r }
    requires small { code.now.k * m ≤ 65503 }
    ensures { IfOk result (λ s. s ≡ own_sum code.now m j) }
{
    let lags = code.memory() + 1;
    let mut row = vec![in alloc; Gf256::zero(); lags * code.k()]?;
    write_parity_row(row.as_mut_slice(), code, lags, lags - 1, j);
    ParitySum::of(alloc, row, m)
}

// The sum of each parity symbol of a code.
pub(crate) fn sums_of(alloc: Global, code: &ByteCode, m: usize) -> Result<Vec<ParitySum>, NoMemory>
    requires { code.now.k * m ≤ 65503 }
    ensures { IfOk result (λ v. AreSums code.now m code.now.r v.items) }
{
    let mut sums = Vec::with_capacity(alloc, code.r())?;
    for j in 0..code.r() {
        let sum = sum_of(alloc, code, m, j)?;
        sums.push(sum)?;
    }
    Ok(sums)
}

// Adds the parity of the slot at a place of `places`, by the sums of the code, where all blocks that it reaches have a place.
fn learn_sums(
    known: &mut Columns,
    row: &mut [Gf256],
    code: &ByteCode,
    sums: &[ParitySum],
    m: usize,
    places: usize,
    place: usize,
    parity: &[u8],
) -> bool
    requires place { place < places }
    requires reaches { length code.now.lags ≤ place + 1 }
    requires sums { AreSums code.now m code.now.r sums.now }
    requires cols { known.old.cols ≡ places * code.now.k }
    requires width { known.old.width ≡ m }
    requires row { length row.old ≡ places * code.now.k }
    requires parity { length parity.now ≡ code.now.r * m }
    ensures cols { known.new.cols ≡ known.old.cols }
    ensures width { known.new.width ≡ known.old.width }
    ensures row { length row.new ≡ length row.old }
    ensures learns { result ≡ true → Learns known.old known.new (HasParities code.now m places place code.now.r parity.now) }
    ensures refuses { result ≡ false → Refuses known.old (HasParities code.now m places place code.now.r parity.now) }
{
    for j in 0..code.r() {
        if !learn_sum(known, row, code, sums, m, places, place, j, parity) {
            return false;
        }
    }
    true
}

// Adds parity symbol `j` of it.
fn learn_sum(
    known: &mut Columns,
    row: &mut [Gf256],
    code: &ByteCode,
    sums: &[ParitySum],
    m: usize,
    places: usize,
    place: usize,
    j: usize,
    parity: &[u8],
) -> bool
    requires place { place < places }
    requires reaches { length code.now.lags ≤ place + 1 }
    requires sums { AreSums code.now m code.now.r sums.now }
    requires symbol { j < code.now.r }
    requires cols { known.old.cols ≡ places * code.now.k }
    requires width { known.old.width ≡ m }
    requires row { length row.old ≡ places * code.now.k }
    requires parity { length parity.now ≡ code.now.r * m }
    ensures cols { known.new.cols ≡ known.old.cols }
    ensures width { known.new.width ≡ known.old.width }
    ensures row { length row.new ≡ length row.old }
    ensures learns { result ≡ true → Learns known.old known.new (Gives m (parity_row 0 1 code.now places place j) (slice_index_or (cut code.now.r m parity.now) j [])) }
    ensures refuses { result ≡ false → Refuses known.old (Gives m (parity_row 0 1 code.now places place j) (slice_index_or (cut code.now.r m parity.now) j [])) }
{
    let first = (place - code.memory()) * code.k();
    known.add_sum(&sums[j], first, row, &parity[j * m..j * m + m])
}

// Adds the parity of the slot at a place of `places`, by the sums of the code where they can be used.
fn learn_own_parity(
    known: &mut Columns,
    row: &mut [Gf256],
    code: &ByteCode,
    sums: &[ParitySum],
    m: usize,
    places: usize,
    place: usize,
    parity: &[u8],
) -> bool
    requires place { place < places }
    requires sums { AreSums code.now m code.now.r sums.now }
    requires cols { known.old.cols ≡ places * code.now.k }
    requires width { known.old.width ≡ m }
    requires row { length row.old ≡ places * code.now.k }
    requires parity { length parity.now ≡ code.now.r * m }
    ensures cols { known.new.cols ≡ known.old.cols }
    ensures width { known.new.width ≡ known.old.width }
    ensures row { length row.new ≡ length row.old }
    ensures learns { result ≡ true → Learns known.old known.new (HasParities code.now m places place code.now.r parity.now) }
    ensures refuses { result ≡ false → Refuses known.old (HasParities code.now m places place code.now.r parity.now) }
{
    if code.memory() <= place {
        learn_sums(known, row, code, sums, m, places, place, parity)
    } else {
        learn_parity(known, row, code, m, places, place, parity)
    }
}

// The same, and what is determined then is stored.
fn learn_and_settle(
    known: &mut Columns,
    row: &mut [Gf256],
    code: &ByteCode,
    sums: &[ParitySum],
    m: usize,
    places: usize,
    place: usize,
    parity: &[u8],
) -> bool
    requires place { place < places }
    requires sums { AreSums code.now m code.now.r sums.now }
    requires cols { known.old.cols ≡ places * code.now.k }
    requires width { known.old.width ≡ m }
    requires row { length row.old ≡ places * code.now.k }
    requires parity { length parity.now ≡ code.now.r * m }
    ensures cols { known.new.cols ≡ known.old.cols }
    ensures width { known.new.width ≡ known.old.width }
    ensures row { length row.new ≡ length row.old }
    ensures learns { result ≡ true → Learns known.old known.new (HasParities code.now m places place code.now.r parity.now) }
    ensures refuses { result ≡ false → Refuses known.old (HasParities code.now m places place code.now.r parity.now) }
{
    if !learn_own_parity(known, row, code, sums, m, places, place, parity) {
        return false;
    }
    known.settle_all(row.len());
    true
}

// Adds the equations of the slot at a place of `places`, as `learn_slot`, by the sums of the code.
pub(crate) fn learn_own(
    known: &mut Columns,
    row: &mut [Gf256],
    code: &ByteCode,
    sums: &[ParitySum],
    m: usize,
    places: usize,
    place: usize,
    block: &[u8],
    parity: &[u8],
) -> bool
    requires small { places ≤ 105 }
    requires place { place < places }
    requires bytes { code.now.k * m ≤ 65503 }
    requires sums { AreSums code.now m code.now.r sums.now }
    requires cols { known.old.cols ≡ places * code.now.k }
    requires width { known.old.width ≡ m }
    requires row { length row.old ≡ places * code.now.k }
    requires block { length block.now ≡ code.now.k * m }
    requires parity { length parity.now ≡ code.now.r * m }
    ensures cols { known.new.cols ≡ known.old.cols }
    ensures width { known.new.width ≡ known.old.width }
    ensures row { length row.new ≡ length row.old }
    ensures code { IsCode (λ x. x < 256) code.now }
    ensures learns { result ≡ true → LearnsSlot known.old known.new code.now m places place block.now parity.now }
    ensures refuses { result ≡ false → RefusesSlot known.old code.now m places place block.now parity.now }
    ensures solvable { (symbols : List (List ℕ)) × IsSolution gf256_product known.new symbols }
{
    let fits = learn_block(known, row, code.k(), m, places, place, block)
        && learn_and_settle(known, row, code, sums, m, places, place, parity);
    known.known();
    fits
}

// Writes the block at a place. False exactly where two solutions differ in a symbol of it.
pub(crate) fn read_block(
    known: &Columns,
    k: usize,
    m: usize,
    place: usize,
    block: &mut [u8],
) -> bool
    requires symbols { k ≤ 64 }
    requires place { place < 105 }
    requires bytes { k * m ≤ 65503 }
    requires cols { place * k + k ≤ known.now.cols }
    requires width { known.now.width ≡ m }
    requires block { length block.old ≡ k * m }
    ensures block { length block.new ≡ length block.old }
    ensures known { result ≡ true → IsBlockAt known.now k m block.new place }
    ensures unknown { result ≡ false → IsOpenPlace known.now k place }
{
    known.known();
    if let Some(bytes) = known.stored(place * k, k) {
        block.copy_from_slice(bytes);
        return true;
    }
    for i in 0..k {
        match known.value_of(place * k + i) {
            None => return false,
            Some(bytes) => block[i * m..i * m + m].copy_from_slice(bytes),
        }
    }
    true
}

// Adds the equations of the slot at a place of `places`. False where no solution meets all of them; then some may have been
// added.
pub(crate) fn learn_slot(
    known: &mut Columns,
    row: &mut [Gf256],
    code: &ByteCode,
    m: usize,
    places: usize,
    place: usize,
    block: &[u8],
    parity: &[u8],
) -> bool
    requires small { places ≤ 105 }
    requires place { place < places }
    requires bytes { code.now.k * m ≤ 65503 }
    requires cols { known.old.cols ≡ places * code.now.k }
    requires width { known.old.width ≡ m }
    requires row { length row.old ≡ places * code.now.k }
    requires block { length block.now ≡ code.now.k * m }
    requires parity { length parity.now ≡ code.now.r * m }
    ensures cols { known.new.cols ≡ known.old.cols }
    ensures width { known.new.width ≡ known.old.width }
    ensures row { length row.new ≡ length row.old }
    ensures code { IsCode (λ x. x < 256) code.now }
    ensures learns { result ≡ true → LearnsSlot known.old known.new code.now m places place block.now parity.now }
    ensures refuses { result ≡ false → RefusesSlot known.old code.now m places place block.now parity.now }
    ensures solvable { (symbols : List (List ℕ)) × IsSolution gf256_product known.new symbols }
{
    let fits = learn_block(known, row, code.k(), m, places, place, block)
        && learn_parity(known, row, code, m, places, place, parity);
    known.known();
    fits
}

// Of the slots from `from` up to `to`, the first whose block is known, which is written, or that lies below the end.
pub(crate) fn find_left(
    known: &Columns,
    k: usize,
    m: usize,
    front: u32,
    end: u32,
    from: u32,
    to: u32,
    block: &mut [u8],
) -> Option<(u32, bool)>
    requires symbols { k ≤ 64 }
    requires front { front ≤ from }
    requires places { to < front + 105 }
    requires bytes { k * m ≤ 65503 }
    requires cols { (to - front) * k ≤ known.now.cols }
    requires width { known.now.width ≡ m }
    requires block { length block.old ≡ k * m }
    ensures block { length block.new ≡ length block.old }
    ensures found { FindsLeft known.now k m front end from to block.new result }
{
    for slot in from..to {
        let place = (slot - front) as usize;
        if read_block(known, k, m, place, block) {
            return Some((slot, true));
        }
        if slot < end {
            return Some((slot, false));
        }
    }
    None
}
