//! What is known of the columns of symbols: the bytes of those that came, and what equations say of the others.
ghost use Rattle.std.specs.Prelude.{◌≡◌, ◌↔◌, ◌+◌, ◌*◌, ◌<◌, ◌≤◌, ◌++◌, ⊤, ℕ, List, IfOk, MatchOption, All, true, false, length, take, drop, replicate, slice_index_or, slice_set};
ghost use Rattle.sc_field.specs.Gf256.{gf256_product};
ghost use Rattle.sc_field.specs.Scale.{scaled_sum};
ghost use Rattle.sc_matrix.specs.Module.{IsByte};
ghost use Rattle.sc_matrix.specs.Vector.{IsVector};
ghost use Rattle.sc_matrix.specs.Layout.{cut};
ghost use Rattle.sc_echelon.specs.Knowledge.{IsSolution, IsBytes, IsValueAt, IsOpenAt, Forgets};
ghost use Rattle.sc_repair.specs.Equations.{Gives, HasColumns, Learns, Refuses};
ghost use Rattle.sc_repair.specs.Columns.{AreValuesAt, IsColumns, IsFree, IsQuiet, SaysSame, all_known};
ghost use Rattle.sc_repair.specs.Sum.{placed};

use super::sum::ParitySum;
use sc_echelon::{Added, Knowledge, Window, is_zero};
use sc_field::{Field, Gf256, Multiplier, element_of, scale_add};
use sc_outside::NoMemory;
use std::alloc::Global;
use std::marker::Model;

// What is known of columns of byte strings, as of a `Knowledge`. The columns whose bytes came are kept apart, so that nothing
// is cleared by them: an equation is told of the other columns alone.
#[derive(Drop)]
pub(crate) struct Columns {
    known: Knowledge<Gf256>,
    // Whether an equation may say something. While none does, nothing is worked on in `known`.
    told: bool,
    // Whether the bytes of a column came. Then they stand in `bytes`, where all others are zeros.
    whole: Vec<bool>,
    // Whether no equation says anything of a column.
    free: Vec<bool>,
    bytes: Window,
    // Room for a right side.
    sum: Vec<u8>,
    made: Vec<Multiplier<Gf256>>,
}

impl Model for Columns {
    ghost use Rattle.std.specs.Prelude.{ℕ};
    ghost use Rattle.std.specs.Coded.{coded_ℕ};
    ghost use Rattle.sc_echelon.specs.Knowledge.{Knowledge as Known};
    ghost use Rattle.sc_echelon.specs.Kept.{knowledge_code};
    ghost use Rattle.sc_repair.specs.Columns.{all_known, IsRoomyColumns};

    ghost Value = { Known ℕ };

    ghost coded = { knowledge_code coded_ℕ };

    ghost view = { λ s. all_known s.known s.whole.items s.bytes };

    ghost invariant = { λ s. IsRoomyColumns s.known s.told s.whole.items s.free.items s.bytes s.sum.items };
}

impl Columns {
    // Nothing is known of `cols` columns of `width` bytes.
    pub(crate) fn start(alloc: Global, cols: usize, width: usize) -> Result<Columns, NoMemory>
        requires cols { cols ≤ 6615 }
        requires width { 1 ≤ width }
        requires small { cols * width ≤ 67108864 }
        ensures cols { IfOk result (λ k. k.cols ≡ cols) }
        ensures width { IfOk result (λ k. k.width ≡ width) }
        ensures any { IfOk result (λ k. (vs : List (List ℕ)) → IsVector (IsBytes width) cols vs → IsSolution gf256_product k vs) }
    {
        let known = Knowledge::start(alloc, cols, width)?;
        let whole = vec![in alloc; false; cols]?;
        let free = vec![in alloc; true; cols]?;
        let size = cols * width;
        let bytes = Window::zeros(alloc, size, size)?;
        let sum = vec![in alloc; 0; width]?;
        let mut made = vec![in alloc; Multiplier::new(Gf256::zero()); 256]?;
        make_all(made.as_mut_slice());
        Ok(Columns {
            known,
            told: false,
            whole,
            free,
            bytes,
            sum,
            made,
        })
    }

    // Does nothing. Its contract tells a proof that a value in hand has a solution.
    pub(crate) fn known(&self)
        ensures solvable { (vs : List (List ℕ)) × IsSolution gf256_product self.now vs }
        ensures width { 1 ≤ self.now.width }
    {
        self.known.known();
    }

    // Adds an equation, whose coefficients are lost. False exactly where no solution meets it; then nothing else changes.
    pub(crate) fn add_row(&mut self, row: &mut [Gf256], right: &[u8]) -> bool
        requires row { length row.old ≡ self.old.cols }
        requires right { length right.now ≡ self.old.width }
        ensures row { length row.new ≡ length row.old }
        ensures cols { self.new.cols ≡ self.old.cols }
        ensures width { self.new.width ≡ self.old.width }
        ensures learns { result ≡ true → Learns self.old self.new (Gives self.old.width row.old right.now) }
        ensures refuses { result ≡ false → Refuses self.old (Gives self.old.width row.old right.now) }
    {
        let sum = self.sum.as_mut_slice();
        sum.copy_from_slice(right);
        add_rest(
            &mut self.known,
            &mut self.told,
            self.whole.as_slice(),
            self.free.as_mut_slice(),
            self.bytes.as_slice(),
            self.made.as_slice(),
            row,
            sum,
        )
    }

    // Adds the equation of a parity symbol whose columns begin at `first`, with room for a row, which is lost. False exactly
    // where no solution meets it; then nothing else changes.
    pub(crate) fn add_sum(
        &mut self,
        parity: &ParitySum,
        first: usize,
        row: &mut [Gf256],
        right: &[u8],
    ) -> bool
        requires room { first + length parity.now.row ≤ self.old.cols }
        requires parity { parity.now.width ≡ self.old.width }
        requires row { length row.old ≡ self.old.cols }
        requires right { length right.now ≡ self.old.width }
        ensures row { length row.new ≡ length row.old }
        ensures cols { self.new.cols ≡ self.old.cols }
        ensures width { self.new.width ≡ self.old.width }
        ensures learns { result ≡ true → Learns self.old self.new (Gives self.old.width (placed self.old.cols first parity.now.row) right.now) }
        ensures refuses { result ≡ false → Refuses self.old (Gives self.old.width (placed self.old.cols first parity.now.row) right.now) }
    {
        let sum = self.sum.as_mut_slice();
        sum.copy_from_slice(right);
        add_sum(
            &mut self.known,
            &mut self.told,
            self.whole.as_slice(),
            self.free.as_mut_slice(),
            self.bytes.as_slice(),
            parity,
            first,
            row,
            sum,
        )
    }

    // Stores the bytes of a column of which nothing is known. False where something is; then nothing changes.
    pub(crate) fn store(&mut self, col: usize, bytes: &[u8]) -> bool
        requires col { col < self.old.cols }
        requires bytes { length bytes.now ≡ self.old.width }
        ensures cols { self.new.cols ≡ self.old.cols }
        ensures width { self.new.width ≡ self.old.width }
        ensures stores { result ≡ true → Learns self.old self.new (Gives self.old.width (slice_set (replicate self.old.cols 0) col 1) bytes.now) }
        ensures stays { result ≡ false → self.new ≡ self.old }
    {
        if self.whole[col] || !self.free[col] {
            return false;
        }
        let (m, _bytes) = (self.known.width(), self.bytes.len());
        self.whole[col] = true;
        self.bytes.write_at(col * m, bytes);
        true
    }

    // The same of `count` columns from column `first` on, whose bytes stand side by side: it is as if their equations were
    // told one after the other. False where something is known of any of them; then nothing changes.
    pub(crate) fn store_all(&mut self, first: usize, count: usize, bytes: &[u8]) -> bool
        requires cols { first + count ≤ self.old.cols }
        requires bytes { length bytes.now ≡ count * self.old.width }
        ensures cols { self.new.cols ≡ self.old.cols }
        ensures width { self.new.width ≡ self.old.width }
        ensures stores { result ≡ true → Learns self.old self.new (HasColumns self.old.cols self.old.width first count bytes.now) }
        ensures stays { result ≡ false → self.new ≡ self.old }
    {
        if !are_unknown(
            &self.whole[first..first + count],
            &self.free[first..first + count],
        ) {
            return false;
        }
        let (m, _bytes) = (self.known.width(), self.bytes.len());
        set_flags(self.whole.as_mut_slice(), first, count);
        self.bytes.write_at(first * m, bytes);
        true
    }

    // Stores the bytes of the first columns that the equations determine. What is known stays as it is.
    pub(crate) fn settle_all(&mut self, count: usize)
        requires { count ≤ self.old.cols }
        ensures cols { self.new.cols ≡ self.old.cols }
        ensures width { self.new.width ≡ self.old.width }
        ensures same { (vs : List (List ℕ)) → IsSolution gf256_product self.new vs ↔ IsSolution gf256_product self.old vs }
    {
        if !self.told {
            return;
        }
        let mut col = 0;
        while col < count {
            let end = if count - col < 16 { count } else { col + 16 };
            self.settle_part(col, end);
            col = end;
        }
        self.forget_settled();
    }

    // The same of the columns from `first` up to `end`.
    fn settle_part(&mut self, first: usize, end: usize)
        requires order { first ≤ end }
        requires within { end ≤ self.old.cols }
        ensures cols { self.new.cols ≡ self.old.cols }
        ensures width { self.new.width ≡ self.old.width }
        ensures same { (vs : List (List ℕ)) → IsSolution gf256_product self.new vs ↔ IsSolution gf256_product self.old vs }
    {
        if are_settled(&self.whole[first..end], &self.free[first..end]) {
            return;
        }
        for col in first..end {
            self.settle(col);
        }
    }

    // The same of one column.
    fn settle(&mut self, col: usize)
        requires { col < self.old.cols }
        ensures cols { self.new.cols ≡ self.old.cols }
        ensures width { self.new.width ≡ self.old.width }
        ensures same { (vs : List (List ℕ)) → IsSolution gf256_product self.new vs ↔ IsSolution gf256_product self.old vs }
    {
        if self.whole[col] || self.free[col] {
            return;
        }
        self.known.known();
        let (m, _bytes) = (self.known.width(), self.bytes.len());
        if let Some(bytes) = self.known.value_of(col) {
            self.bytes.write_at(col * m, bytes);
            self.whole[col] = true;
        }
    }

    // Forgets the equations once the bytes of each column that they speak of are stored, since they say nothing more then.
    fn forget_settled(&mut self)
        ensures cols { self.new.cols ≡ self.old.cols }
        ensures width { self.new.width ≡ self.old.width }
        ensures same { (vs : List (List ℕ)) → IsSolution gf256_product self.new vs ↔ IsSolution gf256_product self.old vs }
    {
        if !are_settled(self.whole.as_slice(), self.free.as_slice()) {
            return;
        }
        self.known.known();
        let cols = self.known.cols();
        self.known.forget_front(cols);
        set_all(self.free.as_mut_slice());
        self.told = false;
    }

    // The bytes that every solution has at column `col`. None exactly where two solutions differ there.
    pub(crate) fn value_of(&self, col: usize) -> Option<&[u8]>
        requires { col < self.now.cols }
        ensures { MatchOption result (IsOpenAt gf256_product self.now col) (λ bytes. IsValueAt gf256_product self.now col bytes.now) }
    {
        if self.whole[col] {
            let m = self.known.width();
            return Some(&self.bytes.as_slice()[col * m..col * m + m]);
        }
        self.known.value_of(col)
    }

    // The bytes of `count` columns from column `first` on, side by side, if the bytes of all of them are stored.
    pub(crate) fn stored(&self, first: usize, count: usize) -> Option<&[u8]>
        requires { first + count ≤ self.now.cols }
        ensures { MatchOption result ⊤ (λ bytes. AreValuesAt self.now first count bytes.now) }
    {
        if has_off(&self.whole[first..first + count]) {
            return None;
        }
        let m = self.known.width();
        Some(part_of(self.bytes.as_slice(), first, count, m))
    }

    // Forgets the first `count` columns, as a `Knowledge` does.
    pub(crate) fn forget_front(&mut self, count: usize)
        requires { count ≤ self.old.cols }
        ensures cols { self.new.cols ≡ self.old.cols }
        ensures width { self.new.width ≡ self.old.width }
        ensures solutions { Forgets gf256_product count self.old self.new }
    {
        let (m, _bytes) = (self.known.width(), self.bytes.len());
        self.bytes.shift(count * m);
        shift_flags(self.whole.as_mut_slice(), count, false);
        shift_flags(self.free.as_mut_slice(), count, true);
        forget_told(&mut self.known, self.told, count);
        self.told = still_told(&self.known, self.free.as_slice(), self.told);
    }
}

// Writes to each place the multiplier of the element of that number.
fn make_all(made: &mut [Multiplier<Gf256>]) {
    for i in 0..made.len() {
        if i < 256 {
            made[i] = Multiplier::new(element_of(i as u8));
        }
    }
}

// Whether `c` is zero. Then adding `c` times `src` changes nothing.
#[inline(always)]
fn adds_nothing(c: Gf256, sum: &[u8], src: &[u8]) -> bool
    requires { length src.now ≡ length sum.now }
    ensures { result ≡ true → sum.now ≡ scaled_sum (gf256_product c) sum.now src.now }
{
    c.known();
    c == Gf256::zero()
}

// Adds `c` times `src`, by the multiplier that was made for it.
#[inline(always)]
fn add_product(made: &[Multiplier<Gf256>], c: Gf256, sum: &mut [u8], src: &[u8])
    requires { length src.now ≡ length sum.old }
    ensures { sum.new ≡ scaled_sum (gf256_product c) sum.old src.now }
{
    if adds_nothing(c, sum, src) {
        return;
    }
    let place = c.number() as usize;
    if place < made.len() && made[place].coefficient == c {
        made[place].scale_add(sum, src);
    } else {
        scale_add(sum, c, src);
    }
}

// Takes the whole columns out of an equation: what they come to goes to its right side.
fn take_out(
    made: &[Multiplier<Gf256>],
    whole: &[bool],
    bytes: &[u8],
    row: &mut [Gf256],
    sum: &mut [u8],
)
    requires flags { length whole.now ≡ length row.old }
    requires bytes { length bytes.now ≡ length row.old * length sum.old }
    ensures row { length row.new ≡ length row.old }
    ensures sum { length sum.new ≡ length sum.old }
    ensures elements { All IsByte row.old }
    ensures rest { All IsByte row.new }
    ensures out { (c : ℕ) → slice_index_or whole.now c false ≡ true → slice_index_or row.new c 0 ≡ 0 }
    ensures same { SaysSame whole.now (cut (length row.old) (length sum.old) bytes.now) (length sum.old) row.old sum.old row.new sum.new }
{
    let m = sum.len();
    for c in 0..row.len() {
        let x = row[c];
        x.known();
        if whole[c] {
            add_product(made, x, sum, &bytes[c * m..c * m + m]);
            row[c] = Gf256::zero();
        }
    }
}

// Notes that an equation says something of the columns with a coefficient that isn't zero. False where there is none.
fn touch(free: &mut [bool], row: &[Gf256]) -> bool
    requires { length free.old ≡ length row.now }
    ensures count { length free.new ≡ length free.old }
    ensures free { (c : ℕ) → slice_index_or free.new c false ≡ true → (slice_index_or free.old c false ≡ true) × (slice_index_or row.now c 0 ≡ 0) }
    ensures kept { (c : ℕ) → slice_index_or free.old c false ≡ true → slice_index_or row.now c 0 ≡ 0 → slice_index_or free.new c false ≡ true }
    ensures none { result ≡ false → (c : ℕ) → c < length row.now → slice_index_or row.now c 0 ≡ 0 }
{
    let mut touched = false;
    for c in 0..row.len() {
        if row[c] != Gf256::zero() {
            free[c] = false;
            touched = true;
        }
    }
    touched
}

// Adds an equation, of which `sum` is the right side. Both are lost.
fn add_rest(
    known: &mut Knowledge<Gf256>,
    told: &mut bool,
    whole: &[bool],
    free: &mut [bool],
    bytes: &[u8],
    made: &[Multiplier<Gf256>],
    row: &mut [Gf256],
    sum: &mut [u8],
) -> bool
    requires columns { IsColumns known.old whole.now free.old bytes.now }
    requires quiet { told.old ≡ false → IsQuiet known.old }
    requires row { length row.old ≡ known.old.cols }
    requires sum { length sum.old ≡ known.old.width }
    ensures quiet { told.new ≡ false → IsQuiet known.new }
    ensures row { length row.new ≡ length row.old }
    ensures sum { length sum.new ≡ length sum.old }
    ensures free { length free.new ≡ length free.old }
    ensures columns { IsColumns known.new whole.now free.new bytes.now }
    ensures cols { known.new.cols ≡ known.old.cols }
    ensures width { known.new.width ≡ known.old.width }
    ensures learns { result ≡ true → Learns (all_known known.old whole.now bytes.now) (all_known known.new whole.now bytes.now) (Gives known.old.width row.old sum.old) }
    ensures refuses { result ≡ false → Refuses (all_known known.old whole.now bytes.now) (Gives known.old.width row.old sum.old) }
{
    take_out(made, whole, bytes, row, sum);
    add_open(known, told, whole, free, bytes, row, sum)
}

// Adds an equation that says nothing of the whole columns.
fn add_open(
    known: &mut Knowledge<Gf256>,
    told: &mut bool,
    whole: &[bool],
    free: &mut [bool],
    bytes: &[u8],
    row: &[Gf256],
    sum: &[u8],
) -> bool
    requires columns { IsColumns known.old whole.now free.old bytes.now }
    requires quiet { told.old ≡ false → IsQuiet known.old }
    requires row { length row.now ≡ known.old.cols }
    requires sum { length sum.now ≡ known.old.width }
    requires elements { All IsByte row.now }
    requires out { (c : ℕ) → slice_index_or whole.now c false ≡ true → slice_index_or row.now c 0 ≡ 0 }
    ensures quiet { told.new ≡ false → IsQuiet known.new }
    ensures free { length free.new ≡ length free.old }
    ensures columns { IsColumns known.new whole.now free.new bytes.now }
    ensures cols { known.new.cols ≡ known.old.cols }
    ensures width { known.new.width ≡ known.old.width }
    ensures learns { result ≡ true → Learns (all_known known.old whole.now bytes.now) (all_known known.new whole.now bytes.now) (Gives known.old.width row.now sum.now) }
    ensures refuses { result ≡ false → Refuses (all_known known.old whole.now bytes.now) (Gives known.old.width row.now sum.now) }
{
    if !touch(free, row) {
        return is_zero(sum);
    }
    add_touched(known, told, whole, free, bytes, row, sum)
}

// Adds an equation that says nothing of the free columns.
fn add_touched(
    known: &mut Knowledge<Gf256>,
    told: &mut bool,
    whole: &[bool],
    free: &[bool],
    bytes: &[u8],
    row: &[Gf256],
    sum: &[u8],
) -> bool
    requires columns { IsColumns known.old whole.now free.now bytes.now }
    requires quiet { told.old ≡ false → IsQuiet known.old }
    requires row { length row.now ≡ known.old.cols }
    requires sum { length sum.now ≡ known.old.width }
    requires elements { All IsByte row.now }
    requires touched { (c : ℕ) → slice_index_or free.now c false ≡ true → slice_index_or row.now c 0 ≡ 0 }
    ensures quiet { told.new ≡ false → IsQuiet known.new }
    ensures columns { IsColumns known.new whole.now free.now bytes.now }
    ensures cols { known.new.cols ≡ known.old.cols }
    ensures width { known.new.width ≡ known.old.width }
    ensures learns { result ≡ true → Learns (all_known known.old whole.now bytes.now) (all_known known.new whole.now bytes.now) (Gives known.old.width row.now sum.now) }
    ensures refuses { result ≡ false → Refuses (all_known known.old whole.now bytes.now) (Gives known.old.width row.now sum.now) }
{
    *told = true;
    match known.add_row(row, sum) {
        Added::New => true,
        Added::Known => true,
        Added::Clash => false,
    }
}

// The bytes of `count` columns from column `first` on.
fn part_of(bytes: &[u8], first: usize, count: usize, m: usize) -> &[u8]
    requires { first * m + count * m ≤ length bytes.now }
    ensures { result.now ≡ take (count * m) (drop (first * m) bytes.now) }
{
    &bytes[first * m..first * m + count * m]
}

// Adds the equation of a parity symbol whose columns begin at `first`, of which `sum` is the right side, with room for a row. Row
// and sum are lost.
fn add_sum(
    known: &mut Knowledge<Gf256>,
    told: &mut bool,
    whole: &[bool],
    free: &mut [bool],
    bytes: &[u8],
    parity: &ParitySum,
    first: usize,
    row: &mut [Gf256],
    sum: &mut [u8],
) -> bool
    requires columns { IsColumns known.old whole.now free.old bytes.now }
    requires quiet { told.old ≡ false → IsQuiet known.old }
    requires room { first + length parity.now.row ≤ known.old.cols }
    requires parity { parity.now.width ≡ known.old.width }
    requires row { length row.old ≡ known.old.cols }
    requires sum { length sum.old ≡ known.old.width }
    ensures quiet { told.new ≡ false → IsQuiet known.new }
    ensures row { length row.new ≡ length row.old }
    ensures sum { length sum.new ≡ length sum.old }
    ensures free { length free.new ≡ length free.old }
    ensures columns { IsColumns known.new whole.now free.new bytes.now }
    ensures cols { known.new.cols ≡ known.old.cols }
    ensures width { known.new.width ≡ known.old.width }
    ensures learns { result ≡ true → Learns (all_known known.old whole.now bytes.now) (all_known known.new whole.now bytes.now) (Gives known.old.width (placed known.old.cols first parity.now.row) sum.old) }
    ensures refuses { result ≡ false → Refuses (all_known known.old whole.now bytes.now) (Gives known.old.width (placed known.old.cols first parity.now.row) sum.old) }
{
    let (m, count) = (sum.len(), parity.cols());
    parity.add_to(sum, part_of(bytes, first, count, m));
    if parity.is_within(&whole[first..first + count]) {
        return is_zero(sum);
    }
    parity.write_open(row, first, whole);
    parity.touch_open(free, first, whole);
    add_touched(known, told, whole, free, bytes, row, sum)
}

// Moves the flags behind the first `count` to the front, and writes as many behind them.
fn shift_flags(flags: &mut [bool], count: usize, fill: bool)
    requires { count ≤ length flags.old }
    ensures { flags.new ≡ drop count flags.old ++ replicate count fill }
{
    let kept = flags.len() - count;
    flags.copy_within(count.., 0);
    flags[kept..].fill(fill);
}

// Sets the flags of `count` columns from column `first` on.
fn set_flags(flags: &mut [bool], first: usize, count: usize)
    requires { first + count ≤ length flags.old }
    ensures { flags.new ≡ take first flags.old ++ (replicate count true ++ drop (first + count) flags.old) }
{
    flags[first..first + count].fill(true);
}

// Sets all flags.
fn set_all(flags: &mut [bool])
    ensures { flags.new ≡ replicate (length flags.old) true }
{
    flags.fill(true);
}

// Whether no column is whole and each is free.
fn are_unknown(whole: &[bool], free: &[bool]) -> bool
    requires { length free.now ≡ length whole.now }
    ensures yes { result ≡ true → (c : ℕ) → c < length whole.now → (slice_index_or whole.now c false ≡ false) × (slice_index_or free.now c false ≡ true) }
    ensures no { result ≡ false → ((c : ℕ) → c < length whole.now → (slice_index_or whole.now c false ≡ false) × (slice_index_or free.now c false ≡ true)) → ⊥ }
{
    for c in 0..whole.len() {
        if whole[c] || !free[c] {
            return false;
        }
    }
    true
}

// Whether each column is whole or free. All flags are looked at, so that they are taken as vectors.
fn are_settled(whole: &[bool], free: &[bool]) -> bool
    requires { length free.now ≡ length whole.now }
    ensures { result ≡ true → (c : ℕ) → c < length whole.now → slice_index_or whole.now c false ≡ false → slice_index_or free.now c false ≡ true }
{
    let mut all = true;
    for c in 0..whole.len() {
        all &= whole[c] | free[c];
    }
    all
}

// Whether a flag isn't set.
fn has_off(flags: &[bool]) -> bool
    ensures { result ≡ false → (c : ℕ) → c < length flags.now → slice_index_or flags.now c false ≡ true }
{
    for c in 0..flags.len() {
        if !flags[c] {
            return true;
        }
    }
    false
}

// Forgets the first columns of the equations, if one was told.
fn forget_told(known: &mut Knowledge<Gf256>, told: bool, count: usize)
    requires some { 1 ≤ known.old.width }
    requires quiet { told ≡ false → IsQuiet known.old }
    requires count { count ≤ known.old.cols }
    ensures cols { known.new.cols ≡ known.old.cols }
    ensures width { known.new.width ≡ known.old.width }
    ensures solutions { Forgets gf256_product count known.old known.new }
    ensures quiet { told ≡ false → IsQuiet known.new }
{
    if !told || count == 0 {
        return;
    }
    known.forget_front(count);
}

// Whether an equation may still say something.
fn still_told(known: &Knowledge<Gf256>, free: &[bool], told: bool) -> bool
    requires quiet { told ≡ false → IsQuiet known.now }
    requires count { length free.now ≡ known.now.cols }
    requires free { IsFree known.now free.now }
    ensures { result ≡ false → IsQuiet known.now }
{
    known.known();
    told && has_off(free)
}
