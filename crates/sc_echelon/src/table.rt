//! Equations in reduced form: the row whose pivot is column p stands at place p, and a flag says whether there is one.
//!
//! A pivot is the first nonzero coefficient of its row and a one, and every other row has a zero there.
ghost use Rattle.std.specs.Prelude.{◌≡◌, ◌≢◌, ◌+◌, ◌++◌, ◌↔◌, ◌<◌, ◌≤◌, ℕ, IfOk, All, true, false, length, map, drop, replicate, slice_index_or};
ghost use Rattle.sc_echelon.specs.Equation.{IsRow};
ghost use Rattle.sc_echelon.specs.Kept.{known_by, IsKept};
ghost use Rattle.sc_echelon.specs.Storage.{table_of, ChangedBelow, HasOnes, HasRows, IsLoneUnless, IsStored, IsZeroOutside, MovedBelow};
ghost use Rattle.sc_echelon.specs.Steps.{clear_at, cleared, insert, led, reduce};
ghost use Rattle.sc_echelon.specs.Touched.{IsZeroBut};
ghost use Rattle.sc_echelon.specs.Knowledge.{IsBytes, zero_bytes, xor_bytes, act_bytes, Follows, Contradicts, Adds, Forgets};

use crate::equation::Equation;
use crate::knowledge::Added;
use crate::tables::Tables;
use sc_field::Field;
use sc_outside::NoMemory;
use std::alloc::Global;
use std::mem;

// A row for each of `cols` columns, with room for an equation, and to forget `room` columns before one is moved.
pub(crate) fn blank_rows<F: Field>(
    alloc: Global,
    cols: usize,
    room: usize,
    width: usize,
) -> Result<Vec<Equation<F>>, NoMemory>
    requires { cols + room < 18446744073709551616 }
    ensures count { IfOk result (λ rows. length rows.items ≡ cols) }
    ensures widths { IfOk result (λ rows. All (λ r. length r.coeffs ≡ cols) rows.items) }
    ensures rights { IfOk result (λ rows. All (λ r. length r.right ≡ width) rows.items) }
{
    let mut rows = Vec::with_capacity(alloc, cols)?;
    for _k in 0..cols {
        let row = Equation::zeros(alloc, cols, room, width)?;
        rows.push(row)?;
    }
    Ok(rows)
}

// Whether the 16 flags from `at` on are off. Each is looked at, so that they are taken as one vector.
#[inline(always)]
fn are_off(flags: &[bool], at: usize) -> bool
    requires { at + 16 ≤ length flags.now }
    ensures { result ≡ true → (j : ℕ) → at ≤ j → j < at + 16 → slice_index_or flags.now j false ≡ false }
{
    let mut any = false;
    for i in at..at + 16 {
        any |= flags[i];
    }
    !any
}

// A place from `from` on that has flags alone before it that are off: as many sixteens of them are passed over as there are.
#[inline(always)]
fn skip_off(flags: &[bool], from: usize, end: usize) -> usize
    requires order { from ≤ end }
    requires within { end ≤ length flags.now }
    ensures order { from ≤ result }
    ensures within { result ≤ end }
    ensures off { (j : ℕ) → from ≤ j → j < result → slice_index_or flags.now j false ≡ false }
{
    let mut at = from;
    while end - at >= 16 && are_off(flags, at) {
        at += 16;
    }
    at
}

// The first place from `from` on whose flag is on, or `end` where there is none before it.
#[inline(always)]
fn step_to_on(flags: &[bool], from: usize, end: usize) -> usize
    requires order { from ≤ end }
    requires within { end ≤ length flags.now }
    ensures order { from ≤ result }
    ensures within { result ≤ end }
    ensures off { (j : ℕ) → from ≤ j → j < result → slice_index_or flags.now j false ≡ false }
    ensures on { result < end → slice_index_or flags.now result false ≡ true }
{
    let mut at = from;
    while at < end && !flags[at] {
        at += 1;
    }
    at
}

// The same, where it may be far.
fn skip_to_on(flags: &[bool], from: usize, end: usize) -> usize
    requires order { from ≤ end }
    requires within { end ≤ length flags.now }
    ensures order { from ≤ result }
    ensures within { result ≤ end }
    ensures off { (j : ℕ) → from ≤ j → j < result → slice_index_or flags.now j false ≡ false }
    ensures on { result < end → slice_index_or flags.now result false ≡ true }
{
    let first = skip_off(flags, from, end);
    step_to_on(flags, first, end)
}

// The same. The next flag is looked at first, and then the next 16 one by one, since mostly one of them is on.
#[inline(always)]
fn next_on(flags: &[bool], from: usize, end: usize) -> usize
    requires order { from ≤ end }
    requires within { end ≤ length flags.now }
    ensures order { from ≤ result }
    ensures within { result ≤ end }
    ensures off { (j : ℕ) → from ≤ j → j < result → slice_index_or flags.now j false ≡ false }
    ensures on { result < end → slice_index_or flags.now result false ≡ true }
{
    if from < end && flags[from] {
        return from;
    }
    let near = if end - from < 16 { end } else { from + 16 };
    let found = step_to_on(flags, from, near);
    if found < near {
        return found;
    }
    skip_to_on(flags, near, end)
}

// Clears the coefficient of a row at column `p` by a row that has a one there, and nothing else where it is `lone`.
#[inline(always)]
fn clear_by<F: Field>(
    row: &mut Equation<F>,
    p: usize,
    by: &Equation<F>,
    lone: bool,
    tables: &mut Tables<F>,
)
    requires p_in { p < length row.old.coeffs }
    requires coeffs { length row.old.coeffs ≡ length by.now.coeffs }
    requires right { length row.old.right ≡ length by.now.right }
    requires one { slice_index_or by.now.coeffs p F.zero ≡ F.one }
    requires lone { lone ≡ true → IsZeroBut F.zero p by.now.coeffs }
    ensures { row.new ≡ cleared F.zero F.add F.sub F.mul xor_bytes (act_bytes F.act) row.old p by.now }
{
    if lone {
        row.substitute(p, by, tables);
    } else {
        let factor = F::zero().sub(row.coeff(p));
        row.add_multiple(factor, by, tables);
    }
}

// Clears the row at each pivot of the table that `used` and `rows` store. It looks at the columns alone that the row touches.
pub(crate) fn clear_at_pivots<F: Field>(
    work: &mut Equation<F>,
    used: &[bool],
    rows: &[Equation<F>],
    tables: &mut Tables<F>,
)
    requires count { length rows.now ≡ length used.now }
    requires width { length work.old.coeffs ≡ length used.now }
    requires widths { All (λ r. length r.coeffs ≡ length used.now) rows.now }
    requires rights { All (λ r. length r.right ≡ length work.old.right) rows.now }
    requires elements { HasRows F.IsElement (length used.now) (length work.old.right) used.now rows.now }
    requires ones { HasOnes F.zero F.one (table_of used.now rows.now) }
    ensures value { work.new ≡ reduce F.zero F.add F.sub F.mul xor_bytes (act_bytes F.act) (table_of used.now rows.now) (length used.now) work.old }
    ensures width { length work.new.coeffs ≡ length work.old.coeffs }
    ensures right { length work.new.right ≡ length work.old.right }
{
    work.known();
    let mut k = work.from();
    while k < work.end() {
        if used[k] {
            let row = &rows[k];
            clear_by(work, k, row, row.is_lone(k), tables);
        }
        k += 1;
    }
    work.known();
}

// Whether the coefficient at column `p` is zero.
#[inline(always)]
fn is_zero_at<F: Field>(row: &Equation<F>, p: usize) -> bool
    requires { p < length row.now.coeffs }
    ensures { result ≡ true → slice_index_or row.now.coeffs p F.zero ≡ F.zero }
{
    row.coeff(p) == F::zero()
}

// The first row before place `p` whose coefficient at column `p` is not zero, or `p` where there is none. No row but those from
// `first` up to `p` has another coefficient than zero in it. A row that isn't flagged as mixed touches its pivot alone.
fn first_touched<F: Field>(
    rows: &[Equation<F>],
    used: &[bool],
    mixed: &[bool],
    p: usize,
    first: usize,
) -> usize
    requires count { length rows.now ≡ length used.now }
    requires flags { length mixed.now ≡ length used.now }
    requires p_in { p < length used.now }
    requires widths { All (λ r. length r.coeffs ≡ length used.now) rows.now }
    requires order { first ≤ p }
    requires lone { IsLoneUnless F.zero mixed.now (table_of used.now rows.now) }
    requires others { IsZeroOutside F.zero first p p (table_of used.now rows.now) }
    ensures order { first ≤ result }
    ensures within { result ≤ p }
    ensures others { IsZeroOutside F.zero result p p (table_of used.now rows.now) }
{
    let mut k = next_on(mixed, first, p);
    while k < p && is_zero_at(&rows[k], p) {
        k = next_on(mixed, k + 1, p);
    }
    k
}

// Clears column `p` in the rows in use, by a row that has a one there. No row but those from `first` up to `end` has another
// coefficient than zero in it.
fn clear_column<F: Field>(
    rows: &mut [Equation<F>],
    used: &[bool],
    p: usize,
    first: usize,
    end: usize,
    by: &Equation<F>,
    tables: &mut Tables<F>,
)
    requires count { length rows.old ≡ length used.now }
    requires p_in { p < length by.now.coeffs }
    requires widths { All (λ r. length r.coeffs ≡ length by.now.coeffs) rows.old }
    requires rights { All (λ r. length r.right ≡ length by.now.right) rows.old }
    requires one { slice_index_or by.now.coeffs p F.zero ≡ F.one }
    requires order { first ≤ end }
    requires range { end ≤ length used.now }
    requires elements { HasRows F.IsElement (length by.now.coeffs) (length by.now.right) used.now rows.old }
    requires others { IsZeroOutside F.zero first end p (table_of used.now rows.old) }
    ensures cleared { ChangedBelow (clear_at F.zero F.add F.sub F.mul xor_bytes (act_bytes F.act) p by.now) used.now rows.old (length used.now) rows.new }
    ensures widths { All (λ r. length r.coeffs ≡ length by.now.coeffs) rows.new }
    ensures rights { All (λ r. length r.right ≡ length by.now.right) rows.new }
{
    by.known();
    let lone = by.is_lone(p);
    let mut k = next_on(used, first, end);
    while k < end {
        clear_by(&mut rows[k], p, by, lone, tables);
        k = next_on(used, k + 1, end);
    }
}

// Scales the work row to a one at column `p`, clears that column in the rows in use, and puts the row there. No row but those
// from `first` up to `end` has another coefficient than zero in it.
pub(crate) fn insert_row<F: Field>(
    rows: &mut [Equation<F>],
    used: &mut [bool],
    work: &mut Equation<F>,
    p: usize,
    first: usize,
    end: usize,
    tables: &mut Tables<F>,
)
    requires count { length rows.old ≡ length used.old }
    requires p_in { p < length used.old }
    requires width { length work.old.coeffs ≡ length used.old }
    requires lead { slice_index_or work.old.coeffs p F.zero ≢ F.zero }
    requires widths { All (λ r. length r.coeffs ≡ length work.old.coeffs) rows.old }
    requires rights { All (λ r. length r.right ≡ length work.old.right) rows.old }
    requires order { first ≤ end }
    requires range { end ≤ length used.old }
    requires elements { HasRows F.IsElement (length work.old.coeffs) (length work.old.right) used.old rows.old }
    requires others { IsZeroOutside F.zero first end p (table_of used.old rows.old) }
    ensures table { table_of used.new rows.new ≡ insert F.zero F.add F.sub F.mul xor_bytes (act_bytes F.act) p
        (led F.zero F.mul F.inv (act_bytes F.act) p work.old) (table_of used.old rows.old) }
    ensures count { length rows.new ≡ length used.new }
    ensures flags { length used.new ≡ length used.old }
    ensures widths { All (λ r. length r.coeffs ≡ length work.old.coeffs) rows.new }
    ensures rights { All (λ r. length r.right ≡ length work.old.right) rows.new }
    ensures work_width { length work.new.coeffs ≡ length work.old.coeffs }
    ensures work_right { length work.new.right ≡ length work.old.right }
{
    work.known();
    let lead = work.coeff(p);
    work.multiply(lead.inv(), tables);
    clear_column(rows, used, p, first, end, work, tables);
    mem::swap(&mut rows[p], work);
    used[p] = true;
}

// Adds the equation in the work row to the table. No row in use touches a column that lies `reach` or more behind its pivot, and
// none that isn't flagged as mixed touches another column than its pivot.
pub(crate) fn add_work<F: Field>(
    rows: &mut [Equation<F>],
    used: &mut [bool],
    mixed: &mut [bool],
    work: &mut Equation<F>,
    width: usize,
    reach: &mut usize,
    tables: &mut Tables<F>,
) -> Added
    requires stored { IsStored F.IsElement F.zero F.one width reach.old mixed.old used.old rows.old work.old }
    requires row { IsRow F.IsElement (IsBytes width) (length used.old) work.old }
    ensures stored { IsStored F.IsElement F.zero F.one width reach.new mixed.new used.new rows.new work.new }
    ensures flags { length used.new ≡ length used.old }
    ensures known { result ≡ Added.Known ↔ Follows F.act (known_by (length used.old) width (table_of used.old rows.old)) work.old }
    ensures clash { result ≡ Added.Clash ↔ Contradicts F.act (known_by (length used.old) width (table_of used.old rows.old)) work.old }
    ensures adds { result ≡ Added.New → Adds F.act (known_by (length used.old) width (table_of used.old rows.old)) work.old
        (known_by (length used.old) width (table_of used.new rows.new)) }
    ensures stays { result ≢ Added.New → table_of used.new rows.new ≡ table_of used.old rows.old }
{
    clear_at_pivots(work, used, rows, tables);
    match work.first_nonzero() {
        Some(p) => {
            let end = work.end();
            let low = first_touched(rows, used, mixed, p, p.saturating_sub(*reach));
            insert_row(rows, used, work, p, low, p, tables);
            mixed[p] = p + 1 < rows[p].end();
            *reach = (*reach).max(end.saturating_sub(low));
            Added::New
        }
        None => {
            if work.is_zero_right() {
                Added::Known
            } else {
                Added::Clash
            }
        }
    }
}

// Moves the rows in use that stand at place `count` or behind it so many places to the front, and with each its coefficients.
fn move_rows<F: Field>(rows: &mut [Equation<F>], used: &[bool], count: usize)
    requires size { length rows.old ≡ length used.now }
    requires fits { count ≤ length used.now }
    requires widths { All (λ r. length r.coeffs ≡ length used.now) rows.old }
    ensures moved { MovedBelow F.zero count used.now rows.old (length used.now) rows.new }
    ensures widths { All (λ r. length r.coeffs ≡ length used.now) rows.new }
    ensures rights { (w : ℕ) → All (λ r. length r.right ≡ w) rows.old → All (λ r. length r.right ≡ w) rows.new }
{
    let mut k = next_on(used, count, used.len());
    while k < used.len() {
        rows[k].shift(count);
        rows.swap(k - count, k);
        k = next_on(used, k + 1, used.len());
    }
}

// Moves the flags behind the first `count` to the front. Behind them all are off.
fn shift_flags(flags: &mut [bool], count: usize)
    requires { count ≤ length flags.old }
    ensures { flags.new ≡ drop count flags.old ++ replicate count false }
{
    let kept = flags.len() - count;
    flags.copy_within(count.., 0);
    flags[kept..].fill(false);
}

// Forgets the first `count` columns of what is stored.
pub(crate) fn forget_rows<F: Field>(
    rows: &mut [Equation<F>],
    used: &mut [bool],
    mixed: &mut [bool],
    work: &Equation<F>,
    width: usize,
    reach: usize,
    count: usize,
)
    requires stored { IsStored F.IsElement F.zero F.one width reach mixed.old used.old rows.old work.now }
    requires fits { count ≤ length used.old }
    ensures stored { IsStored F.IsElement F.zero F.one width reach mixed.new used.new rows.new work.now }
    ensures flags { length used.new ≡ length used.old }
    ensures solutions { Forgets F.act count (known_by (length used.old) width (table_of used.old rows.old))
        (known_by (length used.old) width (table_of used.new rows.new)) }
{
    move_rows(rows, used, count);
    shift_flags(used, count);
    shift_flags(mixed, count);
}
