//! Bytes that are forgotten in front and come behind, and are seldom moved.
ghost use Rattle.std.specs.Prelude.{◌≡◌, ◌+◌, ◌-◌, ◌++◌, ◌<◌, ◌≤◌, ℕ, IfOk, All, length, map, take, drop, replicate, slice_set};
ghost use borrow.Rule.Slice.PartMut.{put_mid};
ghost use Rattle.sc_field.specs.Scale.{scaled_sum};
ghost use Rattle.sc_echelon.specs.Touched.{IsTouched};

use sc_field::{Field, Multiplier};
use sc_outside::NoMemory;
use std::alloc::Global;
use std::marker::Model;

/// So many bytes. They stand in a longer buffer, behind those that were forgotten, and behind them stand zeros.
#[derive(Drop)]
pub struct Window {
    count: usize,
    from: usize,
    bytes: Vec<u8>,
}

impl Model for Window {
    ghost use Rattle.std.specs.Prelude.{ℕ, List, take, drop};
    ghost use Rattle.std.specs.Coded.{coded_ℕ, coded_list};
    ghost use Rattle.sc_echelon.specs.Window.{IsWindow};

    ghost Value = { List ℕ };

    ghost coded = { coded_list coded_ℕ };

    ghost view = { λ w. take w.count (drop w.from w.bytes.items) };

    ghost invariant = { λ w. IsWindow w.count w.from w.bytes.items };
}

impl Window {
    /// `count` zeros, in a buffer with so much room that `room` of them can be forgotten before the others are moved.
    pub fn zeros(alloc: Global, count: usize, room: usize) -> Result<Window, NoMemory>
        requires { count + room < 18446744073709551616 }
        ensures { IfOk result (λ w. w ≡ replicate count 0) }
    {
        let bytes = vec![in alloc; 0; count + room]?;
        Ok(Window {
            count,
            from: 0,
            bytes,
        })
    }

    /// The bytes.
    pub fn as_slice(&self) -> &[u8]
        ensures { result.now ≡ self.now }
    {
        &self.bytes.as_slice()[self.from..self.from + self.count]
    }

    /// How many bytes they are.
    pub fn len(&self) -> usize
        ensures { result ≡ length self.now }
    {
        self.count
    }

    /// Writes some bytes at a place.
    pub fn write_at(&mut self, at: usize, src: &[u8])
        requires { at + length src.now ≤ length self.old }
        ensures { self.new ≡ put_mid at (length src.now) self.old src.now }
    {
        write_at(self.bytes.as_mut_slice(), self.from + at, src);
    }

    // Writes a zero at a place.
    #[inline(always)]
    pub(crate) fn clear(&mut self, at: usize)
        requires { at < length self.old }
        ensures { self.new ≡ slice_set self.old at 0 }
    {
        let place = self.from + at;
        self.bytes[place] = 0;
    }

    /// Forgets the first bytes, and has as many zeros behind.
    ///
    /// It moves a number. Only where the buffer has no more room it moves the bytes that are left.
    pub fn shift(&mut self, count: usize)
        requires { count ≤ length self.old }
        ensures { self.new ≡ drop count self.old ++ replicate count 0 }
    {
        let from = self.from + count;
        if from <= self.bytes.len() - self.count {
            self.from = from;
        } else {
            shift_down(self.bytes.as_mut_slice(), from);
            self.from = 0;
        }
    }

    // Writes the numbers of as many elements.
    pub(crate) fn write_numbers<F: Field>(&mut self, xs: &[F])
        requires { length xs.now ≡ length self.old }
        ensures value { self.new ≡ map F.number xs.now }
        ensures elements { All F.IsElement xs.now }
    {
        write_numbers(self.bytes.as_mut_slice(), self.from, xs);
    }

    // Adds a multiple of as many bytes, which are zero but for those from `from` up to `end`, and as many times some other bytes
    // to a right side.
    #[inline(always)]
    pub(crate) fn add_between<F: Field>(
        &mut self,
        by: &Multiplier<F>,
        src: &[u8],
        from: usize,
        end: usize,
        right: &mut [u8],
        other: &[u8],
    )
        requires size { length src.now ≡ length self.old }
        requires touched { IsTouched from end src.now }
        requires right { length other.now ≡ length right.old }
        ensures value { self.new ≡ scaled_sum (F.act by.now.coefficient) self.old src.now }
        ensures right { right.new ≡ scaled_sum (F.act by.now.coefficient) right.old other.now }
    {
        by.coefficient.known();
        let first = whole_from(from, src.len());
        let last = whole_end(first, end, src.len());
        add_part(
            by,
            self.bytes.as_mut_slice(),
            self.from + first,
            &src[first..last],
            right,
            other,
        );
    }

    // Multiplies the bytes, which are zero but for those from `from` up to `end`.
    pub(crate) fn scale_between<F: Field>(&mut self, by: &Multiplier<F>, from: usize, end: usize)
        requires { IsTouched from end self.old }
        ensures { self.new ≡ map (F.act by.now.coefficient) self.old }
    {
        by.coefficient.known();
        scale_part(by, self.bytes.as_mut_slice(), self.from + from, end - from);
    }
}

// Writes some bytes at a place.
fn write_at(bytes: &mut [u8], at: usize, src: &[u8])
    requires { at + length src.now ≤ length bytes.old }
    ensures { bytes.new ≡ put_mid at (length src.now) bytes.old src.now }
{
    let end = at + src.len();
    bytes[at..end].copy_from_slice(src);
}

// Where to begin, so that there are 16 places of `count` from there on, if there are so many: a whole vector is added faster
// than a part of it.
#[inline(always)]
fn whole_from(from: usize, count: usize) -> usize
    ensures { result ≤ from }
{
    from.min(count.saturating_sub(16))
}

// Where to end, so that the places from `from` on are 16 at least, if there are so many.
#[inline(always)]
fn whole_end(from: usize, end: usize, count: usize) -> usize
    requires order { from ≤ end }
    requires within { end ≤ count }
    ensures order { end ≤ result }
    ensures within { result ≤ count }
{
    end.max(from + (count - from).min(16))
}

// Adds a multiple of some bytes to as many at a place, and as many times some other bytes to a right side.
#[inline(always)]
fn add_part<F: Field>(
    by: &Multiplier<F>,
    bytes: &mut [u8],
    at: usize,
    src: &[u8],
    right: &mut [u8],
    other: &[u8],
)
    requires room { at + length src.now ≤ length bytes.old }
    requires right { length other.now ≡ length right.old }
    ensures value { bytes.new ≡ put_mid at (length src.now) bytes.old
        (scaled_sum (F.act by.now.coefficient) (take (length src.now) (drop at bytes.old)) src.now) }
    ensures right { right.new ≡ scaled_sum (F.act by.now.coefficient) right.old other.now }
{
    let end = at + src.len();
    if right.is_empty() {
        by.scale_add(&mut bytes[at..end], src);
    } else {
        by.scale_add_both(&mut bytes[at..end], src, right, other);
    }
}

// Multiplies some bytes at a place.
fn scale_part<F: Field>(by: &Multiplier<F>, bytes: &mut [u8], at: usize, count: usize)
    requires { at + count ≤ length bytes.old }
    ensures { bytes.new ≡ put_mid at count bytes.old (map (F.act by.now.coefficient) (take count (drop at bytes.old))) }
{
    by.scale(&mut bytes[at..at + count]);
}

// Writes the numbers of elements at a place.
fn write_numbers<F: Field>(bytes: &mut [u8], at: usize, xs: &[F])
    requires { at + length xs.now ≤ length bytes.old }
    ensures value { bytes.new ≡ put_mid at (length xs.now) bytes.old (map F.number xs.now) }
    ensures elements { All F.IsElement xs.now }
{
    let end = at + xs.len();
    number_all(&mut bytes[at..end], xs);
}

// Writes the numbers of the elements.
fn number_all<F: Field>(numbers: &mut [u8], xs: &[F])
    requires { length numbers.old ≡ length xs.now }
    ensures value { numbers.new ≡ map F.number xs.now }
    ensures elements { All F.IsElement xs.now }
{
    for i in 0..numbers.len() {
        let x = xs[i];
        x.known();
        numbers[i] = x.number();
    }
}

// Moves the bytes behind the first `count` to the front, and writes zeros behind them.
fn shift_down(bytes: &mut [u8], count: usize)
    requires { count ≤ length bytes.old }
    ensures { bytes.new ≡ drop count bytes.old ++ replicate count 0 }
{
    let kept = bytes.len() - count;
    bytes.copy_within(count.., 0);
    bytes[kept..].fill(0);
}
