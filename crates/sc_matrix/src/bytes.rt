//! Operations on rows of bytes: the numbers of a field's elements, or bytes on which the elements act.
ghost use Rattle.std.specs.Prelude.{◌≡◌, ℕ, ◌+◌, ◌^◌, ◌<◌, ◌≤◌, ◌⊎◌, MatchOption, All, length, map, take, drop, bit_xor, slice_index_or};
ghost use borrow.Rule.Slice.PartMut.{put_mid};
ghost use Rattle.sc_field.specs.Field.{IsNumber};
ghost use Rattle.sc_field.specs.Scale.{scaled_sum};
ghost use Rattle.sc_matrix.specs.Vector.{add_vectors, dot, combination};
ghost use Rattle.sc_matrix.specs.Matrix.{IsFirstNonzero};
ghost use Rattle.sc_matrix.specs.Rows.{table};

use crate::rows::Rows;
use sc_field::{Field, element_of, scale_add};

// Does nothing. Its contract says what the type does: a byte is below 256.
pub(crate) fn known(xs: &[u8])
    ensures { All (λ b. b < 2 ^ 8) xs.now }
{}

// Adds `c` times the `width` bytes from `from` on to those from `to` on. The two parts do not overlap.
pub(crate) fn add_within<F: Field>(xs: &mut [u8], to: usize, c: F, from: usize, width: usize)
    requires to_in { to + width ≤ length xs.old }
    requires from_in { from + width ≤ length xs.old }
    requires apart { (to + width ≤ from) ⊎ (from + width ≤ to) }
    ensures { xs.new ≡ put_mid to width xs.old
        (scaled_sum (F.act c) (take width (drop to xs.old)) (take width (drop from xs.old))) }
{
    if to < from {
        let (low, high) = xs.split_at_mut(from);
        scale_add(&mut low[to..to + width], c, &high[..width]);
    } else {
        let (low, high) = xs.split_at_mut(to);
        scale_add(&mut high[..width], c, &low[from..from + width]);
    }
}

// Exchanges the `width` bytes from `first` on with those from `second` on, which lie behind them.
pub(crate) fn swap_within(xs: &mut [u8], first: usize, second: usize, width: usize)
    requires apart { first + width ≤ second }
    requires second_in { second + width ≤ length xs.old }
    ensures { xs.new ≡ put_mid first width (put_mid second width xs.old (take width (drop first xs.old)))
        (take width (drop second xs.old)) }
{
    let (low, high) = xs.split_at_mut(second);
    low[first..first + width].swap_with_slice(&mut high[..width]);
}

// The first place with a byte other than 0.
pub(crate) fn first_nonzero(xs: &[u8]) -> Option<usize>
    ensures { MatchOption result ((j : ℕ) → slice_index_or xs.now j 0 ≡ 0) (IsFirstNonzero 0 xs.now) }
{
    for i in 0..xs.len() {
        if xs[i] != 0 {
            return Some(i);
        }
    }
    None
}

// Adds to `xs` the combination of the rows of `other` with the elements of these numbers as coefficients.
pub(crate) fn combine_into<F: Field>(xs: &mut [u8], numbers: &[u8], other: &Rows)
    requires inner { length numbers.now ≡ other.now.count }
    requires width { length xs.old ≡ other.now.width }
    requires numbers { All (IsNumber F.IsElement F.number F.element) numbers.now }
    ensures { xs.new ≡ add_vectors bit_xor xs.old
        (combination 0 bit_xor F.act (length xs.old) (map F.element numbers.now) (table other.now).rows) }
{
    for k in 0..numbers.len() {
        let c = element_of::<F>(numbers[k]);
        scale_add(xs, c, other.row(k));
    }
}

// The dot product of the elements of these numbers and `v`.
pub(crate) fn dot_product<F: Field>(numbers: &[u8], v: &[F]) -> F
    requires width { length v.now ≡ length numbers.now }
    requires numbers { All (IsNumber F.IsElement F.number F.element) numbers.now }
    ensures value { result ≡ dot F.zero F.add F.mul (map F.element numbers.now) v.now }
    ensures element { F.IsElement result }
{
    let mut total = 0;
    for j in 0..v.len() {
        let x = v[j];
        x.known();
        total ^= x.act(numbers[j]);
    }
    element_of(total)
}
