//! Rows of bytes of one width, side by side in one block: how a matrix lies in memory.
ghost use Rattle.std.specs.Prelude.{◌≡◌, ◌*◌, ◌≤◌, length};
ghost use Rattle.sc_matrix.specs.Matrix.{most_entries};

use crate::bytes::{add_within, combine_into, first_nonzero, known, swap_within};
use sc_field::{Field, Multiplier};
use sc_outside::NoMemory;
use std::alloc::Global;

// `count` rows of `width` bytes each.
#[derive(Debug, Drop)]
pub(crate) struct Rows {
    pub(crate) count: usize,
    pub(crate) width: usize,
    pub(crate) bytes: Vec<u8>,
    ghost whole: { length bytes.items ≡ count * width },
    ghost small: { count * width ≤ most_entries },
}

#[tactic(auto, using(crate::proofs::ByteSteps::rows_steps))]
impl Rows {
    ghost use Rattle.std.specs.Prelude.{◌≡◌, ◌≢◌, ◌+◌, ◌*◌, ◌^◌, ◌<◌, ◌≤◌, ◌++◌, ℕ, map, take, drop, IfOk, OnOk, OnErr, MatchOption, All, length, bit_xor, slice_index_or};
    ghost use Rattle.sc_field.specs.Field.{IsNumber};
    ghost use Rattle.sc_matrix.specs.Vector.{add_vectors, combination};
    ghost use Rattle.sc_matrix.specs.Matrix.{most_entries, row, entry, column, with_row, with_entry, with_last_row, first_rows, zero_matrix, transpose, submatrix, product, swap_rows, scale_row, add_row_from, IsFirstNonzero};
    ghost use Rattle.sc_matrix.specs.Rows.{table};
    ghost use Rattle.sc_matrix.specs.Numbers.{elements_of, AreNumbers};

    pub(crate) fn zeros(alloc: Global, count: usize, width: usize) -> Result<Rows, NoMemory>
        requires { count * width ≤ most_entries }
        ensures { IfOk result (λ r. table r ≡ zero_matrix 0 count width) }
    {
        let bytes = vec![in alloc; 0; count * width]?;
        Ok(Rows {
            count,
            width,
            bytes,
        })
    }

    // No row yet, and room for `count` of them.
    pub(crate) fn with_capacity(alloc: Global, count: usize, width: usize) -> Result<Rows, NoMemory>
        requires { count * width ≤ most_entries }
        ensures { IfOk result (λ r. table r ≡ zero_matrix 0 0 width) }
    {
        let bytes = Vec::with_capacity(alloc, count * width)?;
        Ok(Rows {
            count: 0,
            width,
            bytes,
        })
    }

    pub(crate) fn copy(&self, alloc: Global) -> Result<Rows, NoMemory>
        ensures { IfOk result (λ r. table r ≡ table self.now) }
    {
        let bytes = Vec::from_slice(alloc, self.bytes.as_slice())?;
        Ok(Rows {
            count: self.count,
            width: self.width,
            bytes,
        })
    }

    // Copies rows of the same sizes.
    pub(crate) fn copy_from(&mut self, other: &Rows)
        requires count { self.old.count ≡ other.now.count }
        requires width { self.old.width ≡ other.now.width }
        ensures { table self.new ≡ table other.now }
    {
        self.bytes.copy_from_slice(&other.bytes);
    }

    // The place of the first byte of row `i`.
    fn start(&self, i: usize) -> usize
        requires { i < self.now.count }
        ensures value { result ≡ i * self.now.width }
        ensures within { result + self.now.width ≤ length self.now.bytes.items }
        ensures small { result + self.now.width ≤ most_entries }
    {
        i * self.width
    }

    pub(crate) fn row(&self, i: usize) -> &[u8]
        requires { i < self.now.count }
        ensures value { result.now ≡ row (table self.now) i }
        ensures width { length result.now ≡ self.now.width }
        ensures fit { All (λ b. b < 2 ^ 8) self.now.bytes.items }
    {
        known(&self.bytes);
        let start = self.start(i);
        &self.bytes[start..start + self.width]
    }

    pub(crate) fn get(&self, i: usize, j: usize) -> u8
        requires row { i < self.now.count }
        requires column { j < self.now.width }
        ensures { result ≡ entry 0 (table self.now) i j }
    {
        let start = self.start(i);
        self.bytes[start + j]
    }

    pub(crate) fn set(&mut self, i: usize, j: usize, byte: u8)
        requires row { i < self.old.count }
        requires column { j < self.old.width }
        ensures { table self.new ≡ with_entry (table self.old) i j byte }
    {
        let start = self.start(i);
        let at = start + j;
        self.bytes[at] = byte;
    }

    pub(crate) fn write_row(&mut self, i: usize, bytes: &[u8])
        requires row { i < self.old.count }
        requires width { length bytes.now ≡ self.old.width }
        ensures { table self.new ≡ with_row (table self.old) i bytes.now }
    {
        let start = self.start(i);
        self.bytes[start..start + self.width].copy_from_slice(bytes);
    }

    // Appends a row. It takes memory only where there is no room left.
    pub(crate) fn push_row(&mut self, bytes: &[u8]) -> Result<(), NoMemory>
        requires width { length bytes.now ≡ self.old.width }
        requires small { (self.old.count + 1) * self.old.width ≤ most_entries }
        requires counts { self.old.count < usize.MAX }
        ensures pushed { OnOk result (table self.new ≡ with_last_row (table self.old) bytes.now) }
        ensures kept { OnErr result (table self.new ≡ table self.old) }
    {
        self.bytes.extend_from_slice(bytes)?;
        self.count += 1;
        Ok(())
    }

    // Drops all rows but the first `count`. The memory stays.
    pub(crate) fn truncate(&mut self, count: usize)
        ensures { table self.new ≡ first_rows count (table self.old) }
    {
        if count < self.count {
            self.bytes.truncate(count * self.width);
            self.count = count;
        }
    }

    // The first place of row `i` with a byte other than 0.
    pub(crate) fn first_nonzero(&self, i: usize) -> Option<usize>
        requires { i < self.now.count }
        ensures { MatchOption result ((j : ℕ) → slice_index_or (row (table self.now) i) j 0 ≡ 0)
            (IsFirstNonzero 0 (row (table self.now) i)) }
    {
        first_nonzero(self.row(i))
    }

    #[tactic(auto, using(crate::proofs::ByteSteps::two_rows))]
    pub(crate) fn row_swap(&mut self, a: usize, b: usize)
        requires first { a < self.old.count }
        requires second { b < self.old.count }
        ensures { table self.new ≡ swap_rows (table self.old) a b }
    {
        let (first, second) = (self.start(a), self.start(b));
        if a < b {
            swap_within(&mut self.bytes, first, second, self.width);
        } else if b < a {
            swap_within(&mut self.bytes, second, first, self.width);
        }
    }

    pub(crate) fn row_scale<F: Field>(&mut self, a: usize, c: F)
        requires { a < self.old.count }
        ensures { table self.new ≡ scale_row F.act (table self.old) a c }
    {
        let start = self.start(a);
        Multiplier::new(c).scale(&mut self.bytes[start..start + self.width]);
    }

    // Adds `c` times row `b` to row `a`, another one, from place `from` on.
    #[tactic(auto, using(crate::proofs::ByteSteps::two_rows))]
    pub(crate) fn row_add<F: Field>(&mut self, a: usize, c: F, b: usize, from: usize)
        requires target { a < self.old.count }
        requires source { b < self.old.count }
        requires apart { a ≢ b }
        requires from { from ≤ self.old.width }
        ensures { table self.new ≡ add_row_from bit_xor F.act (table self.old) a c b from }
    {
        let (to, source) = (self.start(a), self.start(b));
        add_within(
            &mut self.bytes,
            to + from,
            c,
            source + from,
            self.width - from,
        );
    }

    // Adds to row `i` the combination of the rows of `other` with the elements of these numbers as coefficients.
    pub(crate) fn add_combination<F: Field>(&mut self, i: usize, numbers: &[u8], other: &Rows)
        requires row { i < self.old.count }
        requires inner { length numbers.now ≡ other.now.count }
        requires width { self.old.width ≡ other.now.width }
        requires numbers { All (IsNumber F.IsElement F.number F.element) numbers.now }
        ensures { table self.new ≡ with_row (table self.old) i (add_vectors bit_xor (row (table self.old) i)
            (combination 0 bit_xor F.act self.old.width (map F.element numbers.now) (table other.now).rows)) }
    {
        let start = self.start(i);
        combine_into::<F>(&mut self.bytes[start..start + self.width], numbers, other);
    }

    // The product of the elements of the numbers `a` and the numbers `b`.
    pub(crate) fn product<F: Field>(alloc: Global, a: &Rows, b: &Rows) -> Result<Rows, NoMemory>
        requires inner { a.now.width ≡ b.now.count }
        requires small { a.now.count * b.now.width ≤ most_entries }
        requires numbers { AreNumbers F.IsElement F.number F.element a.now }
        ensures { IfOk result (λ r. table r ≡ product 0 bit_xor F.act (elements_of F.element a.now) (table b.now)) }
    {
        let mut out = Rows::zeros(alloc, a.count, b.width)?;
        for i in 0..a.count {
            out.add_combination::<F>(i, a.row(i), b);
        }
        Ok(out)
    }

    // The transpose.
    pub(crate) fn transpose(&self, alloc: Global) -> Result<Rows, NoMemory>
        ensures { IfOk result (λ r. table r ≡ transpose 0 (table self.now)) }
    {
        let mut bytes = Vec::with_capacity(alloc, self.count * self.width)?;
        for j in 0..self.width {
            self.push_column(j, &mut bytes)?;
        }
        Ok(Rows {
            count: self.width,
            width: self.count,
            bytes,
        })
    }

    // Appends the bytes at place `j` of the rows to `out`.
    fn push_column(&self, j: usize, out: &mut Vec<u8>) -> Result<(), NoMemory>
        requires { j < self.now.width }
        ensures { OnOk result (out.new.items ≡ out.old.items ++ column 0 (table self.now) j) }
    {
        for i in 0..self.count {
            out.push(self.get(i, j))?;
        }
        Ok(())
    }

    // The bytes of these rows at these places.
    pub(crate) fn submatrix(
        &self,
        alloc: Global,
        rows: &[usize],
        places: &[usize],
    ) -> Result<Rows, NoMemory>
        requires rows { All (λ i. i < self.now.count) rows.now }
        requires places { All (λ j. j < self.now.width) places.now }
        requires small { length rows.now * length places.now ≤ most_entries }
        ensures { IfOk result (λ r. table r ≡ submatrix 0 (table self.now) rows.now places.now) }
    {
        let mut bytes = Vec::with_capacity(alloc, rows.len() * places.len())?;
        for i in rows {
            self.push_places(*i, places, &mut bytes)?;
        }
        Ok(Rows {
            count: rows.len(),
            width: places.len(),
            bytes,
        })
    }

    // Appends the bytes of row `i` at these places to `out`.
    fn push_places(&self, i: usize, places: &[usize], out: &mut Vec<u8>) -> Result<(), NoMemory>
        requires row { i < self.now.count }
        requires places { All (λ j. j < self.now.width) places.now }
        ensures { OnOk result (out.new.items ≡ out.old.items ++ map (entry 0 (table self.now) i) places.now) }
    {
        for j in places {
            out.push(self.get(i, *j))?;
        }
        Ok(())
    }
}
