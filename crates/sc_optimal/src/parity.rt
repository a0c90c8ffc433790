//! The parity matrix of a candidate, told entry by entry over its draws.

ghost use Rattle.std.specs.Prelude.{◌≡◌, ◌+◌, ◌*◌, ◌-◌, ◌<◌, ◌≤◌, IfOk};
ghost use Rattle.sc_layered.specs.Draw.{generator, nonzero_at};
ghost use Rattle.sc_matrix.specs.Matrix.{row_count};
ghost use Rattle.sc_optimal.specs.Optimal.{drawn_matrix, low_rank, optimal_entry, first_rows, diagonal_from, right_from, end_of};

use crate::sizes::Sizes;
use sc_diag::{Entries, matrix_of};
use sc_field::{Field, Gf256};
use sc_layered::Draws;
use sc_matrix::Matrix;
use sc_outside::NoMemory;
use std::alloc::Global;

/// A matrix that is drawn row by row, from a word on.
#[derive(Drop)]
struct Drawn<'a> {
    from: usize,
    rows: usize,
    cols: usize,
    draws: &'a Draws,
    ghost enough: { from + rows * cols ≤ draws.now.count },
    ghost near: { from ≤ 4800 },
}

impl<'a> Entries for Drawn<'a> {
    ghost use Rattle.std.specs.Prelude.{◌+◌, ◌*◌};
    ghost use Rattle.sc_layered.specs.Draw.{generator, nonzero_at};

    ghost rows = { λ d. d.rows };

    ghost cols = { λ d. d.cols };

    ghost entry = { λ d _ i j. nonzero_at (generator d.draws.now.seed) (d.from + (i * d.cols + j)) };

    fn rows(&self) -> usize {
        self.rows
    }

    fn cols(&self) -> usize {
        self.cols
    }

    fn at(&self, _lag: usize, i: usize, j: usize) -> Gf256 {
        Gf256::from(self.draws.get(self.from + (i * self.cols + j)))
    }
}

/// The matrix of these sizes that is drawn row by row, from a word on.
fn drawn_matrix(
    alloc: Global,
    draws: &Draws,
    from: usize,
    rows: usize,
    cols: usize,
) -> Result<Matrix<Gf256>, NoMemory>
    requires small { rows + cols ≤ 64 }
    requires enough { from + rows * cols ≤ draws.now.count }
    requires near { from ≤ 4800 }
    ensures { IfOk result (λ m. m ≡ drawn_matrix (generator draws.now.seed) from rows cols) }
{
    let drawn = Drawn {
        from,
        rows,
        cols,
        draws,
    };
    matrix_of(alloc, &drawn, 0)
}

/// The product of the two factors.
fn low_rank(alloc: Global, sizes: &Sizes, draws: &Draws) -> Result<Matrix<Gf256>, NoMemory>
    requires { diagonal_from sizes.now ≤ draws.now.count }
    ensures product { IfOk result (λ m. m ≡ low_rank (generator draws.now.seed) sizes.now) }
    ensures rows { IfOk result (λ m. row_count m ≡ first_rows sizes.now) }
{
    let (from, rows) = (sizes.left_from(), sizes.first_rows());
    let left = drawn_matrix(alloc, draws, from, rows, sizes.rank)?;
    let (from, cols) = (sizes.right_from(), sizes.other_cols());
    let right = drawn_matrix(alloc, draws, from, sizes.rank, cols)?;
    left.mul(alloc, &right)
}

/// The parity matrix of a candidate, by its sizes, its draws and the product of its factors.
#[derive(Drop)]
pub(crate) struct Parity {
    pub(crate) sizes: Sizes,
    // the most erasures anywhere in a window of the channel
    pub(crate) n: usize,
    low: Matrix<Gf256>,
    pub(crate) draws: Draws,
    ghost in_span: { n ≤ sizes.cols },
    ghost some: { 1 ≤ n },
    ghost small: { sizes.rows + sizes.cols ≤ 64 },
    ghost product: { low ≡ low_rank (generator draws.seed) sizes },
    ghost low_rows: { row_count low ≡ first_rows sizes },
    ghost enough: { draws.count ≡ end_of sizes n },
}

impl Parity {
    /// That of candidate `c` of a channel whose `n` this is.
    pub(crate) fn new(alloc: Global, sizes: Sizes, n: usize, c: u32) -> Result<Parity, NoMemory>
        requires in_span { n ≤ sizes.cols }
        requires some { 1 ≤ n }
        requires small { sizes.rows + sizes.cols ≤ 64 }
        ensures sizes { IfOk result (λ parity. parity.sizes ≡ sizes) }
        ensures n { IfOk result (λ parity. parity.n ≡ n) }
        ensures seed { IfOk result (λ parity. parity.draws.seed ≡ c) }
    {
        let draws = Draws::new(alloc, u64::from(c), sizes.end(n))?;
        let low = low_rank(alloc, &sizes, &draws)?;
        Ok(Parity {
            sizes,
            n,
            low,
            draws,
        })
    }

    /// The entry where the product stands, at row `i` and column `j`.
    fn inner(&self, i: usize, j: usize) -> Gf256
        requires row { i < first_rows self.now.sizes }
        requires column { j < self.now.sizes.cols }
        requires behind { self.now.sizes.whole ≤ j }
        ensures { result ≡ optimal_entry (generator self.now.draws.seed) self.now.sizes self.now.n i j }
    {
        let product = self.low.get(i, j - self.sizes.whole);
        if j + 1 == i + self.n {
            product.add(self.draw(self.sizes.diagonal_from() + i))
        } else {
            product
        }
    }

    /// The entry of a last row, at row `i` and column `j`.
    fn last(&self, i: usize, j: usize) -> Gf256
        requires from { self.now.sizes.cols ≤ i }
        requires row { i < self.now.sizes.rows }
        requires column { j < self.now.sizes.cols }
        requires behind { self.now.sizes.whole ≤ j }
        ensures { result ≡ optimal_entry (generator self.now.draws.seed) self.now.sizes self.now.n i j }
    {
        let place = (i - self.sizes.cols) * self.sizes.other_cols() + (j - self.sizes.whole);
        self.draw(self.sizes.last_from(self.n) + place)
    }

    /// The draw of a word.
    fn draw(&self, place: usize) -> Gf256
        requires { place < self.now.draws.count }
        ensures { result ≡ nonzero_at (generator self.now.draws.seed) place }
    {
        Gf256::from(self.draws.get(place))
    }
}

impl Entries for Parity {
    ghost use Rattle.sc_layered.specs.Draw.{generator};
    ghost use Rattle.sc_optimal.specs.Optimal.{optimal_entry};

    ghost rows = { λ p. p.sizes.rows };

    ghost cols = { λ p. p.sizes.cols };

    ghost entry = { λ p _. optimal_entry (generator p.draws.seed) p.sizes p.n };

    fn rows(&self) -> usize {
        self.sizes.rows
    }

    fn cols(&self) -> usize {
        self.sizes.cols
    }

    fn at(&self, _lag: usize, i: usize, j: usize) -> Gf256 {
        if j < self.sizes.whole {
            self.draw(j * self.sizes.rows + i)
        } else if i < self.sizes.first_rows() {
            self.inner(i, j)
        } else {
            self.last(i, j)
        }
    }
}
