//! The sizes of a candidate's parity matrix, and where the words of its parts begin.

ghost use Rattle.std.specs.Prelude.{◌≡◌, ◌+◌, ◌≤◌};
ghost use Rattle.sc_channel.specs.Channel.{IsChannel};
ghost use Rattle.sc_optimal.specs.Optimal.{optimal_sizes, first_rows, other_cols, left_from, right_from, diagonal_from, last_from, end_of};

use sc_channel::Channel;
use std::marker::Model;

/// The sizes of a candidate's parity matrix: its rows and columns, its first columns, which are drawn whole, and the rank of the
/// product that stands in the other columns of the first rows.
#[derive(Drop)]
pub(crate) struct Sizes {
    pub(crate) rows: usize,
    pub(crate) cols: usize,
    pub(crate) whole: usize,
    pub(crate) rank: usize,
}

impl Model for Sizes {
    ghost use Rattle.sc_optimal.specs.Optimal.{OptimalSizes, AreSmall};

    ghost Value = { OptimalSizes };

    ghost view = { λ s. record { rows = s.rows; cols = s.cols; whole = s.whole; rank = s.rank } };

    ghost invariant = { λ s. AreSmall (record { rows = s.rows; cols = s.cols; whole = s.whole; rank = s.rank }) };
}

impl Sizes {
    /// The sizes for a channel.
    pub(crate) fn of(channel: &Channel) -> Sizes
        ensures sizes { result ≡ optimal_sizes channel.now }
        ensures limits { IsChannel channel.now }
    {
        let n = channel.n() as usize;
        let cols = channel.b() as usize;
        let rows = channel.t() as usize + 1 - n;
        let whole = cols.saturating_sub(rows);
        Sizes {
            rows,
            cols,
            whole,
            rank: n - 1 - whole,
        }
    }

    /// The number of rows in which the product stands.
    pub(crate) fn first_rows(&self) -> usize
        ensures value { result ≡ first_rows self.now }
        ensures bound { result ≤ 40 }
    {
        self.rows.min(self.cols)
    }

    /// The number of columns that are not drawn whole.
    pub(crate) fn other_cols(&self) -> usize
        ensures value { result ≡ other_cols self.now }
        ensures bound { result ≤ 40 }
    {
        self.cols - self.whole
    }

    /// The first word of the left factor, behind those of the whole columns.
    pub(crate) fn left_from(&self) -> usize
        ensures value { result ≡ left_from self.now }
        ensures bound { result ≤ 1600 }
    {
        self.whole * self.rows
    }

    /// The first word of the right factor.
    pub(crate) fn right_from(&self) -> usize
        ensures value { result ≡ right_from self.now }
        ensures bound { result ≤ 3200 }
    {
        self.left_from() + self.first_rows() * self.rank
    }

    /// The first word of the diagonal.
    pub(crate) fn diagonal_from(&self) -> usize
        ensures value { result ≡ diagonal_from self.now }
        ensures bound { result ≤ 4800 }
    {
        self.right_from() + self.rank * self.other_cols()
    }

    /// The first word of the last rows, for a channel with at most `n` erasures anywhere in a window.
    pub(crate) fn last_from(&self, n: usize) -> usize
        requires { n ≤ self.now.cols }
        ensures value { result ≡ last_from self.now n }
        ensures bound { result ≤ 4900 }
    {
        self.diagonal_from() + (self.cols + 1 - n)
    }

    /// How many words are drawn.
    pub(crate) fn end(&self, n: usize) -> usize
        requires { n ≤ self.now.cols }
        ensures value { result ≡ end_of self.now n }
    {
        self.last_from(n) + self.rows.saturating_sub(self.cols) * self.other_cols()
    }
}
