//! A stream of symbols of one byte, as a list of blocks.

ghost use Rattle.std.specs.Prelude.{◌≡◌, ◌/◌, ◌%◌, ◌<◌, ◌≤◌, [], length, slice_index, slice_index_or};
ghost use Rattle.sc_matrix.specs.Layout.{cut};

use std::marker::Model;

/// A stream of width 1: a list of blocks, each of `k` symbol numbers.
#[derive(Debug, Drop)]
pub struct Stream {
    k: usize,
    symbols: Vec<u8>,
}

impl Model for Stream {
    ghost use Rattle.std.specs.Prelude.{◌≡◌, ℕ, ◌*◌, ◌/◌, ◌≤◌, List, length};
    ghost use Rattle.sc_matrix.specs.Layout.{cut};

    ghost Value = { List (List ℕ) };

    ghost view = { λ s. cut (length s.symbols.items / s.k) s.k s.symbols.items };

    ghost invariant = { λ s. (1 ≤ s.k) × (length s.symbols.items ≡ length s.symbols.items / s.k * s.k) };
}

impl Stream {
    /// The stream of these symbols, block after block, with `k` in each. It takes no memory.
    pub fn new(k: usize, symbols: Vec<u8>) -> Stream
        requires some { 1 ≤ k }
        requires whole { length symbols.items % k ≡ 0 }
        ensures { result ≡ cut (length symbols.items / k) k symbols.items }
    {
        Stream { k, symbols }
    }

    /// How many blocks it has.
    pub fn blocks(&self) -> usize
        ensures { result ≡ length self.now }
    {
        let count = self.symbols.as_slice().len();
        count / self.k
    }

    /// Symbol `i` of block `t`.
    pub fn symbol(&self, t: usize, i: usize) -> u8
        requires slot { t < length self.now }
        requires symbol { i < length (slice_index_or self.now t []) }
        ensures { result ≡ slice_index (slice_index_or self.now t []) i }
    {
        let symbols = self.symbols.as_slice();
        symbols[t * self.k + i]
    }
}
