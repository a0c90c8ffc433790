//! Diagonal interleaving: the streaming code of a block code's parity matrix. Beside it, matrices that are made entry by
//! entry, which the crates of the makers share.
#![tactic(auto)]

mod diagonal;
mod laws;
mod made;
#[cfg(test)]
mod tests;

pub use diagonal::interleave;
pub use laws::{diagonals_hold_the_matrix, entries_are_had};
pub use made::{Entries, code_of, matrix_of};
