//! Matrices over a finite field.
//!
//! A matrix is seen as its number of columns and the list of its rows, each with an entry for each column. It may
//! have no row, and then its number of columns still counts. What takes memory says so by its result: `NoMemory`
//! is the only refusal.
#![tactic(auto)]

mod bytes;
mod laws;
mod matrix;
mod rows;

pub use laws::{
    dot_products_are_linear, equality_is_exact, kernels_are_subspaces, products_are_linear,
    row_operations_keep_the_row_space, transposes_turn_products,
};
pub use matrix::{MAX_ENTRIES, Matrix};

#[cfg(test)]
mod tests;
