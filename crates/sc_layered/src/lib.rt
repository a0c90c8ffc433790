//! Draws of nonzero bytes, and layered candidates: the maker of kind `layered`.
#![tactic(auto)]

mod draw;
mod layered;
#[cfg(test)]
mod tests;

pub use draw::{Draws, generator};
pub use layered::{WideFault, layered_candidate};
