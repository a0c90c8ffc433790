//! Systems of linear equations over a finite field, and what they determine.
#![tactic(auto)]

mod equation;
mod knowledge;
mod reduced;
mod table;
mod tables;
mod window;

pub use equation::is_zero;
pub use knowledge::{Added, Knowledge, MAX_BYTES, MAX_COLS};
pub use reduced::Reduced;
pub use window::Window;

#[cfg(test)]
mod tests;
