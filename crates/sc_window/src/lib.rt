//! Whether the slots that a loss leaves determine block 0, and where they don't, the least stream that shows it.
#![tactic(auto)]

mod decide;
mod laws;
mod window;

pub use decide::{decides, least_difference};
pub use laws::{differences_are_bytes, least_differences_refute, vectors_spell_streams};
pub use window::window_matrix;

#[cfg(test)]
mod tests;
