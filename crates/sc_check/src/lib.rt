//! Whether a code meets a channel: all its classes of losses, by workers in parts, or the least refutation.
#![tactic(auto)]

mod failing;
mod gate;
mod laws;
mod span;
mod verdict;
mod walk;

pub use failing::{MAX_WORKERS, first_failing};
pub use gate::{Gate, NoGate};
pub use laws::{answers_are_right, meets_where_classes_decide, one_first_failing};
pub use verdict::{Verdict, check};

#[cfg(test)]
mod tests;
