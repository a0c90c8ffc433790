//! Rate-optimal candidates, and the first candidate of a kind that meets a channel.
#![tactic(auto)]

mod candidates;
mod design;
mod kind;
mod optimal;
mod parity;
mod sizes;
#[cfg(test)]
mod tests;

pub use design::{Found, first_good};
pub use kind::{DesignFault, MakerKind};
pub use optimal::optimal_candidate;
