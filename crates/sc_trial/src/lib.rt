//! Captures and losses out of a number: a capture of RTP packets of any size, and a loss that a channel admits.
#![tactic(auto)]

mod capture;
mod capture_laws;
mod course;
mod draw;
mod loss;
mod outcome;
#[cfg(test)]
mod tests;

pub use capture::{GenFault, MAX_COUNT, MAX_SIZE, MIN_SIZE, gen_capture};
pub use capture_laws::generated_is_a_capture;
pub use course::{MAX_TRIAL, trial};
pub use loss::{gen_loss, one_generated_loss};
pub use outcome::{Trial, TrialFault};
