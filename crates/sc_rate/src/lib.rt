//! Certificates of a channel, and the bound that they put on the rate of every causal code.
#![tactic(auto)]

mod laws;
mod make_standard;
mod rate;
mod residue;

pub use laws::{
    accepted_certificates_bound_byte_codes, bad_residue_answers, certificate_bounds_rate,
    standard_is_accepted,
};
pub use make_standard::{standard, standard_numbers};
pub use rate::{Rate, compare, kept_slots};
pub use residue::first_bad_residue;

#[cfg(test)]
mod tests;
