//! Finite fields of characteristic 2 whose elements act on bytes: GF(2) and GF(256).
#![tactic(auto)]

mod field;
mod gf2;
mod gf256;
mod lanes;
mod laws;
mod multiplier;
mod scale;
mod terms;

pub use field::{Field, element_of};
pub use gf2::Gf2;
pub use gf256::Gf256;
pub use laws::{number_laws, sum_laws};
pub use multiplier::Multiplier;
pub use scale::{add_bytes, scale_add};
pub use terms::{Term, all_within, combine, combine_add};

#[cfg(test)]
mod tests;
