//! Burst codes: the maker of kind `ms`.
#![tactic(auto)]

mod burst;
#[cfg(test)]
mod tests;

pub use burst::{MakeFault, ms_code};
