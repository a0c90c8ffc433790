//! Codes, streams and their parities, what it means that a code meets a channel, and the encoder.
#![tactic(auto)]

mod code;
mod encoder;
mod laws;
mod ring;
mod stream;
mod sum;

pub use code::{ByteCode, Code, CodeFault, CodeFile};
pub use encoder::Encoder;
pub use laws::{
    bytes_are_elements, elements_decided_where_bytes_are, meets_where_losses_decide, parity_laws,
    refutations_refute, width_one_is_enough,
};
pub use stream::Stream;

#[cfg(test)]
mod tests;
