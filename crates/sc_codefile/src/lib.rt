//! The project's JSON files: what bytes are such a file, why others aren't, and the text of one.
#![tactic(auto)]

mod certificate;
mod fault;
mod laws;
mod lists;
mod loss;
mod numbers;
mod print;
mod ranges;
mod read;
#[cfg(test)]
mod tests;

pub use certificate::{print_certificate, read_certificate};
pub use fault::{FileFault, Key};
pub use laws::{one_certificate_file, one_code_file, one_loss_file};
pub use loss::{print_loss, read_loss};
pub use print::print_code;
pub use read::read_code;
