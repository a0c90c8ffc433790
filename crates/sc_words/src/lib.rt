//! The words of the command line, and what they ask for.
#![tactic(auto)]

mod word_laws;
mod words;

pub use word_laws::{one_form, one_numeral};
pub use words::{Command, Kind, read_words};
