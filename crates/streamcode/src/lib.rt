//! The program: what the words of its command line ask for, and the run that does it.
#![tactic(auto)]

mod bound;
mod check;
mod check_laws;
mod design;
mod end;
mod files;
mod generate;
mod give;
mod lose;
mod lose_laws;
mod note;
mod program;
mod protect;
mod repair;
mod repair_laws;
#[cfg(test)]
mod tests;
mod trial;
mod trial_laws;
mod verdict;

pub use check_laws::{certify_is_bounding, check_is_meeting, design_is_first_good};
pub use end::{End, Role};
pub use lose_laws::lose_is_thinning;
pub use note::conclude;
pub use program::run;
pub use repair_laws::repair_is_repairing;
pub use trial_laws::trial_is_counting;
