//! Captures of RTP packets in this project's profile of the binary rtpdump format: reading, writing and thinning them.
#![tactic(auto)]

mod fault;
mod head;
mod kind;
mod next;
mod preamble;
mod reading_laws;
mod record;
mod thin;

pub use fault::DumpFault;
pub use head::Head;
pub use kind::{Kind, kind_of};
pub use next::{next_record, next_record_behind, write_record};
pub use preamble::{Preamble, read_preamble};
pub use reading_laws::one_reading;
pub use record::{DumpRecord, MAX_BODY};
pub use thin::{DropFault, Dropped, drop_records, thinning_is_a_job};

#[cfg(test)]
mod tests;
