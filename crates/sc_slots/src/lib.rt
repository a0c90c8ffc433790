//! Frames and protected packets: how a packet stands in a block, and how a block and its parity stand in an RTP packet and
//! in a record of a capture; and protecting a capture.
#![tactic(auto)]

mod blank;
mod framing;
mod head;
mod laws;
mod maker;
mod protect;
mod repair_laws;
mod slot;
mod unframing;

pub use framing::{frame, width};
pub use laws::{one_frame, one_slot};
pub use protect::{
    MAX_SIZE, MIN_SIZE, ProtectFault, Protected, protect_all, protected_is_a_capture,
    protecting_is_a_job,
};
pub use repair_laws::{
    a_code_that_meets_its_channel_sends, all_that_was_sent_comes_back, clash_where_nothing_is_kept,
    every_slot_is_put_out_in_time, kept_places_stand_for_all, nothing_is_taken_back, one_value,
    settled_as_recovered, what_is_left_is_taken,
};
pub use slot::{Slot, SlotReading, read_slot, slot_head, write_slot};
pub use unframing::{BadBlock, Frame, unframe};

#[cfg(test)]
mod tests;
