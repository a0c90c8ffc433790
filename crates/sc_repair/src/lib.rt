//! The repairer: what the slots of a protected stream that arrived determine of its blocks, given out in time.
#![tactic(auto)]

mod columns;
mod equations;
mod laws;
mod put;
mod repair;
mod repairer;
mod sum;

pub use laws::{
    each_record_comes_back_or_is_missed, protected_captures_come_back, repairing_is_a_job,
};
pub use repair::{RepairEnd, Repaired, repair_all};
pub use repairer::{EndState, MAX_SLOTS, Put, Repairer, TakeFault, Unfit};

#[cfg(test)]
mod tests;
