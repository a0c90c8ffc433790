//! What is told of each part of a check that begins.

/// It is told when a job begins. A test sees by it that workers run side by side.
pub trait Gate {
    /// Job `job` begins. It may wait for a while, and comes back.
    fn enter(&self, job: u32);
}

/// A gate that does nothing.
pub struct NoGate;

impl Gate for NoGate {
    fn enter(&self, _job: u32) {}
}
