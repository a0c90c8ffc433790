//! What a port does, call by call.

/// One call of a port that succeeded, with the number of bytes that it moved.
#[derive(Clone, Copy, Debug, PartialEq, Eq)]
pub enum Move {
    /// A read took so many bytes; 0 at the end of the input.
    Read(usize),
    /// A write gave so many bytes.
    Written(usize),
}
