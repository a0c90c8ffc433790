//! Why bytes aren't an RTP packet.

/// Why bytes aren't an RTP packet: the first of these that holds (RFC 3550, 5.1).
#[derive(Clone, Copy, Debug, PartialEq, Eq)]
pub enum NotRtp {
    /// Fewer than 12 bytes.
    Short,
    /// The version isn't 2.
    Version,
    /// Fewer bytes than the fixed head and its CSRC words.
    Csrc,
    /// An extension is announced, and its 4 bytes or its words aren't all there.
    Extension,
    /// Padding is announced, and no byte follows the header, or the last byte is 0, or greater than the number of bytes
    /// after the header.
    Padding,
}
