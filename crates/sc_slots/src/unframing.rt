//! Reading blocks: a frame, zeros alone, or neither.
ghost use Rattle.std.specs.Prelude.{ℕ, List, IfSome, IfNone};
ghost use Rattle.sc_slots.specs.Frame.{IsFrame, Unframes};
ghost use Rattle.sc_slots.specs.Answers.{unframed};

use super::blank::is_blank;
use super::framing::FRONT;
use std::error::Error;
use std::fmt;

/// A block that is neither zero nor a frame.
#[derive(Clone, Copy, Debug, PartialEq, Eq)]
pub struct BadBlock;

impl fmt::Display for BadBlock {
    fn fmt<W: fmt::Write>(&self, f: &mut fmt::Formatter<W>) -> fmt::Result {
        write!(f, "bad block")
    }
}

impl Error for BadBlock {}

/// What a block holds.
#[derive(Clone, Copy, Debug, PartialEq, Eq)]
pub enum Frame<'a> {
    /// Zeros alone.
    Blank,
    /// The frame of a packet of at least one byte.
    Packet {
        /// The offset of the packet's record, in milliseconds since the capture's start.
        offset: u32,
        /// The packet.
        packet: &'a [u8],
    },
}

/// The offset and the packet of a frame. `None` exactly where the block is no frame.
fn framed(block: &[u8]) -> Option<(u32, &[u8])>
    ensures some { IfSome result (λ p. IsFrame block.now p.0 p.1.now) }
    ensures none { IfNone result ((offset : ℕ) (packet : List ℕ) → IsFrame block.now offset packet → ⊥) }
{
    if block.len() <= FRONT {
        return None;
    }
    let len = usize::from(u16::from_be_bytes([block[0], block[1]]));
    let offset = u32::from_be_bytes([block[2], block[3], block[4], block[5]]);
    let body = &block[FRONT..];
    if len == 0 {
        return None;
    }
    if body.len() < len {
        return None;
    }
    if !is_blank(&body[len..]) {
        return None;
    }
    Some((offset, &body[..len]))
}

/// Reads a block. `Blank` comes exactly where all bytes are zero, and `BadBlock` exactly where the block is neither zero nor
/// a frame; a block of fewer than seven bytes is no frame. It takes no memory.
pub fn unframe(block: &[u8]) -> Result<Frame<'_>, BadBlock>
    ensures { Unframes block.now (unframed result) }
{
    if is_blank(block) {
        return Ok(Frame::Blank);
    }
    match framed(block) {
        Some((offset, packet)) => Ok(Frame::Packet { offset, packet }),
        None => Err(BadBlock),
    }
}
