//! The first 24 bytes of a protected packet.
ghost use Rattle.std.specs.Prelude.{◌≡◌, ◌<◌, ◌≤◌, ◌++◌, ◌∷◌, [], List, ℕ, length, IfSome, IfNone, codes};
ghost use Rattle.std.specs.Bool.{MatchBool};
ghost use Rattle.std.specs.Int.{w16, w32, to_be_bytes};
ghost use Rattle.sc_slots.specs.Slot.{FitsFields, HasBadShape, SlotHead as Meaning, slot_head_bytes, slot_head_of};
ghost use Rattle.sc_slots.specs.Answers.{head_in};

use super::blank::is_blank;
use sc_rtp::write_head;

/// The bytes of a protected packet before its block.
pub(crate) const HEAD: usize = 24;

/// The payload type of a protected packet.
const PAYLOAD_TYPE: u8 = 96;

/// The synchronization source of a protected packet: the letters SCD1.
const SSRC: u32 = 0x5343_4431;

/// The bytes before the sequence number: RTP version 2, and the payload type with no marker.
const FIRST: [u8; 2] = [0x80, PAYLOAD_TYPE];

/// The bytes from the SSRC to the version.
const MARKS: [u8; 7] = *b"SCD1SC\x01";

/// What the first 24 bytes of a protected packet say beside those that are the same in each.
#[derive(Clone, Copy, Debug, PartialEq, Eq)]
pub(crate) struct SlotHead {
    pub sequence: u16,
    pub timestamp: u32,
    pub k: u8,
    pub r: u8,
    pub end: u8,
    pub m: u16,
    pub number: u32,
}

impl SlotHead {
    /// The last twelve of the 24 bytes.
    fn last_bytes(&self) -> [u8; 12]
        ensures { result ≡ codes "SC" ++ (1 ∷ self.now.k ∷ self.now.r ∷ self.now.end ∷ [] ++ (to_be_bytes w16 self.now.m ++ to_be_bytes w32 self.now.number)) }
    {
        let m = self.m.to_be_bytes();
        let number = self.number.to_be_bytes();
        [
            b'S', b'C', 1, self.k, self.r, self.end, m[0], m[1], number[0], number[1], number[2],
            number[3],
        ]
    }

    /// How it is spelled.
    pub(crate) fn to_bytes(&self) -> [u8; HEAD]
        ensures { result ≡ slot_head_bytes (head_in self.now) }
    {
        let mut rtp = [0; 12];
        write_head(&mut rtp, PAYLOAD_TYPE, self.sequence, self.timestamp, SSRC);
        let last = self.last_bytes();
        let mut bytes = [0; HEAD];
        let (front, back) = bytes.split_at_mut(12);
        front.copy_from_slice(&rtp);
        back.copy_from_slice(&last);
        bytes
    }

    /// The head with which a protected packet begins, and what is behind it. `None` exactly where the packet has fewer than
    /// 24 bytes, or a byte that is the same in each head is another.
    pub(crate) fn split_from(packet: &[u8]) -> Option<(SlotHead, &[u8])>
        ensures some { IfSome result (λ p. FitsFields (head_in p.0) × (packet.now ≡ slot_head_bytes (head_in p.0) ++ p.1.now)) }
        ensures none { IfNone result ((h : Meaning) (rest : List ℕ) → FitsFields h → packet.now ≡ slot_head_bytes h ++ rest → ⊥) }
    {
        if packet.len() < HEAD {
            return None;
        }
        if packet[..2] != FIRST[..] {
            return None;
        }
        if packet[8..15] != MARKS[..] {
            return None;
        }
        Some((SlotHead::read(packet), &packet[HEAD..]))
    }

    /// The fields in the first 24 bytes.
    fn read(packet: &[u8]) -> SlotHead
        requires { 24 ≤ length packet.now }
        ensures { head_in result ≡ slot_head_of packet.now }
    {
        SlotHead {
            sequence: u16::from_be_bytes([packet[2], packet[3]]),
            timestamp: u32::from_be_bytes([packet[4], packet[5], packet[6], packet[7]]),
            k: packet[15],
            r: packet[16],
            end: packet[17],
            m: u16::from_be_bytes([packet[18], packet[19]]),
            number: u32::from_be_bytes([packet[20], packet[21], packet[22], packet[23]]),
        }
    }

    /// Whether a packet of a code with this `k` and `r` isn't well shaped. `rest` is what is behind its head.
    pub(crate) fn has_bad_shape(&self, rest: &[u8], k: usize, r: usize, deadline: u32) -> bool
        requires k { k < 256 }
        requires r { r < 256 }
        ensures { MatchBool result (HasBadShape k r deadline (head_in self.now) rest.now) (HasBadShape k r deadline (head_in self.now) rest.now → ⊥) }
    {
        let m = usize::from(self.m);
        if m == 0 {
            return true;
        }
        if rest.len() != (k + r) * m {
            return true;
        }
        if u32::from(self.sequence) != self.number % 65_536 {
            return true;
        }
        if u32::from(self.end) > deadline {
            return true;
        }
        if u64::from(self.end) > u64::from(self.number) + 1 {
            return true;
        }
        if self.end == 0 {
            return false;
        }
        !is_blank(&rest[..k * m])
    }
}
