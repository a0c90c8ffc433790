//! The fixed head of a packet: its first 12 bytes (RFC 3550, 5.1).
ghost use Rattle.std.specs.Prelude.{◌≡◌, ◌<◌, ◌≤◌, length};
ghost use Rattle.sc_rtp.specs.Head.{head_bytes, head_of};
ghost use Rattle.sc_rtp.specs.Packet.{plain_head};
ghost use Rattle.sc_rtp.specs.Reading.{ReadsBack};

// The bytes of the fixed head.
pub(crate) const FIXED: usize = 12;

// The fields of the fixed head.
#[derive(Clone, Copy, Debug, PartialEq, Eq)]
pub(crate) struct Head {
    pub version: u8,
    pub padded: bool,
    pub extended: bool,
    pub csrc_count: u8,
    pub marker: bool,
    pub payload_type: u8,
    pub sequence: u16,
    pub timestamp: u32,
    pub ssrc: u32,
}

impl Head {
    // The head with which a packet begins.
    #[tactic(auto, unfolding(crate::specs::Head::head_of))]
    pub(crate) fn of(packet: &[u8]) -> Head
        requires { 12 ≤ length packet.now }
        ensures { result ≡ head_of packet.now }
    {
        let first = packet[0];
        let second = packet[1];
        Head {
            version: first >> 6,
            padded: first >> 5 & 1 == 1,
            extended: first >> 4 & 1 == 1,
            csrc_count: first & 0x0f,
            marker: second >> 7 == 1,
            payload_type: second & 0x7f,
            sequence: u16::from_be_bytes([packet[2], packet[3]]),
            timestamp: u32::from_be_bytes([packet[4], packet[5], packet[6], packet[7]]),
            ssrc: u32::from_be_bytes([packet[8], packet[9], packet[10], packet[11]]),
        }
    }
}

/// Writes the head of a packet that has no padding, no extension, no CSRC words and no marker (RFC 3550, 5.1), each field
/// in network byte order. With any payload behind it, it is read back with these fields.
pub fn write_head(out: &mut [u8; 12], payload_type: u8, sequence: u16, timestamp: u32, ssrc: u32)
    requires { payload_type < 128 }
    ensures head { out.new ≡ head_bytes (plain_head payload_type sequence timestamp ssrc) }
    ensures read_back { ReadsBack out.new (plain_head payload_type sequence timestamp ssrc) }
{
    let sequence = sequence.to_be_bytes();
    let timestamp = timestamp.to_be_bytes();
    let ssrc = ssrc.to_be_bytes();
    *out = [
        0x80,
        payload_type,
        sequence[0],
        sequence[1],
        timestamp[0],
        timestamp[1],
        timestamp[2],
        timestamp[3],
        ssrc[0],
        ssrc[1],
        ssrc[2],
        ssrc[3],
    ];
}
