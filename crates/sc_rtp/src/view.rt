//! The reader of a packet.
ghost use Rattle.std.specs.Prelude.{◌≡◌, ◌<◌, length};
ghost use Rattle.sc_rtp.specs.Packet.{header_size};
ghost use Rattle.sc_rtp.specs.Refusal.{ReadGives};
ghost use Rattle.sc_rtp.specs.Reading.{reading_of, extension_size, padding_size};

use super::head::{FIXED, Head};
use super::not_rtp::NotRtp;
use std::marker::Model;

// The bytes of a CSRC word, or of a word of an extension.
const WORD: usize = 4;

/// An RTP packet (RFC 3550, 5.1), seen in the bytes that were read. It takes no memory.
#[derive(Debug, Drop)]
pub struct RtpView<'a> {
    packet: &'a [u8],
    head: Head,
    header_len: usize,
    payload: &'a [u8],
}

impl<'a> Model for RtpView<'a> {
    ghost use Rattle.sc_rtp.specs.Packet.{Packet};
    ghost use Rattle.sc_rtp.specs.Reading.{packet_in, Holds};

    ghost Value = { Packet };

    ghost view = { λ v. packet_in v.packet.now };

    ghost invariant = { λ v. Holds v.packet.now v.head v.header_len v.payload.now };
}

// The bytes of the extension with which `rest` begins: none where none is announced. `Extension` comes where it isn't
// all there.
fn extension_len(extended: bool, rest: &[u8]) -> Result<usize, NotRtp>
    ensures { result ≡ extension_size extended rest.now }
{
    if !extended {
        return Ok(0);
    }
    if rest.len() < WORD {
        return Err(NotRtp::Extension);
    }
    let words = u16::from_be_bytes([rest[2], rest[3]]);
    let len = WORD + WORD * usize::from(words);
    if rest.len() < len {
        return Err(NotRtp::Extension);
    }
    Ok(len)
}

// The bytes of padding at the end of what follows a header: none where none is announced. `Padding` comes where no
// byte is there, or the last byte, which counts them, is 0 or greater than their number.
fn padding_len(padded: bool, rest: &[u8]) -> Result<usize, NotRtp>
    ensures { result ≡ padding_size padded rest.now }
{
    if !padded {
        return Ok(0);
    }
    let Some(last) = rest.last() else {
        return Err(NotRtp::Padding);
    };
    let count = usize::from(*last);
    if count == 0 || rest.len() < count {
        return Err(NotRtp::Padding);
    }
    Ok(count)
}

impl<'a> RtpView<'a> {
    /// Reads a packet. Bytes that are none are refused by the first case of `NotRtp` that holds.
    pub fn read(packet: &'a [u8]) -> Result<RtpView<'a>, NotRtp>
        ensures reading { result ≡ reading_of packet.now }
        ensures gives { ReadGives packet.now result }
    {
        if packet.len() < FIXED {
            return Err(NotRtp::Short);
        }
        let head = Head::of(packet);
        if head.version != 2 {
            return Err(NotRtp::Version);
        }
        let rest = &packet[FIXED..];
        let csrc_len = WORD * usize::from(head.csrc_count);
        if rest.len() < csrc_len {
            return Err(NotRtp::Csrc);
        }
        let rest = &rest[csrc_len..];
        let rest = &rest[extension_len(head.extended, rest)?..];
        let payload = &rest[..rest.len() - padding_len(head.padded, rest)?];
        Ok(RtpView {
            packet,
            head,
            header_len: packet.len() - rest.len(),
            payload,
        })
    }

    /// The marker.
    pub fn marker(&self) -> bool
        ensures { result ≡ self.now.head.marker }
    {
        self.head.marker
    }

    /// The payload type, below 128.
    pub fn payload_type(&self) -> u8
        ensures value { result ≡ self.now.head.payload_type }
        ensures small { result < 128 }
    {
        self.head.payload_type
    }

    /// The sequence number.
    pub fn sequence(&self) -> u16
        ensures { result ≡ self.now.head.sequence }
    {
        self.head.sequence
    }

    /// The timestamp.
    pub fn timestamp(&self) -> u32
        ensures { result ≡ self.now.head.timestamp }
    {
        self.head.timestamp
    }

    /// The synchronization source.
    pub fn ssrc(&self) -> u32
        ensures { result ≡ self.now.head.ssrc }
    {
        self.head.ssrc
    }

    /// The number of CSRC words, at most 15.
    pub fn csrc_count(&self) -> u8
        ensures value { result ≡ length self.now.csrcs }
        ensures small { result < 16 }
    {
        self.head.csrc_count
    }

    /// The bytes before the payload: the fixed head, the CSRC words and the extension.
    pub fn header_len(&self) -> usize
        ensures { result ≡ header_size self.now }
    {
        self.header_len
    }

    /// What follows the header, without the padding.
    pub fn payload(&self) -> &'a [u8]
        ensures { result.now ≡ self.now.payload }
    {
        self.payload
    }
}
