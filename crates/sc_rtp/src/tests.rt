//! Worked packets, by hand and out of a real capture.

ghost use Rattle.std.specs.Prelude.{◌<◌};

use super::*;
use std::process::Abort;
use std::test::Fail;

// The refusal of bytes; `None` where they are a packet.
fn refusal(bytes: &[u8]) -> Option<NotRtp> {
    RtpView::read(bytes).err()
}

const REFUSALS: &[(&[u8], NotRtp)] = &[
    (b"", NotRtp::Short),
    (b"\x80\0\0\0\0\0\0\0\0\0\0", NotRtp::Short),
    (b"\x40\0\0\0\0\0\0\0\0\0\0", NotRtp::Short),
    // version 1, 0 and 3, whatever else is wrong
    (b"\x40\0\0\0\0\0\0\0\0\0\0\0", NotRtp::Version),
    (b"\x3f\0\0\0\0\0\0\0\0\0\0\0", NotRtp::Version),
    (b"\xff\0\0\0\0\0\0\0\0\0\0\0", NotRtp::Version),
    // one CSRC word that isn't there, also where an extension isn't there either
    (b"\x81\0\0\0\0\0\0\0\0\0\0\0", NotRtp::Csrc),
    (b"\xb1\0\0\0\0\0\0\0\0\0\0\0\x01\x02\x03", NotRtp::Csrc),
    // an extension with no bytes, with three, and with a word less than it counts
    (b"\x90\0\0\0\0\0\0\0\0\0\0\0", NotRtp::Extension),
    (b"\xb0\0\0\0\0\0\0\0\0\0\0\0\xbe\xde\0", NotRtp::Extension),
    (
        b"\xb0\0\0\0\0\0\0\0\0\0\0\0\xbe\xde\0\x02\x01\x02\x03\x04\x05\x06\x07",
        NotRtp::Extension,
    ),
    // padding with no byte, with a count of 0, and with one that reaches into the header
    (b"\xa0\0\0\0\0\0\0\0\0\0\0\0", NotRtp::Padding),
    (b"\xa0\0\0\0\0\0\0\0\0\0\0\x01", NotRtp::Padding),
    (b"\xa0\0\0\0\0\0\0\0\0\0\0\0\x01\0", NotRtp::Padding),
    (b"\xa0\0\0\0\0\0\0\0\0\0\0\0\x01\x03", NotRtp::Padding),
];

#[test]
fn refuses_by_the_first_case(rt: HostRuntime) {
    for row in REFUSALS {
        let (bytes, want) = *row;
        assert_eq!(rt; refusal(bytes), Some(want), "at {bytes:?}");
    }
}

// What a packet is read as: marker and payload type; sequence, timestamp and SSRC; CSRC words, header and payload.
type Want<'a> = ((bool, u8), (u16, u32, u32), (u8, usize, &'a [u8]));

fn reads(rt: &impl Abort, packet: &[u8], want: Want) {
    let view = RtpView::read(packet).expect(rt, "a packet");
    let ((marker, payload_type), (sequence, timestamp, ssrc), (csrc_count, header_len, payload)) =
        want;
    assert_eq!(rt; view.marker(), marker);
    assert_eq!(rt; view.payload_type(), payload_type);
    assert_eq!(rt; view.sequence(), sequence);
    assert_eq!(rt; view.timestamp(), timestamp);
    assert_eq!(rt; view.ssrc(), ssrc);
    assert_eq!(rt; view.csrc_count(), csrc_count);
    assert_eq!(rt; view.header_len(), header_len);
    assert_eq!(rt; view.payload(), payload);
}

const PACKETS: &[(&[u8], Want<'static>)] = &[
    // the fixed head alone
    (
        b"\x80\0\0\0\0\0\0\0\0\0\0\0",
        ((false, 0), (0, 0, 0), (0, 12, b"")),
    ),
    // the greatest fields
    (
        b"\x80\xff\xff\xff\xff\xff\xff\xff\xff\xff\xff\xff\xff",
        (
            (true, 127),
            (65535, 4294967295, 4294967295),
            (0, 12, b"\xff"),
        ),
    ),
    // two CSRC words
    (
        b"\x82\x60\x01\x02\x03\x04\x05\x06\x07\x08\x09\x0a\x01\x02\x03\x04\x05\x06\x07\x08\xaa\xbb",
        (
            (false, 96),
            (258, 50595078, 117967114),
            (2, 20, b"\xaa\xbb"),
        ),
    ),
    // an extension of no words, and one of a word
    (
        b"\x90\x60\0\x01\0\0\0\x02\0\0\0\x03\xbe\xde\0\0\xaa",
        ((false, 96), (1, 2, 3), (0, 16, b"\xaa")),
    ),
    (
        b"\x90\x60\0\x01\0\0\0\x02\0\0\0\x03\xbe\xde\0\x01\x10\xff\0\0\xaa",
        ((false, 96), (1, 2, 3), (0, 20, b"\xaa")),
    ),
    // padding behind a payload, and padding alone
    (
        b"\xa0\x60\0\x01\0\0\0\x02\0\0\0\x03\xaa\xbb\0\0\x03",
        ((false, 96), (1, 2, 3), (0, 12, b"\xaa\xbb")),
    ),
    (
        b"\xa0\x60\0\x01\0\0\0\x02\0\0\0\x03\x01",
        ((false, 96), (1, 2, 3), (0, 12, b"")),
    ),
    (
        b"\xa0\x60\0\x01\0\0\0\x02\0\0\0\x03\xaa\x02",
        ((false, 96), (1, 2, 3), (0, 12, b"")),
    ),
    // all of them
    (
        b"\xb1\xe0\x01\0\0\x01\0\0\x01\0\0\0\x01\x02\x03\x04\xbe\xde\0\x01\x10\xff\0\0\xaa\xbb\x09\x02",
        ((true, 96), (256, 65536, 16777216), (1, 24, b"\xaa\xbb")),
    ),
];

#[test]
fn reads_packets(rt: HostRuntime) {
    for row in PACKETS {
        let (packet, want) = *row;
        reads(&rt, packet, want);
    }
}

#[test]
fn reads_real_packets(rt: HostRuntime) {
    for (packet, want) in [
        // records 19 and 20 of a voice call in Opus
        (
            b"\x80\xe1\x0e\x5a\x4d\x09\x5e\x32\xd1\x66\x8b\x2d\x78\x9a\xb2\xdf\x75\x9c\xfc\x49\x49\x10\xce\x5a\xcc\x98\xd0\x2a\xbe\x9f\xfa\x30\x08\xd1\xac\xa7\x50\x7a\x90\xb8\x41\xa9\xa0\x10\xcc\x79\xac\x96\xf2\xe2\xeb\x11\x9d\x1a\xfe\x90\x1f\x7f\xc9\x68\x06\x84\x5a".as_slice(),
            (
                (true, 97),
                (3674, 1292459570, 3513158445),
                (
                    0,
                    12,
                    b"\x78\x9a\xb2\xdf\x75\x9c\xfc\x49\x49\x10\xce\x5a\xcc\x98\xd0\x2a\xbe\x9f\xfa\x30\x08\xd1\xac\xa7\x50\x7a\x90\xb8\x41\xa9\xa0\x10\xcc\x79\xac\x96\xf2\xe2\xeb\x11\x9d\x1a\xfe\x90\x1f\x7f\xc9\x68\x06\x84\x5a".as_slice(),
                ),
            ),
        ),
        (
            b"\x80\xe1\x0e\x5b\x4d\x09\x61\xf2\xd1\x66\x8b\x2d\x78\x9a\xb2\xdf\x75\x9c\xfc\x4b\x3a\x46\x23\x88\x6b\x31\x86\x28\x44\xf3\0\xea\xa7\xf2\x37\xad\x17\xdd\x7a\x84\xf3\x31\x28\x9b\xf3\xc5\x63\xe2\xc1\0\xd5\xa3\x3e\x4c\x05\xc0\x88\xde\x5c\xac\x49\x95\x09\xa1\xba\x4d".as_slice(),
            (
                (true, 97),
                (3675, 1292460530, 3513158445),
                (
                    0,
                    12,
                    b"\x78\x9a\xb2\xdf\x75\x9c\xfc\x4b\x3a\x46\x23\x88\x6b\x31\x86\x28\x44\xf3\0\xea\xa7\xf2\x37\xad\x17\xdd\x7a\x84\xf3\x31\x28\x9b\xf3\xc5\x63\xe2\xc1\0\xd5\xa3\x3e\x4c\x05\xc0\x88\xde\x5c\xac\x49\x95\x09\xa1\xba\x4d".as_slice(),
                ),
            ),
        ),
    ] {
        reads(&rt, packet, want);
    }
}

// The head that is written over other bytes.
fn head_of(payload_type: u8, sequence: u16, timestamp: u32, ssrc: u32) -> [u8; 12]
    requires { payload_type < 128 }
{
    let mut out = [0x55; 12];
    write_head(&mut out, payload_type, sequence, timestamp, ssrc);
    out
}

#[test]
fn writes_heads(rt: HostRuntime) {
    for (head, want) in [
        (head_of(0, 0, 0, 0), b"\x80\0\0\0\0\0\0\0\0\0\0\0"),
        (
            head_of(96, 0x0102, 0x0304_0506, 0x5343_4431),
            b"\x80\x60\x01\x02\x03\x04\x05\x06SCD1",
        ),
        (
            head_of(127, u16::MAX, u32::MAX, u32::MAX),
            b"\x80\x7f\xff\xff\xff\xff\xff\xff\xff\xff\xff\xff",
        ),
    ] {
        assert_eq!(rt; &head, want);
    }
    one_reading();
}
