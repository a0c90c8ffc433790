//! Worked captures and losses, which a Python script drew, and each public call once.

ghost use Rattle.std.specs.Prelude.{◌≤◌};

use super::*;
use sc_channel::{Channel, first_bad_window};
use sc_code::{Code, CodeFile};
use sc_field::{Field, Gf256};
use sc_matrix::Matrix;
use sc_outside::{MemoryPort, NoMemory};
use sc_rtpdump::{DumpRecord, Kind, kind_of, next_record, read_preamble};
use std::alloc::Global;
use std::test::Fail;

// The standard preamble.
const PREAMBLE: &[u8] =
    b"#!rtpplay1.0 127.0.0.1/5004\n\x00\x00\x00\x00\x00\x00\x00\x00\x7f\x00\x00\x01\x13\x8c\x00\x00";

// A port with this input, and room for so many bytes in pieces of so many, where one call fails.
fn port_of(alloc: Global, input: Vec<u8>, room: usize, fail: u32) -> Result<MemoryPort, NoMemory> {
    let fails = vec![in alloc; fail]?;
    MemoryPort::new(alloc, input, room, 10_000, 65_536, fails)
}

#[test]
fn generates_captures(rt: HostRuntime) -> Result<(), Fail> {
    for (seed, count, size, len, last) in [
        (42, 1, 16, 68, b"\x12\x34\x56\x78\xb7\x09\x30\x93"),
        (42, 0, 12, 44, b"\x7f\x00\x00\x01\x13\x8c\x00\x00"),
        (2, 2, 14, 88, b"\x00\xa0\x12\x34\x56\x78\x54\x7b"),
        (
            4_294_967_298,
            2,
            14,
            88,
            b"\x00\xa0\x12\x34\x56\x78\x94\x7f",
        ),
    ] {
        let mut port = port_of(rt.alloc(), Vec::new(rt.alloc()), 1000, 10_000)?;
        assert!(rt; gen_capture(rt.alloc(), seed, count, size, &mut port).is_ok());
        assert!(rt; port.given().starts_with(PREAMBLE));
        assert_eq!(rt; port.given().len(), len);
        assert!(rt; port.given().ends_with(last), "{seed} {count} {size}");
    }
    Ok(())
}

// What was generated is read back: records of RTP packets, drawn to the last. Many go by one write.
#[test]
fn generates_many_records(rt: HostRuntime) -> Result<(), Fail> {
    let mut port = port_of(rt.alloc(), Vec::new(rt.alloc()), 1_000_000, 10_000)?;
    assert_eq!(rt; gen_capture(rt.alloc(), 7, 3000, 172, &mut port), Ok(()));
    assert_eq!(rt; port.given().len(), 540_044);
    assert_eq!(rt; port.journal().len(), 9);
    assert!(rt; port.given().ends_with(b"\x14\x24\xff\xbe\x58\xc6\x29\x3c"));

    let bytes = port.given().to_vec(rt.alloc())?;
    let mut port = port_of(rt.alloc(), bytes, 0, 10_000)?;
    let mut record = DumpRecord::start(rt.alloc())?;
    assert!(rt; read_preamble(rt.alloc(), &mut port).is_ok());
    for i in 0..3000 {
        assert_eq!(rt; next_record(&mut port, i, &mut record), Ok(true));
        assert_eq!(rt; record.offset(), 20 * i);
        assert_eq!(rt; kind_of(&record), Kind::Rtp);
    }
    assert_eq!(rt; next_record(&mut port, 3000, &mut record), Ok(false));
    generated_is_a_capture();
    Ok(())
}

// A write fails in the second of three blocks.
#[test]
fn stops_at_a_failed_write(rt: HostRuntime) -> Result<(), Fail> {
    let mut port = port_of(rt.alloc(), Vec::new(rt.alloc()), 1_000_000, 4)?;
    let fault = GenFault::Write;
    assert_eq!(rt;
        gen_capture(rt.alloc(), 7, 3000, 172, &mut port),
        Err(fault)
    );
    assert_eq!(rt; port.given().len(), 196_604 + 65_536);
    for (fault, text) in [
        (GenFault::Write, "write fault"),
        (GenFault::Memory, "no memory"),
    ] {
        let printed = format!(in rt.alloc(); "{fault}")?;
        assert_eq!(rt; printed.as_str(), text);
    }
    Ok(())
}

// Losses as a Python script draws them, which judges each part of at most a window's flags by its span and its count.
#[test]
fn generates_losses(rt: HostRuntime) -> Result<(), Fail> {
    for (seed, w, b, n, t, want) in [
        (42, 3, 2, 1, 2, "110000"),
        (42, 3, 2, 1, 2, "110000011000001100011001"),
        (42, 11, 4, 2, 10, "1100000000000011110000000001110000000000"),
        (4_294_967_338, 3, 2, 1, 2, "000100001000011001000001"),
        (42, 3, 2, 1, 2, ""),
    ] {
        let channel = Channel::new(w, b, n, t)?;
        let loss = gen_loss(rt.alloc(), seed, &channel, want.len() as u32)?;
        assert_eq!(rt; loss.len(), want.len());
        for (lost, byte) in loss.as_slice().iter().zip(want.as_bytes()) {
            assert_eq!(rt; *lost, *byte == b'1', "{seed} {w} {want}");
        }
    }
    Ok(())
}

// Losses of many slots, also of the widest window: admissible, and so many are lost.
#[test]
fn generates_long_losses(rt: HostRuntime) -> Result<(), Fail> {
    for (seed, w, b, n, t, len, lost) in [
        (7, 11, 4, 2, 10, 10_000, 1593),
        (7, 3, 2, 1, 2, 10_002, 2521),
        (1, 255, 40, 3, 40, 2000, 94),
    ] {
        let channel = Channel::new(w, b, n, t)?;
        let loss = gen_loss(rt.alloc(), seed, &channel, len)?;
        assert_eq!(rt; loss.len(), len as usize);
        assert_eq!(rt; loss.as_slice().iter().filter(|flag| **flag).count(), lost);
        assert_eq!(rt; first_bad_window(&channel, loss.as_slice()), None);
    }
    one_generated_loss();
    Ok(())
}

// The code of blocks of one symbol whose parity has `r` symbols, the first of which is the block two slots before, for a
// channel of windows of 3 slots, spans of 2, `n` losses anywhere and the deadline 2.
fn delayed(alloc: Global, r: usize, n: u32) -> Result<CodeFile, Fail>
    requires { (1 ≤ r) × (r ≤ 64) }
{
    let mut lags = Vec::new(alloc);
    lags.push(Matrix::zeros(alloc, 1, r)?)?;
    lags.push(Matrix::zeros(alloc, 1, r)?)?;
    let mut last = Matrix::zeros(alloc, 1, r)?;
    last.set(0, 0, Gf256::one());
    lags.push(last)?;
    Ok(CodeFile {
        channel: Channel::new(3, 2, n, 2)?,
        code: Code::new(1, r, lags)?,
    })
}

// Trials as a Python script counts them, which draws the loss and judges each packet by itself: with this code one comes back
// exactly where its own slot isn't lost or that of the deadline isn't. The second code doesn't meet its channel.
#[test]
fn counts_what_comes_back(rt: HostRuntime) -> Result<(), Fail> {
    for (n, seed, count, size, numbers) in [
        (1, 42, 4, 12, (6, 2, 4, 0)),
        (1, 42, 60, 200, (62, 24, 60, 0)),
        (1, 42, 0, 12, (2, 2, 0, 0)),
        (2, 42, 60, 13, (62, 28, 54, 6)),
        (2, 7, 1000, 172, (1002, 319, 916, 84)),
        (2, 9, 1, 1472, (3, 1, 1, 0)),
    ] {
        assert!(rt; count <= MAX_TRIAL && size >= MIN_SIZE && size <= MAX_SIZE);
        let file = delayed(rt.alloc(), 1, n)?;
        let (slots, lost, equal, missed) = numbers;
        let want = Trial {
            slots,
            lost,
            equal,
            missed,
        };
        let trial = trial(rt.alloc(), &file, seed, count, size);
        assert_eq!(rt; trial, Ok(want), "{n} {seed} {count} {size}");
    }
    Ok(())
}

// The most packets.
#[test]
fn counts_many(rt: HostRuntime) -> Result<(), Fail> {
    let file = delayed(rt.alloc(), 1, 1)?;
    let want = Trial {
        slots: 10_002,
        lost: 2521,
        equal: 10_000,
        missed: 0,
    };
    let trial = trial(rt.alloc(), &file, 7, MAX_TRIAL, 172);
    assert_eq!(rt; trial, Ok(want));
    Ok(())
}

// Of 24 bytes and 64 symbols of 1,478 bytes, and of 44 symbols, which is the least number that is too wide.
#[test]
fn refuses_wide_packets(rt: HostRuntime) -> Result<(), Fail> {
    for (r, fault) in [(63, Some(94_616)), (44, Some(66_534)), (43, None)] {
        assert!(rt; r >= 1 && r <= 64);
        let file = delayed(rt.alloc(), r, 1)?;
        let right = match trial(rt.alloc(), &file, 42, 2, 1472) {
            Ok(trial) => fault.is_none() && trial.equal == 2,
            Err(TrialFault::TooWide(bytes)) => fault == Some(bytes),
            Err(TrialFault::Memory) => false,
        };
        assert!(rt; right, "{r}");
    }
    for (fault, text) in [
        (
            TrialFault::TooWide(94_616),
            "a protected packet has 94616 bytes",
        ),
        (TrialFault::Memory, "no memory"),
    ] {
        let printed = format!(in rt.alloc(); "{fault}")?;
        assert_eq!(rt; printed.as_str(), text);
    }
    Ok(())
}
