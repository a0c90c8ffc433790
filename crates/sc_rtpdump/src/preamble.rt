//! The preamble of a capture.
ghost use Rattle.std.specs.Prelude.{◌≡◌, ◌≤◌, [], length, vec_capacity, ◌+◌, ◌-◌};
ghost use Rattle.sc_rtpdump.specs.declared.preamble.TheConstants.{LINE_LIMIT, FIELDS};
ghost use Rattle.sc_rtpdump.specs.Preamble.{IsPreamble, PreambleGives, PartsGive, MagicGives, ByteGives, LineGives};

use super::fault::DumpFault;
use super::record::zeros;
use sc_outside::{Failed, Port, read_exact_or_end};
use std::alloc::Global;
use std::marker::Model;

/// The bytes with which the first line begins.
const MAGIC: [u8; 13] = *b"#!rtpplay1.0 ";

/// The longest first line, with its newline.
const LINE_LIMIT: usize = 4096;

/// The bytes between the first line and the first record: start seconds and microseconds, source address, port, padding.
const FIELDS: usize = 16;

/// The preamble of a capture, kept byte for byte: its first line and 16 bytes, which aren't read.
#[derive(Debug, Drop)]
pub struct Preamble {
    bytes: Vec<u8>,
}

impl Model for Preamble {
    ghost use Rattle.std.specs.Prelude.{List, ℕ};
    ghost use Rattle.sc_rtpdump.specs.declared.preamble.TheConstants.{LINE_LIMIT, FIELDS};
    ghost use Rattle.sc_rtpdump.specs.Preamble.{IsPreamble};

    ghost Value = { List ℕ };

    ghost view = { λ p. p.bytes.items };

    ghost invariant = { λ p. IsPreamble p.bytes.items };
}

impl Preamble {
    /// The line and the 16 bytes.
    pub fn bytes(&self) -> &[u8]
        ensures bytes { result.now ≡ self.now }
        ensures preamble { IsPreamble self.now }
    {
        self.bytes.as_slice()
    }
}

/// Reads the first bytes of the first line. False where they aren't those of a preamble.
fn read_magic<P: Port>(port: &mut P) -> Result<bool, Failed>
    ensures { MagicGives (P.told port.old) (P.told port.new) result }
{
    let mut bytes = [0; MAGIC.len()];
    if read_exact_or_end(port, &mut bytes)? < MAGIC.len() {
        return Ok(false);
    }
    if bytes[..] != MAGIC[..] {
        return Ok(false);
    }
    Ok(true)
}

/// Reads one byte. `None` at the end of the input.
fn read_byte<P: Port>(port: &mut P) -> Result<Option<u8>, Failed>
    ensures { ByteGives (P.told port.old) (P.told port.new) result }
{
    let mut bytes = [0];
    if read_exact_or_end(port, &mut bytes)? == 0 {
        return Ok(None);
    }
    Ok(Some(bytes[0]))
}

/// Reads to the first newline, byte by byte, and answers its place. `None` where there is none in so many bytes.
fn read_line<P: Port>(port: &mut P, bytes: &mut [u8]) -> Result<Option<usize>, Failed>
    ensures { LineGives (P.told port.old) (P.told port.new) bytes.new result }
{
    for i in 0..bytes.len() {
        let byte = match read_byte(port)? {
            Some(byte) => byte,
            None => return Ok(None),
        };
        bytes[i] = byte;
        if byte == b'\n' {
            return Ok(Some(i));
        }
    }
    Ok(None)
}

/// Reads the three parts of a preamble, and puts them into an empty buffer with room for them. `line` has room for the
/// longest line behind the magic.
fn read_parts<P: Port>(port: &mut P, bytes: &mut Vec<u8>, line: &mut [u8]) -> Result<(), DumpFault>
    requires empty { bytes.old.items ≡ [] }
    requires room { LINE_LIMIT + FIELDS ≤ vec_capacity bytes.old }
    requires line { length line.old ≡ LINE_LIMIT - 13 }
    ensures { PartsGive (P.told port.old) (P.told port.new) bytes.new.items result }
{
    match read_magic(port) {
        Ok(true) => {}
        Ok(false) => return Err(DumpFault::Preamble),
        Err(Failed) => return Err(DumpFault::Read),
    }
    let newline = match read_line(port, line) {
        Ok(Some(place)) => place,
        Ok(None) => return Err(DumpFault::Preamble),
        Err(Failed) => return Err(DumpFault::Read),
    };
    let mut fields = [0; FIELDS];
    match read_exact_or_end(port, &mut fields) {
        Ok(FIELDS) => {}
        Ok(_) => return Err(DumpFault::Preamble),
        Err(Failed) => return Err(DumpFault::Read),
    }
    bytes.extend_from_slice(&MAGIC).unwrap();
    bytes.extend_from_slice(&line[..newline + 1]).unwrap();
    bytes.extend_from_slice(&fields).unwrap();
    Ok(())
}

/// Reads a preamble, and takes exactly its bytes. `Preamble` comes exactly where the input doesn't begin with one, and
/// `Read` only where a read failed; then less than a whole preamble was taken. After `Memory` nothing was taken.
pub fn read_preamble<P: Port>(alloc: Global, port: &mut P) -> Result<Preamble, DumpFault>
    ensures { PreambleGives (P.told port.old) (P.told port.new) result }
{
    let Ok(mut bytes) = Vec::with_capacity(alloc, LINE_LIMIT + FIELDS) else {
        return Err(DumpFault::Memory);
    };
    let Ok(mut line) = zeros(alloc, LINE_LIMIT - MAGIC.len()) else {
        return Err(DumpFault::Memory);
    };
    read_parts(port, &mut bytes, &mut line)?;
    Ok(Preamble { bytes })
}
