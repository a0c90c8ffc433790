//! Single calls of std's readers and writers, tried again where they were interrupted.
ghost use Rattle.std.specs.Prelude.{◌<◌, IfOk};
ghost use Rattle.std.specs.Io.{ReadsAtMost, WritesAtMost};
ghost use Rattle.std.specs.Io.KnownBytes.{ReadConsumes, WriteAppends};

use super::error::Failed;
use std::io::{ErrorKind, Read, Write};

#[cfg(test)]
pub(crate) mod tests;

/// How often an interrupted call is tried again.
const RETRIES: u32 = 1000;

/// A read, made again where it was interrupted.
#[tactic(auto, using(crate::proofs::StreamSteps::interrupted))]
pub(crate) fn read_some<R: Read>(input: &mut R, buf: &mut [u8]) -> Result<usize, Failed>
    ensures bound { ReadsAtMost result buf.new }
    ensures bytes { ReadConsumes (R.remaining input.old) (R.remaining input.new) result buf.new }
{
    for _ in 0..=RETRIES {
        match input.read(buf) {
            Ok(n) => return Ok(n),
            Err(error) if error.kind() == ErrorKind::Interrupted => {}
            Err(_) => return Err(Failed),
        }
    }
    Err(Failed)
}

/// A write, made again where it was interrupted. It fails where nothing was written.
#[tactic(auto, using(crate::proofs::StreamSteps::interrupted))]
pub(crate) fn write_some<W: Write>(output: &mut W, piece: &[u8]) -> Result<usize, Failed>
    ensures some { IfOk result (λ n. 0 < n) }
    ensures bound { WritesAtMost result piece.now }
    ensures bytes { WriteAppends (W.contents output.old) (W.contents output.new) result piece.now }
{
    for _ in 0..=RETRIES {
        match output.write(piece) {
            Ok(0) => return Err(Failed),
            Ok(n) => return Ok(n),
            Err(error) if error.kind() == ErrorKind::Interrupted => {}
            Err(_) => return Err(Failed),
        }
    }
    Err(Failed)
}
