//! Whole reads and writes over the single calls of a port or a sink. They take no memory.
ghost use Rattle.std.specs.Prelude.{length, IfOk, OnOk, OnErr};
ghost use Rattle.sc_outside.specs.Whole.{FillsOrEnds, ReadFailed, PutsAll, WriteFailed, SinkGets, SinkFailed};

use super::error::Failed;
use super::port::Port;
use super::sink::Sink;

/// Reads until `buf` is full or the input ends, and answers the number of bytes, which stand at the start of `buf`.
/// After `Failed` fewer bytes than `buf` has room for were taken.
pub fn read_exact_or_end<P: Port>(port: &mut P, buf: &mut [u8]) -> Result<usize, Failed>
    ensures ok { IfOk result (λ n. FillsOrEnds (P.told port.old) (P.told port.new) n buf.new) }
    ensures err { OnErr result (ReadFailed (P.told port.old) (P.told port.new) (length buf.new)) }
{
    let mut filled = 0;
    while filled < buf.len() {
        let taken = port.read(&mut buf[filled..])?;
        if taken == 0 {
            break;
        }
        filled += taken;
    }
    Ok(filled)
}

/// Writes all of `piece`. After `Failed` a prefix of it that isn't the whole was written.
pub fn write_whole<P: Port>(port: &mut P, piece: &[u8]) -> Result<(), Failed>
    ensures ok { OnOk result (PutsAll (P.told port.old) (P.told port.new) piece.now) }
    ensures err { OnErr result (WriteFailed (P.told port.old) (P.told port.new) piece.now) }
{
    let mut rest = piece;
    while !rest.is_empty() {
        let written = port.write(rest)?;
        rest = &rest[written..];
    }
    Ok(())
}

/// Writes all of `piece` to a sink. After `Failed` a prefix of it that isn't the whole was written.
pub fn tell_whole<N: Sink>(sink: &mut N, piece: &[u8]) -> Result<(), Failed>
    ensures ok { OnOk result (SinkGets (N.told sink.old) (N.told sink.new) piece.now) }
    ensures err { OnErr result (SinkFailed (N.told sink.old) (N.told sink.new) piece.now) }
{
    let mut rest = piece;
    while !rest.is_empty() {
        let told = sink.write(rest)?;
        rest = &rest[told..];
    }
    Ok(())
}
