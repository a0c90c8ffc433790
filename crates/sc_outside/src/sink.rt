//! Sinks: an output alone, for the note at the end of a run.
ghost use Rattle.std.specs.Prelude.{◌<◌, length};
ghost use Rattle.sc_outside.specs.Sink.{SinkTold, SinkGives};

use super::error::Failed;

/// An output of bytes. Of this project. What was given is optional, as in a port.
pub trait Sink {
    /// What it tells: the bytes given and its count of faults, which never falls.
    ghost told: { Self → SinkTold };

    /// Appends a prefix of `piece` that isn't empty, and answers its length. It answers `Failed` only where the count
    /// of faults rose; then nothing was appended.
    fn write(&mut self, piece: &[u8]) -> Result<usize, Failed>
        requires { 0 < length piece.now }
        ensures { SinkGives (told self.old) (told self.new) piece.now result };
}
