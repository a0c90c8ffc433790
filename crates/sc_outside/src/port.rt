//! Ports: an input and an output in one object, so that the order of its reads and writes can be told.
ghost use Rattle.std.specs.Prelude.{◌<◌, length};
ghost use Rattle.sc_outside.specs.Port.{Told, ReadGives, WriteGives};

use super::error::Failed;

/// An input and an output of bytes. Of this project.
///
/// What it holds is optional: an object in memory tells it, an adapter over other streams as far as these tell it, and the
/// process's own streams don't.
/// It counts the faults of its reads and of its writes apart. The counts never fall, and a call that succeeds leaves both
/// as they were.
pub trait Port {
    /// What it tells: the bytes left to be read, the bytes given, its journal and its two counts of faults.
    ghost told: { Self → Told };

    /// Moves at least one byte, and at most as many as `buf` has room for, from the start of what is left to the
    /// start of `buf`, and answers their number. It answers 0 only where nothing is left, and `Failed` only where the
    /// count of read faults rose; then nothing was moved.
    fn read(&mut self, buf: &mut [u8]) -> Result<usize, Failed>
        requires { 0 < length buf.old }
        ensures { ReadGives (told self.old) (told self.new) buf.new result };

    /// Appends a prefix of `piece` that isn't empty to what is given, and answers its length. It answers `Failed` only
    /// where the count of write faults rose; then nothing was appended.
    fn write(&mut self, piece: &[u8]) -> Result<usize, Failed>
        requires { 0 < length piece.now }
        ensures { WriteGives (told self.old) (told self.new) piece.now result };

    /// How many bytes a read would give without waiting, as far as the port knows. It is a hint for speed alone, and
    /// promises nothing.
    fn ready(&self) -> usize {
        0
    }
}
