//! A cabinet over the machine's files, by their paths.
ghost use Rattle.std.specs.Prelude.{◌≡◌, ◌≤◌, None, IfOk, vec_len};
ghost use Rattle.std.specs.Io.{ReadsAtMost};
ghost use Rattle.sc_outside.specs.DirCabinet.{dir_told, StartGives, ReadsOnto};

use super::cabinet::{Cabinet, FetchFault};
use super::stream::read_some;
use std::alloc::Global;
use std::fs;
use std::io::{ErrorKind, Read};
use std::rt::Files;

#[cfg(test)]
mod tests;

/// How many bytes are read from a file at a time.
const PIECE: usize = 1 << 16;

/// The files of a file system, by their paths, relative to the folder that the process runs in. No contract can say
/// which bytes a file holds, so it tells none. A file that can't be opened, and a read that fails, raise the count of
/// faults by one. A read that is interrupted is made again, 1,000 times at most.
#[derive(Drop)]
pub struct DirCabinet<R> {
    files: R,
    faults: u64,
}

impl<R: Files> DirCabinet<R> {
    /// The cabinet over a file system. Its count starts at 0.
    pub fn new(files: R) -> DirCabinet<R>
        ensures { dir_told result ≡ record { files = None; faults = 0 } }
    {
        DirCabinet { files, faults: 0 }
    }

    /// The first `limit` bytes of the file of this path.
    fn fetch_once(&self, alloc: Global, path: &str, limit: usize) -> Result<Vec<u8>, FetchFault>
        ensures { IfOk result (λ bytes. vec_len bytes ≤ limit) }
    {
        match fs::open(&self.files, path) {
            Ok(mut file) => start_of(alloc, &mut file, limit),
            Err(error) => Err(why(error.kind())),
        }
    }
}

impl<R: Files> Cabinet for DirCabinet<R> {
    ghost told = { dir_told };

    fn fetch(&mut self, alloc: Global, name: &str, limit: usize) -> Result<Vec<u8>, FetchFault> {
        let fetched = self.fetch_once(alloc, name, limit);
        if let Err(FetchFault::Failed) = fetched {
            self.faults = self.faults.saturating_add(1);
        }
        fetched
    }
}

/// Why a file wasn't opened.
fn why(kind: ErrorKind) -> FetchFault {
    match kind {
        ErrorKind::OutOfMemory => FetchFault::Memory,
        _ => FetchFault::Failed,
    }
}

/// The first `limit` bytes that a reader has left, or all of them where they are fewer. It reads no byte past them.
fn start_of<R: Read>(alloc: Global, input: &mut R, limit: usize) -> Result<Vec<u8>, FetchFault>
    ensures { StartGives (R.remaining input.old) (R.remaining input.new) limit result }
{
    let mut bytes = Vec::new(alloc);
    let mut piece = vec![in alloc; 0; PIECE.min(limit)]?;
    while bytes.len() < limit {
        let room = piece.len().min(limit - bytes.len());
        if read_onto(input, &mut piece[..room], &mut bytes)? == 0 {
            break;
        }
    }
    Ok(bytes)
}

/// Reads into the front of `piece`, and puts what was read behind `bytes`.
fn read_onto<R: Read>(
    input: &mut R,
    piece: &mut [u8],
    bytes: &mut Vec<u8>,
) -> Result<usize, FetchFault>
    ensures bound { ReadsAtMost result piece.new }
    ensures read { IfOk result (λ n. ReadsOnto (R.remaining input.old) (R.remaining input.new) piece.new bytes.old.items bytes.new.items n) }
{
    let n = read_some(input, piece)?;
    bytes.extend_from_slice(&piece[..n])?;
    Ok(n)
}
