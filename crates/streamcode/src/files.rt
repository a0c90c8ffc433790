//! The files that the words name.
ghost use Rattle.std.specs.Prelude.{◌≤◌, IfOk, IfErr, length};
ghost use Rattle.sc_channel.specs.declared.flags.TheConstants.{MAX_FLAGS};
ghost use Rattle.streamcode.specs.Files.{BytesCame, BytesLack, CodeCame, CertificateCame, LossCame};

use crate::end::{End, Role};
use sc_channel::{Certificate, Flags};
use sc_code::CodeFile;
use sc_codefile::{read_certificate, read_code, read_loss};
use sc_outside::{Cabinet, FetchFault};
use std::alloc::Global;

/// Of a file at most so many bytes are fetched. One of which so many came is too long.
pub(crate) const MOST_FETCHED: usize = 4_194_305;

/// The bytes of the file of this name, which are fewer than the limit, or how the run ends without them.
fn fetch_text<C: Cabinet>(
    alloc: Global,
    cabinet: &mut C,
    name: &str,
    role: Role,
) -> Result<Vec<u8>, End>
    ensures ok { IfOk result (λ text. BytesCame (C.told cabinet.old) (C.told cabinet.new) name.now text.items) }
    ensures err { IfErr result (BytesLack (C.told cabinet.old) (C.told cabinet.new) name.now role) }
{
    let text = match cabinet.fetch(alloc, name, MOST_FETCHED) {
        Ok(text) => text,
        Err(FetchFault::Failed) => return Err(End::ReadFault),
        Err(FetchFault::Memory) => return Err(End::NoMemory),
    };
    if text.len() == MOST_FETCHED {
        return Err(End::FileTooLong(role));
    }
    Ok(text)
}

/// The code file of this name, or how the run ends without it.
pub(crate) fn fetch_code<C: Cabinet>(
    alloc: Global,
    cabinet: &mut C,
    name: &str,
) -> Result<CodeFile, End>
    ensures { CodeCame (C.told cabinet.old) (C.told cabinet.new) name.now result }
{
    let text = fetch_text(alloc, cabinet, name, Role::Code)?;
    match read_code(alloc, text.as_slice()) {
        Ok(file) => Ok(file),
        Err(fault) => Err(End::of_file(Role::Code, fault)),
    }
}

/// The certificate of the file of this name, or how the run ends without it.
pub(crate) fn fetch_certificate<C: Cabinet>(
    alloc: Global,
    cabinet: &mut C,
    name: &str,
) -> Result<Certificate, End>
    ensures { CertificateCame (C.told cabinet.old) (C.told cabinet.new) name.now result }
{
    let text = fetch_text(alloc, cabinet, name, Role::Certificate)?;
    match read_certificate(alloc, text.as_slice()) {
        Ok(certificate) => Ok(certificate),
        Err(fault) => Err(End::of_file(Role::Certificate, fault)),
    }
}

/// The loss of the file of this name, or how the run ends without it.
pub(crate) fn fetch_loss<C: Cabinet>(
    alloc: Global,
    cabinet: &mut C,
    name: &str,
) -> Result<Flags, End>
    ensures came { LossCame (C.told cabinet.old) (C.told cabinet.new) name.now result }
    ensures limit { IfOk result (λ flags. length flags ≤ MAX_FLAGS) }
{
    let text = fetch_text(alloc, cabinet, name, Role::Loss)?;
    match read_loss(alloc, text.as_slice()) {
        Ok(flags) => Ok(flags),
        Err(fault) => Err(End::of_file(Role::Loss, fault)),
    }
}
