//! `design`: a code that meets a channel.
ghost use Rattle.std.specs.Prelude.{◌≡◌, Ok};
ghost use Rattle.sc_outside.specs.Ends.{Ends};
ghost use Rattle.streamcode.specs.Jobs.{maker_of, design_by, design_job, IsSilent};

use crate::end::End;
use crate::give::give;
use sc_channel::Channel;
use sc_check::Gate;
use sc_code::CodeFile;
use sc_codefile::print_code;
use sc_optimal::{Found, MakerKind, first_good};
use sc_outside::{NoMemory, Port};
use sc_words::Kind;
use std::alloc::Global;
use std::thread::Threads;

/// The maker that a kind of codes stands for.
fn maker_of(kind: Kind) -> MakerKind
    ensures { result ≡ maker_of kind }
{
    match kind {
        Kind::Ms => MakerKind::Ms,
        Kind::Layered => MakerKind::Layered,
        Kind::Optimal => MakerKind::Optimal,
    }
}

/// Gives the code file of a code that was found.
fn give_found<P: Port>(alloc: Global, channel: Channel, found: Found, port: &mut P) -> End
    ensures { Ends (design_by channel (Ok found)) (P.told port.old) (P.told port.new) result }
{
    let Found { candidate, code } = found;
    let k = code.k() as u32;
    let n = (code.k() + code.r()) as u32;
    let file = CodeFile { channel, code };
    let mut text = match print_code(alloc, &file) {
        Ok(text) => text,
        Err(NoMemory) => return End::NoMemory,
    };
    if text.push(b'\n').is_err() {
        return End::NoMemory;
    }
    give(port, text.as_slice(), End::Designed(candidate, k, n))
}

/// Gives the code file of the first candidate of a kind that meets a channel, or tells why there is none.
pub(crate) fn design<R: Threads + Sync, P: Port, G: Gate + Sync>(
    rt: &R,
    alloc: Global,
    kind: Kind,
    channel: Channel,
    port: &mut P,
    gate: &G,
) -> End
    ensures ends { Ends (design_job kind channel) (P.told port.old) (P.told port.new) result }
    ensures untouched { IsSilent (design_job kind channel) → port.new ≡ port.old }
{
    match first_good(rt, alloc, maker_of(kind), &channel, gate) {
        Ok(found) => give_found(alloc, channel, found, port),
        Err(fault) => End::of_design(fault),
    }
}
