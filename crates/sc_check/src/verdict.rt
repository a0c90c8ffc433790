//! The verdict on a code file: that its code meets its channel, or the least refutation.

ghost use Rattle.std.specs.Prelude.{◌≡◌, ◌↔◌, ◌≤◌, IfOk};
ghost use Rattle.sc_field.specs.Gf256.{gf256_product};
ghost use Rattle.sc_channel.specs.Channel.{IsChannel};
ghost use Rattle.sc_matrix.specs.Module.{IsByte};
ghost use Rattle.sc_code.specs.Code.{IsCode};
ghost use Rattle.sc_code.specs.Determined.{Meets};
ghost use Rattle.sc_check.specs.Answer.{refuted_of, told_by};
ghost use Rattle.sc_check.specs.Failing.{IsFirstFailing};
ghost use Rattle.sc_check.specs.Verdict.{IsVerdict};

use crate::failing::{MAX_WORKERS, first_failing};
use crate::gate::Gate;
use sc_channel::{Channel, Classes, Flags};
use sc_code::{ByteCode, CodeFile, Stream};
use sc_outside::NoMemory;
use sc_window::least_difference;
use std::alloc::Global;
use std::thread::Threads;

/// Whether a code meets a channel.
#[derive(Drop)]
pub enum Verdict {
    /// It does: every block is determined by its deadline under every admissible loss.
    Meets,
    /// It doesn't.
    Fails {
        /// The least index of a class that the code doesn't decide.
        class: u32,
        /// That class, a loss of one flag more than the deadline.
        loss: Flags,
        /// The least stream, with a block for each flag, that the slots which the loss leaves don't tell from the stream of
        /// zeros, and whose block 0 isn't zero. Streams are compared symbol by symbol, block after block.
        stream: Stream,
    },
}

/// Whether the code of a file meets the file's channel. `classes` are those of that channel.
///
/// It meets exactly where each class decides. Else the verdict has the first class that doesn't and the least stream that
/// shows it; the answer is the same for every number of workers. For the workers and the gate see [`first_failing`].
pub fn check<R: Threads + Sync, G: Gate + Sync>(
    rt: &R,
    alloc: Global,
    file: &CodeFile,
    classes: &Classes,
    workers: u32,
    gate: &G,
) -> Result<Verdict, NoMemory>
    requires channel { classes.now ≡ file.now.channel }
    requires some { 1 ≤ workers }
    requires limit { workers ≤ MAX_WORKERS }
    ensures verdict { IfOk result (IsVerdict file.now.code file.now.channel) }
    ensures meets { IfOk result (λ verdict. (verdict ≡ Verdict.Meets) ↔ Meets 0 gf256_product file.now.code file.now.channel) }
    ensures answer { IfOk result (λ verdict. told_by verdict ≡ refuted_of file.now.code file.now.channel) }
{
    keep_limits(&file.code, &file.channel);
    match first_failing(rt, alloc, &file.code, classes, workers, gate)? {
        None => Ok(Verdict::Meets),
        Some(index) => refutation(alloc, &file.code, classes, index),
    }
}

// The code and the channel of a file are within their limits.
fn keep_limits(code: &ByteCode, channel: &Channel)
    ensures code { IsCode IsByte code.now }
    ensures channel { IsChannel channel.now }
{
    let _k = code.k();
    let _t = channel.t();
}

// The verdict where the first failing class has this index.
fn refutation(
    alloc: Global,
    code: &ByteCode,
    classes: &Classes,
    index: u32,
) -> Result<Verdict, NoMemory>
    requires code { IsCode IsByte code.now }
    requires first { IsFirstFailing code.now classes.now index }
    ensures verdict { IfOk result (IsVerdict code.now classes.now) }
    ensures answer { IfOk result (λ verdict. told_by verdict ≡ refuted_of code.now classes.now) }
{
    let loss = classes.class(alloc, index)?;
    match least_difference(alloc, code, loss.as_slice())? {
        Some(stream) => Ok(Verdict::Fails {
            class: index,
            loss,
            stream,
        }),
        None => unreachable!(),
    }
}
