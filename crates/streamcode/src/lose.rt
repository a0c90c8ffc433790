//! `lose`: a capture without the records that a loss's file says are lost.
ghost use Rattle.std.specs.Prelude.{◌≡◌, ◌≤◌, length};
ghost use Rattle.sc_outside.specs.Ends.{Ends};
ghost use Rattle.sc_channel.specs.declared.flags.TheConstants.{MAX_FLAGS};
ghost use Rattle.streamcode.specs.Files.{code_plan, loss_plan};
ghost use Rattle.streamcode.specs.Jobs.{lose_job, IsSilent};
ghost use Rattle.streamcode.specs.Plans.{owes, PlanEnds};

use crate::end::End;
use crate::files::{fetch_code, fetch_loss};
use sc_channel::{Channel, Flags, first_bad_window};
use sc_code::CodeFile;
use sc_outside::{Cabinet, Port};
use sc_rtpdump::drop_records;
use std::alloc::Global;

/// Copies the capture at the port without its lost records, where the loss is admissible for the channel.
fn lose_flags<P: Port>(alloc: Global, channel: &Channel, flags: &Flags, port: &mut P) -> End
    requires { length flags.now ≤ MAX_FLAGS }
    ensures ends { Ends (lose_job channel.now flags.now) (P.told port.old) (P.told port.new) result }
    ensures untouched { IsSilent (lose_job channel.now flags.now) → port.new ≡ port.old }
{
    if let Some(window) = first_bad_window(channel, flags.as_slice()) {
        return End::LossRefused(window);
    }
    let outcome = drop_records(alloc, port, flags);
    End::of_drop(outcome, flags.len() as u32)
}

/// Copies the capture at the port without the records that are lost by a loss's file, for the channel of a code's file.
pub(crate) fn lose<C: Cabinet, P: Port>(
    alloc: Global,
    code: &str,
    loss: &str,
    cabinet: &mut C,
    port: &mut P,
) -> End
    ensures { PlanEnds P.told (code_plan code.now (λ file. loss_plan loss.now (λ flags. owes (lose_job file.channel flags))))
        (C.told cabinet.old) (C.told cabinet.new) port.old port.new result }
{
    match fetch_code(alloc, cabinet, code) {
        Ok(file) => lose_by(alloc, &file, loss, cabinet, port),
        Err(end) => end,
    }
}

/// The same, where the code's file is there.
fn lose_by<C: Cabinet, P: Port>(
    alloc: Global,
    file: &CodeFile,
    loss: &str,
    cabinet: &mut C,
    port: &mut P,
) -> End
    ensures { PlanEnds P.told (loss_plan loss.now (λ flags. owes (lose_job file.now.channel flags)))
        (C.told cabinet.old) (C.told cabinet.new) port.old port.new result }
{
    match fetch_loss(alloc, cabinet, loss) {
        Ok(flags) => lose_flags(alloc, &file.channel, &flags, port),
        Err(end) => end,
    }
}
