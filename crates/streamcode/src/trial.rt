//! `trial`: a code tried on a generated capture, in memory.
ghost use Rattle.std.specs.Prelude.{◌≡◌, ◌≤◌, ◌++◌, IfOk, OnOk, string_bytes};
ghost use Rattle.sc_outside.specs.Ends.{Ends};
ghost use Rattle.sc_trial.specs.declared.capture.TheConstants.{MIN_SIZE, MAX_SIZE};
ghost use Rattle.sc_trial.specs.declared.course.TheConstants.{MAX_TRIAL};
ghost use Rattle.streamcode.specs.Files.{code_plan};
ghost use Rattle.streamcode.specs.Jobs.{trial_job, IsSilent};
ghost use Rattle.streamcode.specs.Plans.{owes, PlanEnds};
ghost use Rattle.streamcode.specs.Trial.{trial_line};

use crate::end::End;
use crate::files::fetch_code;
use crate::give::give;
use crate::verdict::push_number;
use sc_code::CodeFile;
use sc_outside::{Cabinet, NoMemory, Port};
use sc_trial::{Trial, TrialFault};
use std::alloc::Global;

/// The line of a trial.
fn trial_line(alloc: Global, tried: &Trial) -> Result<String, NoMemory>
    ensures { IfOk result (λ text. string_bytes text ≡ trial_line tried.now) }
{
    let mut text = String::from_str(alloc, "slots ")?;
    push_number(&mut text, tried.slots)?;
    text.push_str(" lost ")?;
    push_number(&mut text, tried.lost)?;
    text.push_str(" equal ")?;
    push_number(&mut text, tried.equal)?;
    text.push_str(" missed ")?;
    push_number(&mut text, tried.missed)?;
    text.push('\n')?;
    Ok(text)
}

/// Tries the code of a file on so many generated packets of this size, and gives the line of what came back.
fn try_file<P: Port>(
    alloc: Global,
    file: &CodeFile,
    seed: u64,
    count: u32,
    size: u16,
    port: &mut P,
) -> End
    requires count { count ≤ MAX_TRIAL }
    requires least { MIN_SIZE ≤ size }
    requires greatest { size ≤ MAX_SIZE }
    ensures ends { Ends (trial_job file.now seed count size) (P.told port.old) (P.told port.new) result }
    ensures untouched { IsSilent (trial_job file.now seed count size) → port.new ≡ port.old }
{
    let tried = match sc_trial::trial(alloc, file, seed, count, size) {
        Ok(tried) => tried,
        Err(TrialFault::TooWide(bytes)) => return End::PacketTooWide(bytes),
        Err(TrialFault::Memory) => return End::NoMemory,
    };
    let text = match trial_line(alloc, &tried) {
        Ok(text) => text,
        Err(NoMemory) => return End::NoMemory,
    };
    give(port, text.as_str().as_bytes(), End::Tried(tried))
}

/// Tries the code of this file on so many generated packets of this size, drawn from a seed.
pub(crate) fn try_code<C: Cabinet, P: Port>(
    alloc: Global,
    name: &str,
    seed: u64,
    count: u32,
    size: u16,
    cabinet: &mut C,
    port: &mut P,
) -> End
    requires count { count ≤ MAX_TRIAL }
    requires least { MIN_SIZE ≤ size }
    requires greatest { size ≤ MAX_SIZE }
    ensures { PlanEnds P.told (code_plan name.now (λ file. owes (trial_job file seed count size)))
        (C.told cabinet.old) (C.told cabinet.new) port.old port.new result }
{
    match fetch_code(alloc, cabinet, name) {
        Ok(file) => try_file(alloc, &file, seed, count, size, port),
        Err(end) => end,
    }
}
