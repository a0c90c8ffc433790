//! `check`: whether a code meets its channel.
ghost use Rattle.std.specs.Prelude.{◌≡◌, ◌≤◌};
ghost use Rattle.sc_outside.specs.Ends.{Ends};
ghost use Rattle.streamcode.specs.Files.{code_plan};
ghost use Rattle.streamcode.specs.Jobs.{check_job, IsSilent};
ghost use Rattle.streamcode.specs.Plans.{owes, PlanEnds};
ghost use Rattle.streamcode.specs.Verdict.{verdict_end};
ghost use Rattle.sc_check.specs.Answer.{told_by};

use crate::end::End;
use crate::files::fetch_code;
use crate::give::give;
use crate::verdict::verdict_lines;
use sc_channel::{TooManyClasses, loss_classes};
use sc_check::{Gate, Verdict};
use sc_code::CodeFile;
use sc_outside::{Cabinet, NoMemory, Port};
use std::alloc::Global;
use std::thread::Threads;

/// The end of a check, by its verdict.
fn end_of(verdict: &Verdict) -> End
    ensures { result ≡ verdict_end (told_by verdict.now) }
{
    match verdict {
        Verdict::Meets => End::Accepted,
        Verdict::Fails { .. } => End::Refused,
    }
}

/// Checks a code against its channel by so many workers, and gives the verdict.
fn check_file<R: Threads + Sync, P: Port, G: Gate + Sync>(
    rt: &R,
    alloc: Global,
    file: &CodeFile,
    workers: u32,
    port: &mut P,
    gate: &G,
) -> End
    requires some { 1 ≤ workers }
    requires few { workers ≤ 64 }
    ensures ends { Ends (check_job file.now) (P.told port.old) (P.told port.new) result }
    ensures untouched { IsSilent (check_job file.now) → port.new ≡ port.old }
{
    let classes = match loss_classes(&file.channel) {
        Ok(classes) => classes,
        Err(TooManyClasses { count }) => return End::TooManyClasses(count),
    };
    let verdict = match sc_check::check(rt, alloc, file, &classes, workers, gate) {
        Ok(verdict) => verdict,
        Err(NoMemory) => return End::NoMemory,
    };
    let text = match verdict_lines(alloc, file, classes.count(), &verdict) {
        Ok(text) => text,
        Err(NoMemory) => return End::NoMemory,
    };
    give(port, text.as_str().as_bytes(), end_of(&verdict))
}

/// Checks the code of this file against its channel, and gives the verdict.
pub(crate) fn check<R: Threads + Sync, C: Cabinet, P: Port, G: Gate + Sync>(
    rt: &R,
    alloc: Global,
    name: &str,
    workers: u32,
    cabinet: &mut C,
    port: &mut P,
    gate: &G,
) -> End
    requires some { 1 ≤ workers }
    requires few { workers ≤ 64 }
    ensures { PlanEnds P.told (code_plan name.now (λ file. owes (check_job file)))
        (C.told cabinet.old) (C.told cabinet.new) port.old port.new result }
{
    match fetch_code(alloc, cabinet, name) {
        Ok(file) => check_file(rt, alloc, &file, workers, port, gate),
        Err(end) => end,
    }
}
