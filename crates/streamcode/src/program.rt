//! The program: one call that does what the words of a command line ask for.
ghost use Rattle.std.specs.Prelude.{◌≡◌, ◌⊎◌, ◌↔◌, ◌≤◌, None, Some, IfSome};
ghost use Rattle.sc_outside.specs.Ends.{Ends, GivesPrefix};
ghost use Rattle.sc_outside.specs.Faults.{Rose};
ghost use Rattle.sc_words.specs.Command.{meaning, HasItsForms};
ghost use Rattle.streamcode.specs.InTime.{GivesInTime};
ghost use Rattle.streamcode.specs.Plans.{PlanEnds, due_of, IsSilentPlan, LacksOne};
ghost use Rattle.streamcode.specs.Runs.{command_plan, files_of, plan_of, RunEnds, IsDueStatus, ReadRose, IsOutsideStatus, IsQuiet};
ghost use Rattle.sc_words.specs.Words.{command_of, texts};

use crate::bound::{bound, certify};
use crate::check::check;
use crate::design::design;
use crate::end::End;
use crate::generate::generate;
use crate::lose::lose;
use crate::note::conclude;
use crate::protect::protect;
use crate::repair::repair;
use crate::trial::try_code;
use sc_check::Gate;
use sc_outside::{Cabinet, Port, Sink};
use sc_words::{Command, read_words};
use std::alloc::Global;
use std::thread::Threads;

/// Does a command.
fn perform<R: Threads + Sync, C: Cabinet, P: Port, G: Gate + Sync>(
    rt: &R,
    alloc: Global,
    command: Command<'_>,
    cabinet: &mut C,
    port: &mut P,
    gate: &G,
) -> End
    requires { HasItsForms command }
    ensures ends { PlanEnds P.told (command_plan (Some (meaning command.entry))) (C.told cabinet.old) (C.told cabinet.new)
        port.old port.new result }
    ensures in_time { GivesInTime (Some (meaning command.entry)) (C.told cabinet.old) (P.told port.old) (P.told port.new) }
{
    match command {
        Command::Lose { code, loss } => lose(alloc, code, loss, cabinet, port),
        Command::Gen { seed, count, size } => generate(alloc, seed, count, size, port),
        Command::Protect { code, size } => protect(alloc, code, size, cabinet, port),
        Command::Repair { code } => repair(alloc, code, cabinet, port),
        Command::Bound { channel } => bound(alloc, channel, port),
        Command::Certify { code, cert } => certify(alloc, code, cert, cabinet, port),
        Command::Design { kind, channel } => design(rt, alloc, kind, channel, port, gate),
        Command::Check { code, workers } => check(rt, alloc, code, workers, cabinet, port, gate),
        Command::Trial {
            code,
            seed,
            count,
            size,
        } => try_code(alloc, code, seed, count, size, cabinet, port),
    }
}

/// Does what the words ask for.
fn answer<R: Threads + Sync, C: Cabinet, P: Port, G: Gate + Sync>(
    rt: &R,
    alloc: Global,
    words: &Vec<String>,
    cabinet: &mut C,
    port: &mut P,
    gate: &G,
) -> End
    ensures ends { PlanEnds P.told (plan_of (texts words.now.items)) (C.told cabinet.old) (C.told cabinet.new)
        port.old port.new result }
    ensures in_time { GivesInTime (command_of (texts words.now.items)) (C.told cabinet.old) (P.told port.old) (P.told port.new) }
{
    match read_words(words) {
        Some(command) => perform(rt, alloc, command, cabinet, port, gate),
        None => End::Usage,
    }
}

/// Does what the words of a command line ask for, tells a note, and answers the status with which the program ends.
///
/// `words` are those after the program's name. Files that they name come from the cabinet. Threads are started by `rt`, and a
/// worker enters the gate before it begins. The commands, their statuses and their notes are listed in docs/COMMANDS.md.
pub fn run<R: Threads + Sync, C: Cabinet, P: Port, N: Sink, G: Gate + Sync>(
    rt: &R,
    alloc: Global,
    words: &Vec<String>,
    cabinet: &mut C,
    port: &mut P,
    notes: &mut N,
    gate: &G,
) -> u8
    // Every run ends by the one relation: who decided it, over the files that came and the bytes that were taken and put,
    // with its status and its note. All that follows is said by it.
    ensures ends { RunEnds P.told (plan_of (texts words.now.items)) (C.told cabinet.old) (C.told cabinet.new) port.old port.new
        (N.told notes.old) (N.told notes.new) result }

    // The status and the bytes are those that are due by the words, the files and the input, or a fault was counted, or
    // memory ran out. Where no fault was counted, they are those that are due, or the status is 9.
    ensures decided { IfSome (P.told port.old).left (λ input.
        IfSome (due_of (plan_of (texts words.now.items)) (C.told cabinet.old).files input) (λ due.
        IsDueStatus due (P.told port.old) (P.told port.new) result
        ⊎ IsOutsideStatus (C.told cabinet.old) (C.told cabinet.new) (P.told port.old) (P.told port.new) result)) }
    ensures quiet { IsQuiet (C.told cabinet.old) (C.told cabinet.new) (P.told port.old) (P.told port.new) →
        IfSome (P.told port.old).left (λ input.
        IfSome (due_of (plan_of (texts words.now.items)) (C.told cabinet.old).files input) (λ due.
        IsDueStatus due (P.told port.old) (P.told port.new) result ⊎ (result ≡ 9))) }

    // Whatever the status, a prefix of what is due was given.
    ensures prefix { IfSome (P.told port.old).left (λ input.
        IfSome (due_of (plan_of (texts words.now.items)) (C.told cabinet.old).files input) (λ due.
        GivesPrefix (P.told port.old) (P.told port.new) due.text)) }

    // What `repair` owes once a record came is written before a byte of the next one is read.
    ensures in_time { GivesInTime (command_of (texts words.now.items)) (C.told cabinet.old) (P.told port.old) (P.told port.new) }

    // Status 2 comes exactly where the words have no form. 7 comes only where a count of reads or of fetches rose, or the
    // files are told and lack one that the words name, and 8 only where the port's count of writes rose. Where nothing is
    // read or given, whatever the files hold, the port is left alone.
    ensures usage { (result ≡ 2) ↔ (command_of (texts words.now.items) ≡ None) }
    ensures read_fault { result ≡ 7 →
        ReadRose (C.told cabinet.old) (C.told cabinet.new) (P.told port.old) (P.told port.new)
        ⊎ LacksOne (C.told cabinet.old).files (files_of (command_of (texts words.now.items))) }
    ensures write_fault { result ≡ 8 → Rose (P.told port.old).write_faults (P.told port.new).write_faults }
    ensures untouched { IsSilentPlan (plan_of (texts words.now.items)) → port.new ≡ port.old }
{
    let end = answer(rt, alloc, words, cabinet, port, gate);
    conclude(notes, end)
}
