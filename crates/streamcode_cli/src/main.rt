//! The program `streamcode`: the command line over the machine's own streams.
#![tactic(auto)]

ghost use Rattle.std.specs.Prelude.{◌≡◌, IfOk, IfErr};
ghost use Rattle.streamcode.specs.End.{status_of, note_of, IsTold};
ghost use Rattle.streamcode.specs.Runs.{plan_of, RunEnds};
ghost use Rattle.sc_words.specs.Words.{texts};

mod words;

use sc_check::{Gate, NoGate};
use sc_outside::{Cabinet, DirCabinet, NoMemory, Port, Sink, StdPort, StdSink};
use std::alloc::Global;
use std::process::ExitCode;
use std::thread::Threads;
use streamcode::{End, conclude, run};
use words::read_words;

/// Runs the words, and answers the status with which the program ends. Where they couldn't be read, that is the end.
fn status<R: Threads + Sync, C: Cabinet, P: Port, N: Sink, G: Gate + Sync>(
    rt: &R,
    alloc: Global,
    words: Result<Vec<String>, End>,
    cabinet: &mut C,
    port: &mut P,
    notes: &mut N,
    gate: &G,
) -> u8
    ensures ends { IfOk words (λ words. RunEnds P.told (plan_of (texts words.items)) (C.told cabinet.old) (C.told cabinet.new)
        port.old port.new (N.told notes.old) (N.told notes.new) result) }
    ensures refused { IfErr words (λ end. (result ≡ status_of end) × (port.new ≡ port.old)
        × (C.told cabinet.new ≡ C.told cabinet.old) × IsTold (N.told notes.old) (N.told notes.new) (note_of end)) }
{
    match words {
        Ok(words) => run(rt, alloc, &words, cabinet, port, notes, gate),
        Err(end) => conclude(notes, end),
    }
}

fn main(rt: HostRuntime) -> ExitCode {
    let mut notes = StdSink::new(rt.stderr());
    let words = read_words(&rt, rt.alloc());
    let mut cabinet = DirCabinet::new(&rt);
    match StdPort::new(rt.alloc(), rt.stdin(), rt.stdout()) {
        Ok(mut port) => ExitCode::from(status(
            &rt,
            rt.alloc(),
            words,
            &mut cabinet,
            &mut port,
            &mut notes,
            &NoGate,
        )),
        Err(NoMemory) => ExitCode::from(conclude(&mut notes, End::NoMemory)),
    }
}
