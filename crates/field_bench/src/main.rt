//! The speed at which `sc_field` adds multiples of slices up.
//!
//! With no argument it compares the ways to work out such sums, and prints whether they agree: that is the same
//! on every machine. With the single argument `time` it prints speeds, as bench/README.md says.
#![tactic(auto)]

mod bytes;
mod compare;
mod timing;

use std::process::ExitCode;
use std::{env, io};

/// The status for words that the program does not know.
const USAGE: u8 = 2;

/// What the words after the program's name ask for.
#[derive(Clone, Copy, Debug, PartialEq, Eq)]
enum Task {
    Compare,
    Time,
}

/// The task that the words name, if they name one.
fn task_named_by(words: &[String]) -> Option<Task> {
    if words.is_empty() {
        Some(Task::Compare)
    } else if words.len() == 1 && words[0].as_str() == "time" {
        Some(Task::Time)
    } else {
        None
    }
}

fn main(rt: HostRuntime) -> io::Result<ExitCode> {
    let mut words = Vec::new(rt.alloc());
    for word in env::args(&rt)?.skip(1) {
        words.push(word)?;
    }
    match task_named_by(&words) {
        Some(Task::Compare) => compare::print(&rt)?,
        Some(Task::Time) => timing::print(&rt)?,
        None => {
            eprintln!(&rt; "usage: field_bench [time]")?;
            return Ok(ExitCode::from(USAGE));
        }
    }
    Ok(ExitCode::SUCCESS)
}
