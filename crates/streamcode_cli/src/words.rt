//! The words of the command line, as the process has them.

use sc_outside::NoMemory;
use std::alloc::Global;
use std::env::{Env, FillError};
use streamcode::End;

#[cfg(test)]
mod tests;

/// How many bytes a word is first given room for. The room doubles while the word is longer.
const FIRST_ROOM: usize = 256;

/// The bytes of the process's argument `i`; 0 is the program's name. `None` behind the last one.
fn argument<E: Env>(env: &E, alloc: Global, i: usize) -> Result<Option<Vec<u8>>, NoMemory> {
    let mut room = FIRST_ROOM;
    for _ in 0..usize::BITS {
        let mut bytes = vec![in alloc; 0; room]?;
        match env.arg(i, &mut bytes) {
            Ok(n) => {
                bytes.truncate(n);
                return Ok(Some(bytes));
            }
            Err(FillError::NotPresent) => return Ok(None),
            Err(FillError::TooLong) => room = room.saturating_mul(2),
        }
    }
    Err(NoMemory)
}

/// The words after the program's name, which isn't read. A word that isn't UTF-8 has no form, so it is `Usage`; want of
/// memory is `NoMemory`.
pub fn read_words<E: Env>(env: &E, alloc: Global) -> Result<Vec<String>, End> {
    let mut words = Vec::new(alloc);
    for i in 1..usize::MAX {
        let Ok(argument) = argument(env, alloc, i) else {
            return Err(End::NoMemory);
        };
        let Some(bytes) = argument else {
            break;
        };
        let Ok(word) = String::from_utf8(bytes) else {
            return Err(End::Usage);
        };
        if words.push(word).is_err() {
            return Err(End::NoMemory);
        }
    }
    Ok(words)
}
