//! The words of a process that has these arguments.
ghost use Rattle.std.specs.Prelude.{◌≤◌, length, IfOk};

use super::*;
use std::test::Fail;

// A process whose arguments are the lines of a text, the program's name first. Each line has its newline.
#[derive(Drop)]
struct Arguments<'a> {
    lines: &'a [u8],
}

// The line with this number, without its newline.
fn line(lines: &[u8], number: usize) -> Option<&[u8]> {
    let mut rest = lines;
    for _ in 0..number {
        let end = rest.iter().position(|byte| *byte == b'\n')?;
        rest = &rest[end + 1..];
    }
    let end = rest.iter().position(|byte| *byte == b'\n')?;
    Some(&rest[..end])
}

fn fill(value: &[u8], buf: &mut [u8]) -> Result<usize, FillError>
    ensures { IfOk result (λ n. n ≤ length buf.new) }
{
    if value.len() > buf.len() {
        return Err(FillError::TooLong);
    }
    buf[..value.len()].copy_from_slice(value);
    Ok(value.len())
}

impl Env for Arguments<'_> {
    fn arg(&self, i: usize, buf: &mut [u8]) -> Result<usize, FillError> {
        match line(self.lines, i) {
            Some(value) => fill(value, buf),
            None => Err(FillError::NotPresent),
        }
    }

    fn var(&self, _name: &str, _buf: &mut [u8]) -> Result<usize, FillError> {
        Err(FillError::NotPresent)
    }

    fn var_at(&self, _i: usize, _buf: &mut [u8]) -> Result<usize, FillError> {
        Err(FillError::NotPresent)
    }
}

// The words as lines, and `None` where they have no form.
fn words_as_lines(alloc: Global, arguments: &[u8]) -> Result<Option<Vec<u8>>, Fail> {
    let process = Arguments { lines: arguments };
    let words = match read_words(&process, alloc) {
        Ok(words) => words,
        Err(End::Usage) => return Ok(None),
        Err(_) => return Err(Fail::from(NoMemory)),
    };
    let mut lines = Vec::new(alloc);
    for word in &words {
        lines.extend_from_slice(word.as_bytes())?;
        lines.push(b'\n')?;
    }
    Ok(Some(lines))
}

// Arguments, and the words that are read.
#[test]
fn words_of_a_process(rt: HostRuntime) -> Result<(), Fail> {
    let table: [(&[u8], Option<&[u8]>); 7] = [
        (b"streamcode\nlose\n3\n", Some(b"lose\n3\n")),
        (b"streamcode\n", Some(b"")),
        (b"", Some(b"")),
        (b"\xff/streamcode\nlose\n", Some(b"lose\n")),
        (b"\n\nl\xc3\xb6se\n", Some(b"\nl\xc3\xb6se\n")),
        (b"streamcode\nlose\n\xff\n", None),
        (b"streamcode\n\xc3\nlose\n", None),
    ];
    for (arguments, wanted) in table {
        match words_as_lines(rt.alloc(), arguments)? {
            Some(lines) => assert_eq!(rt; Some(lines.as_slice()), wanted, "{arguments:?}"),
            None => assert_eq!(rt; None, wanted, "{arguments:?}"),
        }
    }
    Ok(())
}

// A word may be longer than the room that words are first given.
#[test]
fn a_long_word(rt: HostRuntime) -> Result<(), Fail> {
    let mut arguments = vec![in rt.alloc(); b'1'; 131_071]?;
    arguments.push(b'\n')?;
    arguments.insert(0, b'\n')?;
    let lines = words_as_lines(rt.alloc(), arguments.as_slice())?;
    assert_eq!(rt; lines.map(|lines| lines.len()), Some(131_072));
    Ok(())
}
