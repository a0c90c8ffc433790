//! The words of the command line.

ghost use Rattle.std.specs.Prelude.{◌≡◌, ◌≤◌, IfSome};
ghost use Rattle.std.specs.Option.{option_map};
ghost use Rattle.sc_words.specs.Words.{number_to, begins_plain, channel_of, lose_of, gen_of, protect_of, check_of, repair_of, bound_of, certify_of, kind_of, design_of, trial_of, command_of, texts};
ghost use Rattle.sc_words.specs.Command.{meaning, HasItsForms};

use sc_channel::Channel;

/// The most records of a generated capture.
const MAX_COUNT: u32 = 3_999_960;

/// The most records of a trial.
const MAX_TRIAL: u32 = 10_000;

/// The least and the greatest size of an RTP packet, in bytes.
const MIN_SIZE: u16 = 12;

const MAX_SIZE: u16 = 1_472;

/// The most workers of a check.
const MAX_WORKERS: u32 = 64;

/// A kind of codes to design.
#[derive(Copy, Clone, Debug, PartialEq, Eq)]
pub enum Kind {
    /// `ms`: the burst code, for channels with at most one loss anywhere in a window.
    Ms,
    /// `layered`: layered codes.
    Layered,
    /// `optimal`: rate-optimal codes.
    Optimal,
}

/// What a command line asks for. The forms of the words are of this project.
#[derive(Copy, Clone, Debug, PartialEq, Eq)]
pub enum Command<'a> {
    /// `lose CODE LOSS`: copy a capture without its lost records.
    Lose {
        /// The name of the file of a code, for whose channel the loss has to be admissible.
        code: &'a str,
        /// The name of the loss's file.
        loss: &'a str,
    },
    /// `gen SEED COUNT SIZE`: write a generated capture.
    Gen {
        /// The number from which the packets' bytes are drawn.
        seed: u64,
        /// How many records: 0 to 3,999,960.
        count: u32,
        /// The size of each packet in bytes: 12 to 1,472.
        size: u16,
    },
    /// `protect CODE SIZE`: protect a capture by a code.
    Protect {
        /// The name of the code's file.
        code: &'a str,
        /// The greatest size of an RTP packet in bytes: 12 to 1,472.
        size: u16,
    },
    /// `check CODE WORKERS`: whether a code meets its channel.
    Check {
        /// The name of the code's file.
        code: &'a str,
        /// How many workers share the work: 1 to 64.
        workers: u32,
    },
    /// `repair CODE`: repair a capture that was protected by a code.
    Repair {
        /// The name of the code's file.
        code: &'a str,
    },
    /// `bound W B N T`: write the standard certificate of a channel.
    Bound {
        /// The channel.
        channel: Channel,
    },
    /// `certify CODE CERT`: whether a certificate bounds the rate of every code for the channel of a code file.
    Certify {
        /// The name of the code's file.
        code: &'a str,
        /// The name of the certificate's file.
        cert: &'a str,
    },
    /// `design KIND W B N T`: write the code file of the first candidate of a kind that meets a channel.
    Design {
        /// The kind of codes: `ms`, `layered` or `optimal`.
        kind: Kind,
        /// The channel.
        channel: Channel,
    },
    /// `trial CODE SEED COUNT SIZE`: protect, lose and repair a generated capture in memory.
    Trial {
        /// The name of the code's file.
        code: &'a str,
        /// The number from which the packets' bytes and the losses are drawn.
        seed: u64,
        /// How many packets: 0 to 10,000.
        count: u32,
        /// The size of each packet in bytes: 12 to 1,472.
        size: u16,
    },
}

/// The command whose form the words have, the command's name first, and `None` exactly where they
/// have no form. It takes no memory.
///
/// The forms are `lose CODE LOSS`, `gen SEED COUNT SIZE`, `protect CODE SIZE`, `check CODE WORKERS`, `repair CODE`,
/// `bound W B N T`, `certify CODE CERT`, `design KIND W B N T` and `trial CODE SEED COUNT SIZE`. Numbers are decimal, without sign
/// and without a leading zero. W, B, N and T are a channel. A seed has at most 64 bits, the count is at most 3,999,960 of `gen` and
/// 10,000 of `trial`, a size is 12 to 1,472, and there are 1 to 64 workers. A kind is `ms`, `layered` or `optimal`. A file's name is
/// any word. The forms are of this project.
pub fn read_words(words: &Vec<String>) -> Option<Command<'_>>
    ensures command { command_of (texts words.now.items) ≡ option_map meaning result }
    ensures forms { IfSome result HasItsForms }
{
    match words.as_slice() {
        [name, rest @ ..] if name.as_str() == "lose" => read_lose(rest),
        [name, rest @ ..] if name.as_str() == "gen" => read_gen(rest),
        [name, rest @ ..] if name.as_str() == "protect" => read_protect(rest),
        [name, rest @ ..] if name.as_str() == "check" => read_check(rest),
        [name, rest @ ..] if name.as_str() == "repair" => read_repair(rest),
        [name, rest @ ..] if name.as_str() == "bound" => read_bound(rest),
        [name, rest @ ..] if name.as_str() == "certify" => read_certify(rest),
        [name, rest @ ..] if name.as_str() == "design" => read_design(rest),
        [name, rest @ ..] if name.as_str() == "trial" => read_trial(rest),
        _ => None,
    }
}

/// The words after `lose`.
fn read_lose(words: &[String]) -> Option<Command<'_>>
    ensures command { lose_of (texts words.now) ≡ option_map meaning result }
    ensures forms { IfSome result HasItsForms }
{
    match words {
        [code, loss] => {
            let code = code.as_str();
            let loss = loss.as_str();
            Some(Command::Lose { code, loss })
        }
        _ => None,
    }
}

/// The channel that four words write.
#[tactic(auto, unfolding(sc_channel::specs::Channel::is_channel))]
fn read_channel(w: &str, b: &str, n: &str, t: &str) -> Option<Channel>
    ensures { result ≡ channel_of w.now b.now n.now t.now }
{
    let most = u64::from(u32::MAX);
    let w = number_word(w, most)? as u32;
    let b = number_word(b, most)? as u32;
    let n = number_word(n, most)? as u32;
    let t = number_word(t, most)? as u32;
    Channel::new(w, b, n, t).ok()
}

/// The words after `gen`.
fn read_gen(words: &[String]) -> Option<Command<'_>>
    ensures command { gen_of (texts words.now) ≡ option_map meaning result }
    ensures forms { IfSome result HasItsForms }
{
    match words {
        [seed, count, size] => {
            let seed = seed_word(seed.as_str())?;
            let count = number_word(count.as_str(), MAX_COUNT.into())? as u32;
            let size = number_word(size.as_str(), MAX_SIZE.into())? as u16;
            if MIN_SIZE <= size {
                Some(Command::Gen { seed, count, size })
            } else {
                None
            }
        }
        _ => None,
    }
}

/// The words after `protect`.
fn read_protect(words: &[String]) -> Option<Command<'_>>
    ensures command { protect_of (texts words.now) ≡ option_map meaning result }
    ensures forms { IfSome result HasItsForms }
{
    match words {
        [code, size] => {
            let code = code.as_str();
            let size = number_word(size.as_str(), MAX_SIZE.into())? as u16;
            if size < MIN_SIZE {
                return None;
            }
            Some(Command::Protect { code, size })
        }
        _ => None,
    }
}

/// The words after `check`.
fn read_check(words: &[String]) -> Option<Command<'_>>
    ensures command { check_of (texts words.now) ≡ option_map meaning result }
    ensures forms { IfSome result HasItsForms }
{
    match words {
        [code, workers] => {
            let code = code.as_str();
            let workers = number_word(workers.as_str(), MAX_WORKERS.into())? as u32;
            if workers == 0 {
                return None;
            }
            Some(Command::Check { code, workers })
        }
        _ => None,
    }
}

/// The words after `repair`.
fn read_repair(words: &[String]) -> Option<Command<'_>>
    ensures command { repair_of (texts words.now) ≡ option_map meaning result }
    ensures forms { IfSome result HasItsForms }
{
    match words {
        [code] => {
            let code = code.as_str();
            Some(Command::Repair { code })
        }
        _ => None,
    }
}

/// The words after `bound`.
fn read_bound(words: &[String]) -> Option<Command<'_>>
    ensures command { bound_of (texts words.now) ≡ option_map meaning result }
    ensures forms { IfSome result HasItsForms }
{
    match words {
        [w, b, n, t] => {
            let channel = read_channel(w.as_str(), b.as_str(), n.as_str(), t.as_str())?;
            Some(Command::Bound { channel })
        }
        _ => None,
    }
}

/// The words after `certify`.
fn read_certify(words: &[String]) -> Option<Command<'_>>
    ensures command { certify_of (texts words.now) ≡ option_map meaning result }
    ensures forms { IfSome result HasItsForms }
{
    match words {
        [code, cert] => {
            let code = code.as_str();
            let cert = cert.as_str();
            Some(Command::Certify { code, cert })
        }
        _ => None,
    }
}

/// The words after `design`.
fn read_design(words: &[String]) -> Option<Command<'_>>
    ensures command { design_of (texts words.now) ≡ option_map meaning result }
    ensures forms { IfSome result HasItsForms }
{
    match words {
        [kind, w, b, n, t] => {
            let kind = read_kind(kind.as_str())?;
            let channel = read_channel(w.as_str(), b.as_str(), n.as_str(), t.as_str())?;
            Some(Command::Design { kind, channel })
        }
        _ => None,
    }
}

/// The words after `trial`.
fn read_trial(words: &[String]) -> Option<Command<'_>>
    ensures command { trial_of (texts words.now) ≡ option_map meaning result }
    ensures forms { IfSome result HasItsForms }
{
    match words {
        [code, seed, count, size] => {
            let code = code.as_str();
            let seed = seed_word(seed.as_str())?;
            let count = number_word(count.as_str(), MAX_TRIAL.into())? as u32;
            let size = number_word(size.as_str(), MAX_SIZE.into())? as u16;
            if size < MIN_SIZE {
                return None;
            }
            Some(Command::Trial {
                code,
                seed,
                count,
                size,
            })
        }
        _ => None,
    }
}

/// The kind that a word names.
fn read_kind(word: &str) -> Option<Kind>
    ensures { result ≡ kind_of word.now }
{
    if word == "ms" {
        Some(Kind::Ms)
    } else if word == "layered" {
        Some(Kind::Layered)
    } else if word == "optimal" {
        Some(Kind::Optimal)
    } else {
        None
    }
}

/// The seed that a word writes: a number of at most 64 bits.
fn seed_word(word: &str) -> Option<u64>
    ensures { result ≡ number_to 18446744073709551615 word.now }
{
    number_word(word, u64::MAX)
}

/// The number of at most so much that a word writes in decimal, without sign and without a leading zero.
fn number_word(word: &str, most: u64) -> Option<u64>
    ensures number { result ≡ number_to most word.now }
    ensures bound { IfSome result (λ number. number ≤ most) }
{
    // `parse` takes a plus sign and leading zeros too.
    if !begins_plain(word) {
        return None;
    }
    let number = word.parse::<u64>().ok()?;
    if number <= most { Some(number) } else { None }
}

/// Whether a word has one character, or begins with one above `0`: with no sign and no leading zero.
fn begins_plain(word: &str) -> bool
    ensures { result ≡ begins_plain word.now }
{
    match word.as_bytes() {
        [_] => true,
        [first, ..] => b'0' < *first,
        [] => false,
    }
}

#[cfg(test)]
mod tests {
    use super::{Command, Kind, number_word, read_words};
    use crate::word_laws::{one_form, one_numeral};
    use std::alloc::{AllocError, Global};
    use std::test::Fail;

    fn words_of(alloc: Global, line: &str) -> Result<Vec<String>, AllocError> {
        let mut words = Vec::new(alloc);
        for word in line.split(' ') {
            words.push(String::from_str(alloc, word)?)?;
        }
        Ok(words)
    }

    const LOSE: &[(&str, Option<(&str, &str)>)] = &[
        ("lose code.json loss.json", Some(("code.json", "loss.json"))),
        ("lose  ", Some(("", ""))),
        ("lose 3 2", Some(("3", "2"))),
        ("lose 3 2 1 2 010", None),
        ("lose 3 2 1 2 ", None),
        ("lose 3", None),
        ("lose", None),
        ("lose a b c", None),
        ("Lose a b", None),
        ("gen a b", None),
        ("", None),
    ];

    #[test]
    fn reads_the_forms_of_lose(rt: HostRuntime) -> Result<(), Fail> {
        for row in LOSE {
            let (line, want) = *row;
            let words = words_of(rt.alloc(), line)?;
            let right = match read_words(&words) {
                Some(command) => match command {
                    Command::Lose { code, loss } => want == Some((code, loss)),
                    _ => false,
                },
                None => want.is_none(),
            };
            assert!(rt; right, "at {line}");
        }
        Ok(())
    }

    /// Whether the words of a line are `gen` with these numbers, or, where it is `None`, no form.
    fn generates_as(
        alloc: Global,
        line: &str,
        want: Option<(u64, u32, u16)>,
    ) -> Result<bool, AllocError> {
        let words = words_of(alloc, line)?;
        Ok(match read_words(&words) {
            Some(command) => match command {
                Command::Gen { seed, count, size } => want == Some((seed, count, size)),
                _ => false,
            },
            None => want.is_none(),
        })
    }

    const GEN: &[(&str, Option<(u64, u32, u16)>)] = &[
        ("gen 42 1 16", Some((42, 1, 16))),
        ("gen 0 0 12", Some((0, 0, 12))),
        ("gen 4294967296 1 12", Some((4_294_967_296, 1, 12))),
        (
            "gen 18446744073709551615 3999960 1472",
            Some((u64::MAX, 3_999_960, 1472)),
        ),
        ("gen 18446744073709551616 1 12", None),
        ("gen 100000000000000000000 1 12", None),
        ("gen 42 3999961 12", None),
        ("gen 42 1 11", None),
        ("gen 42 1 1473", None),
        ("gen 042 1 16", None),
        ("gen 42 01 16", None),
        ("gen 42 1 016", None),
        ("gen +42 1 16", None),
        ("gen -1 1 16", None),
        ("gen  1 16", None),
        ("gen 42 1", None),
        ("gen 42 1 16 0", None),
        ("Gen 42 1 16", None),
    ];

    #[test]
    fn reads_the_forms_of_gen(rt: HostRuntime) -> Result<(), Fail> {
        for row in GEN {
            let (line, want) = *row;
            assert!(rt; generates_as(rt.alloc(), line, want)?, "at {line}");
        }
        Ok(())
    }

    const PROTECT: &[(&str, Option<(&str, u16)>)] = &[
        ("protect code.json 12", Some(("code.json", 12))),
        ("protect  1472", Some(("", 1472))),
        ("protect 12 13", Some(("12", 13))),
        ("protect code.json 11", None),
        ("protect code.json 1473", None),
        ("protect code.json 012", None),
        ("protect code.json", None),
        ("protect code.json 12 12", None),
        ("Protect code.json 12", None),
    ];

    #[test]
    fn reads_the_forms_of_protect(rt: HostRuntime) -> Result<(), Fail> {
        for row in PROTECT {
            let (line, want) = *row;
            let words = words_of(rt.alloc(), line)?;
            let right = match read_words(&words) {
                Some(command) => match command {
                    Command::Protect { code, size } => want == Some((code, size)),
                    _ => false,
                },
                None => want.is_none(),
            };
            assert!(rt; right, "at {line}");
        }
        Ok(())
    }

    const CHECK: &[(&str, Option<(&str, u32)>)] = &[
        ("check code.json 1", Some(("code.json", 1))),
        ("check  64", Some(("", 64))),
        ("check 1 2", Some(("1", 2))),
        ("check code.json 0", None),
        ("check code.json 65", None),
        ("check code.json 01", None),
        ("check code.json", None),
        ("check code.json 1 1", None),
        ("Check code.json 1", None),
    ];

    #[test]
    fn reads_the_forms_of_check(rt: HostRuntime) -> Result<(), Fail> {
        for row in CHECK {
            let (line, want) = *row;
            let words = words_of(rt.alloc(), line)?;
            let right = match read_words(&words) {
                Some(command) => match command {
                    Command::Check { code, workers } => want == Some((code, workers)),
                    _ => false,
                },
                None => want.is_none(),
            };
            assert!(rt; right, "at {line}");
        }
        Ok(())
    }

    const REPAIR: &[(&str, Option<&str>)] = &[
        ("repair code.json", Some("code.json")),
        ("repair ", Some("")),
        ("repair 12", Some("12")),
        ("repair", None),
        ("repair code.json 1", None),
        ("repair  ", None),
        ("Repair code.json", None),
        ("repairs code.json", None),
    ];

    #[test]
    fn reads_the_forms_of_repair(rt: HostRuntime) -> Result<(), Fail> {
        for row in REPAIR {
            let (line, want) = *row;
            let words = words_of(rt.alloc(), line)?;
            let right = match read_words(&words) {
                Some(command) => match command {
                    Command::Repair { code } => want == Some(code),
                    _ => false,
                },
                None => want.is_none(),
            };
            assert!(rt; right, "at {line}");
        }
        Ok(())
    }

    const BOUNDS: &[(&str, Option<(u32, u32, u32, u32)>, Option<(&str, &str)>)] = &[
        ("bound 3 2 1 2", Some((3, 2, 1, 2)), None),
        ("bound 255 40 1 40", Some((255, 40, 1, 40)), None),
        ("bound 3 2 1 3", None, None),
        ("bound 3 2 1", None, None),
        ("bound 3 2 1 2 0", None, None),
        ("bound 03 2 1 2", None, None),
        ("certify a b", None, Some(("a", "b"))),
        ("certify  ", None, Some(("", ""))),
        ("certify a", None, None),
        ("certify a b c", None, None),
    ];

    #[test]
    fn reads_the_forms_of_bounds(rt: HostRuntime) -> Result<(), Fail> {
        for row in BOUNDS {
            let (line, numbers, files) = *row;
            let words = words_of(rt.alloc(), line)?;
            let right = match read_words(&words) {
                Some(command) => match command {
                    Command::Bound { channel } => {
                        numbers == Some((channel.w(), channel.b(), channel.n(), channel.t()))
                    }
                    Command::Certify { code, cert } => files == Some((code, cert)),
                    _ => false,
                },
                None => numbers.is_none() && files.is_none(),
            };
            assert!(rt; right, "at {line}");
        }
        Ok(())
    }

    const DESIGN: &[(&str, Option<(Kind, (u32, u32, u32, u32))>)] = &[
        ("design ms 3 2 1 2", Some((Kind::Ms, (3, 2, 1, 2)))),
        (
            "design layered 2 1 1 1",
            Some((Kind::Layered, (2, 1, 1, 1))),
        ),
        (
            "design optimal 11 4 2 10",
            Some((Kind::Optimal, (11, 4, 2, 10))),
        ),
        ("design MS 3 2 1 2", None),
        ("design midas 3 2 1 2", None),
        ("design ms 3 2 1 3", None),
        ("design ms 3 2 1", None),
        ("design 3 2 1 2", None),
        ("design ms 3 2 1 2 0", None),
        ("design ms 3 2 01 2", None),
    ];

    #[test]
    fn reads_the_forms_of_design(rt: HostRuntime) -> Result<(), Fail> {
        for row in DESIGN {
            let (line, want) = *row;
            let words = words_of(rt.alloc(), line)?;
            let right = match read_words(&words) {
                Some(command) => match command {
                    Command::Design { kind, channel } => {
                        let numbers = (channel.w(), channel.b(), channel.n(), channel.t());
                        want == Some((kind, numbers))
                    }
                    _ => false,
                },
                None => want.is_none(),
            };
            assert!(rt; right, "at {line}");
        }
        Ok(())
    }

    const TRIAL: &[(&str, Option<(&str, (u64, u32, u16))>)] = &[
        ("trial c1.json 42 4 12", Some(("c1.json", (42, 4, 12)))),
        ("trial  0 0 1472", Some(("", (0, 0, 1472)))),
        (
            "trial 1 18446744073709551615 10000 172",
            Some(("1", (u64::MAX, 10_000, 172))),
        ),
        ("trial c1.json 42 10001 12", None),
        ("trial c1.json 18446744073709551616 4 12", None),
        ("trial c1.json 42 4 11", None),
        ("trial c1.json 42 4 1473", None),
        ("trial c1.json 42 04 12", None),
        ("trial c1.json 42 4", None),
        ("trial c1.json 42 4 12 0", None),
        ("trial 42 4 12", None),
        ("Trial c1.json 42 4 12", None),
    ];

    #[test]
    fn reads_the_forms_of_trial(rt: HostRuntime) -> Result<(), Fail> {
        for row in TRIAL {
            let (line, want) = *row;
            let words = words_of(rt.alloc(), line)?;
            let right = match read_words(&words) {
                Some(command) => match command {
                    Command::Trial {
                        code,
                        seed,
                        count,
                        size,
                    } => want == Some((code, (seed, count, size))),
                    _ => false,
                },
                None => want.is_none(),
            };
            assert!(rt; right, "at {line}");
        }
        Ok(())
    }

    #[test]
    fn laws_are_held() {
        one_form();
        one_numeral();
    }

    const NUMBERS: &[(&str, u64, Option<u64>)] = &[
        ("0", 0, Some(0)),
        ("1", 0, None),
        ("10", 10, Some(10)),
        ("11", 10, None),
        ("4294967295", 4_294_967_295, Some(4_294_967_295)),
        ("4294967296", 4_294_967_295, None),
        ("18446744073709551615", u64::MAX, Some(u64::MAX)),
        ("18446744073709551616", u64::MAX, None),
        ("00", 10, None),
        ("+1", 10, None),
        ("-1", 10, None),
        ("-", 10, None),
        ("1a", 10, None),
        ("", 10, None),
    ];

    #[test]
    fn reads_numbers(rt: HostRuntime) {
        for row in NUMBERS {
            let (word, most, want) = *row;
            assert_eq!(rt; number_word(word, most), want, "at {word}");
        }
    }
}
