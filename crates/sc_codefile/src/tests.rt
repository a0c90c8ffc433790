//! Texts of code files and certificates beside what they are read as, and refusals in their order.

use super::*;
use sc_channel::{Channel, Flags, MAX_FLAGS};
use sc_code::{ByteCode, Code, CodeFile};
use sc_field::{Field, Gf256};
use sc_matrix::Matrix;
use std::alloc::Global;
use std::process::Abort;
use std::test::Fail;

// `p[t] = s[t-2]`.
const DELAYED: &str = "{\"channel\":[3,2,1,2],\"k\":1,\"lags\":[[[0]],[[0]],[[1]]],\"r\":1}";

// `p_0[t] = s_0[t-2] + s_1[t-1]`, `p_1[t] = s_0[t-3]`, `p_2[t] = s_1[t-3]`.
const THREE_PARITIES: &str =
    "{\"channel\":[4,3,2,3],\"k\":2,\"lags\":[[[0,0,0],[0,0,0]],[[0,0,0],[1,0,0]],[[1,0,0],[0,0,0]],[[0,1,0],[0,0,1]],[[0,0,0],[0,0,0]]],\"r\":3}";

// A greatest coefficient, the greatest channel, and a code without memory.
const GREATEST: &str = "{\"channel\":[255,40,40,40],\"k\":2,\"lags\":[[[255],[7]]],\"r\":1}";

#[test]
fn printed_as_read(rt: HostRuntime) -> Result<(), Fail> {
    for text in [DELAYED, THREE_PARITIES, GREATEST] {
        let file = read_code(rt.alloc(), text.as_bytes())?;
        let printed = print_code(rt.alloc(), &file)?;
        assert!(rt; printed.as_slice() == text.as_bytes(), "{text}");
    }
    Ok(())
}

// Whether a coefficient of the code is 1 or 0, as is wanted.
fn is_one_or_zero(code: &ByteCode, lag: usize, row: usize, column: usize, one: bool) -> bool {
    lag <= code.memory()
        && row < code.k()
        && column < code.r()
        && code.coefficient(lag, row, column).number() == one as u8
}

const ONES: &[(usize, usize, usize)] = &[(1, 1, 0), (2, 0, 0), (3, 0, 1), (3, 1, 2)];

fn has_ones(code: &ByteCode) -> bool {
    for at in 0..30 {
        let place = (at / 6, at / 3 % 2, at % 3);
        let mut one = false;
        for p in ONES {
            one = one || *p == place;
        }
        if !is_one_or_zero(code, place.0, place.1, place.2, one) {
            return false;
        }
    }
    code.k() == 2 && code.r() == 3 && code.memory() == 4
}

#[test]
fn numbers_as_written(rt: HostRuntime) -> Result<(), Fail> {
    let file = read_code(rt.alloc(), THREE_PARITIES.as_bytes())?;
    let channel = file.channel;
    assert!(rt; (channel.w(), channel.b(), channel.n(), channel.t()) == (4, 3, 2, 3));
    assert!(rt; has_ones(&file.code));
    Ok(())
}

// The fault of a text, if it has one.
fn fault(alloc: Global, text: &[u8]) -> Option<FileFault> {
    match read_code(alloc, text) {
        Ok(_file) => None,
        Err(fault) => Some(fault),
    }
}

// The text of a code file whose members are these.
fn members(alloc: Global, parts: [&str; 4]) -> Result<String, Fail> {
    let [channel, k, lags, r] = parts;
    Ok(format!(in alloc; "{{\"channel\":{channel},\"k\":{k},\"lags\":{lags},\"r\":{r}}}")?)
}

const CHANNEL: &str = "[3,2,1,2]";

const LAGS: &str = "[[[0]],[[0]],[[1]]]";

// Compares the fault of a code file with what is expected of it.
fn assert_fault(
    rt: &impl Abort,
    alloc: Global,
    parts: [&str; 4],
    expected: Option<FileFault>,
) -> Result<(), Fail> {
    let text = members(alloc, parts)?;
    let found = fault(alloc, text.as_bytes());
    assert!(rt; found == expected, "{}", text.as_str());
    Ok(())
}

const CHANNELS: &[(&str, Option<FileFault>)] = &[
    (CHANNEL, None),
    ("[3,2,1]", Some(FileFault::Shape(Key::Channel))),
    ("[3,2,1,2,9]", Some(FileFault::Shape(Key::Channel))),
    ("[3,2,1.0,2]", Some(FileFault::Shape(Key::Channel))),
    ("[3,2,1,2e0]", Some(FileFault::Shape(Key::Channel))),
    ("[3,-2,1,2]", Some(FileFault::Shape(Key::Channel))),
    ("[3,2,\"1\",2]", Some(FileFault::Shape(Key::Channel))),
    ("3", Some(FileFault::Shape(Key::Channel))),
    (
        "[18446744073709551616,2,1,2]",
        Some(FileFault::Shape(Key::Channel)),
    ),
    (
        "[18446744073709551615,2,1,2]",
        Some(FileFault::Range(Key::Channel)),
    ),
    ("[4294967299,2,1,2]", Some(FileFault::Range(Key::Channel))),
    ("[3,1,2,2]", Some(FileFault::Range(Key::Channel))),
    ("[3,2,0,2]", Some(FileFault::Range(Key::Channel))),
    ("[256,2,1,2]", Some(FileFault::Range(Key::Channel))),
    ("[50,2,1,41]", Some(FileFault::Range(Key::Channel))),
];

#[test]
fn channels(rt: HostRuntime) -> Result<(), Fail> {
    for row in CHANNELS {
        let (channel, expected) = *row;
        assert_fault(&rt, rt.alloc(), [channel, "1", LAGS, "1"], expected)?;
    }
    Ok(())
}

const SYMBOLS: &[(&str, &str, FileFault)] = &[
    ("null", "1", FileFault::Shape(Key::K)),
    ("1.0", "1", FileFault::Shape(Key::K)),
    ("1e0", "1", FileFault::Shape(Key::K)),
    ("-0", "1", FileFault::Shape(Key::K)),
    ("[1]", "1", FileFault::Shape(Key::K)),
    ("0", "1", FileFault::Range(Key::K)),
    ("64", "1", FileFault::Range(Key::K)),
    ("2", "1", FileFault::Range(Key::Lags)),
    ("1", "false", FileFault::Shape(Key::R)),
    ("1", "1.5", FileFault::Shape(Key::R)),
    ("1", "2", FileFault::Range(Key::Lags)),
    ("1", "0", FileFault::Range(Key::Lags)),
];

#[test]
fn numbers_of_symbols(rt: HostRuntime) -> Result<(), Fail> {
    for row in SYMBOLS {
        let (k, r, expected) = *row;
        assert_fault(&rt, rt.alloc(), [CHANNEL, k, LAGS, r], Some(expected))?;
    }
    let nothing = [CHANNEL, "1", "[[[]]]", "0"];
    assert_fault(&rt, rt.alloc(), nothing, Some(FileFault::Range(Key::R)))
}

const MATRICES: &[(&str, Option<FileFault>)] = &[
    ("[[0]]", Some(FileFault::Shape(Key::Lags))),
    ("[[[0,true]]]", Some(FileFault::Shape(Key::Lags))),
    ("[[[0],0]]", Some(FileFault::Shape(Key::Lags))),
    ("[[[0]],{}]", Some(FileFault::Shape(Key::Lags))),
    ("[[[-1]]]", Some(FileFault::Shape(Key::Lags))),
    ("[]", Some(FileFault::Range(Key::Lags))),
    ("[[]]", Some(FileFault::Range(Key::Lags))),
    ("[[[]]]", Some(FileFault::Range(Key::Lags))),
    ("[[[0]],[[0],[0]]]", Some(FileFault::Range(Key::Lags))),
    ("[[[0]],[[0,0]]]", Some(FileFault::Range(Key::Lags))),
    ("[[[255]]]", None),
    ("[[[256]]]", Some(FileFault::Range(Key::Lags))),
];

#[test]
fn matrices(rt: HostRuntime) -> Result<(), Fail> {
    for row in MATRICES {
        let (lags, expected) = *row;
        assert_fault(&rt, rt.alloc(), [CHANNEL, "1", lags, "1"], expected)?;
    }
    Ok(())
}

// What isn't JSON, whole values, other and missing keys, and faults in their order.
const FAULTS: &[(&str, FileFault)] = &[
    ("", FileFault::NotJson),
    ("{", FileFault::NotJson),
    ("[]]", FileFault::NotJson),
    ("{\"k\":01}", FileFault::NotJson),
    ("{\"k\":1e999}", FileFault::NotJson),
    ("[]", FileFault::Shape(Key::Whole)),
    ("null", FileFault::Shape(Key::Whole)),
    ("\"channel\"", FileFault::Shape(Key::Whole)),
    ("{\"k\":1}", FileFault::Shape(Key::Channel)),
    ("{}", FileFault::Shape(Key::Channel)),
    ("{\"x\":1}", FileFault::Shape(Key::Other)),
    ("{\"K\":1}", FileFault::Shape(Key::Other)),
    (
        "{\"channel\":[3,2,1,2],\"lags\":[],\"r\":1}",
        FileFault::Shape(Key::K),
    ),
    (
        "{\"channel\":[3,2,1,2],\"k\":1,\"r\":1}",
        FileFault::Shape(Key::Lags),
    ),
    (
        "{\"channel\":[3,2,1,2],\"k\":1,\"lags\":[]}",
        FileFault::Shape(Key::R),
    ),
    (
        "{\"channel\":[1,2,3,4],\"k\":0,\"lags\":[],\"r\":0.5}",
        FileFault::Shape(Key::R),
    ),
    (
        "{\"channel\":[1,2,3,4],\"k\":0,\"lags\":[],\"r\":0}",
        FileFault::Range(Key::Channel),
    ),
    (
        "{\"channel\":[3,2,1,2],\"k\":0,\"lags\":[],\"r\":0}",
        FileFault::Range(Key::K),
    ),
    (
        "{\"channel\":[3,2,1,2],\"k\":1,\"lags\":[],\"r\":0}",
        FileFault::Range(Key::Lags),
    ),
    (
        "{\"channel\":[3,2,1,2],\"k\":1,\"lags\":[[[0]],[[0]],[[1]]],\"loss\":1,\"r\":1}",
        FileFault::Shape(Key::Other),
    ),
];

#[test]
fn faults_of_a_file(rt: HostRuntime) -> Result<(), Fail> {
    for row in FAULTS {
        let (text, expected) = *row;
        let found = fault(rt.alloc(), text.as_bytes());
        assert!(rt; found == Some(expected), "{text}");
    }
    assert_eq!(rt; fault(rt.alloc(), b"\"\xff\""), Some(FileFault::NotJson));
    Ok(())
}

// White space counts for nothing, and of a key that comes twice `serde_json` keeps the last value.
const OTHER_TEXTS: &[&str] = &[
    " { \"r\":1, \"lags\":[[[0]],[[0]],[[1]]],\n\"k\":1, \"channel\":[3,2,1,2] }\n",
    "{\"k\":0,\"channel\":[3,2,1,2],\"k\":1,\"lags\":[[[0]],[[0]],[[1]]],\"r\":1}",
    "{\"channel\":[3,2,1,2],\"\\u006b\":1,\"lags\":[[[0]],[[0]],[[1]]],\"r\":1}",
];

#[test]
fn other_texts_of_a_file(rt: HostRuntime) -> Result<(), Fail> {
    for text in OTHER_TEXTS {
        let file = read_code(rt.alloc(), text.as_bytes())?;
        let printed = print_code(rt.alloc(), &file)?;
        assert!(rt; printed.as_slice() == DELAYED.as_bytes(), "{text}");
    }
    Ok(())
}

// A matrix with numbers that differ from place to place.
fn filled(alloc: Global, lag: usize) -> Result<Matrix<Gf256>, Fail> {
    let mut matrix = Matrix::zeros(alloc, 32, 32)?;
    for at in 0..1024 {
        let (i, j) = (at / 32, at % 32);
        if i < matrix.rows() && j < matrix.cols() {
            matrix.set(i, j, Gf256::from(((lag % 65 + at) % 256) as u8));
        }
    }
    Ok(matrix)
}

// A code at the limits of its size, with coefficients of all values.
fn largest(alloc: Global) -> Result<CodeFile, Fail> {
    let mut lags = Vec::new(alloc);
    for lag in 0..65 {
        lags.push(filled(alloc, lag)?)?;
    }
    Ok(CodeFile {
        channel: Channel::new(255, 40, 40, 40)?,
        code: Code::new(32, 32, lags)?,
    })
}

#[test]
fn largest_code_reads_back(rt: HostRuntime) -> Result<(), Fail> {
    let alloc = rt.alloc();
    let printed = print_code(alloc, &largest(alloc)?)?;
    let file = read_code(alloc, &printed)?;
    assert!(rt; file.code.k() == 32 && file.code.r() == 32 && file.code.memory() == 64);
    let again = print_code(alloc, &file)?;
    assert!(rt; printed.len() > 200_000 && again.as_slice() == printed.as_slice());
    Ok(())
}

// One symbol or one matrix too many, in a text of real size.
const SIZES: &[(usize, usize, usize, Option<FileFault>)] = &[
    (1, 63, 65, None),
    (63, 1, 65, None),
    (32, 32, 65, None),
    (1, 64, 1, Some(FileFault::Range(Key::R))),
    (63, 2, 1, Some(FileFault::Range(Key::R))),
    (32, 33, 1, Some(FileFault::Range(Key::R))),
    (1, 1, 66, Some(FileFault::Range(Key::Lags))),
    (1, 1, 0, Some(FileFault::Range(Key::Lags))),
    (64, 1, 1, Some(FileFault::Range(Key::K))),
];

#[test]
fn beyond_the_limits(rt: HostRuntime) -> Result<(), Fail> {
    let alloc = rt.alloc();
    for row in SIZES {
        let (k, r, count, expected) = *row;
        let text = sized(alloc, k, r, count)?;
        assert!(rt;
            fault(alloc, text.as_bytes()) == expected,
            "{k} {r} {count}"
        );
    }
    Ok(())
}

// The text of `count` matrices of `k` rows of `r` numbers.
fn sized(alloc: Global, k: usize, r: usize, count: usize) -> Result<String, Fail> {
    let row = listed(alloc, "200", r)?;
    let matrix = listed(alloc, row.as_str(), k)?;
    let lags = listed(alloc, matrix.as_str(), count)?;
    Ok(format!(in alloc;
        "{{\"channel\":[3,2,1,2],\"k\":{k},\"lags\":{},\"r\":{r}}}",
        lags.as_str()
    )?)
}

// The text of a list of `count` equal items.
fn listed(alloc: Global, item: &str, count: usize) -> Result<String, Fail> {
    let mut text = String::from_str(alloc, "[")?;
    for i in 0..count {
        if i > 0 {
            text.push_str(",")?;
        }
        text.push_str(item)?;
    }
    text.push_str("]")?;
    Ok(text)
}

// The texts of certificates, and the first fault of other texts.
const CERTIFICATES: &[(&str, Option<FileFault>)] = &[
    ("{\"lost\":[0,1],\"period\":4}", None),
    ("{\"lost\":[],\"period\":1}", None),
    ("{\"lost\":[0,17,4095],\"period\":4096}", None),
    ("", Some(FileFault::NotJson)),
    ("{\"lost\":[0,1],\"period\":4}}", Some(FileFault::NotJson)),
    ("[]", Some(FileFault::Shape(Key::Whole))),
    (
        "{\"lost\":[0,1],\"loss\":\"\",\"period\":4}",
        Some(FileFault::Shape(Key::Other)),
    ),
    ("{\"channel\":1}", Some(FileFault::Shape(Key::Other))),
    ("{}", Some(FileFault::Shape(Key::Lost))),
    ("{\"period\":0}", Some(FileFault::Shape(Key::Lost))),
    (
        "{\"lost\":[0,1.0],\"period\":[]}",
        Some(FileFault::Shape(Key::Lost)),
    ),
    (
        "{\"lost\":[[0]],\"period\":4}",
        Some(FileFault::Shape(Key::Lost)),
    ),
    (
        "{\"lost\":0,\"period\":4}",
        Some(FileFault::Shape(Key::Lost)),
    ),
    (
        "{\"lost\":[-1],\"period\":4}",
        Some(FileFault::Shape(Key::Lost)),
    ),
    ("{\"lost\":[1,0]}", Some(FileFault::Shape(Key::Period))),
    (
        "{\"lost\":[1,0],\"period\":\"4\"}",
        Some(FileFault::Shape(Key::Period)),
    ),
    (
        "{\"lost\":[1,0],\"period\":4e0}",
        Some(FileFault::Shape(Key::Period)),
    ),
    (
        "{\"lost\":[1,0],\"period\":0}",
        Some(FileFault::Range(Key::Lost)),
    ),
    (
        "{\"lost\":[1,1],\"period\":4}",
        Some(FileFault::Range(Key::Lost)),
    ),
    (
        "{\"lost\":[0,4],\"period\":4}",
        Some(FileFault::Range(Key::Lost)),
    ),
    (
        "{\"lost\":[0],\"period\":0}",
        Some(FileFault::Range(Key::Lost)),
    ),
    (
        "{\"lost\":[18446744073709551615],\"period\":18446744073709551615}",
        Some(FileFault::Range(Key::Lost)),
    ),
    (
        "{\"lost\":[4294967296],\"period\":4294967297}",
        Some(FileFault::Range(Key::Period)),
    ),
    (
        "{\"lost\":[],\"period\":0}",
        Some(FileFault::Range(Key::Period)),
    ),
    (
        "{\"lost\":[0,1],\"period\":4097}",
        Some(FileFault::Range(Key::Period)),
    ),
    (
        "{\"lost\":[0,1],\"period\":4294967300}",
        Some(FileFault::Range(Key::Period)),
    ),
];

#[test]
fn certificates(rt: HostRuntime) -> Result<(), Fail> {
    for row in CERTIFICATES {
        let (text, expected) = *row;
        match read_certificate(rt.alloc(), text.as_bytes()) {
            Ok(cert) => {
                let printed = print_certificate(rt.alloc(), &cert)?;
                assert!(rt;
                    expected.is_none() && printed.as_slice() == text.as_bytes(),
                    "{text}"
                );
            }
            Err(fault) => assert!(rt; expected == Some(fault), "{text}"),
        }
    }
    Ok(())
}

// A certificate at the limits of its size, with white space and its keys the other way round.
#[test]
fn longest_certificate_reads_back(rt: HostRuntime) -> Result<(), Fail> {
    let alloc = rt.alloc();
    let mut text = String::from_str(alloc, "{ \"period\":4096,\n\"lost\":[0")?;
    for residue in 1..4096u32 {
        text.push_str(format!(in alloc; ", {residue}")?.as_str())?;
    }
    text.push_str("] }")?;
    let cert = read_certificate(alloc, text.as_bytes())?;
    assert!(rt; cert.period() == 4096 && cert.lost().len() == 4096);
    let printed = print_certificate(alloc, &cert)?;
    let again = read_certificate(alloc, &printed)?;
    assert_eq!(rt; again.lost(), cert.lost());
    Ok(())
}

// What a text is as a loss file: its flags as a word, or the first fault.
const LOSSES: &[(&str, Result<&str, FileFault>)] = &[
    ("{\"loss\":\"\"}", Ok("")),
    ("{\"loss\":\"0110\"}", Ok("0110")),
    (" {\n\"loss\" : \"\\u00310\"} ", Ok("10")),
    ("", Err(FileFault::NotJson)),
    ("{\"loss\":\"0\"", Err(FileFault::NotJson)),
    ("\"0110\"", Err(FileFault::Shape(Key::Whole))),
    ("[]", Err(FileFault::Shape(Key::Whole))),
    (
        "{\"loss\":\"0\",\"lost\":[0]}",
        Err(FileFault::Shape(Key::Other)),
    ),
    ("{\"Loss\":\"0\"}", Err(FileFault::Shape(Key::Other))),
    ("{}", Err(FileFault::Shape(Key::Loss))),
    ("{\"loss\":[0,1]}", Err(FileFault::Shape(Key::Loss))),
    ("{\"loss\":110}", Err(FileFault::Shape(Key::Loss))),
    ("{\"loss\":\"012\"}", Err(FileFault::Range(Key::Loss))),
    ("{\"loss\":\"01 \"}", Err(FileFault::Range(Key::Loss))),
];

// Whether the flags are those of the word.
fn are_flags(flags: &[bool], word: &str) -> bool {
    for (place, byte) in word.as_bytes().iter().enumerate() {
        if flags.get(place) != Some(&(*byte == b'1')) {
            return false;
        }
    }
    flags.len() == word.len()
}

fn is_loss(alloc: Global, text: &str, expected: Result<&str, FileFault>) -> bool {
    match (read_loss(alloc, text.as_bytes()), expected) {
        (Ok(flags), Ok(word)) => are_flags(flags.as_slice(), word),
        (Err(fault), Err(want)) => fault == want,
        _ => false,
    }
}

#[test]
fn losses(rt: HostRuntime) -> Result<(), Fail> {
    for row in LOSSES {
        let (text, expected) = *row;
        assert!(rt; is_loss(rt.alloc(), text, expected), "{text}");
    }
    Ok(())
}

// A loss of so many flags, each third one set.
fn loss_of_thirds(alloc: Global, count: usize) -> Result<Flags, Fail> {
    let mut flags = Flags::new(alloc);
    for place in 0..count {
        flags.push(place % 3 == 1)?;
    }
    Ok(flags)
}

// The text of a loss file with so many characters.
fn text_of_ones(alloc: Global, count: usize) -> Result<String, Fail> {
    let mut text = String::from_str(alloc, "{\"loss\":\"")?;
    for _flag in 0..count {
        text.push_str("1")?;
    }
    text.push_str("\"}")?;
    Ok(text)
}

// The printed loss, where it isn't too long.
fn printed_loss(alloc: Global, loss: &Flags) -> Result<Vec<u8>, Fail> {
    if loss.len() <= MAX_FLAGS {
        Ok(print_loss(alloc, loss)?)
    } else {
        Err("too many flags")?
    }
}

// Losses of these lengths read back.
#[test]
fn losses_read_back(rt: HostRuntime) -> Result<(), Fail> {
    let alloc = rt.alloc();
    for count in [0, 1, MAX_FLAGS] {
        let loss = loss_of_thirds(alloc, count)?;
        let printed = printed_loss(alloc, &loss)?;
        assert!(rt; printed.len() > count && printed.len() - count == 11);
        let again = read_loss(alloc, &printed)?;
        assert_eq!(rt; again.as_slice(), loss.as_slice());
    }
    Ok(())
}

// One flag more than a loss has is too many.
#[test]
fn refuses_a_longer_loss(rt: HostRuntime) -> Result<(), Fail> {
    let text = text_of_ones(rt.alloc(), MAX_FLAGS + 1)?;
    let refused = read_loss(rt.alloc(), text.as_bytes());
    assert!(rt; matches!(&refused, Err(FileFault::Range(Key::Loss))));
    Ok(())
}

const WORDS: &[(FileFault, &str)] = &[
    (FileFault::NotJson, "not json"),
    (FileFault::Shape(Key::Whole), "shape whole"),
    (FileFault::Shape(Key::Other), "shape other"),
    (FileFault::Shape(Key::Channel), "shape channel"),
    (FileFault::Range(Key::K), "range k"),
    (FileFault::Range(Key::Lags), "range lags"),
    (FileFault::Range(Key::R), "range r"),
    (FileFault::Range(Key::Lost), "range lost"),
    (FileFault::Shape(Key::Period), "shape period"),
    (FileFault::Shape(Key::Loss), "shape loss"),
    (FileFault::Memory, "no memory"),
];

#[test]
fn says_why(rt: HostRuntime) -> Result<(), Fail> {
    for row in WORDS {
        let (fault, expected) = *row;
        let text = format!(in rt.alloc(); "{fault}")?;
        assert_eq!(rt; text.as_str(), expected);
    }
    Ok(())
}
