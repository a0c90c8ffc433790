//! What `check` prints.
ghost use Rattle.std.specs.Prelude.{◌≡◌, ◌<◌, ◌≤◌, ◌+◌, ◌++◌, [], All, replicate, IfOk, OnOk, length, string_bytes, slice_index_or};
ghost use Rattle.std.specs.Fmt.{decimal};
ghost use Rattle.sc_channel.specs.Classes.{class_count};
ghost use Rattle.sc_check.specs.Answer.{told_by};
ghost use Rattle.sc_check.specs.Verdict.{IsVerdict};
ghost use Rattle.sc_codefile.specs.LossFile.{flags_text};
ghost use Rattle.streamcode.specs.Verdict.{block_text, stream_text, channel_text, rate_text, meets_text, fails_text, verdict_text, separator};

use itoa::Buffer;
use sc_channel::{Channel, Flags};
use sc_check::Verdict;
use sc_code::{ByteCode, CodeFile, Stream};
use sc_outside::NoMemory;
use std::alloc::Global;

/// Puts what stands before item `i` of a list behind a text: nothing before item 0, and else this character.
fn push_separator(text: &mut String, character: char, i: usize) -> Result<(), NoMemory>
    requires { character < 128 }
    ensures { OnOk result (string_bytes text.new ≡ string_bytes text.old ++ separator character i) }
{
    if 0 < i {
        text.push(character)?;
    }
    Ok(())
}

/// Puts a number behind a text, in decimal.
pub(crate) fn push_number(text: &mut String, number: u32) -> Result<(), NoMemory>
    ensures { OnOk result (string_bytes text.new ≡ string_bytes text.old ++ decimal number) }
{
    let mut buffer = Buffer::new();
    text.push_str(buffer.format(number))?;
    Ok(())
}

/// Puts the numbers of a channel behind a text.
fn push_channel(text: &mut String, channel: &Channel) -> Result<(), NoMemory>
    ensures { OnOk result (string_bytes text.new ≡ string_bytes text.old ++ channel_text channel.now) }
{
    push_number(text, channel.w())?;
    text.push(' ')?;
    push_number(text, channel.b())?;
    text.push(' ')?;
    push_number(text, channel.n())?;
    text.push(' ')?;
    push_number(text, channel.t())?;
    Ok(())
}

/// Puts the rate of a code behind a text.
pub(crate) fn push_rate(text: &mut String, code: &ByteCode) -> Result<(), NoMemory>
    ensures { OnOk result (string_bytes text.new ≡ string_bytes text.old ++ rate_text code.now) }
{
    push_number(text, code.k() as u32)?;
    text.push('/')?;
    push_number(text, (code.k() + code.r()) as u32)?;
    Ok(())
}

/// The line of a code that meets its channel.
fn meets_line(alloc: Global, file: &CodeFile, count: u32) -> Result<String, NoMemory>
    requires { count ≡ class_count file.now.channel }
    ensures { IfOk result (λ text. string_bytes text ≡ meets_text file.now) }
{
    let mut text = String::from_str(alloc, "meets ")?;
    push_channel(&mut text, &file.channel)?;
    text.push_str(" rate ")?;
    push_rate(&mut text, &file.code)?;
    text.push_str(" classes ")?;
    push_number(&mut text, count)?;
    text.push('\n')?;
    Ok(text)
}

/// Puts block `t` of a stream behind a text.
fn push_block(text: &mut String, stream: &Stream, t: usize, k: usize) -> Result<(), NoMemory>
    requires slot { t < length stream.now }
    requires symbols { length (slice_index_or stream.now t []) ≡ k }
    ensures { OnOk result (string_bytes text.new ≡ string_bytes text.old ++ block_text (slice_index_or stream.now t [])) }
{
    for i in 0..k {
        push_separator(text, ',', i)?;
        push_number(text, stream.symbol(t, i).into())?;
    }
    Ok(())
}

/// Puts a stream behind a text, whose blocks have `k` symbols.
fn push_stream(text: &mut String, stream: &Stream, k: usize) -> Result<(), NoMemory>
    requires { All (λ block. length block ≡ k) stream.now }
    ensures { OnOk result (string_bytes text.new ≡ string_bytes text.old ++ stream_text stream.now) }
{
    for t in 0..stream.blocks() {
        push_separator(text, ' ', t)?;
        push_block(text, stream, t, k)?;
    }
    Ok(())
}

/// Puts flags behind a text, `1` where one is set and else `0`.
fn push_flags(text: &mut String, flags: &Flags) -> Result<(), NoMemory>
    ensures { OnOk result (string_bytes text.new ≡ string_bytes text.old ++ flags_text flags.now) }
{
    for flag in flags.as_slice() {
        text.push(if *flag { '1' } else { '0' })?;
    }
    Ok(())
}

/// A stream of so many blocks of `k` zeros.
fn zero_stream(alloc: Global, blocks: usize, k: usize) -> Result<Stream, NoMemory>
    requires some { 1 ≤ k }
    requires few { k ≤ 64 }
    requires short { blocks ≤ 41 }
    ensures { IfOk result (λ stream. stream ≡ replicate blocks (replicate k 0)) }
{
    Ok(Stream::new(k, vec![in alloc; 0; blocks * k]?))
}

/// The lines of a code that doesn't meet its channel.
fn fails_lines(
    alloc: Global,
    file: &CodeFile,
    class: u32,
    loss: &Flags,
    stream: &Stream,
) -> Result<String, NoMemory>
    requires blocks { length stream.now ≡ file.now.channel.t + 1 }
    requires symbols { All (λ block. length block ≡ file.now.code.k) stream.now }
    ensures { IfOk result (λ text. string_bytes text ≡ fails_text file.now.code.k (record { index = class; class = loss.now; stream = stream.now })) }
{
    let k = file.code.k();
    let zeros = zero_stream(alloc, file.channel.t() as usize + 1, k)?;
    let mut text = String::from_str(alloc, "fails class ")?;
    push_number(&mut text, class)?;
    text.push_str("\nloss ")?;
    push_flags(&mut text, loss)?;
    text.push_str("\nstream ")?;
    push_stream(&mut text, stream, k)?;
    text.push_str("\nother ")?;
    push_stream(&mut text, &zeros, k)?;
    text.push('\n')?;
    Ok(text)
}

/// The lines of a verdict on a file, whose channel has so many classes.
pub(crate) fn verdict_lines(
    alloc: Global,
    file: &CodeFile,
    count: u32,
    verdict: &Verdict,
) -> Result<String, NoMemory>
    requires count { count ≡ class_count file.now.channel }
    requires verdict { IsVerdict file.now.code file.now.channel verdict.now }
    ensures { IfOk result (λ text. string_bytes text ≡ verdict_text file.now (told_by verdict.now)) }
{
    match verdict {
        Verdict::Meets => meets_line(alloc, file, count),
        Verdict::Fails {
            class,
            loss,
            stream,
        } => fails_lines(alloc, file, *class, loss, stream),
    }
}
