//! Losses as files: reading one, and printing one.

ghost use Rattle.std.specs.Prelude.{◌≡◌, ◌⊎◌, ◌==◌, ◌≤◌, true, false, Some, None, Err, IfOk, IfErr, map, length, string_bytes};
ghost use Rattle.serde_json.specs.View.{view};
ghost use Rattle.sc_codefile.specs.Fault.{first_of, IsRefusedFor};
ghost use Rattle.sc_codefile.specs.LossFile.{loss_at, flags_text, is_flags_text, loss_faults, IsLossText, loss_text, loss_value, HasText, HasFlags};
ghost use Rattle.sc_codefile.specs.Reading.{loss_reading};

use crate::fault::{FileFault, Key};
use crate::numbers::check_keys;
use crate::read::value_of;
use sc_channel::{Flags, MAX_FLAGS};
use sc_outside::NoMemory;
use serde_json::{Value, json};
use std::alloc::Global;

/// The loss that the bytes are: a flag for each character of its text, set where it is `1`. The bytes are refused for the first
/// fault: no JSON value, then the shape of the key, and then its range.
pub fn read_loss(alloc: Global, text: &[u8]) -> Result<Flags, FileFault>
    ensures file { IfOk result (IsLossText text.now) }
    ensures fault { IfErr result (IsRefusedFor loss_faults text.now) }
    ensures reading { (result ≡ Err FileFault.Memory) ⊎ (result ≡ loss_reading text.now) }
{
    read_value(alloc, text)
}

/// The same, by the value that the bytes are.
fn read_value(alloc: Global, text: &[u8]) -> Result<Flags, FileFault>
    ensures file { IfOk result (IsLossText text.now) }
    ensures fault { IfErr result (IsRefusedFor loss_faults text.now) }
{
    let value = value_of(alloc, text)?;
    let flags = text_of(&value)?;
    loss_of(alloc, flags)
}

/// The text at the key of a loss, or the first fault of a shape.
fn text_of(value: &Value) -> Result<&str, FileFault>
    ensures text { IfOk result (λ text. HasText (view value.now) text.now) }
    ensures fault { IfErr result (λ fault. first_of (loss_faults (view value.now)) ≡ Some fault) }
{
    check_keys(value, &["loss"])?;
    loss_at(value)
}

/// The text at `loss`.
#[tactic(auto, unfolding(crate::specs::LossFile::loss_at))]
fn loss_at(value: &Value) -> Result<&str, FileFault>
    ensures text { IfOk result (λ text. loss_at (view value.now) ≡ Some text.now) }
    ensures fault { IfErr result (λ fault. (fault ≡ FileFault.Shape Key.Loss) × (loss_at (view value.now) ≡ None)) }
{
    match value.get("loss") {
        Some(found) => found.as_str().ok_or(FileFault::Shape(Key::Loss)),
        None => Err(FileFault::Shape(Key::Loss)),
    }
}

/// The flags of a text, or the fault of its range.
fn loss_of(alloc: Global, text: &str) -> Result<Flags, FileFault>
    ensures file { IfOk result (HasFlags text.now) }
    ensures fault { IfErr result (λ fault. (fault ≡ FileFault.Memory) ⊎ ((fault ≡ FileFault.Range Key.Loss) × (is_flags_text text.now ≡ false))) }
{
    if !is_flags_text(text) {
        return Err(FileFault::Range(Key::Loss));
    }
    Ok(flags_of(alloc, text)?)
}

/// Whether a text is one of flags, and of no more than a loss has.
#[tactic(auto, unfolding(crate::specs::LossFile::is_flags_text))]
fn is_flags_text(text: &str) -> bool
    ensures { result ≡ is_flags_text text.now }
{
    text.len() <= MAX_FLAGS && text.bytes().all(|byte| byte == b'0' || byte == b'1')
}

/// The flags of a text.
fn flags_of(alloc: Global, text: &str) -> Result<Flags, NoMemory>
    requires { is_flags_text text.now ≡ true }
    ensures { IfOk result (HasFlags text.now) }
{
    let mut flags = Vec::with_capacity(alloc, text.len())?;
    for byte in text.as_bytes() {
        flags.push(*byte == b'1')?;
    }
    Ok(Flags::from_vec(flags))
}

/// The text of a loss, of at most 4,000,000 flags: its key and a character for each flag, and no newline behind it. It reads
/// back as the loss.
pub fn print_loss(alloc: Global, loss: &Flags) -> Result<Vec<u8>, NoMemory>
    requires { length loss.now ≤ MAX_FLAGS }
    ensures text { IfOk result (λ text. text.items ≡ loss_text loss.now) }
    ensures reads_back { IfOk result (λ text. IsLossText text.items loss.now) }
{
    let value = loss_value(alloc, loss)?;
    Ok(value.to_vec(alloc)?)
}

/// The value of a loss.
fn loss_value(alloc: Global, loss: &Flags) -> Result<Value, NoMemory>
    ensures { IfOk result (λ value. view value ≡ loss_value loss.now) }
{
    let text = flags_text(alloc, loss.as_slice())?;
    let flags = Value::String(text);
    Ok(json!(in alloc; {"loss": flags})?)
}

/// The flags as a text.
fn flags_text(alloc: Global, flags: &[bool]) -> Result<String, NoMemory>
    ensures { IfOk result (λ text. string_bytes text ≡ flags_text flags.now) }
{
    let mut text = String::with_capacity(alloc, flags.len())?;
    for lost in flags {
        text.push_str(if *lost { "1" } else { "0" })?;
    }
    Ok(text)
}
