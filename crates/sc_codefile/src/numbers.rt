//! The shapes of a code file: what a value has at each of its keys.

ghost use Rattle.std.specs.Prelude.{◌≡◌, ◌⊎◌, not, true, false, Some, IfOk, IfErr, OnOk, option_and_then, map};
ghost use Rattle.std.specs.List.{list_any};
ghost use Rattle.serde_json.specs.Find.{get};
ghost use Rattle.serde_json.specs.View.{view, members_view};
ghost use Rattle.sc_codefile.specs.Value.{is_among, is_object, has_other_key, member_keys};
ghost use Rattle.sc_codefile.specs.Fault.{first_of};
ghost use Rattle.sc_codefile.specs.CodeFile.{four, channel_at, k_at, lags_at, r_at, code_faults};
ghost use Rattle.sc_codefile.specs.Numbers.{IsFound, IsKeyFault, HasNumbers};

use crate::fault::{FileFault, Key};
use crate::lists::{ListOf, Shape};
use serde_json::{Map, Value};
use std::alloc::Global;
use std::marker::Model;

/// Four numbers, maybe those of a channel.
#[derive(Drop)]
pub(crate) struct FourNumbers {
    pub(crate) w: u64,
    pub(crate) b: u64,
    pub(crate) n: u64,
    pub(crate) t: u64,
}

impl Model for FourNumbers {
    ghost use Rattle.sc_channel.specs.Channel.{ChannelNumbers};

    ghost Value = { ChannelNumbers };

    ghost view = { λ c. record { w = c.w; b = c.b; n = c.n; t = c.t } };
}

/// The numbers that a value has at the keys of a code file, within no range yet.
#[derive(Drop)]
pub(crate) struct CodeNumbers {
    pub(crate) channel: FourNumbers,
    pub(crate) k: u64,
    pub(crate) lags: ListOf<ListOf<ListOf<u64>>>,
    pub(crate) r: u64,
}

/// The numbers at the keys of a code file, or the first fault of a shape.
pub(crate) fn numbers_of(alloc: Global, value: &Value) -> Result<CodeNumbers, FileFault>
    ensures numbers { IfOk result (HasNumbers (view value.now)) }
    ensures fault { IfErr result (λ fault. (fault ≡ FileFault.Memory) ⊎ (first_of (code_faults (view value.now)) ≡ Some fault)) }
{
    check_keys(value, &CODE_KEYS)?;
    let channel = channel_at(alloc, value)?;
    let k = k_at(alloc, value)?;
    let lags = lags_at(alloc, value)?;
    let r = r_at(alloc, value)?;
    Ok(CodeNumbers {
        channel,
        k,
        lags,
        r,
    })
}

/// The keys of a code file.
const CODE_KEYS: [&str; 4] = ["channel", "k", "lags", "r"];

/// Whether the value is an object with no key but these.
#[tactic(auto, unfolding(crate::specs::Value::is_object, crate::specs::Value::has_other_key))]
pub(crate) fn check_keys(value: &Value, keys: &[&str]) -> Result<(), FileFault>
    ensures object { OnOk result (is_object (view value.now) ≡ true) }
    ensures keys { OnOk result (has_other_key (map (λ key. key.now) keys.now) (view value.now) ≡ false) }
    ensures fault { IfErr result (IsKeyFault (map (λ key. key.now) keys.now) (view value.now)) }
{
    match value.as_object() {
        None => Err(FileFault::Shape(Key::Whole)),
        Some(members) if has_other_key(members, keys) => Err(FileFault::Shape(Key::Other)),
        Some(_) => Ok(()),
    }
}

/// Whether a member has a key that is none of these.
fn has_other_key(members: &Map<String, Value>, keys: &[&str]) -> bool
    ensures { result ≡ list_any (λ k. not (is_among (map (λ key. key.now) keys.now) k)) (member_keys (members_view members.now.entries)) }
{
    for (key, _value) in members.iter() {
        if !is_among(keys, key.as_str()) {
            return true;
        }
    }
    false
}

/// Whether a key is one of these.
fn is_among(keys: &[&str], key: &str) -> bool
    ensures { result ≡ is_among (map (λ key. key.now) keys.now) key.now }
{
    for known in keys {
        if key == *known {
            return true;
        }
    }
    false
}

/// The whole number at `k`.
#[tactic(auto, unfolding(crate::specs::CodeFile::k_at))]
fn k_at(alloc: Global, value: &Value) -> Result<u64, FileFault>
    ensures { IsFound (k_at (view value.now)) Key.K result }
{
    found_at(alloc, value, "k", Key::K)
}

/// The lists of lists of whole numbers at `lags`.
#[tactic(auto, unfolding(crate::specs::CodeFile::lags_at))]
fn lags_at(alloc: Global, value: &Value) -> Result<ListOf<ListOf<ListOf<u64>>>, FileFault>
    ensures { IsFound (lags_at (view value.now)) Key.Lags result }
{
    found_at(alloc, value, "lags", Key::Lags)
}

/// The whole number at `r`.
#[tactic(auto, unfolding(crate::specs::CodeFile::r_at))]
fn r_at(alloc: Global, value: &Value) -> Result<u64, FileFault>
    ensures { IsFound (r_at (view value.now)) Key.R result }
{
    found_at(alloc, value, "r", Key::R)
}

/// The four numbers at `channel`.
#[tactic(auto, unfolding(crate::specs::CodeFile::channel_at))]
fn channel_at(alloc: Global, value: &Value) -> Result<FourNumbers, FileFault>
    ensures { IsFound (channel_at (view value.now)) Key.Channel result }
{
    let numbers: ListOf<u64> = found_at(alloc, value, "channel", Key::Channel)?;
    four(numbers.as_slice()).ok_or(FileFault::Shape(Key::Channel))
}

/// The four numbers of a list that has no more.
fn four(numbers: &[u64]) -> Option<FourNumbers>
    ensures { result ≡ four numbers.now }
{
    match numbers {
        [w, b, n, t] => Some(FourNumbers {
            w: *w,
            b: *b,
            n: *n,
            t: *t,
        }),
        _ => None,
    }
}

/// What the value has at a key, in the shape that is wanted there.
pub(crate) fn found_at<T: Shape + Drop>(
    alloc: Global,
    value: &Value,
    name: &str,
    key: Key,
) -> Result<T, FileFault>
    ensures { IsFound (option_and_then T.shape (get name.now (view value.now))) key result }
{
    match value.get(name) {
        Some(found) => T::of(alloc, found)?.ok_or(FileFault::Shape(key)),
        None => Err(FileFault::Shape(key)),
    }
}
