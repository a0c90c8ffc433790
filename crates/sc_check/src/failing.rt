//! The first class of a channel that a code doesn't decide, by workers that take a part of the classes each.

ghost use Rattle.std.specs.Prelude.{◌≡◌, ◌↔◌, ◌<◌, ◌≤◌, ◌+◌, ◌*◌, ◌/◌, IsTrue, IfOk, MatchOption, if◌then◌else◌};
ghost use Rattle.std.specs.Thread.{IsSync};
ghost use Rattle.sc_channel.specs.Classes.{class_count};
ghost use Rattle.sc_check.specs.Failing.{DecidesAt, DecidesAll, IsFirstFailing, FirstBehind, least_found};

use crate::gate::Gate;
use crate::span::unit_images;
use crate::walk::{Walk, first_behind_burst};
use sc_channel::Classes;
use sc_code::ByteCode;
use sc_outside::NoMemory;
use sc_window::decides;
use std::alloc::Global;
use std::thread::{Threads, join};

/// The most workers of a check.
pub const MAX_WORKERS: u32 = 64;

/// The least index of a class that the code doesn't decide, and `None` exactly where it decides every class. The answer is the
/// same for every number of workers.
///
/// Class 0 is decided first. Then the classes are cut into as many contiguous parts as there are workers, or classes where these
/// are fewer. Part `i` of `p` begins at class `i * count / p`. `gate.enter(i)` is called once before part `i` begins, whatever
/// class 0 is. Parts are worked by fork and join over halves, a thread each, which share the code and the classes for reading only.
pub fn first_failing<R: Threads + Sync, G: Gate + Sync>(
    rt: &R,
    alloc: Global,
    code: &ByteCode,
    classes: &Classes,
    workers: u32,
    gate: &G,
) -> Result<Option<u32>, NoMemory>
    requires some { 1 ≤ workers }
    requires limit { workers ≤ MAX_WORKERS }
    ensures { IfOk result (λ found. MatchOption found (DecidesAll code.now classes.now) (IsFirstFailing code.now classes.now)) }
{
    let parts = workers.min(classes.count());
    let burst = decides_burst(alloc, code, classes)?;
    let images = unit_images(alloc, code, classes.channel().t() as usize + 1)?;
    let walk = Walk {
        code,
        classes,
        images: &images,
    };
    let found = first_in_parts(rt, alloc, &walk, burst, parts, 0, parts, gate)?;
    Ok(with_burst(burst, found))
}

// The first class, where class 0 is the first unless the code decides it.
fn with_burst(burst: bool, found: Option<u32>) -> Option<u32>
    ensures { result ≡ (if burst then found else Some 0) }
{
    if burst { found } else { Some(0) }
}

// Where part `part` of so many parts of the classes begins.
fn part_start(classes: &Classes, parts: u32, part: u32) -> u32
    requires some { 1 ≤ parts }
    requires limit { parts ≤ MAX_WORKERS }
    requires in_range { part ≤ parts }
    ensures value { result ≡ part * class_count classes.now / parts }
    ensures bound { result ≤ class_count classes.now }
{
    part * classes.count() / parts
}

// The first class from part `from` to part `to` - 1 that the code doesn't decide, of so many parts, where the code decides class
// 0, as `burst` says. Else the answer doesn't count.
fn first_in_parts<R: Threads + Sync, G: Gate + Sync>(
    rt: &R,
    alloc: Global,
    walk: &Walk,
    burst: bool,
    parts: u32,
    from: u32,
    to: u32,
    gate: &G,
) -> Result<Option<u32>, NoMemory>
    requires burst { IsTrue burst ↔ DecidesAt walk.now.code.now walk.now.classes.now 0 }
    requires some { from < to }
    requires within { to ≤ parts }
    requires limit { parts ≤ MAX_WORKERS }
    ensures { IfOk result (FirstBehind walk.now.code.now walk.now.classes.now (from * class_count walk.now.classes.now / parts) (to * class_count walk.now.classes.now / parts)) }
{
    if to - from == 1 {
        gate.enter(from);
        let start = part_start(walk.classes, parts, from);
        let end = part_start(walk.classes, parts, to);
        return first_between(alloc, walk, burst, start, end);
    }
    let middle = from + (to - from) / 2;
    let lower = move || -> Result<Option<u32>, NoMemory>
        requires { IsSync R.row × IsSync G.row × (IsTrue burst ↔ DecidesAt walk.now.code.now walk.now.classes.now 0) × (from < middle) × (middle ≤ parts) × (parts ≤ MAX_WORKERS) }
        ensures { IfOk result (FirstBehind walk.entry.now.code.now walk.entry.now.classes.now (from * class_count walk.entry.now.classes.now / parts) (middle * class_count walk.entry.now.classes.now / parts)) }
    { first_in_parts(rt, alloc, walk, burst, parts, from, middle, gate) };
    let upper = move || -> Result<Option<u32>, NoMemory>
        requires { IsSync R.row × IsSync G.row × (IsTrue burst ↔ DecidesAt walk.now.code.now walk.now.classes.now 0) × (middle < to) × (to ≤ parts) × (parts ≤ MAX_WORKERS) }
        ensures { IfOk result (FirstBehind walk.entry.now.code.now walk.entry.now.classes.now (middle * class_count walk.entry.now.classes.now / parts) (to * class_count walk.entry.now.classes.now / parts)) }
    { first_in_parts(rt, alloc, walk, burst, parts, middle, to, gate) };
    let (left, right) = join(rt, lower, upper);
    Ok(least(left?, right?))
}

// The lesser of two indices, or the one that there is.
fn least(left: Option<u32>, right: Option<u32>) -> Option<u32>
    ensures { result ≡ least_found left right }
{
    match left {
        None => right,
        Some(a) => match right {
            None => left,
            Some(b) => Some(a.min(b)),
        },
    }
}

// The first class from `from` to `to` - 1 that the code doesn't decide, where it decides class 0.
fn first_between(
    alloc: Global,
    walk: &Walk,
    burst: bool,
    from: u32,
    to: u32,
) -> Result<Option<u32>, NoMemory>
    requires burst { IsTrue burst ↔ DecidesAt walk.now.code.now walk.now.classes.now 0 }
    requires within { to ≤ class_count walk.now.classes.now }
    ensures { IfOk result (FirstBehind walk.now.code.now walk.now.classes.now from to) }
{
    if !burst {
        return Ok(None);
    }
    first_behind_burst(alloc, walk, from.max(1), to)
}

// Whether the code decides class 0.
fn decides_burst(alloc: Global, code: &ByteCode, classes: &Classes) -> Result<bool, NoMemory>
    requires { 0 < class_count classes.now }
    ensures { IfOk result (λ decided. IsTrue decided ↔ DecidesAt code.now classes.now 0) }
{
    let _count = classes.count();
    let class = classes.class(alloc, 0)?;
    decides(alloc, code, class.as_slice())
}
