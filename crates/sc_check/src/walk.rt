//! The walk over the classes behind the first: depth first over the flags that classes begin with, lost before kept, which is the
//! order of the classes. Where the slots so far tell block 0, all classes that begin so are passed over, and so are those that lose
//! slots of class 0 alone, where the code decides that one. What the slots so far leave open is kept by vectors that span it, so
//! that classes share the work of the slots that they begin with.

ghost use Rattle.std.specs.Prelude.{◌≡◌, ◌↔◌, ◌<◌, ◌≤◌, ◌+◌, ◌-◌, ◌*◌, ◌/◌, length, take, slice_index_or, true, false, IsTrue, IfOk, OnOk};
ghost use Rattle.sc_field.specs.Gf256.{gf256_product};
ghost use Rattle.sc_channel.specs.Flags.{IsSet};
ghost use Rattle.sc_channel.specs.Classes.{class_count};
ghost use Rattle.sc_code.specs.Determined.{IsDecided};
ghost use Rattle.sc_matrix.specs.Matrix.{row_count};
ghost use Rattle.sc_check.specs.Failing.{DecidesAt, FirstIn};
ghost use Rattle.sc_check.specs.Walk.{IsFrontOf, IsRoom};
ghost use Rattle.sc_check.specs.Span.{IsSpan, AreUnitImages, image_width};

use crate::span::{are_zero_from, clear_columns, copy_rows, push_units};
use sc_channel::Classes;
use sc_code::ByteCode;
use sc_field::Gf256;
use sc_matrix::Matrix;
use sc_outside::NoMemory;
use std::alloc::Global;

// What workers read: a code, the classes that it is checked against, and the images of the unit streams of all slots.
#[derive(Drop)]
pub(crate) struct Walk<'a> {
    pub(crate) code: &'a ByteCode,
    pub(crate) classes: &'a Classes,
    pub(crate) images: &'a Matrix<Gf256>,
    ghost units: { AreUnitImages code.now (classes.now.t + 1) images.now },
}

// Classes that begin with the same flags, `done` of them: those from index `first` on, `ways` of them. `left` flags are still to
// be set.
#[derive(Copy, Clone)]
struct Front {
    done: usize,
    left: u32,
    first: u32,
    ways: u32,
}

// The first class from `from` to `to` - 1, of those behind the first class, that the code doesn't decide, where it decides the
// first. What a worker needs of memory is taken here, once.
pub(crate) fn first_behind_burst(
    alloc: Global,
    walk: &Walk,
    from: u32,
    to: u32,
) -> Result<Option<u32>, NoMemory>
    requires behind { 1 ≤ from }
    requires within { to ≤ class_count walk.now.classes.now }
    requires burst { DecidesAt walk.now.code.now walk.now.classes.now 0 }
    ensures { IfOk result (FirstIn walk.now.code.now walk.now.classes.now from to) }
{
    let mut flags = vec![in alloc; false; walk.classes.channel().t() as usize + 1]?;
    let mut spare = room_for(alloc, walk)?;
    first_among_all(walk, flags.as_mut_slice(), &mut spare, from, to)
}

// A matrix for each slot that a class loses, with room for all that these slots leave open. The least is the last.
fn room_for(alloc: Global, walk: &Walk) -> Result<Vec<Matrix<Gf256>>, NoMemory>
    ensures { IfOk result (λ spare. IsRoom (image_width walk.now.code.now (walk.now.classes.now.t + 1)) walk.now.classes.now.n spare.items) }
{
    let _count = walk.classes.count();
    let channel = walk.classes.channel();
    let n = channel.n() as usize;
    let k = walk.code.k();
    let cols = (channel.t() as usize + 1) * walk.code.r() + k;
    let mut spare = Vec::with_capacity(alloc, n)?;
    for lost in 0..n {
        spare.push(Matrix::with_capacity(alloc, (n - lost) * k, cols)?)?;
    }
    Ok(spare)
}

// One of more than `left` spare matrices.
fn take_spare(walk: &Walk, left: u32, spare: &mut Vec<Matrix<Gf256>>) -> Matrix<Gf256>
    requires { IsRoom (image_width walk.now.code.now (walk.now.classes.now.t + 1)) (left + 1) spare.old.items }
    ensures cols { result.cols ≡ image_width walk.now.code.now (walk.now.classes.now.t + 1) }
    ensures left { IsRoom (image_width walk.now.code.now (walk.now.classes.now.t + 1)) left spare.new.items }
{
    let _count = walk.classes.count();
    match spare.pop() {
        Some(m) => m,
        None => unreachable!(),
    }
}

// Gives a matrix back to those that are spare.
fn give_back(
    walk: &Walk,
    left: u32,
    spare: &mut Vec<Matrix<Gf256>>,
    m: Matrix<Gf256>,
) -> Result<(), NoMemory>
    requires room { IsRoom (image_width walk.now.code.now (walk.now.classes.now.t + 1)) left spare.old.items }
    requires cols { m.cols ≡ image_width walk.now.code.now (walk.now.classes.now.t + 1) }
    ensures { OnOk result (IsRoom (image_width walk.now.code.now (walk.now.classes.now.t + 1)) (left + 1) spare.new.items) }
{
    let _count = walk.classes.count();
    spare.push(m)?;
    Ok(())
}

// The same as `first_behind_burst`, with a worker's room: the flags of a class, and a matrix for each slot that it loses.
fn first_among_all(
    walk: &Walk,
    flags: &mut [bool],
    spare: &mut Vec<Matrix<Gf256>>,
    from: u32,
    to: u32,
) -> Result<Option<u32>, NoMemory>
    requires behind { 1 ≤ from }
    requires within { to ≤ class_count walk.now.classes.now }
    requires burst { DecidesAt walk.now.code.now walk.now.classes.now 0 }
    requires flags { length flags.old ≡ walk.now.classes.now.t + 1 }
    requires spare { IsRoom (image_width walk.now.code.now (walk.now.classes.now.t + 1)) walk.now.classes.now.n spare.old.items }
    ensures { IfOk result (FirstIn walk.now.code.now walk.now.classes.now from to) }
{
    let _count = walk.classes.count();
    let _k = walk.code.k();
    flags[0] = true;
    let front = all_behind_burst(walk, flags);
    let mut vectors = take_spare(walk, front.left, spare);
    vectors.clear();
    open_lost(walk, flags, 0, &mut vectors)?;
    first_among(walk, flags, spare, front, &mut vectors, from, to)
}

// All classes behind the first: flag 0 is set.
fn all_behind_burst(walk: &Walk, flags: &[bool]) -> Front
    requires room { length flags.now ≡ walk.now.classes.now.t + 1 }
    requires set { IsSet flags.now 0 }
    ensures front { IsFrontOf walk.now.classes.now flags.now result.done result.left result.first result.ways }
    ensures few { result.left ≤ 40 }
    ensures left { result.left + 1 ≡ walk.now.classes.now.n }
    ensures done { result.done ≡ 1 }
    ensures first { result.first ≡ 1 }
    ensures all { result.first + result.ways ≡ class_count walk.now.classes.now }
{
    Front {
        done: 1,
        left: walk.classes.channel().n() - 1,
        first: 1,
        ways: walk.classes.count() - 1,
    }
}

// The first class of a front from `from` to `to` - 1 that the code doesn't decide.
#[cycle(first_among)]
fn first_among(
    walk: &Walk,
    flags: &mut [bool],
    spare: &mut Vec<Matrix<Gf256>>,
    front: Front,
    vectors: &mut Matrix<Gf256>,
    from: u32,
    to: u32,
) -> Result<Option<u32>, NoMemory>
    requires room { length flags.old ≡ walk.now.classes.now.t + 1 }
    requires front { IsFrontOf walk.now.classes.now flags.old front.done front.left front.first front.ways }
    requires span { IsSpan walk.now.code.now (walk.now.classes.now.t + 1) (take front.done flags.old) vectors.old }
    requires rows { row_count vectors.old ≤ front.done * 64 }
    requires few { front.left ≤ 40 }
    requires spare { IsRoom (image_width walk.now.code.now (walk.now.classes.now.t + 1)) front.left spare.old.items }
    requires burst { DecidesAt walk.now.code.now walk.now.classes.now 0 }
    requires low { front.first ≤ from }
    requires high { to ≤ front.first + front.ways }
    ensures found { IfOk result (FirstIn walk.now.code.now walk.now.classes.now from to) }
    ensures kept { take front.done flags.new ≡ take front.done flags.old }
    ensures room { length flags.new ≡ length flags.old }
    ensures spare { IfOk result (λ _. IsRoom (image_width walk.now.code.now (walk.now.classes.now.t + 1)) front.left spare.new.items) }
    ensures width { vectors.new.cols ≡ vectors.old.cols }
{
    if from >= to {
        return Ok(None);
    }
    if is_within_burst(walk, front) {
        return Ok(None);
    }
    if is_known(walk, flags, front, vectors) {
        return Ok(None);
    }
    if front.done == flags.len() {
        return Ok(Some(from));
    }
    first_below(walk, flags, spare, front, vectors, from, to)
}

// Whether the one class of a front loses slots of class 0 alone.
fn is_within_burst(walk: &Walk, front: Front) -> bool
    ensures within { IsTrue result → (front.left ≡ 0) × (front.done ≤ walk.now.classes.now.b) }
    ensures ordered { walk.now.classes.now.b ≤ walk.now.classes.now.t }
{
    let _count = walk.classes.count();
    front.left == 0 && front.done <= walk.classes.channel().b() as usize
}

// Whether the slots of a front tell block 0.
fn is_known(walk: &Walk, flags: &[bool], front: Front, vectors: &Matrix<Gf256>) -> bool
    requires room { length flags.now ≡ walk.now.classes.now.t + 1 }
    requires span { IsSpan walk.now.code.now (walk.now.classes.now.t + 1) (take front.done flags.now) vectors.now }
    requires first_lost { IsSet (take front.done flags.now) 0 }
    ensures { IsTrue result ↔ IsDecided 0 gf256_product walk.now.code.now (take front.done flags.now) }
{
    let _count = walk.classes.count();
    vectors.known();
    are_zero_from(vectors, flags.len() * walk.code.r())
}

// The same, where a slot is still to come.
#[cycle(first_among)]
fn first_below(
    walk: &Walk,
    flags: &mut [bool],
    spare: &mut Vec<Matrix<Gf256>>,
    front: Front,
    vectors: &mut Matrix<Gf256>,
    from: u32,
    to: u32,
) -> Result<Option<u32>, NoMemory>
    requires room { length flags.old ≡ walk.now.classes.now.t + 1 }
    requires slot { front.done < length flags.old }
    requires front { IsFrontOf walk.now.classes.now flags.old front.done front.left front.first front.ways }
    requires span { IsSpan walk.now.code.now (walk.now.classes.now.t + 1) (take front.done flags.old) vectors.old }
    requires rows { row_count vectors.old ≤ front.done * 64 }
    requires few { front.left ≤ 40 }
    requires spare { IsRoom (image_width walk.now.code.now (walk.now.classes.now.t + 1)) front.left spare.old.items }
    requires burst { DecidesAt walk.now.code.now walk.now.classes.now 0 }
    requires low { front.first ≤ from }
    requires high { to ≤ front.first + front.ways }
    ensures found { IfOk result (FirstIn walk.now.code.now walk.now.classes.now from to) }
    ensures kept { take front.done flags.new ≡ take front.done flags.old }
    ensures room { length flags.new ≡ length flags.old }
    ensures spare { IfOk result (λ _. IsRoom (image_width walk.now.code.now (walk.now.classes.now.t + 1)) front.left spare.new.items) }
    ensures width { vectors.new.cols ≡ vectors.old.cols }
{
    let middle = front.first + ways_lost(walk, flags, front);
    let high = to.min(middle);
    let found = first_lost(walk, flags, spare, front, vectors, middle, from, high)?;
    if found.is_some() {
        return Ok(found);
    }
    let low = from.max(middle);
    first_kept(walk, flags, spare, front, vectors, middle, low, to)
}

// The same of those that lose the next slot, which are before index `middle`.
#[cycle(first_among)]
fn first_lost(
    walk: &Walk,
    flags: &mut [bool],
    spare: &mut Vec<Matrix<Gf256>>,
    front: Front,
    vectors: &Matrix<Gf256>,
    middle: u32,
    from: u32,
    to: u32,
) -> Result<Option<u32>, NoMemory>
    requires room { length flags.old ≡ walk.now.classes.now.t + 1 }
    requires slot { front.done < length flags.old }
    requires front { IsFrontOf walk.now.classes.now flags.old front.done front.left front.first front.ways }
    requires span { IsSpan walk.now.code.now (walk.now.classes.now.t + 1) (take front.done flags.old) vectors.now }
    requires rows { row_count vectors.now ≤ front.done * 64 }
    requires few { front.left ≤ 40 }
    requires spare { IsRoom (image_width walk.now.code.now (walk.now.classes.now.t + 1)) front.left spare.old.items }
    requires burst { DecidesAt walk.now.code.now walk.now.classes.now 0 }
    requires middle { middle ≡ front.first + front.ways * front.left / (length flags.old - front.done) }
    requires low { front.first ≤ from }
    requires high { to ≤ middle }
    ensures found { IfOk result (FirstIn walk.now.code.now walk.now.classes.now from to) }
    ensures kept { take front.done flags.new ≡ take front.done flags.old }
    ensures room { length flags.new ≡ length flags.old }
    ensures spare { IfOk result (λ _. IsRoom (image_width walk.now.code.now (walk.now.classes.now.t + 1)) front.left spare.new.items) }
{
    if from >= to {
        return Ok(None);
    }
    flags[front.done] = true;
    let next = lost_next(walk, flags, front, middle);
    let mut more = take_spare(walk, next.left, spare);
    copy_rows(&mut more, vectors)?;
    open_lost(walk, flags, front.done, &mut more)?;
    let found = first_among(walk, flags, spare, next, &mut more, from, to)?;
    give_back(walk, next.left, spare, more)?;
    Ok(found)
}

// The same of those that keep the next slot, which are from index `middle` on.
#[cycle(first_among)]
fn first_kept(
    walk: &Walk,
    flags: &mut [bool],
    spare: &mut Vec<Matrix<Gf256>>,
    front: Front,
    vectors: &mut Matrix<Gf256>,
    middle: u32,
    from: u32,
    to: u32,
) -> Result<Option<u32>, NoMemory>
    requires room { length flags.old ≡ walk.now.classes.now.t + 1 }
    requires slot { front.done < length flags.old }
    requires front { IsFrontOf walk.now.classes.now flags.old front.done front.left front.first front.ways }
    requires span { IsSpan walk.now.code.now (walk.now.classes.now.t + 1) (take front.done flags.old) vectors.old }
    requires rows { row_count vectors.old ≤ front.done * 64 }
    requires few { front.left ≤ 40 }
    requires spare { IsRoom (image_width walk.now.code.now (walk.now.classes.now.t + 1)) front.left spare.old.items }
    requires burst { DecidesAt walk.now.code.now walk.now.classes.now 0 }
    requires middle { middle ≡ front.first + front.ways * front.left / (length flags.old - front.done) }
    requires within { middle ≤ front.first + front.ways }
    requires low { middle ≤ from }
    requires high { to ≤ front.first + front.ways }
    ensures found { IfOk result (FirstIn walk.now.code.now walk.now.classes.now from to) }
    ensures kept { take front.done flags.new ≡ take front.done flags.old }
    ensures room { length flags.new ≡ length flags.old }
    ensures spare { IfOk result (λ _. IsRoom (image_width walk.now.code.now (walk.now.classes.now.t + 1)) front.left spare.new.items) }
    ensures width { vectors.new.cols ≡ vectors.old.cols }
{
    flags[front.done] = false;
    let next = kept_next(walk, flags, front, middle);
    open_kept(walk, flags, front.done, vectors);
    first_among(walk, flags, spare, next, vectors, from, to)
}

// What is open once slot `done` is lost too.
fn open_lost(
    walk: &Walk,
    flags: &[bool],
    done: usize,
    vectors: &mut Matrix<Gf256>,
) -> Result<(), NoMemory>
    requires room { length flags.now ≡ walk.now.classes.now.t + 1 }
    requires slot { done < length flags.now }
    requires set { slice_index_or flags.now done false ≡ true }
    requires span { IsSpan walk.now.code.now (walk.now.classes.now.t + 1) (take done flags.now) vectors.old }
    requires rows { row_count vectors.old ≤ done * 64 }
    ensures span { OnOk result (IsSpan walk.now.code.now (walk.now.classes.now.t + 1) (take (done + 1) flags.now) vectors.new) }
    ensures rows { OnOk result (row_count vectors.new ≤ (done + 1) * 64) }
{
    let _count = walk.classes.count();
    push_units(vectors, walk.images, walk.code.k(), done)?;
    vectors.known();
    Ok(())
}

// What is open once slot `done` is kept.
fn open_kept(walk: &Walk, flags: &[bool], done: usize, vectors: &mut Matrix<Gf256>)
    requires room { length flags.now ≡ walk.now.classes.now.t + 1 }
    requires slot { done < length flags.now }
    requires clear { slice_index_or flags.now done true ≡ false }
    requires span { IsSpan walk.now.code.now (walk.now.classes.now.t + 1) (take done flags.now) vectors.old }
    requires rows { row_count vectors.old ≤ done * 64 }
    ensures span { IsSpan walk.now.code.now (walk.now.classes.now.t + 1) (take (done + 1) flags.now) vectors.new }
    ensures rows { row_count vectors.new ≤ (done + 1) * 64 }
{
    let _count = walk.classes.count();
    let r = walk.code.r();
    clear_columns(vectors, done * r, r);
}

// How many classes of a front lose the next slot.
fn ways_lost(walk: &Walk, flags: &[bool], front: Front) -> u32
    requires room { length flags.now ≡ walk.now.classes.now.t + 1 }
    requires slot { front.done < length flags.now }
    requires front { IsFrontOf walk.now.classes.now flags.now front.done front.left front.first front.ways }
    requires few { front.left ≤ 40 }
    ensures value { result ≡ front.ways * front.left / (length flags.now - front.done) }
    ensures within { result ≤ front.ways }
    ensures in_range { front.first + front.ways ≤ class_count walk.now.classes.now }
    ensures small { class_count walk.now.classes.now ≤ 1000000 }
{
    let _count = walk.classes.count();
    front.ways * front.left / (flags.len() - front.done) as u32
}

// The classes of a front that lose the next slot: those before index `middle`.
fn lost_next(walk: &Walk, flags: &[bool], front: Front, middle: u32) -> Front
    requires room { length flags.now ≡ walk.now.classes.now.t + 1 }
    requires slot { front.done < length flags.now }
    requires front { IsFrontOf walk.now.classes.now flags.now front.done front.left front.first front.ways }
    requires few { front.left ≤ 40 }
    requires middle { middle ≡ front.first + front.ways * front.left / (length flags.now - front.done) }
    requires some { front.first < middle }
    requires set { slice_index_or flags.now front.done false ≡ true }
    ensures front { IsFrontOf walk.now.classes.now flags.now result.done result.left result.first result.ways }
    ensures done { result.done ≡ front.done + 1 }
    ensures few { result.left ≤ 40 }
    ensures left { result.left + 1 ≡ front.left }
    ensures first { result.first ≡ front.first }
    ensures last { result.first + result.ways ≡ middle }
{
    Front {
        done: front.done + 1,
        left: front.left - 1,
        first: front.first,
        ways: middle - front.first,
    }
}

// The classes of a front that keep the next slot: those from index `middle` on.
fn kept_next(walk: &Walk, flags: &[bool], front: Front, middle: u32) -> Front
    requires room { length flags.now ≡ walk.now.classes.now.t + 1 }
    requires slot { front.done < length flags.now }
    requires front { IsFrontOf walk.now.classes.now flags.now front.done front.left front.first front.ways }
    requires few { front.left ≤ 40 }
    requires middle { middle ≡ front.first + front.ways * front.left / (length flags.now - front.done) }
    requires within { middle ≤ front.first + front.ways }
    requires clear { slice_index_or flags.now front.done true ≡ false }
    ensures front { IsFrontOf walk.now.classes.now flags.now result.done result.left result.first result.ways }
    ensures done { result.done ≡ front.done + 1 }
    ensures few { result.left ≤ 40 }
    ensures left { result.left ≡ front.left }
    ensures first { result.first ≡ middle }
    ensures last { result.first + result.ways ≡ front.first + front.ways }
{
    Front {
        done: front.done + 1,
        left: front.left,
        first: middle,
        ways: front.ways - (middle - front.first),
    }
}
