//! Whether a loss is decided, and the least difference where it isn't.

ghost use Rattle.std.specs.Prelude.{◌≡◌, ◌↔◌, ◌<◌, ◌≤◌, ◌*◌, ◌++◌, ℕ, List, length, map, replicate, IsTrue, All, IfOk, OnOk, IfSome, MatchOption};
ghost use Rattle.sc_channel.specs.Flags.{IsSet, set_count};
ghost use Rattle.sc_matrix.specs.Vector.{IsVector};
ghost use Rattle.sc_echelon.specs.Kernel.{IsKernelVector, IsFree};
ghost use Rattle.sc_code.specs.Elements.{IsDecidedOver};
ghost use Rattle.sc_window.specs.Window.{spelled, symbols_of, IsZeroWhereKept};
ghost use Rattle.sc_window.specs.Difference.{IsLeastDifference};

use crate::window::window_matrix;
use sc_code::{Code, Stream};
use sc_echelon::Reduced;
use sc_field::Field;
use sc_outside::NoMemory;
use std::alloc::Global;

/// Whether the slots that a loss keeps determine block 0: every stream that is zero in each kept slot, in block and parity, has
/// a zero block 0.
///
/// `class` has a flag for each slot from slot 0 on, which is set where the slot is lost; there are 1 to 41 flags, and that of
/// slot 0 is set. All of them may be set.
pub fn decides<F: Field>(alloc: Global, code: &Code<F>, class: &[bool]) -> Result<bool, NoMemory>
    requires few { length class.now ≤ 41 }
    requires first_lost { IsSet class.now 0 }
    ensures { IfOk result (λ b. IsTrue b ↔ IsDecidedOver F.IsElement F.zero F.add F.mul code.now class.now) }
{
    let reduced = reduced_window(alloc, code, class)?;
    Ok(none_free(&reduced, code.k()))
}

// A reduced form of the window matrix.
fn reduced_window<F: Field>(
    alloc: Global,
    code: &Code<F>,
    class: &[bool],
) -> Result<Reduced<F>, NoMemory>
    requires { length class.now ≤ 41 }
    ensures cols { IfOk result (λ r. r.cols ≡ code.now.k * set_count class.now) }
    ensures kernel { IfOk result (λ r. (v : List F) → IsKernelVector F.IsElement F.zero F.add F.mul r.cols r.rows v
        ↔ (IsVector F.IsElement (code.now.k * set_count class.now) v × IsZeroWhereKept F.zero F.add F.mul code.now class.now (spelled F.zero code.now.k class.now v))) }
{
    let matrix = window_matrix(alloc, code, class)?;
    Reduced::of(alloc, &matrix)
}

// Whether none of the first `n` columns is free.
fn none_free<F: Field>(reduced: &Reduced<F>, n: usize) -> bool
    requires { n ≤ reduced.now.cols }
    ensures { IsTrue result ↔ ((col : ℕ) → col < n → IsFree F.zero (IsKernelVector F.IsElement F.zero F.add F.mul reduced.now.cols reduced.now.rows) col → ⊥) }
{
    for col in 0..n {
        if reduced.is_free(col) {
            return false;
        }
    }
    true
}

/// The least stream with a block for each flag that is zero in each kept slot, in block and parity, with block 0 not zero: of
/// all these streams the first, where they are compared symbol by symbol, block after block, by the numbers of the symbols. It
/// shows that the loss isn't decided. None exactly where the loss is decided.
///
/// `class` is as in [`decides`].
pub fn least_difference<F: Field>(
    alloc: Global,
    code: &Code<F>,
    class: &[bool],
) -> Result<Option<Stream>, NoMemory>
    requires few { length class.now ≤ 41 }
    requires first_lost { IsSet class.now 0 }
    ensures least { IfOk result (λ least. MatchOption least
        (IsDecidedOver F.IsElement F.zero F.add F.mul code.now class.now)
        (IsLeastDifference F.IsElement F.zero F.add F.mul F.number code.now class.now)) }
    ensures blocks { IfOk result (λ least. IfSome least (λ s. length s ≡ length class.now)) }
    ensures symbols { IfOk result (λ least. IfSome least (λ s. All (λ block. length block ≡ code.now.k) s)) }
{
    let reduced = reduced_window(alloc, code, class)?;
    match reduced.least_kernel(alloc, code.k())? {
        None => Ok(None),
        Some(vector) => {
            let stream = stream_of(alloc, code.k(), class, vector.as_slice())?;
            Ok(Some(stream))
        }
    }
}

// The stream that a vector spells, of the symbols' numbers.
fn stream_of<F: Field>(
    alloc: Global,
    k: usize,
    class: &[bool],
    vector: &[F],
) -> Result<Stream, NoMemory>
    requires some { 1 ≤ k }
    requires small { k ≤ 64 }
    requires few { length class.now ≤ 41 }
    requires width { length vector.now ≡ k * set_count class.now }
    ensures spelled { IfOk result (λ s. s ≡ map (map F.number) (spelled F.zero k class.now vector.now)) }
    ensures blocks { IfOk result (λ s. length s ≡ length class.now) }
    ensures symbols { IfOk result (λ s. All (λ block. length block ≡ k) s) }
{
    let numbers = spell(alloc, k, class, vector)?;
    Ok(Stream::new(k, numbers))
}

// The numbers of the symbols of the stream that a vector spells, block after block.
fn spell<F: Field>(
    alloc: Global,
    k: usize,
    class: &[bool],
    vector: &[F],
) -> Result<Vec<u8>, NoMemory>
    requires small { k ≤ 64 }
    requires few { length class.now ≤ 41 }
    requires width { length vector.now ≡ k * set_count class.now }
    ensures { IfOk result (λ ns. ns.items ≡ map F.number (symbols_of (spelled F.zero k class.now vector.now))) }
{
    let mut numbers = Vec::with_capacity(alloc, k * class.len())?;
    let mut from = 0;
    for t in 0..class.len() {
        if class[t] {
            push_numbers(&mut numbers, &vector[from..from + k])?;
            from += k;
        } else {
            push_zeros::<F>(&mut numbers, k)?;
        }
    }
    Ok(numbers)
}

// Appends the number of zero `k` times.
fn push_zeros<F: Field>(numbers: &mut Vec<u8>, k: usize) -> Result<(), NoMemory>
    ensures { OnOk result (numbers.new.items ≡ numbers.old.items ++ map F.number (replicate k F.zero)) }
{
    for _i in 0..k {
        numbers.push(F::zero().number())?;
    }
    Ok(())
}

// Appends the numbers of the elements.
fn push_numbers<F: Field>(numbers: &mut Vec<u8>, elements: &[F]) -> Result<(), NoMemory>
    ensures { OnOk result (numbers.new.items ≡ numbers.old.items ++ map F.number elements.now) }
{
    for x in elements {
        numbers.push(x.number())?;
    }
    Ok(())
}
