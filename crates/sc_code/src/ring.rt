//! The last blocks of a stream, side by side in one block of memory.

ghost use Rattle.std.specs.Prelude.{◌≡◌, ◌+◌, ◌*◌, ◌^◌, ◌<◌, ◌≤◌, [], ◌∷◌, ◌++◌, IfOk, All, length, drop, replicate};
ghost use Rattle.sc_code.specs.Ring.{blocks_of, place_of, AreApart};

use circular_buffer::HeapCircularBuffer;
use sc_outside::NoMemory;
use std::alloc::Global;
use std::marker::Model;

// As many blocks of `size` bytes as it was made for. A new one takes the place of the oldest.
#[derive(Drop)]
pub(crate) struct Ring {
    size: usize,
    bytes: Vec<u8>,
    // Where each block begins in `bytes`, the oldest first.
    places: HeapCircularBuffer<usize>,
}

impl Model for Ring {
    ghost use Rattle.std.specs.Prelude.{◌≡◌, length};
    ghost use Rattle.sc_code.specs.Ring.{Ring as RingOf, ring_code, IsRing};

    ghost Value = { RingOf };

    ghost coded = { ring_code };

    ghost view = { λ r. record { size = r.size; bytes = r.bytes.items; places = r.places.items } };

    ghost invariant = { λ r. IsRing (record { size = r.size; bytes = r.bytes.items; places = r.places.items }) × (length r.places.items ≡ r.places.capacity) };
}

impl Ring {
    // `count` blocks of zeros.
    pub(crate) fn zeros(alloc: Global, count: usize, size: usize) -> Result<Ring, NoMemory>
        requires some { 1 ≤ count }
        requires small { count * size < 2 ^ 32 }
        ensures size { IfOk result (λ r. r.size ≡ size) }
        ensures count { IfOk result (λ r. length r.places ≡ count) }
        ensures blocks { IfOk result (λ r. blocks_of r ≡ replicate count (replicate size 0)) }
    {
        let bytes = vec![in alloc; 0; count * size]?;
        let places = places_of(alloc, count, size)?;
        Ok(Ring {
            size,
            bytes,
            places,
        })
    }

    // Puts a block in the place of the oldest.
    pub(crate) fn push(&mut self, block: &[u8])
        requires { length block.now ≡ self.old.size }
        ensures blocks { blocks_of self.new ≡ drop 1 (blocks_of self.old) ++ block.now ∷ [] }
        ensures size { self.new.size ≡ self.old.size }
        ensures count { length self.new.places ≡ length self.old.places }
        ensures bytes { All (λ b. b < 2 ^ 8) self.new.bytes }
    {
        if let Some(place) = self.places.front().copied() {
            self.bytes[place..place + self.size].copy_from_slice(block);
            self.places.push_back(place);
            known(&self.bytes);
        }
    }

    // The place of the block that is `lag` blocks older than the newest.
    pub(crate) fn place(&self, lag: usize) -> usize
        requires { lag < length self.now.places }
        ensures value { result ≡ place_of self.now lag }
        ensures within { result + self.now.size ≤ length self.now.bytes }
    {
        match self.places.nth_back(lag) {
            Some(place) => *place,
            None => 0,
        }
    }

    // All blocks.
    pub(crate) fn bytes(&self) -> &[u8]
        ensures value { result.now ≡ self.now.bytes }
        ensures within { All (λ place. place + self.now.size ≤ length self.now.bytes) self.now.places }
        ensures bytes { All (λ b. b < 2 ^ 8) self.now.bytes }
    {
        known(&self.bytes);
        self.bytes.as_slice()
    }
}

// Does nothing. Its contract says what the type does: a byte is below 256.
fn known(xs: &[u8])
    ensures { All (λ b. b < 2 ^ 8) xs.now }
{}

// The places of `count` blocks of `size` bytes side by side.
fn places_of(
    alloc: Global,
    count: usize,
    size: usize,
) -> Result<HeapCircularBuffer<usize>, NoMemory>
    requires { count * size < 2 ^ 32 }
    ensures count { IfOk result (λ b. length b.items ≡ count) }
    ensures full { IfOk result (λ b. b.capacity ≡ count) }
    ensures within { IfOk result (λ b. All (λ place. place + size ≤ count * size) b.items) }
    ensures apart { IfOk result (λ b. AreApart size b.items) }
{
    let mut places = HeapCircularBuffer::with_capacity(alloc, count)?;
    for q in 0..count {
        places.push_back(q * size);
    }
    Ok(places)
}
