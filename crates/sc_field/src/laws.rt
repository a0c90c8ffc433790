//! Laws for the crates above, each as the contract of a function that does nothing.
ghost use Rattle.std.specs.Prelude.{◌≡◌, ◌++◌, ◌<◌, ℕ, List, All, length, replicate, bit_xor, slice_index};
ghost use Rattle.sc_field.specs.Field.{IsNumber};
ghost use Rattle.sc_field.specs.Scale.{scaled_sum};
ghost use Rattle.sc_field.specs.Terms.{combined, sum_at, IsWithin};

use crate::field::Field;

/// Does nothing. Its contract says that numbers, and so bytes, are added and multiplied as their elements are.
pub fn number_laws<F: Field>()
    ensures add { (x y : F) → F.IsElement x → F.IsElement y → F.number (F.add x y) ≡ bit_xor (F.number x) (F.number y) }
    ensures mul { (x y : F) → F.IsElement x → F.IsElement y → F.number (F.mul x y) ≡ F.act x (F.number y) }
    ensures is_number { (x : F) → F.IsElement x → IsNumber F.IsElement F.number F.element (F.number x) }
    ensures xor { (m n : ℕ) → IsNumber F.IsElement F.number F.element m → IsNumber F.IsElement F.number F.element n → F.element (bit_xor m n) ≡ F.add (F.element m) (F.element n) }
    ensures xor_is_number { (m n : ℕ) → IsNumber F.IsElement F.number F.element m → IsNumber F.IsElement F.number F.element n → IsNumber F.IsElement F.number F.element (bit_xor m n) }
    ensures act { (x : F) (n : ℕ) → F.IsElement x → IsNumber F.IsElement F.number F.element n → F.element (F.act x n) ≡ F.mul x (F.element n) }
    ensures act_is_number { (x : F) (n : ℕ) → F.IsElement x → IsNumber F.IsElement F.number F.element n → IsNumber F.IsElement F.number F.element (F.act x n) }
{}

/// Does nothing. Its contract says what a sum of terms is at each place, that terms can be added in two parts, and that
/// adding a sum to bytes is the xor of them with the sum alone.
pub fn sum_laws<T>()
    ensures at { (f : T → ℕ → ℕ) (place : T → ℕ) (terms : List T) (dst src : List ℕ) → All (λ t. IsWithin (length dst) src (place t)) terms → (k : ℕ) → k < length dst → slice_index (combined f place terms dst src) k ≡ sum_at f place terms src k (slice_index dst k) }
    ensures apart { (f : T → ℕ → ℕ) (place : T → ℕ) (terms more : List T) (dst src : List ℕ) → combined f place (terms ++ more) dst src ≡ combined f place more (combined f place terms dst src) src }
    ensures added { (f : T → ℕ → ℕ) (place : T → ℕ) (terms : List T) (dst src : List ℕ) → All (λ t. IsWithin (length dst) src (place t)) terms → combined f place terms dst src ≡ scaled_sum (λ b. b) dst (combined f place terms (replicate (length dst) 0) src) }
{}
