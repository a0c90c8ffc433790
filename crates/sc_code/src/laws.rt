//! Laws of codes. The functions do nothing: each has a law as its contract.

ghost use Rattle.std.specs.Prelude.{◌≡◌, ◌≢◌, ◌↔◌, ◌<◌, ◌≤◌, ◌+◌, ◌-◌, ℕ, suc, List, [], ◌∷◌, Bool, ◌++◌, length, replicate, bit_xor};
ghost use Rattle.sc_field.specs.Gf256.{gf256_product};
ghost use Rattle.sc_matrix.specs.Module.{IsByte};
ghost use Rattle.sc_channel.specs.Channel.{ChannelNumbers, IsOrdered};
ghost use Rattle.sc_channel.specs.Flags.{IsSet};
ghost use Rattle.sc_channel.specs.Loss.{IsAdmissible};
ghost use Rattle.sc_code.specs.Code.{Code as CodeOf, IsCode, coefficient};
ghost use Rattle.sc_code.specs.Stream.{IsStream, zero_block, block_at, byte_at, column, xor_blocks, xor_streams};
ghost use Rattle.sc_code.specs.Parity.{parity, last_blocks, sum_below};
ghost use Rattle.sc_code.specs.Determined.{IsKept, IsZeroSlot, IsDeterminedAt, IsDetermined, Meets, IsDecided, DecidesAllLosses, IsRefutation};
ghost use Rattle.sc_code.specs.Classes.{DecidesClasses};
ghost use Rattle.sc_code.specs.Elements.{IsDecidedOver};

use sc_field::Field;

/// The parity of a sum of streams is the sum of their parities. Zero blocks in front of a stream shift its parities. The
/// parity of a slot knows no later block, and of the earlier ones the last alone, as many as the greatest lag. Each of its
/// bytes is the sum over the slots up to its own, each with the matrix of the lag to it.
pub fn parity_laws<F: Field>()
    ensures adds { (code : CodeOf F) (m : ℕ) (xs ys : List (List (List ℕ))) (t : ℕ) → IsCode F.IsElement code → IsStream code.k m xs → IsStream code.k m ys → length xs ≡ length ys → t < length xs
        → parity F.zero F.act code m (xor_streams xs ys) t ≡ xor_blocks (parity F.zero F.act code m xs t) (parity F.zero F.act code m ys t) }
    ensures shifts { (code : CodeOf F) (m s : ℕ) (xs : List (List (List ℕ))) (t : ℕ)
        → parity F.zero F.act code m (replicate s (zero_block code.k m) ++ xs) (s + t) ≡ parity F.zero F.act code m xs t }
    ensures no_later { (code : CodeOf F) (m : ℕ) (xs more : List (List (List ℕ))) (t : ℕ) → t < length xs
        → parity F.zero F.act code m (xs ++ more) t ≡ parity F.zero F.act code m xs t }
    ensures last { (code : CodeOf F) (m n : ℕ) (xs : List (List (List ℕ))) (b : List (List ℕ)) → length code.lags ≤ n + 1
        → parity F.zero F.act code m (xs ++ b ∷ []) (length xs) ≡ parity F.zero F.act code m (last_blocks code.k m n xs ++ b ∷ []) n }
    ensures by_slots { (code : CodeOf F) (m : ℕ) (xs : List (List (List ℕ))) (t j c : ℕ) → IsCode F.IsElement code → IsStream code.k m xs → j < code.r → c < m
        → byte_at (parity F.zero F.act code m xs t) j c ≡ sum_below 0 bit_xor (suc t) (λ l. sum_below 0 bit_xor code.k (λ i. F.act (coefficient F.zero code (t - l) i j) (column xs c l i))) }
{}

/// A block is determined whatever the width exactly where it is determined in streams of width 1.
pub fn width_one_is_enough<F: Field>()
    ensures { (code : CodeOf F) (deadline : ℕ) (loss : List Bool) (t : ℕ) → IsDetermined F.zero F.act code deadline loss t ↔ IsDeterminedAt F.zero F.act code 1 deadline loss t }
{}

/// A code meets a channel exactly where every admissible loss of one more flag than the deadline, with flag 0 set, decides,
/// and where the window is longer than the deadline, exactly where each class decides.
pub fn meets_where_losses_decide<F: Field>()
    ensures losses { (code : CodeOf F) (channel : ChannelNumbers) → IsCode F.IsElement code
        → Meets F.zero F.act code channel ↔ DecidesAllLosses F.zero F.act code channel }
    ensures classes { (code : CodeOf F) (channel : ChannelNumbers) → IsCode F.IsElement code → IsOrdered channel.w channel.b channel.n channel.t
        → Meets F.zero F.act code channel ↔ DecidesClasses F.zero F.act code channel }
{}

/// A code that a refutation is found for doesn't meet the channel, and a stream for which an admissible loss doesn't decide
/// is a refutation.
pub fn refutations_refute<F: Field>()
    ensures refutes { (code : CodeOf F) (channel : ChannelNumbers) (loss : List Bool) (xs : List (List (List ℕ))) → IsRefutation F.zero F.act code channel loss xs
        → ¬ Meets F.zero F.act code channel }
    ensures found { (code : CodeOf F) (channel : ChannelNumbers) (loss : List Bool) (xs : List (List (List ℕ))) → IsCode F.IsElement code → length loss ≡ channel.t + 1 → IsSet loss 0 → IsAdmissible channel loss
        → IsStream code.k 1 xs → length xs ≡ length loss → ((i : ℕ) → IsKept loss i → IsZeroSlot F.zero F.act code 1 xs i) → block_at xs 0 ≢ zero_block code.k 1
        → IsRefutation F.zero F.act code channel loss xs }
{}

/// A class that decides streams of bytes decides streams of elements.
pub fn elements_decided_where_bytes_are<F: Field>()
    ensures { (code : CodeOf F) (class : List Bool) → IsCode F.IsElement code → 0 < length class → IsDecided F.zero F.act code class → IsDecidedOver F.IsElement F.zero F.add F.mul code class }
{}

/// Over the field of 256 elements a class decides streams of bytes exactly where it decides streams of elements.
pub fn bytes_are_elements()
    ensures { (code : CodeOf ℕ) (class : List Bool) → 0 < length class → IsDecidedOver IsByte 0 bit_xor gf256_product code class ↔ IsDecided 0 gf256_product code class }
{}
