//! Laws of losses and differences. The functions do nothing: each has a law as its contract.

ghost use Rattle.std.specs.Prelude.{◌≡◌, ◌≤◌, ◌+◌, ◌*◌, ℕ, List, [], ◌∷◌, Bool, length, map, bit_xor};
ghost use Rattle.sc_field.specs.Gf256.{gf256_product};
ghost use Rattle.sc_channel.specs.Channel.{ChannelNumbers};
ghost use Rattle.sc_channel.specs.Flags.{IsSet, set_count};
ghost use Rattle.sc_channel.specs.Loss.{IsAdmissible};
ghost use Rattle.sc_matrix.specs.Module.{IsByte};
ghost use Rattle.sc_matrix.specs.Vector.{IsVector};
ghost use Rattle.sc_code.specs.Code.{Code as CodeOf, IsCode};
ghost use Rattle.sc_window.specs.Window.{lost_symbols, spelled, IsLostStream};
ghost use Rattle.sc_window.specs.Difference.{IsLeastDifference, IsLeastByteDifference, IsLeastRefutation};

use sc_field::Field;

/// A vector of k entries for each lost slot spells a stream that is zero in the kept slots, and is the list of that stream's
/// lost symbols. Each such stream is spelled by the list of its lost symbols, and so by exactly one vector.
pub fn vectors_spell_streams<F: Field>()
    ensures stream { (k : ℕ) (class : List Bool) (v : List F) → IsVector F.IsElement (k * set_count class) v → IsLostStream F.IsElement F.zero k class (spelled F.zero k class v) }
    ensures read_back { (k : ℕ) (class : List Bool) (v : List F) → IsVector F.IsElement (k * set_count class) v → lost_symbols class (spelled F.zero k class v) ≡ v }
    ensures vector { (k : ℕ) (class : List Bool) (xs : List (List F)) → IsLostStream F.IsElement F.zero k class xs → IsVector F.IsElement (k * set_count class) (lost_symbols class xs) }
    ensures spelled { (k : ℕ) (class : List Bool) (xs : List (List F)) → IsLostStream F.IsElement F.zero k class xs → spelled F.zero k class (lost_symbols class xs) ≡ xs }
{}

/// Over the field of 256 elements, whose elements are the bytes, the least difference is the least stream of width 1 that is
/// zero in each kept slot and whose block 0 isn't zero: each symbol is its number, as one byte.
pub fn differences_are_bytes()
    ensures { (code : CodeOf ℕ) (class : List Bool) (numbers : List (List ℕ)) → 1 ≤ length class → IsLeastDifference IsByte 0 bit_xor gf256_product (λ n. n) code class numbers
        → IsLeastByteDifference 0 gf256_product code class (map (map (λ n. n ∷ [])) numbers) }
{}

/// Over the field of 256 elements, the least difference of an admissible loss of one flag more than the deadline, with flag 0
/// set, is the least stream that refutes the code with this loss: it shows that the code doesn't meet the channel.
pub fn least_differences_refute()
    ensures { (code : CodeOf ℕ) (channel : ChannelNumbers) (loss : List Bool) (numbers : List (List ℕ)) → IsCode IsByte code → length loss ≡ channel.t + 1 → IsSet loss 0 → IsAdmissible channel loss
        → IsLeastDifference IsByte 0 bit_xor gf256_product (λ n. n) code loss numbers → IsLeastRefutation 0 gf256_product code channel loss (map (map (λ n. n ∷ [])) numbers) }
{}
