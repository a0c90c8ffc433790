//! Laws of the check. The functions do nothing: each has a law as its contract.

ghost use Rattle.std.specs.Prelude.{◌≡◌, ◌↔◌, ℕ, Option, All, MatchOption};
ghost use Rattle.sc_channel.specs.Channel.{ChannelNumbers, IsChannel, IsOrdered};
ghost use Rattle.sc_channel.specs.Classes.{classes_of};
ghost use Rattle.sc_code.specs.Code.{Code as CodeOf, IsCode};
ghost use Rattle.sc_code.specs.Determined.{IsDecided, Meets};
ghost use Rattle.sc_check.specs.Failing.{DecidesAll, IsFirstFailing};
ghost use Rattle.sc_field.specs.Gf256.{gf256_product};
ghost use Rattle.sc_matrix.specs.Module.{IsByte};
ghost use Rattle.sc_check.specs.Answer.{Refuted, refuted_of};
ghost use Rattle.sc_check.specs.Verdict.{IsLeastRefutation};

use sc_field::Field;

/// A code meets a channel, for every slot, every admissible loss and every width, exactly where each class of the list of the
/// channel's classes decides.
pub fn meets_where_classes_decide<F: Field>()
    ensures { (code : CodeOf F) (channel : ChannelNumbers) → IsCode F.IsElement code → IsOrdered channel.w channel.b channel.n channel.t
        → Meets F.zero F.act code channel ↔ All (IsDecided F.zero F.act code) (classes_of channel) }
{}

/// There is one answer to which class is the first that a code doesn't decide. So whatever the workers are, the answer is the
/// same.
pub fn one_first_failing()
    ensures { (code : CodeOf ℕ) (channel : ChannelNumbers) (a b : Option ℕ) → MatchOption a (DecidesAll code channel) (IsFirstFailing code channel)
        → MatchOption b (DecidesAll code channel) (IsFirstFailing code channel) → a ≡ b }
{}

/// What a check answers, as a function of the code and the channel: nothing exactly where the code meets the channel, and else
/// the least refutation.
pub fn answers_are_right()
    ensures meets { (code : CodeOf ℕ) (channel : ChannelNumbers) → IsCode IsByte code → IsChannel channel
        → (refuted_of code channel ≡ None) ↔ Meets 0 gf256_product code channel }
    ensures refutes { (code : CodeOf ℕ) (channel : ChannelNumbers) (r : Refuted) → IsCode IsByte code → IsChannel channel → refuted_of code channel ≡ Some r
        → IsLeastRefutation code channel r.index r.class r.stream }
{}
