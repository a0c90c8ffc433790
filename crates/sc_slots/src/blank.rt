//! Bytes that are all zero.
ghost use Rattle.std.specs.Bool.{MatchBool};
ghost use Rattle.sc_slots.specs.Frame.{IsBlank};

/// Whether all bytes are zero. It looks at each byte, so that many are looked at in one step.
pub(crate) fn is_blank(bytes: &[u8]) -> bool
    ensures { MatchBool result (IsBlank bytes.now) (IsBlank bytes.now → ⊥) }
{
    let mut bits = 0;
    for byte in bytes {
        bits |= *byte;
    }
    bits == 0
}
