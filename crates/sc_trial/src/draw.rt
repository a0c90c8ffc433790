//! Drawn bytes, and the draw of a lost slot.
ghost use Rattle.std.specs.Prelude.{◌≡◌, ◌%◌, ◌==◌, length};
ghost use Rattle.rand_pcg.specs.Lcg.{advance};
ghost use Rattle.rand_pcg.specs.Pcg.{multiplier_64};
ghost use Rattle.sc_trial.specs.Draw.{word_at, drawn};

use rand_core::utils::NextWord;
use rand_pcg::Pcg32;

/// The sequence of PCG32 that all draws of the project use.
pub(crate) const SEQUENCE: u64 = 54;

/// Draws a byte: the low 8 bits of the next word.
#[inline]
fn draw_byte(words: &mut Pcg32) -> u8
    ensures byte { result ≡ word_at words.old 0 % 256 }
    ensures step { words.new ≡ advance 64 multiplier_64 1 words.old }
{
    (words.next_word() & 0xff) as u8
}

/// Draws the bytes of a slice, in order.
#[inline]
pub(crate) fn draw(words: &mut Pcg32, bytes: &mut [u8])
    ensures bytes { bytes.new ≡ drawn words.old 0 (length bytes.old) }
    ensures steps { words.new ≡ advance 64 multiplier_64 (length bytes.old) words.old }
{
    for byte in bytes.iter_mut() {
        *byte = draw_byte(words);
    }
}

/// Draws whether the next slot would be lost: the next word is divisible by 3.
pub(crate) fn draw_loss(words: &mut Pcg32) -> bool
    ensures drawn { result ≡ (word_at words.old 0 % 3 == 0) }
    ensures step { words.new ≡ advance 64 multiplier_64 1 words.old }
{
    words.next_word() % 3 == 0
}
