//! The generated loss.
ghost use Rattle.std.specs.Prelude.{◌≡◌, ◌+◌, ◌-◌, ◌%◌, ◌<◌, ◌==◌, ◌&&◌, true, [], ◌∷◌, ◌++◌, length, take, IfOk};
ghost use Rattle.rand_pcg.specs.Lcg.{advance};
ghost use Rattle.rand_pcg.specs.Pcg.{multiplier_64};
ghost use Rattle.sc_channel.specs.Loss.{IsAdmissible};
ghost use Rattle.sc_trial.specs.Draw.{generator, word_at};
ghost use Rattle.sc_trial.specs.Loss.{IsGeneratedLoss, GeneratedLossesAreOne, is_admissible, generated_loss};

use super::draw::{SEQUENCE, draw_loss};
use rand_pcg::Pcg32;
use sc_channel::{Channel, Flags, first_bad_window};
use sc_outside::NoMemory;
use std::alloc::Global;

/// The generated loss of a seed, of `len` flags: slot after slot takes one word, and is lost exactly where that word is
/// divisible by 3 and the channel admits the loss so far with this flag set. It takes memory for the flags alone, once, and
/// looks back over one window of the channel for each slot that is drawn.
pub fn gen_loss(alloc: Global, seed: u64, channel: &Channel, len: u32) -> Result<Flags, NoMemory>
    ensures flags { IfOk result (λ loss. loss ≡ generated_loss (generator seed) channel.now len) }
    ensures count { IfOk result (λ loss. length loss ≡ len) }
    ensures slots { IfOk result (IsGeneratedLoss (generator seed) channel.now) }
    ensures admissible { IfOk result (IsAdmissible channel.now) }
{
    let mut flags = vec![in alloc; false; len as usize]?;
    let mut words = Pcg32::new(seed, SEQUENCE);
    draw_flags(&mut words, channel, &mut flags);
    Ok(Flags::from_vec(flags))
}

/// Of each length there is one loss each of whose slots is lost exactly where its word and the channel say so. It does nothing;
/// its contract is the law.
pub fn one_generated_loss()
    ensures { GeneratedLossesAreOne }
{}

/// Draws the flags of a slice, in order.
fn draw_flags(words: &mut Pcg32, channel: &Channel, flags: &mut [bool])
    ensures { flags.new ≡ generated_loss words.old channel.now (length flags.old) }
{
    for i in 0..flags.len() {
        draw_flag(words, channel, flags, i);
    }
}

/// Draws the flag of slot `i`, behind an admissible loss of the slots before it.
fn draw_flag(words: &mut Pcg32, channel: &Channel, flags: &mut [bool], i: usize)
    requires within { i < length flags.old }
    requires before { IsAdmissible channel.now (take i flags.old) }
    ensures length { length flags.new ≡ length flags.old }
    ensures flag { take (i + 1) flags.new
        ≡ take i flags.old ++ ((word_at words.old 0 % 3 == 0) && is_admissible channel.now (take i flags.old ++ true ∷ [])) ∷ [] }
    ensures step { words.new ≡ advance 64 multiplier_64 1 words.old }
{
    let drawn = draw_loss(words);
    flags[i] = true;
    flags[i] = drawn && admits_last(channel, &flags[..i + 1]);
}

/// Whether a loss is admissible that is so without its last flag. It looks at the last flags alone, as many as a window has:
/// all other parts end before the last flag.
fn admits_last(channel: &Channel, flags: &[bool]) -> bool
    requires before { IsAdmissible channel.now (take (length flags.now - 1) flags.now) }
    ensures { result ≡ is_admissible channel.now flags.now }
{
    let start = flags.len().saturating_sub(channel.w() as usize);
    first_bad_window(channel, &flags[start..]).is_none()
}
